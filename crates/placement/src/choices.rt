//! How the rows of a join come together, as a value.

use share_chooser::Shares;

/// How the rows of a join's atoms come together.
#[derive(Clone, Copy, Debug, PartialEq, Eq)]
pub enum ShuffleChoice {
    /// At cells, with these shares.
    Cells(Shares),
    /// Two atoms at a time, by the key that they share.
    Keys,
    /// Where the rows of one atom lie, to which all others go whole.
    Broadcast {
        /// The number of this atom, from 0.
        stays: u32,
    },
}
