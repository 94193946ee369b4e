//! The numbers of rows that the plan of a join goes by.

/// What a reduction of a join came to.
#[derive(Clone, Copy, Debug, PartialEq, Eq)]
pub enum Reduction {
    /// None was asked for: all kept rows are joined.
    Unasked,
    /// The join is cyclic: all kept rows are joined.
    Cyclic,
    /// Rows that are in no answer are gone.
    Reduced,
}

/// The numbers of rows of each atom of a join, over all workers.
#[derive(Clone, Copy)]
pub struct JoinSizes<'a> {
    /// Of its rows.
    pub rows: &'a [u64],
    /// Of those that its own columns don't rule out.
    pub kept: &'a [u64],
    /// Of those that are joined.
    pub joined: &'a [u64],
}
