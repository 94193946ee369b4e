//! What goes through an exchange: batches of rows, and end marks.
use rel_base::{Items, Rows};

/// Rows of one atom that go from one sender to one cell together.
#[derive(Debug, Drop)]
pub struct Batch {
    /// The number of the atom that the rows belong to.
    pub atom: u32,
    /// The rows, in the order in which they were put in.
    pub rows: Rows,
}

/// A message in an inbox: a batch of a sender, or the sender's end mark.
#[derive(Drop)]
pub struct Message {
    /// The number of the sender, from 0.
    pub sender: u32,
    /// What is sent; `None` is the end mark.
    pub batch: Option<Batch>,
}

/// What a cell took, batch by batch: the number of the sender, and the batch.
pub type Drained = Items<(u32, Batch)>;
