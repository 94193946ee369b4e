//! What running a term gives.
use algebra::TrafficNotes;
use exchange_channels::Receipts;
use rel_base::Spread;

/// What running a term gives: its rows at each worker, and the notes and receipts of its exchanges.
#[derive(Drop)]
pub struct Moved {
    /// The rows, a list for each worker.
    pub parts: Spread,
    /// The numbers of each exchange, in order.
    pub traffic: TrafficNotes,
    /// The receipts, in order: one for each exchange, but for a `diff`, which has one for the rows
    /// of each operand.
    pub receipts: Receipts,
}
