//! What a run gives.
use algebra::{PlanNotes, TrafficNotes};
use exchange_channels::Receipts;
use placement::SpreadStores;

/// What a run gives.
#[derive(Drop)]
pub struct Ran {
    /// What is stored.
    pub stored: SpreadStores,
    /// The lines of the plan.
    pub plan: PlanNotes,
    /// The numbers of each exchange.
    pub traffic: TrafficNotes,
    /// The receipts of the exchanges: one for each, but for a `diff`, which has one for the rows of
    /// each operand.
    pub receipts: Receipts,
}
