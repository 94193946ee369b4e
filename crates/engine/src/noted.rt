//! What a run notes.
ghost use Rattle.std.specs.Prelude.{◌≡◌, ◌++◌, [], ◌∷◌, OnOk};

use algebra::{PlanNote, PlanNotes, Traffic, TrafficNotes};
use exchange_channels::Receipts;
use rel_base::{Items, Memory};
use std::alloc::Global;

/// What a run has noted so far.
#[derive(Drop)]
pub(crate) struct Noted {
    /// The lines of the plan.
    pub(crate) plan: PlanNotes,
    /// The numbers of each exchange.
    pub(crate) traffic: TrafficNotes,
    /// The receipts of the exchanges.
    pub(crate) receipts: Receipts,
}

impl Noted {
    /// Nothing.
    pub(crate) fn new(alloc: Global) -> Noted
        ensures plan { result.plan ≡ [] }
        ensures traffic { result.traffic ≡ [] }
        ensures receipts { result.receipts ≡ [] }
    {
        Noted {
            plan: PlanNotes::new(alloc),
            traffic: TrafficNotes::new(alloc),
            receipts: Receipts::new(alloc),
        }
    }
}

/// Adds all items of another list at the end. After `Memory` some of them may stand there.
pub(crate) fn append<X: Drop>(
    alloc: Global,
    list: &mut Items<X>,
    more: Items<X>,
) -> Result<(), Memory>
    ensures { OnOk result (list.new ≡ list.old ++ more) }
{
    let mut more = more;
    let mut backwards = Vec::with_capacity(alloc, more.len() as usize)?;
    while let Some(item) = more.pop() {
        backwards.push(item)?;
    }
    while let Some(item) = backwards.pop() {
        if list.len() == u32::MAX {
            return Err(Memory);
        }
        list.push(item)?;
    }
    Ok(())
}
