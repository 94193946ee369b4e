//! The receiving half of a worker: it drains its inbox, and puts the rows of each atom together.
ghost use Rattle.std.specs.Prelude.{◌≡◌, [], ◌++◌, replicate, IfOk, IsOkAnd, IsPermutation, OnOk};
ghost use Rattle.rel_io.specs.Taps.{with_got};
ghost use Rattle.exchange_channels.specs.Messages.{rows_of};
ghost use Rattle.exchange_channels.specs.Wirings.{HasEachEnd, untaken};
ghost use Rattle.row_exchange.specs.inner.Stations.{HasReceived, AreGathered, TakesIn};

use exchange_channels::{Batch, Drained, Intake, IntakeEnd};
use rel_base::{Memory, Parts, Rows};
use rel_io::Tap;
use std::alloc::Global;
use std::sync::Wait;

/// Takes all that was sent to a worker, and puts the rows of each atom together, of which there
/// are so many. Batches of other atoms are let go. After `Memory` all was taken, and is let go.
pub(crate) fn receive<R: Wait, T: Tap>(
    rt: &R,
    alloc: Global,
    atoms: u32,
    intake: Intake,
    tap: &mut T,
) -> (IntakeEnd, Result<Parts, Memory>)
    ensures same { untaken result.0 ≡ intake }
    ensures ends { HasEachEnd intake.senders result.0.got }
    ensures received { IfOk result.1 (HasReceived atoms result.0.got) }
    ensures tap { T.totals tap.new ≡ with_got (T.totals tap.old) (rows_of result.0.got) }
    ensures tag { T.tag tap.new ≡ T.tag tap.old }
{
    let (end, drained) = intake.drain(rt, alloc, tap);
    let parts = gather_if_drained(alloc, atoms, drained);
    (end, parts)
}

/// The rows of each atom, where memory was there for what was drained.
fn gather_if_drained(
    alloc: Global,
    atoms: u32,
    drained: Result<Drained, Memory>,
) -> Result<Parts, Memory>
    ensures { IfOk result (λ parts. IsOkAnd drained (λ taken. AreGathered atoms taken parts)) }
{
    let drained = drained?;
    match gather(alloc, atoms, drained) {
        Ok(parts) => Ok(parts),
        Err(refused) => Err(refused),
    }
}

/// The rows of each atom in what was drained. No row is copied.
fn gather(alloc: Global, atoms: u32, drained: Drained) -> Result<Parts, Memory>
    ensures { IfOk result (AreGathered atoms drained) }
{
    let mut left = by_senders(alloc, drained)?;
    let mut gathered = empty_rows(alloc, atoms)?;
    while let Some((_, batch)) = left.pop() {
        add(alloc, &mut gathered, batch)?;
    }
    into_parts(alloc, gathered)
}

/// What was drained, by senders, and of one sender the other way round than it was taken.
///
/// So the rows of an atom stand in an order that doesn't depend on which sender was quicker, and
/// atoms that are given the same rows have equal parts, which a local join reads once.
fn by_senders(alloc: Global, drained: Drained) -> Result<Vec<(u32, Batch)>, Memory>
    ensures { IfOk result (λ taken. IsPermutation drained taken.items) }
{
    let mut drained = drained;
    let mut taken = Vec::with_capacity(alloc, drained.len() as usize)?;
    while let Some(one) = drained.pop() {
        taken.push(one)?;
    }
    taken.sort_by_key(|one: &(u32, Batch)| one.0)?;
    Ok(taken)
}

/// So many lists without rows.
fn empty_rows(alloc: Global, count: u32) -> Result<Vec<Rows>, Memory>
    ensures { IfOk result (λ made. made.items ≡ replicate count []) }
{
    let mut lists = Vec::with_capacity(alloc, count as usize)?;
    for _list in 0..count {
        lists.push(Rows::new(alloc))?;
    }
    Ok(lists)
}

/// Puts the rows of a batch behind those of its atom. A batch of another atom is let go.
fn add(alloc: Global, gathered: &mut Vec<Rows>, batch: Batch) -> Result<(), Memory>
    ensures { OnOk result (TakesIn batch gathered.old.items gathered.new.items) }
{
    let Batch { atom, rows } = batch;
    if (atom as usize) >= gathered.len() {
        return Ok(());
    }
    match put_behind(alloc, &mut gathered[atom as usize], rows) {
        Ok(()) => Ok(()),
        Err(refused) => Err(refused),
    }
}

/// Puts rows behind others. Where they would be too many for a list, memory is refused.
fn put_behind(alloc: Global, present: &mut Rows, rows: Rows) -> Result<(), Memory>
    ensures { OnOk result (present.new ≡ present.old ++ rows) }
{
    if present.len() > u32::MAX - rows.len() {
        return Err(Memory);
    }
    match present.append(alloc, rows) {
        Ok(()) => Ok(()),
        Err(refused) => Err(refused),
    }
}

/// The lists as parts.
fn into_parts(alloc: Global, lists: Vec<Rows>) -> Result<Parts, Memory>
    ensures { IfOk result (λ made. made ≡ lists.items) }
{
    let mut parts = Parts::new(alloc);
    for rows in lists {
        if parts.len() == u32::MAX {
            return Err(Memory);
        }
        parts.push(rows)?;
    }
    Ok(parts)
}
