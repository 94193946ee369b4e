//! Channels from senders to a cell, in one thread and in many.
ghost use Rattle.std.specs.Prelude.{◌≡◌, ◌<◌, ◌≤◌, [], ◌∷◌, IfOk};
ghost use Rattle.exchange_channels.specs.Wirings.{cells_of, new_outlet, IsWired, AreOutletEnds, AreIntakeEnds, receipt_of};

use exchange_channels::{
    Batch, Drained, Intake, IntakeEnd, IntakeEnds, Keep, Outlet, OutletEnd, OutletEnds, Receipt,
    Wiring, close, wire,
};
use rel_base::{Memory, Row, Rows};
use rel_io::{CountTap, Tap, Totals};
use std::alloc::Global;
use std::process::Abort;
use std::sync::Wait;
use std::thread;
use std::thread::Threads;

/// A batch of atom 0 with so many rows, which have no values.
fn batch(alloc: Global, count: u32) -> Result<Batch, Memory> {
    let mut rows = Rows::new(alloc);
    for _ in 0..count {
        if rows.len() < 100 {
            rows.push(Row::new(alloc))?;
        }
    }
    Ok(Batch { atom: 0, rows })
}

/// Batches of atom 0 with so many rows each.
fn batches(alloc: Global, counts: &[u32]) -> Result<Vec<Batch>, Memory> {
    let mut made = Vec::with_capacity(alloc, counts.len())?;
    for count in counts {
        made.push(batch(alloc, *count)?)?;
    }
    Ok(made)
}

/// A tap that notes what it is told, call by call.
#[derive(Drop)]
struct NotingTap {
    counts: CountTap,
    calls: Vec<u64>,
}

impl Tap for NotingTap {
    ghost tag = { λ t. t.counts.tag };

    ghost totals = { λ t. t.counts.totals };

    fn sent(&mut self, rows: u64) {
        self.counts.sent(rows);
    }

    fn got(&mut self, rows: u64) {
        let _ = self.calls.push(rows);
        self.counts.got(rows);
    }

    fn listed(&mut self, rows: u64) {
        self.counts.listed(rows);
    }

    fn totals(&self) -> Totals {
        self.counts.totals()
    }
}

/// The ends of one cell and two senders.
#[derive(Drop)]
struct OneCell {
    first: Outlet,
    second: Outlet,
    intake: Intake,
    keep: Keep,
}

/// A wiring of one cell and two senders.
fn one_cell(alloc: Global, capacity: u32) -> Result<OneCell, Memory>
    requires { (1 ≤ capacity) × (capacity ≤ 1024) }
    ensures { IfOk result (λ ends.
        IsWired ends.keep (ends.first ∷ ends.second ∷ []) (ends.intake ∷ []) 1 2 capacity) }
{
    let Wiring {
        mut outlets,
        mut intakes,
        keep,
    } = wire(alloc, 1, 2, capacity)?;
    let Some(second) = outlets.pop() else {
        unreachable!()
    };
    let Some(first) = outlets.pop() else {
        unreachable!()
    };
    let Some(intake) = intakes.pop() else {
        unreachable!()
    };
    Ok(OneCell {
        first,
        second,
        intake,
        keep,
    })
}

/// Sends the batches to cell 0, one after another, and ends.
fn send_all<R: Wait>(rt: &R, outlet: Outlet, batches: Vec<Batch>) -> OutletEnd
    requires { 0 < cells_of outlet.wiring }
    ensures wiring { result.wiring ≡ outlet.wiring }
    ensures sender { result.sender ≡ outlet.sender }
{
    let mut outlet = outlet;
    for batch in batches {
        outlet.send(rt, 0, batch);
    }
    outlet.end(rt)
}

/// Closes a wiring of one cell and two senders.
fn close_one_cell(
    alloc: Global,
    keep: Keep,
    first: OutletEnd,
    second: OutletEnd,
    taken: IntakeEnd,
) -> Result<Receipt, Memory>
    requires outs { AreOutletEnds keep (first ∷ second ∷ []) }
    requires ins { AreIntakeEnds keep (taken ∷ []) }
    ensures { IfOk result (λ receipt. receipt ≡ receipt_of keep (first ∷ second ∷ [])) }
{
    let mut outs = OutletEnds::new(alloc);
    outs.reserve(2)?;
    outs.put(first);
    outs.put(second);
    let mut ins = IntakeEnds::new(alloc);
    ins.reserve(1)?;
    ins.put(taken);
    Ok(close(keep, outs, ins))
}

/// Sends and takes in one thread, one end after another: what the cell took.
fn exchange_in_turn<R: Wait>(
    rt: &R,
    alloc: Global,
    ends: OneCell,
    first_batches: Vec<Batch>,
    second_batches: Vec<Batch>,
    tap: &mut NotingTap,
) -> Result<Drained, Memory>
    requires { IsWired ends.keep (ends.first ∷ ends.second ∷ []) (ends.intake ∷ [])
        1 2 ends.keep.capacity }
{
    let OneCell {
        first,
        second,
        intake,
        keep,
    } = ends;
    let first = send_all(rt, first, first_batches);
    let second = send_all(rt, second, second_batches);
    let (taken, drained) = intake.drain(rt, alloc, tap);
    close_one_cell(alloc, keep, first, second, taken)?;
    drained
}

/// Compares what a tap was told of three batches.
fn compare_calls(rt: &impl Abort, tap: &NotingTap) {
    assert_eq!(rt; tap.calls.as_slice(), [2, 1, 3].as_slice());
    assert_eq!(rt; tap.totals().got, 6);
}

/// In one thread: the cell tells its tap one batch after another.
#[test]
fn a_cell_takes_what_was_sent_and_tells_it_batch_by_batch(rt: HostRuntime) -> Result<(), Memory> {
    let alloc = rt.alloc();
    let first_batches = batches(alloc, &[2, 1])?;
    let second_batches = batches(alloc, &[3])?;
    let ends = one_cell(alloc, 8)?;
    let mut tap = NotingTap {
        counts: CountTap::new(),
        calls: Vec::new(alloc),
    };
    let drained = exchange_in_turn(&rt, alloc, ends, first_batches, second_batches, &mut tap);
    assert_eq!(rt; drained.map(|batches| batches.len()), Ok(3));
    compare_calls(&rt, &tap);
    Ok(())
}

/// Sends and takes in three threads, one for each end: what the cell took.
fn exchange_in_threads<R: Threads + Wait + Sync>(
    rt: &R,
    alloc: Global,
    ends: OneCell,
    first_batches: Vec<Batch>,
    second_batches: Vec<Batch>,
) -> Result<Drained, Memory>
    requires { IsWired ends.keep (ends.first ∷ ends.second ∷ []) (ends.intake ∷ [])
        1 2 ends.keep.capacity }
{
    let OneCell {
        first,
        second,
        intake,
        keep,
    } = ends;
    let (first, (second, (taken, drained))) = thread::join(
        rt,
        move || send_all(rt, first, first_batches),
        move ||
            requires { 0 < cells_of second.wiring }
        {
            thread::join(
                rt,
                move || send_all(rt, second, second_batches),
                move || intake.drain(rt, alloc, &mut CountTap::new()),
            )
        },
    );
    close_one_cell(alloc, keep, first, second, taken)?;
    drained
}

/// One cell of capacity 1, a thread for each end: all batches come, and the wiring is closed.
#[test]
fn a_cell_takes_what_two_threads_send(rt: HostRuntime) -> Result<(), Memory> {
    let alloc = rt.alloc();
    let first_batches = batches(alloc, &[1, 1])?;
    let second_batches = batches(alloc, &[1])?;
    let ends = one_cell(alloc, 1)?;
    let drained = exchange_in_threads(&rt, alloc, ends, first_batches, second_batches);
    assert_eq!(rt; drained.map(|batches| batches.len()), Ok(3));
    Ok(())
}
