//! Joins that are run as statements: their rows, their notes and their receipts.
use crate::numbers::{Numbers, blank_taps, run_numbers};
use algebra::{Exchange, JoinFault, JoinKind, Settings, ShuffleKind};
use routed_joins::Moved;
use std::alloc::Global;
use std::sync::Wait;
use std::thread::Threads;

const FOUR: Numbers = Numbers {
    first: &[0, 1, 2, 3],
    second: &[0, 1, 2, 3],
};

/// The four numbers joined at two workers in statement 7.
fn four_at_two<R: Threads + Wait + Sync>(
    rt: &R,
    alloc: Global,
    shuffle: ShuffleKind,
    local: JoinKind,
) -> Result<Moved, JoinFault> {
    let Some(settings) = Settings::new(2, 4, 256, 0, shuffle, local, false) else {
        return Err(JoinFault::TooManyRows);
    };
    let Ok(mut taps) = blank_taps(alloc, 4) else {
        return Err(JoinFault::Memory);
    };
    if settings.workers != 2 {
        return Err(JoinFault::TooManyRows);
    }
    run_numbers(rt, alloc, 7, &settings, &FOUR, &mut taps)
}

#[test]
fn by_cells_numbers_are_listed_where_they_meet(rt: HostRuntime) -> Result<(), JoinFault> {
    let moved = four_at_two(&rt, rt.alloc(), ShuffleKind::Hc, JoinKind::Hj)?;
    let [note] = moved.traffic.as_slice() else {
        return Err(JoinFault::TooManyRows);
    };
    assert_eq!(rt; note.statement, 7);
    assert_eq!(rt; note.exchange, Exchange::Hc);
    assert_eq!(rt; note.received.as_slice(), [2, 6].as_slice());
    assert_eq!(rt; note.listed.as_slice(), [1, 3].as_slice());
    assert_eq!(rt; moved.receipts.len(), 1);
    Ok(())
}

#[test]
fn by_broadcast_numbers_are_listed_where_they_lie(rt: HostRuntime) -> Result<(), JoinFault> {
    let moved = four_at_two(&rt, rt.alloc(), ShuffleKind::Br, JoinKind::Tj)?;
    let [note] = moved.traffic.as_slice() else {
        return Err(JoinFault::TooManyRows);
    };
    assert_eq!(rt; note.statement, 7);
    assert_eq!(rt; note.exchange, Exchange::Br);
    assert_eq!(rt; note.received.as_slice(), [4, 4].as_slice());
    assert_eq!(rt; note.listed.as_slice(), [2, 2].as_slice());
    assert_eq!(rt; moved.receipts.len(), 1);
    Ok(())
}

#[test]
fn two_at_a_time_numbers_are_listed_at_their_homes(rt: HostRuntime) -> Result<(), JoinFault> {
    let moved = four_at_two(&rt, rt.alloc(), ShuffleKind::Rs, JoinKind::Hj)?;
    let [note] = moved.traffic.as_slice() else {
        return Err(JoinFault::TooManyRows);
    };
    assert_eq!(rt; note.statement, 7);
    assert_eq!(rt; note.exchange, Exchange::Rs(2));
    assert_eq!(rt; note.received.as_slice(), [4, 4].as_slice());
    assert_eq!(rt; note.listed.as_slice(), [2, 2].as_slice());
    assert_eq!(rt; moved.receipts.len(), 1);
    Ok(())
}
