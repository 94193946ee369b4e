//! Which local join runs: no clause says in which turn rows are listed, but it shows there.
use crate::scripts::Typed;
use crate::shuffled::blank_taps;
use algebra::{JoinKind, Settings, ShuffleKind};
use engine::Ran;
use rel_base::{Memory, RunFault, Value};
use std::alloc::Global;
use std::process::Abort;
use std::sync::Wait;
use std::thread::Threads;

const SCRIPT: &str = "J = [from scan(E) as a, scan(E) as b where a.x = b.x emit a.x];
    store(J, Out);";

const FALLING: &str = "x:int\n3\n2\n1\n0\n";

/// The numbers of the only part of the only store, as they come; `Memory` also where there are
/// others.
fn numbers_of(alloc: Global, ran: &Ran) -> Result<Vec<i64>, Memory> {
    let [store] = ran.stored.as_slice() else {
        return Err(Memory);
    };
    let [part] = store.parts.as_slice() else {
        return Err(Memory);
    };
    let mut numbers = Vec::new(alloc);
    for row in part {
        if let [Value::Int(number)] = row {
            numbers.push(*number)?;
        }
    }
    Ok(numbers)
}

/// Compares in which turn one worker lists falling rows, of which each joins with itself alone.
fn compare_turn<R: Abort + Threads + Wait + Sync>(
    rt: &R,
    alloc: Global,
    local: JoinKind,
    turn: [i64; 4],
) -> Result<(), RunFault> {
    let script = Typed::new(alloc, SCRIPT, FALLING)?;
    let Some(settings) = Settings::new(1, 16, 256, 0, ShuffleKind::Hc, local, false) else {
        return Err(RunFault::Memory);
    };
    let mut taps = blank_taps(alloc)?;
    let ran = script.run(rt, alloc, &settings, &mut taps)?;
    assert!(rt; numbers_of(alloc, &ran)?.as_slice() == turn.as_slice());
    Ok(())
}

#[test]
fn the_tributary_join_goes_through_its_arrays(rt: HostRuntime) -> Result<(), RunFault> {
    compare_turn(&rt, rt.alloc(), JoinKind::Tj, [0, 1, 2, 3])
}

#[test]
fn the_hash_join_goes_through_its_first_item(rt: HostRuntime) -> Result<(), RunFault> {
    compare_turn(&rt, rt.alloc(), JoinKind::Hj, [3, 2, 1, 0])
}
