//! Numbers that go to the homes of their keys.
use crate::joins::{FOUR, size_of, sums_of_two, told};
use crate::numbers::{blank_taps, settings, spread_numbers};
use algebra::ShuffleKind;
use rel_base::Memory;
use rel_io::Totals;
use std::alloc::Global;
use std::sync::Wait;
use std::thread::Threads;

/// The four numbers at the homes of their keys, at two workers: how many rows there are, and what
/// the taps were told.
fn four_at_home<R: Threads + Wait + Sync>(
    rt: &R,
    alloc: Global,
) -> Result<(u64, Option<[Totals; 4]>), Memory> {
    let Some(settings) = settings(2, 4, 256, ShuffleKind::Hc) else {
        return Err(Memory);
    };
    let mut taps = blank_taps(alloc, 4)?;
    let (parts, _receipt) = spread_numbers(rt, alloc, &settings, FOUR.first, &mut taps)?;
    Ok((size_of(&parts), sums_of_two(taps.as_slice())))
}

#[test]
fn numbers_go_home(rt: HostRuntime) -> Result<(), Memory> {
    let (size, sums) = four_at_home(&rt, rt.alloc())?;
    assert_eq!(rt; size, 4);
    assert_eq!(rt; sums, Some(told(2, [2, 2], [0, 0])));
    Ok(())
}
