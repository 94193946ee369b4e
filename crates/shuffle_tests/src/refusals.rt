//! What a join leaves of its taps, also where any one of its allocations is refused: then it ends
//! for want of memory alone. `rt try --test --fail-alloc N` refuses the one of number N.
ghost use Rattle.std.specs.Prelude.{◌≡◌, IfOk, vec_len};
ghost use Rattle.rel_base.specs.Limits.{taps as tap_count};

use crate::joins::FOUR;
use crate::numbers::{run_numbers, settings};
use algebra::{JoinFault, ShuffleKind};
use rel_base::{Memory, TAPS};
use rel_io::{CountTap, Tap, Totals};
use std::alloc::Global;
use std::sync::Wait;
use std::thread::Threads;

/// A tap that knows its number.
#[derive(Drop)]
struct NumberedTap {
    number: u32,
    counts: CountTap,
}

impl Tap for NumberedTap {
    ghost tag = { λ t. t.number };

    ghost totals = { λ t. t.counts.totals };

    fn sent(&mut self, rows: u64) {
        self.counts.sent(rows);
    }

    fn got(&mut self, rows: u64) {
        self.counts.got(rows);
    }

    fn listed(&mut self, rows: u64) {
        self.counts.listed(rows);
    }

    fn totals(&self) -> Totals {
        self.counts.totals()
    }
}

/// All taps, in order, which were told nothing.
fn numbered_taps(alloc: Global) -> Result<Vec<NumberedTap>, Memory>
    ensures { IfOk result (λ made. vec_len made ≡ tap_count) }
{
    let mut taps = Vec::with_capacity(alloc, TAPS)?;
    for number in 0..TAPS as u32 {
        taps.push_reserved(NumberedTap {
            number,
            counts: CountTap::with_tag(number),
        });
    }
    Ok(taps)
}

/// Whether all taps stand in their order, and as many rows were sent as received.
fn are_even(taps: &[NumberedTap]) -> bool {
    let mut sent = 0u64;
    let mut got = 0u64;
    for (place, tap) in taps.iter().enumerate() {
        if tap.number as usize != place {
            return false;
        }
        let totals = tap.totals();
        sent = sent.saturating_add(totals.sent);
        got = got.saturating_add(totals.got);
    }
    taps.len() == TAPS && sent == got
}

/// Whether the four numbers are joined at two workers, or not for want of memory, and the taps are
/// even after it. The inboxes have room for one message, and a batch is one row.
fn leaves_taps_even<R: Threads + Wait + Sync>(
    rt: &R,
    alloc: Global,
    shuffle: ShuffleKind,
) -> Result<bool, Memory> {
    let Some(settings) = settings(2, 1, 1, shuffle) else {
        return Ok(false);
    };
    let mut taps = numbered_taps(alloc)?;
    let answer = run_numbers(rt, alloc, 1, &settings, &FOUR, &mut taps);
    let has_ended = match answer {
        Ok(_) | Err(JoinFault::Memory) => true,
        Err(_) => false,
    };
    Ok(has_ended && are_even(taps.as_slice()))
}

#[test]
fn by_cells_taps_are_left_even(rt: HostRuntime) {
    assert_ne!(rt;
        leaves_taps_even(&rt, rt.alloc(), ShuffleKind::Hc),
        Ok(false)
    );
}

#[test]
fn two_at_a_time_taps_are_left_even(rt: HostRuntime) {
    assert_ne!(rt;
        leaves_taps_even(&rt, rt.alloc(), ShuffleKind::Rs),
        Ok(false)
    );
}

#[test]
fn by_broadcast_taps_are_left_even(rt: HostRuntime) {
    assert_ne!(rt;
        leaves_taps_even(&rt, rt.alloc(), ShuffleKind::Br),
        Ok(false)
    );
}
