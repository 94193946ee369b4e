//! Senders and receivers of a run wait for each other, and all of them come.
ghost use Rattle.std.specs.Prelude.{◌≡◌, IfOk, vec_len};
ghost use Rattle.rel_base.specs.Limits.{taps as tap_count};

use crate::scripts::Typed;
use algebra::{JoinKind, Settings, ShuffleKind};
use rel_base::{Memory, RunFault, TAPS};
use rel_io::{CountTap, Tap, Totals};
use std::alloc::Global;
use std::process::Abort;
use std::sync::Wait;
use std::sync::atomic::{AtomicU64, Ordering};
use std::thread;
use std::thread::Threads;

/// The turns that a tap waits for a flag before it gives up.
const MOST_TURNS: u64 = 10_000_000;

const SCRIPT: &str = "J = [from scan(E) as a, scan(E) as b where a.y = b.x emit a.x, b.y];
    store(J, Out);";

const EDGES: &str = "x:int,y:int\n1,2\n2,3\n3,1\n1,3\n2,2\n3,3\n";

/// Two flags: that a sender has come to the batch where it waits, and a receiver to its first.
#[derive(Drop)]
struct Flags {
    sending: AtomicU64,
    receiving: AtomicU64,
}

/// Raises a flag, and waits for another one. Whether it was raised.
fn meet(own: &AtomicU64, other: &AtomicU64) -> bool {
    own.store(1, Ordering::SeqCst);
    for _ in 0..MOST_TURNS {
        if other.load(Ordering::SeqCst) == 1 {
            return true;
        }
        thread::yield_now();
    }
    false
}

/// A tap that meets the other side at the first or second batch that it is told is sent, and at the
/// first one that is received.
///
/// At a second batch it shows that receivers take while senders still send. At a first one, which
/// no batch came before, it shows that a tap is told of a batch once it was handed over.
#[derive(Drop)]
struct GateTap<'a> {
    counts: CountTap,
    flags: &'a Flags,
    meets_at: u64,
    batches: u64,
    has_met: bool,
}

impl Tap for GateTap<'_> {
    ghost tag = { λ t. t.counts.tag };

    ghost totals = { λ t. t.counts.totals };

    fn sent(&mut self, rows: u64) {
        self.counts.sent(rows);
        self.batches = self.batches.saturating_add(1);
        if self.batches == self.meets_at {
            self.has_met = meet(&self.flags.sending, &self.flags.receiving);
        }
    }

    fn got(&mut self, rows: u64) {
        self.counts.got(rows);
        self.batches = self.batches.saturating_add(1);
        if self.batches == 1 {
            self.has_met = meet(&self.flags.receiving, &self.flags.sending);
        }
    }

    fn listed(&mut self, rows: u64) {
        self.counts.listed(rows);
    }

    fn totals(&self) -> Totals {
        self.counts.totals()
    }
}

/// All taps, which were told nothing, and of which those of senders wait at this batch.
fn gate_taps<'a>(alloc: Global, flags: &'a Flags, meets_at: u64) -> Result<Vec<GateTap<'a>>, Memory>
    ensures { IfOk result (λ made. vec_len made ≡ tap_count) }
{
    let mut taps = Vec::with_capacity(alloc, TAPS)?;
    for tag in 0..TAPS as u32 {
        taps.push_reserved(GateTap {
            counts: CountTap::with_tag(tag),
            flags,
            meets_at,
            batches: 0,
            has_met: true,
        });
    }
    Ok(taps)
}

/// Whether senders, at this batch, and receivers met in a join at two workers, with room for four
/// messages and batches of one row.
fn have_met<R: Threads + Wait + Sync>(
    rt: &R,
    alloc: Global,
    script: &Typed,
    shuffle: ShuffleKind,
    meets_at: u64,
) -> Result<bool, RunFault> {
    let Some(settings) = Settings::new(2, 4, 1, 0, shuffle, JoinKind::Hj, false) else {
        return Err(RunFault::Memory);
    };
    let flags = Flags {
        sending: AtomicU64::new(0),
        receiving: AtomicU64::new(0),
    };
    let mut taps = gate_taps(alloc, &flags, meets_at)?;
    script.run(rt, alloc, &settings, &mut taps)?;
    let has_come = flags.sending.load(Ordering::SeqCst) == 1;
    Ok(has_come && taps.iter().all(|tap| tap.has_met))
}

/// Compares whether they met, whatever the shuffle.
fn compare_meetings<R: Abort + Threads + Wait + Sync>(
    rt: &R,
    alloc: Global,
    meets_at: u64,
) -> Result<(), RunFault> {
    let script = Typed::new(alloc, SCRIPT, EDGES)?;
    for shuffle in [ShuffleKind::Hc, ShuffleKind::Rs, ShuffleKind::Br] {
        assert!(rt;
            have_met(rt, alloc, &script, shuffle, meets_at)?,
            "{shuffle:?}"
        );
    }
    Ok(())
}

#[test]
fn senders_and_receivers_run_at_once(rt: HostRuntime) -> Result<(), RunFault> {
    compare_meetings(&rt, rt.alloc(), 2)
}

#[test]
fn a_tap_is_told_of_a_batch_once_it_was_handed_over(rt: HostRuntime) -> Result<(), RunFault> {
    compare_meetings(&rt, rt.alloc(), 1)
}
