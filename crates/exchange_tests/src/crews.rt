//! Crews of several sizes: each job runs once, and meets all others while it runs.
ghost use Rattle.std.specs.Prelude.{◌≡◌};

use crew::{Job, run_all, run_beside};
use std::alloc::{AllocError, Global};
use std::sync::Wait;
use std::sync::atomic::{AtomicU64, Ordering};
use std::thread;
use std::thread::Threads;

const SIZES: [u32; 6] = [0, 1, 2, 3, 64, 128];

/// How many jobs the front and the back have.
const PAIRS: [(u32, u32); 6] = [(0, 0), (0, 2), (1, 0), (1, 1), (3, 2), (64, 64)];

/// The turns that a job waits for the others before it gives up.
const MOST_TURNS: u64 = 10_000_000;

/// Waits until as many jobs have come as it wants, and notes whether they have.
#[derive(Drop)]
struct Meeting<'a> {
    wanted: u64,
    come: &'a AtomicU64,
    met: bool,
}

impl Meeting<'_> {
    fn have_all_come(&self) -> bool {
        for _ in 0..MOST_TURNS {
            if self.come.load(Ordering::SeqCst) == self.wanted {
                return true;
            }
            thread::yield_now();
        }
        false
    }
}

impl Job for Meeting<'_> {
    ghost is_ready = { λ _. Unit {0} };

    ghost has_run = { λ before after. after ≡ record before { met = after.met } };

    fn run<R: Threads + Wait + Sync>(&mut self, _rt: &R) {
        self.come.fetch_add(1, Ordering::SeqCst);
        self.met = self.have_all_come();
    }
}

/// So many jobs that want so many to come.
fn meetings<'a>(
    alloc: Global,
    size: u32,
    wanted: u64,
    come: &'a AtomicU64,
) -> Result<Vec<Meeting<'a>>, AllocError> {
    (0..size)
        .map(|_| Meeting {
            wanted,
            come,
            met: false,
        })
        .collect(alloc)
}

/// Whether so many jobs all met, and no job came twice.
fn have_met<R: Threads + Wait + Sync>(
    rt: &R,
    alloc: Global,
    size: u32,
) -> Result<bool, AllocError> {
    let come = AtomicU64::new(0);
    let wanted = u64::from(size);
    let mut jobs = meetings(alloc, size, wanted, &come)?;
    run_all(rt, jobs.as_mut_slice());
    Ok(come.load(Ordering::SeqCst) == wanted && jobs.iter().all(|job| job.met))
}

/// Whether so many jobs of a front and of a back all met, and no job came twice.
fn have_met_beside<R: Threads + Wait + Sync>(
    rt: &R,
    alloc: Global,
    front: u32,
    back: u32,
) -> Result<bool, AllocError> {
    let come = AtomicU64::new(0);
    let wanted = u64::from(front) + u64::from(back);
    let mut fronts = meetings(alloc, front, wanted, &come)?;
    let mut backs = meetings(alloc, back, wanted, &come)?;
    run_beside(rt, fronts.as_mut_slice(), backs.as_mut_slice());
    Ok(
        come.load(Ordering::SeqCst) == wanted
            && fronts.iter().all(|job| job.met)
            && backs.iter().all(|job| job.met),
    )
}

#[test]
fn all_jobs_run_at_once(rt: HostRuntime) -> Result<(), AllocError> {
    for size in SIZES {
        assert!(rt; have_met(&rt, rt.alloc(), size)?, "{size} jobs");
    }
    Ok(())
}

#[test]
fn jobs_of_two_slices_run_at_once(rt: HostRuntime) -> Result<(), AllocError> {
    for (front, back) in PAIRS {
        assert!(rt;
            have_met_beside(&rt, rt.alloc(), front, back)?,
            "{front} and {back} jobs"
        );
    }
    Ok(())
}
