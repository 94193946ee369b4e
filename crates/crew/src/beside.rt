//! Running two slices of jobs side by side, of which the one may wait for the other.
ghost use Rattle.std.specs.Prelude.{All};
ghost use Rattle.std.specs.Thread.{IsSend, IsSync};
ghost use Rattle.crew.specs.Jobs.{EachHasRun};

use crate::{Job, run_all};
use std::sync::Wait;
use std::thread::{Threads, join_mut};

/// Runs each job of both slices exactly once, side by side, and returns when all have run. It may
/// wait as long as its jobs do.
///
/// A thread is started for each job of the front before the first job of the back begins. A job of
/// the front for which no thread can be started runs once all jobs of the back have run. So where
/// no thread can be started at all, all jobs of the back have run before the first of the front
/// begins.
#[cycle(fronts)]
pub fn run_beside<R: Threads + Wait + Sync, A: Job + Send, B: Job + Send>(
    rt: &R,
    front: &mut [A],
    back: &mut [B],
)
    requires front { All A.is_ready front.old }
    requires back { All B.is_ready back.old }
    ensures front { EachHasRun A.has_run front.old front.new }
    ensures back { EachHasRun B.has_run back.old back.new }
{
    match front {
        [] => run_all(rt, back),
        _ => {
            let (first, others) = front.split_at_mut(1);
            // In a recursion nothing is inferred of a closure, so each states what its call needs.
            let mut run_first = ||
                requires { IsSync R.row × IsSend A.row × All A.is_ready first.now }
                ensures { EachHasRun A.has_run first.entry.now first.exit.now }
            { run_all(rt, first) };
            let mut run_others = ||
                requires sent { IsSync R.row × IsSend A.row × IsSend B.row }
                requires ready { All A.is_ready others.now × All B.is_ready back.now }
                ensures others { EachHasRun A.has_run others.entry.now others.exit.now }
                ensures back { EachHasRun B.has_run back.entry.now back.exit.now }
            { run_beside(rt, others, back) };
            join_mut(rt, &mut run_first, &mut run_others);
        }
    }
}
