//! Running a slice of jobs. It is halved, and each half again, until a part is one job: of three
//! jobs the front half is job 0, and the back half, jobs 1 and 2, is halved once more.
ghost use Rattle.std.specs.Prelude.{All};
ghost use Rattle.std.specs.Thread.{IsSend, IsSync};
ghost use Rattle.crew.specs.Jobs.{EachHasRun};

use crate::Job;
use std::sync::Wait;
use std::thread::{Threads, join_mut};

/// Runs each job exactly once, side by side, and returns when all have run. It may wait as long as
/// its jobs do.
///
/// Of `has_run` nothing is known here but that one run of a ready job gives it. So the clause says
/// "exactly once": a job that was left out, or that ran twice, need not stand in that relation.
///
/// At each halving `join_mut` starts a thread for the front half, while the thread that halves
/// runs the back half. So `n` jobs run in `n` threads, of which the caller's is one. Where no
/// thread can be started, the thread that halves runs the front half too, after the back half.
#[cycle(halves)]
pub fn run_all<R: Threads + Wait + Sync, J: Job + Send>(rt: &R, jobs: &mut [J])
    requires { All J.is_ready jobs.old }
    ensures { EachHasRun J.has_run jobs.old jobs.new }
{
    match jobs {
        [] => {}
        [job] => job.run(rt),
        _ => {
            let (front, back) = jobs.split_at_mut(jobs.len() / 2);
            // In a recursion nothing is inferred of a closure, so each states what the call of its half needs.
            let mut run_front = ||
                requires { IsSync R.row × IsSend J.row × All J.is_ready front.now }
                ensures { EachHasRun J.has_run front.entry.now front.exit.now }
            { run_all(rt, front) };
            let mut run_back = ||
                requires { IsSync R.row × IsSend J.row × All J.is_ready back.now }
                ensures { EachHasRun J.has_run back.entry.now back.exit.now }
            { run_all(rt, back) };
            join_mut(rt, &mut run_front, &mut run_back);
        }
    }
}
