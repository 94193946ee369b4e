//! What a job is.
use std::sync::Wait;
use std::thread::Threads;

/// Work that is done once, by whichever thread takes it.
///
/// A job owns or borrows what it works on. What it is to give back, it still owns after it has run.
pub trait Job {
    /// What a job needs before it runs.
    ghost is_ready: { Self → Type 0 };

    /// How a job that has run stands to what it was: the job before, then the job after.
    ghost has_run: { Self → Self → Type 0 };

    /// Does the work. It may wait for other jobs.
    fn run<R: Threads + Wait + Sync>(&mut self, rt: &R)
        requires { is_ready self.old }
        ensures { has_run self.old self.new };
}
