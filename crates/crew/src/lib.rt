//! A crew: jobs done side by side, each in a thread of its own.
//!
//! Stands on std alone: the jobs are halved, and `thread::join_mut` runs the two halves.
//!
//! Promises: after `run_all` each job has run exactly once, is at its place, and stands to what it
//! was as its kind of job says (`EachHasRun`); after `run_beside` that holds of two slices of jobs.
//! Both refuse nothing and take no memory of their own. Not promised: that jobs run at once, which
//! is only tested; their order; that a job which waits for another gets on. Where no thread can be
//! started the jobs of `run_all` run one after another, and those that wait for one another may
//! wait for ever. `run_beside` starts the threads of its front first, and a job of the front that
//! gets none runs behind the whole back.
//!
//! Read `jobs.rt` and `specs/Jobs.antt`, then `halving.rt` and `beside.rt`.
#![tactic(auto)]

mod beside;
mod halving;
mod jobs;

pub use beside::run_beside;
pub use halving::run_all;
pub use jobs::Job;
