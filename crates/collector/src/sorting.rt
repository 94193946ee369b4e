//! Jobs that sort: the rows of one part.
use crate::parts::SortedPart;
use crew::Job;
use rel_base::{Memory, Rows};
use std::alloc::Global;
use std::sync::Wait;
use std::thread::Threads;

/// Sorts the rows of one part, which stay where they are.
#[derive(Drop)]
pub(crate) struct Sorting<'a> {
    pub(crate) alloc: Global,
    pub(crate) part: &'a Rows,
    pub(crate) sorted: Result<SortedPart<'a>, Memory>,
}

impl<'a> Job for Sorting<'a> {
    ghost use Rattle.collector.specs.inner.Jobs.{HasSorted};

    ghost is_ready = { λ _. Unit {0} };

    ghost has_run = { HasSorted };

    fn run<R: Threads + Wait + Sync>(&mut self, _rt: &R) {
        self.sorted = SortedPart::of(self.alloc, self.part);
    }
}
