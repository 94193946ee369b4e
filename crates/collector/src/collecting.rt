//! The rows of all parts in ascending order.
ghost use Rattle.std.specs.Prelude.{◌≡◌, map, length, IfOk, Ok};
ghost use Rattle.crew.specs.Jobs.{EachHasRun};
ghost use Rattle.rel_base.specs.Bags.{sorted};
ghost use Rattle.rel_base.specs.Picks.{joined};
ghost use Rattle.collector.specs.inner.Jobs.{HasSorted};

use crate::parts::SortedPart;
use crate::ranges::{RowRange, ranges_of};
use crate::sorting::Sorting;
use crew::run_all;
use rel_base::{Duplicate, Memory, Rows, Spread};
use std::alloc::Global;
use std::marker::Model;
use std::sync::Wait;
use std::thread::Threads;

/// The rows of all parts. Contracts see the list of these rows, in ascending order.
#[derive(Drop)]
pub struct SortedRows<'a> {
    parts: Vec<SortedPart<'a>>,
}

impl<'a> Model for SortedRows<'a> {
    ghost use Rattle.std.specs.Prelude.{List, ◌<◌, ◌^◌, length};
    ghost use Rattle.rel_base.specs.declared.values.Value.{Value as Datum};
    ghost use Rattle.rel_base.specs.Bags.{sorted};
    ghost use Rattle.rel_base.specs.Picks.{joined};

    ghost Value = { List (List Datum) };

    ghost view = { λ r. sorted (joined r.parts.items) };

    ghost invariant = { λ r. length r.parts.items < 2 ^ 32 };
}

impl<'a> SortedRows<'a> {
    /// The number of rows.
    pub fn len(&self) -> usize
        ensures { result ≡ length self.now }
    {
        let mut rows = 0;
        for part in &self.parts {
            rows += part.len() as usize;
        }
        rows
    }

    /// The rows, cut into ranges of some ten thousand that follow one another, at least one. No row
    /// is copied, and the ranges are merged only where they are asked for their rows.
    pub fn ranges(&self, alloc: Global) -> Result<Vec<RowRange<'_, 'a>>, Memory>
        ensures { IfOk result (λ ranges. joined ranges.items ≡ self.now) }
    {
        ranges_of(alloc, self.parts.as_slice())
    }
}

/// Sorts the rows of all parts, side by side, in a job for each part. No row is copied, and a part
/// that is in order already is only checked. It may wait as long as its jobs do.
pub fn sort_parts<'a, R: Threads + Wait + Sync>(
    rt: &R,
    alloc: Global,
    parts: &'a Spread,
) -> Result<SortedRows<'a>, Memory>
    ensures { IfOk result (λ rows. rows ≡ sorted (joined parts.entry.now)) }
{
    let mut jobs = jobs_of(alloc, parts.as_slice())?;
    run_jobs(rt, &mut jobs);
    let parts = sorted_by_jobs(alloc, jobs)?;
    Ok(SortedRows { parts })
}

/// The rows of all parts in ascending order, as a list of its own; want of memory where they are
/// more than a list holds. Rows that a part shares stay shared, and only those that it has alone
/// are copied. No thread is asked for, so that all rows are sorted at once.
pub fn collect(alloc: Global, parts: &Spread) -> Result<Rows, Memory>
    ensures { IfOk result (λ rows. rows ≡ sorted (joined parts.now)) }
{
    let mut rows = put_together(alloc, parts.as_slice())?;
    rows.sort(alloc)?;
    Ok(rows)
}

/// The rows of all parts, one part behind another.
fn put_together(alloc: Global, parts: &[Rows]) -> Result<Rows, Memory>
    ensures { IfOk result (λ rows. rows ≡ joined parts.now) }
{
    let mut rows = Rows::new(alloc);
    for part in parts {
        if part.len() > Rows::MOST - rows.len() {
            return Err(Memory);
        }
        rows.append(alloc, part.copy(alloc)?)?;
    }
    Ok(rows)
}

/// A sorting job for each part.
fn jobs_of<'a>(alloc: Global, parts: &'a [Rows]) -> Result<Vec<Sorting<'a>>, Memory>
    ensures { IfOk result (λ jobs. map (λ job. job.part.now) jobs.items ≡ parts.now) }
{
    let mut jobs = Vec::with_capacity(alloc, parts.len())?;
    for part in parts {
        jobs.push(Sorting {
            alloc,
            part,
            sorted: Err(Memory),
        })?;
    }
    Ok(jobs)
}

/// Runs all jobs side by side.
fn run_jobs<R: Threads + Wait + Sync>(rt: &R, jobs: &mut Vec<Sorting<'_>>)
    ensures { EachHasRun HasSorted jobs.old.items jobs.new.items }
{
    run_all(rt, jobs.as_mut_slice());
}

/// What the jobs sorted, where there was memory for each.
fn sorted_by_jobs<'a>(alloc: Global, jobs: Vec<Sorting<'a>>) -> Result<Vec<SortedPart<'a>>, Memory>
    ensures { IfOk result (λ parts. map Ok parts.items
        ≡ map (λ job. job.sorted) jobs.entry.items) }
{
    let mut parts = Vec::with_capacity(alloc, jobs.len())?;
    for job in jobs {
        let Sorting { sorted, .. } = job;
        parts.push(sorted?)?;
    }
    Ok(parts)
}
