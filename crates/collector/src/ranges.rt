//! Ranges: rows of all parts that follow one another in ascending order.
//!
//! Source: Shi and Schaeffer, "Parallel sorting by regular sampling", 1992: every so manyth row of
//! each sorted part is a sample, and of the sorted samples every so manyth is a splitter. So a
//! range has few rows more than are meant for one, unless one row stands very often.
ghost use Rattle.std.specs.Prelude.{◌≡◌, ◌++◌, IfOk, map};
ghost use Rattle.rel_base.specs.Bags.{sorted};
ghost use Rattle.rel_base.specs.Picks.{joined};
ghost use Rattle.collector.specs.inner.Sorted.{rows_at};

use crate::merging::merge;
use crate::parts::SortedPart;
use crate::rests::Rest;
use crate::runs::Run;
use rel_base::{Memory, Value};
use std::alloc::Global;
use std::marker::Model;

/// Every so manyth row of a part is a sample.
const SAMPLE_STEP: u32 = 1024;

/// Every so manyth sample is a splitter.
const SAMPLES_OF_RANGE: usize = 16;

/// Rows that follow one another where all rows are in ascending order. Contracts see the list of
/// these rows, in that order.
#[derive(Drop)]
pub struct RowRange<'s, 'a> {
    /// Of each part those rows that are in the range.
    runs: Vec<Run<'s, 'a>>,
}

impl<'s, 'a> Model for RowRange<'s, 'a> {
    ghost use Rattle.std.specs.Prelude.{List};
    ghost use Rattle.rel_base.specs.declared.values.Value.{Value as Datum};
    ghost use Rattle.rel_base.specs.Bags.{sorted};
    ghost use Rattle.rel_base.specs.Picks.{joined};

    ghost Value = { List (List Datum) };

    ghost view = { λ r. sorted (joined r.runs.items) };
}

impl<'s, 'a> RowRange<'s, 'a> {
    /// References to the rows, in order: those of all parts are merged.
    pub fn rows(&self, alloc: Global) -> Result<Vec<&[Value]>, Memory>
        ensures { IfOk result (λ rows. map (λ row. row.now) rows.items ≡ self.now) }
    {
        let mut lists = Vec::with_capacity(alloc, self.runs.len())?;
        for run in &self.runs {
            lists.push(run.rows(alloc)?)?;
        }
        let rows = merge(alloc, lists)?;
        Ok(rows)
    }
}

/// What is left of all parts. Contracts see the list of these rows, in ascending order.
#[derive(Drop)]
struct Rests<'s, 'a> {
    rests: Vec<Rest<'s, 'a>>,
}

impl<'s, 'a> Model for Rests<'s, 'a> {
    ghost use Rattle.std.specs.Prelude.{List};
    ghost use Rattle.rel_base.specs.declared.values.Value.{Value as Datum};
    ghost use Rattle.rel_base.specs.Bags.{sorted};
    ghost use Rattle.rel_base.specs.Picks.{joined};

    ghost Value = { List (List Datum) };

    ghost view = { λ r. sorted (joined r.rests.items) };
}

impl<'s, 'a> Rests<'s, 'a> {
    /// All rows of these parts.
    fn of(alloc: Global, parts: &'s [SortedPart<'a>]) -> Result<Rests<'s, 'a>, Memory>
        ensures { IfOk result (λ made. made ≡ sorted (joined parts.entry.now)) }
    {
        let mut rests = Vec::with_capacity(alloc, parts.len())?;
        for part in parts {
            rests.push(Rest::of(part))?;
        }
        Ok(Rests { rests })
    }

    /// The rows that stand before a row like this one, and what is then left.
    fn cut(
        self,
        alloc: Global,
        splitter: &[Value],
    ) -> Result<(RowRange<'s, 'a>, Rests<'s, 'a>), Memory>
        ensures { IfOk result (λ both. self.entry ≡ both.0 ++ both.1) }
    {
        let mut runs = Vec::with_capacity(alloc, self.rests.len())?;
        let mut rests = Vec::with_capacity(alloc, self.rests.len())?;
        for rest in self.rests {
            let (run, left) = rest.cut(alloc, splitter)?;
            runs.push(run)?;
            rests.push(left)?;
        }
        Ok((RowRange { runs }, Rests { rests }))
    }

    /// All rows that are left.
    fn all(self, alloc: Global) -> Result<RowRange<'s, 'a>, Memory>
        ensures { IfOk result (λ range. range ≡ self.entry) }
    {
        let mut runs = Vec::with_capacity(alloc, self.rests.len())?;
        for rest in self.rests {
            runs.push(rest.all(alloc)?)?;
        }
        Ok(RowRange { runs })
    }

    /// The ranges into which these rows cut all that are left.
    fn ranges(self, alloc: Global, splitters: &[&[Value]]) -> Result<Vec<RowRange<'s, 'a>>, Memory>
        ensures { IfOk result (λ ranges. joined ranges.items ≡ self.entry) }
    {
        let mut ranges = Vec::new(alloc);
        let mut left = self;
        for splitter in splitters {
            let (range, rests) = left.cut(alloc, *splitter)?;
            ranges.push(range)?;
            left = rests;
        }
        ranges.push(left.all(alloc)?)?;
        Ok(ranges)
    }
}

/// The rows of sorted parts, cut into ranges.
pub(crate) fn ranges_of<'s, 'a>(
    alloc: Global,
    parts: &'s [SortedPart<'a>],
) -> Result<Vec<RowRange<'s, 'a>>, Memory>
    ensures { IfOk result (λ ranges. joined ranges.items ≡ sorted (joined parts.entry.now)) }
{
    let splitters = splitters_of(alloc, parts)?;
    Rests::of(alloc, parts)?.ranges(alloc, &splitters)
}

/// Rows that cut all rows into ranges of about as many each. Any rows would serve, so nothing is
/// promised of them.
fn splitters_of<'a>(alloc: Global, parts: &[SortedPart<'a>]) -> Result<Vec<&'a [Value]>, Memory> {
    let mut samples = samples_of(alloc, parts)?;
    samples.sort_unstable();
    let mut splitters = Vec::new(alloc);
    for samples in samples.chunks_exact(SAMPLES_OF_RANGE) {
        if let Some(last) = samples.last() {
            splitters.push(*last)?;
        }
    }
    Ok(splitters)
}

/// Every so manyth row of each part.
fn samples_of<'a>(alloc: Global, parts: &[SortedPart<'a>]) -> Result<Vec<&'a [Value]>, Memory> {
    let mut samples = Vec::new(alloc);
    for part in parts {
        for i in 1..=part.len() / SAMPLE_STEP {
            samples.push(part.get(i * SAMPLE_STEP - 1))?;
        }
    }
    Ok(samples)
}
