//! The text of many rows, which is made in jobs: ranges of the rows side by side.
ghost use Rattle.std.specs.Prelude.{◌≡◌, ◌*◌, ◌<◌, ◌≤◌, ℕ, Ok, IfOk, length, map, slice_index_or};
ghost use Rattle.std.specs.Fork.{slice_chunk};
ghost use Rattle.rel_base.specs.Picks.{joined};
ghost use Rattle.output_texts.specs.inner.Ranges.{ranges_text, IsTextOf};

use crate::blocks::Block;
use collector::RowRange;
use rel_base::Memory;
use std::alloc::Global;
use std::thread::{Threads, map_chunks};

/// The least number of rows for each job, where there are several.
const LEAST_ROWS: usize = 4096;

/// How many jobs make the text of so many rows, if there may be so many: fewer for few rows, and at
/// least one.
pub(crate) fn jobs_for(rows: usize, most: usize) -> usize
    ensures { 0 < result }
{
    (rows / LEAST_ROWS).min(most).max(1)
}

/// The text of ranges of rows, in blocks that so many jobs make, each of some ranges that follow
/// one another. All have about so many rows.
pub(crate) fn blocks_of_ranges<R: Threads + Sync>(
    rt: &R,
    alloc: Global,
    ranges: &[RowRange<'_, '_>],
    rows: usize,
    jobs: usize,
) -> Result<Vec<Block>, Memory>
    requires { 0 < jobs }
    ensures { IfOk result (λ blocks. joined blocks.items ≡ ranges_text ranges.now) }
{
    let size = ranges.len().div_ceil(jobs).max(1);
    let parts = blocks_of_chunks(rt, alloc, ranges, rows / jobs, size)?;
    all_made(alloc, parts)
}

/// The text of each so many ranges, of about so many rows, made in a job; the last ones may be
/// fewer.
fn blocks_of_chunks<R: Threads + Sync>(
    rt: &R,
    alloc: Global,
    ranges: &[RowRange<'_, '_>],
    rows: usize,
    size: usize,
) -> Result<Vec<Result<Block, Memory>>, Memory>
    requires { 0 < size }
    ensures all { IfOk result (λ parts. length ranges.now ≤ length parts.items * size) }
    ensures each { IfOk result (λ parts. (n : ℕ) (e : _) → n < length parts.items
        → IsTextOf (slice_chunk ranges.now size n) (slice_index_or parts.items n e)) }
{
    let parts = map_chunks(
        rt,
        alloc,
        ranges,
        size,
        &|_, chunk: &[RowRange<'_, '_>]| Block::of_ranges(alloc, chunk, rows),
    )?;
    Ok(parts)
}

/// The blocks, where there was memory for each.
fn all_made(alloc: Global, parts: Vec<Result<Block, Memory>>) -> Result<Vec<Block>, Memory>
    ensures { IfOk result (λ blocks. map Ok blocks.items ≡ parts.items) }
{
    let mut blocks = Vec::with_capacity(alloc, parts.len())?;
    for part in parts {
        blocks.push(part?)?;
    }
    Ok(blocks)
}
