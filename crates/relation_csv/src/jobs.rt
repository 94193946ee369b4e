//! Plain files in jobs: reads the lines of a file side by side.
//!
//! A text is cut behind line feeds into ranges, and a job reads the rows of each. Where no range
//! has a quote or a carriage return its records are those of its ranges, one after another. A call
//! here answers `None` where it can't tell, as the calls of `plain.rt` do: at a doubt in any
//! range, and where there are too many rows.
ghost use Rattle.std.specs.Prelude.{◌≡◌, ◌++◌, ◌<◌, ◌≤◌, ℕ, Ok, IfOk, IfSome, drop, length, map, slice_index_or};
ghost use Rattle.std.specs.Thread.{IsSync};
ghost use Rattle.relation_csv.specs.Files.{records_of_bytes, rows_of_records};
ghost use Rattle.relation_csv.specs.inner.Ranges.{ArePutTogether, AreRanges, EndsLine, ReadsRange};

use crate::plain::{PlainReader, behind_records, plain_rows, rows_of_lines, without_mark};
use memchr::{memchr, memchr2};
use rel_base::{MOST_ROWS, Memory, Rows, Schema};
use std::alloc::Global;
use std::str;
use std::thread::{Threads, map_vec};

/// The least number of bytes for each job, where there are several.
const LEAST_BYTES: usize = 131_072;

/// Reads the lines of a plain file side by side, in so many jobs; a short file in fewer, or in one.
#[derive(Drop)]
pub(crate) struct InJobs<'r, R> {
    pub(crate) rt: &'r R,
    pub(crate) jobs: u32,
}

impl<R: Threads + Sync> PlainReader for InJobs<'_, R> {
    ghost is_ready = { λ _. IsSync R.row };

    fn rows(
        &self,
        alloc: Global,
        schema: &Schema,
        bytes: &[u8],
        skip: u64,
    ) -> Result<Option<Rows>, Memory> {
        let jobs = (bytes.len() / LEAST_BYTES).min(self.jobs as usize);
        if jobs <= 1 {
            return plain_rows(alloc, schema, bytes, skip);
        }
        plain_rows_in_jobs(self.rt, alloc, schema, bytes, skip, jobs)
    }
}

/// The rows behind the first `skip` records of a file, in so many jobs, if they can be read where
/// they stand.
fn plain_rows_in_jobs<R: Threads + Sync>(
    rt: &R,
    alloc: Global,
    schema: &Schema,
    bytes: &[u8],
    skip: u64,
    jobs: usize,
) -> Result<Option<Rows>, Memory>
    ensures { IfOk result (λ found. IfSome found (λ rows.
        rows_of_records schema.now (drop skip (records_of_bytes bytes.now)) ≡ Ok rows)) }
{
    let Ok(text) = str::from_utf8(without_mark(bytes)) else {
        return Ok(None);
    };
    let Some(text) = behind_records(text, skip) else {
        return Ok(None);
    };
    let ranges = ranges_of(alloc, text, jobs)?;
    let parts = read_ranges(rt, alloc, schema, ranges)?;
    put_together(alloc, parts)
}

/// Cuts a text into so many ranges of about equal length, behind line feeds.
fn ranges_of(alloc: Global, text: &str, count: usize) -> Result<Vec<&str>, Memory>
    ensures { IfOk result (λ ranges. AreRanges text.now (map (λ range. range.now) ranges.items)) }
{
    let mut ranges = Vec::new(alloc);
    let mut left = text;
    'cuts: for made in 1..count {
        let (range, rest) = split_behind_line(left, left.len() / (count - made + 1));
        ranges.push(range)?;
        left = rest;
    }
    ranges.push(left)?;
    Ok(ranges)
}

/// Cuts a text in two behind the first line feed from there on. Where there is none, nothing is
/// cut off.
fn split_behind_line(text: &str, from: usize) -> (&str, &str)
    requires { from ≤ length text.now }
    ensures whole { result.0.now ++ result.1.now ≡ text.now }
    ensures ends { EndsLine result.0.now }
{
    let Some(at) = memchr(b'\n', &text.as_bytes()[from..]) else {
        return ("", text);
    };
    let end = from + at;
    (&text[..end + 1], &text[end + 1..])
}

/// Reads the rows of each range in a job.
fn read_ranges<R: Threads + Sync>(
    rt: &R,
    alloc: Global,
    schema: &Schema,
    ranges: Vec<&str>,
) -> Result<Vec<Result<Option<Rows>, Memory>>, Memory>
    ensures len { IfOk result (λ parts. length parts.items ≡ length ranges.entry.items) }
    ensures each { IfOk result (λ parts. (i : ℕ) (d : _) (e : _) → i < length ranges.entry.items
        → ReadsRange schema.now (slice_index_or ranges.entry.items i d).now
        (slice_index_or parts.items i e)) }
{
    let parts = map_vec(
        rt,
        ranges,
        &|range: &str| rows_of_range(alloc, schema, range),
    )?;
    Ok(parts)
}

/// The rows of all records of a range, if it has no quote and no carriage return.
fn rows_of_range(alloc: Global, schema: &Schema, range: &str) -> Result<Option<Rows>, Memory>
    ensures { ReadsRange schema.now range.now result }
{
    if memchr2(b'"', b'\r', range.as_bytes()).is_some() {
        return Ok(None);
    }
    rows_of_lines(alloc, schema, range)
}

/// The rows of all parts, one after another. No row is copied.
fn put_together(
    alloc: Global,
    parts: Vec<Result<Option<Rows>, Memory>>,
) -> Result<Option<Rows>, Memory>
    ensures { IfOk result (λ found. IfSome found (ArePutTogether parts.items)) }
{
    let mut rows = Rows::new(alloc);
    for part in parts {
        let Some(part) = part? else {
            return Ok(None);
        };
        if part.len() > MOST_ROWS - rows.len() {
            return Ok(None);
        }
        rows.append(alloc, part)?;
    }
    Ok(Some(rows))
}
