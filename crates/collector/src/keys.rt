//! Rows sorted by what they begin with: most of them compare without a look at the row.
ghost use Rattle.std.specs.Prelude.{◌≡◌, All, map, IfOk};
ghost use Rattle.rel_base.specs.Beginnings.{BeginsWith};
ghost use Rattle.collector.specs.inner.Sorted.{IsSortedPart};

use rel_base::{LedRow, Memory, Rows, Value, led_row};
use std::alloc::Global;

/// The rows of a part in ascending order, each where it stands.
pub(crate) fn sorted_by_keys<'a>(alloc: Global, part: &'a Rows) -> Result<Vec<&'a [Value]>, Memory>
    ensures { IfOk result (IsSortedPart part.now) }
{
    let mut keyed = keyed_rows(alloc, part)?;
    keyed.sort_unstable();
    let rows = rows_behind(alloc, &keyed)?;
    Ok(rows)
}

/// Each row of a part behind what it begins with, as they stand.
fn keyed_rows<'a>(alloc: Global, part: &'a Rows) -> Result<Vec<LedRow<'a>>, Memory>
    ensures rows { IfOk result (λ keyed. map (λ e. e.2.now) keyed.items ≡ part.now) }
    ensures keys { IfOk result (λ keyed. All (λ e. BeginsWith e.2.now e.0 e.1) keyed.items) }
{
    let mut keyed = Vec::with_capacity(alloc, part.len() as usize)?;
    for row in part {
        keyed.push(led_row(row))?;
    }
    Ok(keyed)
}

/// The rows without what they begin with.
fn rows_behind<'a>(alloc: Global, keyed: &[LedRow<'a>]) -> Result<Vec<&'a [Value]>, Memory>
    ensures { IfOk result (λ rows. map (λ row. row.now) rows.items
        ≡ map (λ e. e.2.now) keyed.entry.now) }
{
    let mut rows = Vec::with_capacity(alloc, keyed.len())?;
    for (_, _, row) in keyed {
        rows.push(*row)?;
    }
    Ok(rows)
}
