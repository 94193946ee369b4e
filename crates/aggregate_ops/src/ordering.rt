//! Rows in ascending order, each where it stands.
ghost use Rattle.std.specs.Prelude.{◌≡◌, ◌<◌, ◌^◌, map, length, All, IfOk, OnOk};
ghost use Rattle.rel_base.specs.Bags.{IsSortedPermutation};
ghost use Rattle.rel_base.specs.Beginnings.{BeginsWith};
ghost use Rattle.aggregate_ops.specs.Columns.{rows_in};

use rel_base::{LedRow, Memory, Rows, Value, led_row};
use std::alloc::Global;

/// Each row behind what it begins with.
fn led_rows(alloc: Global, rows: &Rows) -> Result<Vec<LedRow<'_>>, Memory>
    ensures rows { IfOk result (λ made. map (λ e. e.2.now) made.items ≡ rows.now) }
    ensures leading { IfOk result (λ made. All (λ e. BeginsWith e.2.now e.0 e.1) made.items) }
{
    let mut led = Vec::with_capacity(alloc, rows.len() as usize)?;
    for row in rows {
        let item = led_row(row);
        led.push(item)?;
    }
    Ok(led)
}

/// The rows alone.
fn bare_rows<'a>(alloc: Global, led: &[LedRow<'a>]) -> Result<Vec<&'a [Value]>, Memory>
    ensures { IfOk result (λ made. rows_in made.items ≡ map (λ e. e.2.now) led.entry.now) }
{
    let mut rows = Vec::with_capacity(alloc, led.len())?;
    for (_, _, row) in led {
        rows.push(*row)?;
    }
    Ok(rows)
}

/// The rows in ascending order. None is copied or moved.
pub fn rows_in_order(alloc: Global, rows: &Rows) -> Result<Vec<&[Value]>, Memory>
    ensures order { IfOk result (λ made. IsSortedPermutation rows.now (rows_in made.items)) }
    ensures few { OnOk result (length rows.now < 2 ^ 32) }
{
    let _few = rows.len();
    let mut led = led_rows(alloc, rows)?;
    led.sort_unstable();
    bare_rows(alloc, &led)
}
