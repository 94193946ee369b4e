//! The operators on bags: rows in order, each once, and lists put together.
ghost use Rattle.std.specs.Prelude.{◌≡◌, ◌+◌, ◌-◌, ◌<◌, ◌≤◌, ◌^◌, ◌++◌, ◌∷◌, [], if◌then◌else◌, length, OnOk, IfOk, IsSorted};
ghost use Rattle.rel_base.specs.Bags.{SameBag};
ghost use Rattle.rel_base.specs.Limits.{most_rows};
ghost use Rattle.rel_base.specs.Values.{row_order};
ghost use Rattle.myrial_ast.specs.Bags.{union_all, distinct, difference};
ghost use Rattle.packed_rows.specs.Runs.{IsRun, IsBelow, begins};
ghost use Rattle.aggregate_ops.specs.Columns.{rows_in};

use crate::ordering::rows_in_order;
use packed_rows::{PackedOperands, PackedRows};
use rel_base::{Duplicate, Memory, Row, Rows, Value};
use std::alloc::Global;

/// How many rows at the front are the first one.
fn repeats(rows: &[&[Value]]) -> usize
    requires { 0 < length rows.now }
    ensures { IsRun (rows_in rows.now) result }
{
    let first = rows[0];
    let mut count = 1;
    while count < rows.len() && first == rows[count] {
        count += 1;
    }
    count
}

/// How many rows at the front come before a row.
fn rows_below(rows: &[&[Value]], row: &[Value]) -> usize
    ensures { IsBelow (rows_in rows.now) row.now result }
{
    let mut count = 0;
    while count < rows.len() && rows[count].cmp(&row).is_lt() {
        count += 1;
    }
    count
}

/// Whether the first of the rows is this one.
fn begins_with(rows: &[&[Value]], row: &[Value]) -> bool
    ensures { result ≡ begins (rows_in rows.now) row.now }
{
    match rows {
        [] => false,
        [first, ..] => row == *first,
    }
}

/// Adds a copy of a row, unless it was found.
fn put_unless(alloc: Global, found: bool, row: &[Value], into: &mut Rows) -> Result<(), Memory>
    requires { length into.old < 2 ^ 32 - 1 }
    ensures { OnOk result (into.new ≡ into.old ++ (if found then [] else row.now ∷ [])) }
{
    if found {
        return Ok(());
    }
    let copy = Row::from_slice(alloc, row)?;
    into.push(copy)
}

/// Each of the rows that the others don't have, once; both stand in ascending order.
fn without(alloc: Global, rows: &[&[Value]], others: &[&[Value]]) -> Result<Rows, Memory>
    requires rows { IsSorted row_order (rows_in rows.now) }
    requires others { IsSorted row_order (rows_in others.now) }
    requires few { length rows.now < 2 ^ 32 }
    ensures { IfOk result (λ made. made ≡ difference (rows_in rows.now) (rows_in others.now)) }
{
    let mut made = Rows::new(alloc);
    let mut done = 0;
    let mut passed = 0;
    while done < rows.len() {
        let left = &rows[done..];
        let first = left[0];
        passed += rows_below(&others[passed..], first);
        let found = begins_with(&others[passed..], first);
        put_unless(alloc, found, first, &mut made)?;
        done += repeats(left);
    }
    made.freeze(alloc)?;
    Ok(made)
}

/// Each row of the first list that the second doesn't have, once, by a sort of the rows of both.
fn difference_by_sort(alloc: Global, a: &Rows, b: &Rows) -> Result<Rows, Memory>
    ensures { IfOk result (λ made. SameBag (difference a.now b.now) made) }
{
    let rows = rows_in_order(alloc, a)?;
    let others = rows_in_order(alloc, b)?;
    without(alloc, &rows, &others)
}

/// Each row of the first list that the second doesn't have, once, in ascending order.
///
/// A row goes however often either list has it. Time is n log n in the rows of both. Rows that can
/// be packed in words are let go before others are made of these.
pub fn difference(alloc: Global, a: Rows, b: Rows) -> Result<Rows, Memory>
    ensures { IfOk result (λ made. SameBag (difference a b) made) }
{
    let Some(packed) = PackedOperands::of(alloc, &a, &b)? else {
        return difference_by_sort(alloc, &a, &b);
    };
    drop(a);
    drop(b);
    packed.difference(alloc)
}

/// Each row once, by a sort of the rows.
fn distinct_by_sort(alloc: Global, rows: &Rows) -> Result<Rows, Memory>
    ensures { IfOk result (λ made. SameBag (distinct rows.now) made) }
{
    let sorted = rows_in_order(alloc, rows)?;
    without(alloc, &sorted, &[])
}

/// Each row once, in ascending order.
///
/// Rows that can be packed in words are let go before others are made of these.
pub fn distinct(alloc: Global, rows: Rows) -> Result<Rows, Memory>
    ensures { IfOk result (λ made. SameBag (distinct rows) made) }
{
    let Some(packed) = PackedRows::each_once(alloc, &rows)? else {
        return distinct_by_sort(alloc, &rows);
    };
    drop(rows);
    packed.unpacked(alloc)
}

/// The rows of the first list and then those of the second. None that is shared is copied.
pub fn append(alloc: Global, a: &Rows, b: &Rows) -> Result<Rows, Memory>
    requires { length a.now + length b.now ≤ most_rows }
    ensures { IfOk result (λ made. made ≡ union_all a.now b.now) }
{
    let mut made = a.copy(alloc)?;
    let others = b.copy(alloc)?;
    made.append(alloc, others)?;
    Ok(made)
}
