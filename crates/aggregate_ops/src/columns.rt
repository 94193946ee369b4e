//! One column of the rows of a group.
ghost use Rattle.std.specs.Prelude.{◌≡◌, ◌<◌, ◌^◌, ◌+ℤ◌, ◌≤ℤ◌, neg_ℤ, pos, length, fold, IfOk, OnOk, IfErr, true};
ghost use Rattle.rel_base.specs.Values.{number_of, in_64_bits};
ghost use Rattle.myrial_ast.specs.Scalars.{value_at};
ghost use Rattle.myrial_ast.specs.Groups.{total, lesser, greater, cell, sum_fits};
ghost use Rattle.algebra.specs.Trees.{kind_of_emit};
ghost use Rattle.aggregate_ops.specs.Columns.{column, Overflows};
ghost use Rattle.aggregate_ops.specs.inner.Reading.{row_of, rows_of, value_of};

use crate::AggFault;
use crate::keys::order_in;
use crate::rows_of_groups::{GroupedRow, GroupedRows, ReadValue};
use algebra::EmitKind;
use myrial_ast::AggOp;
use rel_base::Value;
use std::alloc::Global;

/// The number of a row at a place; where there is none 0.
#[inline(always)]
fn number_in(row: &GroupedRow<'_>, place: usize) -> i64
    ensures value { result ≡ number_of (value_at (row_of row.now) place) }
    ensures low { neg_ℤ (pos (2 ^ 63)) ≤ℤ result }
    ensures high { result ≤ℤ pos (2 ^ 63) }
{
    match row.read(place).value() {
        Value::Int(number) => *number,
        _ => 0,
    }
}

/// A sum with the number of a row at a place more.
#[inline(always)]
fn with_number(sum: i128, row: &GroupedRow<'_>, place: usize) -> i128
    requires least { neg_ℤ (pos (2 ^ 100)) ≤ℤ sum }
    requires greatest { sum ≤ℤ pos (2 ^ 100) }
    ensures value { result ≡ sum +ℤ number_of (value_at (row_of row.now) place) }
    ensures low { sum ≤ℤ (result +ℤ pos (2 ^ 63)) }
    ensures high { result ≤ℤ (sum +ℤ pos (2 ^ 63)) }
{
    sum + i128::from(number_in(row, place))
}

/// The exact sum of the numbers in a column.
pub fn total(run: GroupedRows<'_>, place: usize) -> i128
    requires { length (rows_of run) < 2 ^ 32 }
    ensures value { result ≡ total (column (rows_of run.entry) place) }
    ensures low { neg_ℤ (pos (2 ^ 95)) ≤ℤ result }
    ensures high { result ≤ℤ pos (2 ^ 95) }
{
    let mut sum: i128 = 0;
    for i in 0..run.len() {
        sum = with_number(sum, &run.get(i), place);
    }
    sum
}

/// The least value in a column of these rows, of which there is a first.
fn least<'a>(first: GroupedRow<'a>, rest: GroupedRows<'a>, place: usize) -> ReadValue<'a>
    ensures { value_of result
        ≡ fold lesser (value_at (row_of first.entry) place) (column (rows_of rest.entry) place) }
{
    let mut best = first;
    for i in 0..rest.len() {
        let row = rest.get(i);
        if order_in(&row, place, &best, place).is_lt() {
            best = row;
        }
    }
    best.read(place)
}

/// The greatest value in a column of these rows, of which there is a first.
fn greatest<'a>(first: GroupedRow<'a>, rest: GroupedRows<'a>, place: usize) -> ReadValue<'a>
    ensures { value_of result
        ≡ fold greater (value_at (row_of first.entry) place) (column (rows_of rest.entry) place) }
{
    let mut best = first;
    for i in 0..rest.len() {
        let row = rest.get(i);
        if order_in(&row, place, &best, place).is_gt() {
            best = row;
        }
    }
    best.read(place)
}

/// A sum, where it lies in 64 bits.
pub fn whole(sum: i128) -> Result<i64, AggFault>
    ensures value { IfOk result (λ number. number ≡ sum) }
    ensures fits { OnOk result (in_64_bits sum ≡ true) }
    ensures fault { IfErr result (λ fault. Overflows fault (in_64_bits sum)) }
{
    match i64::try_from(sum) {
        Ok(number) => Ok(number),
        Err(_) => Err(AggFault::AggregateOverflow),
    }
}

/// The value of a group with these rows in a column of this kind.
pub fn cell(
    alloc: Global,
    kind: EmitKind,
    place: usize,
    run: GroupedRows<'_>,
) -> Result<Value, AggFault>
    requires { length (rows_of run) < 2 ^ 32 }
    ensures value { IfOk result (λ made. made
        ≡ cell (kind_of_emit kind) (column (rows_of run.entry) place)) }
    ensures fits { OnOk result
        (sum_fits (kind_of_emit kind) (cell (kind_of_emit kind) (column (rows_of run.entry) place))
        ≡ true) }
    ensures fault { IfErr result (λ fault. Overflows fault
        (sum_fits (kind_of_emit kind) (cell (kind_of_emit kind) (column (rows_of run.entry) place)))) }
{
    match kind {
        EmitKind::Agg(AggOp::CountAll) => Ok(Value::Int(run.len() as i64)),
        EmitKind::Agg(AggOp::Count) => Ok(Value::Int(run.len() as i64)),
        EmitKind::Agg(AggOp::Sum) => match whole(total(run, place)) {
            Ok(number) => Ok(Value::Int(number)),
            Err(fault) => Err(fault),
        },
        _ if run.len() == 0 => Ok(Value::Int(0)),
        EmitKind::Key => run.get(0).read(place).into_value(alloc),
        EmitKind::Agg(AggOp::Min) => least(run.get(0), run.behind(1), place).into_value(alloc),
        EmitKind::Agg(AggOp::Max) => greatest(run.get(0), run.behind(1), place).into_value(alloc),
    }
}
