//! What is made of a group: its row, its partial row, or the row of merged partial rows.
ghost use Rattle.std.specs.Prelude.{◌≡◌, ◌+◌, ◌*◌, ◌<◌, ◌^◌, ◌++◌, ◌∷◌, [], ◌+ℤ◌, ◌*ℤ◌, ◌≤ℤ◌, neg_ℤ, pos, length, map, OnOk, IfOk, IfErr, true};
ghost use Rattle.rel_base.specs.declared.values.Value.TheVariants as variant;
ghost use Rattle.rel_base.specs.Values.{in_64_bits};
ghost use Rattle.myrial_ast.specs.Groups.{cell, group_row};
ghost use Rattle.myrial_ast.specs.Partials.{high, low, split_sums};
ghost use Rattle.algebra.specs.Trees.{kind_of_emit};
ghost use Rattle.aggregate_ops.specs.Columns.{cells, column, Overflows};
ghost use Rattle.aggregate_ops.specs.Forms.{formed, form_fits, grouped_kinds, sums_in, added_in};
ghost use Rattle.aggregate_ops.specs.inner.Reading.{rows_of};
ghost use Rattle.aggregate_ops.specs.inner.MergedCells.{added_kind, merged_cells, whole_sum};

use crate::AggFault;
use crate::columns::{cell, total, whole};
use crate::rows_of_groups::GroupedRows;
use algebra::{EmitKind, EmitKinds};
use myrial_ast::AggOp;
use rel_base::{Memory, Row, Value};
use std::alloc::Global;

/// What is made of the rows of a group.
#[derive(Clone, Copy, Debug, PartialEq, Eq)]
pub enum Form {
    /// The row of the group.
    Whole,
    /// The partial row: each sum in two columns.
    Split,
    /// Of partial rows the row of all their groups.
    Merged,
}

/// Adds a value at the end; there is no memory where the row has no room.
#[inline(always)]
pub fn put(row: &mut Row, value: Value) -> Result<(), Memory>
    ensures { OnOk result (row.new ≡ row.old ++ value ∷ []) }
{
    if row.len() == u32::MAX {
        return Err(Memory);
    }
    row.push(value)
}

/// Adds the group's value in each column from a place on.
fn put_cells(
    alloc: Global,
    kinds: &[EmitKind],
    place: usize,
    run: GroupedRows<'_>,
    into: &mut Row,
) -> Result<(), AggFault>
    requires few { length (rows_of run) < 2 ^ 32 }
    requires columns { place + length kinds.now < 2 ^ 64 }
    ensures ok { OnOk result (into.new
        ≡ into.old ++ cells place (map kind_of_emit kinds.now) (rows_of run.entry)) }
    ensures fits { OnOk result
        (sums_in (map kind_of_emit kinds.now)
        (cells place (map kind_of_emit kinds.now) (rows_of run.entry)) ≡ true) }
    ensures fault { IfErr result (λ fault. Overflows fault
        (sums_in (map kind_of_emit kinds.now)
        (cells place (map kind_of_emit kinds.now) (rows_of run.entry)))) }
{
    match kinds {
        [] => Ok(()),
        [kind, kinds @ ..] => {
            match cell(alloc, *kind, place, run) {
                Ok(value) => put(into, value)?,
                Err(fault) => return Err(fault),
            }
            put_cells(alloc, kinds, place + 1, run, into)
        }
    }
}

/// Adds a sum in two columns, of which the first counts times 2 ^ 62.
fn put_sum(sum: i128, into: &mut Row) -> Result<(), Memory>
    requires least { neg_ℤ (pos (2 ^ 95)) ≤ℤ sum }
    requires greatest { sum ≤ℤ pos (2 ^ 95) }
    ensures { OnOk result (into.new
        ≡ into.old ++ variant.Int (high sum) ∷ variant.Int (low sum) ∷ []) }
{
    let high = sum.div_euclid(1 << 62) as i64;
    let low = sum.rem_euclid(1 << 62) as i64;
    put(into, Value::Int(high))?;
    put(into, Value::Int(low))
}

/// Adds the group's partial value in each column from a place on.
fn put_partials(
    alloc: Global,
    kinds: &[EmitKind],
    place: usize,
    run: GroupedRows<'_>,
    into: &mut Row,
) -> Result<(), Memory>
    requires few { length (rows_of run) < 2 ^ 32 }
    requires columns { place + length kinds.now < 2 ^ 64 }
    ensures { OnOk result (into.new
        ≡ into.old ++ split_sums (map kind_of_emit kinds.now)
        (cells place (map kind_of_emit kinds.now) (rows_of run.entry))) }
{
    match kinds {
        [] => Ok(()),
        [EmitKind::Agg(AggOp::Sum), kinds @ ..] => {
            put_sum(total(run, place), into)?;
            put_partials(alloc, kinds, place + 1, run, into)
        }
        [kind, kinds @ ..] => {
            match cell(alloc, *kind, place, run) {
                Ok(value) => put(into, value)?,
                Err(AggFault::Memory) => return Err(Memory),
                Err(AggFault::AggregateOverflow) => unreachable!(),
            }
            put_partials(alloc, kinds, place + 1, run, into)
        }
    }
}

/// The sum whose two columns add up to these, where it lies in 64 bits.
fn merged_sum(high: i128, low: i128) -> Result<i64, AggFault>
    requires least { neg_ℤ (pos (2 ^ 95)) ≤ℤ low }
    requires greatest { low ≤ℤ pos (2 ^ 95) }
    ensures value { IfOk result (λ sum. sum ≡ (high *ℤ pos (2 ^ 62)) +ℤ low) }
    ensures fits { OnOk result (in_64_bits ((high *ℤ pos (2 ^ 62)) +ℤ low) ≡ true) }
    ensures fault { IfErr result (λ fault. Overflows fault
        (in_64_bits ((high *ℤ pos (2 ^ 62)) +ℤ low))) }
{
    if high < -(1 << 64) || high > 1 << 64 {
        return Err(AggFault::AggregateOverflow);
    }
    whole(high * (1 << 62) + low)
}

/// The sum whose two columns stand from a place on, where it lies in 64 bits.
#[tactic(auto, using(crate::proofs::CellLemmas::sum_cell))]
fn whole_sum(run: GroupedRows<'_>, place: usize) -> Result<i64, AggFault>
    requires few { length (rows_of run) < 2 ^ 32 }
    requires column { place + 1 < 2 ^ 64 }
    ensures value { IfOk result (λ sum. sum ≡ whole_sum (rows_of run.entry) place) }
    ensures fits { OnOk result (in_64_bits (whole_sum (rows_of run.entry) place) ≡ true) }
    ensures fault { IfErr result (λ fault. Overflows fault
        (in_64_bits (whole_sum (rows_of run.entry) place))) }
{
    merged_sum(total(run, place), total(run, place + 1))
}

/// Adds the value of merged partial rows in each column, which they have from a place on.
fn put_merged(
    alloc: Global,
    kinds: &[EmitKind],
    place: usize,
    run: GroupedRows<'_>,
    into: &mut Row,
) -> Result<(), AggFault>
    requires few { length (rows_of run) < 2 ^ 32 }
    requires columns { place + 2 * length kinds.now < 2 ^ 64 }
    ensures ok { OnOk result (into.new
        ≡ into.old ++ merged_cells place (map kind_of_emit kinds.now) (rows_of run.entry)) }
    ensures fits { OnOk result
        (added_in (map kind_of_emit kinds.now)
        (merged_cells place (map kind_of_emit kinds.now) (rows_of run.entry)) ≡ true) }
    ensures fault { IfErr result (λ fault. Overflows fault
        (added_in (map kind_of_emit kinds.now)
        (merged_cells place (map kind_of_emit kinds.now) (rows_of run.entry)))) }
{
    match kinds {
        [] => Ok(()),
        [EmitKind::Agg(AggOp::Sum), kinds @ ..] => {
            match whole_sum(run, place) {
                Ok(sum) => put(into, Value::Int(sum))?,
                Err(fault) => return Err(fault),
            }
            put_merged(alloc, kinds, place + 2, run, into)
        }
        [kind, kinds @ ..] => {
            match cell(alloc, added(*kind), place, run) {
                Ok(value) => put(into, value)?,
                Err(fault) => return Err(fault),
            }
            put_merged(alloc, kinds, place + 1, run, into)
        }
    }
}

/// How a column of partial rows is grouped again: counts are added.
pub fn added(kind: EmitKind) -> EmitKind
    ensures { kind_of_emit result ≡ added_kind (kind_of_emit kind) }
{
    match kind {
        EmitKind::Agg(AggOp::Count) => EmitKind::Agg(AggOp::Sum),
        EmitKind::Agg(AggOp::CountAll) => EmitKind::Agg(AggOp::Sum),
        _ => kind,
    }
}

impl Form {
    /// Adds what is made of the rows of a group. After a fault some of the values may be there.
    #[tactic(auto, using(crate::proofs::CellLemmas::cells_row))]
    pub fn put_row(
        self,
        alloc: Global,
        kinds: &EmitKinds,
        run: GroupedRows<'_>,
        into: &mut Row,
    ) -> Result<(), AggFault>
        requires { length (rows_of run) < 2 ^ 32 }
        ensures row { OnOk result (into.new
            ≡ into.old ++ formed self (map kind_of_emit kinds.now)
            (group_row (grouped_kinds self (map kind_of_emit kinds.now)) (rows_of run.entry))) }
        ensures fits { OnOk result
            (form_fits self (map kind_of_emit kinds.now)
            (group_row (grouped_kinds self (map kind_of_emit kinds.now)) (rows_of run.entry))
            ≡ true) }
        ensures fault { IfErr result (λ fault. Overflows fault
            (form_fits self (map kind_of_emit kinds.now)
            (group_row (grouped_kinds self (map kind_of_emit kinds.now)) (rows_of run.entry)))) }
    {
        match self {
            Form::Whole => put_cells(alloc, kinds.as_slice(), 0, run, into),
            Form::Split => match put_partials(alloc, kinds.as_slice(), 0, run, into) {
                Ok(()) => Ok(()),
                Err(Memory) => Err(AggFault::Memory),
            },
            Form::Merged => put_merged(alloc, kinds.as_slice(), 0, run, into),
        }
    }
}
