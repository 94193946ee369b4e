//! Rows that are grouped, split and merged, and the operators on bags.
ghost use Rattle.std.specs.Prelude.{◌≡◌, [], ◌∷◌, IfOk, pos, negsuc};
ghost use Rattle.rel_base.specs.declared.values.Value.TheVariants as value;
ghost use Rattle.myrial_ast.specs.declared.operators.AggOp.TheVariants as agg;
ghost use Rattle.algebra.specs.declared.shapes.EmitKind.TheVariants as emit;

use aggregate_ops::{AggFault, append, difference, distinct, group, merge, partial, partial_keys};
use algebra::{EmitKind, EmitKinds};
use myrial_ast::AggOp;
use rel_base::{Duplicate, Memory, Row, Rows, Text, Value};
use std::alloc::Global;

/// A row of a text and a number.
fn row_of(alloc: Global, text: &str, number: i64) -> Result<Row, Memory>
    ensures { IfOk result (λ row. row ≡ value.Str text.now ∷ value.Int number ∷ []) }
{
    let mut row = Row::new(alloc);
    row.push(Value::Str(Text::of(alloc, text)?))?;
    row.push(Value::Int(number))?;
    Ok(row)
}

/// Two rows under one key, whose numbers are the greatest and the least.
fn pay(alloc: Global) -> Result<Rows, Memory>
    ensures { IfOk result (λ rows. rows
        ≡ (value.Str (97 ∷ []) ∷ value.Int (pos 9223372036854775807) ∷ [])
        ∷ (value.Str (97 ∷ []) ∷ value.Int (negsuc 9223372036854775807) ∷ []) ∷ []) }
{
    let mut rows = Rows::new(alloc);
    rows.push(row_of(alloc, "a", i64::MAX)?)?;
    rows.push(row_of(alloc, "a", i64::MIN)?)?;
    Ok(rows)
}

/// A text to group by, and a sum.
fn sums(alloc: Global) -> Result<EmitKinds, Memory>
    ensures { IfOk result (λ kinds. kinds ≡ emit.Key ∷ emit.Agg agg.Sum ∷ []) }
{
    let mut kinds = EmitKinds::new(alloc);
    kinds.push(EmitKind::Key)?;
    kinds.push(EmitKind::Agg(AggOp::Sum))?;
    Ok(kinds)
}

/// The number of groups of the two rows.
fn count_of_groups(alloc: Global) -> Result<u32, AggFault> {
    let rows = pay(alloc)?;
    let kinds = sums(alloc)?;
    Ok(group(alloc, &rows, &kinds)?.len())
}

#[test]
fn a_sum_leaves_64_bits_on_the_way(rt: HostRuntime) {
    assert_eq!(rt; count_of_groups(rt.alloc()), Ok(1));
}

/// The number of groups of the two rows' partial rows.
fn count_of_merged(alloc: Global) -> Result<u32, AggFault> {
    let rows = pay(alloc)?;
    let kinds = sums(alloc)?;
    let split = partial(alloc, &rows, &kinds)?;
    Ok(merge(alloc, &split, &kinds)?.len())
}

#[test]
fn partial_rows_are_merged(rt: HostRuntime) {
    assert_eq!(rt; count_of_merged(rt.alloc()), Ok(1));
}

#[test]
fn keys_stand_where_they_stood(rt: HostRuntime) -> Result<(), Memory> {
    let kinds = sums(rt.alloc())?;
    assert_eq!(rt; partial_keys(rt.alloc(), &kinds)?.len(), 1);
    Ok(())
}

/// The two rows, twice.
fn double_pay(alloc: Global) -> Result<Rows, Memory> {
    let rows = pay(alloc)?;
    append(alloc, &rows, &rows)
}

#[test]
fn rows_are_kept_once(rt: HostRuntime) -> Result<(), Memory> {
    let rows = double_pay(rt.alloc())?;
    assert_eq!(rt; distinct(rt.alloc(), rows)?.len(), 2);
    Ok(())
}

#[test]
fn rows_that_the_other_list_has_are_left_out(rt: HostRuntime) -> Result<(), Memory> {
    let rows = double_pay(rt.alloc())?;
    assert_eq!(rt;
        difference(rt.alloc(), rows.copy(rt.alloc())?, rows)?.len(),
        0
    );
    Ok(())
}
