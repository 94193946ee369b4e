//! The rows of the values that rows emit by picks, which are columns and literals.
ghost use Rattle.std.specs.Prelude.{◌≡◌, ◌<◌, ◌++◌, IsTrue, IfOk, OnOk, map, true};
ghost use Rattle.std.specs.List.{list_all};
ghost use Rattle.rel_base.specs.Values.{number_of, in_64_bits};
ghost use Rattle.myrial_ast.specs.Scalars.{exact_value, fits};
ghost use Rattle.myrial_ast.specs.Combinations.{emitted};
ghost use Rattle.myrial_ast.specs.CandidateFaults.{all_fit};
ghost use Rattle.myrial_ast.specs.ScalarTrees.{scalar_tree_of};
ghost use Rattle.aggregate_ops.specs.Picks.{is_pick, are_picks};

use crate::group_rows::put;
use myrial_ast::{Scalar, Scalars};
use rel_base::{Duplicate, Memory, Row, Rows, Value};
use std::alloc::Global;

/// Whether it is a column or a literal.
fn is_pick(scalar: &Scalar) -> bool
    ensures { result ≡ is_pick (scalar_tree_of scalar.now) }
{
    matches!(scalar, Scalar::At(_) | Scalar::Lit(_))
}

/// Whether each of these is a column or a literal.
pub fn are_picks(scalars: &Scalars) -> bool
    ensures { result ≡ are_picks (map scalar_tree_of scalars.now) }
{
    for scalar in scalars.as_slice() {
        if !is_pick(scalar) {
            return false;
        }
    }
    true
}

/// A copy of a value, whose number lies in 64 bits.
fn copied(alloc: Global, value: &Value) -> Result<Value, Memory>
    ensures value { IfOk result (λ made. made ≡ value.now) }
    ensures fits { in_64_bits (number_of value.now) ≡ true }
{
    match value {
        Value::Int(number) => Ok(Value::Int(*number)),
        Value::Str(text) => Ok(Value::Str(text.copy(alloc)?)),
        Value::Bool(truth) => Ok(Value::Bool(*truth)),
    }
}

/// The value of a pick; past the end of the row the number 0.
fn picked_value(alloc: Global, pick: &Scalar, values: &[Value]) -> Result<Value, Memory>
    requires { IsTrue (is_pick (scalar_tree_of pick.now)) }
    ensures value { IfOk result (λ made. made ≡ exact_value (scalar_tree_of pick.now) values.now) }
    ensures fits { OnOk result (fits (scalar_tree_of pick.now) values.now ≡ true) }
{
    match pick {
        Scalar::At(place) => match values.get(*place as usize) {
            Some(value) => copied(alloc, value),
            None => Ok(Value::Int(0)),
        },
        Scalar::Lit(value) => copied(alloc, value),
        _ => unreachable!(),
    }
}

/// Adds what a row emits by these picks. After `Memory` some of the values may be there.
fn put_picked(alloc: Global, picks: &Scalars, row: &[Value], into: &mut Row) -> Result<(), Memory>
    requires { IsTrue (are_picks (map scalar_tree_of picks.now)) }
    ensures row { OnOk result (into.new
        ≡ into.old ++ emitted (map scalar_tree_of picks.now) row.now) }
    ensures fits { OnOk result (all_fit (map scalar_tree_of picks.now) row.now ≡ true) }
{
    for pick in picks.as_slice() {
        let value = picked_value(alloc, pick, row)?;
        put(into, value)?;
    }
    Ok(())
}

/// What each row emits by these picks, in order. One row is filled again and again.
pub fn picked_rows(alloc: Global, picks: &Scalars, rows: &Rows) -> Result<Rows, Memory>
    requires { IsTrue (are_picks (map scalar_tree_of picks.now)) }
    ensures rows { IfOk result (λ made. made
        ≡ map (emitted (map scalar_tree_of picks.now)) rows.now) }
    ensures fits { OnOk result (list_all (all_fit (map scalar_tree_of picks.now)) rows.now ≡ true) }
{
    let mut made = Rows::with_capacity(alloc, rows.len(), picks.len())?;
    let mut picked = Row::with_capacity(alloc, picks.len())?;
    for row in rows {
        put_picked(alloc, picks, row, &mut picked)?;
        made.push_from(&mut picked)?;
    }
    Ok(made)
}
