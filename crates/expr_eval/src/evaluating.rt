//! The value of a scalar on a row.
ghost use Rattle.std.specs.Prelude.{◌≡◌, IsTrue, IfOk, IfErr, OnOk, OnErr, true, false};
ghost use Rattle.rel_base.specs.Values.{number_of, in_64_bits};
ghost use Rattle.myrial_ast.specs.Scalars.{exact_value, fits, holds, is_plain, value_at};
ghost use Rattle.myrial_ast.specs.ScalarTrees.{scalar_tree_of};
ghost use Rattle.expr_eval.specs.Lent.{value_of_lent};
ghost use Rattle.expr_eval.specs.Results.{IsFault};

use crate::operands::{applied, minus};
use crate::{Lent, RowView};
use myrial_ast::Scalar;
use rel_base::{Memory, Value};
use std::alloc::Global;

/// A number that a part of a scalar makes lies outside 64 bits.
#[derive(Clone, Copy, Debug, PartialEq, Eq)]
pub struct Overflow;

/// Why a scalar has no value on a row.
#[derive(Clone, Copy, Debug, PartialEq, Eq)]
pub enum EvalFault {
    /// A number that a part makes lies outside 64 bits.
    Overflow,
    /// There was no memory for a string.
    Memory,
}

impl From<Overflow> for EvalFault {
    ghost use Rattle.std.specs.Prelude.{◌≡◌};
    ghost use Rattle.expr_eval.specs.declared.evaluating.EvalFault.TheVariants as fault;

    ghost from_gives = { λ _ given. given ≡ fault.Overflow };

    fn from(_left: Overflow) -> EvalFault {
        EvalFault::Overflow
    }
}

impl From<Memory> for EvalFault {
    ghost use Rattle.std.specs.Prelude.{◌≡◌};
    ghost use Rattle.expr_eval.specs.declared.evaluating.EvalFault.TheVariants as fault;

    ghost from_gives = { λ _ given. given ≡ fault.Memory };

    fn from(_refused: Memory) -> EvalFault {
        EvalFault::Memory
    }
}

/// The value at a place of a row; past its end the number 0.
#[inline(always)]
fn at<R: RowView>(place: u32, row: &R) -> Lent<'_>
    ensures value { value_of_lent result ≡ value_at (R.values row.entry.now) place }
    ensures fits { IsTrue (in_64_bits (number_of (value_at (R.values row.entry.now) place))) }
{
    match row.column(place) {
        Some(value) => value,
        None => Lent::Int(0),
    }
}

/// The value of a scalar on a row, its string lent by the row or by the scalar.
fn lent<'a, R: RowView>(scalar: &'a Scalar, row: &'a R) -> Result<Lent<'a>, Overflow>
    ensures value { IfOk result
        (λ made. value_of_lent made
        ≡ exact_value (scalar_tree_of scalar.entry.now) (R.values row.entry.now)) }
    ensures fits { OnOk result (fits (scalar_tree_of scalar.entry.now) (R.values row.entry.now) ≡ true) }
    ensures overflow { OnErr result
        (fits (scalar_tree_of scalar.entry.now) (R.values row.entry.now) ≡ false) }
    ensures plain { OnErr result (is_plain (scalar_tree_of scalar.entry.now) ≡ false) }
{
    match scalar {
        Scalar::Lit(value) => Ok(Lent::of(value)),
        Scalar::At(place) => Ok(at(*place, row)),
        Scalar::Not(operand) => {
            let operand = lent(operand, row)?;
            Ok(Lent::Bool(!operand.truth()))
        }
        Scalar::Neg(operand) => minus(lent(operand, row)?),
        Scalar::Bin(op, left, right) => {
            let left = lent(left, row)?;
            let right = lent(right, row)?;
            applied(*op, left, right)
        }
    }
}

/// Whether a scalar is true on a row. It takes no memory.
pub fn holds<R: RowView>(scalar: &Scalar, row: &R) -> Result<bool, Overflow>
    ensures value { IfOk result (λ truth. truth ≡ holds (scalar_tree_of scalar.now) (R.values row.now)) }
    ensures fits { OnOk result (fits (scalar_tree_of scalar.now) (R.values row.now) ≡ true) }
    ensures overflow { OnErr result (fits (scalar_tree_of scalar.now) (R.values row.now) ≡ false) }
    ensures plain { OnErr result (is_plain (scalar_tree_of scalar.now) ≡ false) }
{
    let value = lent(scalar, row)?;
    Ok(value.truth())
}

/// The value of a scalar on a row. Memory is asked for where it is a string, and nowhere else.
#[inline]
pub fn eval<R: RowView>(alloc: Global, scalar: &Scalar, row: &R) -> Result<Value, EvalFault>
    ensures value { IfOk result
        (λ value. value ≡ exact_value (scalar_tree_of scalar.now) (R.values row.now)) }
    ensures fits { OnOk result (fits (scalar_tree_of scalar.now) (R.values row.now) ≡ true) }
    ensures fault { IfErr result (λ fault. IsFault fault (scalar_tree_of scalar.now) (R.values row.now)) }
{
    // Most scalars are a column, which needs no evaluation.
    if let Scalar::At(place) = scalar {
        return Ok(at(*place, row).owned(alloc)?);
    }
    match lent(scalar, row) {
        Err(Overflow) => Err(EvalFault::Overflow),
        Ok(value) => Ok(value.owned(alloc)?),
    }
}
