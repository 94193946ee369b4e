//! What operators make of values, without memory.
ghost use Rattle.std.specs.Prelude.{◌≡◌, ◌+ℤ◌, ◌-ℤ◌, ◌*ℤ◌, neg_ℤ, IfOk, OnOk, OnErr, true, false};
ghost use Rattle.rel_base.specs.declared.values.Value.TheVariants as value;
ghost use Rattle.rel_base.specs.Values.{number_of, in_64_bits};
ghost use Rattle.myrial_ast.specs.Scalars.{applied, is_arithmetic};
ghost use Rattle.expr_eval.specs.Lent.{value_of_lent};

use crate::{Lent, Overflow};
use myrial_ast::BinOp;

/// The negation of a number.
fn negated(number: i64) -> Result<i64, Overflow>
    ensures value { IfOk result (λ made. made ≡ neg_ℤ number) }
    ensures fits { OnOk result (in_64_bits (neg_ℤ number) ≡ true) }
    ensures overflow { OnErr result (in_64_bits (neg_ℤ number) ≡ false) }
{
    number.checked_neg().ok_or(Overflow)
}

/// The sum of two numbers.
fn sum(left: i64, right: i64) -> Result<i64, Overflow>
    ensures value { IfOk result (λ made. made ≡ left +ℤ right) }
    ensures fits { OnOk result (in_64_bits (left +ℤ right) ≡ true) }
    ensures overflow { OnErr result (in_64_bits (left +ℤ right) ≡ false) }
{
    left.checked_add(right).ok_or(Overflow)
}

/// The difference of two numbers.
fn difference(left: i64, right: i64) -> Result<i64, Overflow>
    ensures value { IfOk result (λ made. made ≡ left -ℤ right) }
    ensures fits { OnOk result (in_64_bits (left -ℤ right) ≡ true) }
    ensures overflow { OnErr result (in_64_bits (left -ℤ right) ≡ false) }
{
    left.checked_sub(right).ok_or(Overflow)
}

/// The product of two numbers.
fn product(left: i64, right: i64) -> Result<i64, Overflow>
    ensures value { IfOk result (λ made. made ≡ left *ℤ right) }
    ensures fits { OnOk result (in_64_bits (left *ℤ right) ≡ true) }
    ensures overflow { OnErr result (in_64_bits (left *ℤ right) ≡ false) }
{
    left.checked_mul(right).ok_or(Overflow)
}

/// The negation of a value's number.
pub fn minus<'a>(operand: Lent<'_>) -> Result<Lent<'a>, Overflow>
    ensures value { IfOk result
        (λ made. value_of_lent made ≡ value.Int (neg_ℤ (number_of (value_of_lent operand.entry)))) }
    ensures fits { OnOk result (in_64_bits (neg_ℤ (number_of (value_of_lent operand.entry))) ≡ true) }
    ensures overflow { OnErr result (in_64_bits (neg_ℤ (number_of (value_of_lent operand.entry))) ≡ false) }
{
    let number = negated(operand.number())?;
    Ok(Lent::Int(number))
}

/// What an operator makes of two values.
pub fn applied<'a>(op: BinOp, left: Lent<'_>, right: Lent<'_>) -> Result<Lent<'a>, Overflow>
    ensures value { IfOk result
        (λ made. value_of_lent made
        ≡ applied op (value_of_lent left.entry) (value_of_lent right.entry)) }
    ensures fits { OnOk result
        (in_64_bits (number_of (applied op (value_of_lent left.entry) (value_of_lent right.entry)))
        ≡ true) }
    ensures overflow { OnErr result
        (in_64_bits (number_of (applied op (value_of_lent left.entry) (value_of_lent right.entry)))
        ≡ false) }
    ensures arithmetic { OnErr result (is_arithmetic op ≡ true) }
{
    match op {
        BinOp::Or => Ok(Lent::Bool(left.truth() | right.truth())),
        BinOp::And => Ok(Lent::Bool(left.truth() & right.truth())),
        BinOp::Eq => Ok(Lent::Bool(left.compared(right).is_eq())),
        BinOp::Ne => Ok(Lent::Bool(left.compared(right).is_ne())),
        BinOp::Lt => Ok(Lent::Bool(left.compared(right).is_lt())),
        BinOp::Le => Ok(Lent::Bool(left.compared(right).is_le())),
        BinOp::Gt => Ok(Lent::Bool(left.compared(right).is_gt())),
        BinOp::Ge => Ok(Lent::Bool(left.compared(right).is_ge())),
        BinOp::Add => Ok(Lent::Int(sum(left.number(), right.number())?)),
        BinOp::Sub => Ok(Lent::Int(difference(left.number(), right.number())?)),
        BinOp::Mul => Ok(Lent::Int(product(left.number(), right.number())?)),
    }
}
