//! Scalars over rows that begin elsewhere.
ghost use Rattle.std.specs.Prelude.{◌≡◌, IfOk};
ghost use Rattle.myrial_ast.specs.ScalarTrees.{scalar_tree_of};
ghost use Rattle.algebra.specs.Shapes.{shifted};
ghost use Rattle.plan_rewrite.specs.inner.Pushing.{lowered};

use myrial_ast::Scalar;
use rel_base::{Duplicate, Memory};
use std::alloc::Global;

/// A scalar over a row that stands so many places further on.
pub(crate) fn shifted(alloc: Global, places: u32, scalar: &Scalar) -> Result<Scalar, Memory>
    ensures { IfOk result (λ made. scalar_tree_of made
        ≡ shifted places (scalar_tree_of scalar.now)) }
{
    match scalar {
        Scalar::Lit(value) => Ok(Scalar::Lit(value.copy(alloc)?)),
        Scalar::At(place) => Ok(Scalar::At(places.checked_add(*place).ok_or(Memory)?)),
        Scalar::Not(operand) => Scalar::negation(alloc, shifted(alloc, places, operand)?),
        Scalar::Neg(operand) => Scalar::minus(alloc, shifted(alloc, places, operand)?),
        Scalar::Bin(op, left, right) => {
            let left = shifted(alloc, places, left)?;
            Scalar::binary(alloc, *op, left, shifted(alloc, places, right)?)
        }
    }
}

/// A scalar over a row that begins so many places further on.
pub(crate) fn lowered(alloc: Global, places: u32, scalar: &Scalar) -> Result<Scalar, Memory>
    ensures { IfOk result (λ made. scalar_tree_of made
        ≡ lowered places (scalar_tree_of scalar.now)) }
{
    match scalar {
        Scalar::Lit(value) => Ok(Scalar::Lit(value.copy(alloc)?)),
        Scalar::At(place) => Ok(Scalar::At(place.saturating_sub(places))),
        Scalar::Not(operand) => Scalar::negation(alloc, lowered(alloc, places, operand)?),
        Scalar::Neg(operand) => Scalar::minus(alloc, lowered(alloc, places, operand)?),
        Scalar::Bin(op, left, right) => {
            let left = lowered(alloc, places, left)?;
            Scalar::binary(alloc, *op, left, lowered(alloc, places, right)?)
        }
    }
}
