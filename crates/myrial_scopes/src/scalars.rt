//! Expressions with places for their references, and their types.
ghost use Rattle.std.specs.Prelude.{◌≡◌, IfOk, option_map};
ghost use Rattle.myrial_ast.specs.Scalars.{is_arithmetic};
ghost use Rattle.myrial_ast.specs.ScalarTrees.{scalar_tree_of};
ghost use Rattle.myrial_ast.specs.Trees.{tree_of};
ghost use Rattle.myrial_scopes.specs.Scopes.{scalar_of, kind_of};
ghost use Rattle.rel_base.specs.Relations.{type_of};

use crate::scopes::Scope;
use myrial_ast::{BinOp, Expr, Scalar};
use rel_base::{ColType, Duplicate, Memory, Value};
use std::alloc::Global;

impl Scope<'_> {
    /// The expression with places for its references; `None` where a reference doesn't mean one
    /// column, or an aggregate stands in it.
    pub fn scalar(&self, alloc: Global, expression: &Expr) -> Result<Option<Scalar>, Memory>
        ensures { IfOk result
            (λ found. option_map scalar_tree_of found
            ≡ scalar_of self.now (tree_of expression.now)) }
    {
        match expression {
            Expr::Lit(value) => Ok(Some(Scalar::Lit(value.copy(alloc)?))),
            Expr::Col(reference) => match self.place_of(reference) {
                Some(place) => Ok(Some(Scalar::At(place))),
                None => Ok(None),
            },
            Expr::Not(operand) => {
                let Some(operand) = self.scalar(alloc, operand)? else {
                    return Ok(None);
                };
                Ok(Some(Scalar::negation(alloc, operand)?))
            }
            Expr::Neg(operand) => {
                let Some(operand) = self.scalar(alloc, operand)? else {
                    return Ok(None);
                };
                Ok(Some(Scalar::minus(alloc, operand)?))
            }
            Expr::Bin(op, left, right) => {
                let Some(left) = self.scalar(alloc, left)? else {
                    return Ok(None);
                };
                let Some(right) = self.scalar(alloc, right)? else {
                    return Ok(None);
                };
                Ok(Some(Scalar::binary(alloc, *op, left, right)?))
            }
            Expr::Agg(_, _) => Ok(None),
        }
    }

    /// The type of a scalar's values. A place past the end has ints.
    pub fn kind_of(&self, scalar: &Scalar) -> ColType
        ensures { result ≡ kind_of self.now (scalar_tree_of scalar.now) }
    {
        match scalar {
            Scalar::Lit(value) => type_of(value),
            Scalar::At(place) => self.kind_at(*place),
            Scalar::Not(_) => ColType::Bool,
            Scalar::Neg(_) => ColType::Int,
            Scalar::Bin(op, _, _) => {
                if is_arithmetic(*op) {
                    ColType::Int
                } else {
                    ColType::Bool
                }
            }
        }
    }
}

/// The type of a value.
fn type_of(value: &Value) -> ColType
    ensures { result ≡ type_of value.now }
{
    match value {
        Value::Int(_) => ColType::Int,
        Value::Str(_) => ColType::Str,
        Value::Bool(_) => ColType::Bool,
    }
}

/// Whether an operator computes a number.
fn is_arithmetic(op: BinOp) -> bool
    ensures { result ≡ is_arithmetic op }
{
    matches!(op, BinOp::Add | BinOp::Sub | BinOp::Mul)
}
