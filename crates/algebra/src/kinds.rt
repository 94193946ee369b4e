//! The types of scalars.
ghost use Rattle.std.specs.Prelude.{◌≡◌};
ghost use Rattle.rel_base.specs.Relations.{type_of};
ghost use Rattle.myrial_ast.specs.Scalars.{is_plain};
ghost use Rattle.myrial_ast.specs.ScalarTrees.{scalar_tree_of};
ghost use Rattle.algebra.specs.ShapeConditions.{is_kind, where_both, kind_of_op, kind_in, is_truth, is_plain_test, is_typed};

use myrial_ast::{BinOp, Scalar};
use rel_base::{ColType, Value};

/// The type of a value.
fn type_of(value: &Value) -> ColType
    ensures { result ≡ type_of value.now }
{
    match value {
        Value::Int(_) => ColType::Int,
        Value::Str(_) => ColType::Str,
        Value::Bool(_) => ColType::Bool,
    }
}

/// Whether this type was found.
pub fn is_kind(kind: ColType, found: Option<ColType>) -> bool
    ensures { result ≡ is_kind kind found }
{
    match found {
        None => false,
        Some(own) => matches!(
            (kind, own),
            (ColType::Int, ColType::Int)
                | (ColType::Str, ColType::Str)
                | (ColType::Bool, ColType::Bool)
        ),
    }
}

/// This type, where both operands have that one.
pub fn where_both(
    given: ColType,
    wanted: ColType,
    left: Option<ColType>,
    right: Option<ColType>,
) -> Option<ColType>
    ensures { result ≡ where_both given wanted left right }
{
    if is_kind(wanted, left) && is_kind(wanted, right) {
        Some(given)
    } else {
        None
    }
}

/// The type of what an operator makes of operands of these types.
pub fn kind_of_op(op: BinOp, left: Option<ColType>, right: Option<ColType>) -> Option<ColType>
    ensures { result ≡ kind_of_op op left right }
{
    match op {
        BinOp::Or | BinOp::And => where_both(ColType::Bool, ColType::Bool, left, right),
        BinOp::Add | BinOp::Sub | BinOp::Mul => where_both(ColType::Int, ColType::Int, left, right),
        BinOp::Eq | BinOp::Ne | BinOp::Lt | BinOp::Le | BinOp::Gt | BinOp::Ge => match left {
            None => None,
            Some(kind) => where_both(ColType::Bool, kind, left, right),
        },
    }
}

/// The type of a scalar over columns of these types, if it has one.
pub fn kind_in(kinds: &[ColType], scalar: &Scalar) -> Option<ColType>
    ensures { result ≡ kind_in kinds.now (scalar_tree_of scalar.now) }
{
    match scalar {
        Scalar::Lit(value) => Some(type_of(value)),
        Scalar::At(place) => kinds.get(*place as usize).copied(),
        Scalar::Not(operand) => {
            let kind = kind_in(kinds, operand);
            where_both(ColType::Bool, ColType::Bool, kind, kind)
        }
        Scalar::Neg(operand) => {
            let kind = kind_in(kinds, operand);
            where_both(ColType::Int, ColType::Int, kind, kind)
        }
        Scalar::Bin(op, left, right) => {
            let left = kind_in(kinds, left);
            kind_of_op(*op, left, kind_in(kinds, right))
        }
    }
}

/// Whether no part of a scalar computes a number.
pub fn is_plain(scalar: &Scalar) -> bool
    ensures { result ≡ is_plain (scalar_tree_of scalar.now) }
{
    match scalar {
        Scalar::Lit(_) | Scalar::At(_) => true,
        Scalar::Not(operand) => is_plain(operand),
        Scalar::Neg(_) => false,
        Scalar::Bin(op, left, right) => {
            !matches!(op, BinOp::Add | BinOp::Sub | BinOp::Mul) && is_plain(left) && is_plain(right)
        }
    }
}

/// Whether a scalar is a truth over columns of these types.
pub(crate) fn is_truth(kinds: &[ColType], scalar: &Scalar) -> bool
    ensures { result ≡ is_truth kinds.now (scalar_tree_of scalar.now) }
{
    is_kind(ColType::Bool, kind_in(kinds, scalar))
}

/// Whether a scalar is a truth over columns of these types, and computes no number.
pub(crate) fn is_plain_test(kinds: &[ColType], scalar: &Scalar) -> bool
    ensures { result ≡ is_plain_test kinds.now (scalar_tree_of scalar.now) }
{
    is_plain(scalar) && is_truth(kinds, scalar)
}

/// Whether a scalar has a type over columns of these types.
pub(crate) fn is_typed(kinds: &[ColType], scalar: &Scalar) -> bool
    ensures { result ≡ is_typed kinds.now (scalar_tree_of scalar.now) }
{
    kind_in(kinds, scalar).is_some()
}
