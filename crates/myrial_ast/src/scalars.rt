//! Expressions over the places of one row.
ghost use Rattle.std.specs.Prelude.{◌≡◌, ◌==◌, not, length, IfOk};
ghost use Rattle.std.specs.List.{list_all};
ghost use Rattle.myrial_ast.specs.Classes.{equality};
ghost use Rattle.myrial_ast.specs.KeptRows.{lies_in, reads_within};
ghost use Rattle.myrial_ast.specs.Scalars as scalar;
ghost use Rattle.myrial_ast.specs.Scalars.{columns_of};
ghost use Rattle.myrial_ast.specs.ScalarTrees.{scalar_tree_of};

use crate::operators::BinOp;
use rel_base::{Duplicate, Items, Memory, Value};
use std::alloc::Global;

/// An expression whose columns are places of a row, without aggregates.
#[derive(Debug, Drop)]
pub enum Scalar {
    /// A value.
    Lit(Value),
    /// The column at a place of the row.
    At(u32),
    /// `not e`.
    Not(Box<Scalar>),
    /// `-e`.
    Neg(Box<Scalar>),
    /// Two operands with an operator between them.
    Bin(BinOp, Box<Scalar>, Box<Scalar>),
}

/// Scalars, in order.
pub type Scalars = Items<Scalar>;

impl Scalar {
    /// The negation `not e`.
    pub fn negation(alloc: Global, operand: Scalar) -> Result<Scalar, Memory>
        ensures { IfOk result (λ made. scalar_tree_of made ≡ scalar.Not (scalar_tree_of operand)) }
    {
        Ok(Scalar::Not(Box::new(alloc, operand)?))
    }

    /// The scalar `-e`.
    pub fn minus(alloc: Global, operand: Scalar) -> Result<Scalar, Memory>
        ensures { IfOk result (λ made. scalar_tree_of made ≡ scalar.Neg (scalar_tree_of operand)) }
    {
        Ok(Scalar::Neg(Box::new(alloc, operand)?))
    }

    /// Two operands with an operator between them.
    pub fn binary(alloc: Global, op: BinOp, left: Scalar, right: Scalar) -> Result<Scalar, Memory>
        ensures { IfOk result
            (λ made. scalar_tree_of made
            ≡ scalar.Bin op (scalar_tree_of left) (scalar_tree_of right)) }
    {
        let left = Box::new(alloc, left)?;
        Ok(Scalar::Bin(op, left, Box::new(alloc, right)?))
    }

    /// A scalar with the same tree, in memory of its own.
    pub fn copy(&self, alloc: Global) -> Result<Scalar, Memory>
        ensures { IfOk result (λ made. scalar_tree_of made ≡ scalar_tree_of self.now) }
    {
        match self {
            Scalar::Lit(value) => Ok(Scalar::Lit(value.copy(alloc)?)),
            Scalar::At(place) => Ok(Scalar::At(*place)),
            Scalar::Not(operand) => Scalar::negation(alloc, operand.copy(alloc)?),
            Scalar::Neg(operand) => Scalar::minus(alloc, operand.copy(alloc)?),
            Scalar::Bin(op, left, right) => {
                let left = left.copy(alloc)?;
                Scalar::binary(alloc, *op, left, right.copy(alloc)?)
            }
        }
    }

    /// The two places, where the scalar is an equality of columns.
    pub fn equality(&self) -> Option<(u32, u32)>
        ensures { result ≡ equality (scalar_tree_of self.now) }
    {
        match self {
            Scalar::Bin(BinOp::Eq, left, right) => match (&**left, &**right) {
                (Scalar::At(left), Scalar::At(right)) => Some((*left, *right)),
                _ => None,
            },
            _ => None,
        }
    }

    /// Whether the scalar reads some column, and none before `from` or from `to` on.
    pub fn reads_within(&self, from: u64, to: u64) -> bool
        ensures { result
            ≡ reads_within (record { from = from; to = to }) (scalar_tree_of self.now) }
    {
        self.reads_a_column() && self.reads_inside(from, to)
    }

    /// Whether the scalar reads some column.
    fn reads_a_column(&self) -> bool
        ensures { result ≡ not (length (columns_of (scalar_tree_of self.now)) == 0) }
    {
        match self {
            Scalar::Lit(_) => false,
            Scalar::At(_) => true,
            Scalar::Not(operand) | Scalar::Neg(operand) => operand.reads_a_column(),
            Scalar::Bin(_, left, right) => left.reads_a_column() || right.reads_a_column(),
        }
    }

    /// Whether the scalar reads no column before `from`, and none from `to` on.
    fn reads_inside(&self, from: u64, to: u64) -> bool
        ensures { result ≡ list_all (lies_in (record { from = from; to = to }))
            (columns_of (scalar_tree_of self.now)) }
    {
        match self {
            Scalar::Lit(_) => true,
            Scalar::At(column) => from <= u64::from(*column) && u64::from(*column) < to,
            Scalar::Not(operand) | Scalar::Neg(operand) => operand.reads_inside(from, to),
            Scalar::Bin(_, left, right) => {
                left.reads_inside(from, to) && right.reads_inside(from, to)
            }
        }
    }
}
