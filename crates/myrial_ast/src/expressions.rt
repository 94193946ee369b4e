//! Expressions.
ghost use Rattle.std.specs.Prelude.{◌≡◌, IfOk};
ghost use Rattle.myrial_ast.specs.Trees as tree;
ghost use Rattle.myrial_ast.specs.Trees.{tree_of};

use crate::operators::{AggOp, BinOp};
use rel_base::{Duplicate, Memory, Text, Value};
use std::alloc::Global;

/// A reference to a column of the combined row of a comprehension.
#[derive(Debug)]
pub enum ColRef {
    /// `name`: the one column of that name.
    ByName(Text),
    /// `$i`: column number `i`, from 0.
    ByPlace(u64),
    /// `T.name`: the one column of that name in the item with the alias `T`.
    OfName(Text, Text),
    /// `T.$i`: column number `i`, from 0, of the item with the alias `T`.
    OfPlace(Text, u64),
}

// Written out, since a derived drop is proved anew at each place where a value is let go.
impl Drop for ColRef {
    fn drop(self) {
        match self {
            ColRef::ByName(_) | ColRef::ByPlace(_) | ColRef::OfName(_, _) | ColRef::OfPlace(_, _) =>
                {}
        }
    }
}

/// An expression over the columns of a comprehension.
#[derive(Debug, Drop)]
pub enum Expr {
    /// A value.
    Lit(Value),
    /// A column.
    Col(ColRef),
    /// `not e`.
    Not(Box<Expr>),
    /// `-e`.
    Neg(Box<Expr>),
    /// Two operands with an operator between them.
    Bin(BinOp, Box<Expr>, Box<Expr>),
    /// An aggregate, with its argument where it has one.
    Agg(AggOp, Option<Box<Expr>>),
}

impl Duplicate for ColRef {
    fn copy(&self, alloc: Global) -> Result<ColRef, Memory> {
        match self {
            ColRef::ByName(name) => Ok(ColRef::ByName(name.copy(alloc)?)),
            ColRef::ByPlace(place) => Ok(ColRef::ByPlace(*place)),
            ColRef::OfName(alias, name) => {
                let alias = alias.copy(alloc)?;
                Ok(ColRef::OfName(alias, name.copy(alloc)?))
            }
            ColRef::OfPlace(alias, place) => Ok(ColRef::OfPlace(alias.copy(alloc)?, *place)),
        }
    }
}

impl Expr {
    /// The negation `not e`.
    pub fn negation(alloc: Global, operand: Expr) -> Result<Expr, Memory>
        ensures { IfOk result (λ made. tree_of made ≡ tree.Not (tree_of operand)) }
    {
        Ok(Expr::Not(Box::new(alloc, operand)?))
    }

    /// The expression `-e`.
    pub fn minus(alloc: Global, operand: Expr) -> Result<Expr, Memory>
        ensures { IfOk result (λ made. tree_of made ≡ tree.Neg (tree_of operand)) }
    {
        Ok(Expr::Neg(Box::new(alloc, operand)?))
    }

    /// Two operands with an operator between them.
    pub fn binary(alloc: Global, op: BinOp, left: Expr, right: Expr) -> Result<Expr, Memory>
        ensures { IfOk result (λ made. tree_of made ≡ tree.Bin op (tree_of left) (tree_of right)) }
    {
        let left = Box::new(alloc, left)?;
        Ok(Expr::Bin(op, left, Box::new(alloc, right)?))
    }

    /// An aggregate over an argument.
    pub fn aggregate(alloc: Global, op: AggOp, argument: Expr) -> Result<Expr, Memory>
        ensures { IfOk result (λ made. tree_of made ≡ tree.Agg op (tree_of argument)) }
    {
        Ok(Expr::Agg(op, Some(Box::new(alloc, argument)?)))
    }

    /// An expression with the same tree, in memory of its own.
    pub fn copy(&self, alloc: Global) -> Result<Expr, Memory>
        ensures { IfOk result (λ made. tree_of made ≡ tree_of self.now) }
    {
        match self {
            Expr::Lit(value) => Ok(Expr::Lit(value.copy(alloc)?)),
            Expr::Col(column) => Ok(Expr::Col(column.copy(alloc)?)),
            Expr::Not(operand) => Expr::negation(alloc, operand.copy(alloc)?),
            Expr::Neg(operand) => Expr::minus(alloc, operand.copy(alloc)?),
            Expr::Bin(op, left, right) => {
                let left = left.copy(alloc)?;
                Expr::binary(alloc, *op, left, right.copy(alloc)?)
            }
            Expr::Agg(op, None) => Ok(Expr::Agg(*op, None)),
            Expr::Agg(op, Some(argument)) => Expr::aggregate(alloc, *op, argument.copy(alloc)?),
        }
    }
}
