//! Copies of an expression and of a statement.
use myrial_ast::{AggOp, BinOp, ColRef, Expr, Operand, RelExpr, Stmt};
use rel_base::{Memory, Text};
use std::alloc::Global;

/// `not -$0`
fn negated(alloc: Global) -> Result<Expr, Memory> {
    let minus = Expr::minus(alloc, Expr::Col(ColRef::ByPlace(0)))?;
    Expr::negation(alloc, minus)
}

/// `sum(T.y) < count(*)`
fn compared(alloc: Global) -> Result<Expr, Memory> {
    let column = ColRef::OfName(Text::of(alloc, "T")?, Text::of(alloc, "y")?);
    let sum = Expr::aggregate(alloc, AggOp::Sum, Expr::Col(column))?;
    Expr::binary(alloc, BinOp::Lt, sum, Expr::Agg(AggOp::CountAll, None))
}

/// `not -$0 and sum(T.y) < count(*)`
fn both(alloc: Global) -> Result<Expr, Memory> {
    let left = negated(alloc)?;
    Expr::binary(alloc, BinOp::And, left, compared(alloc)?)
}

/// A copy of it.
fn copy_of_both(alloc: Global) -> Result<Expr, Memory> {
    both(alloc)?.copy(alloc)
}

fn is_and(expression: &Expr) -> bool {
    matches!(expression, Expr::Bin(BinOp::And, _, _))
}

#[test]
fn an_expression_is_copied(rt: HostRuntime) -> Result<(), Memory> {
    let copy = copy_of_both(rt.alloc())?;
    assert!(rt; is_and(&copy));
    Ok(())
}

/// `A = B;`
fn assignment(alloc: Global) -> Result<Stmt, Memory> {
    let source = Operand::Named(Text::of(alloc, "B")?);
    Ok(Stmt::Assign(Text::of(alloc, "A")?, RelExpr::Copy(source)))
}

/// A copy of it.
fn copy_of_assignment(alloc: Global) -> Result<Stmt, Memory> {
    assignment(alloc)?.copy(alloc)
}

fn is_assignment(statement: &Stmt) -> bool {
    matches!(statement, Stmt::Assign(_, _))
}

#[test]
fn a_statement_is_copied(rt: HostRuntime) -> Result<(), Memory> {
    let copy = copy_of_assignment(rt.alloc())?;
    assert!(rt; is_assignment(&copy));
    Ok(())
}
