//! Terms, evaluated with ample memory, and rows side by side, which are one row.
use expr_eval::{EvalFault, Overflow, SideBySide, all_hold, emit, eval, holds, plain_hold};
use myrial_ast::{BinOp, Scalar, Scalars};
use rel_base::{Memory, Row, Rows, Text, Value};
use std::alloc::Global;
use std::process::Abort;

/// A row of one value.
fn row_of(alloc: Global, value: Value) -> Result<Row, Memory> {
    let mut row = Row::new(alloc);
    row.push(value)?;
    Ok(row)
}

/// The second column.
fn second(alloc: Global) -> Result<Scalars, Memory> {
    let mut emits = Scalars::new(alloc);
    emits.push(Scalar::At(1))?;
    Ok(emits)
}

/// The row that is emitted of the second column where this one follows a row of one column.
fn emitted_behind(alloc: Global, right: &[Value]) -> Result<Rows, EvalFault> {
    let left = row_of(alloc, Value::Int(7))?;
    let rows = [left.as_slice(), right];
    let mut made = Rows::new(alloc);
    emit(
        alloc,
        &second(alloc)?,
        &SideBySide { rows: &rows },
        &mut made,
    )?;
    Ok(made)
}

#[test]
fn emits_of_rows_side_by_side(rt: HostRuntime) -> Result<(), Memory> {
    let text = Value::Str(Text::of(rt.alloc(), "seven")?);
    let right = row_of(rt.alloc(), text)?;
    let made = emitted_behind(rt.alloc(), right.as_slice());
    assert!(rt; made.is_ok_and(|rows| rows.len() == 1 && rows.get(0) == right.as_slice()));
    Ok(())
}

/// The first column and 1, as the one term of a list.
fn one_more(alloc: Global) -> Result<Scalars, Memory> {
    let one = Scalar::Lit(Value::Int(1));
    let mut terms = Scalars::new(alloc);
    terms.push(Scalar::binary(alloc, BinOp::Add, Scalar::At(0), one)?)?;
    Ok(terms)
}

/// Sees that each term overflows on a row, and that all of them do as tests.
fn compare_overflows(rt: &impl Abort, alloc: Global, terms: &Scalars, row: &[Value]) {
    for term in terms.as_slice() {
        assert_eq!(rt; eval(alloc, term, &row).err(), Some(EvalFault::Overflow));
        assert_eq!(rt; holds(term, &row), Err(Overflow));
    }
    assert_eq!(rt; all_hold(terms.as_slice(), &row), Err(Overflow));
    assert_eq!(rt; plain_hold(&[], &row), true);
}

#[test]
fn sums_past_64_bits_overflow(rt: HostRuntime) -> Result<(), Memory> {
    let terms = one_more(rt.alloc())?;
    let row = row_of(rt.alloc(), Value::Int(i64::MAX))?;
    compare_overflows(&rt, rt.alloc(), &terms, row.as_slice());
    Ok(())
}
