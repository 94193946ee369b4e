//! Parts that are in order, out of order and empty, as strings and numbers.
use crate::pieces::every_third;
use collector::{collect, sort_parts};
use rel_base::{Memory, Row, Rows, Spread, Text, Value};
use std::alloc::Global;
use std::sync::Wait;
use std::test::Fail;
use std::thread::Threads;

/// A row of a string and a number.
fn row_of(alloc: Global, name: &str, number: i64) -> Result<Row, Memory> {
    let mut row = Row::new(alloc);
    row.push(Value::Str(Text::of(alloc, name)?))?;
    row.push(Value::Int(number))?;
    Ok(row)
}

/// A part of two rows.
fn part_of(alloc: Global, first: (&str, i64), second: (&str, i64)) -> Result<Rows, Memory> {
    let mut rows = Rows::new(alloc);
    rows.push(row_of(alloc, first.0, first.1)?)?;
    rows.push(row_of(alloc, second.0, second.1)?)?;
    Ok(rows)
}

/// Three parts, of which the last is empty and the first out of order.
fn three_parts(alloc: Global) -> Result<Spread, Memory> {
    let mut parts = Spread::new(alloc);
    parts.push(part_of(alloc, ("pear", 1), ("apple", 9))?)?;
    parts.push(part_of(alloc, ("apple", 2), ("quince", 0))?)?;
    parts.push(Rows::new(alloc))?;
    Ok(parts)
}

/// The number of a row.
fn number_of(row: &[Value]) -> Option<i64> {
    match row.last()? {
        Value::Int(number) => Some(*number),
        _ => None,
    }
}

/// The numbers of the rows of all parts, in the order of their rows, range after range.
fn numbers_in_order<R: Threads + Wait + Sync>(
    rt: &R,
    alloc: Global,
    parts: &Spread,
) -> Result<Vec<i64>, Memory> {
    let sorted = sort_parts(rt, alloc, parts)?;
    let mut numbers = Vec::with_capacity(alloc, sorted.len())?;
    for range in &sorted.ranges(alloc)? {
        for row in &range.rows(alloc)? {
            if let Some(number) = number_of(row) {
                numbers.push(number)?;
            }
        }
    }
    Ok(numbers)
}

#[test]
fn parts_are_merged(rt: HostRuntime) -> Result<(), Fail> {
    let parts = three_parts(rt.alloc())?;
    let numbers = numbers_in_order(&rt, rt.alloc(), &parts)?;
    assert_eq!(rt; numbers.as_slice(), [2, 9, 1, 0].as_slice());
    Ok(())
}

/// The numbers of rows, as they stand.
fn numbers_of(alloc: Global, rows: &Rows) -> Result<Vec<i64>, Memory> {
    let mut numbers = Vec::with_capacity(alloc, rows.len() as usize)?;
    for row in rows {
        if let Some(number) = number_of(row) {
            numbers.push(number)?;
        }
    }
    Ok(numbers)
}

#[test]
fn parts_are_collected_in_one_list(rt: HostRuntime) -> Result<(), Fail> {
    let parts = three_parts(rt.alloc())?;
    let rows = collect(rt.alloc(), &parts)?;
    let numbers = numbers_of(rt.alloc(), &rows)?;
    assert_eq!(rt; numbers.as_slice(), [2, 9, 1, 0].as_slice());
    Ok(())
}

#[test]
fn lone_part_is_sorted(rt: HostRuntime) -> Result<(), Fail> {
    let mut parts = Spread::new(rt.alloc());
    parts.push(part_of(rt.alloc(), ("pear", 1), ("apple", 9))?)?;
    let numbers = numbers_in_order(&rt, rt.alloc(), &parts)?;
    assert_eq!(rt; numbers.as_slice(), [9, 1].as_slice());
    Ok(())
}

/// The numbers below 30,000 in three parts, each of which has every third.
fn three_parts_of_numbers(alloc: Global) -> Result<Spread, Memory> {
    let mut parts = Spread::new(alloc);
    parts.push(every_third(alloc, 2, 30_000)?)?;
    parts.push(every_third(alloc, 0, 30_000)?)?;
    parts.push(every_third(alloc, 1, 30_000)?)?;
    Ok(parts)
}

#[test]
fn ranges_follow_one_another(rt: HostRuntime) -> Result<(), Fail> {
    let parts = three_parts_of_numbers(rt.alloc())?;
    let sorted = sort_parts(&rt, rt.alloc(), &parts)?;
    assert!(rt; sorted.ranges(rt.alloc())?.len() > 1);
    let numbers = numbers_in_order(&rt, rt.alloc(), &parts)?;
    assert_eq!(rt; sorted.len(), 30_000);
    assert_eq!(rt; numbers.len(), 30_000);
    for (place, number) in numbers.iter().enumerate() {
        assert_eq!(rt; *number, place as i64);
    }
    Ok(())
}

/// A part of these rows of two numbers.
fn part_of_pairs(alloc: Global, pairs: &[(i64, i64)]) -> Result<Rows, Memory> {
    let mut rows = Rows::new(alloc);
    for (first, second) in pairs {
        let mut row = Row::new(alloc);
        row.push(Value::Int(*first))?;
        row.push(Value::Int(*second))?;
        if rows.len() < 10 {
            rows.push(row)?;
        }
    }
    Ok(rows)
}

/// The second numbers of these rows, in the order of the rows.
fn pairs_in_order<R: Threads + Wait + Sync>(
    rt: &R,
    alloc: Global,
    pairs: &[(i64, i64)],
) -> Result<Vec<i64>, Memory> {
    let mut parts = Spread::new(alloc);
    parts.push(part_of_pairs(alloc, pairs)?)?;
    numbers_in_order(rt, alloc, &parts)
}

#[test]
fn pairs_of_numbers_are_sorted(rt: HostRuntime) -> Result<(), Fail> {
    let near = pairs_in_order(&rt, rt.alloc(), &[(3, 1), (-2, 2), (3, 0), (-2, -7)])?;
    assert_eq!(rt; near.as_slice(), [-7, 2, 0, 1].as_slice());
    let far = pairs_in_order(&rt, rt.alloc(), &[(1 << 40, 4), (0, 1 << 40), (5, 0)])?;
    assert_eq!(rt; far.as_slice(), [1 << 40, 0, 4].as_slice());
    let ends = pairs_in_order(&rt, rt.alloc(), &[(i64::MAX, 1), (i64::MIN, 2), (0, 3)])?;
    assert_eq!(rt; ends.as_slice(), [2, 3, 1].as_slice());
    Ok(())
}
