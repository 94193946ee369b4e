//! Values, rows, relations and keys. What orders, codes and texts are is said by clauses and
//! worked rows.
ghost use Rattle.std.specs.Prelude.{◌≡◌, ◌<◌};

use rel_base::{
    ColType, Column, Duplicate, Files, Items, Key, Memory, Relation, Row, Rows, Schema, Steps,
    Text, Value,
};
use std::alloc::Global;
use std::marker::Brand;
use std::mem::size_of;
use std::sync::ledger::{Blank, Ledger};

/// A row of one value.
fn row_of(alloc: Global, value: Value) -> Result<Row, Memory> {
    let mut row = Row::new(alloc);
    row.push(value)?;
    Ok(row)
}

/// Rows of one number each.
fn rows_of(alloc: Global, numbers: &[i64]) -> Result<Rows, Memory> {
    let mut rows = Rows::new(alloc);
    for number in numbers {
        if rows.len() == Rows::MOST {
            return Err(Memory);
        }
        let row = row_of(alloc, Value::Int(*number))?;
        rows.push(row)?;
    }
    Ok(rows)
}

#[test]
fn texts_short_and_long_are_copied_and_compared(rt: HostRuntime) -> Result<(), Memory> {
    let alloc = rt.alloc();
    let ascending = [
        "",
        "10",
        "9",
        "librust-aaaaaaaaaaaaaa",
        "librust-aaaaaaaaaaaaaab",
        "é",
    ];
    for i in 1..ascending.len() {
        let first = Text::of(alloc, ascending[i - 1])?;
        let second = Text::of(alloc, ascending[i])?.copy(alloc)?;
        assert!(rt; first < second, "text {i} and the one before it");
    }
    Ok(())
}

/// The row 1, 2, 3, 4, which is one value more than stand in a row itself.
fn row_of_four(alloc: Global) -> Result<Row, Memory> {
    let mut row = Row::new(alloc);
    for number in 1..5 {
        if row.len() < 4 {
            row.push(Value::Int(number))?;
        }
    }
    Ok(row)
}

#[test]
fn a_row_of_four_values_is_copied(rt: HostRuntime) -> Result<(), Memory> {
    let alloc = rt.alloc();
    let row = row_of_four(alloc)?;
    assert_eq!(rt; row.copy(alloc)?, row);
    Ok(())
}

/// The columns `x:int`.
fn columns(alloc: Global) -> Result<Schema, Memory> {
    let name = Text::of(alloc, "x")?;
    let kind = ColType::Int;
    let mut schema = Schema::new(alloc);
    schema.push(Column { name, kind })?;
    Ok(schema)
}

#[test]
fn a_schema_is_copied(rt: HostRuntime) -> Result<(), Memory> {
    let alloc = rt.alloc();
    let schema = columns(alloc)?;
    assert_eq!(rt; schema.copy(alloc)?, schema);
    Ok(())
}

/// The key `public:adhoc:R`.
fn key_of_r(alloc: Global) -> Result<Key, Memory> {
    let user = Text::of(alloc, "public")?;
    let program = Text::of(alloc, "adhoc")?;
    let name = Text::of(alloc, "R")?;
    Ok(Key {
        user,
        program,
        name,
    })
}

#[test]
fn a_key_names_its_file(rt: HostRuntime) -> Result<(), Memory> {
    let alloc = rt.alloc();
    let key = key_of_r(alloc)?.copy(alloc)?;
    assert_eq!(rt; key.shelf_name(alloc)?.as_str(), "public:adhoc:R.csv");
    Ok(())
}

/// The number of rows of a relation without rows that is sorted and copied.
fn len_of_sorted_copy(alloc: Global) -> Result<u32, Memory> {
    let mut relation = Relation::new(Schema::new(alloc), Rows::new(alloc));
    relation.sort(alloc)?;
    Ok(relation.copy(alloc)?.rows().len())
}

#[test]
fn a_relation_is_sorted_and_copied(rt: HostRuntime) -> Result<(), Memory> {
    assert_eq!(rt; len_of_sorted_copy(rt.alloc())?, 0);
    Ok(())
}

#[test]
fn a_file_is_kept_under_its_key(rt: HostRuntime) -> Result<(), Memory> {
    let alloc = rt.alloc();
    let relation = Relation::new(Schema::new(alloc), Rows::new(alloc));
    let mut files = Files::new(alloc);
    files.push((key_of_r(alloc)?, relation))?;
    assert_eq!(rt; files.len(), 1);
    Ok(())
}

#[test]
fn a_list_grows_at_its_end_and_is_sorted_in_place(rt: HostRuntime) -> Result<(), Memory> {
    let alloc = rt.alloc();
    let mut numbers = Items::<u32>::with_capacity(alloc, 3)?;
    for number in [7, 3, 7] {
        if numbers.len() < 3 {
            numbers.push(number)?;
        }
    }
    numbers.sort();
    assert_eq!(rt; numbers.as_slice(), [3, 7, 7].as_slice());
    assert_eq!(rt; numbers.copy(alloc)?, numbers);
    Ok(())
}

fn count_to_two<L: Ledger>(ledger: Blank)
    requires name { ledger.name ≡ L.name }
    requires parts { ledger.parts ≡ L.parts }
    requires some_part { 0 < ledger.parts }
{
    let mut steps = Steps::<L>::start(ledger);
    steps.tick();
    steps.tick();
}

#[test]
fn counted_steps_take_no_bytes(rt: HostRuntime) {
    count_to_two::<Brand>(Blank::new(1));
    assert_eq!(rt; size_of::<Steps<Brand>>(), 0);
}

/// Shared rows of one number each.
fn shared_rows_of(alloc: Global, numbers: &[i64]) -> Result<Rows, Memory> {
    let mut rows = rows_of(alloc, numbers)?;
    rows.freeze(alloc)?;
    Ok(rows)
}

#[test]
fn a_view_has_every_second_row(rt: HostRuntime) -> Result<(), Memory> {
    let alloc = rt.alloc();
    let rows = shared_rows_of(alloc, &[7, 1, 5, 3, 9])?;
    assert_eq!(rt; rows.every_nth(alloc, 2, 1)?.len(), 2);
    Ok(())
}

#[test]
fn rows_are_picked_by_their_places(rt: HostRuntime) -> Result<(), Memory> {
    let alloc = rt.alloc();
    let rows = shared_rows_of(alloc, &[7, 1])?;
    assert!(rt; rows.len() == 2);
    assert_eq!(rt; rows.at_places(alloc, &[1, 0, 1])?.len(), 3);
    Ok(())
}

#[test]
fn a_range_is_cut_out_of_rows(rt: HostRuntime) -> Result<(), Memory> {
    let alloc = rt.alloc();
    let rows = shared_rows_of(alloc, &[7, 1, 5, 3, 9])?;
    assert!(rt; rows.len() == 5);
    assert_eq!(rt; rows.slice(alloc, 1, 4)?, rows_of(alloc, &[1, 5, 3])?);
    Ok(())
}

#[test]
fn shared_rows_are_sorted(rt: HostRuntime) -> Result<(), Memory> {
    let alloc = rt.alloc();
    let mut rows = shared_rows_of(alloc, &[7, 1, 5])?;
    rows.sort(alloc)?;
    assert_eq!(rt; rows, rows_of(alloc, &[1, 5, 7])?);
    Ok(())
}

/// A row that is shared, and behind it one of the list's own.
fn two_rows(alloc: Global) -> Result<Rows, Memory> {
    let mut rows = shared_rows_of(alloc, &[7])?;
    let own = rows_of(alloc, &[1])?;
    if rows.len() == 1 && own.len() == 1 {
        rows.append(alloc, own)?;
    }
    Ok(rows)
}

#[test]
fn a_list_grows_by_rows_of_another(rt: HostRuntime) -> Result<(), Memory> {
    assert_eq!(rt; two_rows(rt.alloc())?.len(), 2);
    Ok(())
}

#[test]
fn a_shared_row_is_popped_of_a_copy(rt: HostRuntime) -> Result<(), Memory> {
    let alloc = rt.alloc();
    let rows = shared_rows_of(alloc, &[7, 1])?;
    let popped = rows.copy(alloc)?.pop(alloc)?;
    assert!(rt; popped.is_some());
    Ok(())
}
