//! Some of the vectors of codes, hashes and cells. `hash_partition` has all of them as worked rows.
use hash_partition::{cell_of, coord, home_of_key, key_code};
use rel_base::{Memory, Places, Row, Text, Value};
use share_chooser::Shares;

#[test]
fn values_have_their_coordinates(rt: HostRuntime) -> Result<(), Memory> {
    let empty = Value::Str(Text::of(rt.alloc(), "")?);
    assert_eq!(rt; coord(0, 0, empty.code(), 2), 1);
    assert_eq!(rt; coord(0, 0, Value::Int(-1).code(), 2), 0);
    assert_eq!(rt; coord(u64::MAX, 7, 1, 64), 47);
    Ok(())
}

#[test]
fn keys_have_their_homes(rt: HostRuntime) -> Result<(), Memory> {
    let mut row = Row::new(rt.alloc());
    row.push(Value::Int(3))?;
    let row = row.as_slice();
    let mut columns = Places::new(rt.alloc());
    assert_eq!(rt; home_of_key(0, row, &columns, 2), 0);
    columns.push(0)?;
    assert_eq!(rt; key_code(row, &columns), 4);
    assert_eq!(rt; home_of_key(0, row, &columns, 2), 0);
    Ok(())
}

#[test]
fn the_last_of_six_cells_is_number_5(rt: HostRuntime) {
    let shares = Shares {
        count: 3,
        p: [1, 2, 3, 1, 1, 1, 1, 1],
    };
    assert_eq!(rt; cell_of(&shares, &[0, 1, 2, 0, 0, 0, 0, 0]), 5);
}
