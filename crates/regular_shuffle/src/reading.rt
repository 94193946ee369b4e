//! Numbers that are read fit their types.
ghost use Rattle.std.specs.Prelude.{◌≡◌, ◌^◌, ◌<◌, true, length, All};
ghost use Rattle.rel_base.specs.Values.{number_of, in_64_bits};
ghost use Rattle.myrial_ast.specs.Groups.{row_fits};

use rel_base::{Rows, Spread, Value};
use row_exchange::Spreads;

/// Reads each value of some rows, so that each number among them is known to fit 64 bits.
pub(crate) fn read_values(parts: &Spreads)
    ensures { All (All (All (λ row. row_fits row ≡ true))) parts.now }
{
    for spread in parts.as_slice() {
        read_spread(spread);
    }
}

/// Reads each value of the rows of all workers.
fn read_spread(spread: &Spread)
    ensures { All (All (λ row. row_fits row ≡ true)) spread.now }
{
    for rows in spread.as_slice() {
        read_rows(rows);
    }
}

/// Reads each value of some rows.
fn read_rows(rows: &Rows)
    ensures { All (λ row. row_fits row ≡ true) rows.now }
{
    for number in 0..rows.len() {
        read_row(rows.get(number));
    }
}

/// Reads each value of a row.
fn read_row(row: &[Value])
    ensures { row_fits row.now ≡ true }
{
    for value in row {
        let _read = number_in(value);
    }
}

/// The number of a value; of another value 0.
fn number_in(value: &Value) -> i64
    ensures { in_64_bits (number_of value.now) ≡ true }
{
    match value {
        Value::Int(number) => *number,
        _ => 0,
    }
}

/// Reads how many rows there are at each worker, so that each number is known to fit 32 bits.
pub(crate) fn read_lengths(spread: &Spread)
    ensures { All (λ rows. length rows < 2 ^ 32) spread.now }
{
    for rows in spread.as_slice() {
        let _read = rows.len();
    }
}
