//! What rows begin with.
ghost use Rattle.std.specs.Prelude.{◌≡◌};
ghost use Rattle.rel_base.specs.Beginnings.{BeginsWith};

use crate::{Value, sort_key};

/// A row behind what it begins with: the rank of its first value's type, 0 where it has none, and
/// the number of an int, the key of a string, or else 0.
///
/// In ascending order the rows stand as by themselves, and most of them compare without a look at
/// the row.
pub type LedRow<'a> = (u8, i64, &'a [Value]);

/// A row behind what it begins with.
pub fn led_row(row: &[Value]) -> LedRow<'_>
    ensures leading { BeginsWith row.now result.0 result.1 }
    ensures row { result.2.now ≡ row.now }
{
    match row.first() {
        None => (0, 0, row),
        Some(Value::Int(first)) => (1, *first, row),
        Some(Value::Str(text)) => (2, sort_key(text.as_str().as_bytes()) as i64, row),
        Some(Value::Bool(_)) => (3, 0, row),
    }
}
