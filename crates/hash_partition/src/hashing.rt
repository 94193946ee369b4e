//! The hashes of values and of keys.
ghost use Rattle.std.specs.Prelude.{◌≡◌, ◌<◌, ◌≤◌, length, All};
ghost use Rattle.hash_partition.specs.Hashing.{coordinate_of, key_of, key_code_of, home_of};
ghost use Rattle.rel_base.specs.Codes.{modulus};

use crate::Dimension;
use rel_base::{Places, Value, mixed_with};

/// The coordinate of a value with this code, in a dimension that is spread over so many parts.
///
/// Dimensions are counted from 0, in the order of the join variables. `seed` is the hash seed of
/// the run.
pub fn coord(seed: u64, dim: u32, code: u64, share: u32) -> u32
    requires code { code < modulus }
    requires share { 1 ≤ share }
    ensures value { result ≡ coordinate_of seed dim code share }
    ensures range { result < share }
{
    Dimension::new(seed, dim, share).coordinate(code)
}

/// The code of the key that a row has in these columns, which is 0 for no columns.
pub fn key_code(row: &[Value], columns: &Places) -> u64
    requires columns { All (λ column. column < length row.now) columns.now }
    ensures value { result ≡ key_code_of (key_of row.now columns.now) }
    ensures range { result < modulus }
{
    let mut mixed = 0;
    for column in columns.as_slice() {
        mixed = mixed_with(mixed, row[*column as usize].code());
    }
    mixed % Value::CODES
}

/// The worker at which the rows with one key meet: the key that a row has in these columns, over
/// so many workers.
///
/// A key of no columns has its home at worker 0.
pub fn home_of_key(seed: u64, row: &[Value], columns: &Places, workers: u32) -> u32
    requires columns { All (λ column. column < length row.now) columns.now }
    requires workers { 1 ≤ workers }
    ensures value { result ≡ home_of seed (key_of row.now columns.now) workers }
    ensures range { result < workers }
{
    Dimension::new(seed, 0, workers).part_of_key(row, columns)
}
