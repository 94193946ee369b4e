//! Runs: the rows with one key, where rows stand in the order of their keys.
ghost use Rattle.std.specs.Prelude.{◌<◌, IsTrue, IfSome, IsSorted, map, length};
ghost use Rattle.rel_base.specs.Values.{row_order};
ghost use Rattle.packed_rows.specs.Unpacked.{unpacked_row};
ghost use Rattle.packed_rows.specs.Runs.{IsRun};
ghost use Rattle.aggregate_ops.specs.Columns.{key_at};
ghost use Rattle.aggregate_ops.specs.inner.Reading.{rows_of};

use crate::keys::order_between;
use crate::rows_of_groups::GroupedRows;
use packed_rows::{PackedColumn, word_runs};

/// How many rows at the front have the key of the first.
pub fn run_length(places: &[u32], rows: GroupedRows<'_>) -> usize
    requires { 0 < length (rows_of rows) }
    ensures { IsRun (map (key_at places.now) (rows_of rows.entry)) result }
{
    if let GroupedRows::Packed(words, columns) = rows {
        if let Some(count) = word_run_length(columns, places, words) {
            return count;
        }
    }
    let mut count = 1;
    while count < rows.len() && order_between(places, rows, 0, count).is_eq() {
        count += 1;
    }
    count
}

/// Whether the rows stand in the order of their keys.
pub fn are_in_order(places: &[u32], rows: GroupedRows<'_>) -> bool
    ensures { IsTrue result → IsSorted row_order (map (key_at places.now) (rows_of rows.entry)) }
{
    if let GroupedRows::Packed(words, columns) = rows {
        if let Some(answer) = are_words_in_order(columns, places, words) {
            return answer;
        }
    }
    let mut count = 1;
    while count < rows.len() {
        if order_between(places, rows, count, count - 1).is_lt() {
            return false;
        }
        count += 1;
    }
    true
}

/// How many words at the front have the key of the first, where the key has one or two columns.
fn word_run_length(columns: &[PackedColumn], places: &[u32], words: &[u64]) -> Option<usize>
    requires { 0 < length words.now }
    ensures { IfSome result (λ count. IsRun
        (map (key_at places.now) (map (unpacked_row columns.now) words.now)) count) }
{
    match places {
        [a] => {
            let a = *columns.get(*a as usize)?;
            Some(word_runs::repeats(&[a], words))
        }
        [a, b] => {
            let a = *columns.get(*a as usize)?;
            let b = *columns.get(*b as usize)?;
            Some(word_runs::repeats(&[a, b], words))
        }
        _ => None,
    }
}

/// Whether the words stand in the order of their keys, where the key has one or two columns.
fn are_words_in_order(columns: &[PackedColumn], places: &[u32], words: &[u64]) -> Option<bool>
    ensures { IfSome result (λ answer. IsTrue answer → IsSorted row_order
        (map (key_at places.now) (map (unpacked_row columns.now) words.now))) }
{
    match places {
        [a] => {
            let a = *columns.get(*a as usize)?;
            Some(word_runs::are_in_order(&[a], words))
        }
        [a, b] => {
            let a = *columns.get(*a as usize)?;
            let b = *columns.get(*b as usize)?;
            Some(word_runs::are_in_order(&[a, b], words))
        }
        _ => None,
    }
}
