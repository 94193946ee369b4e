//! Words that tell rows: how these compare, and runs of equal ones.
//!
//! All of it is inlined, so that there is code of its own where a caller knows the number of
//! columns.
ghost use Rattle.std.specs.Prelude.{◌≡◌, ◌<◌, IsTrue, IsSorted, map, length};
ghost use Rattle.rel_base.specs.Values.{row_order};
ghost use Rattle.packed_rows.specs.Unpacked.{unpacked_row};
ghost use Rattle.packed_rows.specs.Runs.{AreRising, IsRun, IsBelow, begins};

use crate::columns::PackedColumn;
use std::cmp::Ordering;

/// How the rows of two words compare.
#[inline(always)]
pub fn word_order(columns: &[PackedColumn], word: u64, other: u64) -> Ordering
    ensures { result
        ≡ row_order (unpacked_row columns.now word) (unpacked_row columns.now other) }
{
    if word == other {
        return Ordering::Equal;
    }
    for column in columns {
        let order = column.order(word, *column, other);
        if order.is_ne() {
            return order;
        }
    }
    Ordering::Equal
}

/// Whether the rows of the words stand in ascending order.
#[inline(always)]
pub fn are_in_order(columns: &[PackedColumn], words: &[u64]) -> bool
    ensures { IsTrue result → IsSorted row_order (map (unpacked_row columns.now) words.now) }
{
    let mut count = 1;
    while count < words.len() {
        if word_order(columns, words[count], words[count - 1]).is_lt() {
            return false;
        }
        count += 1;
    }
    true
}

/// Whether the row of each word comes before that of the next.
#[inline(always)]
pub fn are_rising(columns: &[PackedColumn], words: &[u64]) -> bool
    ensures { IsTrue result → AreRising (map (unpacked_row columns.now) words.now) }
{
    let mut count = 1;
    while count < words.len() {
        if !word_order(columns, words[count - 1], words[count]).is_lt() {
            return false;
        }
        count += 1;
    }
    true
}

/// How many words at the front have the row of the first.
#[inline(always)]
pub fn repeats(columns: &[PackedColumn], words: &[u64]) -> usize
    requires { 0 < length words.now }
    ensures { IsRun (map (unpacked_row columns.now) words.now) result }
{
    let first = words[0];
    let mut count = 1;
    while count < words.len() && word_order(columns, first, words[count]).is_eq() {
        count += 1;
    }
    count
}

/// How many words at the front have a row that comes before that of a word.
#[inline(always)]
pub fn words_below(columns: &[PackedColumn], words: &[u64], word: u64) -> usize
    ensures { IsBelow (map (unpacked_row columns.now) words.now) (unpacked_row columns.now word)
        result }
{
    let mut count = 0;
    while count < words.len() && word_order(columns, words[count], word).is_lt() {
        count += 1;
    }
    count
}

/// Whether the first of the words has the row of this one.
#[inline(always)]
pub fn begins_with(columns: &[PackedColumn], words: &[u64], word: u64) -> bool
    ensures { result
        ≡ begins (map (unpacked_row columns.now) words.now) (unpacked_row columns.now word) }
{
    match words {
        [] => false,
        [first, ..] => word_order(columns, word, *first).is_eq(),
    }
}
