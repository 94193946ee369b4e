//! Rows packed in words, where the ranges of their columns allow it: what rows are grouped by
//! stands in the highest bits, so that the words in order are mostly the rows in the order of
//! their keys.
//!
//! How columns are chosen decides about speed alone: a word is taken only where it gives the
//! values of its row back.
ghost use Rattle.std.specs.Prelude.{◌≡◌, ◌<◌, ◌≤◌, ◌^◌, IfOk, OnOk, IfSome, IsPermutation, map, length};
ghost use Rattle.myrial_ast.specs.Combinations.{emitted};
ghost use Rattle.myrial_ast.specs.ScalarTrees.{scalar_tree_of};
ghost use Rattle.packed_rows.specs.Emitted.{all_emitted};
ghost use Rattle.packed_rows.specs.Unpacked.{unpacked_row};

use crate::columns::PackedColumn;
use crate::emits::{Emits, picked};
use crate::spans::ScannedColumn;
use crate::twin_columns::Singles;
use myrial_ast::Scalar;
use rel_base::{Memory, Rows, Value};
use std::alloc::Global;

/// One of these places whose column has the same values.
fn twin_of(columns: &[ScannedColumn], places: &[usize], place: usize) -> Option<usize> {
    let column = columns.get(place)?;
    for other in places {
        match columns.get(*other) {
            Some(known) if known.twin == column.twin => return Some(*other),
            _ => {}
        }
    }
    None
}

/// The places of so many columns: first those of the keys, from left to right, and then the others.
fn keys_first(alloc: Global, keys: &[u32], width: usize) -> Result<Vec<usize>, Memory> {
    let mut places = Vec::with_capacity(alloc, width)?;
    for key in keys {
        places.push(*key as usize)?;
    }
    for place in 0..width {
        if !places.contains(&place) {
            places.push(place)?;
        }
    }
    Ok(places)
}

/// The column at a place in the highest of so many bits that are left, where its values take no
/// more.
fn column_at(scanned: &[ScannedColumn], place: usize, left: u32) -> Option<PackedColumn> {
    scanned.get(place)?.span.column(left)
}

/// These columns in a word, those of the keys first; none where one has other values than ints and
/// booleans, or they take more bits.
pub fn packed_columns(
    alloc: Global,
    scanned: &[ScannedColumn],
    keys: &[u32],
) -> Result<Vec<PackedColumn>, Memory> {
    let places = keys_first(alloc, keys, scanned.len())?;
    let mut columns = Vec::from_elem(alloc, PackedColumn::none(), scanned.len())?;
    let mut left = 64;
    for i in 0..places.len() {
        let place = places[i];
        let column = match twin_of(scanned, &places[..i], place) {
            Some(twin) => columns.get(twin).copied(),
            None => column_at(scanned, place, left),
        };
        let (Some(column), Some(old)) = (column, columns.get_mut(place)) else {
            return Ok(Vec::new(alloc));
        };
        *old = column;
        left = left.min(column.shift);
    }
    Ok(columns)
}

/// The columns of the keys alone in a word, one for each; none where one has other values than
/// ints and booleans, or they take more bits.
pub fn key_columns(
    alloc: Global,
    scanned: &[ScannedColumn],
    keys: &[u32],
) -> Result<Vec<PackedColumn>, Memory> {
    let mut columns = Vec::with_capacity(alloc, keys.len())?;
    let mut left = 64;
    for key in keys {
        let Some(column) = column_at(scanned, *key as usize, left) else {
            return Ok(Vec::new(alloc));
        };
        columns.push(column)?;
        left = left.min(column.shift);
    }
    Ok(columns)
}

/// The bits of these values, each in its column.
#[inline(always)]
fn bits_of_values(columns: &[PackedColumn], values: &[Value]) -> u64
    requires { length columns.now ≤ length values.now }
{
    let mut word = 0;
    for place in 0..columns.len() {
        word |= columns[place].bits_of(&values[place]);
    }
    word
}

/// The word of these values, where it gives them back.
#[inline(always)]
fn word_of_values(columns: &[PackedColumn], values: &[Value]) -> Option<u64>
    ensures { IfSome result (λ word. unpacked_row columns.now word ≡ values.now) }
{
    if values.len() != columns.len() {
        return None;
    }
    let word = bits_of_values(columns, values);
    for place in 0..columns.len() {
        if !columns[place].holds(word, &values[place]) {
            return None;
        }
    }
    Some(word)
}

/// The bits of what a row emits by these picks, each in its column.
#[inline(always)]
fn bits_of_picks(columns: &[PackedColumn], picks: &[Scalar], values: &[Value]) -> Option<u64>
    requires { length columns.now ≤ length picks.now }
{
    let mut word = 0;
    for place in 0..columns.len() {
        word |= columns[place].bits_of(picked(&picks[place], values)?);
    }
    Some(word)
}

/// The word of what a row emits by these picks, where it gives that back.
#[inline(always)]
fn word_of_picks(columns: &[PackedColumn], picks: &[Scalar], values: &[Value]) -> Option<u64>
    requires { length picks.now ≡ length columns.now }
    ensures { IfSome result (λ word. unpacked_row columns.now word
        ≡ emitted (map scalar_tree_of picks.now) values.now) }
{
    let word = bits_of_picks(columns, picks, values)?;
    for place in 0..columns.len() {
        if !columns[place].holds(word, picked(&picks[place], values)?) {
            return None;
        }
    }
    Some(word)
}

/// The words of whole rows, where each gives its row back.
///
/// Inlined, so that there is code of its own for each number of columns that its caller knows.
#[inline(always)]
fn words_of_rows(
    alloc: Global,
    rows: &Rows,
    columns: &[PackedColumn],
) -> Result<Option<Vec<u64>>, Memory>
    ensures words { IfOk result (λ found. IfSome found (λ words. map
        (unpacked_row columns.now) words.items ≡ rows.now)) }
    ensures few { OnOk result (length rows.now < 2 ^ 32) }
{
    let mut words = Vec::with_capacity(alloc, rows.len() as usize)?;
    for row in rows {
        match word_of_values(columns, row) {
            Some(word) => words.push(word)?,
            None => return Ok(None),
        }
    }
    Ok(Some(words))
}

/// The words of what the rows emit by these picks, where each gives that back.
///
/// Inlined, so that there is code of its own for each number of columns that its caller knows.
#[inline(always)]
fn words_of_picks(
    alloc: Global,
    picks: &[Scalar],
    rows: &Rows,
    columns: &[PackedColumn],
) -> Result<Option<Vec<u64>>, Memory>
    ensures words { IfOk result (λ found. IfSome found (λ words. map
        (unpacked_row columns.now) words.items
        ≡ map (emitted (map scalar_tree_of picks.now)) rows.now)) }
    ensures few { OnOk result (length rows.now < 2 ^ 32) }
{
    let mut words = Vec::with_capacity(alloc, rows.len() as usize)?;
    if picks.len() != columns.len() {
        return Ok(None);
    }
    for row in rows {
        match word_of_picks(columns, picks, row) {
            Some(word) => words.push(word)?,
            None => return Ok(None),
        }
    }
    Ok(Some(words))
}

/// The words of what the rows emit, where each gives that back.
///
/// Inlined, so that there is code of its own for each number of columns that its caller knows.
#[inline(always)]
fn words_in(
    alloc: Global,
    emits: Emits<'_>,
    rows: &Rows,
    columns: &[PackedColumn],
) -> Result<Option<Vec<u64>>, Memory>
    ensures words { IfOk result (λ found. IfSome found (λ words. map
        (unpacked_row columns.now) words.items ≡ all_emitted emits.entry rows.now)) }
    ensures few { OnOk result (length rows.now < 2 ^ 32) }
{
    match emits {
        Emits::Whole => words_of_rows(alloc, rows, columns),
        Emits::Picked(picks) => words_of_picks(alloc, picks, rows, columns),
    }
}

/// The words of what the rows emit, where each gives that back. A column that tells what another
/// one tells is packed with it.
pub fn words_of(
    alloc: Global,
    emits: Emits<'_>,
    rows: &Rows,
    columns: &[PackedColumn],
) -> Result<Option<Vec<u64>>, Memory>
    ensures words { IfOk result (λ found. IfSome found (λ words. map
        (unpacked_row columns.now) words.items ≡ all_emitted emits.entry rows.now)) }
    ensures few { OnOk result (length rows.now < 2 ^ 32) }
{
    match emits {
        Emits::Picked(picks) if picks.len() == columns.len() => {
            words_of_singles(alloc, picks, rows, columns)
        }
        _ => words_by_width(alloc, emits, rows, columns),
    }
}

/// The words of what the rows emit by these picks, of which there is one for each column.
fn words_of_singles(
    alloc: Global,
    picks: &[Scalar],
    rows: &Rows,
    columns: &[PackedColumn],
) -> Result<Option<Vec<u64>>, Memory>
    requires { length picks.now ≡ length columns.now }
    ensures words { IfOk result (λ found. IfSome found (λ words. map
        (unpacked_row columns.now) words.items
        ≡ map (emitted (map scalar_tree_of picks.now)) rows.now)) }
    ensures few { OnOk result (length rows.now < 2 ^ 32) }
{
    let singles = Singles::of(alloc, columns, picks)?;
    words_by_width(alloc, Emits::Picked(&singles.picks), rows, &singles.columns)
}

/// The words of what the rows emit, by code of its own for a few columns.
fn words_by_width(
    alloc: Global,
    emits: Emits<'_>,
    rows: &Rows,
    columns: &[PackedColumn],
) -> Result<Option<Vec<u64>>, Memory>
    ensures words { IfOk result (λ found. IfSome found (λ words. map
        (unpacked_row columns.now) words.items ≡ all_emitted emits.entry rows.now)) }
    ensures few { OnOk result (length rows.now < 2 ^ 32) }
{
    match columns {
        [a] => words_in(alloc, emits, rows, &[*a]),
        [a, b] => words_in(alloc, emits, rows, &[*a, *b]),
        [a, b, c] => words_in(alloc, emits, rows, &[*a, *b, *c]),
        [a, b, c, d] => words_in(alloc, emits, rows, &[*a, *b, *c, *d]),
        [a, b, c, d, e] => words_in(alloc, emits, rows, &[*a, *b, *c, *d, *e]),
        _ => words_in(alloc, emits, rows, columns),
    }
}

/// How many words at the front agree in the digits from number `shift` on.
fn group_length(words: &[u64], shift: u32) -> usize
    requires some { 0 < length words.now }
    requires shift { shift < 64 }
    ensures some { 0 < result }
    ensures bound { result ≤ length words.now }
{
    let group = words[0] >> shift;
    let mut count = 1;
    while count < words.len() && words[count] >> shift == group {
        count += 1;
    }
    count
}

/// Sorts words whose digits from number `shift` on ascend already, each group with the same ones
/// by itself.
fn sort_groups(words: &mut [u64], shift: u32)
    requires { shift < 64 }
    ensures { IsPermutation words.old words.new }
{
    let mut done = 0;
    while done < words.len() {
        let end = done + group_length(&words[done..], shift);
        words[done..end].sort_unstable();
        done = end;
    }
}

/// Puts words in ascending order. Where those of lesser digits from number `shift` on stand first
/// already, as where a join lists its rows variable by variable, the words that agree in these
/// digits are sorted by themselves.
fn sort_words(words: &mut [u64], shift: u32)
    requires { shift < 64 }
    ensures { IsPermutation words.old words.new }
{
    if words.is_sorted_by_key(|word| *word >> shift) {
        sort_groups(words, shift);
    } else {
        words.sort_unstable();
    }
}

/// Where the digits of the first column begin that is told by some.
fn first_shift(columns: &[PackedColumn]) -> u32
    ensures { result < 64 }
{
    let mut shift = 0;
    for column in columns {
        if column.mask > 0 && column.shift > shift {
            shift = column.shift;
        }
    }
    shift
}

/// These words in ascending order, by which the order of their first column serves where it is
/// there already.
pub fn in_order(mut words: Vec<u64>, columns: &[PackedColumn]) -> Vec<u64>
    ensures same { IsPermutation words.items result.items }
    ensures len { length result.items ≡ length words.items }
{
    sort_words(&mut words, first_shift(columns));
    words
}

/// The words of what the rows emit, in ascending order, where each gives that back.
pub fn sorted_words(
    alloc: Global,
    emits: Emits<'_>,
    rows: &Rows,
    columns: &[PackedColumn],
) -> Result<Option<Vec<u64>>, Memory>
    ensures same { IfOk result (λ found. IfSome found (λ words. IsPermutation
        (all_emitted emits.entry rows.now) (map (unpacked_row columns.now) words.items))) }
    ensures few { OnOk result (length rows.now < 2 ^ 32) }
{
    match words_of(alloc, emits, rows, columns)? {
        Some(words) => Ok(Some(in_order(words, columns))),
        None => Ok(None),
    }
}
