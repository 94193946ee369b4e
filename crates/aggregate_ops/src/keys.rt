//! Rows in the order of their keys.
ghost use Rattle.std.specs.Prelude.{◌≡◌, ◌<◌, [], map, length, slice_index_or, All, IfOk, IsPermutation, IsSorted};
ghost use Rattle.rel_base.specs.Values.{value_order, row_order};
ghost use Rattle.myrial_ast.specs.Scalars.{value_at};
ghost use Rattle.packed_rows.specs.Unpacked.{unpacked_row};
ghost use Rattle.aggregate_ops.specs.Columns.{rows_in, key_at};
ghost use Rattle.aggregate_ops.specs.inner.Reading.{row_of, rows_of};

use crate::key_runs::are_in_order;
use crate::rows_of_groups::{GroupedRow, GroupedRows};
use packed_rows::{PackedColumn, order_of};
use rel_base::{Memory, Rows, Value};
use std::alloc::Global;
use std::cmp::Ordering;

/// How two rows compare, each by its values at some places.
pub fn order_at(
    row: &GroupedRow<'_>,
    places: &[u32],
    other: &GroupedRow<'_>,
    others: &[u32],
) -> Ordering
    ensures { result ≡ row_order (key_at places.now (row_of row.now))
        (key_at others.now (row_of other.now)) }
{
    let [place, places @ ..] = places else {
        return if others.is_empty() {
            Ordering::Equal
        } else {
            Ordering::Less
        };
    };
    let [other_place, others @ ..] = others else {
        return Ordering::Greater;
    };
    let order = order_in(row, *place as usize, other, *other_place as usize);
    if order.is_ne() {
        return order;
    }
    order_at(row, places, other, others)
}

/// How the values of two rows, each at a place, compare.
#[inline(always)]
pub fn order_in(
    row: &GroupedRow<'_>,
    place: usize,
    other: &GroupedRow<'_>,
    other_place: usize,
) -> Ordering
    ensures { result ≡ value_order (value_at (row_of row.now) place)
        (value_at (row_of other.now) other_place) }
{
    match (row, other) {
        (GroupedRow::Packed(word, columns), GroupedRow::Packed(other, others))
            if place < columns.len() && other_place < others.len() => {
            columns[place].order(*word, others[other_place], *other)
        }
        (GroupedRow::Lent(row), GroupedRow::Lent(other))
            if place < row.len() && other_place < other.len() => {
            order_of(&row[place], &other[other_place])
        }
        _ => order_of_read(row, place, other, other_place),
    }
}

/// The same by the values that are read, which any two rows have.
fn order_of_read(
    row: &GroupedRow<'_>,
    place: usize,
    other: &GroupedRow<'_>,
    other_place: usize,
) -> Ordering
    ensures { result ≡ value_order (value_at (row_of row.now) place)
        (value_at (row_of other.now) other_place) }
{
    let value = row.read(place);
    order_of(value.value(), other.read(other_place).value())
}

/// How two of the rows compare, each by its values at the same places.
pub fn order_between(places: &[u32], rows: GroupedRows<'_>, i: usize, j: usize) -> Ordering
    requires one { i < length (rows_of rows) }
    requires other { j < length (rows_of rows) }
    ensures { result ≡ row_order (key_at places.now (slice_index_or (rows_of rows.entry) i []))
        (key_at places.now (slice_index_or (rows_of rows.entry) j [])) }
{
    match rows {
        GroupedRows::Packed(words, columns) => {
            order_of_words(columns, places, words[i], words[j])
        }
        GroupedRows::Lent(rows) => order_at(
            &GroupedRow::Lent(rows[i]),
            places,
            &GroupedRow::Lent(rows[j]),
            places,
        ),
    }
}

/// How the rows of two words compare, each by its values at the same places.
fn order_of_words(columns: &[PackedColumn], places: &[u32], word: u64, other: u64) -> Ordering
    ensures { result ≡ row_order (key_at places.now (unpacked_row columns.now word))
        (key_at places.now (unpacked_row columns.now other)) }
{
    if word == other {
        return Ordering::Equal;
    }
    let [place, places @ ..] = places else {
        return Ordering::Equal;
    };
    let order = order_in_words(columns, *place, word, other);
    if order.is_ne() {
        return order;
    }
    order_of_words(columns, places, word, other)
}

/// How the values of the rows of two words at a place compare.
fn order_in_words(columns: &[PackedColumn], place: u32, word: u64, other: u64) -> Ordering
    ensures { result ≡ value_order (value_at (unpacked_row columns.now word) place)
        (value_at (unpacked_row columns.now other) place) }
{
    let place = place as usize;
    if place >= columns.len() {
        return Ordering::Equal;
    }
    columns[place].order(word, columns[place], other)
}

/// A row with the places by which it is compared.
#[derive(Drop)]
pub struct KeyedRow<'a> {
    row: &'a [Value],
    places: &'a [u32],
}

impl PartialEq for KeyedRow<'_> {
    ghost use Rattle.std.specs.Cmp.{eq_by_cmp_equiv, partial_equiv_from_equiv};
    ghost use Rattle.std.specs.Ordering.{eq_by_cmp};
    ghost use Rattle.aggregate_ops.specs.Keyed.{keyed_order, keyed_order_total};

    ghost eq = { eq_by_cmp keyed_order };

    ghost laws = { partial_equiv_from_equiv (eq_by_cmp_equiv keyed_order_total) };

    fn eq(&self, other: &Self) -> bool {
        self.cmp(other).is_eq()
    }
}

impl Eq for KeyedRow<'_> {
    ghost use Rattle.std.specs.Cmp.{eq_by_cmp_equiv};
    ghost use Rattle.aggregate_ops.specs.Keyed.{keyed_order_total};

    ghost laws = { eq_by_cmp_equiv keyed_order_total };
}

impl PartialOrd for KeyedRow<'_> {
    ghost use Rattle.std.specs.Cmp.{partial_order_from_total};
    ghost use Rattle.std.specs.Ordering.{as_partial_cmp};
    ghost use Rattle.aggregate_ops.specs.Keyed.{keyed_order, keyed_order_total};

    ghost partial_cmp = { as_partial_cmp keyed_order };

    ghost laws = { partial_order_from_total keyed_order_total };

    fn partial_cmp(&self, other: &Self) -> Option<Ordering> {
        Some(self.cmp(other))
    }
}

impl Ord for KeyedRow<'_> {
    ghost use Rattle.std.specs.Prelude.{refl};
    ghost use Rattle.aggregate_ops.specs.Keyed.{keyed_order, keyed_order_total};

    ghost cmp = { keyed_order };

    ghost total = { keyed_order_total };

    ghost matches_partial_cmp = { λ r s. refl };

    ghost matches_eq = { λ r s. refl };

    fn cmp(&self, other: &Self) -> Ordering {
        let row = GroupedRow::Lent(self.row);
        order_at(
            &row,
            self.places,
            &GroupedRow::Lent(other.row),
            other.places,
        )
    }
}

/// Each row with the places.
fn keyed_rows<'a>(
    alloc: Global,
    rows: &'a Rows,
    places: &'a [u32],
) -> Result<Vec<KeyedRow<'a>>, Memory>
    ensures rows { IfOk result (λ made. map (λ e. e.row.now) made.items ≡ rows.entry.now) }
    ensures places { IfOk result (λ made. All (λ e. e.places.now ≡ places.entry.now) made.items) }
{
    let mut keyed = Vec::with_capacity(alloc, rows.len() as usize)?;
    for row in rows {
        keyed.push(KeyedRow { row, places })?;
    }
    Ok(keyed)
}

/// The rows without the places.
fn bare_rows<'a>(alloc: Global, keyed: &[KeyedRow<'a>]) -> Result<Vec<&'a [Value]>, Memory>
    ensures { IfOk result (λ made. rows_in made.items ≡ map (λ e. e.row.now) keyed.entry.now) }
{
    let mut rows = Vec::with_capacity(alloc, keyed.len())?;
    for item in keyed {
        rows.push(item.row)?;
    }
    Ok(rows)
}

/// The rows in the order of their values at these places, by a sort of the rows.
fn rows_by_row<'a>(
    alloc: Global,
    rows: &'a Rows,
    places: &'a [u32],
) -> Result<Vec<&'a [Value]>, Memory>
    ensures same { IfOk result (λ made. IsPermutation rows.entry.now (rows_in made.items)) }
    ensures ascending { IfOk result (λ made. IsSorted row_order
        (map (key_at places.entry.now) (rows_in made.items))) }
{
    let mut keyed = keyed_rows(alloc, rows, places)?;
    keyed.sort_unstable();
    bare_rows(alloc, &keyed)
}

/// The bits of a row's values at these places, each in its column.
fn word_at(columns: &[PackedColumn], places: &[u32], values: &[Value]) -> u64 {
    let mut word = 0;
    for (column, place) in columns.iter().zip(places) {
        if let Some(value) = values.get(*place as usize) {
            word |= column.bits_of(value);
        }
    }
    word
}

/// Each row behind the bits of its values at these places.
fn rows_with_words<'a>(
    alloc: Global,
    rows: &'a Rows,
    places: &[u32],
    columns: &[PackedColumn],
) -> Result<Vec<(u64, &'a [Value])>, Memory>
    ensures { IfOk result (λ made. map (λ e. e.1.now) made.items ≡ rows.entry.now) }
{
    let mut worded = Vec::with_capacity(alloc, rows.len() as usize)?;
    for row in rows {
        worded.push((word_at(columns, places, row), row))?;
    }
    Ok(worded)
}

/// The rows without the words.
fn without_words<'a>(
    alloc: Global,
    worded: &[(u64, &'a [Value])],
) -> Result<Vec<&'a [Value]>, Memory>
    ensures { IfOk result (λ made. rows_in made.items ≡ map (λ e. e.1.now) worded.entry.now) }
{
    let mut rows = Vec::with_capacity(alloc, worded.len())?;
    for (_, row) in worded {
        rows.push(*row)?;
    }
    Ok(rows)
}

/// The rows in the order of the bits of their values at these places, which mostly is that of the
/// values.
fn rows_by_word<'a>(
    alloc: Global,
    rows: &'a Rows,
    places: &[u32],
    columns: &[PackedColumn],
) -> Result<Vec<&'a [Value]>, Memory>
    ensures { IfOk result (λ made. IsPermutation rows.entry.now (rows_in made.items)) }
{
    let mut worded = rows_with_words(alloc, rows, places, columns)?;
    worded.sort_unstable_by_key(|item| item.0);
    without_words(alloc, &worded)
}

/// The rows in the order of their values at these places. None is copied.
///
/// Where the values fit these columns, of which there is one for each place, words are sorted in
/// the place of rows.
pub fn rows_by_key<'a>(
    alloc: Global,
    rows: &'a Rows,
    places: &'a [u32],
    columns: &[PackedColumn],
) -> Result<Vec<&'a [Value]>, Memory>
    ensures same { IfOk result (λ made. IsPermutation rows.entry.now (rows_in made.items)) }
    ensures ascending { IfOk result (λ made. IsSorted row_order
        (map (key_at places.entry.now) (rows_in made.items))) }
{
    if !columns.is_empty() {
        let made = rows_by_word(alloc, rows, places, columns)?;
        if are_in_order(places, GroupedRows::lent(&made)) {
            return Ok(made);
        }
    }
    rows_by_row(alloc, rows, places)
}
