//! Two lists of rows that are packed in words, and those of the one that the other doesn't have.
ghost use Rattle.std.specs.Prelude.{◌≡◌, ◌-◌, ◌<◌, ◌^◌, ◌++◌, ◌∷◌, [], if◌then◌else◌, map, length, OnOk, IfOk, IfSome, IsTrue, IsSorted, ⊤};
ghost use Rattle.rel_base.specs.Bags.{SameBag};
ghost use Rattle.rel_base.specs.Values.{row_order};
ghost use Rattle.myrial_ast.specs.Bags.{difference};
ghost use Rattle.packed_rows.specs.Unpacked.{unpacked_row};

use crate::columns::PackedColumn;
use crate::emits::Emits;
use crate::packing::{in_order, packed_columns, words_of};
use crate::spans::{ScannedColumn, guessed_columns, scanned_columns};
use crate::word_runs::{are_in_order, begins_with, repeats, words_below};
use rel_base::{MOST_COLUMNS, Memory, RowSource, Rows, Value};
use std::alloc::Global;
use std::marker::Model;

/// A word, as the row that it tells.
#[derive(Drop)]
pub struct WordRow<'a> {
    columns: &'a [PackedColumn],
    word: u64,
}

impl<'a> Model for WordRow<'a> {
    ghost use Rattle.std.specs.Prelude.{List, ◌^◌, ◌<◌, length};
    ghost use Rattle.rel_base.specs.declared.values.Value.{Value as Datum};
    ghost use Rattle.packed_rows.specs.Unpacked.{unpacked_row};

    ghost Value = { List Datum };

    ghost view = { λ w. unpacked_row w.columns.now w.word };

    ghost invariant = { λ w. length w.columns.now < 2 ^ 32 };
}

impl<'a> WordRow<'a> {
    /// The row that a word tells in these columns.
    #[inline(always)]
    pub fn of(columns: &'a [PackedColumn], word: u64) -> WordRow<'a>
        requires { length columns.now < 2 ^ 32 }
        ensures { result ≡ unpacked_row columns.entry.now word }
    {
        WordRow { columns, word }
    }
}

impl<'a> RowSource for WordRow<'a> {
    type Fault = Memory;

    ghost values = { λ row. row };

    ghost is_made = { λ _. ⊤ };

    ghost is_fault = { λ _ _. ⊤ };

    #[inline(always)]
    fn width(&self) -> u32 {
        self.columns.len() as u32
    }

    #[inline(always)]
    fn put_values(&self, into: &mut Vec<Value>) -> Result<(), Memory> {
        for column in self.columns {
            into.push(column.value(self.word))?;
        }
        Ok(())
    }

    fn refused(&self) -> Memory {
        Memory
    }
}

/// Adds the row of a word, unless it was found.
#[inline(always)]
fn put_unless(
    alloc: Global,
    found: bool,
    columns: &[PackedColumn],
    word: u64,
    into: &mut Rows,
) -> Result<(), Memory>
    requires columns { length columns.now < 2 ^ 32 }
    requires room { length into.old < 2 ^ 32 - 1 }
    ensures { OnOk result (into.new
        ≡ into.old ++ (if found then [] else unpacked_row columns.now word ∷ [])) }
{
    if found {
        return Ok(());
    }
    into.push_made(alloc, &WordRow::of(columns, word))
}

/// Each row of the words that the others don't have, once; both stand in ascending order.
///
/// Inlined, so that there is code of its own for each number of columns that its caller knows.
#[inline(always)]
fn without(
    alloc: Global,
    columns: &[PackedColumn],
    words: &[u64],
    others: &[u64],
) -> Result<Rows, Memory>
    requires words { IsSorted row_order (map (unpacked_row columns.now) words.now) }
    requires others { IsSorted row_order (map (unpacked_row columns.now) others.now) }
    requires columns { length columns.now < 2 ^ 32 }
    requires few { length words.now < 2 ^ 32 }
    ensures { IfOk result (λ made. made ≡ difference (map (unpacked_row columns.now) words.now)
        (map (unpacked_row columns.now) others.now)) }
{
    let mut made = Rows::new(alloc);
    let mut done = 0;
    let mut passed = 0;
    while done < words.len() {
        let left = &words[done..];
        let first = left[0];
        passed += words_below(columns, &others[passed..], first);
        let found = begins_with(columns, &others[passed..], first);
        put_unless(alloc, found, columns, first, &mut made)?;
        done += repeats(columns, left);
    }
    made.freeze(alloc)?;
    Ok(made)
}

/// Whether the rows of the words stand in ascending order, by code of its own for a few columns.
fn stand_in_order(columns: &[PackedColumn], words: &[u64]) -> bool
    ensures { IsTrue result → IsSorted row_order (map (unpacked_row columns.now) words.now) }
{
    match columns {
        [a] => are_in_order(&[*a], words),
        [a, b] => are_in_order(&[*a, *b], words),
        [a, b, c] => are_in_order(&[*a, *b, *c], words),
        _ => are_in_order(columns, words),
    }
}

/// Two lists of rows in ascending order that are packed in words, by the same columns. Contracts
/// see the rows of both.
pub struct PackedOperands {
    columns: Vec<PackedColumn>,
    words: Vec<u64>,
    others: Vec<u64>,
}

// Written out, since a derived drop is proved anew at each place where a value is let go.
impl Drop for PackedOperands {
    fn drop(self) {
        let PackedOperands {
            columns: _,
            words: _,
            others: _,
        } = self;
    }
}

impl Model for PackedOperands {
    ghost use Rattle.std.specs.Prelude.{List, ◌<◌, ◌^◌, map, length, IsSorted};
    ghost use Rattle.rel_base.specs.declared.values.Value.{Value as Datum};
    ghost use Rattle.rel_base.specs.Values.{row_order};
    ghost use Rattle.packed_rows.specs.Unpacked.{unpacked_row};

    ghost Value = { List (List Datum) × List (List Datum) };

    ghost view = { λ p. (
      map (unpacked_row p.columns.items) p.words.items,
      map (unpacked_row p.columns.items) p.others.items,
    ) };

    ghost invariant = { λ p. (length p.columns.items < 2 ^ 32) × (length p.words.items < 2 ^ 32)
        × IsSorted row_order (map (unpacked_row p.columns.items) p.words.items)
        × IsSorted row_order (map (unpacked_row p.columns.items) p.others.items) };
}

impl PackedOperands {
    /// The rows of both lists, in ascending order; none where they can't be packed.
    pub fn of(alloc: Global, a: &Rows, b: &Rows) -> Result<Option<PackedOperands>, Memory>
        ensures { IfOk result (λ found. IfSome found
            (λ made. SameBag a.now made.0 × SameBag b.now made.1)) }
    {
        let guessed = guessed_columns(alloc, Emits::Whole, a, b)?;
        if let Some(packed) = PackedOperands::packed_by(alloc, a, b, &guessed)? {
            return Ok(Some(packed));
        }
        let scanned = scanned_columns(alloc, Emits::Whole, a, b)?;
        PackedOperands::packed_by(alloc, a, b, &scanned)
    }

    /// The rows of both lists, in ascending order; none where a row doesn't fit these columns, or
    /// the words in order are not the rows in order.
    fn packed_by(
        alloc: Global,
        a: &Rows,
        b: &Rows,
        scanned: &[ScannedColumn],
    ) -> Result<Option<PackedOperands>, Memory>
        ensures { IfOk result (λ found. IfSome found
            (λ made. SameBag a.now made.0 × SameBag b.now made.1)) }
    {
        let columns = packed_columns(alloc, scanned, &[])?;
        if columns.len() > MOST_COLUMNS as usize {
            return Ok(None);
        }
        let Some(words) = words_of(alloc, Emits::Whole, a, &columns)? else {
            return Ok(None);
        };
        let Some(others) = words_of(alloc, Emits::Whole, b, &columns)? else {
            return Ok(None);
        };
        let words = in_order(words, &columns);
        let others = in_order(others, &columns);
        if !stand_in_order(&columns, &words) || !stand_in_order(&columns, &others) {
            return Ok(None);
        }
        Ok(Some(PackedOperands {
            columns,
            words,
            others,
        }))
    }

    /// Each row of the first list that the second doesn't have, once, in ascending order.
    pub fn difference(&self, alloc: Global) -> Result<Rows, Memory>
        ensures { IfOk result (λ made. made ≡ difference self.now.0 self.now.1) }
    {
        let (words, others) = (self.words.as_slice(), self.others.as_slice());
        match self.columns.as_slice() {
            [a] => without(alloc, &[*a], words, others),
            [a, b] => without(alloc, &[*a, *b], words, others),
            [a, b, c] => without(alloc, &[*a, *b, *c], words, others),
            columns => without(alloc, columns, words, others),
        }
    }
}
