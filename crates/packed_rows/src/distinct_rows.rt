//! Rows that are packed in words, each once.
ghost use Rattle.std.specs.Prelude.{◌≡◌, ◌<◌, ◌^◌, map, length, IsTrue, IfOk, IfSome};
ghost use Rattle.rel_base.specs.Bags.{SameBag};
ghost use Rattle.myrial_ast.specs.Bags.{distinct};
ghost use Rattle.packed_rows.specs.Unpacked.{unpacked_row};
ghost use Rattle.packed_rows.specs.Runs.{AreRising};

use crate::columns::PackedColumn;
use crate::emits::Emits;
use crate::packed_bags::WordRow;
use crate::packing::{in_order, packed_columns, words_of};
use crate::spans::{ScannedColumn, guessed_columns, scanned_columns};
use crate::word_runs::are_rising;
use rel_base::{MOST_COLUMNS, Memory, Rows};
use std::alloc::Global;
use std::marker::Model;

/// Rows that are packed in words, which contracts see as the list of the rows.
pub struct PackedRows {
    columns: Vec<PackedColumn>,
    words: Vec<u64>,
}

// Written out, since a derived drop is proved anew at each place where a value is let go.
impl Drop for PackedRows {
    fn drop(self) {
        let PackedRows {
            columns: _,
            words: _,
        } = self;
    }
}

impl Model for PackedRows {
    ghost use Rattle.std.specs.Prelude.{List, ◌<◌, ◌^◌, map, length};
    ghost use Rattle.rel_base.specs.declared.values.Value.{Value as Datum};
    ghost use Rattle.packed_rows.specs.Unpacked.{unpacked_row};

    ghost Value = { List (List Datum) };

    ghost view = { λ p. map (unpacked_row p.columns.items) p.words.items };

    ghost invariant = { λ p. (length p.columns.items < 2 ^ 32) × (length p.words.items < 2 ^ 32) };
}

impl PackedRows {
    /// Each of some rows once, in ascending order; none where they can't be packed.
    pub fn each_once(alloc: Global, rows: &Rows) -> Result<Option<PackedRows>, Memory>
        ensures { IfOk result (λ found. IfSome found (SameBag (distinct rows.now))) }
    {
        let none = Rows::new(alloc);
        let guessed = guessed_columns(alloc, Emits::Whole, rows, &none)?;
        if let Some(packed) = PackedRows::each_once_by(alloc, rows, &guessed)? {
            return Ok(Some(packed));
        }
        let scanned = scanned_columns(alloc, Emits::Whole, rows, &none)?;
        PackedRows::each_once_by(alloc, rows, &scanned)
    }

    /// Each of some rows once, in ascending order; none where a row doesn't fit these columns, or
    /// the words in order are not the rows in order.
    fn each_once_by(
        alloc: Global,
        rows: &Rows,
        scanned: &[ScannedColumn],
    ) -> Result<Option<PackedRows>, Memory>
        ensures { IfOk result (λ found. IfSome found (SameBag (distinct rows.now))) }
    {
        let columns = packed_columns(alloc, scanned, &[])?;
        if columns.len() > MOST_COLUMNS as usize {
            return Ok(None);
        }
        let Some(words) = words_of(alloc, Emits::Whole, rows, &columns)? else {
            return Ok(None);
        };
        let mut words = in_order(words, &columns);
        words.dedup();
        if !rise(&columns, &words) {
            return Ok(None);
        }
        Ok(Some(PackedRows { columns, words }))
    }

    /// The rows, each made of its word.
    pub fn unpacked(&self, alloc: Global) -> Result<Rows, Memory>
        ensures { IfOk result (λ made. made ≡ self.now) }
    {
        let words = self.words.as_slice();
        match self.columns.as_slice() {
            [a] => rows_of(alloc, &[*a], words),
            [a, b] => rows_of(alloc, &[*a, *b], words),
            [a, b, c] => rows_of(alloc, &[*a, *b, *c], words),
            columns => rows_of(alloc, columns, words),
        }
    }
}

/// Whether the row of each word comes before that of the next, by code of its own for a few
/// columns.
fn rise(columns: &[PackedColumn], words: &[u64]) -> bool
    ensures { IsTrue result → AreRising (map (unpacked_row columns.now) words.now) }
{
    match columns {
        [a] => are_rising(&[*a], words),
        [a, b] => are_rising(&[*a, *b], words),
        [a, b, c] => are_rising(&[*a, *b, *c], words),
        _ => are_rising(columns, words),
    }
}

/// The rows of these words.
///
/// Inlined, so that there is code of its own for each number of columns that its caller knows.
#[inline(always)]
fn rows_of(alloc: Global, columns: &[PackedColumn], words: &[u64]) -> Result<Rows, Memory>
    requires columns { length columns.now < 2 ^ 32 }
    requires few { length words.now < 2 ^ 32 }
    ensures { IfOk result (λ made. made ≡ map (unpacked_row columns.now) words.now) }
{
    let mut made = Rows::with_capacity(alloc, words.len() as u32, columns.len() as u32)?;
    for word in words {
        made.push_made(alloc, &WordRow::of(columns, *word))?;
    }
    made.freeze(alloc)?;
    Ok(made)
}
