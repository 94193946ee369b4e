//! Values that are gathered as words, column by column: those of strings follow, once these are
//! ranked.
ghost use Rattle.std.specs.Prelude.{◌≡◌, ◌^◌, ◌<◌, ◌∷◌, ◌++◌, ℕ, [], List, All, IfOk, OnOk, length, map};
ghost use Rattle.rel_base.specs.declared.values.Value.{Value as Datum};
ghost use Rattle.word_table.specs.declared.numbering.Occurrence.{Occurrence as Found};
ghost use Rattle.word_table.specs.Words.{strings_of_value, strings_of_row, strings_of_rows, strings_in, word_of};
ghost use Rattle.word_table.specs.inner.Gathered.{AddsStrings, AreGatheredColumns, AreGathered, AreRanksOf, IsGathered, IsGatheredPart};
ghost use Rattle.word_table.specs.inner.Unlike.{parts_in};
ghost use Rattle.word_table.specs.Encodings.{AreWide};

use crate::Table;
use crate::columns::WordColumn;
use crate::dictionary::word_of_int;
use crate::numbering::Numbering;
use crate::ranking::put_ranks;
use rel_base::{Memory, Rows, Value};
use std::alloc::Global;

/// Words of the values of one column, where the word of a string is still the number of an
/// occurrence of it.
pub(crate) struct GatheredColumn {
    pub(crate) words: Vec<u64>,
    /// Where the strings stand among the values, in ascending order.
    pub(crate) places: Vec<u64>,
}

// Written out, since a derived drop is proved anew at each place where a value is let go.
impl Drop for GatheredColumn {
    fn drop(self) {
        let GatheredColumn {
            words: _,
            places: _,
        } = self;
    }
}

impl GatheredColumn {
    /// No values, and room for so many.
    fn with_capacity(alloc: Global, count: usize) -> Result<GatheredColumn, Memory>
        ensures words { IfOk result (λ made. made.words.items ≡ []) }
        ensures places { IfOk result (λ made. made.places.items ≡ []) }
    {
        Ok(GatheredColumn {
            words: Vec::with_capacity(alloc, count)?,
            places: Vec::new(alloc),
        })
    }

    /// Adds a value.
    fn add<'a>(&mut self, value: &'a Value, strings: &mut Numbering<'a>) -> Result<(), Memory>
        ensures strings { OnOk result (AddsStrings
            strings.old.found.items strings.new.found.items (strings_of_value value.now)) }
        ensures gathered { OnOk result ((done : List Datum)
            → IsGathered done self.old.words.items self.old.places.items strings.old.found.items
            → IsGathered (done ++ value.now ∷ [])
            self.new.words.items self.new.places.items strings.new.found.items) }
    {
        let word = match value {
            Value::Int(number) => word_of_int(*number),
            Value::Bool(truth) => u64::from(*truth),
            Value::Str(text) => {
                self.places.push(self.words.len() as u64)?;
                strings.number_of(text.as_str())?
            }
        };
        self.words.push(word)?;
        Ok(())
    }

    /// The words under the strings that have these ranks.
    fn ranked(self, ranks: &[u64]) -> WordColumn
        requires { (values : List Datum) × (found : List Found) × (strings : List (List ℕ))
            × IsGathered values self.words.items self.places.items found
            × AreRanksOf found ranks.now strings }
        ensures words { (values : List Datum) (found : List Found) (strings : List (List ℕ))
            → IsGathered values self.words.items self.places.items found
            → AreRanksOf found ranks.now strings
            → result ≡ map (word_of strings) values }
        ensures fit { All (λ word. word < 2 ^ 64) result }
    {
        let GatheredColumn { mut words, places } = self;
        put_ranks(&mut words, places.as_slice(), ranks);
        WordColumn::of(words)
    }
}

/// The columns of a part.
#[derive(Drop)]
pub(crate) struct GatheredPart {
    pub(crate) width: u32,
    pub(crate) count: u32,
    pub(crate) columns: Vec<GatheredColumn>,
}

impl GatheredPart {
    /// The columns of rows that have so many values each. Each row is read once.
    fn of_rows<'a>(
        alloc: Global,
        rows: &'a Rows,
        width: u32,
        strings: &mut Numbering<'a>,
    ) -> Result<GatheredPart, Memory>
        requires { All (λ row. length row ≡ width) rows.now }
        ensures strings { OnOk result (AddsStrings
            strings.old.found.items strings.new.found.items (strings_of_rows rows.now)) }
        ensures gathered { IfOk result (λ made.
            IsGatheredPart rows.now width made strings.new.found.items) }
    {
        let mut columns = no_values(alloc, width, rows.len())?;
        for row in rows {
            add_row(&mut columns, row, strings)?;
        }
        Ok(GatheredPart {
            width,
            count: rows.len(),
            columns,
        })
    }

    /// The table of the words under the strings that have these ranks.
    pub(crate) fn table(self, alloc: Global, ranks: &[u64]) -> Result<Table, Memory>
        requires { (rows : List (List Datum)) × (width : ℕ) × (found : List Found)
            × (strings : List (List ℕ))
            × IsGatheredPart rows width self found × AreRanksOf found ranks.now strings }
        ensures { IfOk result (λ made. (rows : List (List Datum)) (width : ℕ)
            (found : List Found) (strings : List (List ℕ))
            → IsGatheredPart rows width self found → AreRanksOf found ranks.now strings
            → (made.columns ≡ width) × (made.rows ≡ map (map (word_of strings)) rows)) }
    {
        let mut columns = Vec::with_capacity(alloc, self.columns.len())?;
        for column in self.columns {
            columns.push(column.ranked(ranks))?;
        }
        let table = Table::of_columns(alloc, self.width, self.count, columns)?;
        Ok(table)
    }
}

/// Columns without values, each with room for so many.
fn no_values(alloc: Global, width: u32, count: u32) -> Result<Vec<GatheredColumn>, Memory>
    ensures many { IfOk result (λ made. length made.items ≡ width) }
    ensures none { IfOk result
        (λ made. (found : List Found) → AreGatheredColumns [] made.items found) }
{
    let mut columns = Vec::with_capacity(alloc, width as usize)?;
    for _ in 0..width {
        columns.push(GatheredColumn::with_capacity(alloc, count as usize)?)?;
    }
    Ok(columns)
}

/// Adds each value of the row to its column.
fn add_row<'a>(
    columns: &mut Vec<GatheredColumn>,
    row: &'a [Value],
    strings: &mut Numbering<'a>,
) -> Result<(), Memory>
    requires { length row.now ≡ length columns.old.items }
    ensures long { OnOk result (length columns.new.items ≡ length columns.old.items) }
    ensures strings { OnOk result (AddsStrings
        strings.old.found.items strings.new.found.items (strings_of_row row.now)) }
    ensures gathered { OnOk result ((done : List (List Datum))
        → AreGatheredColumns done columns.old.items strings.old.found.items
        → AreGatheredColumns (done ++ row.now ∷ []) columns.new.items strings.new.found.items) }
{
    for place in 0..row.len() {
        columns[place].add(&row[place], strings)?;
    }
    Ok(())
}

/// The columns of all parts.
#[derive(Drop)]
pub(crate) struct Gathered<'a> {
    /// For each part its columns.
    pub(crate) columns: Vec<GatheredPart>,
    pub(crate) strings: Numbering<'a>,
}

impl<'a> Gathered<'a> {
    /// Of parts whose rows have so many columns each.
    pub(crate) fn of_parts(
        alloc: Global,
        parts: &[&'a Rows],
        widths: &[u32],
    ) -> Result<Gathered<'a>, Memory>
        requires { AreWide widths.now (parts_in parts.now) }
        ensures strings { IfOk result
            (λ made. AddsStrings [] made.strings.found.items (strings_in (parts_in parts.now))) }
        ensures gathered { IfOk result (λ made. AreGathered widths.now (parts_in parts.now)
            made.columns.items made.strings.found.items) }
    {
        let mut strings = Numbering::new(alloc);
        let mut columns = Vec::with_capacity(alloc, parts.len())?;
        for place in 0..parts.len() {
            let part = GatheredPart::of_rows(alloc, parts[place], widths[place], &mut strings)?;
            columns.push(part)?;
        }
        Ok(Gathered { columns, strings })
    }
}
