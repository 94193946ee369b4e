//! The rows of groups as they are read: lent, or packed in words.
ghost use Rattle.std.specs.Prelude.{◌≡◌, ◌<◌, ◌≤◌, [], length, map, take, drop, slice_index_or, IfOk, IfErr};
ghost use Rattle.myrial_ast.specs.Scalars.{value_at};
ghost use Rattle.packed_rows.specs.Unpacked.{unpacked_row};
ghost use Rattle.aggregate_ops.specs.declared.faults.AggFault.TheVariants as fault;
ghost use Rattle.aggregate_ops.specs.Columns.{rows_in};
ghost use Rattle.aggregate_ops.specs.inner.Reading.{row_of, rows_of, value_of};

use crate::AggFault;
use packed_rows::PackedColumn;
use rel_base::{Duplicate, Value};
use std::alloc::Global;

/// A row that is grouped.
#[derive(Clone, Copy)]
pub enum GroupedRow<'a> {
    /// A row that is lent.
    Lent(&'a [Value]),
    /// A word that has all values of a row, in these columns.
    Packed(u64, &'a [PackedColumn]),
}

/// A value of such a row.
pub enum ReadValue<'a> {
    /// A value that is lent.
    Lent(&'a Value),
    /// A value that was made.
    Made(Value),
}

// Written out, since a derived drop is proved anew at each place where a value is let go.
impl<'a> Drop for ReadValue<'a> {
    fn drop(self) {
        match self {
            ReadValue::Lent(_) | ReadValue::Made(_) => {}
        }
    }
}

impl<'a> ReadValue<'a> {
    /// The value.
    #[inline(always)]
    pub fn value(&self) -> &Value
        ensures { result.now ≡ value_of self.now }
    {
        match self {
            ReadValue::Lent(value) => value,
            ReadValue::Made(value) => value,
        }
    }

    /// The value as one's own.
    pub fn into_value(self, alloc: Global) -> Result<Value, AggFault>
        ensures value { IfOk result (λ value. value ≡ value_of self.entry) }
        ensures fault { IfErr result (λ given. given ≡ fault.Memory) }
    {
        match self {
            ReadValue::Lent(value) => Ok(value.copy(alloc)?),
            ReadValue::Made(value) => Ok(value),
        }
    }
}

impl<'a> GroupedRow<'a> {
    /// The value at a place; past the end the number 0.
    #[inline(always)]
    pub fn read(self, place: usize) -> ReadValue<'a>
        ensures { value_of result ≡ value_at (row_of self.entry) place }
    {
        match self {
            GroupedRow::Lent(row) => match row.get(place) {
                Some(value) => ReadValue::Lent(value),
                None => ReadValue::Made(Value::Int(0)),
            },
            GroupedRow::Packed(word, columns) => match columns.get(place) {
                Some(column) => ReadValue::Made(column.value(word)),
                None => ReadValue::Made(Value::Int(0)),
            },
        }
    }
}

/// Rows that are grouped.
#[derive(Clone, Copy)]
pub enum GroupedRows<'a> {
    /// Rows that are lent.
    Lent(&'a [&'a [Value]]),
    /// Rows all of whose values are told by words, in these columns.
    Packed(&'a [u64], &'a [PackedColumn]),
}

impl<'a> GroupedRows<'a> {
    /// Rows that are lent.
    pub fn lent(rows: &'a [&'a [Value]]) -> GroupedRows<'a>
        ensures { rows_of result ≡ rows_in rows.entry.now }
    {
        GroupedRows::Lent(rows)
    }

    /// Rows that words tell in these columns.
    pub fn packed(words: &'a [u64], columns: &'a [PackedColumn]) -> GroupedRows<'a>
        ensures { rows_of result ≡ map (unpacked_row columns.entry.now) words.entry.now }
    {
        GroupedRows::Packed(words, columns)
    }

    /// The number of rows.
    #[inline(always)]
    pub fn len(self) -> usize
        ensures { result ≡ length (rows_of self.entry) }
    {
        match self {
            GroupedRows::Lent(rows) => rows.len(),
            GroupedRows::Packed(words, _) => words.len(),
        }
    }

    /// Row number `i`, from 0.
    #[inline(always)]
    pub fn get(self, i: usize) -> GroupedRow<'a>
        requires { i < length (rows_of self) }
        ensures { row_of result ≡ slice_index_or (rows_of self.entry) i [] }
    {
        match self {
            GroupedRows::Lent(rows) => GroupedRow::Lent(rows[i]),
            GroupedRows::Packed(words, columns) => GroupedRow::Packed(words[i], columns),
        }
    }

    /// So many rows at the front.
    #[inline(always)]
    pub fn front(self, count: usize) -> GroupedRows<'a>
        requires { count ≤ length (rows_of self) }
        ensures { rows_of result ≡ take count (rows_of self.entry) }
    {
        match self {
            GroupedRows::Lent(rows) => GroupedRows::Lent(&rows[..count]),
            GroupedRows::Packed(words, columns) => GroupedRows::Packed(&words[..count], columns),
        }
    }

    /// The rows behind so many.
    #[inline(always)]
    pub fn behind(self, count: usize) -> GroupedRows<'a>
        requires { count ≤ length (rows_of self) }
        ensures { rows_of result ≡ drop count (rows_of self.entry) }
    {
        match self {
            GroupedRows::Lent(rows) => GroupedRows::Lent(&rows[count..]),
            GroupedRows::Packed(words, columns) => GroupedRows::Packed(&words[count..], columns),
        }
    }
}
