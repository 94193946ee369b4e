//! Plain files: reads the rows of a file where they stand.
//!
//! Where a file has no quote and no carriage return its records are its lines, and their fields
//! lie between commas. There a value is made of the file's own bytes, and no record is copied
//! first. A call here answers `None` where it can't tell: at a quote or a carriage return, at
//! bytes that are not UTF-8, and at every fault, which the reader of records then finds.
ghost use Rattle.std.specs.Prelude.{◌≡◌, ◌<◌, ◌≤◌, [], false, true, All, IfOk, IfSome, IsTrue, Ok, Some, drop, length, take};
ghost use Rattle.std.specs.List.{list_any};
ghost use Rattle.rel_base.specs.Limits.{most_rows};
ghost use Rattle.rel_base.specs.declared.relations.Column.{Column as Header};
ghost use Rattle.rel_base.specs.declared.values.ColType.TheVariants as kind;
ghost use Rattle.csv.specs.Reading.{is_bom, strip_bom};
ghost use Rattle.csv.specs.Writing.{default_writer, needs_byte};
ghost use Rattle.csv.specs.declared.parser.State.TheVariants as state;
ghost use Rattle.relation_csv.specs.Files.{records_of_bytes, rows_of_records};
ghost use Rattle.relation_csv.specs.Fields.{int_of_field};
ghost use Rattle.relation_csv.specs.inner.PlainLines.{AddsRow, BeginsWithField, BeginsWithValue, IsLine};
ghost use Rattle.relation_csv.specs.inner.RecordsLeft.{records_after};

use crate::RelFault;
use crate::fields::{leading_number, value_of};
use crate::int_rows::{are_ints, push_ints_of};
use memchr::memchr2;
use rel_base::{ColType, MOST_ROWS, Memory, Row, Rows, Schema, Value};
use std::alloc::Global;
use std::str;

/// A way to read plain files.
pub(crate) trait PlainReader {
    /// What the reader needs before it reads.
    ghost is_ready: { Self → Type 0 };

    /// The rows behind the first `skip` records of a file, if they can be read where they stand.
    /// They are shared from the start.
    fn rows(
        &self,
        alloc: Global,
        schema: &Schema,
        bytes: &[u8],
        skip: u64,
    ) -> Result<Option<Rows>, Memory>
        requires { is_ready self.now }
        ensures { IfOk result (λ found. IfSome found (λ rows.
            rows_of_records schema.now (drop skip (records_of_bytes bytes.now)) ≡ Ok rows)) };
}

/// Reads a plain file line by line.
pub(crate) struct InTurn;

impl PlainReader for InTurn {
    ghost is_ready = { λ _. Unit {0} };

    fn rows(
        &self,
        alloc: Global,
        schema: &Schema,
        bytes: &[u8],
        skip: u64,
    ) -> Result<Option<Rows>, Memory> {
        plain_rows(alloc, schema, bytes, skip)
    }
}

/// The rows behind the first `skip` records of a file, line by line, if they can be read where
/// they stand. They are shared from the start.
pub(crate) fn plain_rows(
    alloc: Global,
    schema: &Schema,
    bytes: &[u8],
    skip: u64,
) -> Result<Option<Rows>, Memory>
    ensures { IfOk result (λ found. IfSome found (λ rows.
        rows_of_records schema.now (drop skip (records_of_bytes bytes.now)) ≡ Ok rows)) }
{
    let Ok(text) = str::from_utf8(without_mark(bytes)) else {
        return Ok(None);
    };
    let Some(text) = behind_records(text, skip) else {
        return Ok(None);
    };
    rows_of_lines(alloc, schema, text)
}

/// The bytes behind a byte order mark at their start, if there is one.
pub(crate) fn without_mark(bytes: &[u8]) -> &[u8]
    ensures { result.now ≡ strip_bom bytes.now }
{
    match bytes {
        [a, b, c, rest @ ..] if is_mark(*a, *b, *c) => rest,
        _ => bytes,
    }
}

/// Whether three bytes are a byte order mark.
fn is_mark(a: u8, b: u8, c: u8) -> bool
    ensures { result ≡ is_bom a b c }
{
    a == 0xef && b == 0xbb && c == 0xbf
}

/// What stands behind so many records; nothing where there are fewer.
pub(crate) fn behind_records(text: &str, count: u64) -> Option<&str>
    ensures { IfSome result (λ rest. drop count (records_after state.StartRecord text.now)
        ≡ records_after state.StartRecord rest.now) }
{
    let mut left = text;
    'records: for _ in 0..count {
        let line = line_of(left)?;
        if line.is_empty() {
            return Some(line);
        }
        left = behind_record(line)?;
    }
    Some(left)
}

/// What stands behind the record of this line.
fn behind_record(line: &str) -> Option<&str>
    requires line { IsLine line.now }
    requires some { 0 < length line.now }
    ensures { IfSome result (λ rest. drop 1 (records_after state.StartRecord line.now)
        ≡ records_after state.StartRecord rest.now) }
{
    let mut left = line;
    'fields: loop {
        let (_, more, rest) = first_field(left)?;
        if !more {
            return Some(rest);
        }
        left = rest;
    }
}

/// The rows of all records of a text.
pub(crate) fn rows_of_lines(
    alloc: Global,
    schema: &Schema,
    text: &str,
) -> Result<Option<Rows>, Memory>
    ensures { IfOk result (λ found. IfSome found (λ rows.
        rows_of_records schema.now (records_after state.StartRecord text.now) ≡ Ok rows)) }
{
    let mut rows = Rows::new(alloc);
    let mut room = RowRoom::of(alloc, schema)?;
    let mut left = text;
    'rows: loop {
        let Some(line) = line_of(left) else {
            return Ok(None);
        };
        if line.is_empty() {
            rows.freeze(alloc)?;
            return Ok(Some(rows));
        }
        if rows.len() >= MOST_ROWS {
            return Ok(None);
        }
        let Some(rest) = push_next(alloc, schema, line, &mut room, &mut rows)? else {
            return Ok(None);
        };
        left = rest;
    }
}

/// The text from its first line on that is not empty.
fn line_of(text: &str) -> Option<&str>
    ensures line { IfSome result (λ line. IsLine line.now) }
    ensures same { IfSome result (λ line. records_after state.StartRecord text.now
        ≡ records_after state.StartRecord line.now) }
    ensures bound { IfSome result (λ line. length line.now ≤ length text.now) }
{
    let mut left = text;
    'lines: while !left.is_empty() {
        let first = left.as_bytes()[0];
        if first == b'\r' {
            return None;
        }
        if first != b'\n' {
            return Some(left);
        }
        left = &left[1..];
    }
    Some(left)
}

/// What a row is made in, again and again.
struct RowRoom {
    /// Whether all columns are of ints.
    are_ints: bool,
    numbers: Vec<i64>,
    row: Row,
}

// Written out, since a derived drop is proved anew at each place where a value is let go.
impl Drop for RowRoom {
    fn drop(self) {
        let RowRoom {
            are_ints: _,
            numbers: _,
            row: _,
        } = self;
    }
}

impl RowRoom {
    /// Room for a row of these columns.
    fn of(alloc: Global, schema: &Schema) -> Result<RowRoom, Memory>
        ensures empty { IfOk result (λ made. made.row ≡ []) }
        ensures ints { IfOk result (λ made. IsTrue made.are_ints
            → All (λ (c : Header). c.kind ≡ kind.Int) schema.now) }
    {
        Ok(RowRoom {
            are_ints: are_ints(schema),
            numbers: Vec::with_capacity(alloc, schema.len() as usize)?,
            row: Row::with_capacity(alloc, schema.len())?,
        })
    }
}

/// Adds the row of the record with which a text begins, the next one behind these rows, and gives
/// what stands behind the record.
#[inline(always)]
fn push_next<'a>(
    alloc: Global,
    schema: &Schema,
    line: &'a str,
    room: &mut RowRoom,
    rows: &mut Rows,
) -> Result<Option<&'a str>, Memory>
    requires empty { room.old.row ≡ [] }
    requires ints { IsTrue room.old.are_ints
        → All (λ (c : Header). c.kind ≡ kind.Int) schema.now }
    requires few { length rows.old < most_rows }
    ensures row { IfOk result (λ found. IfSome found (λ rest.
        AddsRow schema.now line.now rows.old rows.new rest.now)) }
    ensures empty { IfOk result (λ found. IfSome found (λ _. room.new.row ≡ [])) }
    ensures ints { room.new.are_ints ≡ room.old.are_ints }
{
    if room.are_ints {
        return push_ints_of(alloc, schema, line, &mut room.numbers, rows);
    }
    push_row_of(alloc, schema, line, &mut room.row, rows)
}

/// Adds the row of the record with which a text begins, the next one behind these rows, and gives
/// what stands behind the record. The row is made in one that is empty before and behind.
#[inline(always)]
fn push_row_of<'a>(
    alloc: Global,
    schema: &Schema,
    line: &'a str,
    row: &mut Row,
    rows: &mut Rows,
) -> Result<Option<&'a str>, Memory>
    requires empty { row.old ≡ [] }
    requires few { length rows.old < most_rows }
    ensures row { IfOk result (λ found. IfSome found (λ rest.
        AddsRow schema.now line.now rows.old rows.new rest.now)) }
    ensures empty { IfOk result (λ found. IfSome found (λ _. row.new ≡ [])) }
{
    let nth = rows.len() + 1;
    let mut left = line;
    let mut more = true;
    for column in schema.as_slice() {
        if !more {
            return Ok(None);
        }
        let read = first_value(alloc, column.kind, left, nth, row.len() + 1)?;
        let Some((value, follows, rest)) = read else {
            return Ok(None);
        };
        row.push(value)?;
        left = rest;
        more = follows;
    }
    if more {
        return Ok(None);
    }
    rows.push_from(row)?;
    Ok(Some(left))
}

/// The value that the first field of a text writes, whether another field follows it in its record,
/// and what stands behind it.
#[inline(always)]
fn first_value<'a>(
    alloc: Global,
    kind: ColType,
    text: &'a str,
    nth: u32,
    column: u32,
) -> Result<Option<(Value, bool, &'a str)>, Memory>
    ensures { IfOk result (λ found. IfSome found (λ (value, more, rest).
        BeginsWithValue nth column kind text.now value more rest.now)) }
{
    if kind == ColType::Int {
        if let Some((_, number, more, rest)) = first_number(text) {
            return Ok(Some((Value::Int(number), more, rest)));
        }
    }
    let Some((field, more, rest)) = first_field(text) else {
        return Ok(None);
    };
    match value_of(alloc, kind, field, nth, column) {
        Ok(value) => Ok(Some((value, more, rest))),
        Err(RelFault::Memory) => Err(Memory),
        Err(_) => Ok(None),
    }
}

/// The first field of a text with its number, whether another one follows it in its record, and
/// what stands behind it; none unless it is a number without a sign, of 18 digits at most, and
/// something stands behind it. Its end is where its digits end, so that nothing is searched for.
#[inline(always)]
pub(crate) fn first_number(text: &str) -> Option<(&str, i64, bool, &str)>
    ensures begins { IfSome result (λ (field, _, more, rest).
        BeginsWithField text.now field.now more rest.now) }
    ensures number { IfSome result (λ (field, number, _, _). int_of_field field.now ≡ Some number) }
{
    let bytes = text.as_bytes();
    let (number, end) = leading_number(bytes)?;
    match bytes[end] {
        b',' => Some((&text[..end], number, true, &text[end + 1..])),
        b'\n' => Some((&text[..end], number, false, &text[end + 1..])),
        _ => None,
    }
}

/// The first field of a text, whether another one follows it in its record, and what stands behind
/// it.
#[inline(always)]
pub(crate) fn first_field(text: &str) -> Option<(&str, bool, &str)>
    ensures begins { IfSome result (λ (field, more, rest).
        BeginsWithField text.now field.now more rest.now) }
    ensures shorter { IfSome result (λ (_, more, rest).
        more ≡ true → length rest.now < length text.now) }
{
    let bytes = text.as_bytes();
    let end = field_end(bytes);
    if end == bytes.len() {
        return Some((text, false, ""));
    }
    match bytes[end] {
        b',' => Some((&text[..end], true, &text[end + 1..])),
        b'\n' => Some((&text[..end], false, &text[end + 1..])),
        _ => None,
    }
}

/// How many bytes at most are searched at once for the end of a field.
const NEAR: usize = 32;

/// How many bytes stand before the first that means something in a file.
#[inline(always)]
fn field_end(bytes: &[u8]) -> usize
    ensures bound { result ≤ length bytes.now }
    ensures plain { list_any (needs_byte default_writer) (take result bytes.now) ≡ false }
{
    match near_end(bytes) {
        Some(end) => end,
        None => far_end(bytes),
    }
}

/// The same, if the field ends near by and no quote and no carriage return is near.
#[inline(always)]
fn near_end(bytes: &[u8]) -> Option<usize>
    ensures bound { IfSome result (λ end. end ≤ length bytes.now) }
    ensures plain { IfSome result (λ end. list_any (needs_byte default_writer) (take end bytes.now) ≡ false) }
{
    if bytes.len() < NEAR {
        return None;
    }
    let near = &bytes[..NEAR];
    if memchr2(b'"', b'\r', near).is_some() {
        return None;
    }
    memchr2(b',', b'\n', near)
}

/// The same, byte by byte.
#[inline(never)]
fn far_end(bytes: &[u8]) -> usize
    ensures bound { result ≤ length bytes.now }
    ensures plain { list_any (needs_byte default_writer) (take result bytes.now) ≡ false }
{
    for (i, byte) in bytes.iter().enumerate() {
        if matches!(*byte, b',' | b'"' | b'\r' | b'\n') {
            return i;
        }
    }
    bytes.len()
}
