//! Texts: writes the records of a header and of a row.
//!
//! The text is the one that the `csv` crate's writer gives, and it is put together here: that
//! writer holds bytes back in a buffer of its own, and promises nothing of what was written before
//! an error.
ghost use Rattle.std.specs.Prelude.{◌≡◌, ℕ, List, [], ◌++◌, ◌==◌, if◌then◌else◌, codes, length, map, string_bytes, IfOk, OnOk, OnErr};
ghost use Rattle.std.specs.Fmt.{signed_decimal};
ghost use Rattle.csv.specs.Writing.{default_writer, field_text, needs_quotes, row_body, row_text};
ghost use Rattle.relation_csv.specs.RecordTexts.{Extends, header_field, header_record, row_record, type_name, value_field};

use itoa::Buffer;
use rel_base::{ColType, Column, Memory, Schema, Value};
use std::alloc::Global;

/// Appends the record of a header, ended by a line feed. After `Memory` the bytes are as they were.
pub fn header_text(schema: &Schema, into: &mut Vec<u8>) -> Result<(), Memory>
    ensures ok { OnOk result (into.new.items ≡ into.old.items ++ header_record schema.now) }
    ensures err { OnErr result (into.new.items ≡ into.old.items) }
{
    append_record(schema.as_slice(), into)
}

/// Appends the record of a row, ended by a line feed. After `Memory` the bytes are as they were.
pub fn row_text(row: &[Value], into: &mut Vec<u8>) -> Result<(), Memory>
    ensures ok { OnOk result (into.new.items ≡ into.old.items ++ row_record row.now) }
    ensures err { OnErr result (into.new.items ≡ into.old.items) }
{
    append_record(row, into)
}

/// What is written as one field of a record.
trait Field {
    /// The bytes of the field, before any quotes.
    ghost bytes: { Self → List ℕ };

    /// Appends the field, or after `Memory` a part of it.
    fn push(&self, into: &mut Vec<u8>) -> Result<(), Memory>
        ensures ok { OnOk result
            (into.new.items ≡ into.old.items ++ field_text default_writer (bytes self.now)) }
        ensures err { OnErr result (Extends into.old.items into.new.items) };
}

/// A column is written as a field of the header: its name and the name of its type.
impl Field for Column {
    ghost bytes = { header_field };

    fn push(&self, into: &mut Vec<u8>) -> Result<(), Memory> {
        let field = field_of(*into.allocator(), self)?;
        push_field(field.as_bytes(), into)
    }
}

/// A value is written as a field of a row.
impl Field for Value {
    ghost bytes = { value_field };

    fn push(&self, into: &mut Vec<u8>) -> Result<(), Memory> {
        match self {
            Value::Int(number) => push_int(*number, into),
            Value::Str(text) => push_field(text.as_str().as_bytes(), into),
            Value::Bool(true) => push_field(b"true", into),
            Value::Bool(false) => push_field(b"false", into),
        }
    }
}

/// Appends the record of these fields. After `Memory` the bytes are as they were.
fn append_record<F: Field>(fields: &[F], into: &mut Vec<u8>) -> Result<(), Memory>
    ensures ok { OnOk result
        (into.new.items ≡ into.old.items ++ row_text default_writer (map F.bytes fields.now)) }
    ensures err { OnErr result (into.new.items ≡ into.old.items) }
{
    let before = into.len();
    match push_record(fields, into) {
        Ok(()) => Ok(()),
        Err(Memory) => {
            into.truncate(before);
            Err(Memory)
        }
    }
}

/// Appends the record of these fields, or after `Memory` a part of it.
fn push_record<F: Field>(fields: &[F], into: &mut Vec<u8>) -> Result<(), Memory>
    ensures ok { OnOk result
        (into.new.items ≡ into.old.items ++ row_text default_writer (map F.bytes fields.now)) }
    ensures err { OnErr result (Extends into.old.items into.new.items) }
{
    let before = into.len();
    push_fields(fields, into)?;
    end_record(before, into)
}

/// Appends these fields with commas between them, or after `Memory` a part of them.
fn push_fields<F: Field>(fields: &[F], into: &mut Vec<u8>) -> Result<(), Memory>
    ensures ok { OnOk result
        (into.new.items ≡ into.old.items ++ row_body default_writer (map F.bytes fields.now)) }
    ensures err { OnErr result (Extends into.old.items into.new.items) }
{
    let [first, rest @ ..] = fields else {
        return Ok(());
    };
    first.push(into)?;
    for field in rest {
        into.push(b',')?;
        field.push(into)?;
    }
    Ok(())
}

/// Ends the record that began at `before`; one that shows nothing gets two quotes.
fn end_record(before: usize, into: &mut Vec<u8>) -> Result<(), Memory>
    ensures ok { OnOk result (into.new.items
        ≡ into.old.items
        ++ ((if length into.old.items == before then codes "\"\"" else []) ++ codes "\n")) }
    ensures err { OnErr result (Extends into.old.items into.new.items) }
{
    if into.len() == before {
        into.extend_from_slice(b"\"\"")?;
    }
    into.push(b'\n')?;
    Ok(())
}

/// A column's field of a header.
fn field_of(alloc: Global, column: &Column) -> Result<String, Memory>
    ensures { IfOk result (λ field. string_bytes field ≡ header_field column.now) }
{
    let mut field = String::from_str(alloc, column.name.as_str())?;
    field.push_str(":")?;
    field.push_str(name_of(column.kind))?;
    Ok(field)
}

/// The name of a type.
fn name_of(kind: ColType) -> &'static str
    ensures { result.now ≡ type_name kind }
{
    match kind {
        ColType::Int => "int",
        ColType::Str => "string",
        ColType::Bool => "boolean",
    }
}

/// Appends a number as a field. No byte of it calls for quotes.
fn push_int(number: i64, into: &mut Vec<u8>) -> Result<(), Memory>
    ensures ok { OnOk result
        (into.new.items ≡ into.old.items ++ field_text default_writer (signed_decimal number)) }
    ensures err { OnErr result (Extends into.old.items into.new.items) }
{
    let mut buffer = Buffer::new();
    into.extend_from_slice(buffer.format(number).as_bytes())?;
    Ok(())
}

/// Appends a field, in quotes where it needs them.
fn push_field(field: &[u8], into: &mut Vec<u8>) -> Result<(), Memory>
    ensures ok { OnOk result (into.new.items ≡ into.old.items ++ field_text default_writer field.now) }
    ensures err { OnErr result (Extends into.old.items into.new.items) }
{
    if !needs_quotes(field) {
        into.extend_from_slice(field)?;
        return Ok(());
    }
    into.push(b'"')?;
    for byte in field {
        if *byte == b'"' {
            into.push(b'"')?;
        }
        into.push(*byte)?;
    }
    into.push(b'"')?;
    Ok(())
}

/// Whether a field has a byte that means something in a file.
fn needs_quotes(field: &[u8]) -> bool
    ensures { result ≡ needs_quotes default_writer field.now }
{
    field
        .iter()
        .any(|byte| matches!(*byte, b',' | b'"' | b'\r' | b'\n'))
}
