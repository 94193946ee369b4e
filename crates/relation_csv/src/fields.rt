//! Fields: reads the columns of a header and the values of a row.
ghost use Rattle.std.specs.Prelude.{◌≡◌, ◌<◌, ◌≤◌, true, IfSome, Some, length, take};
ghost use Rattle.std.specs.Str.{all_ascii_digits};
ghost use Rattle.rel_base.specs.Limits.{most_rows};
ghost use Rattle.csv.specs.Records.{fields_of};
ghost use Rattle.relation_csv.specs.Fields.{bool_of_field, column_of_field, int_of_field, type_of_name, value_of_field};
ghost use Rattle.relation_csv.specs.Files.{IsReadAs, is_text, row_of_record, schema_of_record};

use crate::RelFault;
use csv::StringRecord;
use rel_base::{ColType, Column, MOST_COLUMNS, Row, Schema, Text, Value};
use std::alloc::Global;

/// The columns that a header names.
pub(crate) fn schema_of(alloc: Global, header: &StringRecord) -> Result<Schema, RelFault>
    requires { is_text (fields_of header.now) ≡ true }
    ensures { IsReadAs result (schema_of_record (fields_of header.now)) }
{
    if header.len() > MOST_COLUMNS as usize {
        return Err(RelFault::TooManyColumns);
    }
    let mut schema = Schema::new(alloc);
    for field in header {
        let column = column_of(alloc, field, schema.len() + 1)?;
        schema.push(column)?;
    }
    Ok(schema)
}

/// The row that the fields of record number `nth` write.
pub(crate) fn row_of(
    alloc: Global,
    schema: &Schema,
    nth: u32,
    fields: &StringRecord,
) -> Result<Row, RelFault>
    requires nth { nth ≤ most_rows }
    requires text { is_text (fields_of fields.now) ≡ true }
    ensures { IsReadAs result (row_of_record schema.now nth (fields_of fields.now)) }
{
    if fields.len() != schema.len() as usize {
        return Err(RelFault::FieldCount { nth });
    }
    let mut row = Row::new(alloc);
    for (column, field) in schema.as_slice().iter().zip(fields) {
        let value = value_of(alloc, column.kind, field, nth, row.len() + 1)?;
        row.push(value)?;
    }
    Ok(row)
}

/// The column that header field number `number` names.
fn column_of(alloc: Global, field: &str, number: u32) -> Result<Column, RelFault>
    ensures { IsReadAs result (column_of_field number field.now) }
{
    let Some((name, type_name)) = field.rsplit_once(':') else {
        let name = Text::of(alloc, field)?;
        return Ok(Column {
            name,
            kind: ColType::Str,
        });
    };
    let Some(kind) = type_of(type_name) else {
        return Err(RelFault::BadHeader { field: number });
    };
    let name = Text::of(alloc, name)?;
    Ok(Column { name, kind })
}

/// The type of this name, in any case.
fn type_of(name: &str) -> Option<ColType>
    ensures { result ≡ type_of_name name.now }
{
    if name.eq_ignore_ascii_case("int") || name.eq_ignore_ascii_case("long") {
        Some(ColType::Int)
    } else if name.eq_ignore_ascii_case("string") {
        Some(ColType::Str)
    } else if name.eq_ignore_ascii_case("boolean") {
        Some(ColType::Bool)
    } else {
        None
    }
}

/// The value of this type that a field writes, which stands in this record and column.
#[inline(always)]
pub(crate) fn value_of(
    alloc: Global,
    kind: ColType,
    field: &str,
    nth: u32,
    column: u32,
) -> Result<Value, RelFault>
    ensures { IsReadAs result (value_of_field nth column kind field.now) }
{
    match kind {
        ColType::Int => {
            let Some(number) = int_of(field) else {
                return Err(RelFault::BadInt { nth, column });
            };
            Ok(Value::Int(number))
        }
        ColType::Str => {
            let text = Text::of(alloc, field)?;
            Ok(Value::Str(text))
        }
        ColType::Bool => {
            let Some(truth) = bool_of(field) else {
                return Err(RelFault::BadBool { nth, column });
            };
            Ok(Value::Bool(truth))
        }
    }
}

/// The number that an int field writes.
#[inline(always)]
pub(crate) fn int_of(field: &str) -> Option<i64>
    ensures { result ≡ int_of_field field.now }
{
    match short_number(field.as_bytes()) {
        Some(number) => Some(number),
        None => field.parse::<i64>().ok(),
    }
}

/// The number that a field of at most 18 digits writes; `None` where it has more bytes or others.
#[inline(always)]
fn short_number(digits: &[u8]) -> Option<i64>
    ensures { IfSome result (λ number. int_of_field digits.now ≡ Some number) }
{
    if digits.is_empty() || digits.len() > 18 {
        return None;
    }
    let mut number = 0u64;
    for digit in digits {
        if !digit.is_ascii_digit() {
            return None;
        }
        number = 10 * number + (*digit - b'0') as u64;
    }
    Some(number as i64)
}

/// The number that the digits at the front write, and how many they are; `None` where there is
/// none, where they are more than 18, and where nothing stands behind them.
#[inline(always)]
pub(crate) fn leading_number(bytes: &[u8]) -> Option<(i64, usize)>
    ensures bound { IfSome result (λ (_, count). count < length bytes.now) }
    ensures digits { IfSome result (λ (_, count). all_ascii_digits (take count bytes.now) ≡ true) }
    ensures number { IfSome result (λ (number, count).
        int_of_field (take count bytes.now) ≡ Some number) }
{
    let mut number = 0u64;
    for (count, byte) in bytes.iter().enumerate() {
        if !byte.is_ascii_digit() {
            if count == 0 {
                return None;
            }
            return Some((number as i64, count));
        }
        if count == 18 {
            return None;
        }
        number = 10 * number + (*byte - b'0') as u64;
    }
    None
}

/// The truth value that a boolean field writes, in any case.
#[inline(always)]
fn bool_of(field: &str) -> Option<bool>
    ensures { result ≡ bool_of_field field.now }
{
    match field {
        "true" => Some(true),
        "false" => Some(false),
        _ => bool_in_any_case(field),
    }
}

/// The truth value that a boolean field writes, in any case.
fn bool_in_any_case(field: &str) -> Option<bool>
    ensures { result ≡ bool_of_field field.now }
{
    if field.eq_ignore_ascii_case("true") {
        Some(true)
    } else if field.eq_ignore_ascii_case("false") {
        Some(false)
    } else {
        None
    }
}
