//! Rows of ints alone, which are put where they are to stand.
ghost use Rattle.std.specs.Prelude.{◌≡◌, ◌<◌, ◌^◌, All, IfOk, IfSome, IsTrue, length, map, ⊤};
ghost use Rattle.rel_base.specs.Limits.{most_rows};
ghost use Rattle.rel_base.specs.declared.relations.Column.{Column as Header};
ghost use Rattle.rel_base.specs.declared.values.ColType.TheVariants as kind;
ghost use Rattle.rel_base.specs.declared.values.Value.TheVariants as value;
ghost use Rattle.relation_csv.specs.inner.PlainLines.{AddsRow, BeginsWithInt};

use crate::fields::int_of;
use crate::plain::{first_field, first_number};
use rel_base::{ColType, Memory, RowSource, Rows, Schema, Value};
use std::alloc::Global;
use std::marker::Model;

/// The numbers of a row.
#[derive(Drop)]
struct IntRow<'a> {
    numbers: &'a [i64],
}

impl<'a> Model for IntRow<'a> {
    ghost use Rattle.std.specs.Prelude.{List, ◌^◌, ◌<◌, length, map};
    ghost use Rattle.rel_base.specs.declared.values.Value.{Value as Datum};
    ghost use Rattle.rel_base.specs.declared.values.Value.TheVariants as value;

    ghost Value = { List Datum };

    ghost view = { λ r. map value.Int r.numbers.now };

    ghost invariant = { λ r. length r.numbers.now < 2 ^ 32 };
}

impl<'a> IntRow<'a> {
    /// The row of these numbers.
    #[inline(always)]
    fn of(numbers: &'a [i64]) -> IntRow<'a>
        requires { length numbers.now < 2 ^ 32 }
        ensures { result ≡ map value.Int numbers.entry.now }
    {
        IntRow { numbers }
    }
}

impl<'a> RowSource for IntRow<'a> {
    type Fault = Memory;

    ghost values = { λ row. row };

    ghost is_made = { λ _. ⊤ };

    ghost is_fault = { λ _ _. ⊤ };

    #[inline(always)]
    fn width(&self) -> u32 {
        self.numbers.len() as u32
    }

    #[inline(always)]
    fn put_values(&self, into: &mut Vec<Value>) -> Result<(), Memory> {
        for number in self.numbers {
            into.push(Value::Int(*number))?;
        }
        Ok(())
    }

    fn refused(&self) -> Memory {
        Memory
    }
}

/// Whether all columns are of ints.
pub(crate) fn are_ints(schema: &Schema) -> bool
    ensures { IsTrue result → All (λ (c : Header). c.kind ≡ kind.Int) schema.now }
{
    for column in schema.as_slice() {
        if column.kind != ColType::Int {
            return false;
        }
    }
    true
}

/// The number that the first field of a text writes, whether another field follows it in its
/// record, and what stands behind it.
#[inline(always)]
fn first_int(text: &str) -> Option<(i64, bool, &str)>
    ensures { IfSome result
        (λ (number, more, rest). BeginsWithInt text.now number more rest.now) }
{
    if let Some((_, number, more, rest)) = first_number(text) {
        return Some((number, more, rest));
    }
    let (field, more, rest) = first_field(text)?;
    let number = int_of(field)?;
    Some((number, more, rest))
}

/// Adds the row of the record with which a text begins, the next one behind these rows, and gives
/// what stands behind the record. Its numbers are gathered first, in a list that is used again and
/// again.
#[inline(always)]
pub(crate) fn push_ints_of<'a>(
    alloc: Global,
    schema: &Schema,
    line: &'a str,
    numbers: &mut Vec<i64>,
    rows: &mut Rows,
) -> Result<Option<&'a str>, Memory>
    requires ints { All (λ (c : Header). c.kind ≡ kind.Int) schema.now }
    requires few { length rows.old < most_rows }
    ensures { IfOk result (λ found. IfSome found (λ rest.
        AddsRow schema.now line.now rows.old rows.new rest.now)) }
{
    numbers.clear();
    let mut left = line;
    let mut more = true;
    for _column in schema.as_slice() {
        if !more {
            return Ok(None);
        }
        let Some((number, follows, rest)) = first_int(left) else {
            return Ok(None);
        };
        numbers.push(number)?;
        left = rest;
        more = follows;
    }
    if more {
        return Ok(None);
    }
    rows.push_made(alloc, &IntRow::of(numbers))?;
    Ok(Some(left))
}
