//! The strings of rows, gathered as they stand.
ghost use Rattle.std.specs.Prelude.{◌≡◌, ◌++◌, IfOk, OnOk};
ghost use Rattle.word_table.specs.Words.{strings_of_row, strings_of_rows, strings_in};

use crate::keyed::Keyed;
use rel_base::{Memory, Parts, Rows, Value};
use std::alloc::Global;

/// The strings of all parts, as often and in the order in which they stand.
pub(crate) fn strings_of_parts<'a>(
    alloc: Global,
    parts: &'a Parts,
) -> Result<Vec<Keyed<'a>>, Memory>
    ensures { IfOk result (λ made. made.items ≡ strings_in parts.now) }
{
    let mut strings = Vec::new(alloc);
    for rows in parts.as_slice() {
        add_strings_of_rows(&mut strings, rows)?;
    }
    Ok(strings)
}

/// Adds the strings of the rows at the end.
fn add_strings_of_rows<'a>(strings: &mut Vec<Keyed<'a>>, rows: &'a Rows) -> Result<(), Memory>
    ensures { OnOk result (strings.new.items ≡ strings.old.items ++ strings_of_rows rows.now) }
{
    for row in rows {
        add_strings_of_row(strings, row)?;
    }
    Ok(())
}

/// Adds the strings of the row at the end.
fn add_strings_of_row<'a>(strings: &mut Vec<Keyed<'a>>, row: &'a [Value]) -> Result<(), Memory>
    ensures { OnOk result (strings.new.items ≡ strings.old.items ++ strings_of_row row.now) }
{
    for value in row {
        if let Value::Str(text) = value {
            strings.push(Keyed::of(text.as_str()))?;
        }
    }
    Ok(())
}
