//! The relations of a trial.
ghost use Rattle.std.specs.Prelude.{◌≡◌, ◌<◌, ◌≤◌, IfOk};
ghost use Rattle.trial_gen.specs.Trials as spec;
ghost use Rattle.trial_gen.specs.Trials.{most_trial_rows, trial_columns, trial_file, trial_key};
ghost use Rattle.trial_gen.specs.Trials.{trial_rows};

use crate::numbers::{next_state, number_of};
use rel_base::{ColType, Column, Files, Key, Memory, Relation, Row, Rows, Schema, Text, Value};
use std::alloc::Global;

/// The three relations of a trial of this size: `E1`, `E2` and `E3`, each with so many rows of two
/// numbers.
pub fn trial_files(alloc: Global, size: u32) -> Result<Files, Memory>
    requires { size ≤ most_trial_rows }
    ensures { IfOk result (λ files. files ≡ spec.trial_files size) }
{
    let mut files = Files::new(alloc);
    let first = file_of(alloc, size, 1, "E1")?;
    files.push(first)?;
    let second = file_of(alloc, size, 2, "E2")?;
    files.push(second)?;
    let third = file_of(alloc, size, 3, "E3")?;
    files.push(third)?;
    Ok(files)
}

/// The relation of this number, from 1, under its key.
fn file_of(alloc: Global, size: u32, number: u32, name: &str) -> Result<(Key, Relation), Memory>
    requires size { size ≤ most_trial_rows }
    requires number { number ≤ 3 }
    ensures { IfOk result (λ file. file ≡ trial_file size number name.now) }
{
    let key = key_of(alloc, name)?;
    let columns = columns_of(alloc)?;
    let rows = rows_of(alloc, size, number)?;
    Ok((key, Relation::new(columns, rows)))
}

/// The key of a relation.
fn key_of(alloc: Global, name: &str) -> Result<Key, Memory>
    ensures { IfOk result (λ key. key ≡ trial_key name.now) }
{
    let user = Text::of(alloc, "public")?;
    let program = Text::of(alloc, "adhoc")?;
    let name = Text::of(alloc, name)?;
    Ok(Key {
        user,
        program,
        name,
    })
}

/// The columns of each relation.
fn columns_of(alloc: Global) -> Result<Schema, Memory>
    ensures { IfOk result (λ columns. columns ≡ trial_columns) }
{
    let mut columns = Schema::new(alloc);
    let name = Text::of(alloc, "a")?;
    columns.push(Column {
        name,
        kind: ColType::Int,
    })?;
    let name = Text::of(alloc, "b")?;
    columns.push(Column {
        name,
        kind: ColType::Int,
    })?;
    Ok(columns)
}

/// The rows of the relation of this number. They are shared from the start, since scans view them.
fn rows_of(alloc: Global, size: u32, number: u32) -> Result<Rows, Memory>
    requires size { size ≤ most_trial_rows }
    requires number { number ≤ 3 }
    ensures { IfOk result (λ rows. rows ≡ trial_rows size number) }
{
    let bound = size / 8 + 1;
    let mut state = u64::from(4 * size + number);
    let mut rows = Rows::with_capacity(alloc, size, 2)?;
    for _place in 0..size {
        let row = row_behind(alloc, bound, state)?;
        rows.push(row)?;
        state = next_state(next_state(state));
    }
    rows.freeze(alloc)?;
    Ok(rows)
}

/// The row of the numbers of the two states behind a state.
fn row_behind(alloc: Global, bound: u32, state: u64) -> Result<Row, Memory>
    requires { 0 < bound }
    ensures { IfOk result (λ row. row ≡ spec.row_behind bound state) }
{
    let first = next_state(state);
    let second = next_state(first);
    let mut row = Row::new(alloc);
    row.push(Value::Int(number_of(bound, first)))?;
    row.push(Value::Int(number_of(bound, second)))?;
    Ok(row)
}
