//! How many rows are stored, and how many different ones.
ghost use Rattle.std.specs.Prelude.{◌≡◌, ◌++◌, IfOk, OnOk, length, map};
ghost use Rattle.rel_base.specs.Picks.{joined};
ghost use Rattle.myrial_ast.specs.Bags.{distinct};
ghost use Rattle.output_texts.specs.Stores.{all_rows, whole_store};

use placement::{SpreadStore, SpreadStores};
use rel_base::{Memory, Rows, Value};
use std::alloc::Global;

/// All rows that are stored at workers, each where it stands.
pub(crate) fn rows_of_all(alloc: Global, stored: &SpreadStores) -> Result<Vec<&[Value]>, Memory>
    ensures { IfOk result (λ rows.
        map (λ row. row.now) rows.items ≡ all_rows (map whole_store stored.now)) }
{
    let mut all = Vec::new(alloc);
    for store in stored.as_slice() {
        add_rows_of_store(&mut all, store)?;
    }
    Ok(all)
}

/// Adds the rows of all workers that are stored under one key.
fn add_rows_of_store<'a>(all: &mut Vec<&'a [Value]>, store: &'a SpreadStore) -> Result<(), Memory>
    ensures { OnOk result (map (λ row. row.now) all.new.items
        ≡ map (λ row. row.now) all.old.items ++ joined store.now.parts) }
{
    for part in store.parts.as_slice() {
        add_rows(all, part)?;
    }
    Ok(())
}

/// Adds rows, each where it stands.
fn add_rows<'a>(all: &mut Vec<&'a [Value]>, rows: &'a Rows) -> Result<(), Memory>
    ensures { OnOk result (map (λ row. row.now) all.new.items
        ≡ map (λ row. row.now) all.old.items ++ rows.now) }
{
    for row in rows {
        all.push(row)?;
    }
    Ok(())
}

/// The number of different rows.
pub(crate) fn number_of_different(rows: Vec<&[Value]>) -> usize
    ensures { result ≡ length (distinct (map (λ row. row.now) rows.entry.items)) }
{
    let mut rows = rows;
    rows.sort_unstable();
    rows.dedup();
    rows.len()
}
