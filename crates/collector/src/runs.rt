//! Runs: rows in ascending order that stand side by side in a part.
ghost use Rattle.std.specs.Prelude.{◌≡◌, IfOk, IsSorted, map};
ghost use Rattle.rel_base.specs.Values.{row_order};
ghost use Rattle.collector.specs.inner.Sorted.{rows_at, reference_order};
ghost use Rattle.collector.specs.inner.Merged.{IsAscending};

use rel_base::{Memory, Rows, Value};
use std::alloc::Global;
use std::marker::Model;

/// Rows in ascending order that stand side by side in a part. Contracts see the list of the rows.
#[derive(Drop)]
pub(crate) struct Run<'s, 'a> {
    /// A view of the rows, where the part has them in order.
    view: Rows,
    /// The rows, where they are listed.
    listed: &'s [&'a [Value]],
}

impl<'s, 'a> Model for Run<'s, 'a> {
    ghost use Rattle.std.specs.Prelude.{List, IsSorted, ◌++◌};
    ghost use Rattle.rel_base.specs.declared.values.Value.{Value as Datum};
    ghost use Rattle.rel_base.specs.Values.{row_order};
    ghost use Rattle.collector.specs.inner.Sorted.{rows_at};

    ghost Value = { List (List Datum) };

    ghost view = { λ r. r.view ++ rows_at r.listed.now };

    ghost invariant = { λ r. IsSorted row_order (r.view ++ rows_at r.listed.now) };
}

impl<'s, 'a> Run<'s, 'a> {
    /// These rows, as they stand.
    pub(crate) fn of_rows(view: Rows) -> Run<'s, 'a>
        requires { IsSorted row_order view }
        ensures { result ≡ view }
    {
        Run { view, listed: &[] }
    }

    /// The rows of this list.
    pub(crate) fn of_list(alloc: Global, listed: &'s [&'a [Value]]) -> Run<'s, 'a>
        requires { IsSorted row_order (rows_at listed.now) }
        ensures { result ≡ rows_at listed.entry.now }
    {
        Run {
            view: Rows::new(alloc),
            listed,
        }
    }

    /// References to the rows, in order.
    pub(crate) fn rows(&self, alloc: Global) -> Result<Vec<&[Value]>, Memory>
        ensures rows { IfOk result (λ rows. rows_at rows.items ≡ self.now) }
        ensures ascending { IfOk result (IsAscending reference_order) }
    {
        let room = self.view.len() as usize;
        let mut rows = Vec::with_capacity(alloc, room.saturating_add(self.listed.len()))?;
        for row in &self.view {
            rows.push(row)?;
        }
        rows.extend_from_slice(self.listed)?;
        Ok(rows)
    }
}
