//! A part whose rows are in ascending order.
ghost use Rattle.std.specs.Prelude.{◌≡◌, ◌<◌, ◌≤◌, IfOk, IsSorted, length, slice_index_or, slice_range};
ghost use Rattle.rel_base.specs.Bags.{SameBag};
ghost use Rattle.rel_base.specs.Values.{row_order};
ghost use Rattle.collector.specs.inner.Sorted.{IsSortedPart};

use crate::keys::sorted_by_keys;
use crate::packing::sorted_by_numbers;
use crate::runs::Run;
use rel_base::{Memory, Rows, Value};
use std::alloc::Global;
use std::marker::Model;

/// The rows of a part in ascending order, each where it stands. Contracts see the list of these
/// rows.
#[derive(Drop)]
pub(crate) struct SortedPart<'a> {
    part: &'a Rows,
    /// The rows in order; `None` where the part itself has them so.
    listed: Option<Vec<&'a [Value]>>,
}

impl<'a> Model for SortedPart<'a> {
    ghost use Rattle.std.specs.Prelude.{List, IsSorted, ◌<◌, ◌^◌, length};
    ghost use Rattle.rel_base.specs.declared.values.Value.{Value as Datum};
    ghost use Rattle.rel_base.specs.Values.{row_order};
    ghost use Rattle.collector.specs.inner.Sorted.{rows_in};

    ghost Value = { List (List Datum) };

    ghost view = { λ p. rows_in p.part.now p.listed };

    ghost invariant = { λ p. IsSorted row_order (rows_in p.part.now p.listed)
        × (length (rows_in p.part.now p.listed) < 2 ^ 32) };
}

/// The rows of a part in ascending order: as numbers where that may be, or else by what they begin
/// with.
fn sorted_rows<'a>(alloc: Global, part: &'a Rows) -> Result<Vec<&'a [Value]>, Memory>
    ensures { IfOk result (IsSortedPart part.now) }
{
    match sorted_by_numbers(alloc, part)? {
        Some(rows) => Ok(rows),
        None => sorted_by_keys(alloc, part),
    }
}

impl<'a> SortedPart<'a> {
    /// The rows of a part in ascending order. Where they stand so already, they are only compared,
    /// each with the next, and no memory is taken.
    pub(crate) fn of(alloc: Global, part: &'a Rows) -> Result<SortedPart<'a>, Memory>
        ensures { IfOk result (SameBag part.entry.now) }
    {
        let _few = part.len();
        if part.iter().is_sorted() {
            return Ok(SortedPart { part, listed: None });
        }
        let listed = sorted_rows(alloc, part)?;
        Ok(SortedPart {
            part,
            listed: Some(listed),
        })
    }

    /// The number of rows.
    pub(crate) fn len(&self) -> u32
        ensures len { result ≡ length self.now }
        ensures ascending { IsSorted row_order self.now }
    {
        match &self.listed {
            None => self.part.len(),
            Some(rows) => rows.len() as u32,
        }
    }

    /// Row number `i`, from 0.
    pub(crate) fn get(&self, i: u32) -> &'a [Value]
        requires { i < length self.now }
        ensures { result.now ≡ slice_index_or self.now i result.now }
    {
        match &self.listed {
            None => self.part.get(i),
            Some(rows) => rows[i as usize],
        }
    }

    /// The rows from number `from` up to but not with number `to`, counted from 0.
    pub(crate) fn run(&self, alloc: Global, from: u32, to: u32) -> Result<Run<'_, 'a>, Memory>
        requires order { from ≤ to }
        requires within { to ≤ length self.now }
        ensures { IfOk result (λ run. run ≡ slice_range self.now from to) }
    {
        match &self.listed {
            None => Ok(Run::of_rows(self.part.slice(alloc, from, to)?)),
            Some(rows) => Ok(Run::of_list(alloc, &rows[from as usize..to as usize])),
        }
    }
}
