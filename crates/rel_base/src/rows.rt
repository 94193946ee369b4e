//! Rows that are shared, not copied.
ghost use Rattle.std.specs.Prelude.{◌≡◌, ◌+◌, ◌-◌, ◌^◌, ◌<◌, ◌≤◌, ◌==◌, ◌↔◌, [], ◌∷◌, ◌++◌, length, take, map, IsSome, IfOk, IfErr, IfSome, OnOk, OnErr, All, slice_index_or, slice_range};
ghost use Rattle.std.specs.Option.{option_to_list};
ghost use Rattle.rel_base.specs.Bags.{IsSortedPermutation};
ghost use Rattle.rel_base.specs.Beginnings.{BeginsWith};
ghost use Rattle.rel_base.specs.Picks.{items_at, every_nth};
ghost use Rattle.rel_base.specs.inner.Strides.{stepped};

use crate::beginnings::led_row;
use crate::blocks::Block;
use crate::flat_rows::FlatRows;
use crate::row_iter::RowIter;
use crate::shared_rows::{SharedRows, run_length};
use crate::stretches::Stretch;
use crate::strides::start_behind;
use crate::{Duplicate, Memory, Row, RowSource, Value};
use std::alloc::Global;
use std::cmp::Ordering;
use std::marker::Model;
use std::{fmt, mem};

/// Rows, in the order in which they stand; the same row may stand more than once. Contracts see
/// the list of the rows.
///
/// A list shares most of its rows with others: behind the rows of shared blocks stand rows of its
/// own, as they were pushed. What copies, views and puts together copies no row that is shared;
/// `freeze` shares the list's own rows by a move. Rows of one width stand value after value, and
/// each is lent as a slice of values.
pub struct Rows {
    shared: SharedRows,
    own: FlatRows,
}

// Written out, since a derived drop is proved anew at each place where a value is let go.
impl Drop for Rows {
    fn drop(self) {
        let Rows { shared: _, own: _ } = self;
    }
}

impl Model for Rows {
    ghost use Rattle.std.specs.Prelude.{List, ◌++◌, ◌^◌, ◌<◌, length};
    ghost use Rattle.rel_base.specs.declared.values.Value.{Value as Datum};

    ghost Value = { List (List Datum) };

    ghost view = { λ r. r.shared ++ r.own };

    ghost invariant = { λ r. length (r.shared ++ r.own) < 2 ^ 32 };
}

impl Rows {
    /// The most rows that a list holds.
    pub const MOST: u32 = u32::MAX;

    /// No rows, which takes no memory until the first row comes.
    pub fn new(alloc: Global) -> Rows
        ensures { result ≡ [] }
    {
        Rows {
            shared: SharedRows::new(alloc),
            own: FlatRows::new(alloc),
        }
    }

    /// No rows, with room for so many of so many values.
    pub fn with_capacity(alloc: Global, room: u32, width: u32) -> Result<Rows, Memory>
        ensures { IfOk result (λ made. made ≡ []) }
    {
        let own = FlatRows::with_capacity(alloc, room, width)?;
        Ok(Rows {
            shared: SharedRows::new(alloc),
            own,
        })
    }

    /// The rows of a stretch, none of which is copied.
    fn of_stretch(alloc: Global, stretch: Stretch) -> Result<Rows, Memory>
        requires { length stretch < 2 ^ 32 }
        ensures { IfOk result (λ made. made ≡ stretch) }
    {
        let mut rows = Rows::new(alloc);
        rows.shared.push(stretch)?;
        Ok(rows)
    }

    /// The number of rows.
    pub fn len(&self) -> u32
        ensures { result ≡ length self.now }
    {
        self.shared.len() + self.own.len()
    }

    /// Whether there is no row.
    pub fn is_empty(&self) -> bool
        ensures { result ≡ (length self.now == 0) }
    {
        self.len() == 0
    }

    /// Row number `i`, from 0. To go over all rows take `iter`, which searches none.
    pub fn get(&self, i: u32) -> &[Value]
        requires { i < length self.now }
        ensures { result.now ≡ slice_index_or self.now i result.now }
    {
        let shared = self.shared.len();
        if i >= shared {
            return self.own.get(i - shared);
        }
        self.shared.get(i)
    }

    /// The rows, one by one.
    pub fn iter(&self) -> RowIter<'_>
        ensures value { result ≡ self.now }
        ensures bound { length self.now < 2 ^ 32 }
    {
        RowIter::of(self.shared.as_slice(), self.own.all())
    }

    /// Adds a row at the end. After `Memory` the list is as it was, and the row is let go.
    #[inline(always)]
    pub fn push(&mut self, row: Row) -> Result<(), Memory>
        requires { length self.old < 2 ^ 32 - 1 }
        ensures ok { OnOk result (self.new ≡ self.old ++ row ∷ []) }
        ensures err { OnErr result (self.new ≡ self.old) }
    {
        let mut row = row;
        self.push_from(&mut row)
    }

    /// Moves the values of a row to the end, as a row, so that none is left there; memory that it
    /// has is kept for the next one. After `Memory` all is as it was.
    #[inline(always)]
    pub fn push_from(&mut self, row: &mut Row) -> Result<(), Memory>
        requires { length self.old < 2 ^ 32 - 1 }
        ensures ok { OnOk result (self.new ≡ self.old ++ row.old ∷ []) }
        ensures none { OnOk result (row.new ≡ []) }
        ensures err { OnErr result (self.new ≡ self.old) }
        ensures kept { OnErr result (row.new ≡ row.old) }
    {
        if !self.own.takes(row.len()) {
            share(row.alloc(), &mut self.shared, &mut self.own)?;
        }
        self.own.push(row)
    }

    /// Adds the row that a source makes at the end, where it is to stand. After a fault the list is
    /// as it was.
    #[inline(always)]
    pub fn push_made<S: RowSource>(&mut self, alloc: Global, source: &S) -> Result<(), S::Fault>
        requires { length self.old < 2 ^ 32 - 1 }
        ensures ok { OnOk result (self.new ≡ self.old ++ S.values source.now ∷ []) }
        ensures made { OnOk result (S.is_made source.now) }
        ensures err { OnErr result (self.new ≡ self.old) }
        ensures fault { IfErr result (λ fault. S.is_fault source.now fault) }
    {
        if !self.own.takes(source.width()) {
            let shared = share(alloc, &mut self.shared, &mut self.own);
            if shared.is_err() {
                return Err(source.refused());
            }
        }
        self.own.push_made(source)
    }

    /// Puts the rows in ascending order. No value is copied or moved: the rows are shared, and
    /// their order is kept. After `Memory` the list is as it was.
    pub fn sort(&mut self, alloc: Global) -> Result<(), Memory>
        ensures ok { OnOk result (IsSortedPermutation self.old self.new) }
        ensures err { OnErr result (self.new ≡ self.old) }
    {
        self.freeze(alloc)?;
        *self = sorted_view(alloc, self)?;
        Ok(())
    }

    /// Takes the last row, of which it makes a copy; `None` where the list is empty. The rows
    /// before it are shared from then on. After `Memory` the list is as it was.
    pub fn pop(&mut self, alloc: Global) -> Result<Option<Row>, Memory>
        ensures items { IfOk result (λ last. self.old ≡ self.new ++ option_to_list last) }
        ensures some { IfOk result (λ last. IsSome last ↔ (0 < length self.old)) }
        ensures err { OnErr result (self.new ≡ self.old) }
    {
        let Some(last) = self.len().checked_sub(1) else {
            return Ok(None);
        };
        let row = Row::from_slice(alloc, self.get(last))?;
        self.freeze(alloc)?;
        *self = self.slice(alloc, 0, last)?;
        Ok(Some(row))
    }

    /// Makes all rows shared: none is copied. After `Memory` too the list is as it was.
    pub fn freeze(&mut self, alloc: Global) -> Result<(), Memory>
        ensures { self.new ≡ self.old }
    {
        share(alloc, &mut self.shared, &mut self.own)
    }

    /// The rows at these places, from 0. No row that is shared is copied.
    pub fn at_places(&self, alloc: Global, places: &[u32]) -> Result<Rows, Memory>
        requires within { All (λ p. p < length self.now) places.now }
        requires room { length places.now < 2 ^ 32 }
        ensures { IfOk result (λ made. made ≡ items_at self.now places.now) }
    {
        if let Some(only) = self.only_stretch() {
            let made = Rows::of_stretch(alloc, only.at_numbers(alloc, 0, places)?)?;
            return Ok(made);
        }
        let mut picked = SharedRows::new(alloc);
        let mut done = 0;
        while done < places.len() {
            let run = self.run_at(alloc, &places[done..])?;
            done += run.len() as usize;
            picked.push(run)?;
        }
        Ok(Rows {
            shared: picked,
            own: FlatRows::new(alloc),
        })
    }

    /// The rows from number `from` up to but not with number `to`, counted from 0. They are a
    /// view: each stretch takes memory for itself alone, or four bytes a row where its rows don't
    /// stand a step apart. No row that is shared is copied.
    pub fn slice(&self, alloc: Global, from: u32, to: u32) -> Result<Rows, Memory>
        requires order { from ≤ to }
        requires within { to ≤ length self.now }
        ensures { IfOk result (λ made. made ≡ slice_range self.now from to) }
    {
        let mut picked = SharedRows::new(alloc);
        let mut reached = from;
        while reached < to {
            let run = self.run_between(alloc, reached, to)?;
            reached += run.len();
            picked.push(run)?;
        }
        Ok(Rows {
            shared: picked,
            own: FlatRows::new(alloc),
        })
    }

    /// The rows whose number, from 0, leaves the remainder `start` by the step. They are a view:
    /// each stretch takes memory for itself alone, or four bytes a row where its rows don't stand
    /// a step apart. No row that is shared is copied.
    pub fn every_nth(&self, alloc: Global, step: u32, start: u32) -> Result<Rows, Memory>
        requires { start < step }
        ensures { IfOk result (λ made. made ≡ every_nth self.now step start) }
    {
        let mut shared = self.shared.every_nth(alloc, step, start)?;
        let next = start_behind(self.shared.len(), step, start);
        let mut own = self.own.copies_apart(alloc, step, next)?;
        share(alloc, &mut shared, &mut own)?;
        Ok(Rows { shared, own })
    }

    /// The stretch, where all rows stand in one.
    fn only_stretch(&self) -> Option<&Stretch>
        ensures { IfSome result (λ stretch. stretch.now ≡ self.now) }
    {
        if self.own.len() > 0 {
            return None;
        }
        match self.shared.as_slice() {
            [only] => Some(only),
            _ => None,
        }
    }

    /// The rows at the first places, as many as stand in one stretch.
    fn run_at(&self, alloc: Global, places: &[u32]) -> Result<Stretch, Memory>
        requires within { All (λ p. p < length self.now) places.now }
        requires some { 0 < length places.now }
        requires room { length places.now < 2 ^ 32 }
        ensures run { IfOk result (λ run. run ≡ items_at self.now (take (length run) places.now)) }
        ensures some { IfOk result (λ run. 0 < length run) }
        ensures bound { IfOk result (λ run. length run ≤ length places.now) }
    {
        let first = self.shared.len();
        if places[0] < first {
            let run = self.shared.run_at(alloc, places)?;
            return Ok(run);
        }
        let count = run_length(places, first, self.own.len());
        let copies = self.own.copies_at(alloc, first, &places[..count])?;
        let block = Block::of(alloc, copies)?;
        Ok(Stretch::whole(block))
    }

    /// The rows from number `from` on, as many before number `to` as stand in one stretch.
    fn run_between(&self, alloc: Global, from: u32, to: u32) -> Result<Stretch, Memory>
        requires order { from < to }
        requires within { to ≤ length self.now }
        ensures run { IfOk result (λ run. run ≡ items_at self.now (stepped from 1 (length run))) }
        ensures some { IfOk result (λ run. 0 < length run) }
        ensures bound { IfOk result (λ run. from + length run ≤ to) }
    {
        let first = self.shared.len();
        if from < first {
            let run = self.shared.run_between(alloc, from, to)?;
            return Ok(run);
        }
        let copies = self.own.copies_between(alloc, from - first, to - first)?;
        let block = Block::of(alloc, copies)?;
        Ok(Stretch::whole(block))
    }

    /// Puts other rows behind these. No row is copied or moved. After `Memory` the list is as it
    /// was.
    pub fn append(&mut self, alloc: Global, other: Rows) -> Result<(), Memory>
        requires { length self.old + length other < 2 ^ 32 }
        ensures ok { OnOk result (self.new ≡ self.old ++ other) }
        ensures err { OnErr result (self.new ≡ self.old) }
    {
        let Rows { shared, own } = other;
        share(alloc, &mut self.shared, &mut self.own)?;
        self.shared.append(shared)?;
        self.own = own;
        Ok(())
    }
}

/// The same rows. Shared rows stay shared; each row of the list's own is copied.
impl Duplicate for Rows {
    fn copy(&self, alloc: Global) -> Result<Rows, Memory> {
        let shared = self.shared.copy(alloc)?;
        let own = self.own.copies_between(alloc, 0, self.own.len())?;
        Ok(Rows { shared, own })
    }
}

impl<'a> IntoIterator for &'a Rows {
    type Item = &'a [Value];

    type IntoIter = RowIter<'a>;

    ghost into_iter_gives = { λ rows it. it ≡ rows.now };

    fn into_iter(self) -> RowIter<'a> {
        self.iter()
    }
}

/// The rows in ascending order, each where it stands.
fn sorted_view(alloc: Global, rows: &Rows) -> Result<Rows, Memory>
    ensures { IfOk result (λ made. IsSortedPermutation rows.now made) }
{
    let mut numbered = numbered_rows(alloc, rows)?;
    numbered.sort_unstable();
    let numbers = numbers_of(alloc, numbered.as_slice())?;
    let made = rows.at_places(alloc, numbers.as_slice())?;
    Ok(made)
}

/// A row behind what it begins with, and its number. Most of them compare without a look at the
/// row.
type NumberedRow<'a> = (u8, i64, &'a [Value], u32);

/// Each row, with what it begins with and its number.
fn numbered_rows(alloc: Global, rows: &Rows) -> Result<Vec<NumberedRow<'_>>, Memory>
    ensures rows { IfOk result (λ made. map (λ e. e.2.now) made.items ≡ rows.now) }
    ensures few { IfOk result (λ made. length made.items < 2 ^ 32) }
    ensures numbered { IfOk result
        (λ made. All (λ e. items_at rows.now (e.3 ∷ []) ≡ e.2.now ∷ []) made.items) }
    ensures leading { IfOk result (λ made. All (λ e. BeginsWith e.2.now e.0 e.1) made.items) }
{
    let mut numbered = Vec::with_capacity(alloc, rows.len() as usize)?;
    for row in rows {
        let item = numbered_row(row, numbered.len() as u32);
        numbered.push(item)?;
    }
    Ok(numbered)
}

/// A row with its number, behind what it begins with.
fn numbered_row(row: &[Value], number: u32) -> NumberedRow<'_>
    ensures leading { BeginsWith row.now result.0 result.1 }
    ensures row { result.2.now ≡ row.now }
    ensures number { result.3 ≡ number }
{
    let (rank, first, row) = led_row(row);
    (rank, first, row, number)
}

/// The numbers of rows, without the rows.
fn numbers_of(alloc: Global, numbered: &[NumberedRow<'_>]) -> Result<Vec<u32>, Memory>
    ensures { IfOk result (λ made. made.items ≡ map (λ e. e.3) numbered.now) }
{
    let mut numbers = Vec::with_capacity(alloc, numbered.len())?;
    for (_, _, _, number) in numbered {
        numbers.push(*number)?;
    }
    Ok(numbers)
}

/// Shares the own rows, behind the others. After `Memory` all is as it was.
fn share(alloc: Global, shared: &mut SharedRows, own: &mut FlatRows) -> Result<(), Memory>
    requires { length shared.old + length own.old < 2 ^ 32 }
    ensures ok { OnOk result ((shared.new ≡ shared.old ++ own.old) × (own.new ≡ [])) }
    ensures err { OnErr result ((shared.new ≡ shared.old) × (own.new ≡ own.old)) }
{
    let rows = mem::replace(own, FlatRows::new(alloc));
    match shared.push_rows(alloc, rows) {
        Ok(()) => Ok(()),
        Err(rows) => {
            *own = rows;
            Err(Memory)
        }
    }
}

impl Rows {
    ghost use Rattle.rel_base.specs.Values.{rows_order};

    /// How the lists compare, row by row.
    fn compared(&self, other: &Rows) -> Ordering
        ensures { result ≡ rows_order self.now other.now }
    {
        let mut others = other.iter();
        for row in self {
            let Some(other) = others.next() else {
                return Ordering::Greater;
            };
            let order = row.cmp(&other);
            if order.is_ne() {
                return order;
            }
        }
        match others.next() {
            Some(_) => Ordering::Less,
            None => Ordering::Equal,
        }
    }
}

impl PartialEq for Rows {
    ghost use Rattle.std.specs.Cmp.{eq_by_cmp_equiv, partial_equiv_from_equiv};
    ghost use Rattle.std.specs.Ordering.{eq_by_cmp};
    ghost use Rattle.rel_base.specs.Values.{rows_order};
    ghost use Rattle.rel_base.specs.ValueLaws.{rows_order_total};

    ghost eq = { eq_by_cmp rows_order };

    ghost laws = { partial_equiv_from_equiv (eq_by_cmp_equiv rows_order_total) };

    fn eq(&self, other: &Rows) -> bool {
        self.compared(other).is_eq()
    }
}

impl Eq for Rows {
    ghost use Rattle.std.specs.Cmp.{eq_by_cmp_equiv};
    ghost use Rattle.rel_base.specs.ValueLaws.{rows_order_total};

    ghost laws = { eq_by_cmp_equiv rows_order_total };
}

impl PartialOrd for Rows {
    ghost use Rattle.std.specs.Cmp.{partial_order_from_total};
    ghost use Rattle.std.specs.Ordering.{as_partial_cmp};
    ghost use Rattle.rel_base.specs.Values.{rows_order};
    ghost use Rattle.rel_base.specs.ValueLaws.{rows_order_total};

    ghost partial_cmp = { as_partial_cmp rows_order };

    ghost laws = { partial_order_from_total rows_order_total };

    fn partial_cmp(&self, other: &Rows) -> Option<Ordering> {
        Some(self.compared(other))
    }
}

impl Ord for Rows {
    ghost use Rattle.std.specs.Prelude.{refl};
    ghost use Rattle.rel_base.specs.Values.{rows_order};
    ghost use Rattle.rel_base.specs.ValueLaws.{rows_order_total};

    ghost cmp = { rows_order };

    ghost total = { rows_order_total };

    ghost matches_partial_cmp = { λ r s. refl };

    ghost matches_eq = { λ r s. refl };

    fn cmp(&self, other: &Rows) -> Ordering {
        self.compared(other)
    }
}

impl fmt::Debug for Rows {
    fn fmt<W: fmt::Write>(&self, f: &mut fmt::Formatter<W>) -> fmt::Result {
        f.debug_list().entries(self).finish()
    }
}
