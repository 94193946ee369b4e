//! Filling batches: each row's place goes to the batch of each of its cells.
ghost use Rattle.std.specs.Prelude.{◌≡◌, ◌<◌, ◌^◌, [], ◌∷◌, length, map, replicate, All, IfOk, IfSome, OnOk, slice_set};
ghost use Rattle.rel_base.specs.Picks.{items_at};
ghost use Rattle.row_exchange.specs.Routes.{AreRouted, IsRouted};
ghost use Rattle.row_exchange.specs.inner.Pairs.{times_to};
ghost use Rattle.row_exchange.specs.Exchanges.{IsSize};
ghost use Rattle.row_exchange.specs.inner.Shipments.{Gathers, no_more, pending_for, row_at, filling_of, IsFilling, IsShipment};
ghost use Rattle.row_exchange.specs.inner.Shipments.{Finishes, AddsAtom, IsFilled, AreFrom};

use crate::{Cells, Route, Size, Spreads};
use exchange_channels::Batch;
use rel_base::{Memory, Rows};
use std::alloc::Global;
use std::marker::Model;

/// Batches, each with the cell that it goes to.
pub(crate) type Shipments = Vec<(u32, Batch)>;

/// The batches that one worker fills, and the places of those rows of one atom that are not in a
/// batch yet.
#[derive(Drop)]
pub(crate) struct Filling<'a> {
    alloc: Global,
    atom: u32,
    /// The number of atoms.
    atoms: u32,
    rows: &'a Rows,
    /// The most rows of a batch.
    batch: u32,
    /// For each cell the places of rows that go there, fewer than fill a batch.
    pending: Vec<Vec<u32>>,
    filled: Shipments,
}

impl<'a> Model for Filling<'a> {
    ghost use Rattle.std.specs.Prelude.{map};
    ghost use Rattle.row_exchange.specs.inner.Shipments.{FillingState, IsFilling};

    ghost Value = { FillingState };

    ghost view = { λ f. record {
      atom = f.atom;
      atoms = f.atoms;
      rows = f.rows.now;
      batch = f.batch;
      pending = map (λ places. places.items) f.pending.items;
      filled = f.filled.items;
    } };

    ghost invariant = { λ f. IsFilling (record {
      atom = f.atom;
      atoms = f.atoms;
      rows = f.rows.now;
      batch = f.batch;
      pending = map (λ places. places.items) f.pending.items;
      filled = f.filled.items;
    }) };
}

impl<'a> Filling<'a> {
    /// Makes the places that wait for a cell a batch.
    fn flush(&mut self, cell: u32) -> Result<(), Memory>
        requires inside { cell < length self.old.pending }
        requires some { 0 < length (pending_for self.old cell) }
        ensures gathers { OnOk result (Gathers no_more 0 self.old self.new) }
        ensures pending { OnOk result (self.new.pending ≡ slice_set self.old.pending cell []) }
    {
        let places = &self.pending[cell as usize];
        let rows = rows_at(self.alloc, self.rows, places.as_slice())?;
        let atom = self.atom;
        self.filled.push((cell, Batch { atom, rows }))?;
        self.pending[cell as usize].clear();
        Ok(())
    }

    /// Makes room for one more place that waits for a cell.
    fn make_room(&mut self, cell: u32) -> Result<(), Memory>
        requires { cell < length self.old.pending }
        ensures gathers { OnOk result (Gathers no_more 0 self.old self.new) }
        ensures room { OnOk result (length (pending_for self.new cell) < self.new.batch) }
    {
        if self.pending[cell as usize].len() < self.batch as usize {
            return Ok(());
        }
        match self.flush(cell) {
            Ok(()) => Ok(()),
            Err(refused) => Err(refused),
        }
    }

    /// Notes that a row goes to a cell.
    fn put(&mut self, cell: u32, number: u32) -> Result<(), Memory>
        requires inside { cell < length self.old.pending }
        requires row { number < length self.old.rows }
        ensures { OnOk result (Gathers (λ w. times_to w (cell ∷ []) (row_at self.old number)) 1
            self.old self.new) }
    {
        self.make_room(cell)?;
        self.pending[cell as usize].push(number)?;
        Ok(())
    }

    /// Notes the cells that a row goes to.
    fn put_row(&mut self, number: u32, cells: &[u32]) -> Result<(), Memory>
        requires inside { All (λ cell. cell < length self.old.pending) cells.now }
        requires row { number < length self.old.rows }
        ensures { OnOk result (Gathers (λ w. times_to w cells.now (row_at self.old number))
            (length cells.now) self.old self.new) }
    {
        for cell in cells {
            self.put(*cell, number)?;
        }
        Ok(())
    }

    /// Makes what waits for a cell a batch, if anything waits.
    fn flush_rest(&mut self, cell: u32) -> Result<(), Memory>
        requires { cell < length self.old.pending }
        ensures gathers { OnOk result (Gathers no_more 0 self.old self.new) }
        ensures pending { OnOk result (self.new.pending ≡ slice_set self.old.pending cell []) }
    {
        if self.pending[cell as usize].is_empty() {
            return Ok(());
        }
        match self.flush(cell) {
            Ok(()) => Ok(()),
            Err(refused) => Err(refused),
        }
    }

    /// Makes all that waits batches.
    fn flush_all(&mut self) -> Result<(), Memory>
        ensures gathers { OnOk result (Gathers no_more 0 self.old self.new) }
        ensures pending { OnOk result (All (λ places. places ≡ []) self.new.pending) }
    {
        for cell in 0..self.pending.len() as u32 {
            self.flush_rest(cell)?;
        }
        Ok(())
    }
}

impl<'a> Filling<'a> {
    /// Fills from the rows of an atom, behind the batches that are there.
    fn start(
        alloc: Global,
        atom: u32,
        atoms: u32,
        rows: &'a Rows,
        size: Size,
        filled: Shipments,
    ) -> Result<Filling<'a>, Memory>
        requires atom { atom < atoms }
        requires size { IsSize size }
        requires sized { All (IsShipment size.workers atoms size.batch) filled.items }
        ensures { IfOk result (λ made.
            made ≡ filling_of atom atoms rows.now size.batch size.workers filled.items) }
    {
        let pending = empty_lists(alloc, size.workers)?;
        Ok(Filling {
            alloc,
            atom,
            atoms,
            rows,
            batch: size.batch,
            pending,
            filled,
        })
    }

    /// The batches, the last ones with fewer rows than the others may have.
    fn finish(self) -> Result<Shipments, Memory>
        ensures { IfOk result (λ made. Finishes self.entry made.items) }
    {
        let mut filling = self;
        filling.flush_all()?;
        Ok(filling.into_filled())
    }

    /// The batches alone.
    fn into_filled(self) -> Shipments
        ensures value { result.items ≡ self.entry.filled }
        ensures kept { IsFilling self.entry }
    {
        self.filled
    }
}

/// The first place, where these stand one behind another.
fn first_of_run(places: &[u32]) -> Option<u32>
    ensures { IfSome result (λ from. AreFrom from places.now) }
{
    let first = *places.first()?;
    for (i, place) in places.iter().enumerate() {
        if u64::from(*place) != u64::from(first) + i as u64 {
            return None;
        }
    }
    Some(first)
}

/// The rows at these places: a view, where they stand one behind another.
fn rows_at(alloc: Global, rows: &Rows, places: &[u32]) -> Result<Rows, Memory>
    requires within { All (λ place. place < length rows.now) places.now }
    requires some { 0 < length places.now }
    requires room { length places.now < 2 ^ 32 }
    ensures { IfOk result (λ made. made ≡ items_at rows.now places.now) }
{
    let Some(from) = first_of_run(places) else {
        return rows.at_places(alloc, places);
    };
    let behind = rows.len() - from - places.len() as u32;
    rows.slice(alloc, from, rows.len() - behind)
}

/// So many empty lists.
fn empty_lists(alloc: Global, count: u32) -> Result<Vec<Vec<u32>>, Memory>
    ensures { IfOk result (λ made. map (λ l. l.items) made.items ≡ replicate count []) }
{
    let mut lists = Vec::with_capacity(alloc, count as usize)?;
    for _list in 0..count {
        lists.push(Vec::new(alloc))?;
    }
    Ok(lists)
}

/// Makes the rows of one atom, which all go to one cell, batches behind those that are there. Each
/// batch is a view of as many rows as it may have: no row is looked at.
fn fill_for_one(
    alloc: Global,
    cell: u32,
    atom: u32,
    atoms: u32,
    rows: &Rows,
    size: Size,
    filled: Shipments,
) -> Result<Shipments, Memory>
    requires inside { 0 < length rows.now → cell < size.workers }
    requires atom { atom < atoms }
    requires size { IsSize size }
    requires sized { All (IsShipment size.workers atoms size.batch) filled.items }
    ensures { IfOk result (λ made. AddsAtom (λ _. cell ∷ [])
        size.workers atoms size.batch atom rows.now filled.items made.items) }
{
    let mut filled = filled;
    let mut from = 0;
    while from < rows.len() {
        let to = from + size.batch.min(rows.len() - from);
        let rows = rows.slice(alloc, from, to)?;
        filled.push((cell, Batch { atom, rows }))?;
        from = to;
    }
    Ok(filled)
}

/// Fills the batches of the rows of one atom, behind those that are there.
fn fill_atom<W: Route>(
    alloc: Global,
    route: &W,
    atom: u32,
    atoms: u32,
    rows: &Rows,
    size: Size,
    filled: Shipments,
) -> Result<Shipments, Memory>
    requires routed { AreRouted (W.accepts route.now atom) (W.cells route.now atom) size.workers
        rows.now }
    requires atom { atom < atoms }
    requires size { IsSize size }
    requires sized { All (IsShipment size.workers atoms size.batch) filled.items }
    ensures { IfOk result (λ made. AddsAtom (W.cells route.now atom)
        size.workers atoms size.batch atom rows.now filled.items made.items) }
{
    if let Some(cell) = route.only_cell(atom) {
        return fill_for_one(alloc, cell, atom, atoms, rows, size, filled);
    }
    let mut filling = Filling::start(alloc, atom, atoms, rows, size, filled)?;
    let mut cells = Cells::new();
    let mut number = 0;
    for row in rows.iter() {
        cells.clear();
        route.cells(atom, row, &mut cells);
        filling.put_row(number, cells.as_slice())?;
        number += 1;
    }
    filling.finish()
}

/// Fills the batches of all rows that lie at a worker.
pub(crate) fn fill<W: Route>(
    alloc: Global,
    route: &W,
    parts: &Spreads,
    worker: u32,
    size: Size,
) -> Result<Shipments, Memory>
    requires routed { IsRouted (W.accepts route.now) (W.cells route.now) size.workers parts.now }
    requires worker { worker < size.workers }
    requires size { IsSize size }
    ensures { IfOk result (λ made. IsFilled (W.cells route.now) parts.now
        size.workers size.batch worker made.items) }
{
    let mut filled = Vec::new(alloc);
    let atoms = parts.len();
    for atom in 0..atoms {
        let rows = parts.get(atom).get(worker);
        filled = fill_atom(alloc, route, atom, atoms, rows, size, filled)?;
    }
    Ok(filled)
}
