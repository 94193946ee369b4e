//! Rows of one shared block, by their places in it.
ghost use Rattle.std.specs.Prelude.{◌≡◌, ◌+◌, ◌-◌, ◌*◌, ◌^◌, ◌<◌, ◌≤◌, length, map, IfOk, All, slice_index_or};
ghost use Rattle.rel_base.specs.Picks.{items_at, every_nth};
ghost use Rattle.rel_base.specs.inner.RowsLeft.{rows_left};
ghost use Rattle.rel_base.specs.inner.Strides.{stepped};

use crate::blocks::Block;
use crate::row_iter::{PlacedRows, StretchIter};
use crate::strides::{copies_apart, steps_below};
use crate::{Duplicate, Memory, Value};
use std::alloc::Global;
use std::marker::Model;

/// Rows of one shared block. A row may stand more than once.
pub struct Stretch {
    block: Block,
    selection: Selection,
}

// Written out, since a derived drop is proved anew at each place where a value is let go.
impl Drop for Stretch {
    fn drop(self) {
        let Stretch {
            block: _,
            selection: _,
        } = self;
    }
}

/// Places in a block.
pub enum Selection {
    /// So many places, a step apart.
    Every { start: u32, step: u32, len: u32 },
    /// These places.
    At { places: Vec<u32> },
}

// Written out, since a derived drop is proved anew at each place where a value is let go.
impl Drop for Selection {
    fn drop(self) {
        match self {
            Selection::Every {
                start: _,
                step: _,
                len: _,
            }
            | Selection::At { places: _ } => {}
        }
    }
}

impl Model for Stretch {
    ghost use Rattle.std.specs.Prelude.{List, ◌^◌, ◌<◌, length, All};
    ghost use Rattle.rel_base.specs.declared.values.Value.{Value as Datum};
    ghost use Rattle.rel_base.specs.Picks.{items_at};
    ghost use Rattle.rel_base.specs.inner.Selections.{places_of};

    ghost Value = { List (List Datum) };

    ghost view = { λ s. items_at s.block (places_of s.selection) };

    ghost invariant = { λ s. All (λ p. p < length s.block) (places_of s.selection)
        × (length (places_of s.selection) < 2 ^ 32) };
}

impl Stretch {
    /// All rows of a block.
    pub fn whole(block: Block) -> Stretch
        ensures { result ≡ block }
    {
        let len = block.len();
        Stretch {
            block,
            selection: Selection::Every {
                start: 0,
                step: 1,
                len,
            },
        }
    }

    /// The number of rows.
    pub fn len(&self) -> u32
        ensures { result ≡ length self.now }
    {
        match &self.selection {
            Selection::Every { len, .. } => *len,
            Selection::At { places } => places.len() as u32,
        }
    }

    /// Row number `i`, from 0.
    pub fn get(&self, i: u32) -> &[Value]
        requires { i < length self.now }
        ensures { result.now ≡ slice_index_or self.now i result.now }
    {
        let _few = self.block.len();
        match &self.selection {
            Selection::Every { start, step, .. } => self.block.get(*start + *step * i),
            Selection::At { places } => self.block.get(places[i as usize]),
        }
    }

    /// The rows with these numbers, where the first row has the number `first`. No row is copied.
    pub fn at_numbers(&self, alloc: Global, first: u32, numbers: &[u32]) -> Result<Stretch, Memory>
        requires low { All (λ n. first ≤ n) numbers.now }
        requires high { All (λ n. n < first + length self.now) numbers.now }
        requires room { length numbers.now < 2 ^ 32 }
        ensures { IfOk result (λ made. made ≡ items_at self.now (map (λ n. n - first) numbers.now)) }
    {
        let block = self.block.copy(alloc)?;
        let places = self.selection.places(alloc, block.len(), first, numbers)?;
        Ok(Stretch {
            block,
            selection: Selection::At { places },
        })
    }

    /// The rows from number `from` up to but not with number `to`. No row is copied.
    pub fn slice(&self, alloc: Global, from: u32, to: u32) -> Result<Stretch, Memory>
        requires order { from < to }
        requires within { to ≤ length self.now }
        ensures { IfOk result (λ made. made ≡ items_at self.now (stepped from 1 (to - from))) }
    {
        let block = self.block.copy(alloc)?;
        let selection = self.selection.slice(alloc, block.len(), from, to)?;
        Ok(Stretch { block, selection })
    }

    /// The rows whose number, from 0, leaves the remainder `start` by the step. No row is copied,
    /// and rows that stand a step apart are a view, which takes no memory for each row.
    pub fn every_nth(&self, alloc: Global, step: u32, start: u32) -> Result<Stretch, Memory>
        requires { start < step }
        ensures { IfOk result (λ made. made ≡ every_nth self.now step start) }
    {
        let block = self.block.copy(alloc)?;
        let selection = self.selection.every_nth(alloc, block.len(), step, start)?;
        Ok(Stretch { block, selection })
    }

    /// The rows, one by one.
    pub fn iter(&self) -> StretchIter<'_>
        ensures { rows_left result ≡ self.now }
    {
        match &self.selection {
            Selection::Every { start, step, len } => {
                StretchIter::Apart(self.block.run(*start, *step, *len))
            }
            Selection::At { places } => StretchIter::At(PlacedRows::of(
                &self.block,
                places.as_slice(),
            )),
        }
    }
}

impl Selection {
    ghost use Rattle.rel_base.specs.inner.Selections.{places_of};

    /// The places, in a block of this length, of the rows with these numbers, where the first row
    /// has the number `first`.
    fn places(
        &self,
        alloc: Global,
        len: u32,
        first: u32,
        numbers: &[u32],
    ) -> Result<Vec<u32>, Memory>
        requires within { All (λ p. p < len) (places_of self.now) }
        requires low { All (λ n. first ≤ n) numbers.now }
        requires high { All (λ n. n < first + length (places_of self.now)) numbers.now }
        ensures { IfOk result (λ made. made.items
            ≡ map (λ n. slice_index_or (places_of self.now) (n - first) 0) numbers.now) }
    {
        match self {
            Selection::Every { start, step, .. } => {
                places_by_step(alloc, *start, *step, first, numbers)
            }
            Selection::At { places } => places_among(alloc, places.as_slice(), first, numbers),
        }
    }
}

impl Selection {
    ghost use Rattle.rel_base.specs.inner.Selections.{places_of};

    /// The places, in a block of this length, from number `from` up to but not with number `to`.
    fn slice(&self, alloc: Global, len: u32, from: u32, to: u32) -> Result<Selection, Memory>
        requires order { from < to }
        requires within { to ≤ length (places_of self.now) }
        requires places { All (λ p. p < len) (places_of self.now) }
        ensures { IfOk result (λ made. places_of made
            ≡ map (λ n. slice_index_or (places_of self.now) n 0) (stepped from 1 (to - from))) }
    {
        match self {
            Selection::Every { start, step, .. } => Ok(Selection::Every {
                start: *start + *step * from,
                step: *step,
                len: to - from,
            }),
            Selection::At { places } => {
                let places = Vec::from_slice(alloc, &places[from as usize..to as usize])?;
                Ok(Selection::At { places })
            }
        }
    }
}

impl Selection {
    ghost use Rattle.rel_base.specs.inner.Selections.{places_of};

    /// The places, in a block of this length, whose number leaves the remainder `start` by the
    /// step.
    fn every_nth(&self, alloc: Global, len: u32, step: u32, start: u32) -> Result<Selection, Memory>
        requires order { start < step }
        requires within { All (λ p. p < len) (places_of self.now) }
        requires room { length (places_of self.now) < 2 ^ 32 }
        ensures { IfOk result (λ made. places_of made ≡ every_nth (places_of self.now) step start) }
    {
        match self {
            // Of fewer than two places the step doesn't matter, and of none the start.
            Selection::Every {
                start: first,
                step: apart,
                len: count,
            } => Ok(Selection::Every {
                start: first.wrapping_add(apart.wrapping_mul(start)),
                step: apart.wrapping_mul(step),
                len: steps_below(*count, step, start),
            }),
            Selection::At { places } => {
                let places = copies_apart(alloc, places.as_slice(), step, start)?;
                Ok(Selection::At { places })
            }
        }
    }
}

/// The places of the rows with these numbers, where the first row has the number `first` and the
/// place `start`, and each further row stands a step behind.
fn places_by_step(
    alloc: Global,
    start: u32,
    step: u32,
    first: u32,
    numbers: &[u32],
) -> Result<Vec<u32>, Memory>
    requires low { All (λ n. first ≤ n) numbers.now }
    requires high { All (λ n. start + step * (n - first) < 2 ^ 32) numbers.now }
    ensures { IfOk result (λ made. made.items ≡ map (λ n. start + step * (n - first)) numbers.now) }
{
    let mut places = Vec::from_slice(alloc, numbers)?;
    for place in places.iter_mut() {
        *place = start + step * (*place - first);
    }
    Ok(places)
}

/// Of these places those with these numbers, where the first has the number `first`.
fn places_among(
    alloc: Global,
    among: &[u32],
    first: u32,
    numbers: &[u32],
) -> Result<Vec<u32>, Memory>
    requires low { All (λ n. first ≤ n) numbers.now }
    requires high { All (λ n. n < first + length among.now) numbers.now }
    ensures { IfOk result (λ made. made.items
        ≡ map (λ n. slice_index_or among.now (n - first) 0) numbers.now) }
{
    let mut places = Vec::from_slice(alloc, numbers)?;
    for place in places.iter_mut() {
        *place = among[(*place - first) as usize];
    }
    Ok(places)
}

/// The same rows, shared: none is copied.
impl Duplicate for Stretch {
    fn copy(&self, alloc: Global) -> Result<Stretch, Memory> {
        let block = self.block.copy(alloc)?;
        let selection = match &self.selection {
            Selection::Every { start, step, len } => Selection::Every {
                start: *start,
                step: *step,
                len: *len,
            },
            Selection::At { places } => Selection::At {
                places: Vec::from_slice(alloc, places.as_slice())?,
            },
        };
        Ok(Stretch { block, selection })
    }
}
