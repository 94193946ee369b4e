//! Stretches of shared rows, one after another.
ghost use Rattle.std.specs.Prelude.{◌≡◌, ◌+◌, ◌-◌, ◌^◌, ◌<◌, ◌≤◌, ◌++◌, [], length, take, map, IfOk, IfErr, OnOk, OnErr, All, slice_index_or};
ghost use Rattle.rel_base.specs.Picks.{items_at, every_nth, joined};
ghost use Rattle.rel_base.specs.inner.Starts.{AreStarts};
ghost use Rattle.rel_base.specs.inner.Strides.{stepped};

use crate::blocks::Block;
use crate::flat_rows::FlatRows;
use crate::list::copies_of;
use crate::stretches::Stretch;
use crate::strides::start_behind;
use crate::{Duplicate, Memory, Value};
use std::alloc::Global;
use std::marker::Model;

/// Shared rows, seen as the list of the rows. Each stretch has a row at least, and `starts` has
/// the number of its first.
pub struct SharedRows {
    stretches: Vec<Stretch>,
    starts: Vec<u32>,
    len: u32,
}

// Written out, since a derived drop is proved anew at each place where a value is let go.
impl Drop for SharedRows {
    fn drop(self) {
        let SharedRows {
            stretches: _,
            starts: _,
            len: _,
        } = self;
    }
}

impl Model for SharedRows {
    ghost use Rattle.std.specs.Prelude.{List, ◌≡◌, ◌<◌, length, All};
    ghost use Rattle.rel_base.specs.declared.values.Value.{Value as Datum};
    ghost use Rattle.rel_base.specs.Picks.{joined};
    ghost use Rattle.rel_base.specs.inner.Starts.{AreStarts};

    ghost Value = { List (List Datum) };

    ghost view = { λ s. joined s.stretches.items };

    ghost invariant = { λ s. (s.len ≡ length (joined s.stretches.items))
        × AreStarts s.stretches.items s.starts.items
        × All (λ rows. 0 < length rows) s.stretches.items };
}

impl SharedRows {
    /// No rows.
    pub fn new(alloc: Global) -> SharedRows
        ensures { result ≡ [] }
    {
        SharedRows {
            stretches: Vec::new(alloc),
            starts: Vec::new(alloc),
            len: 0,
        }
    }

    /// The number of rows.
    pub fn len(&self) -> u32
        ensures { result ≡ length self.now }
    {
        self.len
    }

    /// The stretches, in order.
    pub fn as_slice(&self) -> &[Stretch]
        ensures rows { joined result.now ≡ self.now }
        ensures some { All (λ rows. 0 < length rows) result.now }
    {
        self.stretches.as_slice()
    }

    /// Row number `i`, from 0.
    pub fn get(&self, i: u32) -> &[Value]
        requires { i < length self.now }
        ensures { result.now ≡ slice_index_or self.now i result.now }
    {
        let stretches = self.stretches.as_slice();
        let starts = self.starts.as_slice();
        let k = stretch_of(stretches, starts, i);
        stretches[k].get(i - starts[k])
    }

    /// Puts a stretch behind the rows. After `Memory` they are as they were.
    pub fn push(&mut self, stretch: Stretch) -> Result<(), Memory>
        requires { length self.old + length stretch < 2 ^ 32 }
        ensures ok { OnOk result (self.new ≡ self.old ++ stretch) }
        ensures err { OnErr result (self.new ≡ self.old) }
    {
        let more = stretch.len();
        if more == 0 {
            return Ok(());
        }
        self.starts.truncate(self.stretches.len());
        self.starts.push(self.len)?;
        self.stretches.push(stretch)?;
        self.len += more;
        Ok(())
    }

    /// Shares rows, behind the others. None is copied; after a refusal they come back and all is
    /// as it was.
    pub fn push_rows(&mut self, alloc: Global, rows: FlatRows) -> Result<(), FlatRows>
        requires { length self.old + length rows < 2 ^ 32 }
        ensures ok { OnOk result (self.new ≡ self.old ++ rows) }
        ensures err { OnErr result (self.new ≡ self.old) }
        ensures back { IfErr result (λ back. back ≡ rows) }
    {
        let more = rows.len();
        if more == 0 {
            return Ok(());
        }
        self.starts.truncate(self.stretches.len());
        if self.starts.push(self.len).is_err() || self.stretches.reserve(1).is_err() {
            return Err(rows);
        }
        match Block::of(alloc, rows) {
            Ok(block) => {
                if self.stretches.push(Stretch::whole(block)).is_err() {
                    unreachable!()
                }
                self.len += more;
                Ok(())
            }
            Err(refused) => Err(refused.value),
        }
    }

    /// Puts other rows behind these. After `Memory` they are as they were.
    pub fn append(&mut self, other: SharedRows) -> Result<(), Memory>
        requires { length self.old + length other < 2 ^ 32 }
        ensures ok { OnOk result (self.new ≡ self.old ++ other) }
        ensures err { OnErr result (self.new ≡ self.old) }
    {
        let SharedRows {
            mut stretches,
            starts,
            len,
        } = other;
        self.starts.truncate(self.stretches.len());
        push_later(&mut self.starts, &starts[..stretches.len()], self.len)?;
        self.stretches.append(&mut stretches)?;
        self.len += len;
        Ok(())
    }

    /// The rows at the first places, as many as stand in one stretch.
    pub fn run_at(&self, alloc: Global, places: &[u32]) -> Result<Stretch, Memory>
        requires some { 0 < length places.now }
        requires first { slice_index_or places.now 0 0 < length self.now }
        requires room { length places.now < 2 ^ 32 }
        ensures run { IfOk result (λ run. run ≡ items_at self.now (take (length run) places.now)) }
        ensures some { IfOk result (λ run. 0 < length run) }
        ensures bound { IfOk result (λ run. length run ≤ length places.now) }
        ensures within { IfOk result (λ run. All (λ p. p < length self.now) (take (length run) places.now)) }
    {
        let stretches = self.stretches.as_slice();
        let starts = self.starts.as_slice();
        let k = stretch_of(stretches, starts, places[0]);
        let stretch = &stretches[k];
        let start = starts[k];
        let count = run_length(places, start, stretch.len());
        let run = stretch.at_numbers(alloc, start, &places[..count])?;
        Ok(run)
    }

    /// The rows from number `from` on, as many before number `to` as stand in one stretch.
    pub fn run_between(&self, alloc: Global, from: u32, to: u32) -> Result<Stretch, Memory>
        requires order { from < to }
        requires first { from < length self.now }
        ensures run { IfOk result (λ run. run ≡ items_at self.now (stepped from 1 (length run))) }
        ensures some { IfOk result (λ run. 0 < length run) }
        ensures bound { IfOk result (λ run. from + length run ≤ to) }
        ensures within { IfOk result (λ run. from + length run ≤ length self.now) }
    {
        let stretches = self.stretches.as_slice();
        let starts = self.starts.as_slice();
        let k = stretch_of(stretches, starts, from);
        let stretch = &stretches[k];
        let start = starts[k];
        let end = stretch.len().min(to - start);
        let run = stretch.slice(alloc, from - start, end)?;
        Ok(run)
    }

    /// The rows whose number, from 0, leaves the remainder `start` by the step: of each stretch
    /// its own, of which none is copied.
    pub fn every_nth(&self, alloc: Global, step: u32, start: u32) -> Result<SharedRows, Memory>
        requires { start < step }
        ensures { IfOk result (λ made. made ≡ every_nth self.now step start) }
    {
        let _few = self.len();
        let mut picked = SharedRows::new(alloc);
        let mut next = start;
        for stretch in &self.stretches {
            let part = stretch.every_nth(alloc, step, next)?;
            picked.push(part)?;
            next = start_behind(stretch.len(), step, next);
        }
        Ok(picked)
    }
}

/// The same rows: none is copied.
impl Duplicate for SharedRows {
    fn copy(&self, alloc: Global) -> Result<SharedRows, Memory> {
        let stretches = copies_of(alloc, self.stretches.as_slice())?;
        let starts = Vec::from_slice(alloc, self.starts.as_slice())?;
        Ok(SharedRows {
            stretches,
            starts,
            len: self.len,
        })
    }
}

/// The number of the stretch that has row number `i`, found by halving.
fn stretch_of(stretches: &[Stretch], starts: &[u32], i: u32) -> usize
    requires starts { AreStarts stretches.now starts.now }
    requires low { i < length (joined stretches.now) }
    ensures inside { result < length stretches.now }
    ensures begins { slice_index_or starts.now result 0 ≤ i }
    ensures ends { i < slice_index_or starts.now result 0
        + length (slice_index_or stretches.now result []) }
{
    let mut low = 0;
    let mut high = stretches.len();
    while high - low > 1 {
        let middle = low + (high - low) / 2;
        if starts[middle] <= i {
            low = middle;
        } else {
            high = middle;
        }
    }
    low
}

/// Adds these numbers at the end, each this much later. After `Memory` some may be added.
fn push_later(starts: &mut Vec<u32>, more: &[u32], by: u32) -> Result<(), Memory>
    requires { All (λ start. by + start < 2 ^ 32) more.now }
    ensures ok { OnOk result (starts.new.items ≡ starts.old.items ++ map (λ start. by + start) more.now) }
    ensures kept { take (length starts.old.items) starts.new.items ≡ starts.old.items }
{
    for start in more {
        starts.push(by + *start)?;
    }
    Ok(())
}

/// How many places at the front are among so many from a start on.
pub fn run_length(places: &[u32], start: u32, len: u32) -> usize
    ensures bound { result ≤ length places.now }
    ensures low { All (λ p. start ≤ p) (take result places.now) }
    ensures high { All (λ p. p < start + len) (take result places.now) }
    ensures some { 0 < length places.now → start ≤ slice_index_or places.now 0 0
        → slice_index_or places.now 0 0 < start + len → 0 < result }
{
    let mut count = 0;
    while count < places.len() && start <= places[count] && places[count] - start < len {
        count += 1;
    }
    count
}
