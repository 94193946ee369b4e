//! A text that grows by what a run prints, and the pieces in which it is offered.
ghost use Rattle.std.specs.Prelude.{◌≡◌, ◌++◌, [], All, OnOk, map};
ghost use Rattle.std.specs.List.{flat_map};
ghost use Rattle.rel_base.specs.Picks.{joined};
ghost use Rattle.rel_io.specs.Sinks.{Offers, written_of};

use crate::blocks::Block;
use crate::counting::{number_of_different, rows_of_all};
use crate::jobs::{blocks_of_ranges, jobs_for};
use algebra::{PlanNotes, TrafficNotes};
use collector::{RowRange, sort_parts};
use placement::{SpreadStore, SpreadStores};
use rel_base::{Key, Memory, Relation, Schema, Stored};
use rel_io::{Sink, SinkFault};
use std::alloc::Global;
use std::marker::Model;
use std::mem;
use std::sync::Wait;
use std::thread::Threads;

/// A text, and where it is cut into pieces. Contracts see the text.
///
/// After `Memory` a call has left what was there, and a part of what was to be added.
pub struct Pieces {
    // The blocks that stand before the last one.
    front: Vec<Block>,
    // The block that grows.
    last: Block,
}

// Written out, since a derived drop is proved anew at each place where a value is let go.
impl Drop for Pieces {
    fn drop(self) {
        let Pieces { front: _, last: _ } = self;
    }
}

impl Model for Pieces {
    ghost use Rattle.std.specs.Prelude.{List, ℕ, ◌++◌};
    ghost use Rattle.rel_base.specs.Picks.{joined};

    ghost Value = { List ℕ };

    ghost view = { λ p. joined p.front.items ++ p.last };
}

impl Pieces {
    ghost use Rattle.plan_printer.specs.PlanTexts.{plan_text};
    ghost use Rattle.plan_printer.specs.TrafficTexts.{IsWhole, traffic_text};
    ghost use Rattle.relation_csv.specs.RecordTexts.{header_record, row_record};
    ghost use Rattle.output_texts.specs.inner.Ranges.{ranges_text};
    ghost use Rattle.output_texts.specs.OutputText.{output_text, relation_lines, relation_text};
    ghost use Rattle.output_texts.specs.OutputText.{store_line};
    ghost use Rattle.output_texts.specs.Stores.{all_rows, whole_store};
    ghost use Rattle.output_texts.specs.TrialText.{distinct_line, rows_line, size_line, trial_text};

    /// No text, which takes no memory until some is added.
    pub fn new(alloc: Global) -> Pieces
        ensures { result ≡ [] }
    {
        Pieces {
            front: Vec::new(alloc),
            last: Block::new(alloc),
        }
    }

    /// Adds the text of what is stored at workers, one relation after another: of each its line,
    /// its header, and the rows of all workers in ascending order, each a piece. No row is copied.
    /// The text of many rows is made in jobs, at most one for each worker, and is the same for
    /// every number of them. It may wait as long as its threads do.
    pub fn add_stored<R: Threads + Wait + Sync>(
        &mut self,
        rt: &R,
        alloc: Global,
        stored: &SpreadStores,
    ) -> Result<(), Memory>
        ensures { OnOk result (self.new ≡ self.old ++ output_text (map whole_store stored.now)) }
    {
        for store in stored.as_slice() {
            self.add_store(rt, alloc, store)?;
        }
        Ok(())
    }

    /// Adds the text of relations, one after another: of each its line, its header, and its rows as
    /// they stand, each a piece.
    pub fn add_relations(&mut self, alloc: Global, stored: &Stored) -> Result<(), Memory>
        ensures { OnOk result (self.new ≡ self.old ++ flat_map relation_lines stored.now) }
    {
        for (key, relation) in stored.as_slice() {
            self.add_relation(alloc, key, relation)?;
        }
        Ok(())
    }

    /// Adds the text of a plan, a piece for each line.
    pub fn add_plan(&mut self, notes: &PlanNotes) -> Result<(), Memory>
        ensures { OnOk result (self.new ≡ self.old ++ plan_text notes.now) }
    {
        self.last.add_plan(notes)
    }

    /// Adds the text of the traffic, a piece for each line.
    pub fn add_traffic(&mut self, notes: &TrafficNotes) -> Result<(), Memory>
        requires { All IsWhole notes.now }
        ensures { OnOk result (self.new ≡ self.old ++ traffic_text notes.now) }
    {
        self.last.add_traffic(notes)
    }

    /// Adds a line, with its line feed, as a piece.
    pub fn add_line(&mut self, line: &[u8]) -> Result<(), Memory>
        ensures { OnOk result (self.new ≡ self.old ++ line.now) }
    {
        self.last.add_line(line)
    }

    /// Adds the text of a trial of this size: the numbers of rows and of different rows among all
    /// that is stored at workers, a piece for each line.
    pub fn add_trial(
        &mut self,
        alloc: Global,
        size: u32,
        stored: &SpreadStores,
    ) -> Result<(), Memory>
        ensures { OnOk result
            (self.new ≡ self.old ++ trial_text size (all_rows (map whole_store stored.now))) }
    {
        let rows = rows_of_all(alloc, stored)?;
        let count = rows.len();
        let different = number_of_different(rows);
        self.add_counts(alloc, size, count, different)
    }

    /// Adds the lines of a trial of this size, with so many rows and so many different ones.
    fn add_counts(
        &mut self,
        alloc: Global,
        size: u32,
        rows: usize,
        different: usize,
    ) -> Result<(), Memory>
        ensures { OnOk result
            (self.new ≡ self.old ++ size_line size ++ rows_line rows ++ distinct_line different) }
    {
        self.last.add_counts(alloc, size, rows, different)
    }

    /// Adds the text of what is stored under a key, at workers.
    fn add_store<R: Threads + Wait + Sync>(
        &mut self,
        rt: &R,
        alloc: Global,
        store: &SpreadStore,
    ) -> Result<(), Memory>
        ensures { OnOk result (self.new ≡ self.old ++ relation_text (whole_store store.now)) }
    {
        let sorted = sort_parts(rt, alloc, &store.parts)?;
        let rows = sorted.len();
        self.add_store_line(alloc, &store.key, rows)?;
        self.add_header(&store.schema)?;
        let ranges = sorted.ranges(alloc)?;
        let jobs = jobs_for(rows, store.parts.as_slice().len());
        self.add_ranges(rt, alloc, &ranges, rows, jobs)
    }

    /// Adds the text of a relation under a key, its rows as they stand.
    fn add_relation(&mut self, alloc: Global, key: &Key, relation: &Relation) -> Result<(), Memory>
        ensures { OnOk result (self.new ≡ self.old ++ relation_lines (key.now, relation.now)) }
    {
        self.last.add_relation(alloc, key, relation)
    }

    /// Adds the line over a stored relation of so many rows.
    fn add_store_line(&mut self, alloc: Global, key: &Key, rows: usize) -> Result<(), Memory>
        ensures { OnOk result (self.new ≡ self.old ++ store_line key.now rows) }
    {
        self.last.add_store_line(alloc, key, rows)
    }

    /// Adds the header of a relation, as a piece.
    fn add_header(&mut self, schema: &Schema) -> Result<(), Memory>
        ensures { OnOk result (self.new ≡ self.old ++ header_record schema.now) }
    {
        self.last.add_header(schema)
    }

    /// Adds ranges of rows, each row a piece. They have about so many rows, and so many jobs make
    /// their text.
    fn add_ranges<R: Threads + Sync>(
        &mut self,
        rt: &R,
        alloc: Global,
        ranges: &[RowRange<'_, '_>],
        rows: usize,
        jobs: usize,
    ) -> Result<(), Memory>
        ensures { OnOk result (self.new ≡ self.old ++ ranges_text ranges.now) }
    {
        if jobs <= 1 {
            return self.last.add_ranges(alloc, ranges, rows);
        }
        let blocks = blocks_of_ranges(rt, alloc, ranges, rows, jobs)?;
        self.add_blocks(alloc, blocks)
    }

    /// Adds blocks, as they are. What is added from then on begins a new one.
    fn add_blocks(&mut self, alloc: Global, blocks: Vec<Block>) -> Result<(), Memory>
        ensures { OnOk result (self.new ≡ self.old ++ joined blocks.items) }
    {
        let mut blocks = blocks;
        self.front.reserve(blocks.len().saturating_add(1))?;
        let last = mem::replace(&mut self.last, Block::new(alloc));
        self.front.push(last)?;
        self.front.append(&mut blocks)?;
        Ok(())
    }

    /// Offers piece after piece, each until the sink has taken it whole.
    pub fn print<O: Sink>(&self, out: &mut O) -> Result<(), SinkFault>
        ensures { Offers (written_of O.Sink out.old out.new) self.now result }
    {
        for block in &self.front {
            block.print(out)?;
        }
        self.last.print(out)
    }
}
