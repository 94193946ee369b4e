//! A part of a text, and the pieces in which it is offered.
ghost use Rattle.std.specs.Prelude.{◌≡◌, ◌++◌, ◌≤◌, [], All, IfOk, OnOk, length};
ghost use Rattle.std.specs.List.{flat_map};
ghost use Rattle.rel_io.specs.Sinks.{Offers, written_of};

use algebra::{PlanNotes, TrafficNotes};
use collector::RowRange;
use plan_printer::{print_plan, print_traffic};
use rel_base::{Key, Memory, Relation, Schema, Value};
use rel_io::{Sink, SinkFault, offer};
use relation_csv::{header_text, row_text};
use std::alloc::Global;
use std::marker::Model;

/// A part of a text, and where it is cut into pieces. Contracts see the text.
///
/// After `Memory` a call has left what was there, and a part of what it was to add.
pub(crate) struct Block {
    text: Vec<u8>,
    // The length of each piece, from the front on. What is left behind them is a piece too.
    lengths: Vec<usize>,
}

// Written out, since a derived drop is proved anew at each place where a value is let go.
impl Drop for Block {
    fn drop(self) {
        let Block {
            text: _,
            lengths: _,
        } = self;
    }
}

impl Model for Block {
    ghost use Rattle.std.specs.Prelude.{List, ℕ};

    ghost Value = { List ℕ };

    ghost view = { λ b. b.text.items };
}

impl Block {
    ghost use Rattle.plan_printer.specs.PlanTexts.{plan_text};
    ghost use Rattle.plan_printer.specs.TrafficTexts.{IsWhole, traffic_text};
    ghost use Rattle.relation_csv.specs.RecordTexts.{header_record, row_record};
    ghost use Rattle.output_texts.specs.inner.Ranges.{ranges_text};
    ghost use Rattle.output_texts.specs.OutputText.{relation_lines, store_line};
    ghost use Rattle.output_texts.specs.TrialText.{distinct_line, rows_line, size_line};

    /// No text, which takes no memory until some is added.
    pub(crate) fn new(alloc: Global) -> Block
        ensures { result ≡ [] }
    {
        Block {
            text: Vec::new(alloc),
            lengths: Vec::new(alloc),
        }
    }

    /// The text of ranges of rows, each row a piece. They have about so many rows.
    pub(crate) fn of_ranges(
        alloc: Global,
        ranges: &[RowRange<'_, '_>],
        rows: usize,
    ) -> Result<Block, Memory>
        ensures { IfOk result (λ block. block ≡ ranges_text ranges.now) }
    {
        let mut block = Block::new(alloc);
        block.add_ranges(alloc, ranges, rows)?;
        Ok(block)
    }

    /// Adds the text of a plan, a piece for each line.
    pub(crate) fn add_plan(&mut self, notes: &PlanNotes) -> Result<(), Memory>
        ensures { OnOk result (self.new ≡ self.old ++ plan_text notes.now) }
    {
        let start = self.text.len();
        print_plan(notes, &mut self.text)?;
        self.cut_lines(start)
    }

    /// Adds the text of the traffic, a piece for each line.
    pub(crate) fn add_traffic(&mut self, notes: &TrafficNotes) -> Result<(), Memory>
        requires { All IsWhole notes.now }
        ensures { OnOk result (self.new ≡ self.old ++ traffic_text notes.now) }
    {
        let start = self.text.len();
        print_traffic(notes, &mut self.text)?;
        self.cut_lines(start)
    }

    /// Adds the lines of a trial of this size, with so many rows and so many different ones.
    pub(crate) fn add_counts(
        &mut self,
        alloc: Global,
        size: u32,
        rows: usize,
        different: usize,
    ) -> Result<(), Memory>
        ensures { OnOk result
            (self.new ≡ self.old ++ size_line size ++ rows_line rows ++ distinct_line different) }
    {
        let line = format!(in alloc; "-- trial size {size}\n")?;
        self.add_line(line.as_bytes())?;
        let line = format!(in alloc; "-- rows {rows}\n")?;
        self.add_line(line.as_bytes())?;
        let line = format!(in alloc; "-- distinct {different}\n")?;
        self.add_line(line.as_bytes())
    }

    /// Adds the text of a relation under a key, its rows as they stand.
    pub(crate) fn add_relation(
        &mut self,
        alloc: Global,
        key: &Key,
        relation: &Relation,
    ) -> Result<(), Memory>
        ensures { OnOk result (self.new ≡ self.old ++ relation_lines (key.now, relation.now)) }
    {
        let rows = relation.rows();
        self.add_store_line(alloc, key, rows.len() as usize)?;
        self.add_header(relation.schema())?;
        for row in rows {
            self.add_row(row)?;
        }
        Ok(())
    }

    /// Adds the line over a stored relation of so many rows.
    pub(crate) fn add_store_line(
        &mut self,
        alloc: Global,
        key: &Key,
        rows: usize,
    ) -> Result<(), Memory>
        ensures { OnOk result (self.new ≡ self.old ++ store_line key.now rows) }
    {
        let line = format!(in alloc; "-- store {key} {rows} rows\n")?;
        self.add_line(line.as_bytes())
    }

    /// Adds a line, as a piece.
    pub(crate) fn add_line(&mut self, line: &[u8]) -> Result<(), Memory>
        ensures { OnOk result (self.new ≡ self.old ++ line.now) }
    {
        self.text.extend_from_slice(line)?;
        self.lengths.push(line.len())?;
        Ok(())
    }

    /// Adds the header of a relation, as a piece.
    pub(crate) fn add_header(&mut self, schema: &Schema) -> Result<(), Memory>
        ensures { OnOk result (self.new ≡ self.old ++ header_record schema.now) }
    {
        let start = self.text.len();
        header_text(schema, &mut self.text)?;
        self.cut(start)
    }

    /// Adds ranges of rows, each row a piece. They have about so many rows.
    pub(crate) fn add_ranges(
        &mut self,
        alloc: Global,
        ranges: &[RowRange<'_, '_>],
        rows: usize,
    ) -> Result<(), Memory>
        ensures { OnOk result (self.new ≡ self.old ++ ranges_text ranges.now) }
    {
        self.make_room(rows)?;
        for range in ranges {
            self.add_range(alloc, range)?;
        }
        Ok(())
    }

    /// Adds the rows of a range, each a piece.
    fn add_range(&mut self, alloc: Global, range: &RowRange<'_, '_>) -> Result<(), Memory>
        ensures { OnOk result (self.new ≡ self.old ++ flat_map row_record range.now) }
    {
        let rows = range.rows(alloc)?;
        self.add_rows(&rows)
    }

    /// Adds rows as they stand, each a piece.
    fn add_rows(&mut self, rows: &[&[Value]]) -> Result<(), Memory>
        ensures { OnOk result
            (self.new ≡ self.old ++ flat_map (λ row. row_record row.now) rows.now) }
    {
        for row in rows {
            self.add_row(row)?;
        }
        Ok(())
    }

    /// Makes room for the lengths of so many pieces more.
    fn make_room(&mut self, pieces: usize) -> Result<(), Memory>
        ensures { self.new ≡ self.old }
    {
        self.lengths.reserve(pieces)?;
        Ok(())
    }

    /// Adds a row, as a piece.
    fn add_row(&mut self, row: &[Value]) -> Result<(), Memory>
        ensures { OnOk result (self.new ≡ self.old ++ row_record row.now) }
    {
        let start = self.text.len();
        row_text(row, &mut self.text)?;
        self.cut(start)
    }

    /// Makes a piece of the text from a place on.
    fn cut(&mut self, start: usize) -> Result<(), Memory>
        ensures { self.new ≡ self.old }
    {
        self.lengths.push(self.text.len().saturating_sub(start))?;
        Ok(())
    }

    /// Makes a piece of each line of the text from a place on.
    fn cut_lines(&mut self, start: usize) -> Result<(), Memory>
        requires { start ≤ length self.old }
        ensures { self.new ≡ self.old }
    {
        for line in self.text[start..].split_inclusive(|byte| *byte == b'\n') {
            self.lengths.push(line.len())?;
        }
        Ok(())
    }

    /// Offers piece after piece, each until the sink has taken it whole.
    pub(crate) fn print<O: Sink>(&self, out: &mut O) -> Result<(), SinkFault>
        ensures { Offers (written_of O.Sink out.old out.new) self.now result }
    {
        let text = self.text.as_slice();
        let mut done = 0;
        for len in &self.lengths {
            let end = done + (*len).min(text.len() - done);
            offer(out, &text[done..end])?;
            done = end;
        }
        offer(out, &text[done..])
    }
}
