//! Rows of one width, which stand value after value.
ghost use Rattle.std.specs.Prelude.{◌≡◌, ◌+◌, ◌-◌, ◌^◌, ◌<◌, ◌≤◌, ◌==◌, [], ◌∷◌, ◌++◌, length, map, IsTrue, IfOk, IfErr, IfSome, IfNone, OnOk, OnErr, All, slice_index_or, slice_range};
ghost use Rattle.rel_base.specs.Picks.{items_at, every_nth};
ghost use Rattle.rel_base.specs.inner.Flat.{row_from, rows_from};
ghost use Rattle.rel_base.specs.inner.Strides.{stepped};

use crate::list::copies_of;
use crate::strides::steps_below;
use crate::{Memory, Row, RowSource, Value};
use std::alloc::Global;
use std::marker::Model;

/// Rows of one width, which stand value after value in one piece of memory. Contracts see the list
/// of the rows.
pub struct FlatRows {
    values: Vec<Value>,
    width: u32,
    len: u32,
}

// Written out, since a derived drop is proved anew at each place where a value is let go.
impl Drop for FlatRows {
    fn drop(self) {
        let FlatRows {
            values: _,
            width: _,
            len: _,
        } = self;
    }
}

impl Model for FlatRows {
    ghost use Rattle.std.specs.Prelude.{List, ◌≡◌, ◌*◌, length};
    ghost use Rattle.rel_base.specs.declared.values.Value.{Value as Datum};
    ghost use Rattle.rel_base.specs.inner.Flat.{rows_from};
    ghost use Rattle.rel_base.specs.inner.Strides.{stepped};

    ghost Value = { List (List Datum) };

    ghost view = { λ r. rows_from r.width r.values.items (stepped 0 r.width r.len) };

    ghost invariant = { λ r. length r.values.items ≡ r.width * r.len };
}

impl FlatRows {
    /// No rows, which takes no memory until the first row comes.
    pub fn new(alloc: Global) -> FlatRows
        ensures { result ≡ [] }
    {
        FlatRows {
            values: Vec::new(alloc),
            width: 0,
            len: 0,
        }
    }

    /// No rows, with room for so many of so many values.
    pub fn with_capacity(alloc: Global, room: u32, width: u32) -> Result<FlatRows, Memory>
        ensures { IfOk result (λ made. made ≡ []) }
    {
        let values = Vec::with_capacity(alloc, room as usize * width as usize)?;
        Ok(FlatRows {
            values,
            width,
            len: 0,
        })
    }

    /// The number of rows.
    #[inline(always)]
    pub fn len(&self) -> u32
        ensures { result ≡ length self.now }
    {
        self.len
    }

    /// The number of values of each row; where there is no row, any number.
    pub fn width(&self) -> u32
        ensures { All (λ row. length row ≡ result) self.now }
    {
        self.width
    }

    /// Whether a row of so many values has the width of these rows, as any has where there are
    /// none.
    #[inline(always)]
    pub fn takes(&self, width: u32) -> bool
        ensures { IsTrue result → All (λ row. length row ≡ width) self.now }
    {
        self.len == 0 || self.width == width
    }

    /// Row number `i`, from 0.
    #[inline(always)]
    pub fn get(&self, i: u32) -> &[Value]
        requires { i < length self.now }
        ensures { result.now ≡ slice_index_or self.now i result.now }
    {
        let width = self.width as usize;
        part(self.values.as_slice(), width * i as usize, width)
    }

    /// Moves the values of a row of their width to the end, as a row, so that none is left there.
    /// After `Memory` all is as it was.
    #[inline(always)]
    pub fn push(&mut self, row: &mut Row) -> Result<(), Memory>
        requires room { length self.old < 2 ^ 32 - 1 }
        requires width { All (λ other. length other ≡ length row.old) self.old }
        ensures ok { OnOk result (self.new ≡ self.old ++ row.old ∷ []) }
        ensures none { OnOk result (row.new ≡ []) }
        ensures err { OnErr result (self.new ≡ self.old) }
        ensures kept { OnErr result (row.new ≡ row.old) }
    {
        self.width = row.len();
        row.move_to(&mut self.values)?;
        self.len += 1;
        Ok(())
    }

    /// Adds the row that a source makes, which has their width, at the end. After a fault the rows
    /// are as they were.
    #[inline(always)]
    pub fn push_made<S: RowSource>(&mut self, source: &S) -> Result<(), S::Fault>
        requires room { length self.old < 2 ^ 32 - 1 }
        requires width { All (λ other. length other ≡ length (S.values source.now)) self.old }
        ensures ok { OnOk result (self.new ≡ self.old ++ S.values source.now ∷ []) }
        ensures made { OnOk result (S.is_made source.now) }
        ensures err { OnErr result (self.new ≡ self.old) }
        ensures fault { IfErr result (λ fault. S.is_fault source.now fault) }
    {
        self.width = source.width();
        let start = self.values.len();
        match source.put_values(&mut self.values) {
            Ok(()) => {
                self.len += 1;
                Ok(())
            }
            Err(fault) => {
                self.values.truncate(start);
                Err(fault)
            }
        }
    }

    /// All rows, in order.
    pub fn all(&self) -> RowRun<'_>
        ensures { result ≡ self.now }
    {
        self.run(0, 1, self.len)
    }

    /// So many rows from number `start` on, each `step` behind the one before it.
    pub fn run(&self, start: u32, step: u32, len: u32) -> RowRun<'_>
        requires { All (λ i. i < length self.now) (stepped start step len) }
        ensures { result ≡ items_at self.now (stepped start step len) }
    {
        let width = self.width as usize;
        let next = width * start as usize;
        let apart = width * step as usize;
        RowRun::of(self.values.as_slice(), width, next, apart, len)
    }

    /// Copies of the rows from number `from` up to but not with number `to`.
    pub fn copies_between(&self, alloc: Global, from: u32, to: u32) -> Result<FlatRows, Memory>
        requires order { from ≤ to }
        requires within { to ≤ length self.now }
        ensures { IfOk result (λ made. made ≡ slice_range self.now from to) }
    {
        let width = self.width as usize;
        let len = to - from;
        let values = part(
            self.values.as_slice(),
            width * from as usize,
            width * len as usize,
        );
        Ok(FlatRows {
            values: copies_of(alloc, values)?,
            width: self.width,
            len,
        })
    }

    /// Copies of the rows with these numbers, where the first row has the number `first`.
    pub fn copies_at(&self, alloc: Global, first: u32, numbers: &[u32]) -> Result<FlatRows, Memory>
        requires low { All (λ n. first ≤ n) numbers.now }
        requires high { All (λ n. n < first + length self.now) numbers.now }
        requires room { length numbers.now < 2 ^ 32 }
        ensures { IfOk result (λ made. made
            ≡ items_at self.now (map (λ n. n - first) numbers.now)) }
    {
        let _each = self.width();
        let mut copies = FlatRows::with_capacity(alloc, numbers.len() as u32, self.width)?;
        for number in numbers {
            let mut copy = Row::from_slice(alloc, self.get(*number - first))?;
            copies.push(&mut copy)?;
        }
        Ok(copies)
    }

    /// Copies of the rows whose number, from 0, leaves the remainder `start` by the step.
    pub fn copies_apart(&self, alloc: Global, step: u32, start: u32) -> Result<FlatRows, Memory>
        requires { start < step }
        ensures { IfOk result (λ made. made ≡ every_nth self.now step start) }
    {
        let _each = self.width();
        let count = steps_below(self.len, step, start);
        let mut copies = FlatRows::with_capacity(alloc, count, self.width)?;
        for i in 0..count {
            let mut copy = Row::from_slice(alloc, self.get(start + step * i))?;
            copies.push(&mut copy)?;
        }
        Ok(copies)
    }
}

/// So many values from a place on.
#[inline(always)]
fn part(values: &[Value], start: usize, len: usize) -> &[Value]
    requires { start + len ≤ length values.now }
    ensures { result.now ≡ row_from len values.now start }
{
    &values[start..start + len]
}

/// Rows of one width that are left to be walked over, a fixed distance apart. Contracts see the
/// list of these rows.
#[derive(Drop)]
pub struct RowRun<'a> {
    values: &'a [Value],
    width: usize,
    next: usize,
    step: usize,
    len: u32,
}

impl<'a> Model for RowRun<'a> {
    ghost use Rattle.std.specs.Prelude.{List, ◌+◌, ◌^◌, ◌<◌, ◌≤◌, length, All};
    ghost use Rattle.rel_base.specs.declared.values.Value.{Value as Datum};
    ghost use Rattle.rel_base.specs.inner.Flat.{rows_from};
    ghost use Rattle.rel_base.specs.inner.Strides.{stepped};

    ghost Value = { List (List Datum) };

    ghost view = { λ r. rows_from r.width r.values.now (stepped r.next r.step r.len) };

    ghost invariant = { λ r.
        All (λ place. place + r.width ≤ length r.values.now) (stepped r.next r.step r.len)
        × (length r.values.now < 2 ^ 64) };
}

impl<'a> RowRun<'a> {
    /// No rows.
    pub fn empty() -> RowRun<'a>
        ensures { result ≡ [] }
    {
        RowRun {
            values: &[],
            width: 0,
            next: 0,
            step: 0,
            len: 0,
        }
    }

    /// One row.
    pub fn of_one(row: &'a [Value]) -> RowRun<'a>
        ensures { result ≡ row.entry.now ∷ [] }
    {
        let width = row.len();
        RowRun::of(row, width, 0, 0, 1)
    }

    /// So many rows of `width` values, of which the first begins at the place `next` and each
    /// further one `step` values behind the one before it.
    fn of(values: &'a [Value], width: usize, next: usize, step: usize, len: u32) -> RowRun<'a>
        requires { All (λ place. place + width ≤ length values.now) (stepped next step len) }
        ensures { result ≡ rows_from width values.entry.now (stepped next step len) }
    {
        let _few = values.len();
        RowRun {
            values,
            width,
            next,
            step,
            len,
        }
    }

    /// The rows, if there are any.
    pub fn some(self) -> Option<RowRun<'a>>
        ensures rows { IfSome result (λ run. run ≡ self.entry) }
        ensures some { IfSome result (λ run. 0 < length run) }
        ensures none { IfNone result (self.entry ≡ []) }
    {
        if self.len == 0 { None } else { Some(self) }
    }

    /// Takes the first row; `None` where none is left.
    #[inline(always)]
    pub fn take_first(&mut self) -> Option<&'a [Value]>
        ensures first { IfSome result (λ row. self.old ≡ row.now ∷ self.new) }
        ensures none { IfNone result (self.old ≡ []) }
        ensures over { IfNone result (self.new ≡ []) }
    {
        if self.len == 0 {
            return None;
        }
        let row = part(self.values, self.next, self.width);
        // Behind the last row the sum may be too large, and no place is read then.
        self.next = self.next.wrapping_add(self.step);
        self.len -= 1;
        Some(row)
    }
}
