//! Rows as they are made: lists of values that keep up to three values inline.
ghost use Rattle.std.specs.Prelude.{◌≡◌, ℕ, ◌+◌, ◌-◌, ◌^◌, ◌<◌, ◌≤◌, ◌↔◌, ◌==◌, [], ◌∷◌, ◌++◌, length, IsSome, IfOk, OnOk, OnErr, slice_index_or};
ghost use Rattle.std.specs.Option.{option_to_list};

use crate::row_values::Values;
use crate::{Duplicate, Memory, Value};
use std::alloc::Global;
use std::cmp::Ordering;
use std::fmt;
use std::marker::Model;
use std::mem::size_of;

/// A row as it is made, before it goes into a list: at most 4,294,967,295 values, ordered column by
/// column as std compares lists.
///
/// Up to three values stand in the row itself, so that such a row has 56 bytes and takes no memory
/// of its own. In a list a row is a slice of values.
pub struct Row {
    values: Values,
    alloc: Global,
}

// Written out, since a derived drop is proved anew at each place where a value is let go.
impl Drop for Row {
    fn drop(self) {
        let Row {
            values: _,
            alloc: _,
        } = self;
    }
}

const _: () = prove!(size_of::<Row>() == 56);

impl Model for Row {
    ghost use Rattle.std.specs.Prelude.{List, ◌^◌, ◌<◌, length};
    ghost use Rattle.rel_base.specs.declared.values.Value.{Value as Datum};
    ghost use Rattle.rel_base.specs.inner.RowValues.{HasPlaces, values_in};

    ghost Value = { List Datum };

    ghost view = { λ r. values_in r.values };

    ghost invariant = { λ r. HasPlaces r.values × (length (values_in r.values) < 2 ^ 32) };
}

impl Row {
    /// A row without values, which takes no memory until its fourth value comes.
    #[inline(always)]
    pub fn new(alloc: Global) -> Row
        ensures { result ≡ [] }
    {
        Row {
            values: Values::new(),
            alloc,
        }
    }

    /// A row without values, with room for so many. It asks for memory only where they are more
    /// than three.
    #[inline(always)]
    pub fn with_capacity(alloc: Global, room: u32) -> Result<Row, Memory>
        ensures { IfOk result (λ made. made ≡ []) }
    {
        let values = Values::with_capacity(alloc, room)?;
        Ok(Row { values, alloc })
    }

    /// A row of copies of these values. It answers `Memory` too where they are more than a row may
    /// have.
    pub fn from_slice(alloc: Global, values: &[Value]) -> Result<Row, Memory>
        ensures { IfOk result (λ made. made ≡ values.now) }
    {
        let Ok(room) = u32::try_from(values.len()) else {
            return Err(Memory);
        };
        let mut row = Row::with_capacity(alloc, room)?;
        row.push_copies(values)?;
        Ok(row)
    }

    /// Adds copies of these values. After `Memory` some of them may be added.
    fn push_copies(&mut self, values: &[Value]) -> Result<(), Memory>
        requires few { length self.old + length values.now < 2 ^ 32 }
        ensures { OnOk result (self.new ≡ self.old ++ values.now) }
    {
        for value in values {
            let copy = value.copy(self.alloc)?;
            self.push(copy)?;
        }
        Ok(())
    }

    /// What gives the row its memory.
    pub(crate) fn alloc(&self) -> Global {
        self.alloc
    }

    /// The number of values.
    pub fn len(&self) -> u32
        ensures { result ≡ length self.now }
    {
        self.values.as_slice().len() as u32
    }

    /// Whether there is no value.
    pub fn is_empty(&self) -> bool
        ensures { result ≡ (length self.now == 0) }
    {
        self.values.as_slice().is_empty()
    }

    /// The value of column `i`, from 0.
    pub fn get(&self, i: u32) -> &Value
        requires { i < length self.now }
        ensures { result.now ≡ slice_index_or self.now i result.now }
    {
        &self.values.as_slice()[i as usize]
    }

    /// All values, in the order of the columns.
    pub fn as_slice(&self) -> &[Value]
        ensures value { result.now ≡ self.now }
        ensures bound { length self.now < 2 ^ 32 }
    {
        self.values.as_slice()
    }

    /// Adds a value at the end. After `Memory` the row is as it was, and the value is let go.
    #[inline(always)]
    pub fn push(&mut self, value: Value) -> Result<(), Memory>
        requires { length self.old < 2 ^ 32 - 1 }
        ensures ok { OnOk result (self.new ≡ self.old ++ value ∷ []) }
        ensures err { OnErr result (self.new ≡ self.old) }
    {
        self.values.push(self.alloc, value)
    }

    /// Moves all values to the end of a list, so that none is left. After `Memory` all is as it
    /// was.
    #[inline(always)]
    pub(crate) fn move_to(&mut self, into: &mut Vec<Value>) -> Result<(), Memory>
        ensures ok { OnOk result (into.new.items ≡ into.old.items ++ self.old) }
        ensures none { OnOk result (self.new ≡ []) }
        ensures err { OnErr result (into.new.items ≡ into.old.items) }
        ensures kept { OnErr result (self.new ≡ self.old) }
    {
        self.values.move_to(into)
    }

    /// Takes the last value; `None` where the row is empty.
    pub fn pop(&mut self) -> Option<Value>
        ensures items { self.old ≡ self.new ++ option_to_list result }
        ensures some { IsSome result ↔ (0 < length self.old) }
    {
        self.values.pop()
    }
}

impl Duplicate for Row {
    fn copy(&self, alloc: Global) -> Result<Row, Memory> {
        Row::from_slice(alloc, self.as_slice())
    }
}

impl PartialEq for Row {
    ghost use Rattle.std.specs.Cmp.{eq_by_cmp_equiv, partial_equiv_from_equiv};
    ghost use Rattle.std.specs.Ordering.{eq_by_cmp};
    ghost use Rattle.rel_base.specs.Values.{row_order};
    ghost use Rattle.rel_base.specs.ValueLaws.{row_order_total};

    ghost eq = { eq_by_cmp row_order };

    ghost laws = { partial_equiv_from_equiv (eq_by_cmp_equiv row_order_total) };

    fn eq(&self, other: &Row) -> bool {
        self.cmp(other).is_eq()
    }
}

impl Eq for Row {
    ghost use Rattle.std.specs.Cmp.{eq_by_cmp_equiv};
    ghost use Rattle.rel_base.specs.ValueLaws.{row_order_total};

    ghost laws = { eq_by_cmp_equiv row_order_total };
}

impl PartialOrd for Row {
    ghost use Rattle.std.specs.Cmp.{partial_order_from_total};
    ghost use Rattle.std.specs.Ordering.{as_partial_cmp};
    ghost use Rattle.rel_base.specs.Values.{row_order};
    ghost use Rattle.rel_base.specs.ValueLaws.{row_order_total};

    ghost partial_cmp = { as_partial_cmp row_order };

    ghost laws = { partial_order_from_total row_order_total };

    fn partial_cmp(&self, other: &Row) -> Option<Ordering> {
        Some(self.cmp(other))
    }
}

impl Ord for Row {
    ghost use Rattle.std.specs.Prelude.{refl};
    ghost use Rattle.rel_base.specs.Values.{row_order};
    ghost use Rattle.rel_base.specs.ValueLaws.{row_order_total};

    ghost cmp = { row_order };

    ghost total = { row_order_total };

    ghost matches_partial_cmp = { λ r s. refl };

    ghost matches_eq = { λ r s. refl };

    fn cmp(&self, other: &Row) -> Ordering {
        self.as_slice().cmp(&other.as_slice())
    }
}

impl fmt::Debug for Row {
    fn fmt<W: fmt::Write>(&self, f: &mut fmt::Formatter<W>) -> fmt::Result {
        f.debug_list().entries(self.as_slice()).finish()
    }
}
