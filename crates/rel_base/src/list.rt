//! The list type that serves every list of the engine, over a `Vec`.
ghost use Rattle.std.specs.Prelude.{◌≡◌, ℕ, ◌+◌, ◌-◌, ◌^◌, ◌<◌, ◌≤◌, ◌↔◌, ◌==◌, [], ◌∷◌, ◌++◌, length, IsSome, IfOk, OnOk, OnErr, slice_index_or, IsPermutation, IsSorted, vec_len};
ghost use Rattle.std.specs.Option.{option_to_list};
ghost use Rattle.std.specs.Cmp.{on_equiv, on_total, on_po, on_per};
ghost use Rattle.std.specs.Cmp.Lexicographic.{pointwise, slice_cmp, slice_partial_cmp, lists_per, lists_equiv, lists_po, lists_total, lists_agrees, lists_ties};

use crate::{Duplicate, Memory};
use std::alloc::Global;
use std::cmp::Ordering;
use std::fmt;
use std::marker::Model;

/// A list of at most 4,294,967,295 items, which contracts see as the list itself.
///
/// It keeps the allocator that it was made with, so its own methods take none.
pub struct Items<T> {
    items: Vec<T>,
}

// Written out, since a derived drop is proved anew at each place where a value is let go.
impl<T: Drop> Drop for Items<T> {
    fn drop(self) {
        let Items { items: _ } = self;
    }
}

/// A list of numbers, as the places of columns in a row.
pub type Places = Items<u32>;

impl<T> Model for Items<T> {
    ghost use Rattle.std.specs.Prelude.{List, ◌^◌, ◌<◌, vec_len};

    ghost Value = { List T };

    ghost view = { λ l. l.items.items };

    ghost invariant = { λ l. vec_len l.items < 2 ^ 32 };
}

impl<T> Items<T> {
    /// An empty list, which takes no memory until the first item comes.
    pub fn new(alloc: Global) -> Self
        ensures { result ≡ [] }
    {
        Items {
            items: Vec::new(alloc),
        }
    }

    /// An empty list with room for so many items.
    pub fn with_capacity(alloc: Global, room: u32) -> Result<Self, Memory>
        ensures { IfOk result (λ made. made ≡ []) }
    {
        let items = Vec::with_capacity(alloc, room as usize)?;
        Ok(Items { items })
    }

    /// The number of items.
    pub fn len(&self) -> u32
        ensures { result ≡ length self.now }
    {
        self.items.len() as u32
    }

    /// Whether there is no item.
    pub fn is_empty(&self) -> bool
        ensures { result ≡ (length self.now == 0) }
    {
        self.items.is_empty()
    }

    /// Item number `i`, from 0.
    pub fn get(&self, i: u32) -> &T
        requires { i < length self.now }
        ensures { result.now ≡ slice_index_or self.now i result.now }
    {
        &self.items[i as usize]
    }

    /// All items, in order.
    pub fn as_slice(&self) -> &[T]
        ensures value { result.now ≡ self.now }
        ensures bound { length self.now < 2 ^ 32 }
    {
        self.items.as_slice()
    }

    /// Takes the last item; `None` where the list is empty.
    pub fn pop(&mut self) -> Option<T>
        ensures items { self.old ≡ self.new ++ option_to_list result }
        ensures some { IsSome result ↔ (0 < length self.old) }
    {
        self.items.pop()
    }

    /// Puts the items in ascending order; items that compare equal may change places.
    pub fn sort(&mut self)
    where
        T: Ord,
        ensures permutation { IsPermutation self.old self.new }
        ensures sorted { IsSorted T.cmp self.new }
    {
        self.items.sort_unstable();
    }
}

impl<T: Drop> Items<T> {
    /// Adds an item at the end. After `Memory` the list is as it was, and the item is let go.
    pub fn push(&mut self, item: T) -> Result<(), Memory>
        requires { length self.old < 2 ^ 32 - 1 }
        ensures ok { OnOk result (self.new ≡ self.old ++ item ∷ []) }
        ensures err { OnErr result (self.new ≡ self.old) }
    {
        self.items.push(item)?;
        Ok(())
    }
}

impl<T: Duplicate + Drop> Duplicate for Items<T> {
    fn copy(&self, alloc: Global) -> Result<Self, Memory> {
        let items = copies_of(alloc, self.as_slice())?;
        Ok(Items { items })
    }
}

/// The items' copies, in order.
pub(crate) fn copies_of<T: Duplicate + Drop>(alloc: Global, items: &[T]) -> Result<Vec<T>, Memory>
    ensures { IfOk result (λ made. made.items ≡ items.now) }
{
    let mut copies = Vec::with_capacity(alloc, items.len())?;
    for item in items {
        let copy = item.copy(alloc)?;
        copies.push(copy)?;
    }
    Ok(copies)
}

impl<T: PartialEq> PartialEq for Items<T> {
    ghost eq = { pointwise T.eq };

    ghost laws = { lists_per T.laws };

    fn eq(&self, other: &Self) -> bool {
        self.as_slice() == other.as_slice()
    }
}

impl<T: Eq> Eq for Items<T> {
    ghost laws = { lists_equiv T.Eq.laws };
}

impl<T: PartialOrd> PartialOrd for Items<T> {
    ghost partial_cmp = { slice_partial_cmp T.partial_cmp };

    ghost laws = { lists_po T.PartialOrd.laws };

    fn partial_cmp(&self, other: &Self) -> Option<Ordering> {
        self.as_slice().partial_cmp(&other.as_slice())
    }
}

impl<T: Ord> Ord for Items<T> {
    ghost cmp = { slice_cmp T.cmp };

    ghost total = { lists_total T.total };

    ghost matches_partial_cmp = { lists_agrees T.matches_partial_cmp };

    ghost matches_eq = { lists_ties T.cmp T.matches_eq };

    fn cmp(&self, other: &Self) -> Ordering {
        self.as_slice().cmp(&other.as_slice())
    }
}

impl<T: fmt::Debug> fmt::Debug for Items<T> {
    fn fmt<W: fmt::Write>(&self, f: &mut fmt::Formatter<W>) -> fmt::Result {
        f.debug_list().entries(self.as_slice()).finish()
    }
}
