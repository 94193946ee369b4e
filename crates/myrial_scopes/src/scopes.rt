//! Columns in scope, and what references mean.
ghost use Rattle.std.specs.Prelude.{◌≡◌, ◌==◌, ◌<◌, length, nat_lt, IfOk};
ghost use Rattle.myrial_scopes.specs.Meanings.{is_ambiguous, is_unknown, meaning_of, place_in};
ghost use Rattle.myrial_scopes.specs.Scopes.{same_name, place_of, places_of, scope_of, column_at};

use crate::items::ItemSchema;
use crate::meanings::Meaning;
use myrial_ast::ColRef;
use rel_base::{ColType, Column, Duplicate, Memory, Text};
use std::alloc::Global;
use std::marker::Model;

/// A column in scope: the number and the alias of its item, its place there, its name and its type.
#[derive(Drop)]
pub(crate) struct ScopedColumn<'a> {
    item: usize,
    alias: &'a Text,
    place: u32,
    column: &'a Column,
}

impl<'a> Model for ScopedColumn<'a> {
    ghost use Rattle.myrial_scopes.specs.Scopes.{ScopeColumn, scoped};

    ghost Value = { ScopeColumn };

    ghost view = { λ c. scoped c.item c.alias.now c.place c.column.now };
}

impl<'a> ScopedColumn<'a> {
    /// The name of the column.
    pub(crate) fn name(&self) -> &'a Text
        ensures { result.now ≡ self.now.name }
    {
        &self.column.name
    }

    /// The type of the column's values.
    pub(crate) fn kind(&self) -> ColType
        ensures { result ≡ self.now.kind }
    {
        self.column.kind
    }

    /// Whether the column's item has this alias.
    pub(crate) fn is_under(&self, alias: &Text) -> bool
        ensures { result ≡ same_name self.now.alias alias.now }
    {
        *self.alias == *alias
    }
}

/// The columns of all items of a comprehension, in the order of the combined row.
///
/// It keeps the items, so that a reference is looked for item by item: in time of the items, and
/// of the columns of those that its alias allows. There are at most 8 items in a text.
#[derive(Drop)]
pub struct Scope<'a> {
    items: Vec<ItemSchema<'a>>,
    len: u32,
}

impl<'a> Model for Scope<'a> {
    ghost use Rattle.std.specs.Prelude.{List, ◌≡◌, ◌<◌, ◌^◌, length};
    ghost use Rattle.myrial_scopes.specs.Scopes.{ScopeColumn, scope_of};

    ghost Value = { List ScopeColumn };

    ghost view = { λ s. scope_of s.items.items };

    ghost invariant = { λ s. (s.len ≡ length (scope_of s.items.items)) × (s.len < 2 ^ 32) };
}

impl<'a> Scope<'a> {
    /// The scope of these items.
    pub fn of(alloc: Global, items: &[ItemSchema<'a>]) -> Result<Scope<'a>, Memory>
        ensures { IfOk result (λ scope. scope ≡ scope_of items.now) }
    {
        let mut kept = Vec::with_capacity(alloc, items.len())?;
        let mut len = 0u32;
        for item in items {
            kept.push(ItemSchema::new(item.alias, item.schema))?;
            let Some(more) = len.checked_add(item.len()) else {
                return Err(Memory);
            };
            len = more;
        }
        Ok(Scope { items: kept, len })
    }

    /// The number of columns.
    pub(crate) fn len(&self) -> u32
        ensures { result ≡ length self.now }
    {
        self.len
    }

    /// The column at a place.
    pub(crate) fn column(&self, place: u32) -> ScopedColumn<'a>
        requires { place < length self.now }
        ensures { result ≡ column_at self.now place }
    {
        let mut own = place;
        for (number, item) in self.items.iter().enumerate() {
            if own < item.len() {
                return ScopedColumn {
                    item: number,
                    alias: item.alias,
                    place: own,
                    column: item.schema.get(own),
                };
            }
            own -= item.len();
        }
        unreachable!()
    }

    /// The type of the column at a place; past the end ints.
    pub(crate) fn kind_at(&self, place: u32) -> ColType
        ensures { result ≡ (column_at self.now place).kind }
    {
        if place < self.len() {
            self.column(place).kind()
        } else {
            ColType::Int
        }
    }

    /// A copy of the name of the column at a place; past the end no letter.
    pub(crate) fn name_at(&self, alloc: Global, place: u32) -> Result<Text, Memory>
        ensures { IfOk result (λ name. name ≡ (column_at self.now place).name) }
    {
        if place < self.len() {
            self.column(place).name().copy(alloc)
        } else {
            Text::of(alloc, "")
        }
    }

    /// What a reference means: no column where it is unknown, two or more where it is ambiguous.
    pub fn meaning_of(&self, reference: &ColRef) -> Meaning
        ensures meaning { result ≡ meaning_of self.now reference.now }
        ensures unknown { is_unknown result ≡ (length (places_of self.now reference.now) == 0) }
        ensures ambiguous { is_ambiguous result
            ≡ nat_lt 1 (length (places_of self.now reference.now)) }
        ensures place { place_in result ≡ place_of self.now reference.now }
    {
        let mut meaning = Meaning::Unknown;
        let mut first = 0;
        for item in &self.items {
            meaning = item.with_own(meaning, first, reference);
            first += item.len();
        }
        meaning
    }

    /// The place of the one column that a reference means; `None` where it may mean none, or more
    /// than one.
    pub fn place_of(&self, reference: &ColRef) -> Option<u32>
        ensures { result ≡ place_of self.now reference.now }
    {
        self.meaning_of(reference).place()
    }
}
