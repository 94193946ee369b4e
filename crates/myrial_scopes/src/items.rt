//! The items of a comprehension.
ghost use Rattle.std.specs.Prelude.{◌≡◌, ◌+◌, ◌^◌, ◌<◌, length};
ghost use Rattle.myrial_scopes.specs.Scopes.{same_name, is_alias, has_doubled_alias};
ghost use Rattle.myrial_scopes.specs.inner.Places.{named_from, numbered_from, own_places};
ghost use Rattle.myrial_scopes.specs.inner.Places.{with_places};

use crate::meanings::Meaning;
use myrial_ast::ColRef;
use rel_base::{Schema, Text};
use std::marker::Model;

/// An item of a comprehension: its alias, and the columns of its relation.
#[derive(Drop)]
pub struct ItemSchema<'a> {
    pub(crate) alias: &'a Text,
    pub(crate) schema: &'a Schema,
}

impl<'a> Model for ItemSchema<'a> {
    ghost use Rattle.myrial_scopes.specs.Scopes.{ItemSchema as Item};

    ghost Value = { Item };

    ghost view = { λ s. record { alias = s.alias.now; schema = s.schema.now } };
}

impl<'a> ItemSchema<'a> {
    /// The item of this alias with these columns.
    pub fn new(alias: &'a Text, schema: &'a Schema) -> ItemSchema<'a>
        ensures alias { result.alias ≡ alias.entry.now }
        ensures schema { result.schema ≡ schema.entry.now }
    {
        ItemSchema { alias, schema }
    }

    /// The number of columns.
    pub(crate) fn len(&self) -> u32
        ensures { result ≡ length self.now.schema }
    {
        self.schema.len()
    }

    /// Whether the item has this alias.
    fn is_under(&self, alias: &Text) -> bool
        ensures { result ≡ same_name self.now.alias alias.now }
    {
        *self.alias == *alias
    }

    /// What a reference means that may mean the columns of a name besides, where the first column
    /// stands at this place.
    fn with_named(&self, meaning: Meaning, first: u32, name: &Text) -> Meaning
        requires { first + length self.now.schema < 2 ^ 32 }
        ensures { result ≡ with_places meaning (named_from first name.now self.now.schema) }
    {
        let mut meaning = meaning;
        for i in 0..self.schema.len() {
            if self.schema.get(i).name == *name {
                meaning = meaning.with(first + i);
            }
        }
        meaning
    }

    /// What a reference means that may mean the column at a place of the item besides, where the
    /// first stands at this place.
    fn with_numbered(&self, meaning: Meaning, first: u32, given: u64) -> Meaning
        requires { first + length self.now.schema < 2 ^ 32 }
        ensures { result ≡ with_places meaning (numbered_from first given self.now.schema) }
    {
        if given < self.schema.len() as u64 {
            meaning.with(first + given as u32)
        } else {
            meaning
        }
    }

    /// What a reference means that may mean columns of the item besides, where the first stands at
    /// this place.
    ///
    /// The alias is compared once, and not for each column.
    pub(crate) fn with_own(&self, meaning: Meaning, first: u32, reference: &ColRef) -> Meaning
        requires { first + length self.now.schema < 2 ^ 32 }
        ensures { result ≡ with_places meaning (own_places first reference.now self.now) }
    {
        match reference {
            ColRef::ByName(name) => self.with_named(meaning, first, name),
            ColRef::ByPlace(given) => {
                let first_given = first as u64;
                if *given < first_given {
                    meaning
                } else {
                    self.with_numbered(meaning, first, *given - first_given)
                }
            }
            ColRef::OfName(alias, name) => {
                if self.is_under(alias) {
                    self.with_named(meaning, first, name)
                } else {
                    meaning
                }
            }
            ColRef::OfPlace(alias, given) => {
                if self.is_under(alias) {
                    self.with_numbered(meaning, first, *given)
                } else {
                    meaning
                }
            }
        }
    }
}

/// Whether one of the items has this alias.
pub fn is_alias(items: &[ItemSchema], alias: &Text) -> bool
    ensures { result ≡ is_alias items.now alias.now }
{
    items.iter().any(|item| *item.alias == *alias)
}

/// Whether two items have one alias, which is ambiguous by itself.
pub fn has_doubled_alias(items: &[ItemSchema]) -> bool
    ensures { result ≡ has_doubled_alias items.now }
{
    match items {
        [] => false,
        [item, others @ ..] => is_alias(others, item.alias) || has_doubled_alias(others),
    }
}
