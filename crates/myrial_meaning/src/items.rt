//! Items of comprehensions.
ghost use Rattle.std.specs.Prelude.{◌≡◌, IfOk, OnOk, All};
ghost use Rattle.myrial_meaning.specs.Meaning.{items_of, schema_of_item};
ghost use Rattle.myrial_meaning.specs.inner.ItemRows.{HasTypedRows};

use myrial_scopes::ItemSchema;
use rel_base::{Memory, Relation, Rows, Schema, Text};
use std::alloc::Global;
use std::marker::Model;

/// An item of a comprehension: its alias, and the columns and rows of its relation.
#[derive(Drop)]
pub struct ItemRelation<'a> {
    alias: &'a Text,
    schema: &'a Schema,
    rows: &'a Rows,
}

impl<'a> Model for ItemRelation<'a> {
    ghost use Rattle.std.specs.Prelude.{All};
    ghost use Rattle.rel_base.specs.Relations.{HasTypes};
    ghost use Rattle.myrial_meaning.specs.Meaning.{ItemRelation as ItemTable};

    ghost Value = { ItemTable };

    ghost view = { λ s.
        record {
          alias = s.alias.now;
          table = record { schema = s.schema.now; rows = s.rows.now };
        } };

    ghost invariant = { λ s. All (HasTypes s.schema.now) s.rows.now };
}

impl<'a> ItemRelation<'a> {
    /// The item of this alias over this relation.
    pub fn over(alias: &'a Text, relation: &'a Relation) -> ItemRelation<'a>
        ensures alias { result.alias ≡ alias.entry.now }
        ensures table { result.table ≡ relation.entry.now }
    {
        ItemRelation {
            alias,
            schema: relation.schema(),
            rows: relation.rows(),
        }
    }

    /// The rows, in the order in which they stand.
    pub fn rows(&self) -> &'a Rows
        ensures { result.now ≡ self.now.table.rows }
    {
        self.rows
    }

    /// The alias and the columns.
    fn schema(&self) -> ItemSchema<'a>
        ensures schema { result ≡ schema_of_item self.now }
        ensures typed { HasTypedRows self.now }
    {
        ItemSchema::new(self.alias, self.schema)
    }
}

/// The aliases and the columns of items.
pub fn schemas_of<'a>(
    alloc: Global,
    items: &[ItemRelation<'a>],
) -> Result<Vec<ItemSchema<'a>>, Memory>
    ensures schemas { IfOk result (λ schemas. schemas.items ≡ items_of items.now) }
    ensures typed { OnOk result (All HasTypedRows items.now) }
{
    let mut schemas = Vec::with_capacity(alloc, items.len())?;
    for item in items {
        schemas.push(item.schema())?;
    }
    Ok(schemas)
}
