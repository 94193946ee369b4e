//! Relations: a schema and rows of its types.
ghost use Rattle.std.specs.Prelude.{◌≡◌, ◌↔◌, IfOk, OnOk, OnErr, All};
ghost use Rattle.rel_base.specs.Bags.{sorted, IsSortedPermutation};

use crate::{ColType, Duplicate, Items, Memory, Row, Rows, Text};
use std::alloc::Global;
use std::marker::Model;

/// A column of a relation: its name, which may be any text, and the type of its values.
#[derive(Debug, PartialEq, Eq)]
pub struct Column {
    /// The name. Two columns of a relation may share one.
    pub name: Text,
    /// The type of each value that stands in this column.
    pub kind: ColType,
}

// Written out, since a derived drop is proved anew at each place where a value is let go.
impl Drop for Column {
    fn drop(self) {
        let Column { name: _, kind: _ } = self;
    }
}

/// The columns of a relation, in order.
pub type Schema = Items<Column>;

/// A list of rows for each worker, in the order of the workers.
pub type Spread = Items<Rows>;

/// A list of rows for each atom of a join, in the order of the atoms.
pub type Parts = Items<Rows>;

impl Duplicate for Column {
    fn copy(&self, alloc: Global) -> Result<Column, Memory> {
        let name = self.name.copy(alloc)?;
        Ok(Column {
            name,
            kind: self.kind,
        })
    }
}

/// A schema and rows, each of which has the schema's types.
pub struct Relation {
    schema: Schema,
    rows: Rows,
}

// Written out, since a derived drop is proved anew at each place where a value is let go.
impl Drop for Relation {
    fn drop(self) {
        let Relation { schema: _, rows: _ } = self;
    }
}

impl Model for Relation {
    ghost use Rattle.std.specs.Prelude.{All};
    ghost use Rattle.rel_base.specs.Relations.{RelationState, HasTypes};

    ghost Value = { RelationState };

    ghost view = { λ r. record { schema = r.schema; rows = r.rows } };

    ghost invariant = { λ r. All (HasTypes r.schema) r.rows };
}

impl Relation {
    ghost use Rattle.rel_base.specs.Relations.{RelationState, HasTypes};

    /// The relation of this schema and these rows.
    pub fn new(schema: Schema, rows: Rows) -> Relation
        requires { All (HasTypes schema) rows }
        ensures schema { result.schema ≡ schema }
        ensures rows { result.rows ≡ rows }
    {
        Relation { schema, rows }
    }

    /// The columns.
    pub fn schema(&self) -> &Schema
        ensures { result.now ≡ self.now.schema }
    {
        &self.schema
    }

    /// The rows, in the order in which they stand.
    pub fn rows(&self) -> &Rows
        ensures value { result.now ≡ self.now.rows }
        ensures typed { All (HasTypes self.now.schema) self.now.rows }
    {
        &self.rows
    }

    /// The schema and the rows, in the order in which they stand.
    pub fn into_parts(self) -> (Schema, Rows)
        ensures schema { result.0 ≡ self.schema }
        ensures rows { result.1 ≡ self.rows }
        ensures typed { All (HasTypes self.schema) self.rows }
    {
        let Relation { schema, rows } = self;
        (schema, rows)
    }

    /// Puts the rows in ascending order. After `Memory` the relation is as it was.
    pub fn sort(&mut self, alloc: Global) -> Result<(), Memory>
        ensures schema { self.new.schema ≡ self.old.schema }
        ensures ok { OnOk result (self.new.rows ≡ sorted self.old.rows) }
        ensures err { OnErr result (self.new.rows ≡ self.old.rows) }
    {
        self.rows.sort(alloc)?;
        Ok(())
    }
}

impl Duplicate for Relation {
    fn copy(&self, alloc: Global) -> Result<Relation, Memory> {
        let schema = self.schema.copy(alloc)?;
        let rows = self.rows.copy(alloc)?;
        Ok(Relation { schema, rows })
    }
}

/// Law: a list of rows has one ascending order. What any sort makes of the rows is `sorted` of
/// them.
pub fn sorted_permutation_is_unique(rows: &[Row], others: &[Row])
    ensures { IsSortedPermutation rows.now others.now ↔ (others.now ≡ sorted rows.now) }
{}
