//! What names, stored keys and loads stand for while a script is typed.
ghost use Rattle.std.specs.Prelude.{◌≡◌, IfOk, OnOk, find, option_map};
ghost use Rattle.rel_base.specs.Each.{each_or_none};
ghost use Rattle.rel_base.specs.Keys.{same_key};
ghost use Rattle.myrial_meaning.specs.Environments.{nothing_yet, assigned_to, kept_under};
ghost use Rattle.myrial_meaning.specs.Environments.{loaded_from, operand_of, with_name, with_key};
ghost use Rattle.myrial_types.specs.Resolving.{files_meant, item_meant, meant};

use crate::loads::is_load_key;
use algebra::Source;
use myrial_ast::{FromItem, Operand};
use rel_base::{Files, Key, Memory, Schema, Text};
use std::alloc::Global;
use std::marker::Model;

/// What a name, a key or a load stands for: a source, and its columns.
#[derive(Drop)]
pub(crate) struct Meant<'a> {
    source: Source,
    schema: &'a Schema,
}

impl<'a> Model for Meant<'a> {
    ghost use Rattle.myrial_types.specs.Resolving.{Meant as Known};

    ghost Value = { Known };

    ghost view = { λ m. record { source = m.source; schema = m.schema.now } };
}

impl<'a> Meant<'a> {
    /// Where its relation comes from.
    pub(crate) fn source(&self) -> Source
        ensures { result ≡ self.now.source }
    {
        self.source
    }

    /// Its columns.
    pub(crate) fn schema(&self) -> &'a Schema
        ensures { result.now ≡ self.now.schema }
    {
        self.schema
    }
}

/// An item of a comprehension: its alias, and what its operand stands for.
pub(crate) struct MeantItem<'a> {
    alias: &'a Text,
    source: Source,
    schema: &'a Schema,
}

// Written out, since a derived drop is proved anew at each place where a value is let go.
impl<'a> Drop for MeantItem<'a> {
    fn drop(self) {
        let MeantItem {
            alias: _,
            source: _,
            schema: _,
        } = self;
    }
}

impl<'a> Model for MeantItem<'a> {
    ghost use Rattle.myrial_types.specs.Resolving.{MeantItem as Known};

    ghost Value = { Known };

    ghost view = { λ i.
        record {
          alias = i.alias.now;
          meant = record { source = i.source; schema = i.schema.now };
        } };
}

impl<'a> MeantItem<'a> {
    /// The item of this alias, whose operand stands for this.
    fn of(alias: &'a Text, meant: Meant<'a>) -> MeantItem<'a>
        ensures alias { result.alias ≡ alias.entry.now }
        ensures meant { result.meant ≡ meant.entry }
    {
        let Meant { source, schema } = meant;
        MeantItem {
            alias,
            source,
            schema,
        }
    }

    /// The alias.
    pub(crate) fn alias(&self) -> &'a Text
        ensures { result.now ≡ self.now.alias }
    {
        self.alias
    }

    /// Where the relation comes from.
    pub(crate) fn source(&self) -> Source
        ensures { result ≡ self.now.meant.source }
    {
        self.source
    }

    /// The columns.
    pub(crate) fn schema(&self) -> &'a Schema
        ensures { result.now ≡ self.now.meant.schema }
    {
        self.schema
    }
}

/// A name, and what was assigned to it.
struct Assigned<'a> {
    name: &'a Text,
    source: Source,
    schema: Schema,
}

// Written out, since a derived drop is proved anew at each place where a value is let go.
impl<'a> Drop for Assigned<'a> {
    fn drop(self) {
        let Assigned {
            name: _,
            source: _,
            schema: _,
        } = self;
    }
}

impl<'a> Model for Assigned<'a> {
    ghost use Rattle.myrial_ast.specs.Trees.{Name};
    ghost use Rattle.myrial_types.specs.Resolving.{Meant as Known};

    ghost Value = { Name × Known };

    ghost view = { λ a. (a.name.now, record { source = a.source; schema = a.schema }) };
}

/// A key, and what was stored under it.
struct Stored<'a> {
    key: &'a Key,
    source: Source,
    schema: Schema,
}

// Written out, since a derived drop is proved anew at each place where a value is let go.
impl<'a> Drop for Stored<'a> {
    fn drop(self) {
        let Stored {
            key: _,
            source: _,
            schema: _,
        } = self;
    }
}

impl<'a> Model for Stored<'a> {
    ghost use Rattle.rel_base.specs.declared.names.Key.{Key as StoreKey};
    ghost use Rattle.myrial_types.specs.Resolving.{Meant as Known};

    ghost Value = { StoreKey × Known };

    ghost view = { λ s. (s.key.now, record { source = s.source; schema = s.schema }) };
}

/// What the names that were assigned and the keys that were stored stand for, each in the order of
/// the statements.
///
/// Contracts see the environment of the definitions, which has the latest first.
pub(crate) struct Names<'a> {
    assigned: Vec<Assigned<'a>>,
    stored: Vec<Stored<'a>>,
}

// Written out, since a derived drop is proved anew at each place where a value is let go.
impl<'a> Drop for Names<'a> {
    fn drop(self) {
        let Names {
            assigned: _,
            stored: _,
        } = self;
    }
}

impl<'a> Model for Names<'a> {
    ghost use Rattle.std.specs.Prelude.{reverse};
    ghost use Rattle.myrial_types.specs.Resolving.{Names as Environment};

    ghost Value = { Environment };

    ghost view = { λ n. record { assigned = reverse n.assigned.items; stored = reverse n.stored.items } };
}

impl<'a> Names<'a> {
    /// No name is assigned, and no key stored.
    pub(crate) fn new(alloc: Global) -> Names<'a>
        ensures { result ≡ nothing_yet }
    {
        Names {
            assigned: Vec::new(alloc),
            stored: Vec::new(alloc),
        }
    }

    /// What was assigned to a name last.
    pub(crate) fn assigned_to(&self, name: &Text) -> Option<Meant<'_>>
        ensures { result ≡ assigned_to self.entry.now name.now }
    {
        for i in (0..self.assigned.len()).rev() {
            let assigned = &self.assigned[i];
            if *assigned.name == *name {
                return Some(Meant {
                    source: assigned.source,
                    schema: &assigned.schema,
                });
            }
        }
        None
    }

    /// What was stored under a key last.
    fn stored_under(&self, key: &Key) -> Option<Meant<'_>>
        ensures { result
            ≡ option_map (λ p. p.1) (find (λ p. same_key p.0 key.now) self.entry.now.stored) }
    {
        for i in (0..self.stored.len()).rev() {
            let stored = &self.stored[i];
            if *stored.key == *key {
                return Some(Meant {
                    source: stored.source,
                    schema: &stored.schema,
                });
            }
        }
        None
    }

    /// What a key stands for: what was stored under it last, or else its file.
    fn kept_under<'b>(&'b self, files: &'b Files, key: &Key) -> Option<Meant<'b>>
        ensures { result ≡ kept_under (files_meant files.entry.now) self.entry.now key.now }
    {
        match self.stored_under(key) {
            Some(meant) => Some(meant),
            None => file_under(files, key),
        }
    }

    /// What an operand stands for; `None` where that is nothing. A load has the columns that it
    /// writes.
    pub(crate) fn meant<'b>(&'b self, files: &'b Files, operand: &'b Operand) -> Option<Meant<'b>>
        ensures { result ≡ meant files.entry.now self.entry.now operand.entry.now }
    {
        match operand {
            Operand::Named(name) => self.assigned_to(name),
            Operand::Scan(key) => self.kept_under(files, key),
            Operand::Load(name, schema, _) => match loaded_from(files, name) {
                Some(Meant { source, .. }) => Some(Meant { source, schema }),
                None => None,
            },
        }
    }

    /// The items of a comprehension with what their operands stand for; `None` where one stands
    /// for nothing.
    pub(crate) fn items<'b>(
        &'b self,
        alloc: Global,
        files: &'b Files,
        items: &'b [FromItem],
    ) -> Result<Option<Vec<MeantItem<'b>>>, Memory>
        ensures { IfOk result (λ found. option_map (λ v. v.items) found
            ≡ each_or_none (item_meant files.entry.now self.entry.now) items.entry.now) }
    {
        let mut found = Vec::new(alloc);
        for item in items {
            let Some(meant) = self.meant(files, &item.source) else {
                return Ok(None);
            };
            found.push(MeantItem::of(&item.alias, meant))?;
        }
        Ok(Some(found))
    }

    /// Lets a name stand for a relation from now on.
    pub(crate) fn assign(
        &mut self,
        name: &'a Text,
        source: Source,
        schema: Schema,
    ) -> Result<(), Memory>
        ensures { OnOk result (self.new ≡ with_name self.old name.entry.now
            (record { source = source; schema = schema })) }
    {
        self.assigned.push(Assigned {
            name,
            source,
            schema,
        })?;
        Ok(())
    }

    /// Lets a key stand for a relation from now on.
    pub(crate) fn store(
        &mut self,
        key: &'a Key,
        source: Source,
        schema: Schema,
    ) -> Result<(), Memory>
        ensures { OnOk result (self.new ≡ with_key self.old key.entry.now
            (record { source = source; schema = schema })) }
    {
        self.stored.push(Stored {
            key,
            source,
            schema,
        })?;
        Ok(())
    }
}

/// The file of a key.
fn file_under<'a>(files: &'a Files, key: &Key) -> Option<Meant<'a>>
    ensures { result ≡ option_map (λ p. p.1)
        (find (λ p. same_key p.0 key.now) (files_meant files.entry.now)) }
{
    for i in 0..files.len() {
        let file = files.get(i);
        if file.0 == *key {
            return Some(Meant {
                source: Source::File(i),
                schema: file.1.schema(),
            });
        }
    }
    None
}

/// The loaded file of a name.
fn loaded_from<'a>(files: &'a Files, name: &Text) -> Option<Meant<'a>>
    ensures { result ≡ loaded_from (files_meant files.entry.now) name.now }
{
    for i in 0..files.len() {
        let file = files.get(i);
        if is_load_key(name, &file.0) {
            return Some(Meant {
                source: Source::File(i),
                schema: file.1.schema(),
            });
        }
    }
    None
}
