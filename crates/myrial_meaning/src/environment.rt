//! What names and stored keys stand for while a script is evaluated.
ghost use Rattle.std.specs.Prelude.{◌≡◌, ◌^◌, ◌<◌, IfOk, OnOk, option_map, find, length, map, reverse};
ghost use Rattle.std.specs.Option.{option_copied, option_map_or};
ghost use Rattle.rel_base.specs.Each.{each_or_none};
ghost use Rattle.rel_base.specs.Keys.{same_key};
ghost use Rattle.myrial_meaning.specs.Environments.{nothing_yet, assigned_to, kept_under, loaded_from, operand_of, with_name, with_key};
ghost use Rattle.myrial_meaning.specs.Meaning.{item_relation};
ghost use Rattle.myrial_meaning.specs.SortedFiles.{sorted_file};
ghost use Rattle.myrial_meaning.specs.inner.Assignments.{table_of};

use crate::holding::{Assignment, Held};
use crate::items::ItemRelation;
use myrial_ast::{FromItem, Operand};
use rel_base::{Duplicate, Files, Key, Memory, Relation, Stored, Text};
use std::alloc::Global;
use std::marker::Model;

/// What the names stand for that were assigned, and the relations that were stored, each in the
/// order of the statements.
///
/// Contracts see the environment of the definitions, which has the latest first.
pub struct Environment<'a> {
    assigned: Vec<Assignment<'a>>,
    stored: Vec<(Key, Relation)>,
}

// Written out, since a derived drop is proved anew at each place where a value is let go.
impl<'a> Drop for Environment<'a> {
    fn drop(self) {
        let Environment {
            assigned: _,
            stored: _,
        } = self;
    }
}

impl<'a> Model for Environment<'a> {
    ghost use Rattle.std.specs.Prelude.{map, reverse};
    ghost use Rattle.myrial_meaning.specs.Meaning.{RelationEnvironment};

    ghost Value = { RelationEnvironment };

    ghost use Rattle.myrial_meaning.specs.inner.Assignments.{assignment_of};

    ghost view = { λ n.
        record {
          assigned = reverse (map assignment_of n.assigned.items);
          stored = reverse n.stored.items;
        } };
}

impl<'a> Environment<'a> {
    /// No name is assigned, and no key stored.
    pub fn new(alloc: Global) -> Environment<'a>
        ensures { result ≡ nothing_yet }
    {
        Environment {
            assigned: Vec::new(alloc),
            stored: Vec::new(alloc),
        }
    }

    /// What a name stands for: what was assigned to it last.
    pub fn assigned_to(&self, name: &Text) -> Option<&Held<'a>>
        ensures { option_map (λ held. table_of held.now) result ≡ assigned_to self.now name.now }
    {
        for i in (0..self.assigned.len()).rev() {
            let named = &self.assigned[i];
            if *named.name == *name {
                return Some(&named.held);
            }
        }
        None
    }

    /// The relation that was stored under a key last.
    fn stored_under(&self, key: &Key) -> Option<&Relation>
        ensures { option_copied result
            ≡ option_map (λ file. file.1) (find (λ file. same_key file.0 key.now) self.now.stored) }
    {
        for i in (0..self.stored.len()).rev() {
            let file = &self.stored[i];
            if file.0 == *key {
                return Some(&file.1);
            }
        }
        None
    }

    /// The relation under a key: what was stored there last, or else the file's.
    fn kept_under<'b>(&'b self, files: &'b Files, key: &Key) -> Option<&'b Relation>
        ensures { option_copied result ≡ kept_under files.entry.now self.entry.now key.now }
    {
        match self.stored_under(key) {
            Some(relation) => Some(relation),
            None => file_under(files, key),
        }
    }

    /// The relation of an operand, where it stands for one.
    pub fn operand<'b>(&'b self, files: &'b Files, operand: &Operand) -> Option<&'b Relation>
        ensures { option_copied result ≡ operand_of files.entry.now self.entry.now operand.now }
    {
        match operand {
            Operand::Named(name) => match self.assigned_to(name) {
                Some(held) => Some(held.relation()),
                None => None,
            },
            Operand::Scan(key) => self.kept_under(files, key),
            Operand::Load(name, _, _) => loaded_from(files, name),
        }
    }

    /// The relation of an operand to be held under another name, where it stands for one. That of
    /// a file is lent, and any other copied.
    pub fn held(
        &self,
        alloc: Global,
        files: &'a Files,
        operand: &Operand,
    ) -> Result<Option<Held<'a>>, Memory>
        ensures { IfOk result
            (λ held. option_map table_of held ≡ operand_of files.entry.now self.now operand.now) }
    {
        match operand {
            Operand::Named(name) => match self.assigned_to(name) {
                Some(held) => Ok(Some(held.again(alloc)?)),
                None => Ok(None),
            },
            Operand::Scan(key) => match self.stored_under(key) {
                Some(relation) => Ok(Some(Held::Made(relation.copy(alloc)?))),
                None => Ok(lent_from(files, key)),
            },
            Operand::Load(name, _, _) => match loaded_from(files, name) {
                Some(relation) => Ok(Some(Held::Lent(relation))),
                None => Ok(None),
            },
        }
    }

    /// The items of a comprehension with their relations; `None` where one stands for none.
    pub fn item_relations<'b>(
        &'b self,
        alloc: Global,
        files: &'b Files,
        items: &'b [FromItem],
    ) -> Result<Option<Vec<ItemRelation<'b>>>, Memory>
        ensures { IfOk result (λ found. option_map (λ v. v.items) found
            ≡ each_or_none (item_relation files.entry.now self.entry.now) items.entry.now) }
    {
        let mut sources = Vec::new(alloc);
        for item in items {
            let Some(relation) = self.operand(files, &item.source) else {
                return Ok(None);
            };
            sources.push(ItemRelation::over(&item.alias, relation))?;
        }
        Ok(Some(sources))
    }

    /// Lets a name stand for a relation from now on.
    pub fn assign(&mut self, name: &'a Text, held: Held<'a>) -> Result<(), Memory>
        ensures { OnOk result (self.new ≡ with_name self.old name.entry.now (table_of held.entry)) }
    {
        self.assigned.push(Assignment { name, held })?;
        Ok(())
    }

    /// Keeps a relation under a key from now on.
    pub fn keep(&mut self, key: Key, relation: Relation) -> Result<(), Memory>
        ensures { OnOk result (self.new ≡ with_key self.old key relation) }
    {
        self.stored.push((key, relation))?;
        Ok(())
    }

    /// Stores the relation of a name under a key, where it stands for one.
    pub fn store(&mut self, alloc: Global, name: &Text, key: &Key) -> Result<(), Memory>
        ensures { OnOk result
            (self.new ≡ option_map_or (with_key self.old key.now)
            (assigned_to self.old name.now) self.old) }
    {
        let Some(held) = self.assigned_to(name) else {
            return Ok(());
        };
        let relation = held.relation().copy(alloc)?;
        self.keep(key.copy(alloc)?, relation)
    }

    /// What was stored, in the order of the stores, each relation's rows in ascending order.
    pub fn into_stored(self, alloc: Global) -> Result<Stored, Memory>
        requires { length self.stored < 2 ^ 32 }
        ensures { IfOk result (λ stored. stored ≡ map sorted_file (reverse self.entry.stored)) }
    {
        let Environment { assigned, stored } = self;
        drop(assigned);
        let mut ordered = Stored::new(alloc);
        for (key, mut relation) in stored {
            relation.sort(alloc)?;
            ordered.push((key, relation))?;
        }
        Ok(ordered)
    }
}

/// The relation of the file of a key.
fn file_under<'a>(files: &'a Files, key: &Key) -> Option<&'a Relation>
    ensures { option_copied result
        ≡ option_map (λ file. file.1) (find (λ file. same_key file.0 key.now) files.entry.now) }
{
    for file in files.as_slice() {
        if file.0 == *key {
            return Some(&file.1);
        }
    }
    None
}

/// The relation of the loaded file of a name.
fn loaded_from<'a>(files: &'a Files, name: &Text) -> Option<&'a Relation>
    ensures { option_copied result ≡ loaded_from files.entry.now name.now }
{
    for file in files.as_slice() {
        let Key {
            user,
            program,
            name: own,
        } = &file.0;
        if user.as_str().is_empty() && program.as_str().is_empty() && *own == *name {
            return Some(&file.1);
        }
    }
    None
}

/// The relation of the file of a key, to be held under a name.
fn lent_from<'a>(files: &'a Files, key: &Key) -> Option<Held<'a>>
    ensures { option_map table_of result
        ≡ option_map (λ file. file.1) (find (λ file. same_key file.0 key.now) files.entry.now) }
{
    match file_under(files, key) {
        Some(relation) => Some(Held::Lent(relation)),
        None => None,
    }
}
