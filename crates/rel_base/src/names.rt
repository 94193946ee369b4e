//! Keys: the names of relations, and the relations under them.
ghost use Rattle.std.specs.Prelude.{◌≡◌, ℕ, ◌+◌, ◌-◌, ◌^◌, ◌<◌, ◌↔◌, ◌==◌, [], ◌∷◌, ◌++◌, length, IsSome, IfOk, OnOk, OnErr, option_map, slice_index_or, false};
ghost use Rattle.std.specs.Option.{option_to_list, option_copied};

use crate::{Duplicate, Items, Memory, Relation, Text};
use std::alloc::Global;
use std::fmt;
use std::marker::Model;

/// The name of a relation: a user, a program and a name.
#[derive(Debug, PartialEq, Eq, Hash)]
pub struct Key {
    /// The user, `public` where a script names none.
    pub user: Text,
    /// The program, `adhoc` where a script names none.
    pub program: Text,
    /// The name of the relation within the program.
    pub name: Text,
}

// Written out, since a derived drop is proved anew at each place where a value is let go.
impl Drop for Key {
    fn drop(self) {
        let Key {
            user: _,
            program: _,
            name: _,
        } = self;
    }
}

/// Keys, in order.
pub type Keys = Items<Key>;

impl Key {
    ghost use Rattle.rel_base.specs.Keys.{shelf_name_of};

    /// The name of the file that holds this relation: the key's full text and `.csv`.
    pub fn shelf_name(&self, alloc: Global) -> Result<Text, Memory>
        ensures { IfOk result (λ name. name ≡ shelf_name_of self.now) }
    {
        let text = format!(in alloc; "{self}.csv")?;
        Text::of(alloc, text.as_str())
    }
}

/// The full text of a key, as `public:adhoc:R`.
impl fmt::Display for Key {
    ghost use Rattle.std.specs.Prelude.{Some};
    ghost use Rattle.rel_base.specs.Keys.{key_text};

    ghost output = { λ k. Some (key_text k) };

    fn fmt<W: fmt::Write>(&self, f: &mut fmt::Formatter<W>) -> fmt::Result {
        let user = self.user.as_str();
        let program = self.program.as_str();
        let name = self.name.as_str();
        write!(f, "{user}:{program}:{name}")
    }
}

impl Duplicate for Key {
    fn copy(&self, alloc: Global) -> Result<Key, Memory> {
        let user = self.user.copy(alloc)?;
        let program = self.program.copy(alloc)?;
        let name = self.name.copy(alloc)?;
        Ok(Key {
            user,
            program,
            name,
        })
    }
}

/// What the stores of a script stored, in the order of the stores. Unlike in `Files`, a key may
/// stand more than once.
pub type Stored = Items<(Key, Relation)>;

/// Relations under distinct keys, in the order in which they came.
pub struct Files {
    files: Items<(Key, Relation)>,
}

// Written out, since a derived drop is proved anew at each place where a value is let go.
impl Drop for Files {
    fn drop(self) {
        let Files { files: _ } = self;
    }
}

impl Model for Files {
    ghost use Rattle.std.specs.Prelude.{List};
    ghost use Rattle.rel_base.specs.Keys.{File, HasDistinctKeys};

    ghost Value = { List File };

    ghost view = { λ f. f.files };

    ghost invariant = { λ f. HasDistinctKeys f.files };
}

impl Files {
    ghost use Rattle.rel_base.specs.Keys.{HasDistinctKeys, holds_key};

    /// No file.
    pub fn new(alloc: Global) -> Files
        ensures { result ≡ [] }
    {
        Files {
            files: Items::new(alloc),
        }
    }

    /// The number of files.
    pub fn len(&self) -> u32
        ensures { result ≡ length self.now }
    {
        self.files.len()
    }

    /// Whether there is no file.
    pub fn is_empty(&self) -> bool
        ensures { result ≡ (length self.now == 0) }
    {
        self.files.is_empty()
    }

    /// File number `i`, from 0.
    pub fn get(&self, i: u32) -> &(Key, Relation)
        requires { i < length self.now }
        ensures { result.now ≡ slice_index_or self.now i result.now }
    {
        self.files.get(i)
    }

    /// All files, in the order in which they came.
    pub fn as_slice(&self) -> &[(Key, Relation)]
        ensures value { result.now ≡ self.now }
        ensures distinct { HasDistinctKeys self.now }
    {
        self.files.as_slice()
    }

    /// Adds a file under a new key. After `Memory` the files are as they were, and this one is let
    /// go.
    pub fn push(&mut self, file: (Key, Relation)) -> Result<(), Memory>
        requires room { length self.old < 2 ^ 32 - 1 }
        requires new_key { holds_key self.old file.0 ≡ false }
        ensures ok { OnOk result (self.new ≡ self.old ++ file ∷ []) }
        ensures err { OnErr result (self.new ≡ self.old) }
    {
        self.files.push(file)
    }

    /// Takes the last file; `None` where there is none.
    pub fn pop(&mut self) -> Option<(Key, Relation)>
        ensures items { self.old ≡ self.new ++ option_to_list result }
        ensures some { IsSome result ↔ (0 < length self.old) }
    {
        self.files.pop()
    }
}
