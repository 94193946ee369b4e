//! A shelf in memory.
ghost use Rattle.std.specs.Prelude.{◌≡◌, ◌≤◌, ◌↔◌, ◌++◌, take, Err, IfErr, IsTrue, OnOk, OnErr};
ghost use Rattle.std.specs.Option.{option_copied};
ghost use Rattle.rel_io.specs.Outside.{AppendsContent};
ghost use Rattle.rel_io.specs.InMemory.{file_of as file_among};

use crate::numbers::is_failing;
use crate::{Shelf, ShelfFault};
use rel_base::{Items, Places, Text};
use std::marker::Model;

/// The bytes of a file.
pub type Bytes = Items<u8>;

/// Names, and the bytes of the file of each.
pub type Contents = Items<(Text, Bytes)>;

/// A shelf that holds its files in memory and tells them. It fails at chosen fetches and at no
/// other.
#[derive(Debug, Drop)]
pub struct MemShelf {
    contents: Contents,
    failing: Places,
    fetches: u64,
    faults: u64,
    misses: u64,
}

impl Model for MemShelf {
    ghost use Rattle.rel_io.specs.InMemory.{MemoryShelf};

    ghost Value = { MemoryShelf };

    ghost view = { λ s. record {
      files = s.contents;
      failing = s.failing;
      fetches = s.fetches;
      faults = s.faults;
      misses = s.misses;
    } };
}

impl MemShelf {
    ghost use Rattle.rel_io.specs.InMemory.{HasDistinctNames};

    /// A shelf of these files, whose fetches of the numbers in `failing`, counted from 1, answer
    /// `Failed`.
    pub fn new(contents: Contents, failing: Places) -> MemShelf
        requires { HasDistinctNames contents }
        ensures { result ≡ record {
          files = contents;
          failing = failing;
          fetches = 0;
          faults = 0;
          misses = 0;
        } }
    {
        MemShelf {
            contents,
            failing,
            fetches: 0,
            faults: 0,
            misses: 0,
        }
    }
}

impl Shelf for MemShelf {
    ghost use Rattle.rel_io.specs.InMemory.{content_among, fetch_fails, fetch_misses, shelf_after};

    ghost content = { λ s. content_among s.files };

    ghost faults = { λ s. s.faults };

    ghost misses = { λ s. s.misses };

    fn fetch(&mut self, name: &str, most: u64, into: &mut Vec<u8>) -> Result<(), ShelfFault>
        ensures ok { OnOk result (AppendsContent (content_among self.old.files name.now) most
            into.old.items into.new.items) }
        ensures err { OnErr result (into.new.items ≡ into.old.items) }
        ensures failed { (result ≡ Err ShelfFault.Failed) ↔ IsTrue (fetch_fails self.old) }
        ensures absent { (result ≡ Err ShelfFault.Absent)
            ↔ IsTrue (fetch_misses self.old name.now) }
        ensures after { self.new ≡ shelf_after self.old name.now }
        ensures faults { self.old.faults ≤ self.new.faults }
        ensures misses { self.old.misses ≤ self.new.misses }
    {
        self.fetches = self.fetches.saturating_add(1);
        if is_failing(&self.failing, self.fetches) {
            self.faults = self.faults.saturating_add(1);
            return Err(ShelfFault::Failed);
        }
        let Some(file) = file_of(&self.contents, name) else {
            self.misses = self.misses.saturating_add(1);
            return Err(ShelfFault::Absent);
        };
        append_first(file.1.as_slice(), most, into)
    }
}

/// The file of this name, where there is one.
fn file_of<'a>(contents: &'a Contents, name: &str) -> Option<&'a (Text, Bytes)>
    ensures { option_copied result ≡ file_among contents.now name.now }
{
    contents
        .as_slice()
        .iter()
        .find(|file| file.0.as_str() == name)
}

/// Appends the first `most` bytes, or all of fewer.
fn append_first(bytes: &[u8], most: u64, into: &mut Vec<u8>) -> Result<(), ShelfFault>
    ensures ok { OnOk result (into.new.items ≡ into.old.items ++ take most bytes.now) }
    ensures err { OnErr result (into.new.items ≡ into.old.items) }
    ensures only { IfErr result (λ e. e ≡ ShelfFault.Memory) }
{
    let count = bytes.len().min(most as usize);
    into.extend_from_slice(&bytes[..count])?;
    Ok(())
}
