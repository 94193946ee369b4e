//! Shelves: where the engine reads its files.
ghost use Rattle.std.specs.Prelude.{◌≡◌, ℕ, ◌≤◌, List, Err, OnOk, OnErr};
ghost use Rattle.std.specs.Io.{StartsWith};
ghost use Rattle.rel_io.specs.Outside.{Content, Rose, AppendsContent, MayBeMissing};

use std::alloc::AllocError;
use std::error::Error;
use std::fmt;

/// Why a file was not read.
#[derive(Clone, Copy, Debug, PartialEq, Eq)]
pub enum ShelfFault {
    /// The outside failed.
    Failed,
    /// Nothing is there under the name.
    Absent,
    /// Memory was refused.
    Memory,
}

/// The refusal in words.
impl fmt::Display for ShelfFault {
    ghost use Rattle.std.specs.Prelude.{Some};
    ghost use Rattle.rel_io.specs.Refusals.{shelf_fault_text};

    ghost output = { λ fault. Some (shelf_fault_text fault) };

    fn fmt<W: fmt::Write>(&self, f: &mut fmt::Formatter<W>) -> fmt::Result {
        match self {
            ShelfFault::Failed => write!(f, "the file could not be read"),
            ShelfFault::Absent => write!(f, "the file is not there"),
            ShelfFault::Memory => write!(f, "out of memory"),
        }
    }
}

impl Error for ShelfFault {}

impl From<AllocError> for ShelfFault {
    ghost use Rattle.std.specs.Prelude.{◌≡◌};
    ghost use Rattle.rel_io.specs.declared.shelves.ShelfFault.TheVariants as refusal;

    ghost from_gives = { λ _ e. e ≡ refusal.Memory };

    fn from(_refused: AllocError) -> ShelfFault {
        ShelfFault::Memory
    }
}

/// Files that are read by their names.
///
/// A shelf may tell its content, as one in memory does, or tell nothing. It counts its faults and
/// its misses, so that each refusal has a cause that the caller can see.
pub trait Shelf {
    // What is known of the file of each name.
    ghost content: { Self → List ℕ → Content };

    // How often the outside failed.
    ghost faults: { Self → ℕ };

    // How often a name was not there.
    ghost misses: { Self → ℕ };

    /// Appends the first `most` bytes of the file of this name, or all of a shorter one, to `into`.
    ///
    /// After a refusal `into` begins with what it held before.
    fn fetch(&mut self, name: &str, most: u64, into: &mut Vec<u8>) -> Result<(), ShelfFault>
        ensures ok { OnOk result (AppendsContent (content self.old name.now) most
            into.old.items into.new.items) }
        ensures err { OnErr result (StartsWith into.new.items into.old.items) }

        // Each refusal but that of memory has its cause.
        ensures failed { result ≡ Err ShelfFault.Failed → Rose (faults self.old) (faults self.new) }
        ensures absent { result ≡ Err ShelfFault.Absent → Rose (misses self.old) (misses self.new) }
        ensures absent_only_missing { result ≡ Err ShelfFault.Absent →
            MayBeMissing (content self.old name.now) }

        // A fetch changes no file, and no count falls.
        ensures content { content self.new ≡ content self.old }
        ensures faults { faults self.old ≤ faults self.new }
        ensures misses { misses self.old ≤ misses self.new };
}
