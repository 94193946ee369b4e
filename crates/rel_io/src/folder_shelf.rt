//! A shelf of the files of a folder.
ghost use Rattle.std.specs.Prelude.{◌≡◌, ◌≢◌, ◌+◌, ◌≤◌, ◌↔◌, ◌++◌, Err, IfOk, IfSome, IsErr, IsErrAnd, OnOk, OnErr, length, take};
ghost use Rattle.std.specs.Io.{StartsWith};
ghost use Rattle.std.specs.IoError.{error_kind};
ghost use Rattle.rel_io.specs.Outside.{AppendsContent, Rose, untold};

use crate::{Shelf, ShelfFault};
use std::fs::OpenFile;
use std::io::{ErrorKind, Read};
use std::marker::Model;
use std::rt::Files;
use std::{fs, io};

/// How many bytes are asked of a file at once.
const CHUNK: usize = 65536;

/// The files of the current folder, read through the runtime. It tells no content.
///
/// A name is a path from the current folder. A path that is not there, as the empty one, is a
/// miss. Every other error is a fault: a folder in a file's place, a name that is too long or has
/// a NUL, a file that may not be read.
#[derive(Drop)]
pub struct FolderShelf<'r, R> {
    rt: &'r R,
    faults: u64,
    misses: u64,
}

impl<'r, R> Model for FolderShelf<'r, R> {
    ghost use Rattle.rel_io.specs.Shelves.{ShelfCounts};

    ghost Value = { ShelfCounts };

    ghost view = { λ s. record { faults = s.faults; misses = s.misses } };
}

impl<'r, R> FolderShelf<'r, R> {
    /// A shelf of the current folder, without faults or misses so far.
    pub fn new(rt: &'r R) -> FolderShelf<'r, R>
        ensures { result ≡ record { faults = 0; misses = 0 } }
    {
        FolderShelf {
            rt,
            faults: 0,
            misses: 0,
        }
    }
}

impl<R: Files> Shelf for FolderShelf<'_, R> {
    ghost use Rattle.rel_io.specs.Adapters.{counts_after};

    ghost content = { λ _ _. untold };

    ghost faults = { λ s. s.faults };

    ghost misses = { λ s. s.misses };

    fn fetch(&mut self, name: &str, most: u64, into: &mut Vec<u8>) -> Result<(), ShelfFault>
        ensures ok { OnOk result (AppendsContent untold most into.old.items into.new.items) }
        ensures err { OnErr result (StartsWith into.new.items into.old.items) }
        ensures failed { result ≡ Err ShelfFault.Failed → Rose self.old.faults self.new.faults }
        ensures absent { result ≡ Err ShelfFault.Absent → Rose self.old.misses self.new.misses }
        ensures after { self.new ≡ counts_after result self.old }
        ensures faults { self.old.faults ≤ self.new.faults }
        ensures misses { self.old.misses ≤ self.new.misses }
    {
        let answer = read_opened(fs::open(self.rt, name), most, into);
        match answer {
            Err(ShelfFault::Failed) => self.faults = self.faults.saturating_add(1),
            Err(ShelfFault::Absent) => self.misses = self.misses.saturating_add(1),
            Err(ShelfFault::Memory) | Ok(()) => {}
        }
        answer
    }
}

/// Appends the first `most` bytes of a file that was opened, or says why it was not.
///
/// The length that a file tells is no more than room for it: a pipe tells 0, and is read to its end.
fn read_opened<F: OpenFile + Read + Drop>(
    opened: io::Result<F>,
    most: u64,
    into: &mut Vec<u8>,
) -> Result<(), ShelfFault>
    ensures told { OnOk result (IfOk opened (λ file. IfSome (F.remaining file)
        (λ bytes. into.new.items ≡ into.old.items ++ take most bytes))) }
    ensures ok { OnOk result (AppendsContent untold most into.old.items into.new.items) }
    ensures err { OnErr result (StartsWith into.new.items into.old.items) }

    // A file that was not opened is absent only where it was not found, and wants for no memory.
    ensures refused { OnErr opened (IsErr result) }
    ensures absent { (result ≡ Err ShelfFault.Absent)
        ↔ IsErrAnd opened (λ error. error_kind error ≡ ErrorKind.NotFound) }
    ensures never_memory { OnErr opened (result ≢ Err ShelfFault.Memory) }
{
    let mut file = match opened {
        Ok(file) => file,
        Err(error) => return Err(fault_of(&error)),
    };
    let Ok(metadata) = file.metadata() else {
        return Err(ShelfFault::Failed);
    };
    into.reserve(most.min(metadata.len()) as usize)?;
    read_first(&mut file, most, into)
}

/// Why a file was not opened.
fn fault_of(error: &io::Error) -> ShelfFault
    ensures absent { (result ≡ ShelfFault.Absent) ↔ (error_kind error.now ≡ ErrorKind.NotFound) }
    ensures never_memory { result ≢ ShelfFault.Memory }
{
    match error.kind() {
        ErrorKind::NotFound => ShelfFault::Absent,
        _ => ShelfFault::Failed,
    }
}

/// Appends the next `most` bytes that a reader gives, or all until its end.
pub(crate) fn read_first<F: Read>(
    file: &mut F,
    most: u64,
    into: &mut Vec<u8>,
) -> Result<(), ShelfFault>
    ensures told { OnOk result (IfSome (F.remaining file.old)
        (λ bytes. into.new.items ≡ into.old.items ++ take most bytes)) }
    ensures ok { OnOk result (AppendsContent untold most into.old.items into.new.items) }
    ensures err { OnErr result (StartsWith into.new.items into.old.items) }
    ensures never_absent { result ≢ Err ShelfFault.Absent }
{
    let mut chunk = [0; CHUNK];
    let mut left = most;
    while left > 0 {
        let room = CHUNK.min(left as usize);
        match file.read(&mut chunk[..room]) {
            Ok(0) => return Ok(()),
            Ok(count) => {
                into.extend_from_slice(&chunk[..count])?;
                left -= count as u64;
            }
            Err(_) => return Err(ShelfFault::Failed),
        }
    }
    Ok(())
}
