//! What the adapters answer where the operating system refuses: files and a writer that stand for
//! it refuse here, for every user alike.
use rel_base::Memory;
use rel_io::{FolderShelf, Shelf, ShelfFault, Sink, SinkFault, StdSink};
use std::alloc::Allocator;
use std::fs::{File, Metadata, OpenOptions};
use std::io;
use std::io::{ErrorKind, Write};
use std::rt::Files;

/// Files that can't be opened, for a reason of this kind.
#[derive(Drop)]
struct ClosedFiles(ErrorKind);

impl ClosedFiles {
    fn refuse<T>(&self) -> io::Result<T> {
        Err(io::Error::from(self.0))
    }
}

impl Files for ClosedFiles {
    type File = File;

    type Dir = File;

    fn open_file(&self, _how: &OpenOptions, _path: &str) -> io::Result<File> {
        self.refuse()
    }

    fn open_dir(&self, _path: &str) -> io::Result<File> {
        self.refuse()
    }

    fn metadata(&self, _path: &str) -> io::Result<Metadata> {
        self.refuse()
    }

    fn symlink_metadata(&self, _path: &str) -> io::Result<Metadata> {
        self.refuse()
    }

    fn copy(&self, _from: &str, _to: &str) -> io::Result<u64> {
        self.refuse()
    }

    fn rename(&self, _from: &str, _to: &str) -> io::Result<()> {
        self.refuse()
    }

    fn remove_file(&self, _path: &str) -> io::Result<()> {
        self.refuse()
    }

    fn create_dir(&self, _path: &str) -> io::Result<()> {
        self.refuse()
    }

    fn remove_dir(&self, _path: &str) -> io::Result<()> {
        self.refuse()
    }

    fn remove_dir_all<B: Allocator>(&self, _alloc: B, _path: &str) -> io::Result<()> {
        self.refuse()
    }
}

#[test]
fn a_file_is_absent_only_where_it_was_not_found(rt: HostRuntime) -> Result<(), Memory> {
    let table = [
        (ErrorKind::NotFound, ShelfFault::Absent),
        (ErrorKind::PermissionDenied, ShelfFault::Failed),
        (ErrorKind::NotADirectory, ShelfFault::Failed),
        (ErrorKind::IsADirectory, ShelfFault::Failed),
        (ErrorKind::FilesystemLoop, ShelfFault::Failed),
        (ErrorKind::InvalidFilename, ShelfFault::Failed),
        (ErrorKind::OutOfMemory, ShelfFault::Failed),
        (ErrorKind::Interrupted, ShelfFault::Failed),
    ];
    for (kind, fault) in table {
        let files = ClosedFiles(kind);
        let mut shelf = FolderShelf::new(&files);
        let mut into = Vec::new(rt.alloc());
        assert_eq!(rt; shelf.fetch("a", 6, &mut into), Err(fault), "{kind:?}");
    }
    Ok(())
}

/// A writer whose first call fails, for a reason of this kind. After that it takes everything.
#[derive(Drop)]
struct FailsOnce(Option<ErrorKind>);

impl Write for FailsOnce {
    fn write(&mut self, buf: &[u8]) -> io::Result<usize> {
        match self.0.take() {
            Some(kind) => Err(io::Error::from(kind)),
            None => Ok(buf.len()),
        }
    }

    fn flush(&mut self) -> io::Result<()> {
        Ok(())
    }
}

#[test]
fn a_failed_write_is_told_and_not_tried_again(rt: HostRuntime) {
    let mut sink = StdSink::new(FailsOnce(Some(ErrorKind::Interrupted)));
    assert_eq!(rt; sink.write(b"abcd"), Err(SinkFault::Failed));
    assert_eq!(rt; sink.write(b"abcd"), Ok(4));
}

#[test]
fn a_failed_finish_is_told_and_not_tried_again(rt: HostRuntime) -> Result<(), Memory> {
    let mut sink = StdSink::buffered(rt.alloc(), FailsOnce(Some(ErrorKind::BrokenPipe)))?;
    assert_eq!(rt; sink.write(b"abcd"), Ok(4));
    assert_eq!(rt; sink.finish(), Err(SinkFault::Failed));
    assert_eq!(rt; sink.finish(), Ok(()));
    Ok(())
}
