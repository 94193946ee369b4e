//! The program `myria`: runs a script over the relation files of the current folder.
//!
//! Stands on `myria_top`, which does the work and whose `run_words` carries every promise, and on
//! `rel_io` for the folder and the standard streams. Promises nothing of its own.
#![tactic(auto)]

use myria_top::{Outcome, fresh_taps, run_words, tell};
use rel_base::{Memory, Text};
use rel_io::{FolderShelf, StdSink};
use std::alloc::Global;
use std::env;
use std::io::{ErrorKind, Write};
use std::process::ExitCode;
use std::rt::{Env, Files};
use std::sync::Wait;
use std::thread::Threads;

/// The exit status where there is no memory even to begin.
const NO_MEMORY: u8 = 13;

/// The size, in bytes, of a block by which the C library learns to keep what is freed: nearly the
/// greatest that it learns from.
const LARGE_BLOCK: usize = 31 << 20;

fn main(rt: HostRuntime) -> ExitCode {
    match run(&rt, rt.stdout(), rt.stderr()) {
        Ok(status) => ExitCode::from(status),
        Err(Memory) => ExitCode::from(NO_MEMORY),
    }
}

/// Runs the words of the command line, and gives the exit status.
fn run<R, O, E>(rt: &R, stdout: O, stderr: E) -> Result<u8, Memory>
where
    R: AllocGlobal + Env + Files + Threads + Wait + Sync,
    O: Write + Drop,
    E: Write + Drop,
{
    let alloc = rt.alloc();
    keep_freed_memory(alloc);
    let words = words(rt)?;
    let mut taps = fresh_taps(alloc)?;
    let mut shelf = FolderShelf::new(rt);
    let mut out = StdSink::buffered(alloc, stdout)?;
    let mut err = StdSink::new(stderr);
    let outcome = run_words(
        rt,
        alloc,
        words.as_slice(),
        &mut shelf,
        &mut out,
        &mut err,
        &mut taps,
    );
    // Bytes may have been kept back until now, so `Done` is true only once they are handed on.
    if out.finish().is_err() && matches!(&outcome, Outcome::Done { receipts: _ }) {
        let _ = tell(&mut err, "", &Outcome::WriteFault);
        return Ok(Outcome::WriteFault.status());
    }
    Ok(outcome.status())
}

/// Lets the C library keep memory that is freed, so that the lists of one step stand where those of
/// the steps before it stood, and the system hands out fewer pages.
///
/// glibc gives a large block back to the system when it is freed, and from then on keeps freed
/// blocks up to that size (`mallopt(3)`, the dynamic threshold for `mmap`). Nothing is written into
/// the block, so it takes no memory; where there is none, all stays as it was.
fn keep_freed_memory(alloc: Global) {
    let _ = Vec::<u8>::with_capacity(alloc, LARGE_BLOCK);
}

/// The words of the command line, the program's name first; none where one of them isn't UTF-8.
fn words<R: AllocGlobal + Env>(rt: &R) -> Result<Vec<Text>, Memory> {
    let alloc = rt.alloc();
    let mut words = Vec::new(alloc);
    let args = match env::args(rt) {
        Ok(args) => args,
        Err(error) if error.kind() == ErrorKind::OutOfMemory => return Err(Memory),
        Err(_) => return Ok(words),
    };
    for arg in args {
        let word = Text::of(alloc, arg.as_str())?;
        words.push(word)?;
    }
    Ok(words)
}
