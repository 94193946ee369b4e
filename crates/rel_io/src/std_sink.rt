//! Standard output and standard error.
ghost use Rattle.std.specs.Prelude.{◌≡◌, ◌^◌, ◌<◌, ◌≤◌, [], length, IfOk, IfErr, OnOk, OnErr};
ghost use Rattle.std.specs.Io.Buffered.{writer_inner, writer_buffer, writer_capacity, writer_contents};
ghost use Rattle.std.specs.Io.KnownBytes.{Keeps, WriteAppends};
ghost use Rattle.rel_io.specs.Outside.{Rose, capped_sum};

use crate::{Sink, SinkFault};
use rel_base::Memory;
use std::alloc::Global;
use std::io::{BufWriter, Write};
use std::marker::Model;

/// A sink over a writer of std, as `rt.stdout()` and `rt.stderr()`.
///
/// It has taken what the writer holds; standard output and standard error don't tell that. Every
/// error of the writer is a fault, and so is taking nothing of a piece. It never wants for memory.
#[derive(Drop)]
pub struct StdSink<W> {
    writer: W,
    faults: u64,
}

// Contracts see the writer and the number of faults.
impl<W> Model for StdSink<W> {
    ghost use Rattle.std.specs.Prelude.{ℕ};

    ghost Value = { W × ℕ };

    ghost view = { λ s. (s.writer, s.faults) };
}

impl<W> StdSink<W> {
    /// A sink that hands each piece to the writer, as standard error wants it.
    pub fn new(writer: W) -> StdSink<W>
        ensures { result ≡ (writer, 0) }
    {
        StdSink { writer, faults: 0 }
    }

    /// Counts a fault.
    fn fault(&mut self) -> SinkFault
        ensures failed { result ≡ SinkFault.Failed }
        ensures writer { self.new.0 ≡ self.old.0 }
        ensures faults { self.new.1 ≡ capped_sum self.old.1 1 }
        ensures bound { self.old.1 < 2 ^ 64 }
    {
        self.faults = self.faults.saturating_add(1);
        SinkFault::Failed
    }
}

impl<W: Write + Drop> StdSink<BufWriter<W>> {
    /// A sink that gathers pieces in a buffer of 65,536 bytes, as standard output wants it.
    ///
    /// It may keep bytes back until `finish`.
    pub fn buffered(alloc: Global, writer: W) -> Result<StdSink<BufWriter<W>>, Memory>
        ensures inner { IfOk result (λ s. writer_inner s.0 ≡ writer) }
        ensures empty { IfOk result (λ s. writer_buffer s.0 ≡ []) }
        ensures capacity { IfOk result (λ s. writer_capacity s.0 ≡ 65536) }
        ensures faults { IfOk result (λ s. s.1 ≡ 0) }
    {
        match BufWriter::with_capacity(alloc, 65536, writer) {
            Ok(writer) => Ok(StdSink::new(writer)),
            Err(_) => Err(Memory),
        }
    }

    /// Hands on what was kept back. It has to be called before the program ends.
    ///
    /// After `Ok` nothing is kept back. After a fault it may be called again.
    pub fn finish(&mut self) -> Result<(), SinkFault>
        ensures taken { Keeps (writer_contents W.contents self.old.0)
            (writer_contents W.contents self.new.0) }
        ensures ok { OnOk result (writer_buffer self.new.0 ≡ []) }
        ensures ok_faults { OnOk result (self.new.1 ≡ self.old.1) }
        ensures err { IfErr result (λ e. e ≡ SinkFault.Failed) }
        ensures err_faults { OnErr result (self.new.1 ≡ capped_sum self.old.1 1) }
    {
        match self.writer.flush() {
            Ok(()) => Ok(()),
            Err(_) => Err(self.fault()),
        }
    }
}

impl<W: Write> Sink for StdSink<W> {
    ghost taken = { λ s. W.contents s.0 };

    ghost faults = { λ s. s.1 };

    ghost wants = { λ _. 0 };

    fn write(&mut self, piece: &[u8]) -> Result<usize, SinkFault>
        requires { 0 < length piece.now }
        ensures taken { WriteAppends (W.contents self.old.0) (W.contents self.new.0)
            result piece.now }
        ensures some { IfOk result (λ n. 0 < n) }
        ensures within { IfOk result (λ n. n ≤ length piece.now) }

        // The count rises exactly where the piece is refused.
        ensures refusal { IfErr result (λ e. e ≡ SinkFault.Failed) }
        ensures ok_faults { OnOk result (self.new.1 ≡ self.old.1) }
        ensures err_faults { OnErr result (self.new.1 ≡ capped_sum self.old.1 1) }
        ensures failed { OnErr result (Rose self.old.1 self.new.1) }
        ensures faults { self.old.1 ≤ self.new.1 }
    {
        match self.writer.write(piece) {
            Ok(count) if count > 0 => Ok(count),
            Ok(_) | Err(_) => Err(self.fault()),
        }
    }
}
