//! Sinks: where the engine writes its output.
ghost use Rattle.std.specs.Prelude.{◌≡◌, ℕ, ◌<◌, ◌≤◌, List, Option, Err, IfOk, length};
ghost use Rattle.std.specs.Io.KnownBytes.{WriteAppends};
ghost use Rattle.rel_io.specs.Outside.{Rose};

use std::error::Error;
use std::fmt;

/// Why bytes were not taken.
#[derive(Clone, Copy, Debug, PartialEq, Eq)]
pub enum SinkFault {
    /// The outside failed.
    Failed,
    /// Memory was refused.
    Memory,
}

/// The refusal in words.
impl fmt::Display for SinkFault {
    ghost use Rattle.std.specs.Prelude.{Some};
    ghost use Rattle.rel_io.specs.Refusals.{sink_fault_text};

    ghost output = { λ fault. Some (sink_fault_text fault) };

    fn fmt<W: fmt::Write>(&self, f: &mut fmt::Formatter<W>) -> fmt::Result {
        match self {
            SinkFault::Failed => write!(f, "the output could not be written"),
            SinkFault::Memory => write!(f, "out of memory"),
        }
    }
}

impl Error for SinkFault {}

/// Takes bytes, a piece at a time.
///
/// A sink may tell what it took, as one in memory does, or tell nothing. It counts its faults and
/// its wants of memory, so that each refusal has a cause that the caller can see.
pub trait Sink {
    // The bytes taken so far, where they are known.
    ghost taken: { Self → Option (List ℕ) };

    // How often the outside failed.
    ghost faults: { Self → ℕ };

    // How often memory was refused.
    ghost wants: { Self → ℕ };

    /// Takes the first bytes of a piece, at least one, and says how many. A refusal takes nothing.
    fn write(&mut self, piece: &[u8]) -> Result<usize, SinkFault>
        requires { 0 < length piece.now }
        ensures taken { WriteAppends (taken self.old) (taken self.new) result piece.now }
        ensures some { IfOk result (λ n. 0 < n) }
        ensures within { IfOk result (λ n. n ≤ length piece.now) }

        // Each refusal has its cause.
        ensures failed { result ≡ Err SinkFault.Failed → Rose (faults self.old) (faults self.new) }
        ensures memory { result ≡ Err SinkFault.Memory → Rose (wants self.old) (wants self.new) }

        // No count falls.
        ensures faults { faults self.old ≤ faults self.new }
        ensures wants { wants self.old ≤ wants self.new };
}
