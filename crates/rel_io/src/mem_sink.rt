//! A sink in memory.
ghost use Rattle.std.specs.Prelude.{◌≡◌, ◌<◌, ◌≤◌, ◌↔◌, [], Err, IfOk, IsTrue, length, min};

use crate::numbers::is_failing;
use crate::{Sink, SinkFault};
use rel_base::Places;
use std::alloc::Global;
use std::marker::Model;

/// A sink that keeps in memory what it takes, and tells it. It fails at chosen writes and at no
/// other.
#[derive(Debug, Drop)]
pub struct MemSink {
    taken: Vec<u8>,
    most: u64,
    failing: Places,
    writes: u64,
    faults: u64,
    wants: u64,
}

impl Model for MemSink {
    ghost use Rattle.std.specs.Prelude.{◌<◌};
    ghost use Rattle.rel_io.specs.InMemory.{MemorySink};

    ghost Value = { MemorySink };

    ghost view = { λ s. record {
      taken = s.taken.items;
      most = s.most;
      failing = s.failing;
      writes = s.writes;
      faults = s.faults;
      wants = s.wants;
    } };

    ghost invariant = { λ s. 0 < s.most };
}

impl MemSink {
    /// A sink that has taken nothing, takes at most `most` bytes of a piece, and answers `Failed`
    /// at the writes of the numbers in `failing`, counted from 1.
    pub fn new(alloc: Global, most: u64, failing: Places) -> MemSink
        requires { 0 < most }
        ensures { result ≡ record {
          taken = [];
          most = most;
          failing = failing;
          writes = 0;
          faults = 0;
          wants = 0;
        } }
    {
        MemSink {
            taken: Vec::new(alloc),
            most,
            failing,
            writes: 0,
            faults: 0,
            wants: 0,
        }
    }

    /// The bytes taken so far.
    pub fn taken(&self) -> &[u8]
        ensures { result.now ≡ self.now.taken }
    {
        self.taken.as_slice()
    }
}

impl Sink for MemSink {
    ghost use Rattle.std.specs.Prelude.{Some};
    ghost use Rattle.rel_io.specs.InMemory.{write_fails, sink_after};

    ghost taken = { λ s. Some s.taken };

    ghost faults = { λ s. s.faults };

    ghost wants = { λ s. s.wants };

    fn write(&mut self, piece: &[u8]) -> Result<usize, SinkFault>
        requires { 0 < length piece.now }
        ensures ok { IfOk result (λ n. n ≡ min self.old.most (length piece.now)) }
        ensures some { IfOk result (λ n. 0 < n) }
        ensures failed { (result ≡ Err SinkFault.Failed) ↔ IsTrue (write_fails self.old) }
        ensures after { self.new ≡ sink_after result self.old piece.now }
        ensures faults { self.old.faults ≤ self.new.faults }
        ensures wants { self.old.wants ≤ self.new.wants }
    {
        self.writes = self.writes.saturating_add(1);
        if is_failing(&self.failing, self.writes) {
            self.faults = self.faults.saturating_add(1);
            return Err(SinkFault::Failed);
        }
        let count = piece.len().min(self.most as usize);
        if self.taken.extend_from_slice(&piece[..count]).is_err() {
            self.wants = self.wants.saturating_add(1);
            return Err(SinkFault::Memory);
        }
        Ok(count)
    }
}
