//! Why rows have no groups.
use rel_base::Memory;

/// Why rows have no groups.
#[derive(Clone, Copy, Debug, PartialEq, Eq)]
pub enum AggFault {
    /// A sum lies outside 64 bits.
    AggregateOverflow,
    /// There was no memory.
    Memory,
}

impl From<Memory> for AggFault {
    ghost use Rattle.std.specs.Prelude.{◌≡◌};
    ghost use Rattle.aggregate_ops.specs.declared.faults.AggFault.TheVariants as fault;

    ghost from_gives = { λ _ given. given ≡ fault.Memory };

    fn from(_refused: Memory) -> AggFault {
        AggFault::Memory
    }
}
