//! The faults of a run.
use crate::Memory;
use std::error::Error;
use std::fmt;

/// Why the run of a script has no result. A statement is named by its number in the script, from 1.
#[derive(Debug, Clone, Copy, PartialEq, Eq)]
pub enum RunFault {
    /// The statement has more rows or candidates than a run may hold.
    TooManyRows {
        /// The number of the statement.
        statement: u32,
    },
    /// A number that the statement computes for some row doesn't fit 64 bits.
    Overflow {
        /// The number of the statement.
        statement: u32,
    },
    /// A sum of the statement doesn't fit 64 bits.
    AggregateOverflow {
        /// The number of the statement.
        statement: u32,
    },
    /// Memory was refused.
    Memory,
}

/// The fault in words, as `statement 3: too many rows`.
impl fmt::Display for RunFault {
    ghost use Rattle.std.specs.Prelude.{Some};
    ghost use Rattle.rel_base.specs.Faults.{fault_text};

    ghost output = { λ fault. Some (fault_text fault) };

    fn fmt<W: fmt::Write>(&self, f: &mut fmt::Formatter<W>) -> fmt::Result {
        let (statement, what) = match self {
            RunFault::TooManyRows { statement } => (statement, "too many rows"),
            RunFault::Overflow { statement } => (statement, "overflow"),
            RunFault::AggregateOverflow { statement } => (statement, "aggregate overflow"),
            RunFault::Memory => return f.write_str("out of memory"),
        };
        write!(f, "statement {statement}: {what}")
    }
}

impl Error for RunFault {}

impl From<Memory> for RunFault {
    ghost use Rattle.std.specs.Prelude.{◌≡◌};
    ghost use Rattle.rel_base.specs.declared.faults.RunFault.TheVariants as fault;

    ghost from_gives = { λ _ given. given ≡ fault.Memory };

    fn from(_refused: Memory) -> RunFault {
        RunFault::Memory
    }
}
