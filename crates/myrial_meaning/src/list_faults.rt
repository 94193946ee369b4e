//! Why the rows of a comprehension are not listed to the end.
use rel_base::Memory;

/// Why the rows of a comprehension are not listed to the end.
#[derive(Clone, Copy, Debug, PartialEq, Eq)]
pub enum ListFault {
    /// There are more candidates than a run may hold.
    TooManyRows,
    /// Memory was refused.
    Memory,
}

impl From<Memory> for ListFault {
    ghost use Rattle.std.specs.Prelude.{◌≡◌};
    ghost use Rattle.myrial_meaning.specs.declared.list_faults.ListFault.TheVariants as fault;

    ghost from_gives = { λ _ given. given ≡ fault.Memory };

    fn from(_refused: Memory) -> ListFault {
        ListFault::Memory
    }
}
