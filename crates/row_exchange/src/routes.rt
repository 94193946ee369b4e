//! Where rows go.
ghost use Rattle.std.specs.Prelude.{◌≡◌, ℕ, List, [], ◌∷◌, IfSome};
ghost use Rattle.rel_base.specs.declared.values.Value.{Value as Datum};

use arrayvec::ArrayVec;
use rel_base::{Items, Spread, Value};

/// The rows of some atoms: for each atom a list of rows for each worker, at which they lie.
pub type Spreads = Items<Spread>;

/// The numbers of the cells that a row goes to.
pub type Cells = ArrayVec<u32, 64>;

/// How large an exchange is.
#[derive(Clone, Copy, Debug, PartialEq, Eq)]
pub struct Size {
    /// The number of workers, 1 to 64: each sends to all, itself among them.
    pub workers: u32,
    /// The most messages that wait in the inbox of a worker, 1 to 1,024.
    pub capacity: u32,
    /// The most rows of a batch, 1 to 4,096.
    pub batch: u32,
}

/// Where the rows of each atom go.
pub trait Route {
    // The rows of an atom that it knows the cells of.
    ghost accepts: { Self → ℕ → List Datum → Type 0 };

    // The cells that a row of an atom goes to.
    ghost cells: { Self → ℕ → List Datum → List ℕ };

    /// The cells that a row of an atom goes to, put into a list that is empty.
    fn cells(&self, atom: u32, row: &[Value], into: &mut Cells)
        requires accepted { accepts self.now atom row.now }
        requires empty { into.old.items ≡ [] }
        ensures { into.new.items ≡ cells self.now atom row.now };

    /// The one cell that each row of an atom goes to, where the route knows without the rows that
    /// there is one.
    fn only_cell(&self, atom: u32) -> Option<u32>
        ensures { IfSome result (λ cell. (row : List Datum) → accepts self.now atom row
            → cells self.now atom row ≡ cell ∷ []) }
    {
        None
    }
}
