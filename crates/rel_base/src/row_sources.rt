//! What makes rows where they are to stand.
ghost use Rattle.std.specs.Prelude.{◌≡◌, ℕ, List, ◌++◌, length, take, IfErr, OnOk};
ghost use Rattle.rel_base.specs.declared.values.Value.{Value as Datum};

use crate::Value;

/// What makes the values of one row, one after another, at the place where the row is to stand.
pub trait RowSource {
    /// Why there is no row.
    type Fault;

    ghost values: { Self → List Datum };

    ghost is_made: { Self → Type 0 };

    ghost is_fault: { Self → Self.Fault → Type 0 };

    /// The number of values.
    fn width(&self) -> u32
        ensures { result ≡ length (values self.now) };

    /// Puts the values behind those of a list. After a fault some of them may stand there.
    fn put_values(&self, into: &mut Vec<Value>) -> Result<(), Self::Fault>
        ensures put { OnOk result (into.new.items ≡ into.old.items ++ values self.now) }
        ensures made { OnOk result (is_made self.now) }
        ensures kept { take (length into.old.items) into.new.items ≡ into.old.items }
        ensures fault { IfErr result (λ fault. is_fault self.now fault) };

    /// What is answered where there is no memory.
    fn refused(&self) -> Self::Fault
        ensures { is_fault self.now result };
}
