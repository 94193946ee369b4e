//! Columns that the same bits tell and the same pick emits, as where the least, the greatest and
//! the sum of one column are asked.
ghost use Rattle.std.specs.Prelude.{◌≡◌, ℕ, IfOk, OnOk, IsTrue, length};
ghost use Rattle.myrial_ast.specs.declared.scalars.Scalar.{Scalar as Pick};
ghost use Rattle.myrial_ast.specs.ScalarTrees.{scalar_tree_of};
ghost use Rattle.packed_rows.specs.declared.columns.PackedColumn.{PackedColumn};
ghost use Rattle.packed_rows.specs.inner.Twins.{IsTold, AreTold};
ghost use Rattle.packed_rows.specs.Words.{unpacked};

use crate::columns::PackedColumn;
use myrial_ast::Scalar;
use rel_base::Memory;
use std::alloc::Global;

/// Columns of words, and the picks that emit them, each once.
pub struct Singles {
    pub columns: Vec<PackedColumn>,
    pub picks: Vec<Scalar>,
}

// Written out, since a derived drop is proved anew at each place where a value is let go.
impl Drop for Singles {
    fn drop(self) {
        let Singles {
            columns: _,
            picks: _,
        } = self;
    }
}

impl Singles {
    /// Those of columns and picks, of which there is one for each column.
    pub fn of(alloc: Global, columns: &[PackedColumn], picks: &[Scalar]) -> Result<Singles, Memory>
        requires { length picks.now ≡ length columns.now }
        ensures { IfOk result
            (λ made. AreTold made.columns.items made.picks.items columns.now picks.now) }
    {
        let mut singles = Singles {
            columns: Vec::new(alloc),
            picks: Vec::new(alloc),
        };
        for place in 0..columns.len() {
            singles.add(alloc, columns[place], &picks[place])?;
        }
        Ok(singles)
    }

    /// Adds a column that this pick emits, unless one tells it already.
    fn add(&mut self, alloc: Global, column: PackedColumn, pick: &Scalar) -> Result<(), Memory>
        requires { length self.old.picks.items ≡ length self.old.columns.items }
        ensures long { OnOk result (length self.new.picks.items ≡ length self.new.columns.items) }
        ensures told { OnOk result
            (IsTold self.new.columns.items self.new.picks.items column pick.now) }
        ensures kept { OnOk result ((c : PackedColumn) (p : Pick)
            → IsTold self.old.columns.items self.old.picks.items c p
            → IsTold self.new.columns.items self.new.picks.items c p) }
    {
        if tell(&self.columns, &self.picks, column, pick) {
            return Ok(());
        }
        self.columns.push(column)?;
        self.picks.push(pick.copy(alloc)?)?;
        Ok(())
    }
}

/// Whether one of these columns, each emitted by its pick, is this one, emitted by this pick.
fn tell(columns: &[PackedColumn], picks: &[Scalar], column: PackedColumn, pick: &Scalar) -> bool
    requires { length picks.now ≡ length columns.now }
    ensures { IsTrue result → IsTold columns.now picks.now column pick.now }
{
    for place in 0..columns.len() {
        if is_same_column(columns[place], column) && is_same_place(&picks[place], pick) {
            return true;
        }
    }
    false
}

/// Whether two columns tell the same of each word.
fn is_same_column(a: PackedColumn, b: PackedColumn) -> bool
    ensures { IsTrue result → (word : ℕ) → unpacked a.shift a.mask a.least a.is_truth word
        ≡ unpacked b.shift b.mask b.least b.is_truth word }
{
    a.shift == b.shift && a.mask == b.mask && a.least == b.least && a.is_truth == b.is_truth
}

/// Whether both picks are the column at one place.
fn is_same_place(a: &Scalar, b: &Scalar) -> bool
    ensures { IsTrue result → scalar_tree_of a.now ≡ scalar_tree_of b.now }
{
    match (a, b) {
        (Scalar::At(place), Scalar::At(other)) => place == other,
        _ => false,
    }
}
