//! How many kept rows an atom has.
ghost use Rattle.std.specs.Prelude.{◌≡◌, length, All};
ghost use Rattle.algebra.specs.ShapeTrees.{shape_tree_of};
ghost use Rattle.algebra.specs.Shapes.{kept_of};
ghost use Rattle.placement.specs.Layouts.{together};
ghost use Rattle.kept_rows.specs.KeptTests.{IsPartRow};

use kept_rows::KeptTests;
use rel_base::{Rows, Spread};

/// The number of kept rows of an atom at all workers.
pub(crate) fn kept_in(kept: &KeptTests<'_>, atom: u32, spread: &Spread) -> u64
    requires { All (All (IsPartRow (shape_tree_of kept.now.shape.now) atom)) spread.now }
    ensures { result ≡ length (kept_of (shape_tree_of kept.now.shape.now) atom
        (together spread.now)) }
{
    let mut count = 0u64;
    for rows in spread.as_slice() {
        count += u64::from(kept_of_worker(kept, atom, rows));
    }
    count
}

/// The number of kept rows of an atom at one worker: where no test reads the atom alone, no row is
/// looked at.
fn kept_of_worker(kept: &KeptTests<'_>, atom: u32, rows: &Rows) -> u32
    requires { All (IsPartRow (shape_tree_of kept.now.shape.now) atom) rows.now }
    ensures { result ≡ length (kept_of (shape_tree_of kept.now.shape.now) atom rows.now) }
{
    if kept.keeps_all(atom) {
        return rows.len();
    }
    let mut count = 0u32;
    for row in rows.iter() {
        if kept.is_kept(atom, row) {
            count += 1;
        }
    }
    count
}
