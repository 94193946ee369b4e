//! A join whose rows lie at the workers of a run.
ghost use Rattle.std.specs.Prelude.{◌≡◌};
ghost use Rattle.algebra.specs.ShapeTrees.{shape_tree_of};
ghost use Rattle.placement.specs.Runs.{size_of};
ghost use Rattle.routed_joins.specs.RouteJoins.{ArePartsAtWorkers};

use algebra::{JoinShape, Settings};
use row_exchange::{Size, Spreads};

/// A join whose rows lie at the workers of a run, as a local join asks for them.
#[derive(Clone, Copy)]
pub struct PlacedJoin<'a> {
    /// What is joined, and what is listed of it.
    pub shape: &'a JoinShape,
    /// For each atom a list of rows for each worker, of which only kept rows are moved.
    pub parts: &'a Spreads,
    /// How many workers there are, and how rows go between them.
    pub settings: &'a Settings,
    pub ghost ready: { ArePartsAtWorkers (shape_tree_of shape.now) settings.now.workers parts.now },
}

/// How large the exchanges of a run are.
pub fn size_of(settings: &Settings) -> Size
    ensures { result ≡ size_of settings.now }
{
    Size {
        workers: settings.workers,
        capacity: settings.capacity,
        batch: settings.batch,
    }
}
