//! Files, dealt to the workers.
ghost use Rattle.std.specs.Prelude.{◌≡◌, ◌≤◌, map, IfOk};
ghost use Rattle.rel_base.specs.Keys.{File};
ghost use Rattle.placement.specs.Layouts.{placed_file};

use rel_base::{Files, Items, Memory, Relation, Spread};
use std::alloc::Global;

/// The rows of each file, dealt to the workers in turn. No shared row is copied.
pub(crate) fn dealt_files(
    alloc: Global,
    files: &Files,
    workers: u32,
) -> Result<Items<Spread>, Memory>
    requires { 1 ≤ workers }
    ensures { IfOk result (λ made. made
        ≡ map (λ (f : File). (placed_file workers f.1).parts) files.now) }
{
    let mut made = Items::with_capacity(alloc, files.len())?;
    for (_, relation) in files.as_slice() {
        made.push(dealt(alloc, relation, workers)?)?;
    }
    Ok(made)
}

/// The rows of a relation, dealt to the workers in turn.
fn dealt(alloc: Global, relation: &Relation, workers: u32) -> Result<Spread, Memory>
    requires { 1 ≤ workers }
    ensures { IfOk result (λ made. made ≡ (placed_file workers relation.now).parts) }
{
    let mut made = Spread::with_capacity(alloc, workers)?;
    for worker in 0..workers {
        made.push(relation.rows().every_nth(alloc, workers, worker)?)?;
    }
    Ok(made)
}
