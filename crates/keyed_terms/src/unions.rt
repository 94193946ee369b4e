//! The terms that move no row.
ghost use Rattle.std.specs.Prelude.{◌≡◌, ◌+◌, ◌≤◌, [], length, IfOk};
ghost use Rattle.rel_base.specs.Limits.{most_rows};
ghost use Rattle.placement.specs.Layouts.{together, by_worker};
ghost use Rattle.keyed_terms.specs.KeyedTerms.{both_parts};

use aggregate_ops::append;
use rel_base::{Memory, Rows, Spread};
use std::alloc::Global;

/// At each worker the rows of both. No shared row is copied.
pub fn union_parts(alloc: Global, left: &Spread, right: &Spread) -> Result<Spread, Memory>
    requires workers { length left.now ≡ length right.now }
    requires few { length (together left.now) + length (together right.now) ≤ most_rows }
    ensures { IfOk result (λ made. made ≡ both_parts left.now right.now) }
{
    let mut made = Spread::with_capacity(alloc, left.len())?;
    for worker in 0..left.len() {
        let rows = append(alloc, left.get(worker), right.get(worker))?;
        made.push(rows)?;
    }
    Ok(made)
}

/// No rows at each worker.
pub fn empty_parts(alloc: Global, workers: u32) -> Result<Spread, Memory>
    ensures { IfOk result (λ made. made ≡ by_worker workers (λ w. [])) }
{
    let mut made = Spread::with_capacity(alloc, workers)?;
    for _worker in 0..workers {
        made.push(Rows::new(alloc))?;
    }
    Ok(made)
}
