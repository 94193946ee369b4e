//! What each worker makes of its own rows, all workers side by side.
ghost use Rattle.std.specs.Prelude.{◌≡◌, ◌<◌, ◌≤◌, ◌^◌, true, [], length, map, All, IsTrue, IfOk, OnOk, IfErr, slice_index_or};
ghost use Rattle.std.specs.List.{list_all};
ghost use Rattle.rel_base.specs.Bags.{SameBag};
ghost use Rattle.rel_base.specs.Limits.{most_workers};
ghost use Rattle.myrial_ast.specs.Bags.{distinct, difference};
ghost use Rattle.myrial_ast.specs.CandidateFaults.{all_fit};
ghost use Rattle.myrial_ast.specs.ScalarTrees.{scalar_tree_of};
ghost use Rattle.myrial_ast.specs.Partials.{partial_kinds, partial_rows, merged};
ghost use Rattle.bag_laws.specs.PartialLaws.{AreGrouped};
ghost use Rattle.algebra.specs.Trees.{kind_of_emit};
ghost use Rattle.aggregate_ops.specs.Columns.{Overflows};
ghost use Rattle.aggregate_ops.specs.Forms.{merged_fits};
ghost use Rattle.aggregate_ops.specs.Picks.{are_picks};
ghost use Rattle.placement.specs.Layouts.{together};
ghost use Rattle.keyed_terms.specs.KeyedTerms.{emitted_parts};
ghost use Rattle.keyed_terms.specs.inner.Making.{AreMadeBy, IsPicked, IsMerged, left_rows, right_rows};

use crate::gathering::{gather, gather_merged};
use aggregate_ops::{AggFault, difference, distinct, merge, partial, partial_of_picks};
use algebra::EmitKinds;
use myrial_ast::Scalars;
use rel_base::{Memory, Rows, Spread};
use std::alloc::Global;
use std::thread::{Threads, map_indices, map_vec};

/// At each worker each row once. Its rows are let go as soon as they are packed.
pub(crate) fn distinct_each<R: Threads + Sync>(
    rt: &R,
    alloc: Global,
    parts: Spread,
) -> Result<Spread, Memory>
    ensures { IfOk result (AreMadeBy (length parts)
        (λ w. distinct (slice_index_or parts w []))) }
{
    let own = taken_apart(alloc, parts)?;
    let at = |rows: Rows| -> Result<Rows, Memory>
        ensures { IfOk result (SameBag (distinct rows)) }
    { distinct(alloc, rows) };
    let all = map_vec(rt, own, &at)?;
    gather(alloc, all)
}

/// The rows of each worker, to be handed to its job. None is copied.
fn taken_apart(alloc: Global, parts: Spread) -> Result<Vec<Rows>, Memory>
    ensures { IfOk result (λ made. made.items ≡ parts) }
{
    let mut parts = parts;
    let mut own = Vec::with_capacity(alloc, parts.len() as usize)?;
    while let Some(rows) = parts.pop() {
        own.push(rows)?;
    }
    own.reverse();
    Ok(own)
}

/// At each worker each row of the first that the second doesn't have, once. The rows of both are
/// let go as soon as they are packed.
pub(crate) fn difference_each<R: Threads + Sync>(
    rt: &R,
    alloc: Global,
    parts: Spread,
    others: Spread,
) -> Result<Spread, Memory>
    requires { length parts ≡ length others }
    ensures { IfOk result (AreMadeBy (length parts) (λ w. difference
        (slice_index_or parts w []) (slice_index_or others w []))) }
{
    let own = pairs_apart(alloc, parts, others)?;
    let at = |(rows, others): (Rows, Rows)| -> Result<Rows, Memory>
        ensures { IfOk result (SameBag (difference rows others)) }
    { difference(alloc, rows, others) };
    let all = map_vec(rt, own, &at)?;
    gather(alloc, all)
}

/// The rows of each worker in both, to be handed to its job. None is copied.
fn pairs_apart(alloc: Global, parts: Spread, others: Spread) -> Result<Vec<(Rows, Rows)>, Memory>
    requires { length parts ≡ length others }
    ensures parts { IfOk result (λ made. left_rows made.items ≡ parts) }
    ensures others { IfOk result (λ made. right_rows made.items ≡ others) }
{
    let mut parts = parts;
    let mut others = others;
    let mut own = Vec::with_capacity(alloc, parts.len() as usize)?;
    while let Some(rows) = parts.pop() {
        let Some(other) = others.pop() else {
            unreachable!()
        };
        own.push((rows, other))?;
    }
    own.reverse();
    Ok(own)
}

/// At each worker a partial row for each of its groups. So few rows are listed that every count of
/// them fits.
pub(crate) fn partial_each<R: Threads + Sync>(
    rt: &R,
    alloc: Global,
    listed: &Spread,
    kinds: &EmitKinds,
) -> Result<Spread, Memory>
    requires grouped { All (AreGrouped (map kind_of_emit kinds.now)) listed.now }
    requires workers { length listed.now ≤ most_workers }
    ensures rows { IfOk result (AreMadeBy (length listed.entry.now) (λ w. partial_rows
        (map kind_of_emit kinds.entry.now) (slice_index_or listed.entry.now w []))) }
    ensures few { OnOk result (length (together listed.now) < 2 ^ 63) }
{
    let workers = listed.as_slice();
    let at = |worker: usize| -> Result<Rows, Memory>
        requires { (worker < length workers.now)
            × All (AreGrouped (map kind_of_emit kinds.now)) workers.now }
        ensures { IfOk result (SameBag (partial_rows (map kind_of_emit kinds.entry.now)
            (slice_index_or workers.entry.now worker [])))
            × (length (slice_index_or workers.entry.now worker []) < 2 ^ 32) }
    { partial_at(alloc, &workers[worker], kinds) };
    let all = map_indices(rt, alloc, workers.len(), &at)?;
    gather(alloc, all)
}

/// A partial row for each group of a worker, whose rows are few.
fn partial_at(alloc: Global, own: &Rows, kinds: &EmitKinds) -> Result<Rows, Memory>
    requires { AreGrouped (map kind_of_emit kinds.now) own.now }
    ensures rows { IfOk result (λ made. SameBag
        (partial_rows (map kind_of_emit kinds.now) own.now) made) }
    ensures few { length own.now < 2 ^ 32 }
{
    // A number that was read fits its type.
    let _few = own.len();
    partial(alloc, own, kinds)
}

/// At each worker a partial row for each group of what its rows emit by picks. So few rows emit
/// that every count of them fits.
pub(crate) fn partial_picks_each<R: Threads + Sync>(
    rt: &R,
    alloc: Global,
    parts: &Spread,
    picks: &Scalars,
    kinds: &EmitKinds,
) -> Result<Spread, Memory>
    requires picks { IsTrue (are_picks (map scalar_tree_of picks.now)) }
    requires kinds { length kinds.now ≡ length picks.now }
    requires workers { length parts.now ≤ most_workers }
    ensures rows { let picks = map scalar_tree_of picks.entry.now in
        IfOk result (AreMadeBy (length parts.entry.now) (λ w. partial_rows
        (map kind_of_emit kinds.entry.now)
        (slice_index_or (emitted_parts picks parts.entry.now) w []))) }
    ensures few { OnOk result (length
        (together (emitted_parts (map scalar_tree_of picks.now) parts.now)) < 2 ^ 63) }
    ensures fits { OnOk result
        (list_all (all_fit (map scalar_tree_of picks.now)) (together parts.now) ≡ true) }
{
    let workers = parts.as_slice();
    let at = |worker: usize| -> Result<Rows, Memory>
        requires { (worker < length workers.now)
            × IsTrue (are_picks (map scalar_tree_of picks.now))
            × (length kinds.now ≡ length picks.now) }
        ensures { IsPicked (map kind_of_emit kinds.entry.now) (map scalar_tree_of picks.entry.now)
            (slice_index_or workers.entry.now worker []) result }
    { partial_picks_at(alloc, &workers[worker], picks, kinds) };
    let all = map_indices(rt, alloc, workers.len(), &at)?;
    gather(alloc, all)
}

/// A partial row for each group of what a worker's rows emit, which are few.
fn partial_picks_at(
    alloc: Global,
    own: &Rows,
    picks: &Scalars,
    kinds: &EmitKinds,
) -> Result<Rows, Memory>
    requires picks { IsTrue (are_picks (map scalar_tree_of picks.now)) }
    requires kinds { length kinds.now ≡ length picks.now }
    ensures { IsPicked (map kind_of_emit kinds.now) (map scalar_tree_of picks.now) own.now result }
{
    // A number that was read fits its type.
    let _few = own.len();
    partial_of_picks(alloc, own, picks, kinds)
}

/// At each worker the groups of its partial rows.
pub(crate) fn merge_each<R: Threads + Sync>(
    rt: &R,
    alloc: Global,
    partials: &Spread,
    kinds: &EmitKinds,
) -> Result<Spread, AggFault>
    requires { All (AreGrouped (partial_kinds (map kind_of_emit kinds.now))) partials.now }
    ensures rows { IfOk result (AreMadeBy (length partials.entry.now) (λ w. merged
        (map kind_of_emit kinds.entry.now) (slice_index_or partials.entry.now w []))) }
    ensures fits { OnOk result
        (list_all (merged_fits (map kind_of_emit kinds.now)) partials.now ≡ true) }
    ensures fault { IfErr result (λ fault. Overflows fault
        (list_all (merged_fits (map kind_of_emit kinds.now)) partials.now)) }
{
    let workers = partials.as_slice();
    let at = |worker: usize| -> Result<Rows, AggFault>
        requires { (worker < length workers.now)
            × All (AreGrouped (partial_kinds (map kind_of_emit kinds.now))) workers.now }
        ensures { IsMerged (map kind_of_emit kinds.entry.now)
            (slice_index_or workers.entry.now worker []) result }
    { merge(alloc, &workers[worker], kinds) };
    match map_indices(rt, alloc, workers.len(), &at) {
        Ok(all) => gather_merged(alloc, all),
        Err(_refused) => Err(AggFault::Memory),
    }
}
