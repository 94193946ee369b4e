//! Groups at workers.
ghost use Rattle.std.specs.Prelude.{◌≡◌, ◌*◌, ◌≤◌, true, List, length, map, All, IsTrue, OnOk, vec_len};
ghost use Rattle.std.specs.List.{list_all};
ghost use Rattle.myrial_ast.specs.CandidateFaults.{all_fit};
ghost use Rattle.myrial_ast.specs.Combinations.{Rows};
ghost use Rattle.myrial_ast.specs.Groups.{sums_fit};
ghost use Rattle.myrial_ast.specs.ScalarTrees.{scalar_tree_of};
ghost use Rattle.bag_laws.specs.PartialLaws.{AreGrouped};
ghost use Rattle.algebra.specs.Trees.{kind_of_emit};
ghost use Rattle.aggregate_ops.specs.Picks.{are_picks};
ghost use Rattle.placement.specs.Layouts.{together};
ghost use Rattle.routed_joins.specs.TermRuns.{IsTermRun};
ghost use Rattle.keyed_terms.specs.KeyedTerms.{group_parts, group_exchanges, emitted_parts, IsGroupFault, IsPickedFault};
ghost use Rattle.keyed_terms.specs.inner.Making.{AreFormed};

use crate::concluding::conclude;
use crate::distincts::one_receipt;
use crate::making::{merge_each, partial_each, partial_picks_each};
use aggregate_ops::{AggFault, partial_keys};
use algebra::{EmitKinds, Exchange, Settings};
use myrial_ast::Scalars;
use regular_shuffle::spread_by_key;
use rel_base::Spread;
use rel_io::Tap;
use routed_joins::{Moved, have_room, seconds_of};
use std::alloc::Global;
use std::sync::Wait;
use std::thread::Threads;

/// A row for each group of the listed rows: each worker forms a partial row for each of its groups,
/// these go to the homes of their keys, and are merged there. It may wait as long as the threads of
/// its exchange do.
///
/// `listed` holds a list of rows for each worker. No listed row is sent.
pub fn run_group<R: Threads + Wait + Sync, T: Tap + Send>(
    rt: &R,
    alloc: Global,
    statement: u32,
    listed: &Spread,
    kinds: &EmitKinds,
    settings: &Settings,
    taps: &mut Vec<T>,
) -> Result<Moved, AggFault>
    requires workers { length listed.now ≡ settings.now.workers }
    requires grouped { All (AreGrouped (map kind_of_emit kinds.now)) listed.now }
    requires taps { 2 * settings.now.workers ≤ vec_len taps.old }
    ensures run { let kinds = map kind_of_emit kinds.now in
        IsTermRun settings.now statement (group_parts settings.now kinds listed.now)
        (group_exchanges settings.now kinds listed.now) T.totals T.tag
        (IsGroupFault kinds listed.now) taps.old.items taps.new.items result }
    ensures fits { OnOk result
        (sums_fit (map kind_of_emit kinds.now) (together listed.now) ≡ true) }
{
    let partials = partial_each(rt, alloc, listed, kinds)?;
    meet_partials(rt, alloc, statement, &partials, kinds, settings, taps)
}

/// A row for each group of what the rows emit by picks, which are columns and literals: as
/// `run_group` makes it of listed rows, but no row is listed. On Ok, and where a sum is refused,
/// every emitted number lies in 64 bits.
///
/// `parts` holds a list of rows for each worker.
pub fn run_picked_group<R: Threads + Wait + Sync, T: Tap + Send>(
    rt: &R,
    alloc: Global,
    statement: u32,
    parts: &Spread,
    picks: &Scalars,
    kinds: &EmitKinds,
    settings: &Settings,
    taps: &mut Vec<T>,
) -> Result<Moved, AggFault>
    requires workers { length parts.now ≡ settings.now.workers }
    requires picks { IsTrue (are_picks (map scalar_tree_of picks.now)) }
    requires kinds { length kinds.now ≡ length picks.now }
    requires taps { 2 * settings.now.workers ≤ vec_len taps.old }
    ensures run { let kinds = map kind_of_emit kinds.now in
        let picks = map scalar_tree_of picks.now in
        let listed = emitted_parts picks parts.now in
        IsTermRun settings.now statement (group_parts settings.now kinds listed)
        (group_exchanges settings.now kinds listed) T.totals T.tag
        (IsPickedFault kinds picks parts.now) taps.old.items taps.new.items result }
    ensures sums { OnOk result (sums_fit (map kind_of_emit kinds.now)
        (together (emitted_parts (map scalar_tree_of picks.now) parts.now)) ≡ true) }
    ensures fits { OnOk result
        (list_all (all_fit (map scalar_tree_of picks.now)) (together parts.now) ≡ true) }
{
    let partials = partial_picks_each(rt, alloc, parts, picks, kinds)?;
    meet_partials(rt, alloc, statement, &partials, kinds, settings, taps)
}

/// Sends the partial rows of listed rows to the homes of their keys, and merges them there.
fn meet_partials<R: Threads + Wait + Sync, T: Tap + Send>(
    rt: &R,
    alloc: Global,
    statement: u32,
    partials: &Spread,
    kinds: &EmitKinds,
    settings: &Settings,
    taps: &mut Vec<T>,
) -> Result<Moved, AggFault>
    requires formed { (listed : List Rows)
        × AreFormed (map kind_of_emit kinds.now) settings.now.workers listed partials.now }
    requires taps { 2 * settings.now.workers ≤ vec_len taps.old }
    ensures run { let kinds = map kind_of_emit kinds.now in
        (listed : List Rows) → AreFormed kinds settings.now.workers listed partials.now
        → IsTermRun settings.now statement (group_parts settings.now kinds listed)
        (group_exchanges settings.now kinds listed) T.totals T.tag
        (IsGroupFault kinds listed) taps.old.items taps.new.items result }
    ensures fits { let kinds = map kind_of_emit kinds.now in
        (listed : List Rows) → AreFormed kinds settings.now.workers listed partials.now
        → OnOk result (sums_fit kinds (together listed) ≡ true) }
{
    if !have_room(taps.as_slice()) {
        return Err(AggFault::Memory);
    }
    let since = seconds_of(alloc, taps.as_slice(), settings.workers)?;
    let keys = partial_keys(alloc, kinds)?;
    let (met, receipt) = spread_by_key(rt, alloc, partials, &keys, settings, taps)?;
    let made = merge_each(rt, alloc, &met, kinds)?;
    let receipts = one_receipt(alloc, receipt)?;
    let moved = conclude(
        alloc,
        statement,
        Exchange::Group,
        &since,
        made,
        receipts,
        taps,
    )?;
    Ok(moved)
}
