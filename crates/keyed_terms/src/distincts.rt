//! `distinct` at workers.
ghost use Rattle.std.specs.Prelude.{◌≡◌, ◌*◌, ◌≤◌, [], ◌∷◌, length, IfOk, vec_len};
ghost use Rattle.routed_joins.specs.TermRuns.{IsTermRun};
ghost use Rattle.keyed_terms.specs.KeyedTerms.{AreOfWidth, distinct_parts, distinct_exchanges, IsRefused};

use crate::columns::all_columns;
use crate::concluding::conclude;
use crate::making::distinct_each;
use algebra::{Exchange, Settings};
use exchange_channels::{Receipt, Receipts};
use regular_shuffle::spread_by_key;
use rel_base::{Memory, Spread};
use rel_io::Tap;
use routed_joins::{Moved, have_room, seconds_of};
use std::alloc::Global;
use std::sync::Wait;
use std::thread::Threads;

/// Each row once: all rows go to the homes of all their columns, where each worker drops what it
/// has twice. It may wait as long as the threads of its exchange do.
///
/// `parts` holds a list of rows for each worker, each of which has `width` columns. They are let go
/// with the exchange, so that where nothing else shares their rows these don't stand beside the
/// ones that are made.
pub fn run_distinct<R: Threads + Wait + Sync, T: Tap + Send>(
    rt: &R,
    alloc: Global,
    statement: u32,
    parts: Spread,
    width: u32,
    settings: &Settings,
    taps: &mut Vec<T>,
) -> Result<Moved, Memory>
    requires workers { length parts ≡ settings.now.workers }
    requires width { AreOfWidth width parts }
    requires taps { 2 * settings.now.workers ≤ vec_len taps.old }
    ensures { IsTermRun settings.now statement (distinct_parts settings.now parts)
        (distinct_exchanges settings.now parts) T.totals T.tag IsRefused
        taps.old.items taps.new.items result }
{
    if !have_room(taps.as_slice()) {
        return Err(Memory);
    }
    let since = seconds_of(alloc, taps.as_slice(), settings.workers)?;
    let columns = all_columns(alloc, width)?;
    let (met, receipt) = spread_by_key(rt, alloc, &parts, &columns, settings, taps)?;
    drop(parts);
    let made = distinct_each(rt, alloc, met)?;
    let receipts = one_receipt(alloc, receipt)?;
    conclude(
        alloc,
        statement,
        Exchange::Distinct,
        &since,
        made,
        receipts,
        taps,
    )
}

/// The receipt of an exchange that has one.
pub(crate) fn one_receipt(alloc: Global, receipt: Receipt) -> Result<Receipts, Memory>
    ensures { IfOk result (λ made. made ≡ receipt ∷ []) }
{
    let mut made = Receipts::with_capacity(alloc, 1)?;
    made.push(receipt)?;
    Ok(made)
}
