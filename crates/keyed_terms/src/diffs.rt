//! `diff` at workers.
ghost use Rattle.std.specs.Prelude.{◌≡◌, ◌*◌, ◌≤◌, [], ◌∷◌, length, All, IfOk, vec_len};
ghost use Rattle.row_exchange.specs.Exchanges.{AreLow};
ghost use Rattle.routed_joins.specs.Listings.{IsLow};
ghost use Rattle.routed_joins.specs.TermRuns.{IsTermRun};
ghost use Rattle.keyed_terms.specs.KeyedTerms.{AreOfWidth, diff_parts, diff_exchanges, IsRefused};
ghost use Rattle.keyed_terms.specs.inner.Meeting.{IsMeeting};

use crate::columns::all_columns;
use crate::concluding::conclude;
use crate::making::difference_each;
use algebra::{Exchange, Settings};
use exchange_channels::{Receipt, Receipts};
use regular_shuffle::spread_by_key;
use rel_base::{Memory, Spread};
use rel_io::Tap;
use routed_joins::{Moved, have_room, seconds_of};
use std::alloc::Global;
use std::sync::Wait;
use std::thread::Threads;

/// The operands of a `diff`: a list of rows for each worker, each of which has `width` columns.
pub struct Operands {
    pub left: Spread,
    pub right: Spread,
    pub width: u32,
}

// Written out, since a derived drop is proved anew at each place where a value is let go.
impl Drop for Operands {
    fn drop(self) {
        let Operands {
            left: _,
            right: _,
            width: _,
        } = self;
    }
}

/// Each row of the left operand that the right one doesn't have, once: all rows of both go to the
/// homes of all their columns, in one exchange with a receipt for each operand. It may wait as long
/// as the threads of its exchange do.
///
/// The operands are let go with the exchange, so that where nothing else shares their rows these
/// don't stand beside the ones that are made.
pub fn run_diff<R: Threads + Wait + Sync, T: Tap + Send>(
    rt: &R,
    alloc: Global,
    statement: u32,
    operands: Operands,
    settings: &Settings,
    taps: &mut Vec<T>,
) -> Result<Moved, Memory>
    requires left { length operands.left ≡ settings.now.workers }
    requires right { length operands.right ≡ settings.now.workers }
    requires left_width { AreOfWidth operands.width operands.left }
    requires right_width { AreOfWidth operands.width operands.right }
    requires taps { 2 * settings.now.workers ≤ vec_len taps.old }
    ensures { let left = operands.left in
        let right = operands.right in
        IsTermRun settings.now statement (diff_parts settings.now left right)
        (diff_exchanges settings.now left right) T.totals T.tag IsRefused
        taps.old.items taps.new.items result }
{
    if !have_room(taps.as_slice()) {
        return Err(Memory);
    }
    let since = seconds_of(alloc, taps.as_slice(), settings.workers)?;
    let (met, others, receipts) = meet(rt, alloc, &operands, settings, taps)?;
    drop(operands);
    let made = difference_each(rt, alloc, met, others)?;
    conclude(
        alloc,
        statement,
        Exchange::Diff,
        &since,
        made,
        receipts,
        taps,
    )
}

/// Brings the rows of both operands to the homes of all their columns. Between the two the taps are
/// asked again whether there is room in their sums.
fn meet<R: Threads + Wait + Sync, T: Tap + Send>(
    rt: &R,
    alloc: Global,
    operands: &Operands,
    settings: &Settings,
    taps: &mut Vec<T>,
) -> Result<(Spread, Spread, Receipts), Memory>
    requires left { length operands.now.left ≡ settings.now.workers }
    requires right { length operands.now.right ≡ settings.now.workers }
    requires left_width { AreOfWidth operands.now.width operands.now.left }
    requires right_width { AreOfWidth operands.now.width operands.now.right }
    requires taps { 2 * settings.now.workers ≤ vec_len taps.old }
    requires low { All (λ t. AreLow (T.totals t)) taps.old.items }
    requires unlisted { All (λ t. IsLow (T.totals t)) taps.old.items }
    ensures { IsMeeting settings.now operands.now.left operands.now.right T.totals T.tag
        taps.old.items taps.new.items result }
{
    let columns = all_columns(alloc, operands.width)?;
    let (met, first) = spread_by_key(rt, alloc, &operands.left, &columns, settings, taps)?;
    if !have_room(taps.as_slice()) {
        return Err(Memory);
    }
    let (others, second) = spread_by_key(rt, alloc, &operands.right, &columns, settings, taps)?;
    let receipts = two_receipts(alloc, first, second)?;
    Ok((met, others, receipts))
}

/// The receipts of an exchange that has two.
fn two_receipts(alloc: Global, first: Receipt, second: Receipt) -> Result<Receipts, Memory>
    ensures { IfOk result (λ made. made ≡ first ∷ second ∷ []) }
{
    let mut made = Receipts::with_capacity(alloc, 2)?;
    made.push(first)?;
    made.push(second)?;
    Ok(made)
}
