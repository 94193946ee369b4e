//! What is told and given once the rows of an exchange are made.
ghost use Rattle.std.specs.Prelude.{◌≡◌, ◌*◌, ◌≤◌, length, All, IfOk, vec_len};
ghost use Rattle.rel_base.specs.Limits.{most_workers};
ghost use Rattle.routed_joins.specs.Listings.{IsLow, count_at, IsListedAt};
ghost use Rattle.routed_joins.specs.Readings.{HaveRisen};
ghost use Rattle.keyed_terms.specs.inner.Concluding.{IsConcluded};

use algebra::{Exchange, TrafficNotes};
use exchange_channels::Receipts;
use rel_base::{Memory, Spread};
use rel_io::{Tap, Totals};
use routed_joins::{Moved, tell_listed, traffic_since};
use std::alloc::Global;

/// Tells the taps what each worker lists, and gives it with the numbers of its exchange, read off
/// them.
pub(crate) fn conclude<T: Tap>(
    alloc: Global,
    statement: u32,
    exchange: Exchange,
    since: &[Totals],
    made: Spread,
    receipts: Receipts,
    taps: &mut Vec<T>,
) -> Result<Moved, Memory>
    requires workers { length made ≡ length since.now }
    requires few { length since.now ≤ most_workers }
    requires taps { 2 * length since.now ≤ vec_len taps.old }
    requires unlisted { All (λ t. IsLow (T.totals t)) taps.old.items }
    requires risen { HaveRisen T.totals since.now taps.old.items }
    ensures listed { IsListedAt T.totals T.tag (length made) (count_at made) taps.old.items
        taps.new.items }
    ensures ok { IfOk result (IsConcluded T.totals statement exchange since.entry.now made receipts
        taps.new.items) }
{
    tell_listed(&made, taps);
    let note = traffic_since(alloc, statement, exchange, since, taps.as_slice())?;
    let mut traffic = TrafficNotes::with_capacity(alloc, 1)?;
    traffic.push(note)?;
    Ok(Moved {
        parts: made,
        traffic,
        receipts,
    })
}
