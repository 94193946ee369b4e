//! Numbers of rows, read off what the taps of workers were told, and off their parts.
ghost use Rattle.std.specs.Prelude.{◌≡◌, ◌*◌, ◌^◌, ◌<◌, ◌≤◌, length, All, IfOk};
ghost use Rattle.rel_base.specs.Limits.{most_workers};
ghost use Rattle.placement.specs.Exchanges.{row_counts};
ghost use Rattle.placement.specs.Layouts.{together};
ghost use Rattle.routed_joins.specs.Readings.{AreSeconds, HaveRisen, AreReceivedSince, AreListedSince, IsNoteSince};

use algebra::{Counts, Exchange, Traffic};
use rel_base::{Memory, Spread};
use rel_io::{Tap, Totals};
use std::alloc::Global;

/// The sums of the second tap of each worker.
pub fn seconds_of<T: Tap>(alloc: Global, taps: &[T], workers: u32) -> Result<Vec<Totals>, Memory>
    requires { 2 * workers ≤ length taps.now }
    ensures { IfOk result (λ made. AreSeconds T.totals workers taps.entry.now made.items) }
{
    let mut made = Vec::with_capacity(alloc, workers as usize)?;
    for worker in 0..workers as usize {
        made.push(taps[2 * worker + 1].totals())?;
    }
    Ok(made)
}

/// How many rows each worker received since its second tap had these sums.
pub fn received_since<T: Tap>(alloc: Global, since: &[Totals], taps: &[T]) -> Result<Counts, Memory>
    requires few { length since.now ≤ most_workers }
    requires taps { 2 * length since.now ≤ length taps.now }
    requires risen { HaveRisen T.totals since.now taps.now }
    ensures { IfOk result (AreReceivedSince T.totals since.entry.now taps.entry.now) }
{
    let mut counts = Counts::with_capacity(alloc, since.len() as u32)?;
    for (worker, before) in since.iter().enumerate() {
        let now = taps[2 * worker + 1].totals();
        counts.push(now.got - before.got)?;
    }
    Ok(counts)
}

/// How many it listed since.
pub fn listed_since<T: Tap>(alloc: Global, since: &[Totals], taps: &[T]) -> Result<Counts, Memory>
    requires few { length since.now ≤ most_workers }
    requires taps { 2 * length since.now ≤ length taps.now }
    requires risen { HaveRisen T.totals since.now taps.now }
    ensures { IfOk result (AreListedSince T.totals since.entry.now taps.entry.now) }
{
    let mut counts = Counts::with_capacity(alloc, since.len() as u32)?;
    for (worker, before) in since.iter().enumerate() {
        let now = taps[2 * worker + 1].totals();
        counts.push(now.listed - before.listed)?;
    }
    Ok(counts)
}

/// The numbers of an exchange: how many rows each worker received and listed since its second tap
/// had these sums.
pub fn traffic_since<T: Tap>(
    alloc: Global,
    statement: u32,
    exchange: Exchange,
    since: &[Totals],
    taps: &[T],
) -> Result<Traffic, Memory>
    requires few { length since.now ≤ most_workers }
    requires taps { 2 * length since.now ≤ length taps.now }
    requires risen { HaveRisen T.totals since.now taps.now }
    ensures { IfOk result (IsNoteSince T.totals statement exchange since.entry.now taps.entry.now) }
{
    let received = received_since(alloc, since, taps)?;
    let listed = listed_since(alloc, since, taps)?;
    Ok(Traffic {
        statement,
        exchange,
        received,
        listed,
    })
}

/// The number of rows at all workers.
pub fn rows_in(spread: &Spread) -> u64
    ensures { result ≡ length (together spread.now) }
{
    let mut count = 0u64;
    for rows in spread.as_slice() {
        count += u64::from(rows.len());
    }
    count
}

/// The number of rows at each worker.
pub fn row_counts(alloc: Global, spread: &Spread) -> Result<Counts, Memory>
    ensures counts { IfOk result (λ made. made ≡ row_counts spread.now) }
    ensures few { IfOk result (λ made. All (λ count. count < 2 ^ 32) made) }
{
    let mut counts = Counts::with_capacity(alloc, spread.len())?;
    for rows in spread.as_slice() {
        counts.push(u64::from(rows.len()))?;
    }
    Ok(counts)
}
