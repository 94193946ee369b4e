//! What taps are told, and whether they may be told more.
ghost use Rattle.std.specs.Prelude.{◌≡◌, ◌*◌, ◌≤◌, All, IsTrue, length, vec_len};
ghost use Rattle.row_exchange.specs.Exchanges.{AreLow};
ghost use Rattle.routed_joins.specs.Listings.{IsLow, count_at, IsListedAt};

use rel_base::Spread;
use rel_io::Tap;

/// Half of what a sum of a tap may come to, in rows.
const MOST_LOW: u64 = 1 << 63;

/// Whether every sum of all taps is far from its end, so that the rows of an exchange may be added.
///
/// A run that finds it otherwise, after 2^63 rows, gives up as where there is no memory.
pub fn have_room<T: Tap>(taps: &[T]) -> bool
    ensures low { IsTrue result → All (λ t. AreLow (T.totals t)) taps.now }
    ensures unlisted { IsTrue result → All (λ t. IsLow (T.totals t)) taps.now }
{
    taps.iter().all(|tap| {
        let sums = tap.totals();
        sums.sent <= MOST_LOW && sums.got <= MOST_LOW && sums.listed <= MOST_LOW
    })
}

/// Tells tap `2w + 1` how many rows worker `w` lists; the others stay as they are.
pub fn tell_listed<T: Tap>(parts: &Spread, taps: &mut Vec<T>)
    requires taps { 2 * length parts.now ≤ vec_len taps.old }
    requires unlisted { All (λ t. IsLow (T.totals t)) taps.old.items }
    ensures { IsListedAt T.totals T.tag (length parts.now) (count_at parts.now) taps.old.items
        taps.new.items }
{
    for (w, rows) in parts.as_slice().iter().enumerate() {
        taps[2 * w + 1].listed(u64::from(rows.len()));
    }
}
