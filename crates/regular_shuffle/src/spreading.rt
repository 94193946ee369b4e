//! A spread by key, from the rows that lie at the workers to those whose keys have their homes
//! there.
ghost use Rattle.std.specs.Prelude.{◌≡◌, ◌*◌, ◌≤◌, length, All, vec_len};
ghost use Rattle.row_exchange.specs.Exchanges.{AreLow};
ghost use Rattle.placement.specs.Runs.{size_of};
ghost use Rattle.regular_shuffle.specs.KeySpreads.{HasColumns, IsSpreadByKey};

use crate::key_route::KeyRoute;
use crate::moving::{given_of_only, only_atom};
use algebra::Settings;
use exchange_channels::Receipt;
use rel_base::{Memory, Places, Spread};
use rel_io::Tap;
use routed_joins::size_of;
use row_exchange::{Exchanged, exchange};
use std::alloc::Global;
use std::sync::Wait;
use std::thread::Threads;

/// Puts each row at the home of the key that it has in these columns, by one exchange. It may wait
/// as long as its threads do.
///
/// `parts` holds a list of rows for each worker. Tap `2w` is told what worker `w` sends, and tap
/// `2w + 1` what it receives; the others stay as they are. Rows that a list owns alone are copied
/// once, others never. After `Memory` the sums of the taps may have risen.
pub fn spread_by_key<R: Threads + Wait + Sync, T: Tap + Send>(
    rt: &R,
    alloc: Global,
    parts: &Spread,
    columns: &Places,
    settings: &Settings,
    taps: &mut Vec<T>,
) -> Result<(Spread, Receipt), Memory>
    requires parts { length parts.now ≡ settings.now.workers }
    requires columns { All (All (HasColumns columns.now)) parts.now }
    requires taps { 2 * settings.now.workers ≤ vec_len taps.old }
    requires low { All (λ t. AreLow (T.totals t)) taps.old.items }
    ensures { IsSpreadByKey settings.now.seed columns.now parts.now (size_of settings.now)
        T.totals T.tag taps.old.items taps.new.items result }
{
    let atoms = only_atom(alloc, parts)?;
    let route = KeyRoute::new(columns, columns, settings.seed, settings.workers);
    let size = size_of(settings);
    let Exchanged { given, receipt } = exchange(rt, alloc, &route, &atoms, size, taps)?;
    let made = given_of_only(alloc, given)?;
    Ok((made, receipt))
}
