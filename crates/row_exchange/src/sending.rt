//! The sending half of a worker: it fills its batches, and then sends them.
ghost use Rattle.std.specs.Prelude.{◌≡◌, ◌<◌, All};
ghost use Rattle.rel_io.specs.Taps.{with_sent};
ghost use Rattle.row_exchange.specs.Routes.{IsRouted};
ghost use Rattle.row_exchange.specs.Exchanges.{IsSize};
ghost use Rattle.row_exchange.specs.inner.Shipments.{rows_in};
ghost use Rattle.row_exchange.specs.inner.Stations.{HasShipped, HasSentAll, rows_sent, IsFresh};

use crate::filling::{Shipments, fill};
use crate::{Route, Size, Spreads};
use exchange_channels::{Outlet, OutletEnd};
use rel_base::Memory;
use rel_io::Tap;
use std::alloc::Global;
use std::sync::Wait;

/// Sends the rows of a worker to their cells, and then the end marks. All batches are filled
/// before the first is sent, so that after `Memory` nothing was sent but the end marks. The tap is
/// told of each batch once it was handed over.
pub(crate) fn send<R: Wait, W: Route, T: Tap>(
    rt: &R,
    alloc: Global,
    route: &W,
    parts: &Spreads,
    size: Size,
    worker: u32,
    outlet: Outlet,
    tap: &mut T,
) -> (OutletEnd, Result<(), Memory>)
    requires routed { IsRouted (W.accepts route.now) (W.cells route.now) size.workers parts.now }
    requires size { IsSize size }
    requires worker { worker < size.workers }
    requires fresh { IsFresh size.workers outlet }
    ensures sent { HasSentAll (W.cells route.now) parts.now size.workers size.batch worker outlet
        result.0 result.1 }
    ensures tap { T.totals tap.new ≡ with_sent (T.totals tap.old) (rows_sent result.0) }
    ensures tag { T.tag tap.new ≡ T.tag tap.old }
{
    match fill(alloc, route, parts, worker, size) {
        Ok(shipments) => (ship(rt, size, outlet, shipments, tap), Ok(())),
        Err(refused) => (ship(rt, size, outlet, Vec::new(alloc), tap), Err(refused)),
    }
}

/// Sends batches to their cells, one after another, and then the end marks.
fn ship<R: Wait, T: Tap>(
    rt: &R,
    size: Size,
    outlet: Outlet,
    shipments: Shipments,
    tap: &mut T,
) -> OutletEnd
    requires fresh { IsFresh size.workers outlet }
    requires cells { All (λ s. s.0 < size.workers) shipments.items }
    ensures shipped { HasShipped shipments.items outlet result }
    ensures tap { T.totals tap.new ≡ with_sent (T.totals tap.old) (rows_in shipments.items) }
    ensures tag { T.tag tap.new ≡ T.tag tap.old }
{
    let mut outlet = outlet;
    ship_all(rt, size, &mut outlet, shipments, tap);
    outlet.end(rt)
}

/// Sends batches to their cells, one after another.
fn ship_all<R: Wait, T: Tap>(
    rt: &R,
    size: Size,
    outlet: &mut Outlet,
    shipments: Shipments,
    tap: &mut T,
)
    requires fresh { IsFresh size.workers outlet.old }
    requires cells { All (λ s. s.0 < size.workers) shipments.items }
    ensures shipped { HasShipped shipments.items outlet.old outlet.new }
    ensures tap { T.totals tap.new ≡ with_sent (T.totals tap.old) (rows_in shipments.items) }
    ensures tag { T.tag tap.new ≡ T.tag tap.old }
{
    // A sum that was read fits its type, so that no batch leaves it as it was.
    let _before = tap.totals();
    for (cell, batch) in shipments {
        let rows = u64::from(batch.rows.len());
        outlet.send(rt, cell, batch);
        tap.sent(rows);
    }
}
