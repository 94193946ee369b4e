//! The closing of a wiring: all ends come back to the keeper, and what was taken is known to be
//! what was sent.
ghost use Rattle.std.specs.Prelude.{◌≡◌, ◌≤◌, true, [], length, map, All};
ghost use Rattle.exchange_channels.specs.Wirings.{AreOutletEnds, AreIntakeEnds, AreNumbered};
ghost use Rattle.exchange_channels.specs.Wirings.{IsAtItsCell, IsDelivered, HasEachEnd, receipt_of};
ghost use Rattle.exchange_channels.specs.inner.Closings as back;
ghost use Rattle.exchange_channels.specs.inner.Keeps.{IsSettled};
ghost use Rattle.exchange_channels.specs.inner.Outlets.{places_of};

use crate::ports::{KeepPass, KeepPort, SendPort};
use crate::wiring::Keep;
use crate::{Ends, IntakeEnd, IntakeEnds, OutletEnds};
use rel_base::Items;
use std::marker::Model;

/// What went through a wiring: for each cell and each sender, the batches that the sender sent
/// there.
///
/// It holds the passes of the channels, which know them, no rows and no channel. Only `close`
/// makes one.
pub struct Receipt {
    capacity: u32,
    /// The pass of each cell's keeper, to which every end came back.
    passes: Ends<KeepPass>,
}

// Written out, since a derived drop is proved anew at each place where a value is let go.
impl Drop for Receipt {
    fn drop(self) {
        let Receipt {
            capacity: _,
            passes: _,
        } = self;
    }
}

/// Receipts, in order.
pub type Receipts = Items<Receipt>;

impl Model for Receipt {
    ghost use Rattle.std.specs.Prelude.{map};
    ghost use Rattle.exchange_channels.specs.Messages.{batches_of};
    ghost use Rattle.exchange_channels.specs.Wirings.{ReceiptState};

    ghost Value = { ReceiptState };

    ghost view = { λ r. record {
      capacity = r.capacity;
      batches = map (λ cell. map batches_of cell.returned) r.passes.items;
    } };
}

/// Takes back all ends of a wiring. What each cell took of each sender is then known to be what
/// the sender sent there, in its order. It takes no memory.
pub fn close(keep: Keep, outs: OutletEnds, ins: IntakeEnds) -> Receipt
    requires outs { AreOutletEnds keep outs.items }
    requires ins { AreIntakeEnds keep ins.items }
    ensures receipt { result ≡ receipt_of keep outs.items }
    ensures delivered { All (IsDelivered outs.items) ins.items }
{
    let Keep {
        senders: _,
        capacity,
        mut cells,
        passes,
    } = keep;
    take_ends_back(cells.as_mut_slice(), outs, ins);
    Receipt {
        capacity,
        passes: passes_of(cells, passes),
    }
}

/// Takes back all ends of the cells of a wiring.
fn take_ends_back(cells: &mut [KeepPort], outs: OutletEnds, ins: IntakeEnds)
    requires { back.AreEndsOf cells.old outs.items ins.items }
    ensures returned { back.KnowAllSent outs.items cells.new }
    ensures delivered { All (IsDelivered outs.items) ins.items }
{
    take_outlets_back(cells, outs);
    take_intakes_back(cells, ins);
    settle(cells);
}

/// Takes back the outlets of all senders, in order.
fn take_outlets_back(cells: &mut [KeepPort], outs: OutletEnds)
    requires places { All (λ out. out.wiring.places ≡ places_of cells.old) outs.items }
    requires in_order { AreNumbered (λ out. out.sender) outs.items }
    requires none { All (λ cell. cell.knows.returned ≡ []) cells.old }
    ensures { back.HaveOutletsBack outs.items cells.old cells.new }
{
    for out in outs.items {
        take_ports_back(cells, out.ports);
    }
}

/// Takes back the ends of the next sender, one at each cell.
fn take_ports_back(cells: &mut [KeepPort], ports: Vec<SendPort>)
    requires { back.AreNextPorts cells.old ports.items }
    ensures { back.HavePortsBack ports.items cells.old cells.new }
{
    let mut ports = ports;
    while let Some(port) = ports.pop() {
        cells[ports.len()].take_sender_back(port);
    }
}

/// Takes back the intakes of all cells, in order. Each has taken every end mark.
fn take_intakes_back(cells: &mut [KeepPort], ins: IntakeEnds)
    requires count { length ins.items ≡ length cells.old }
    requires places { All (IsAtItsCell (places_of cells.old)) ins.items }
    requires in_order { AreNumbered (λ taken. taken.cell) ins.items }
    ensures cells { back.HaveIntakesBack ins.items cells.old cells.new }
    ensures ends { All (λ taken. HasEachEnd taken.senders taken.got) ins.items }
{
    for taken in ins.items {
        let IntakeEnd {
            number,
            senders: _,
            port,
        } = taken;
        cells[number as usize].take_receiver_back(port);
    }
}

/// Learns of each cell's channel that what it knows is an inbox.
fn settle(cells: &mut [KeepPort])
    requires receivers { All (λ cell. cell.knows.takes ≡ true) cells.old }
    requires senders { All (λ cell. length cell.knows.returned ≡ cell.knows.senders) cells.old }
    ensures same { cells.new ≡ cells.old }
    ensures settled { All IsSettled cells.new }
{
    for cell in cells.iter_mut() {
        cell.learn();
    }
}

/// The passes of the keepers, in the room that was made for them. Their channels are let go.
fn passes_of(cells: Vec<KeepPort>, room: Ends<KeepPass>) -> Ends<KeepPass>
    requires empty { room.items ≡ [] }
    requires room { length cells.items ≤ room.spare }
    ensures { result.items ≡ map (λ cell. cell.knows) cells.items }
{
    let mut passes = room;
    for cell in cells {
        passes.put(cell.into_pass());
    }
    passes
}
