//! Wirings: an inbox for each cell, an outlet for each sender, and the keeper of them all.
ghost use Rattle.std.specs.Prelude.{◌≡◌, ◌+◌, ◌≤◌, [], length, map, All, IfOk, OnOk};
ghost use Rattle.rel_base.specs.Limits.{most_workers, most_capacity};
ghost use Rattle.exchange_channels.specs.Wirings.{new_outlet, new_outlets, new_intake, AreIntakes, IsWired};
ghost use Rattle.exchange_channels.specs.inner.Outlets.{places_of, wiring_of};
ghost use Rattle.exchange_channels.specs.inner.Keeps.{IsKept, receiver_of, next_sender_of, keeper_with_sender};

use crate::ports::{KeepPass, KeepPort, SendPort, TakePort};
use crate::{Ends, Intake, Outlet};
use rel_base::{Items, Memory};
use std::alloc::Global;
use std::marker::Model;

/// Outlets, in the order of their senders.
pub type Outlets = Items<Outlet>;

/// Intakes, in the order of their cells.
pub type Intakes = Items<Intake>;

/// What takes the ends of a wiring back. Contracts see it as the wiring: the channels of its
/// cells, its number of senders and its capacity.
#[derive(Drop)]
pub struct Keep {
    pub(crate) senders: u32,
    pub(crate) capacity: u32,
    /// The keeper of each cell's channel, in order.
    pub(crate) cells: Vec<KeepPort>,
    /// Room for the pass of each keeper, for the receipt.
    pub(crate) passes: Ends<KeepPass>,
}

impl Model for Keep {
    ghost use Rattle.std.specs.Prelude.{All};
    ghost use Rattle.exchange_channels.specs.Wirings.{WiringState};
    ghost use Rattle.exchange_channels.specs.inner.Outlets.{wiring_of};
    ghost use Rattle.exchange_channels.specs.inner.Keeps.{IsKept, IsRoomFor};

    ghost Value = { WiringState };

    ghost view = { λ k. wiring_of k.cells.items k.senders k.capacity };

    ghost invariant = { λ k. All (IsKept k.capacity k.senders) k.cells.items
        × IsRoomFor k.cells.items k.passes };
}

/// A wiring: an outlet for each sender, an intake for each cell, and the keeper that takes their
/// ends back.
#[derive(Drop)]
pub struct Wiring {
    /// The outlet of each sender, in order.
    pub outlets: Outlets,
    /// The intake of each cell, in order.
    pub intakes: Intakes,
    /// The keeper.
    pub keep: Keep,
}

/// A wiring of so many cells and senders, in each of whose inboxes so many messages may wait.
/// Nothing was sent.
///
/// All memory that sends and end marks need is taken here.
pub fn wire(alloc: Global, cells: u32, senders: u32, capacity: u32) -> Result<Wiring, Memory>
    requires cells { (1 ≤ cells) × (cells ≤ most_workers) }
    requires senders { (1 ≤ senders) × (senders ≤ most_workers) }
    requires capacity { (1 ≤ capacity) × (capacity ≤ most_capacity) }
    ensures { IfOk result (λ wiring.
        IsWired wiring.keep wiring.outlets wiring.intakes cells senders capacity) }
{
    let (mut keepers, receivers) = make_cells(alloc, cells, capacity)?;
    let outlets = make_outlets(alloc, keepers.as_mut_slice(), senders, capacity)?;
    let mut passes = Ends::new(alloc);
    passes.reserve(cells)?;
    let keep = Keep {
        senders,
        capacity,
        cells: keepers,
        passes,
    };
    let intakes = make_intakes(alloc, &keep, receivers)?;
    Ok(Wiring {
        outlets,
        intakes,
        keep,
    })
}

/// The channels of so many cells: the keeper and the receiver of each.
fn make_cells(
    alloc: Global,
    cells: u32,
    capacity: u32,
) -> Result<(Vec<KeepPort>, Vec<TakePort>), Memory>
    requires { 1 ≤ capacity }
    ensures count { IfOk result (λ made. length made.0.items ≡ cells) }
    ensures keepers { IfOk result (λ made. All (IsKept capacity 0) made.0.items) }
    ensures receivers { IfOk result (λ made. made.1.items ≡ map receiver_of made.0.items) }
{
    let mut keepers = Vec::with_capacity(alloc, cells as usize)?;
    let mut receivers = Vec::with_capacity(alloc, cells as usize)?;
    for _cell in 0..cells {
        let (keeper, receiver) = KeepPort::new(alloc, capacity)?;
        keepers.push(keeper)?;
        receivers.push(receiver)?;
    }
    Ok((keepers, receivers))
}

/// The outlets of so many senders to these cells.
fn make_outlets(
    alloc: Global,
    cells: &mut [KeepPort],
    senders: u32,
    capacity: u32,
) -> Result<Outlets, Memory>
    requires cells { All (IsKept capacity 0) cells.old }
    requires senders { senders ≤ most_workers }
    ensures cells { OnOk result (All (IsKept capacity senders) cells.new) }
    ensures places { OnOk result (places_of cells.new ≡ places_of cells.old) }
    ensures outlets { IfOk result (λ outlets.
        outlets ≡ new_outlets (wiring_of cells.old senders capacity) senders) }
{
    let mut outlets = Outlets::with_capacity(alloc, senders)?;
    for number in 0..senders {
        let outlet = make_outlet(alloc, cells, number, senders, capacity)?;
        outlets.push(outlet)?;
    }
    Ok(outlets)
}

/// The outlet of the next sender to these cells.
fn make_outlet(
    alloc: Global,
    cells: &mut [KeepPort],
    number: u32,
    senders: u32,
    capacity: u32,
) -> Result<Outlet, Memory>
    requires { All (IsKept capacity number) cells.old }
    ensures cells { OnOk result (All (IsKept capacity (number + 1)) cells.new) }
    ensures places { OnOk result (places_of cells.new ≡ places_of cells.old) }
    ensures outlet { IfOk result (λ outlet.
        outlet ≡ new_outlet (wiring_of cells.old senders capacity) number) }
{
    let ports = make_ports(alloc, cells)?;
    Ok(Outlet {
        number,
        senders,
        capacity,
        ports,
    })
}

/// The ends of the next sender at these cells.
fn make_ports(alloc: Global, cells: &mut [KeepPort]) -> Result<Vec<SendPort>, Memory>
    ensures cells { OnOk result (cells.new ≡ map keeper_with_sender cells.old) }
    ensures ports { IfOk result (λ ports. ports.items ≡ map next_sender_of cells.old) }
{
    let mut ports = Vec::with_capacity(alloc, cells.len())?;
    for cell in cells.iter_mut() {
        let port = cell.make_sender()?;
        ports.push(port)?;
    }
    Ok(ports)
}

/// The intakes of a wiring, whose receivers are these.
fn make_intakes(alloc: Global, keep: &Keep, receivers: Vec<TakePort>) -> Result<Intakes, Memory>
    requires count { length receivers.items ≤ most_workers }
    requires places { keep.now.places ≡ places_of receivers.items }
    requires fresh { All (λ port. port.knows.got ≡ []) receivers.items }
    ensures { IfOk result (AreIntakes keep.now) }
{
    let mut intakes = Intakes::new(alloc);
    for port in receivers {
        let intake = make_intake(alloc, intakes.len(), keep.senders, port)?;
        intakes.push(intake)?;
    }
    Ok(intakes)
}

/// The intake of a cell, whose receiver is this, with so many senders.
fn make_intake(alloc: Global, number: u32, senders: u32, port: TakePort) -> Result<Intake, Memory>
    requires { port.knows.got ≡ [] }
    ensures { IfOk result (λ intake. intake ≡ new_intake port.place senders number) }
{
    let ended = Vec::from_elem(alloc, false, senders as usize)?;
    Ok(Intake {
        number,
        senders,
        port,
        ended,
    })
}
