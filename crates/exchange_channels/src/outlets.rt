//! Outlets: the ends at which one sender sends to every cell.
ghost use Rattle.std.specs.Prelude.{◌≡◌, ◌<◌, ◌↔◌, IsTrue, All, map};
ghost use Rattle.exchange_channels.specs.Messages.{batch_of, end_of};
ghost use Rattle.exchange_channels.specs.Wirings.{cells_of, with_sent_to, with_ends};
ghost use Rattle.exchange_channels.specs.inner.Outlets.{IsRunning, port_with_sent};

use crate::ports::SendPort;
use crate::{Batch, Message};
use std::marker::Model;
use std::sync::Wait;

/// The outlet of one sender to every cell of its wiring. Contracts see its wiring, the number of
/// its sender, and for each cell what it sent there.
pub struct Outlet {
    pub(crate) number: u32,
    pub(crate) senders: u32,
    pub(crate) capacity: u32,
    /// The end at each cell, in order.
    pub(crate) ports: Vec<SendPort>,
}

// Written out, since a derived drop is proved anew at each place where a value is let go.
impl Drop for Outlet {
    fn drop(self) {
        let Outlet {
            number: _,
            senders: _,
            capacity: _,
            ports: _,
        } = self;
    }
}

impl Model for Outlet {
    ghost use Rattle.std.specs.Prelude.{All};
    ghost use Rattle.exchange_channels.specs.Wirings.{OutletState};
    ghost use Rattle.exchange_channels.specs.inner.Outlets.{outlet_of, IsRunning};

    ghost Value = { OutletState };

    ghost view = { λ o. outlet_of o.number o.senders o.capacity o.ports.items };

    ghost invariant = { λ o. All (IsRunning o.number) o.ports.items };
}

/// An outlet that has sent its end mark to every cell. Contracts see it as they see an outlet.
#[derive(Drop)]
pub struct OutletEnd {
    pub(crate) number: u32,
    pub(crate) senders: u32,
    pub(crate) capacity: u32,
    pub(crate) ports: Vec<SendPort>,
}

impl Model for OutletEnd {
    ghost use Rattle.std.specs.Prelude.{◌≡◌, All};
    ghost use Rattle.exchange_channels.specs.Wirings.{OutletState};
    ghost use Rattle.exchange_channels.specs.inner.Outlets.{outlet_of};

    ghost Value = { OutletState };

    ghost view = { λ o. outlet_of o.number o.senders o.capacity o.ports.items };

    ghost invariant = { λ o. All (λ port. port.knows.sender ≡ o.number) o.ports.items };
}

impl Outlet {
    /// Whether the wiring has a cell of this number.
    pub fn has_cell(&self, cell: u32) -> bool
        ensures { IsTrue result ↔ (cell < cells_of self.now.wiring) }
    {
        (cell as usize) < self.ports.len()
    }

    /// Sends a batch to a cell. It takes no memory, and waits while the cell's inbox is full.
    pub fn send<R: Wait>(&mut self, rt: &R, cell: u32, batch: Batch)
        requires { cell < cells_of self.old.wiring }
        ensures { self.new ≡ with_sent_to self.old cell (batch_of self.old.sender batch) }
    {
        let message = Message {
            sender: self.number,
            batch: Some(batch),
        };
        self.ports[cell as usize].send(rt, message);
    }

    /// Sends the end mark to every cell. It takes no memory, and waits while a cell's inbox is
    /// full.
    pub fn end<R: Wait>(self, rt: &R) -> OutletEnd
        ensures { result ≡ with_ends self }
    {
        let Outlet {
            number,
            senders,
            capacity,
            mut ports,
        } = self;
        end_each(rt, number, ports.as_mut_slice());
        OutletEnd {
            number,
            senders,
            capacity,
            ports,
        }
    }
}

/// Sends a sender's end mark through each of its ports.
fn end_each<R: Wait>(rt: &R, sender: u32, ports: &mut [SendPort])
    requires { All (IsRunning sender) ports.old }
    ensures { ports.new ≡ map (λ port. port_with_sent port (end_of sender)) ports.old }
{
    for port in ports.iter_mut() {
        port.send(
            rt,
            Message {
                sender,
                batch: None,
            },
        );
    }
}
