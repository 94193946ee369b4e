//! Stations: what one worker does in an exchange. Its sending half and its receiving half are a
//! job each.

use crate::receiving::receive;
use crate::sending::send;
use crate::{Route, Size, Spreads};
use crew::Job;
use exchange_channels::{Intake, IntakeEnd, Outlet, OutletEnd};
use rel_base::{Memory, Parts};
use rel_io::Tap;
use std::alloc::Global;
use std::sync::Wait;
use std::thread::Threads;

/// The sending half of a worker: before it ran its outlet, afterwards its outlet's end.
pub(crate) struct Outgoing<'a, W, T> {
    pub(crate) alloc: Global,
    pub(crate) route: &'a W,
    pub(crate) parts: &'a Spreads,
    pub(crate) size: Size,
    pub(crate) worker: u32,
    pub(crate) outlet: Option<Outlet>,
    pub(crate) end: Option<OutletEnd>,
    pub(crate) sent: Result<(), Memory>,
    pub(crate) tap: T,
}

/// The receiving half of a worker: before it ran its intake, afterwards its intake's end and what
/// it received.
pub(crate) struct Incoming<T> {
    pub(crate) alloc: Global,
    pub(crate) atoms: u32,
    pub(crate) intake: Option<Intake>,
    pub(crate) end: Option<IntakeEnd>,
    pub(crate) received: Result<Parts, Memory>,
    pub(crate) tap: T,
}

/// The halves of all workers' stations, the last worker's first.
pub(crate) struct Halves<'a, W, T> {
    pub(crate) senders: Vec<Outgoing<'a, W, T>>,
    pub(crate) receivers: Vec<Incoming<T>>,
}

impl<'a, W: Route, T: Tap> Job for Outgoing<'a, W, T> {
    ghost use Rattle.row_exchange.specs.inner.Stations.{IsReadyOut, HasGoneOut};

    ghost is_ready = { IsReadyOut W.accepts W.cells };

    ghost has_run = { HasGoneOut W.cells T.totals T.tag };

    /// Sends all rows of a worker.
    fn run<R: Threads + Wait + Sync>(&mut self, rt: &R) {
        match self.outlet.take() {
            Some(outlet) => {
                let (end, sent) = send(
                    rt,
                    self.alloc,
                    self.route,
                    self.parts,
                    self.size,
                    self.worker,
                    outlet,
                    &mut self.tap,
                );
                self.end = Some(end);
                self.sent = sent;
            }
            None => unreachable!(),
        }
    }
}

impl<T: Tap> Job for Incoming<T> {
    ghost use Rattle.row_exchange.specs.inner.Stations.{IsReadyIn, HasComeIn};

    ghost is_ready = { IsReadyIn };

    ghost has_run = { HasComeIn T.totals T.tag };

    /// Takes all that is sent to a worker.
    fn run<R: Threads + Wait + Sync>(&mut self, rt: &R) {
        match self.intake.take() {
            Some(intake) => {
                let (end, received) = receive(rt, self.alloc, self.atoms, intake, &mut self.tap);
                self.end = Some(end);
                self.received = received;
            }
            None => unreachable!(),
        }
    }
}
