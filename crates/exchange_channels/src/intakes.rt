//! Intakes: the ends at which a cell takes what all senders sent to it.
ghost use Rattle.std.specs.Prelude.{◌≡◌, IsTrue, [], ◌∷◌, ◌++◌, length, IfOk, IsOkAnd, slice_set, true};
ghost use Rattle.rel_io.specs.Taps.{with_got};
ghost use Rattle.exchange_channels.specs.Messages.{drained_of, rows_of};
ghost use Rattle.exchange_channels.specs.Wirings.{HasEachEnd, untaken};
ghost use Rattle.exchange_channels.specs.inner.Intakes.{TakesMessage};

use crate::ports::TakePort;
use crate::{Batch, Drained, Message};
use rel_base::Memory;
use rel_io::Tap;
use std::alloc::Global;
use std::marker::Model;
use std::mem;
use std::sync::Wait;

/// The intake of one cell. Contracts see the cell's channel, the number of senders, the number of
/// the cell, and what was taken, which is nothing so far.
#[derive(Drop)]
pub struct Intake {
    pub(crate) number: u32,
    pub(crate) senders: u32,
    pub(crate) port: TakePort,
    /// A place for each sender, to note its end mark in. So an end mark needs no memory.
    pub(crate) ended: Vec<bool>,
}

impl Model for Intake {
    ghost use Rattle.exchange_channels.specs.Wirings.{IntakeState};
    ghost use Rattle.exchange_channels.specs.inner.Intakes.{intake_of, IsIntake};

    ghost Value = { IntakeState };

    ghost view = { λ i. intake_of i.senders i.number i.port };

    ghost invariant = { λ i. IsIntake i.senders i.port i.ended.items };
}

/// An intake that has taken the end mark of every sender. Contracts see it as they see an intake.
#[derive(Drop)]
pub struct IntakeEnd {
    pub(crate) number: u32,
    pub(crate) senders: u32,
    pub(crate) port: TakePort,
}

impl Model for IntakeEnd {
    ghost use Rattle.exchange_channels.specs.Wirings.{IntakeState, HasEachEnd};
    ghost use Rattle.exchange_channels.specs.inner.Intakes.{intake_of};

    ghost Value = { IntakeState };

    ghost view = { λ i. intake_of i.senders i.number i.port };

    ghost invariant = { λ i. HasEachEnd i.senders i.port.knows.got };
}

impl Intake {
    /// Takes until the end mark of every sender came, and tells the tap the rows of each batch,
    /// before it keeps the batch. It waits while nothing is there. After `Memory` it goes on
    /// taking, lets the batches go and still tells the tap.
    pub fn drain<T: Tap, R: Wait>(
        self,
        rt: &R,
        alloc: Global,
        tap: &mut T,
    ) -> (IntakeEnd, Result<Drained, Memory>)
        ensures same { untaken result.0 ≡ self }
        ensures ends { HasEachEnd self.senders result.0.got }
        ensures drained { IfOk result.1 (λ drained. drained ≡ drained_of result.0.got) }
        ensures tap { T.totals tap.new ≡ with_got (T.totals tap.old) (rows_of result.0.got) }
        ensures tag { T.tag tap.new ≡ T.tag tap.old }
    {
        let Intake {
            number,
            senders,
            port,
            ended,
        } = self;
        // A sum that was read fits its type, so that a cell without batches leaves it as it was.
        let _before = tap.totals();
        let mut taking = Taking {
            port,
            ended,
            drained: Ok(Drained::new(alloc)),
        };
        for _ in rt.forever() {
            if taking.has_each_end() {
                let Taking {
                    port,
                    ended: _,
                    drained,
                } = taking;
                let end = IntakeEnd {
                    number,
                    senders,
                    port,
                };
                return (end, drained);
            }
            taking.take(rt, tap);
        }
        unreachable!()
    }
}

/// What a cell took so far.
#[derive(Drop)]
struct Taking {
    port: TakePort,
    /// Whether the end mark of each sender came.
    ended: Vec<bool>,
    /// The batches, or that memory was refused.
    drained: Result<Drained, Memory>,
}

impl Model for Taking {
    ghost use Rattle.exchange_channels.specs.inner.Intakes.{TakingState, IsTaking};

    ghost Value = { TakingState };

    ghost view = { λ t. record { port = t.port; ended = t.ended.items; drained = t.drained } };

    ghost invariant = { λ t. IsTaking (record {
      port = t.port;
      ended = t.ended.items;
      drained = t.drained;
    }) };
}

impl Taking {
    /// Whether the end mark of every sender came.
    fn has_each_end(&self) -> bool
        ensures { IsTrue result → HasEachEnd (length self.now.ended) self.now.port.knows.got }
    {
        self.ended.iter().all(|ended| *ended)
    }

    /// Takes a message, and keeps its batch or notes its end mark.
    fn take<T: Tap, R: Wait>(&mut self, rt: &R, tap: &mut T)
        ensures place { self.new.port.place ≡ self.old.port.place }
        ensures senders { length self.new.ended ≡ length self.old.ended }
        ensures taken { TakesMessage self.old self.new (T.totals tap.old) (T.totals tap.new) }
        ensures tag { T.tag tap.new ≡ T.tag tap.old }
    {
        let Message { sender, batch } = self.port.take(rt);
        match batch {
            Some(batch) => {
                tap.got(u64::from(batch.rows.len()));
                let drained = mem::replace(&mut self.drained, Err(Memory));
                self.drained = with_batch(drained, sender, batch);
            }
            None => note(self.ended.as_mut_slice(), sender),
        }
    }
}

/// The batches with one more. Where memory was refused or is, all are let go.
fn with_batch(
    drained: Result<Drained, Memory>,
    sender: u32,
    batch: Batch,
) -> Result<Drained, Memory>
    ensures { IfOk result (λ now.
        IsOkAnd drained (λ before. now ≡ before ++ (sender, batch) ∷ [])) }
{
    let mut drained = drained?;
    if drained.len() == u32::MAX {
        return Err(Memory);
    }
    drained.push((sender, batch))?;
    Ok(drained)
}

/// Notes that a sender's end mark came.
fn note(ended: &mut [bool], sender: u32)
    ensures { ended.new ≡ slice_set ended.old sender true }
{
    if (sender as usize) < ended.len() {
        ended[sender as usize] = true;
    }
}
