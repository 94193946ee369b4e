//! The ends of a cell's channel, each with its pass: the keeper, the senders and the receiver.
ghost use Rattle.std.specs.Prelude.{◌≡◌, ◌≤◌, length, true, false, IfOk, OnOk, OnErr};
ghost use Rattle.std.specs.List.{list_any};
ghost use Rattle.crossbeam_channel.specs.Claims.{view as knows, IsSeatAt};
ghost use Rattle.crossbeam_channel.specs.Ends.{sends_on, receives_on, ruled_capacity};
ghost use Rattle.exchange_channels.specs.Messages.{is_end};
ghost use Rattle.exchange_channels.specs.inner.CellRule.{first_view, keeper_view, with_sent, with_taken};
ghost use Rattle.exchange_channels.specs.inner.Keeps.{receiver_of, next_sender_of, keeper_with_sender, keeper_with_returned, keeper_with_receiver, IsSettled};

use crate::Message;
use crate::rule::{
    CellReceiver, CellSender, MoreCapacity, NextSender, OneInbox, ReceiverBack, SenderBack, Sent,
    Taken, TheInbox, TheReceiver, View,
};
use crossbeam_channel::{Pass, bounded_with};
use rel_base::Memory;
use std::alloc::Global;
use std::marker::Model;
use std::sync::Wait;

/// The end at which one sender sends to one cell.
#[derive(Drop)]
pub struct SendPort {
    end: CellSender,
    pass: Pass<Message, View>,
}

impl Model for SendPort {
    ghost use Rattle.std.specs.Prelude.{◌≡◌, true};
    ghost use Rattle.crossbeam_channel.specs.Claims.{view as knows, IsSeatAt};
    ghost use Rattle.crossbeam_channel.specs.Ends.{sends_on, ruled_capacity};
    ghost use Rattle.exchange_channels.specs.Ports.{PortState, place_of};

    ghost Value = { PortState };

    ghost view = { λ p. record { place = place_of (sends_on p.end); knows = knows p.pass } };

    ghost invariant = { λ p. IsSeatAt (sends_on p.end) p.pass
        × (ruled_capacity (sends_on p.end) ≡ (knows p.pass).capacity)
        × ((knows p.pass).sends ≡ true) };
}

impl SendPort {
    /// Sends a message.
    pub fn send<R: Wait>(&mut self, rt: &R, message: Message)
        requires sender { message.sender ≡ self.old.knows.sender }
        requires running { list_any is_end self.old.knows.sent ≡ false }
        ensures { self.new ≡ record self.old { knows = with_sent self.old.knows message } }
    {
        send_until_sent(rt, &self.end, &mut self.pass, message);
    }
}

/// Sends a message, and sends it again whenever the channel hands it back.
fn send_until_sent<R: Wait>(
    rt: &R,
    end: &CellSender,
    pass: &mut Pass<Message, View>,
    message: Message,
)
    requires seat { IsSeatAt (sends_on end.now) pass.old }
    requires capacity { ruled_capacity (sends_on end.now) ≡ (knows pass.old).capacity }
    requires sends { (knows pass.old).sends ≡ true }
    requires sender { message.sender ≡ (knows pass.old).sender }
    requires running { list_any is_end (knows pass.old).sent ≡ false }
    ensures seat { IsSeatAt (sends_on end.now) pass.new }
    ensures sent { knows pass.new ≡ with_sent (knows pass.old) message }
{
    let mut next = message;
    for _ in rt.forever() {
        match end.send_as::<Sent, R>(rt, pass, next) {
            Ok(()) => return,
            Err(refused) => next = refused.into_inner(),
        }
    }
    unreachable!()
}

/// The end at which a cell takes what was sent to it.
#[derive(Drop)]
pub struct TakePort {
    end: CellReceiver,
    pass: Pass<Message, View>,
}

impl Model for TakePort {
    ghost use Rattle.std.specs.Prelude.{◌≡◌, true};
    ghost use Rattle.crossbeam_channel.specs.Claims.{view as knows, IsSeatAt};
    ghost use Rattle.crossbeam_channel.specs.Ends.{receives_on};
    ghost use Rattle.exchange_channels.specs.Ports.{PortState, place_of};

    ghost Value = { PortState };

    ghost view = { λ p. record { place = place_of (receives_on p.end); knows = knows p.pass } };

    ghost invariant = { λ p. IsSeatAt (receives_on p.end) p.pass × ((knows p.pass).takes ≡ true) };
}

impl TakePort {
    /// Takes the message in front.
    pub fn take<R: Wait>(&mut self, rt: &R) -> Message
        ensures { self.new ≡ record self.old { knows = with_taken self.old.knows result } }
    {
        take_until_taken(rt, &self.end, &mut self.pass)
    }
}

/// Takes the message in front, and tries again whenever the channel reports its end.
fn take_until_taken<R: Wait>(rt: &R, end: &CellReceiver, pass: &mut Pass<Message, View>) -> Message
    requires seat { IsSeatAt (receives_on end.now) pass.old }
    requires takes { (knows pass.old).takes ≡ true }
    ensures seat { IsSeatAt (receives_on end.now) pass.new }
    ensures taken { knows pass.new ≡ with_taken (knows pass.old) result }
{
    for _ in rt.forever() {
        if let Ok(message) = end.recv_as::<Taken, R>(rt, pass) {
            return message;
        }
    }
    unreachable!()
}

/// The end of a cell's channel that makes the senders' ends, and takes all ends back.
#[derive(Drop)]
pub struct KeepPort {
    end: CellSender,
    pass: Pass<Message, View>,
}

impl Model for KeepPort {
    ghost use Rattle.std.specs.Prelude.{◌≡◌, true};
    ghost use Rattle.crossbeam_channel.specs.Claims.{view as knows, IsSeatAt};
    ghost use Rattle.crossbeam_channel.specs.Ends.{sends_on, ruled_capacity};
    ghost use Rattle.exchange_channels.specs.Ports.{PortState, place_of};

    ghost Value = { PortState };

    ghost view = { λ p. record { place = place_of (sends_on p.end); knows = knows p.pass } };

    ghost invariant = { λ p. IsSeatAt (sends_on p.end) p.pass
        × (ruled_capacity (sends_on p.end) ≡ (knows p.pass).capacity)
        × ((knows p.pass).keeps ≡ true) };
}

impl KeepPort {
    /// The channel of a cell in which so many messages may wait: its keeper, without senders so
    /// far, and its receiver.
    pub fn new(alloc: Global, capacity: u32) -> Result<(KeepPort, TakePort), Memory>
        requires { 1 ≤ capacity }
        ensures keeper { IfOk result (λ ports. ports.0.knows ≡ keeper_view capacity) }
        ensures receiver { IfOk result (λ ports. ports.1 ≡ receiver_of ports.0) }
    {
        let (end, receiver, mut pass) = bounded_with::<Message, View, OneInbox, Global>(
            alloc,
            capacity as usize,
        )?;
        widen(&end, &mut pass, capacity);
        let taker = end.another::<TheReceiver>(&mut pass);
        let take = TakePort {
            end: receiver,
            pass: taker,
        };
        Ok((KeepPort { end, pass }, take))
    }

    /// The end of the next sender.
    pub fn make_sender(&mut self) -> Result<SendPort, Memory>
        ensures kept { OnOk result (self.new ≡ keeper_with_sender self.old) }
        ensures sender { IfOk result (λ port. port ≡ next_sender_of self.old) }
        ensures err { OnErr result (self.new ≡ self.old) }
    {
        let end = self.end.try_clone()?;
        let pass = self.end.another::<NextSender>(&mut self.pass);
        Ok(SendPort { end, pass })
    }

    /// Takes a sender's end back, after those of all senders before it.
    pub fn take_sender_back(&mut self, port: SendPort)
        requires place { port.place ≡ self.old.place }
        requires next { port.knows.sender ≡ length self.old.knows.returned }
        ensures { self.new ≡ keeper_with_returned self.old port.knows.sent }
    {
        self.end.absorb::<SenderBack>(&mut self.pass, port.pass);
    }

    /// Takes the receiver's end back.
    pub fn take_receiver_back(&mut self, port: TakePort)
        requires { port.place ≡ self.old.place }
        ensures { self.new ≡ keeper_with_receiver self.old port.knows.got }
    {
        self.end.absorb::<ReceiverBack>(&mut self.pass, port.pass);
    }

    /// Learns the inbox, once every end was taken back.
    pub fn learn(&mut self)
        requires receiver { self.old.knows.takes ≡ true }
        requires senders { length self.old.knows.returned ≡ self.old.knows.senders }
        ensures same { self.new ≡ self.old }
        ensures inbox { IsSettled self.old }
    {
        self.end.learn_as::<TheInbox>(&mut self.pass);
    }

    /// Lets the channel go, and keeps what the pass knows.
    pub fn into_pass(self) -> KeepPass
        ensures { result ≡ self.knows }
    {
        let KeepPort { end: _, pass } = self;
        KeepPass { _pass: pass }
    }
}

/// The pass of a keeper whose channel was let go. It takes no byte, and contracts see what it
/// knows.
#[derive(Drop)]
pub struct KeepPass {
    _pass: Pass<Message, View>,
}

impl Model for KeepPass {
    ghost use Rattle.crossbeam_channel.specs.Claims.{view as knows};
    ghost use Rattle.exchange_channels.specs.declared.rule.View.{View};

    ghost Value = { View };

    ghost view = { λ p. knows p._pass };
}

/// Lets so many messages wait in the channel.
fn widen(end: &CellSender, pass: &mut Pass<Message, View>, capacity: u32)
    requires seat { IsSeatAt (sends_on end.now) pass.old }
    requires first { knows pass.old ≡ first_view }
    ensures seat { IsSeatAt (sends_on end.now) pass.new }
    ensures wide { knows pass.new ≡ record first_view { capacity = capacity } }
{
    for _wider in 0..capacity {
        let _idle = end.another::<MoreCapacity>(pass);
    }
}
