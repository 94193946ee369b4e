//! The rule of a cell's channel, what a pass knows of it, and what each step tells.
ghost use Rattle.std.specs.Prelude.{◌≡◌, ℕ, List};

use crate::Message;
use crossbeam_channel::protocol::{Join, Lesson, Outcome, Protocol, Split};
use crossbeam_channel::{RuledReceiver, RuledSender};
use std::collections::LinkedList;

/// What a pass knows of the inbox of its cell. No value of it is made.
pub struct View {
    /// Whether the pass makes the other passes and takes them back.
    pub keeps: bool,
    /// Whether the pass sends for a sender.
    pub sends: bool,
    /// Whether the pass takes for the cell.
    pub takes: bool,
    /// How many messages may wait.
    pub capacity: u64,
    /// The number of the sender that the pass sends for.
    pub sender: u64,
    /// How many senders the keeper's pass has made.
    pub senders: u64,
    /// What the sender has sent.
    pub sent: LinkedList<Message>,
    /// What the cell has taken.
    pub got: LinkedList<Message>,
    /// What each sender that was taken back has sent in all, from sender 0 on.
    pub returned: LinkedList<LinkedList<Message>>,
}

/// The rule of a cell's channel: what waits in it, and what its passes know, are those of one
/// inbox.
pub struct OneInbox;

impl Protocol<Message, View> for OneInbox {
    ghost use Rattle.exchange_channels.specs.inner.CellRule.{IsInboxOf, first_view};

    ghost holds = { IsInboxOf };

    ghost first = { first_view };
}

/// One more message may wait.
pub struct MoreCapacity;

impl Split<View> for MoreCapacity {
    ghost use Rattle.exchange_channels.specs.inner.CellRule.{with_more_capacity, idle_view};

    ghost left = { with_more_capacity };

    ghost right = { λ _. idle_view };
}

/// A pass for the next sender.
pub struct NextSender;

impl Split<View> for NextSender {
    ghost use Rattle.exchange_channels.specs.inner.CellRule.{with_next_sender, next_sender_view};

    ghost left = { with_next_sender };

    ghost right = { next_sender_view };
}

/// A pass for the receiver.
pub struct TheReceiver;

impl Split<View> for TheReceiver {
    ghost use Rattle.exchange_channels.specs.inner.CellRule.{without_receiver, receiver_view};

    ghost left = { without_receiver };

    ghost right = { λ v. receiver_view v.got };
}

/// A sender's pass comes back to the keeper.
pub struct SenderBack;

impl Join<View> for SenderBack {
    ghost use Rattle.exchange_channels.specs.inner.CellRule.{with_returned, idle_view};

    ghost both = { λ v w. with_returned v w.sent };

    ghost spent = { idle_view };
}

/// The receiver's pass comes back to the keeper.
pub struct ReceiverBack;

impl Join<View> for ReceiverBack {
    ghost use Rattle.exchange_channels.specs.inner.CellRule.{with_receiver, idle_view};

    ghost both = { λ v w. with_receiver v w.got };

    ghost spent = { idle_view };
}

/// A message was sent.
pub struct Sent;

impl Outcome<Message, View> for Sent {
    ghost use Rattle.exchange_channels.specs.inner.CellRule.{Sends};

    ghost then = { Sends };
}

impl Lesson<Message, View> for Sent {
    ghost use Rattle.std.specs.Prelude.{⊤};

    ghost fact = { λ v items. ⊤ };
}

/// A message was taken.
pub struct Taken;

impl Outcome<Message, View> for Taken {
    ghost use Rattle.exchange_channels.specs.inner.CellRule.{Takes};

    ghost then = { Takes };
}

impl Lesson<Message, View> for Taken {
    ghost use Rattle.std.specs.Prelude.{⊤};

    ghost fact = { λ v items. ⊤ };
}

/// The keeper, to which every pass came back, knows the inbox.
pub struct TheInbox;

impl Lesson<Message, View> for TheInbox {
    ghost use Rattle.exchange_channels.specs.inner.CellRule.{IsWholeInbox};

    ghost fact = { IsWholeInbox };
}

/// The sending end of a cell's channel.
pub type CellSender = RuledSender<Message, View, OneInbox>;

/// The receiving end of a cell's channel.
pub type CellReceiver = RuledReceiver<Message, View, OneInbox>;
