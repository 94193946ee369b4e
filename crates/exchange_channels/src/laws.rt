//! Laws: the inbox of a channel is the machine of `shuffle_core`, step by step; and what a cell
//! took, as a whole.
ghost use Rattle.std.specs.Prelude.{◌≡◌, ℕ, List};
ghost use Rattle.shuffle_core.specs.Inbox.{InboxState};
ghost use Rattle.exchange_channels.specs.declared.messages.Message.{Message as Sent};
ghost use Rattle.exchange_channels.specs.Messages.{batches_of, drained_of, rows_of_atom, drained_rows};
ghost use Rattle.exchange_channels.specs.Wirings.{OutletState, IntakeState, TookAllSent};
ghost use Rattle.exchange_channels.specs.Numbered.{NumberedIsInbox, EachSendIsSend, EachTakeIsTake};

/// Law: with its batches numbered, each inbox of a channel is an inbox of the machine.
pub fn numbered_inbox_is_an_inbox()
    ensures { (inbox : InboxState Sent) → NumberedIsInbox inbox }
{}

/// Law: a send to a channel is the machine's `Send`, answered `Sent`.
pub fn a_send_is_a_send()
    ensures { (inbox : InboxState Sent) → EachSendIsSend inbox }
{}

/// Law: a take from a channel is the machine's `Take`, answered `Took`.
pub fn a_take_is_a_take()
    ensures { (inbox : InboxState Sent) → EachTakeIsTake inbox }
{}

/// Law: what a cell took is a permutation of what all senders sent there.
pub fn what_a_cell_took_is_what_was_sent()
    ensures { (outs : List OutletState) (taken : IntakeState) → TookAllSent outs taken }
{}

/// Law: the rows of an atom in what was drained are those of the batches that were taken.
pub fn drained_rows_are_those_of_the_batches()
    ensures { (atom : ℕ) (got : List Sent) →
        drained_rows atom (drained_of got) ≡ rows_of_atom atom (batches_of got) }
{}
