//! The inbox as a machine that takes one event after another.
ghost use Rattle.std.specs.Prelude.{◌≡◌, ℕ, ◌<◌, ◌≤◌, IfOk, OnOk, OnErr};
ghost use Rattle.shuffle_core.specs.Inbox.{new_inbox, with_taken, HasEachEnd, IsDelivered, IsInbox};
ghost use Rattle.shuffle_core.specs.Machine.{sender_of, is_end, answer_to_post, answer_to_take, answer_of, after_post, after_event, run_of};

use crate::{Event, Events, Post, Stepped};
use rel_base::Memory;
use std::alloc::Global;
use std::marker::Model;

/// A bounded inbox of numbered senders. Contracts see its number of senders and its capacity, what
/// each sender sent, the posts that wait, and the posts that were got, all in order.
#[derive(Drop)]
pub struct Inbox {
    senders: u32,
    capacity: u32,
    /// Every post that was sent, in order.
    log: Vec<Post>,
    /// How many posts of the log were taken. So a take needs no memory.
    taken: usize,
    /// Whether the end mark of each sender was sent.
    ended: Vec<bool>,
}

impl Model for Inbox {
    ghost use Rattle.shuffle_core.specs.declared.posts.Post.{Post};
    ghost use Rattle.shuffle_core.specs.Inbox.{InboxState};
    ghost use Rattle.shuffle_core.specs.Machine.{inbox_of_log, IsLogOf};

    ghost Value = { InboxState Post };

    ghost view = { λ i. inbox_of_log i.senders i.capacity i.log.items i.taken };

    ghost invariant = { λ i. IsLogOf i.senders i.capacity i.log.items i.taken i.ended.items };
}

impl Inbox {
    /// An inbox to which nothing was sent. `senders` and `capacity` are at least 1.
    pub fn new(alloc: Global, senders: u32, capacity: u32) -> Result<Inbox, Memory>
        requires senders { 1 ≤ senders }
        requires capacity { 1 ≤ capacity }
        ensures made { IfOk result (λ made. made ≡ new_inbox senders capacity) }
        ensures kept { IfOk result (IsInbox sender_of is_end) }
    {
        let ended = Vec::from_elem(alloc, false, senders as usize)?;
        Ok(Inbox {
            senders,
            capacity,
            log: Vec::new(alloc),
            taken: 0,
            ended,
        })
    }

    /// What the inbox answers to the event, which changes it only where the answer is `Sent` or
    /// `Took`. After `Memory` it is as it was.
    pub fn step(&mut self, event: Event) -> Result<Stepped, Memory>
        ensures answer { IfOk result (λ answer. answer ≡ answer_of self.old event) }
        ensures after { OnOk result (self.new ≡ after_event self.old event) }
        ensures err { OnErr result (self.new ≡ self.old) }
        ensures kept { IsInbox sender_of is_end self.new }
    {
        match event {
            Event::Send(post) => self.send(post),
            Event::Take => Ok(self.take()),
        }
    }

    /// The answer to a post.
    fn send(&mut self, post: Post) -> Result<Stepped, Memory>
        ensures answer { IfOk result (λ answer. answer ≡ answer_to_post self.old post) }
        ensures after { OnOk result
            (self.new ≡ after_post self.old post (answer_to_post self.old post)) }
        ensures err { OnErr result (self.new ≡ self.old) }
        ensures was { IsInbox sender_of is_end self.old }
    {
        if post.sender >= self.senders {
            return Ok(Stepped::NoSender);
        }
        if self.ended[post.sender as usize] {
            return Ok(Stepped::Ended);
        }
        if self.log.len() - self.taken >= self.capacity as usize {
            return Ok(Stepped::Full);
        }
        self.log.push(post)?;
        self.ended[post.sender as usize] = post.is_end();
        Ok(Stepped::Sent)
    }

    /// The answer to a take.
    fn take(&mut self) -> Stepped
        ensures answer { result ≡ answer_to_take self.old.queue }
        ensures after { self.new ≡ with_taken self.old }
        ensures was { IsInbox sender_of is_end self.old }
    {
        if self.taken == self.log.len() {
            return Stepped::Empty;
        }
        let post = self.log[self.taken];
        self.taken += 1;
        Stepped::Took(post)
    }

    /// The posts that were taken, in order.
    pub fn got(&self) -> &[Post]
        ensures { result.now ≡ self.now.got }
    {
        &self.log[..self.taken]
    }

    /// The posts that wait, in order.
    pub fn waiting(&self) -> &[Post]
        ensures { result.now ≡ self.now.queue }
    {
        &self.log[self.taken..]
    }
}

/// The inbox after the events, one after another. Refused ones are passed over.
pub fn run(alloc: Global, senders: u32, capacity: u32, events: &Events) -> Result<Inbox, Memory>
    requires senders { 1 ≤ senders }
    requires capacity { 1 ≤ capacity }
    ensures inbox { IfOk result (λ inbox. inbox ≡ run_of (new_inbox senders capacity) events.now) }
    ensures kept { IfOk result (λ inbox. IsInbox sender_of is_end inbox) }
    ensures delivered { IfOk result (λ inbox.
        HasEachEnd sender_of is_end inbox → IsDelivered sender_of inbox) }
{
    let mut inbox = Inbox::new(alloc, senders, capacity)?;
    for event in events.as_slice() {
        let _answer = inbox.step(*event)?;
    }
    Ok(inbox)
}
