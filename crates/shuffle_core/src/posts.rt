//! What goes through an inbox, what may happen to it, and what it answers.
ghost use Rattle.std.specs.Prelude.{◌≡◌};
ghost use Rattle.shuffle_core.specs.Machine.{is_end};

use rel_base::Items;

/// A message of one sender: a labelled post, or its end mark.
#[derive(Clone, Copy, Debug, PartialEq, Eq)]
pub struct Post {
    /// The number of the sender, from 0.
    pub sender: u32,
    /// What is sent; `None` is the end mark, behind which its sender sends nothing.
    pub label: Option<u64>,
}

impl Post {
    /// Whether this is an end mark.
    pub fn is_end(&self) -> bool
        ensures { result ≡ is_end self.now }
    {
        self.label.is_none()
    }
}

/// What may happen to an inbox.
#[derive(Clone, Copy, Debug, PartialEq, Eq)]
pub enum Event {
    /// A sender offers a post.
    Send(Post),
    /// The receiver takes the post in front.
    Take,
}

/// Events, in order.
pub type Events = Items<Event>;

/// What an inbox answers to an event.
#[derive(Clone, Copy, Debug, PartialEq, Eq)]
pub enum Stepped {
    /// The post stands at the back of the queue.
    Sent,
    /// This post stood in front, and was taken.
    Took(Post),
    /// The inbox has no sender of this number.
    NoSender,
    /// The sender's end mark was sent before.
    Ended,
    /// As many posts wait as may.
    Full,
    /// No post waits.
    Empty,
}
