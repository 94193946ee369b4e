//! The answers of an inbox to a list of events, one after another, and the inbox after them.
use rel_base::Memory;
use shuffle_core::{Event, Events, Inbox, Post, Stepped, run};
use std::alloc::Global;
use std::process::Abort;

fn post(sender: u32, label: Option<u64>) -> Post {
    Post { sender, label }
}

/// Events at an inbox of two senders in which one post may wait, each with its answer.
fn steps() -> [(&'static str, Event, Stepped); 8] {
    let (first, end) = (post(0, Some(7)), post(0, None));
    [
        ("the first post", Event::Send(first), Stepped::Sent),
        ("no room", Event::Send(post(1, Some(8))), Stepped::Full),
        ("the front", Event::Take, Stepped::Took(first)),
        ("nothing waits", Event::Take, Stepped::Empty),
        ("an end mark", Event::Send(end), Stepped::Sent),
        ("the end mark", Event::Take, Stepped::Took(end)),
        ("past the end", Event::Send(first), Stepped::Ended),
        ("a stranger", Event::Send(post(2, None)), Stepped::NoSender),
    ]
}

/// Compares the posts that were got.
fn compare_got(rt: &impl Abort, inbox: &Inbox) {
    let wanted = [post(0, Some(7)), post(0, None)];
    assert_eq!(rt; inbox.got(), wanted.as_slice());
    assert_eq!(rt; inbox.waiting(), [].as_slice());
}

#[test]
fn each_event_has_its_answer(rt: HostRuntime) -> Result<(), Memory> {
    let mut inbox = Inbox::new(rt.alloc(), 2, 1)?;
    for (name, event, answer) in steps() {
        assert_eq!(rt; inbox.step(event), Ok(answer), "{name}");
    }
    compare_got(&rt, &inbox);
    Ok(())
}

/// The events as a list.
fn events_of(alloc: Global) -> Result<Events, Memory> {
    let mut events = Events::new(alloc);
    for (_, event, _) in steps() {
        if events.len() < 8 {
            events.push(event)?;
        }
    }
    Ok(events)
}

#[test]
fn a_run_takes_every_event(rt: HostRuntime) -> Result<(), Memory> {
    let events = events_of(rt.alloc())?;
    let inbox = run(rt.alloc(), 2, 1, &events)?;
    compare_got(&rt, &inbox);
    Ok(())
}
