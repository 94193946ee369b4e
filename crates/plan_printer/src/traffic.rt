//! The lines of the traffic of exchanges.
ghost use Rattle.std.specs.Prelude.{◌≡◌, ◌++◌, All, OnOk, OnErr, length, string_bytes};
ghost use Rattle.plan_printer.specs.TrafficTexts.{IsWhole, exchange_text, exchange_words, title};
ghost use Rattle.plan_printer.specs.TrafficTexts.{traffic_text, worker_line, workers_text};

use algebra::{Exchange, Traffic, TrafficNotes};
use rel_base::Memory;
use std::fmt::Write;

/// Appends the text of the traffic: for each exchange its title, and a line for each worker. After
/// `Memory` the bytes are as they were.
pub fn print_traffic(notes: &TrafficNotes, into: &mut Vec<u8>) -> Result<(), Memory>
    requires { All IsWhole notes.now }
    ensures ok { OnOk result (into.new.items ≡ into.old.items ++ traffic_text notes.now) }
    ensures err { OnErr result (into.new.items ≡ into.old.items) }
{
    let mut text = String::new(*into.allocator());
    for traffic in notes.as_slice() {
        push_exchange(traffic, &mut text)?;
    }
    into.extend_from_slice(text.as_bytes())?;
    Ok(())
}

/// Adds the title of an exchange, and a line for each worker.
fn push_exchange(traffic: &Traffic, text: &mut String) -> Result<(), Memory>
    requires { IsWhole traffic.now }
    ensures { OnOk result
        (string_bytes text.new ≡ string_bytes text.old ++ exchange_text traffic.now) }
{
    push_title(traffic.statement, traffic.exchange, text)?;
    push_workers(traffic.received.as_slice(), traffic.listed.as_slice(), text)?;
    Ok(())
}

/// Adds the title of an exchange, as `-- traffic 3 join hc`.
fn push_title(statement: u32, exchange: Exchange, text: &mut String) -> Result<(), Memory>
    ensures { OnOk result
        (string_bytes text.new ≡ string_bytes text.old ++ title statement exchange) }
{
    write!(text, "-- traffic {statement} ")?;
    push_words(exchange, text)?;
    text.push_str("\n")?;
    Ok(())
}

/// Adds what an exchange was for, as `join rs step 2`.
fn push_words(exchange: Exchange, text: &mut String) -> Result<(), Memory>
    ensures { OnOk result
        (string_bytes text.new ≡ string_bytes text.old ++ exchange_words exchange) }
{
    match exchange {
        Exchange::Hc => text.push_str("join hc")?,
        Exchange::Rs(step) => write!(text, "join rs step {step}")?,
        Exchange::Br => text.push_str("join br")?,
        Exchange::Group => text.push_str("group")?,
        Exchange::Distinct => text.push_str("distinct")?,
        Exchange::Diff => text.push_str("diff")?,
    }
    Ok(())
}

/// Adds a line for each worker.
fn push_workers(received: &[u64], listed: &[u64], text: &mut String) -> Result<(), Memory>
    requires { length received.now ≡ length listed.now }
    ensures { OnOk result
        (string_bytes text.new ≡ string_bytes text.old ++ workers_text received.now listed.now) }
{
    for worker in 0..received.len() {
        push_worker(worker, received[worker], listed[worker], text)?;
    }
    Ok(())
}

/// Adds the line of a worker, as `-- worker 0 received 4 listed 2`.
fn push_worker(worker: usize, received: u64, listed: u64, text: &mut String) -> Result<(), Memory>
    ensures { OnOk result
        (string_bytes text.new ≡ string_bytes text.old ++ worker_line worker received listed) }
{
    writeln!(
        text,
        "-- worker {worker} received {received} listed {listed}"
    )?;
    Ok(())
}
