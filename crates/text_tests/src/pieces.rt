//! The texts that a run prints, piece by piece. What each text is, clauses say; where it is cut is
//! seen here.
use crate::printing::{three_notes, two_counts};
use algebra::{Exchange, Traffic, TrafficNotes};
use output_texts::Pieces;
use placement::{SpreadStore, SpreadStores};
use rel_base::{ColType, Column, Key, Memory, Row, Rows, Schema, Spread, Stored, Text, Value};
use rel_io::{Sink, SinkFault};
use relation_csv::read_relation;
use std::alloc::Global;
use std::test::Fail;

/// A sink that takes each piece whole and compares it with the next one that is wanted.
#[derive(Drop)]
struct Comparing<'a> {
    wanted: &'a [&'a str],
    agrees: bool,
}

impl<'a> Sink for Comparing<'a> {
    ghost use Rattle.std.specs.Prelude.{None};

    ghost taken = { λ _. None };

    ghost faults = { λ _. 0 };

    ghost wants = { λ _. 0 };

    fn write(&mut self, piece: &[u8]) -> Result<usize, SinkFault> {
        match self.wanted {
            [first, others @ ..] => {
                self.agrees = self.agrees && first.as_bytes() == piece;
                self.wanted = others;
            }
            [] => self.agrees = false,
        }
        Ok(piece.len())
    }
}

/// Whether a text is offered in these pieces.
fn is_cut_so(text: &Pieces, wanted: &[&str]) -> bool {
    let mut sink = Comparing {
        wanted,
        agrees: true,
    };
    let printed = text.print(&mut sink);
    printed.is_ok() && sink.agrees && sink.wanted.is_empty()
}

/// The key `public:adhoc:R`.
fn key_of_r(alloc: Global) -> Result<Key, Memory> {
    let user = Text::of(alloc, "public")?;
    let program = Text::of(alloc, "adhoc")?;
    let name = Text::of(alloc, "R")?;
    Ok(Key {
        user,
        program,
        name,
    })
}

/// One column of numbers.
fn numbers(alloc: Global) -> Result<Schema, Memory> {
    let mut schema = Schema::new(alloc);
    schema.push(Column {
        name: Text::of(alloc, "n")?,
        kind: ColType::Int,
    })?;
    Ok(schema)
}

/// The rows of two numbers.
fn rows_of(alloc: Global, first: i64, second: i64) -> Result<Rows, Memory> {
    let mut rows = Rows::new(alloc);
    for number in [first, second] {
        let mut row = Row::new(alloc);
        row.push(Value::Int(number))?;
        if rows.len() < 2 {
            rows.push(row)?;
        }
    }
    Ok(rows)
}

/// A store at two workers, of which each has two rows.
fn stored_at_two(alloc: Global) -> Result<SpreadStores, Memory> {
    let mut parts = Spread::new(alloc);
    parts.push(rows_of(alloc, 30, 4)?)?;
    parts.push(rows_of(alloc, 5, 30)?)?;
    let key = key_of_r(alloc)?;
    let schema = numbers(alloc)?;
    let mut stored = SpreadStores::new(alloc);
    stored.push(SpreadStore { key, schema, parts })?;
    Ok(stored)
}

/// Every third number from a first one below three on, below an end.
pub(crate) fn every_third(alloc: Global, first: u32, end: u32) -> Result<Rows, Memory> {
    let mut rows = Rows::new(alloc);
    for number in 0..end {
        if number % 3 == first && rows.len() < 10_000 {
            let mut row = Row::new(alloc);
            row.push(Value::Int(i64::from(number)))?;
            rows.push(row)?;
        }
    }
    Ok(rows)
}

/// A store at three workers, to which the numbers from 0 on are dealt in turn.
fn numbers_dealt_to_three(alloc: Global, count: u32) -> Result<SpreadStores, Memory> {
    let mut parts = Spread::new(alloc);
    parts.push(every_third(alloc, 0, count)?)?;
    parts.push(every_third(alloc, 1, count)?)?;
    parts.push(every_third(alloc, 2, count)?)?;
    let key = key_of_r(alloc)?;
    let schema = numbers(alloc)?;
    let mut stored = SpreadStores::new(alloc);
    stored.push(SpreadStore { key, schema, parts })?;
    Ok(stored)
}

/// The lines of a store of so many numbers, from 0 on.
fn lines_of_numbers(alloc: Global, count: u32) -> Result<Vec<String>, Memory> {
    let mut lines = Vec::new(alloc);
    lines.push(format!(in alloc; "-- store public:adhoc:R {count} rows\n")?)?;
    lines.push(String::from_str(alloc, "n:int\n")?)?;
    for number in 0..count {
        lines.push(format!(in alloc; "{number}\n")?)?;
    }
    Ok(lines)
}

/// The traffic of an exchange between two workers, as a text.
fn text_of_traffic(alloc: Global) -> Result<Pieces, Memory> {
    let mut text = Pieces::new(alloc);
    let received = two_counts(alloc, 4, 0)?;
    let listed = two_counts(alloc, 2, 1)?;
    if received.len() != listed.len() {
        return Ok(text);
    }
    let mut notes = TrafficNotes::new(alloc);
    notes.push(Traffic {
        statement: 7,
        exchange: Exchange::Group,
        received,
        listed,
    })?;
    text.add_traffic(&notes)?;
    Ok(text)
}

#[test]
fn stores_are_cut_at_their_rows(rt: HostRuntime) -> Result<(), Memory> {
    let stored = stored_at_two(rt.alloc())?;
    let mut text = Pieces::new(rt.alloc());
    text.add_stored(&rt, rt.alloc(), &stored)?;
    let wanted = &[
        "-- store public:adhoc:R 4 rows\n",
        "n:int\n",
        "4\n",
        "5\n",
        "30\n",
        "30\n",
    ];
    assert!(rt; is_cut_so(&text, wanted));
    Ok(())
}

/// So many rows that three jobs make their text; what comes behind them stands behind them.
#[test]
fn many_rows_are_cut_as_few_are(rt: HostRuntime) -> Result<(), Memory> {
    let stored = numbers_dealt_to_three(rt.alloc(), 12_500)?;
    let mut text = Pieces::new(rt.alloc());
    text.add_stored(&rt, rt.alloc(), &stored)?;
    text.add_trial(rt.alloc(), 9, &stored)?;
    let lines = lines_of_numbers(rt.alloc(), 12_500)?;
    let mut wanted = Vec::new(rt.alloc());
    for line in &lines {
        wanted.push(line.as_str())?;
    }
    for line in [
        "-- trial size 9\n",
        "-- rows 12500\n",
        "-- distinct 12500\n",
    ] {
        wanted.push(line)?;
    }
    assert!(rt; is_cut_so(&text, &wanted));
    Ok(())
}

/// A row's record may hold a line feed.
#[test]
fn relations_stand_as_they_are(rt: HostRuntime) -> Result<(), Fail> {
    let relation = read_relation(rt.alloc(), b"s:string\nb\n\"a\n\"\n")?;
    let key = key_of_r(rt.alloc())?;
    let mut stored = Stored::new(rt.alloc());
    stored.push((key, relation))?;
    let mut text = Pieces::new(rt.alloc());
    text.add_relations(rt.alloc(), &stored)?;
    let wanted = &[
        "-- store public:adhoc:R 2 rows\n",
        "s:string\n",
        "b\n",
        "\"a\n\"\n",
    ];
    assert!(rt; is_cut_so(&text, wanted));
    Ok(())
}

#[test]
fn plans_are_cut_at_their_lines(rt: HostRuntime) -> Result<(), Memory> {
    let notes = three_notes(rt.alloc())?;
    let mut text = Pieces::new(rt.alloc());
    text.add_plan(&notes)?;
    let wanted = &[
        "-- plan 12 from rows 3\n",
        "-- variable 1 1.$0 2.$1 share 2\n",
        "-- shuffle hc join tj cells 2 load 340282366920938463463374607431768211455/2\n",
    ];
    assert!(rt; is_cut_so(&text, wanted));
    Ok(())
}

#[test]
fn traffic_is_cut_at_its_lines(rt: HostRuntime) -> Result<(), Memory> {
    let text = text_of_traffic(rt.alloc())?;
    let wanted = &[
        "-- traffic 7 group\n",
        "-- worker 0 received 4 listed 2\n",
        "-- worker 1 received 0 listed 1\n",
    ];
    assert!(rt; is_cut_so(&text, wanted));
    Ok(())
}

#[test]
fn trials_are_counted(rt: HostRuntime) -> Result<(), Memory> {
    let stored = stored_at_two(rt.alloc())?;
    let mut text = Pieces::new(rt.alloc());
    text.add_trial(rt.alloc(), 9, &stored)?;
    let wanted = &["-- trial size 9\n", "-- rows 4\n", "-- distinct 3\n"];
    assert!(rt; is_cut_so(&text, wanted));
    Ok(())
}
