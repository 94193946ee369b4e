//! Each call, with ample memory. What the texts are is said by clauses and worked rows.
use algebra::{
    Counts, Exchange, ItemPlaces, JoinKind, PlanKind, PlanNote, PlanNotes, Traffic, TrafficNotes,
};
use plan_printer::{print_plan, print_traffic};
use rel_base::Memory;
use std::alloc::Global;

/// The columns `1.$0` and `2.$1`.
fn two_places(alloc: Global) -> Result<ItemPlaces, Memory> {
    let mut places = ItemPlaces::new(alloc);
    places.push((1, 0))?;
    places.push((2, 1))?;
    Ok(places)
}

/// A statement, a variable with a share, and a shuffle by cells.
pub(crate) fn three_notes(alloc: Global) -> Result<PlanNotes, Memory> {
    let places = two_places(alloc)?;
    let mut notes = PlanNotes::new(alloc);
    notes.push(PlanNote::Statement {
        number: 12,
        kind: PlanKind::From,
        rows: 3,
    })?;
    notes.push(PlanNote::Variable {
        number: 1,
        places,
        share: Some(2),
    })?;
    notes.push(PlanNote::Hc {
        local: JoinKind::Tj,
        cells: 2,
        num: 340_282_366_920_938_463_463_374_607_431_768_211_455,
        den: 2,
    })?;
    Ok(notes)
}

/// Two numbers of rows.
pub(crate) fn two_counts(alloc: Global, first: u64, second: u64) -> Result<Counts, Memory> {
    let mut counts = Counts::new(alloc);
    counts.push(first)?;
    counts.push(second)?;
    Ok(counts)
}

/// The rows of two items that are joined, and the line of items that go round in a ring.
fn reduce_notes(alloc: Global) -> Result<PlanNotes, Memory> {
    let counts = two_counts(alloc, 12, 0)?;
    let mut notes = PlanNotes::new(alloc);
    notes.push(PlanNote::Reduced(counts))?;
    notes.push(PlanNote::ReduceCyclic)?;
    Ok(notes)
}

/// The text of one exchange of two workers.
fn text_of_a_step(alloc: Global) -> Result<Vec<u8>, Memory> {
    let mut text = Vec::new(alloc);
    let mut notes = TrafficNotes::new(alloc);
    let received = two_counts(alloc, 4, 0)?;
    let listed = two_counts(alloc, 2, 1)?;
    if received.len() != listed.len() {
        return Ok(text);
    }
    notes.push(Traffic {
        statement: 7,
        exchange: Exchange::Rs(3),
        received,
        listed,
    })?;
    print_traffic(&notes, &mut text)?;
    Ok(text)
}

#[test]
fn a_plan_is_printed(rt: HostRuntime) -> Result<(), Memory> {
    let alloc = rt.alloc();
    let notes = three_notes(alloc)?;
    let mut text = Vec::new(alloc);
    print_plan(&notes, &mut text)?;
    let wanted = "-- plan 12 from rows 3\n\
                  -- variable 1 1.$0 2.$1 share 2\n\
                  -- shuffle hc join tj cells 2 load 340282366920938463463374607431768211455/2\n";
    assert_eq!(rt; text.as_slice(), wanted.as_bytes());
    Ok(())
}

#[test]
fn reduced_rows_are_printed(rt: HostRuntime) -> Result<(), Memory> {
    let alloc = rt.alloc();
    let notes = reduce_notes(alloc)?;
    let mut text = Vec::new(alloc);
    print_plan(&notes, &mut text)?;
    let wanted = "-- reduce 12 0\n-- reduce cyclic\n";
    assert_eq!(rt; text.as_slice(), wanted.as_bytes());
    Ok(())
}

#[test]
fn a_step_of_a_join_is_printed(rt: HostRuntime) -> Result<(), Memory> {
    let text = text_of_a_step(rt.alloc())?;
    let wanted = "-- traffic 7 join rs step 3\n\
                  -- worker 0 received 4 listed 2\n\
                  -- worker 1 received 0 listed 1\n";
    assert_eq!(rt; text.as_slice(), wanted.as_bytes());
    Ok(())
}
