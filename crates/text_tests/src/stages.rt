//! The stages of a script of two steps.
use algebra::{Exchange, ShuffleKind, Source, Step, StepList, Stores, Term};
use fragmenter::{Stage, fragment};
use plan_rewrite::Planned;
use rel_base::{Memory, Schema};
use std::alloc::Global;
use std::test::Fail;

/// A relation without rows, and its different rows.
fn two_steps(alloc: Global) -> Result<Planned, Memory> {
    let mut steps = StepList::new(alloc);
    steps.push(Step {
        statement: 1,
        schema: Schema::new(alloc),
        term: Term::Empty,
    })?;
    steps.push(Step {
        statement: 3,
        schema: Schema::new(alloc),
        term: Term::Distinct(Source::Result(1)),
    })?;
    let stores = Stores::new(alloc);
    Ok(Planned { steps, stores })
}

#[test]
fn steps_are_cut(rt: HostRuntime) -> Result<(), Fail> {
    let planned = two_steps(rt.alloc())?;
    let stages = fragment(rt.alloc(), &planned, ShuffleKind::Rs)?;
    let wanted = [
        Stage {
            statement: 1,
            step: 0,
            exchange: None,
        },
        Stage {
            statement: 3,
            step: 1,
            exchange: Some(Exchange::Distinct),
        },
    ];
    assert_eq!(rt; stages.as_slice(), wanted.as_slice());
    Ok(())
}
