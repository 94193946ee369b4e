//! Stages: what is done of a step between two exchanges.
ghost use Rattle.std.specs.Prelude.{◌≡◌, ◌++◌, IfOk, OnOk, Some, map};
ghost use Rattle.algebra.specs.CheckedTrees.{term_tree_of};
ghost use Rattle.plan_rewrite.specs.Planned.{planned_tree_of};
ghost use Rattle.algebra.specs.declared.settings.ShuffleKind.TheVariants as shuffle_kind;
ghost use Rattle.fragmenter.specs.Stages.{join_ends, shuffles, stages_at, stages_of, term_ends};

use algebra::{Exchange, ShuffleKind, Term};
use plan_rewrite::Planned;
use rel_base::{Items, Memory};
use std::alloc::Global;

/// What is done of a step up to its next exchange, or up to its result.
#[derive(Clone, Copy, Debug, PartialEq, Eq)]
pub struct Stage {
    /// The number of the statement, from 1.
    pub statement: u32,
    /// The place of the step among the steps, from 0.
    pub step: u32,
    /// The exchange at the end, where there is one.
    pub exchange: Option<Exchange>,
}

/// Stages, in the order in which they are done.
pub type Stages = Items<Stage>;

/// The stages of a script, step by step in their order. Where a list can't hold so many, the answer
/// is `Memory`.
pub fn fragment(alloc: Global, planned: &Planned, shuffle: ShuffleKind) -> Result<Stages, Memory>
    ensures { IfOk result (λ stages. stages
        ≡ stages_of shuffle (planned_tree_of planned.now).steps) }
{
    let mut stages = Stages::new(alloc);
    for (place, step) in planned.steps.as_slice().iter().enumerate() {
        let ends = ends_of_term(alloc, &step.term, shuffle)?;
        push_stages(step.statement, place as u32, ends.as_slice(), &mut stages)?;
    }
    Ok(stages)
}

/// Adds a stage of a step for each of these ends.
fn push_stages(
    statement: u32,
    step: u32,
    ends: &[Option<Exchange>],
    stages: &mut Stages,
) -> Result<(), Memory>
    ensures { OnOk result (stages.new ≡ stages.old ++ stages_at statement step ends.now) }
{
    for end in ends {
        if stages.len() == u32::MAX {
            return Err(Memory);
        }
        stages.push(Stage {
            statement,
            step,
            exchange: *end,
        })?;
    }
    Ok(())
}

/// What each stage of a term ends with.
fn ends_of_term(
    alloc: Global,
    term: &Term,
    shuffle: ShuffleKind,
) -> Result<Vec<Option<Exchange>>, Memory>
    ensures { IfOk result (λ ends. ends.items ≡ term_ends shuffle (term_tree_of term.now)) }
{
    match term {
        Term::Same(_) | Term::Empty | Term::UnionAll(_, _) => Ok(vec![in alloc; None]?),
        Term::Diff(_, _) => Ok(vec![in alloc; Some(Exchange::Diff)]?),
        Term::Distinct(_) => Ok(vec![in alloc; Some(Exchange::Distinct)]?),
        Term::Join(shape, _) => ends_of_join(alloc, shape.atoms.len(), shuffle),
        Term::Group(shape, _, _) => {
            let mut ends = ends_of_join(alloc, shape.atoms.len(), shuffle)?;
            ends.push(Some(Exchange::Group))?;
            Ok(ends)
        }
    }
}

/// What each stage of a join of so many items ends with.
fn ends_of_join(
    alloc: Global,
    items: u32,
    shuffle: ShuffleKind,
) -> Result<Vec<Option<Exchange>>, Memory>
    ensures { IfOk result (λ ends. ends.items ≡ join_ends shuffle items) }
{
    if items == 1 {
        return Ok(vec![in alloc; None]?);
    }
    match shuffle {
        ShuffleKind::Hc => Ok(vec![in alloc; Some(Exchange::Hc)]?),
        ShuffleKind::Br => Ok(vec![in alloc; Some(Exchange::Br)]?),
        ShuffleKind::Rs => step_ends(alloc, items),
    }
}

/// The steps of a join of so many items, two at a time: one for each item behind the first,
/// numbered from 2.
fn step_ends(alloc: Global, items: u32) -> Result<Vec<Option<Exchange>>, Memory>
    ensures { IfOk result (λ ends. ends.items ≡ map Some (shuffles shuffle_kind.Rs items)) }
{
    let mut ends = Vec::new(alloc);
    for place in 0..items.saturating_sub(1) {
        ends.push(Some(Exchange::Rs(place + 2)))?;
    }
    Ok(ends)
}
