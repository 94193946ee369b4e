//! The plan that the notes of a run print.
ghost use Rattle.std.specs.Prelude.{◌≡◌, ◌+◌, ◌-◌, ◌^◌, ◌<◌, ◌≤◌, [], ◌∷◌, ◌++◌, map, length, take, IfOk, OnOk, option_map};
ghost use Rattle.rel_base.specs.Limits.{most_variables};
ghost use Rattle.share_chooser.specs.Shares.{shares_of};
ghost use Rattle.fragmenter.specs.Plans.{choice_tree_of, plan_tree_of, shuffle_of};
ghost use Rattle.fragmenter.specs.NotedPlans.{choice_noted, choices_in, noted_plan};
ghost use Rattle.fragmenter.specs.NotedPlans.{shares_behind, shuffle_noted, statement_behind};

use crate::{Choice, Choices, How, Plan};
use algebra::{PlanNote, PlanNotes};
use rel_base::{MOST_VARIABLES, Memory};
use share_chooser::Shares;
use std::alloc::Global;

/// The plan of the choices that notes print, for so many workers.
pub fn plan_of(alloc: Global, notes: &PlanNotes, workers: u32) -> Result<Plan, Memory>
    ensures { IfOk result (λ plan. plan_tree_of plan ≡ noted_plan notes.now workers) }
{
    let choices = choices_in(alloc, notes)?;
    Ok(Plan { workers, choices })
}

/// The choices that notes print.
fn choices_in(alloc: Global, notes: &PlanNotes) -> Result<Choices, Memory>
    ensures { IfOk result (λ choices. map choice_tree_of choices ≡ choices_in notes.now) }
{
    let mut choices = Choices::new(alloc);
    let mut statement = 0;
    let mut shares = Shares::empty();
    for note in notes.as_slice() {
        push_choice(statement, how_noted(shares, note), &mut choices)?;
        statement = statement_behind(statement, note);
        shares = shares_behind(shares, note);
    }
    Ok(choices)
}

/// Adds the choice for a statement, where it is told how rows meet.
fn push_choice(statement: u32, how: Option<How>, choices: &mut Choices) -> Result<(), Memory>
    requires { length choices.old < 2 ^ 32 - 1 }
    ensures choices { OnOk result (map choice_tree_of choices.new
        ≡ map choice_tree_of choices.old ++ choice_noted statement (option_map shuffle_of how)) }
    ensures one { OnOk result (length choices.new ≤ length choices.old + 1) }
{
    if let Some(how) = how {
        choices.push(Choice { statement, how })?;
    }
    Ok(())
}

/// How the rows of a join meet, where a note tells it: by cells, with the shares that were told.
fn how_noted(shares: Shares, note: &PlanNote) -> Option<How>
    ensures { option_map shuffle_of result ≡ shuffle_noted (shares_of shares) note.now }
{
    match note {
        PlanNote::Hc { .. } => Some(How::Hc(shares)),
        PlanNote::Rs { .. } => Some(How::Rs),
        PlanNote::Br { .. } => Some(How::Br),
        PlanNote::Statement { .. }
        | PlanNote::Item { .. }
        | PlanNote::Reduced(_)
        | PlanNote::ReduceCyclic
        | PlanNote::Variable { .. }
        | PlanNote::Group { .. } => None,
    }
}

/// The statement of the last note that tells of one.
fn statement_behind(statement: u32, note: &PlanNote) -> u32
    ensures { result ≡ statement_behind statement note.now }
{
    match note {
        PlanNote::Statement { number, .. } => *number,
        _ => statement,
    }
}

/// The shares of a statement's variables behind a note.
fn shares_behind(shares: Shares, note: &PlanNote) -> Shares
    ensures { shares_of result ≡ shares_behind (shares_of shares) note.now }
{
    match note {
        PlanNote::Statement { .. } => Shares::empty(),
        PlanNote::Variable {
            share: Some(share),
            ..
        } => one_more(shares, *share),
        _ => shares,
    }
}

/// These shares and one more, where a join may have as many variables.
fn one_more(shares: Shares, share: u32) -> Shares
    ensures { shares_of result ≡ take most_variables (shares_of shares ++ share ∷ []) }
{
    if shares.count == MOST_VARIABLES {
        return shares;
    }
    shares.with(share)
}
