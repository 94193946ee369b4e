//! The steps of a script, one after another.
ghost use Rattle.std.specs.Prelude.{◌≡◌, ◌*◌, ◌≤◌, length, vec_len};
ghost use Rattle.algebra.specs.CheckedTrees.{step_tree_of, term_tree_of};
ghost use Rattle.algebra.specs.Rewriting.{IsSameTerm};
ghost use Rattle.placement.specs.Plans.{one_rule, plan_kind};
ghost use Rattle.join_plans.specs.JoinPlans.{ruled_by};
ghost use Rattle.engine.specs.inner.Held.{IsRunnable};
ghost use Rattle.engine.specs.inner.Steps.{IsStep};
ghost use Rattle.engine.specs.inner.Terms.{later_in};

use crate::held::Held;
use crate::noted::{Noted, append};
use crate::terms::{RunStep, run_term};
use algebra::{PlanKind, PlanNote, PlanNotes, Settings, Term};
use join_plans::add_note;
use rel_base::RunFault;
use rel_io::Tap;
use routed_joins::{Moved, rows_in};
use std::alloc::Global;
use std::sync::Wait;
use std::thread::Threads;

/// Runs a step over what is held, holds its result, and notes what it did. It may wait as long as
/// its threads do.
pub(crate) fn run_step<R: Threads + Wait + Sync, T: Tap + Send>(
    rt: &R,
    alloc: Global,
    run: &RunStep<'_>,
    settings: &Settings,
    held: &mut Held,
    noted: &mut Noted,
    taps: &mut Vec<T>,
) -> Result<(), RunFault>
    requires runnable { IsRunnable settings.now.workers (length run.now.step.now.schema) held.old
        (term_tree_of run.now.step.now.term) }
    requires same { IsSameTerm (term_tree_of run.now.step.now.term)
        (term_tree_of run.now.pushed.now.term) }
    requires taps { 2 * settings.now.workers ≤ vec_len taps.old }
    ensures { IsStep settings.now (one_rule (ruled_by run.now.by)) (step_tree_of run.now.step.now)
        run.now.stores.now (later_in run.now) held.old held.new noted.old noted.new T.totals T.tag
        taps.old.items taps.new.items result }
{
    let mut lines = PlanNotes::new(alloc);
    let Moved {
        parts,
        traffic,
        receipts,
    } = run_term(rt, alloc, run, held, settings, &mut lines, taps)?;
    add_note(
        &mut noted.plan,
        PlanNote::Statement {
            number: run.step.statement,
            kind: kind_of(&run.step.term),
            rows: rows_in(&parts),
        },
    )?;
    append(alloc, &mut noted.plan, lines)?;
    append(alloc, &mut noted.traffic, traffic)?;
    append(alloc, &mut noted.receipts, receipts)?;
    held.hold(run.step.statement, parts)?;
    Ok(())
}

/// The word of the plan for a term.
fn kind_of(term: &Term) -> PlanKind
    ensures { result ≡ plan_kind (term_tree_of term.now) }
{
    match term {
        Term::Same(_) => PlanKind::Copy,
        Term::Empty => PlanKind::Empty,
        Term::UnionAll(_, _) => PlanKind::UnionAll,
        Term::Diff(_, _) => PlanKind::Diff,
        Term::Distinct(_) => PlanKind::Distinct,
        Term::Join(_, _) | Term::Group(_, _, _) => PlanKind::From,
    }
}
