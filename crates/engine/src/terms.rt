//! The terms of steps.
ghost use Rattle.std.specs.Prelude.{◌≡◌, ◌*◌, ◌+◌, ◌≤◌, ◌++◌, [], All, None, OnOk, IfOk, IfErr, length, map, vec_len, slice_index_or};
ghost use Rattle.rel_base.specs.Limits.{most_rows};
ghost use Rattle.algebra.specs.CheckedTrees.{term_tree_of};
ghost use Rattle.algebra.specs.Rewriting.{IsSameTerm};
ghost use Rattle.algebra.specs.Trees.{Diff, Distinct};
ghost use Rattle.algebra.specs.declared.notes.PlanKind.TheVariants as plan;
ghost use Rattle.placement.specs.Layouts.{by_worker, together};
ghost use Rattle.placement.specs.Plans.{plan_kind, ruled_placing, term_notes};
ghost use Rattle.join_plans.specs.JoinPlans.{ruled_by};
ghost use Rattle.engine.specs.Runs.{IsRunFault};
ghost use Rattle.engine.specs.inner.Held.{IsHeld, IsRunnable, UsedAreHeld, parts_held, value_held};
ghost use Rattle.engine.specs.inner.Terms.{IsStepRun, IsUnionFault, later_in};

use crate::groups::run_step_group;
use crate::held::Held;
use crate::joins::{StepJoin, at_rest, run_step_join};
use algebra::{JoinShape, PlanNotes, Settings, Source, Sources, Step, Stores, Term};
use join_plans::ShuffleBy;
use keyed_terms::{Operands, empty_parts, run_diff, run_distinct, union_parts};
use rel_base::{Duplicate, MOST_ROWS, Memory, RunFault, Spread};
use rel_io::Tap;
use routed_joins::{Moved, rows_in};
use std::alloc::Global;
use std::sync::Wait;
use std::thread::Threads;

/// A step that is run: as its statement means it, and with tests pushed.
#[derive(Clone, Copy)]
pub(crate) struct RunStep<'a> {
    /// The step as its statement means it.
    pub(crate) step: &'a Step,
    /// The same step, in whose join the tests of one atom are that atom's keeps.
    pub(crate) pushed: &'a Step,
    /// By which rule the rows of its join come together.
    pub(crate) by: ShuffleBy,
    /// What is stored when all steps have run.
    pub(crate) stores: &'a Stores,
    /// The steps from this one on, with tests pushed.
    pub(crate) steps: &'a [Step],
}

/// Runs the term of a step over what is held, and adds the lines below the step's own to the plan.
/// It may wait as long as its threads do.
///
/// What a `distinct` or a `diff` is the last to use is held no more while it runs, so that rows are
/// let go before others are made of them.
#[tactic(auto, using(crate::proofs::UsedLemmas::used_itself))]
pub(crate) fn run_term<R: Threads + Wait + Sync, T: Tap + Send>(
    rt: &R,
    alloc: Global,
    run: &RunStep<'_>,
    held: &mut Held,
    settings: &Settings,
    lines: &mut PlanNotes,
    taps: &mut Vec<T>,
) -> Result<Moved, RunFault>
    requires runnable { IsRunnable settings.now.workers (length run.now.step.now.schema) held.old
        (term_tree_of run.now.step.now.term) }
    requires same { IsSameTerm (term_tree_of run.now.step.now.term)
        (term_tree_of run.now.pushed.now.term) }
    requires taps { 2 * settings.now.workers ≤ vec_len taps.old }
    ensures files { held.new.files ≡ held.old.files }
    ensures used { UsedAreHeld run.now.stores.now (later_in run.now)
        held.old.results.items held.new.results.items }
    ensures run { IsStepRun settings.now (ruled_by run.now.by) run.now.step.now.statement
        (value_held held.old) (term_tree_of run.now.step.now.term) T.totals T.tag taps.old.items
        taps.new.items result }
    ensures lines { OnOk result (lines.new ≡ lines.old
        ++ term_notes (ruled_placing settings.now (ruled_by run.now.by)) settings.now.local
        run.now.step.now.statement (value_held held.old) (term_tree_of run.now.step.now.term)) }
{
    match &run.step.term {
        Term::Same(source) => run_same(alloc, held.parts_of(*source)),
        Term::Empty => run_empty(alloc, settings.workers),
        Term::UnionAll(left, right) => {
            let (left, right) = (held.parts_of(*left), held.parts_of(*right));
            run_union(alloc, run.step.statement, left, right)
        }
        Term::Diff(left, right) => {
            run_step_diff(rt, alloc, run, held, *left, *right, settings, taps)
        }
        Term::Distinct(source) => run_step_distinct(rt, alloc, run, held, *source, settings, taps),
        Term::Join(_, _) | Term::Group(_, _, _) => {
            run_joined(rt, alloc, run, held, settings, lines, taps)
        }
    }
}

/// Runs a term that is its source: the rows stay where they lie. No shared row is copied.
fn run_same(alloc: Global, parts: &Spread) -> Result<Moved, RunFault>
    ensures parts { IfOk result (λ made. made.parts ≡ parts.now) }
    ensures traffic { IfOk result (λ made. made.traffic ≡ []) }
    ensures receipts { IfOk result (λ made. made.receipts ≡ []) }
    ensures err { IfErr result (IsRunFault None) }
{
    Ok(at_rest(alloc, parts.copy(alloc)?))
}

/// Runs a term without rows.
fn run_empty(alloc: Global, workers: u32) -> Result<Moved, RunFault>
    ensures parts { IfOk result (λ made. made.parts ≡ by_worker workers (λ _. [])) }
    ensures traffic { IfOk result (λ made. made.traffic ≡ []) }
    ensures receipts { IfOk result (λ made. made.receipts ≡ []) }
    ensures err { IfErr result (IsRunFault None) }
{
    Ok(at_rest(alloc, empty_parts(alloc, workers)?))
}

/// Runs a `unionall`: each worker has its own rows of both operands, where all of these aren't too
/// many.
fn run_union(
    alloc: Global,
    statement: u32,
    left: &Spread,
    right: &Spread,
) -> Result<Moved, RunFault>
    requires { length left.now ≡ length right.now }
    ensures parts { IfOk result (λ made. made.parts ≡ by_worker (length left.now)
        (λ w. slice_index_or left.now w [] ++ slice_index_or right.now w [])) }
    ensures traffic { IfOk result (λ made. made.traffic ≡ []) }
    ensures receipts { IfOk result (λ made. made.receipts ≡ []) }
    ensures few { OnOk result
        (length (together left.now) + length (together right.now) ≤ most_rows) }
    ensures err { IfErr result (IsUnionFault statement
        (length (together left.now) + length (together right.now))) }
{
    if rows_in(left).saturating_add(rows_in(right)) > u64::from(MOST_ROWS) {
        return Err(RunFault::TooManyRows { statement });
    }
    Ok(at_rest(alloc, union_parts(alloc, left, right)?))
}

/// Runs a `diff` over what is held. What it is the last to use is held no more while it runs.
fn run_step_diff<R: Threads + Wait + Sync, T: Tap + Send>(
    rt: &R,
    alloc: Global,
    run: &RunStep<'_>,
    held: &mut Held,
    left: Source,
    right: Source,
    settings: &Settings,
    taps: &mut Vec<T>,
) -> Result<Moved, RunFault>
    requires runnable { IsRunnable settings.now.workers (length run.now.step.now.schema) held.old
        (Diff left right) }
    requires taps { 2 * settings.now.workers ≤ vec_len taps.old }
    ensures files { held.new.files ≡ held.old.files }
    ensures used { UsedAreHeld run.now.stores.now (later_in run.now)
        held.old.results.items held.new.results.items }
    ensures run { IsStepRun settings.now (ruled_by run.now.by) run.now.step.now.statement
        (value_held held.old) (Diff left right) T.totals T.tag taps.old.items taps.new.items
        result }
{
    let operands = operands_of(alloc, run, held, left, right)?;
    held.let_go(run.stores, run.steps);
    let moved = run_diff(rt, alloc, run.step.statement, operands, settings, taps)?;
    Ok(moved)
}

/// What is held for the operands of a `diff`. No shared row is copied.
fn operands_of(
    alloc: Global,
    run: &RunStep<'_>,
    held: &Held,
    left: Source,
    right: Source,
) -> Result<Operands, Memory>
    requires left { IsHeld held.now left }
    requires right { IsHeld held.now right }
    ensures left { IfOk result (λ made. made.left ≡ parts_held held.now left) }
    ensures right { IfOk result (λ made. made.right ≡ parts_held held.now right) }
    ensures width { IfOk result (λ made. made.width ≡ length run.now.step.now.schema) }
{
    let left = held.parts_of(left).copy(alloc)?;
    let right = held.parts_of(right).copy(alloc)?;
    Ok(Operands {
        left,
        right,
        width: run.step.schema.len(),
    })
}

/// Runs a `distinct` over what is held. What it is the last to use is held no more while it runs.
fn run_step_distinct<R: Threads + Wait + Sync, T: Tap + Send>(
    rt: &R,
    alloc: Global,
    run: &RunStep<'_>,
    held: &mut Held,
    source: Source,
    settings: &Settings,
    taps: &mut Vec<T>,
) -> Result<Moved, RunFault>
    requires runnable { IsRunnable settings.now.workers (length run.now.step.now.schema) held.old
        (Distinct source) }
    requires taps { 2 * settings.now.workers ≤ vec_len taps.old }
    ensures files { held.new.files ≡ held.old.files }
    ensures used { UsedAreHeld run.now.stores.now (later_in run.now)
        held.old.results.items held.new.results.items }
    ensures run { IsStepRun settings.now (ruled_by run.now.by) run.now.step.now.statement
        (value_held held.old) (Distinct source) T.totals T.tag taps.old.items taps.new.items
        result }
{
    let parts = held.parts_of(source).copy(alloc)?;
    let width = run.step.schema.len();
    held.let_go(run.stores, run.steps);
    let moved = run_distinct(rt, alloc, run.step.statement, parts, width, settings, taps)?;
    Ok(moved)
}

/// Runs a join, or a join and the groups of what it lists, over what is held, and adds its lines to
/// the plan.
fn run_joined<R: Threads + Wait + Sync, T: Tap + Send>(
    rt: &R,
    alloc: Global,
    run: &RunStep<'_>,
    held: &Held,
    settings: &Settings,
    lines: &mut PlanNotes,
    taps: &mut Vec<T>,
) -> Result<Moved, RunFault>
    requires joins { plan_kind (term_tree_of run.now.step.now.term) ≡ plan.From }
    requires runnable { IsRunnable settings.now.workers (length run.now.step.now.schema) held.now
        (term_tree_of run.now.step.now.term) }
    requires same { IsSameTerm (term_tree_of run.now.step.now.term)
        (term_tree_of run.now.pushed.now.term) }
    requires taps { 2 * settings.now.workers ≤ vec_len taps.old }
    ensures run { IsStepRun settings.now (ruled_by run.now.by) run.now.step.now.statement
        (value_held held.now) (term_tree_of run.now.step.now.term) T.totals T.tag taps.old.items
        taps.new.items result }
    ensures lines { OnOk result (lines.new ≡ lines.old
        ++ term_notes (ruled_placing settings.now (ruled_by run.now.by)) settings.now.local
        run.now.step.now.statement (value_held held.now) (term_tree_of run.now.step.now.term)) }
{
    match (&run.step.term, &run.pushed.term) {
        (Term::Join(shape, sources), Term::Join(pushed, _)) => {
            let join = join_over(alloc, held, run, shape, pushed, sources)?;
            run_step_join(rt, alloc, &join, settings, lines, taps)
        }
        (Term::Group(shape, sources, kinds), Term::Group(pushed, _, _)) => {
            let join = join_over(alloc, held, run, shape, pushed, sources)?;
            run_step_group(rt, alloc, &join, kinds, settings, lines, taps)
        }
        _ => unreachable!(),
    }
}

/// A join over the rows that are held for its sources.
fn join_over<'a>(
    alloc: Global,
    held: &Held,
    run: &RunStep<'_>,
    shape: &'a JoinShape,
    pushed: &'a JoinShape,
    sources: &Sources,
) -> Result<StepJoin<'a>, Memory>
    requires { All (IsHeld held.now) sources.now }
    ensures statement { IfOk result (λ made. made.statement ≡ run.now.step.now.statement) }
    ensures by { IfOk result (λ made. made.by ≡ run.now.by) }
    ensures shape { IfOk result (λ made. made.shape.now ≡ shape.now) }
    ensures pushed { IfOk result (λ made. made.pushed.now ≡ pushed.now) }
    ensures parts { IfOk result (λ made. made.parts ≡ map (parts_held held.now) sources.now) }
{
    let parts = held.parts_of_each(alloc, sources)?;
    Ok(StepJoin {
        statement: run.step.statement,
        by: run.by,
        shape,
        pushed,
        parts,
    })
}
