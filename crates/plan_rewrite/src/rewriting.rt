//! The rewriting of checked scripts.
ghost use Rattle.std.specs.Prelude.{◌≡◌, ◌||◌, ℕ, List, map, reverse, IfOk};
ghost use Rattle.std.specs.List.{list_any};
ghost use Rattle.algebra.specs.CheckedTrees.{checked_tree_of, step_tree_of, term_tree_of};
ghost use Rattle.rel_base.specs.Keys.{File};
ghost use Rattle.myrial_ast.specs.CandidateFaults.{FaultRule};
ghost use Rattle.algebra.specs.Meanings.{checked_fault, is_result, needed_steps};
ghost use Rattle.algebra.specs.Meanings.{stored_by, uses, is_used};
ghost use Rattle.algebra.specs.Rewriting.{IsRewritten};
ghost use Rattle.plan_rewrite.specs.Planned.{is_last_use, planned_tree_of};
ghost use Rattle.plan_rewrite.specs.inner.Steps.{pushed_step, pushed_term};

use crate::pushing::pushed;
use algebra::{Checked, Source, Step, StepList, StoreStep, Stores, Term};
use rel_base::{Duplicate, Memory};
use std::alloc::Global;

/// A script without the steps that no store needs, whose joins test the rows of an atom before
/// they are joined.
#[derive(Debug)]
pub struct Planned {
    /// The needed assignments, in order.
    pub steps: StepList,
    /// The stores.
    pub stores: Stores,
}

// Written out, since a derived drop is proved anew at each place where a value is let go.
impl Drop for Planned {
    fn drop(self) {
        let Planned {
            steps: _,
            stores: _,
        } = self;
    }
}

/// Whether a source is the result of the statement of this number.
fn is_result(number: u32, source: &Source) -> bool
    ensures { result ≡ is_result number source.now }
{
    match source {
        Source::File(_) => false,
        Source::Result(other) => *other == number,
    }
}

/// Whether one of these is the result of the statement of this number.
fn have_result(number: u32, sources: &[Source]) -> bool
    ensures { result ≡ list_any (is_result number) sources.now }
{
    sources.iter().any(|source| is_result(number, source))
}

/// Whether a step has the result of this statement as a source.
fn uses(number: u32, step: &Step) -> bool
    ensures { result ≡ uses number (step_tree_of step.now) }
{
    match &step.term {
        Term::Empty => false,
        Term::Same(source) | Term::Distinct(source) => is_result(number, source),
        Term::UnionAll(left, right) | Term::Diff(left, right) => {
            is_result(number, left) || is_result(number, right)
        }
        Term::Join(_, sources) | Term::Group(_, sources, _) => {
            have_result(number, sources.as_slice())
        }
    }
}

/// Whether one of these stores stores the result of this statement.
fn is_stored(number: u32, stores: &[StoreStep]) -> bool
    ensures { result ≡ list_any (λ s. is_result number s.source) stores.now }
{
    stores.iter().any(|store| is_result(number, &store.source))
}

/// Whether one of these steps has the result of this statement as a source.
fn is_taken(number: u32, later: &[&Step]) -> bool
    ensures { result ≡ list_any (λ s. uses number (step_tree_of s.now)) later.now }
{
    later.iter().any(|step| uses(number, step))
}

/// Whether one of these stores stores the result of this statement, or one of these steps has it
/// as a source.
fn is_used(number: u32, stores: &Stores, later: &[&Step]) -> bool
    ensures { result ≡ (list_any (λ s. is_result number s.source) stores.now
        || list_any (λ s. uses number (step_tree_of s.now)) later.now) }
{
    is_stored(number, stores.as_slice()) || is_taken(number, later)
}

/// Whether one of these steps, which stand in a row, has the result of this statement as a source.
fn is_taken_in(number: u32, steps: &[Step]) -> bool
    ensures { result ≡ list_any (λ s. uses number (step_tree_of s)) steps.now }
{
    steps.iter().any(|step| uses(number, step))
}

/// Whether one of these stores stores the result of this statement, or one of these steps has it
/// as a source.
fn is_used_in(number: u32, stores: &Stores, steps: &[Step]) -> bool
    ensures { result ≡ is_used number stores.now (map step_tree_of steps.now) }
{
    is_stored(number, stores.as_slice()) || is_taken_in(number, steps)
}

/// Whether the first of these steps is the last one that has the result of this statement as a
/// source, and no store stores it.
pub fn is_last_use(number: u32, stores: &Stores, steps: &[Step]) -> bool
    ensures { result ≡ is_last_use number stores.now (map step_tree_of steps.now) }
{
    match steps {
        [] => false,
        [step, later @ ..] => uses(number, step) && !is_used_in(number, stores, later),
    }
}

/// The steps that a store needs, the last first.
fn needed_steps<'a>(alloc: Global, checked: &'a Checked) -> Result<Vec<&'a Step>, Memory>
    ensures { IfOk result (λ needed. reverse (map (λ s. step_tree_of s.now) needed.items)
        ≡ needed_steps checked.entry.now.stores (map step_tree_of checked.entry.now.steps)) }
{
    let mut needed = Vec::new(alloc);
    for i in (0..checked.steps.len()).rev() {
        let step = checked.steps.get(i);
        if is_used(step.statement, &checked.stores, &needed) {
            needed.push(step)?;
        }
    }
    Ok(needed)
}

/// The term whose join is pushed.
fn pushed_term(alloc: Global, term: &Term) -> Result<Term, Memory>
    ensures { IfOk result (λ made. term_tree_of made ≡ pushed_term (term_tree_of term.now)) }
{
    match term {
        Term::Join(shape, sources) => {
            let shape = pushed(alloc, shape)?;
            Ok(Term::Join(shape, sources.copy(alloc)?))
        }
        Term::Group(shape, sources, kinds) => {
            let shape = pushed(alloc, shape)?;
            let sources = sources.copy(alloc)?;
            Ok(Term::Group(shape, sources, kinds.copy(alloc)?))
        }
        other => other.copy(alloc),
    }
}

/// The step whose join is pushed.
fn pushed_step(alloc: Global, step: &Step) -> Result<Step, Memory>
    ensures { IfOk result (λ made. step_tree_of made ≡ pushed_step (step_tree_of step.now)) }
{
    let schema = step.schema.copy(alloc)?;
    let term = pushed_term(alloc, &step.term)?;
    Ok(Step {
        statement: step.statement,
        schema,
        term,
    })
}

/// The script with its needed steps alone, in which each test that reads columns of one atom alone
/// is a keep of that atom.
///
/// So is the equality of columns of one atom that a variable holds; and nothing else is: a test
/// without columns cuts candidates and stays where it did. Each atom's keeps hold of exactly the
/// rows that its own columns don't rule out. What the script stores and the fault of its run are
/// those of the script that is given, over any files. The time is that of the tests times the
/// atoms, and of the square of the steps.
pub fn rewrite(alloc: Global, checked: &Checked) -> Result<Planned, Memory>
    ensures rewritten { IfOk result
        (λ planned. IsRewritten (checked_tree_of checked.now) (planned_tree_of planned)) }
    ensures stored { IfOk result (λ planned. (files : List File)
        → stored_by files (planned_tree_of planned)
        ≡ stored_by files (checked_tree_of checked.now)) }
    ensures fault { IfOk result (λ planned. (rules : ℕ → FaultRule) (files : List File)
        → checked_fault rules files (planned_tree_of planned)
        ≡ checked_fault rules files (checked_tree_of checked.now)) }
{
    let needed = needed_steps(alloc, checked)?;
    let mut steps = StepList::new(alloc);
    for i in (0..needed.len()).rev() {
        let step = pushed_step(alloc, needed[i])?;
        if steps.len() == u32::MAX {
            return Err(Memory);
        }
        steps.push(step)?;
    }
    let stores = checked.stores.copy(alloc)?;
    Ok(Planned { steps, stores })
}
