//! Rows at workers that are held while a script runs.
ghost use Rattle.std.specs.Prelude.{◌≡◌, ℕ, ◌==◌, not, ◌++◌, [], ◌∷◌, List, map, filter, find, All, IfOk, OnOk};
ghost use Rattle.std.specs.Option.{option_copied};
ghost use Rattle.myrial_ast.specs.Combinations.{Rows};
ghost use Rattle.algebra.specs.CheckedTrees.{step_tree_of};
ghost use Rattle.plan_rewrite.specs.Planned.{is_last_use};
ghost use Rattle.engine.specs.inner.Held.{IsHeld, parts_held};

use algebra::{Source, Sources, Step, Stores};
use plan_rewrite::is_last_use;
use rel_base::{Duplicate, Items, Memory, Spread};
use row_exchange::Spreads;
use std::alloc::Global;

/// The rows at each worker of files and of the results that are still used.
pub(crate) struct Held {
    /// The rows of each file, dealt to the workers.
    pub(crate) files: Items<Spread>,
    /// The number of each step whose result is still used, with its rows.
    pub(crate) results: Vec<(u32, Spread)>,
}

// Written out, since a derived drop is proved anew at each place where a value is let go.
impl Drop for Held {
    fn drop(self) {
        let Held {
            files: _,
            results: _,
        } = self;
    }
}

impl Held {
    /// The rows at each worker that a source stands for.
    pub(crate) fn parts_of(&self, source: Source) -> &Spread
        requires { IsHeld self.now source }
        ensures { result.now ≡ parts_held self.now source }
    {
        match source {
            Source::File(place) => self.files.get(place),
            Source::Result(number) => {
                let Some(held) = self.result_of(number) else {
                    unreachable!()
                };
                &held.1
            }
        }
    }

    /// The result of the step of this number, where it is held.
    fn result_of(&self, number: u32) -> Option<&(u32, Spread)>
        ensures { option_copied result
            ≡ find (λ (r : ℕ × List Rows). r.0 == number) self.now.results.items }
    {
        self.results.iter().find(|held| held.0 == number)
    }

    /// Holds the result of a step.
    pub(crate) fn hold(&mut self, statement: u32, parts: Spread) -> Result<(), Memory>
        ensures files { self.new.files ≡ self.old.files }
        ensures results { OnOk result
            (self.new.results.items ≡ self.old.results.items ++ (statement, parts) ∷ []) }
    {
        self.results.push((statement, parts))?;
        Ok(())
    }

    /// Lets the results go that the first of these steps is the last one to use, and no store
    /// stores. Their rows go with them where nothing else shares them.
    pub(crate) fn let_go(&mut self, stores: &Stores, steps: &[Step])
        ensures files { self.new.files ≡ self.old.files }
        ensures results { self.new.results.items ≡ filter (λ (r : ℕ × List Rows).
            not (is_last_use r.0 stores.now (map step_tree_of steps.now))) self.old.results.items }
    {
        self.results
            .retain(|held| !is_last_use(held.0, stores, steps));
    }

    /// The rows of each of some sources; no shared row is copied.
    pub(crate) fn parts_of_each(&self, alloc: Global, sources: &Sources) -> Result<Spreads, Memory>
        requires { All (IsHeld self.now) sources.now }
        ensures { IfOk result (λ made. made ≡ map (parts_held self.now) sources.now) }
    {
        let mut made = Spreads::with_capacity(alloc, sources.len())?;
        for source in sources.as_slice() {
            made.push(self.parts_of(*source).copy(alloc)?)?;
        }
        Ok(made)
    }
}
