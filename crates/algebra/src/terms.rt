//! Terms, steps and checked scripts.
ghost use Rattle.std.specs.Prelude.{◌≡◌, IfOk};
ghost use Rattle.algebra.specs.CheckedTrees.{term_tree_of, step_tree_of};

use crate::{EmitKinds, JoinShape};
use rel_base::{Duplicate, Items, Key, Memory, Schema};
use std::alloc::Global;

/// Where a relation comes from.
#[derive(Clone, Copy, Debug, PartialEq, Eq)]
pub enum Source {
    /// The file at this place among the files, from 0.
    File(u32),
    /// The result of the statement of this number.
    Result(u32),
}

/// Sources, in order.
pub type Sources = Items<Source>;

/// What a statement computes.
#[derive(Debug)]
pub enum Term {
    /// The relation itself.
    Same(Source),
    /// No row.
    Empty,
    /// The rows of both.
    UnionAll(Source, Source),
    /// Each row of the first that the second doesn't have, once.
    Diff(Source, Source),
    /// Each row once.
    Distinct(Source),
    /// The rows that a join of these sources lists, one source for each atom.
    Join(JoinShape, Sources),
    /// The groups of the rows that a join lists, where each column is a key or the argument of an
    /// aggregate.
    Group(JoinShape, Sources, EmitKinds),
}

// Written out, since a derived drop is proved anew at each place where a value is let go.
impl Drop for Term {
    fn drop(self) {
        match self {
            Term::Same(_)
            | Term::Empty
            | Term::UnionAll(_, _)
            | Term::Diff(_, _)
            | Term::Distinct(_)
            | Term::Join(_, _)
            | Term::Group(_, _, _) => {}
        }
    }
}

/// A statement that assigns: its number, the columns of its result, and what it computes.
#[derive(Debug)]
pub struct Step {
    /// The number of the statement, from 1.
    pub statement: u32,
    /// The columns of the result.
    pub schema: Schema,
    /// What it computes.
    pub term: Term,
}

// Written out, since a derived drop is proved anew at each place where a value is let go.
impl Drop for Step {
    fn drop(self) {
        let Step {
            statement: _,
            schema: _,
            term: _,
        } = self;
    }
}

/// Steps, in order.
pub type StepList = Items<Step>;

/// A statement that stores.
#[derive(Debug)]
pub struct StoreStep {
    /// The number of the statement, from 1.
    pub statement: u32,
    /// The key that is stored.
    pub key: Key,
    /// What is stored.
    pub source: Source,
}

// Written out, since a derived drop is proved anew at each place where a value is let go.
impl Drop for StoreStep {
    fn drop(self) {
        let StoreStep {
            statement: _,
            key: _,
            source: _,
        } = self;
    }
}

/// The stores, in order.
pub type Stores = Items<StoreStep>;

/// A script whose names are resolved: all of its assignments and all of its stores, in order.
#[derive(Debug)]
pub struct Checked {
    /// The assignments.
    pub steps: StepList,
    /// The stores.
    pub stores: Stores,
}

// Written out, since a derived drop is proved anew at each place where a value is let go.
impl Drop for Checked {
    fn drop(self) {
        let Checked {
            steps: _,
            stores: _,
        } = self;
    }
}

impl Duplicate for Source {
    fn copy(&self, _alloc: Global) -> Result<Source, Memory> {
        Ok(*self)
    }
}

impl Term {
    /// A term with the same tree.
    pub fn copy(&self, alloc: Global) -> Result<Term, Memory>
        ensures { IfOk result (λ made. term_tree_of made ≡ term_tree_of self.now) }
    {
        match self {
            Term::Same(source) => Ok(Term::Same(*source)),
            Term::Empty => Ok(Term::Empty),
            Term::UnionAll(left, right) => Ok(Term::UnionAll(*left, *right)),
            Term::Diff(left, right) => Ok(Term::Diff(*left, *right)),
            Term::Distinct(source) => Ok(Term::Distinct(*source)),
            Term::Join(shape, sources) => {
                let shape = shape.copy(alloc)?;
                Ok(Term::Join(shape, sources.copy(alloc)?))
            }
            Term::Group(shape, sources, kinds) => {
                let shape = shape.copy(alloc)?;
                let sources = sources.copy(alloc)?;
                Ok(Term::Group(shape, sources, kinds.copy(alloc)?))
            }
        }
    }
}

impl Step {
    /// A step with the same tree.
    pub fn copy(&self, alloc: Global) -> Result<Step, Memory>
        ensures { IfOk result (λ made. step_tree_of made ≡ step_tree_of self.now) }
    {
        let schema = self.schema.copy(alloc)?;
        let term = self.term.copy(alloc)?;
        Ok(Step {
            statement: self.statement,
            schema,
            term,
        })
    }
}

impl Duplicate for StoreStep {
    fn copy(&self, alloc: Global) -> Result<StoreStep, Memory> {
        let key = self.key.copy(alloc)?;
        Ok(StoreStep {
            statement: self.statement,
            key,
            source: self.source,
        })
    }
}
