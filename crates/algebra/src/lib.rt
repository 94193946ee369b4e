//! The algebra: what a script comes to once its names are resolved, and what running it is said in.
//!
//! A join has a shape: atoms with tests of their own, variables, tests over the combined row, and
//! what is emitted. A term is what a statement computes of its sources, a step is a numbered term,
//! and a checked script is its steps and its stores. Beside them stand the settings of a run, the
//! notes of plans and of traffic, and what a local join is asked and answers.
//!
//! Stands on `rel_base` for values and relations and `myrial_ast` for scalars, candidates, groups
//! and their faults. Nothing here reads, waits or runs a term.
//!
//! Promises: a `JoinShape` is well formed and `Settings` are within their limits, whoever holds
//! them; a copy equals its original. What shapes, terms, steps and checked scripts mean, and the
//! fault of a run, is defined in `specs/`, and every crate that joins, groups, plans or runs is
//! proved against it. Not promised: that memory is there.
//!
//! Read `specs/Trees.antt`, `specs/Shapes.antt` and `specs/Meanings.antt`, then `shapes.rt` and
//! `terms.rt`.
#![tactic(auto)]

mod conditions;
mod joins;
mod kinds;
mod laws;
mod notes;
mod settings;
mod shapes;
mod terms;

pub use conditions::joins_items;
pub use joins::{JoinFault, Listed, LocalJoin};
pub use kinds::{is_kind, is_plain, kind_in, kind_of_op, where_both};
pub use laws::{
    needed_by_rule, needed_is_needed, shape_faults_the_same, shape_keeps_the_same,
    shape_lists_the_same,
};
pub use myrial_ast::{Scalar, Scalars};
pub use notes::{
    Counts, Exchange, ItemPlaces, PlanKind, PlanNote, PlanNotes, Traffic, TrafficNotes,
};
pub use settings::{JoinKind, Settings, ShuffleKind};
pub use shapes::{Atom, Atoms, ColTypes, EmitKind, EmitKinds, JoinShape, Variables, copy_of_kinds};
pub use terms::{Checked, Source, Sources, Step, StepList, StoreStep, Stores, Term};
