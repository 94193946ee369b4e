//! Scripts cut into stages, which a run does one after another, and plans of their joins.
//!
//! A stage is what is done of a step up to its next exchange, or up to its result. A plan has a
//! choice for each join: how its rows meet. Stands on `plan_rewrite`, whose scripts it cuts, on
//! `algebra` for their steps, on `share_chooser` for shares, on `placement` for shuffles and notes,
//! and on `rel_base` for lists.
//!
//! Promises: `fragment` gives the stages of the definitions, for every rewritten script, which end
//! with the exchanges of its run, one after another, and
//! `fits` tells the misfit of the definitions, for every plan. `plan_of` gives the choices that
//! notes print; the plan of a run's notes fits the steps that the run was done by. `Plan::how` tells
//! how the rows of a statement's join meet. Not promised:
//! that memory is there.
//!
//! Read `specs/Stages.antt`, `specs/Plans.antt`, `specs/NotedPlans.antt` and `specs/Laws.antt`, then
//! `stages.rt`, `plans.rt`, `fitting.rt` and `noting.rt`.
#![tactic(auto)]

mod fitting;
mod laws;
mod noting;
mod plans;
mod stages;

pub use fitting::fits;
pub use laws::{noted_plan_fits, stages_are_exchanges};
pub use noting::plan_of;
pub use plans::{Choice, Choices, How, Misfit, Plan};
pub use stages::{Stage, Stages, fragment};
