//! Plans as JSON: read, and written.
//!
//! Stands on `fragmenter` for plans, on `serde_json` for values, on `share_chooser` and `placement`
//! for what a choice says, and on `rel_base` for lists and limits.
//!
//! Promises: `read_plan` gives exactly the plan that a text is, and refuses exactly the texts that
//! are none. What `write_plan` appends is the text of the plan, and it is read as that plan where
//! its numbers are within the limits. Not promised: that memory is there; after want of it the
//! bytes are as they were.
//!
//! Read `specs/PlanTexts.antt` and `specs/Laws.antt`, then `reading.rt`, `steps.rt` and
//! `writing.rt`.
#![tactic(auto)]

mod laws;
mod reading;
mod steps;
mod values;
mod writing;

pub use laws::written_is_read;
pub use reading::{MOST_PLAN_BYTES, PlanFault, read_plan};
pub use writing::write_plan;
