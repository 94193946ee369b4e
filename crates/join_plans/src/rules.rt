//! By which rule the rows of a join come together.
ghost use Rattle.std.specs.Prelude.{◌≡◌};
ghost use Rattle.placement.specs.Plans.{usual_rule};
ghost use Rattle.fragmenter.specs.Plans.{plan_tree_of, planned_rules};
ghost use Rattle.join_plans.specs.JoinPlans.{ruled_by};

use algebra::ShuffleKind;
use fragmenter::{How, Plan};

/// By which rule the rows of a join come together.
#[derive(Clone, Copy, Debug, PartialEq, Eq)]
pub enum ShuffleBy {
    /// At cells, with the shares of least load for the rows that are joined.
    LeastLoad,
    /// In this one way. Where its shares aren't those of the join's variables and the workers, one
    /// item stays where it is, and the others go to all workers.
    Fixed(How),
}

impl ShuffleBy {
    /// The rule of settings, for every statement.
    pub fn settings(kind: ShuffleKind) -> ShuffleBy
        ensures { ruled_by result ≡ usual_rule kind }
    {
        match kind {
            ShuffleKind::Hc => ShuffleBy::LeastLoad,
            ShuffleKind::Rs => ShuffleBy::Fixed(How::Rs),
            ShuffleKind::Br => ShuffleBy::Fixed(How::Br),
        }
    }

    /// The rule of a plan for a statement.
    pub fn plan(plan: &Plan, statement: u32) -> ShuffleBy
        ensures { ruled_by result ≡ planned_rules (plan_tree_of plan.now) statement }
    {
        ShuffleBy::Fixed(plan.how(statement))
    }
}
