//! The law of plans.
ghost use Rattle.join_plans.specs.JoinPlans.{ChosenAreRuled};

/// What is chosen by the numbers of joined rows is the shuffle of the rule.
pub fn chosen_are_ruled()
    ensures { ChosenAreRuled }
{}
