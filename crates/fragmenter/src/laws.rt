//! The laws of stages and plans.
ghost use Rattle.fragmenter.specs.Laws.{NotedPlanFits, StagesAreExchanges};

/// The stages of the steps that a run is done by end with the exchanges of the run, one after
/// another.
///
/// It does nothing: the law is its contract.
pub fn stages_are_exchanges()
    ensures { StagesAreExchanges }
{}

/// The plan that the notes of a run print fits the steps that the run was done by.
///
/// It does nothing: the law is its contract.
pub fn noted_plan_fits()
    ensures { NotedPlanFits }
{}
