//! The laws of what is held while a script runs.
ghost use Rattle.run_laws.specs.Held.{StepsAreReady, ResultsAreHeld, HeldAreReady, OneMoreIsHeld};
ghost use Rattle.run_laws.specs.Held.{StoresAreHeld};

/// A needed step is ready to run once the results of those before it are held.
pub fn steps_are_ready()
    ensures { StepsAreReady }
{}

/// What a needed step comes to over what is held is the bags that it means, and so are its lines of
/// the plan.
pub fn results_are_held()
    ensures { ResultsAreHeld }
{}

/// Where the steps before a needed one are held by number, its sources are there, and it is ready.
pub fn held_are_ready()
    ensures { HeldAreReady }
{}

/// With its result at the end one step more is held.
pub fn one_more_is_held()
    ensures { OneMoreIsHeld }
{}

/// Where all needed steps are held, so is what is stored.
pub fn stores_are_held()
    ensures { StoresAreHeld }
{}
