//! The laws of scripts step by step.
ghost use Rattle.run_laws.specs.Values.{StepsAreMeant, FaultsAreOfSteps, NeededAreOverNeeded};
ghost use Rattle.run_laws.specs.Values.{StoresAreOverNeeded, MeantArePlaced};

/// The result of a step is its term over what its sources stand for.
pub fn steps_are_meant()
    ensures { StepsAreMeant }
{}

/// The fault of a script is the first one of its needed steps.
pub fn faults_are_of_steps()
    ensures { FaultsAreOfSteps }
{}

/// The sources of a needed step are files and needed steps before it.
pub fn needed_are_over_needed()
    ensures { NeededAreOverNeeded }
{}

/// What is stored is a file or the result of a needed step.
pub fn stores_are_over_needed()
    ensures { StoresAreOverNeeded }
{}

/// Whatever is known stands for rows of its columns' types, with a list for each worker.
pub fn meant_are_placed()
    ensures { MeantArePlaced }
{}
