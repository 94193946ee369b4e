//! The laws of scripts, by what their sources stand for.
ghost use Rattle.run_laws.specs.Scripts.{ScriptsAreOfSteps, FilesAreMeant, ResultsAreFound};
ghost use Rattle.run_laws.specs.Scripts.{FaultsAreFirst, NeededAreMeant, HeldAreMeant};
ghost use Rattle.run_laws.specs.Scripts.{ReadyAreOfBags, NotesAreOfBags};

/// Plan and exchanges are those of the needed steps, and a store is what its source stands for.
pub fn scripts_are_of_steps()
    ensures { ScriptsAreOfSteps }
{}

/// A file stands for its rows, dealt to the workers.
pub fn files_are_meant()
    ensures { FilesAreMeant }
{}

/// The result of a statement is that of the step that is found by its number.
pub fn results_are_found()
    ensures { ResultsAreFound }
{}

/// The fault of a script is that of a needed step before which nothing is wrong.
pub fn faults_are_first()
    ensures { FaultsAreFirst }
{}

/// The sources of a needed step are placed, typed and ready to be joined, and its result is its
/// term over them.
pub fn needed_are_meant()
    ensures { NeededAreMeant }
{}

/// Lists with the bags of what a source stands for have its rows, and these have their types.
pub fn held_are_meant()
    ensures { HeldAreMeant }
{}

/// The order of rows changes nothing of what a term asks of its sources.
pub fn ready_are_of_bags()
    ensures { ReadyAreOfBags }
{}

/// Nor does it change the lines of a plan.
pub fn notes_are_of_bags()
    ensures { NotesAreOfBags }
{}
