//! The laws that tie steps to scripts.
ghost use Rattle.myrial_types.specs.Laws.{LimitIsOfNumbers, StepsAreOfTheFiles, StepsHaveTheFault};
ghost use Rattle.myrial_types.specs.Laws.{StepsMeanTheScript, TypedScriptsHaveMeaning};
ghost use Rattle.myrial_types.specs.Laws.{TypedStatementsResolve};

/// Law: a statement without a kind of fault resolves, so the steps of a typed script are those of
/// all its statements.
pub fn typed_statements_resolve()
    ensures { TypedStatementsResolve }
{}

/// Law: a typed script has a meaning over its files, so it may be evaluated.
pub fn typed_scripts_have_meaning()
    ensures { TypedScriptsHaveMeaning }
{}

/// Law: the steps of a typed script over its files store what the script stores.
pub fn steps_mean_the_script()
    ensures { StepsMeanTheScript }
{}

/// Law: the fault of a run of the steps is that of the script.
pub fn steps_have_the_fault()
    ensures { StepsHaveTheFault }
{}

/// Law: the steps of a typed script are well formed over its files.
pub fn steps_are_of_the_files()
    ensures { StepsAreOfTheFiles }
{}

/// Law: behind the other kinds, a limit is passed exactly where a number is too large, or nothing
/// is there.
pub fn limit_is_of_numbers()
    ensures { LimitIsOfNumbers }
{}
