//! The laws of rewritten scripts, step by step.
ghost use Rattle.run_laws.specs.Rewritten.{StepsByPlace, NumbersRise, RewrittenAreKept};

/// At each place the needed step and the rewritten one are the same but for pushed tests, over
/// steps at places before.
pub fn steps_by_place()
    ensures { StepsByPlace }
{}

/// The numbers of needed steps rise.
pub fn numbers_rise()
    ensures { NumbersRise }
{}

/// A rewritten script has the numbers of the needed steps, and the stores.
pub fn rewritten_are_kept()
    ensures { RewrittenAreKept }
{}
