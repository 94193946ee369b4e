//! Laws of the headline.
ghost use Rattle.myria_top.specs.Exports.{ExportsAreRead};
ghost use Rattle.myria_top.specs.OneAnswer.{ComesToOne, PrintsWhatItComesTo};
ghost use Rattle.myria_top.specs.Reducing.{ReducingKeepsFaults, ReducingKeepsAnswers, ReducingAddsNoFault};
ghost use Rattle.myria_top.specs.TrialAnswers.{TrialsAreOfTheirRun};

use myrial_types::steps_are_of_the_files;
use trial_laws::{trial_is_read, trial_is_typed};

/// Law: a trial is never refused for its script or for a file. It does nothing.
pub fn trials_are_of_their_run()
    ensures { TrialsAreOfTheirRun }
{
    trial_is_read();
    trial_is_typed();
}

/// Law: what words and files come to is one verdict; so where it is a text, a run that is done
/// printed this text. It does nothing.
pub fn runs_have_one_answer()
    ensures one { ComesToOne }
    ensures printed { PrintsWhatItComesTo }
{}

/// Law: where no prefix counts, a script has the same fault whether its joins are reduced or not;
/// so a run that prints neither plan nor traffic has the same answer. And where prefixes count,
/// a script that has no fault with all rows has none with the reduced ones. It does nothing.
pub fn reducing_keeps_answers()
    ensures faults { ReducingKeepsFaults }
    ensures answers { ReducingKeepsAnswers }
    ensures adds { ReducingAddsNoFault }
{}

/// Law: what an export writes of a script of no more than 256 statements is read as the plan that
/// its run was done by, and fits the script. It does nothing.
pub fn exports_are_read()
    ensures { ExportsAreRead }
{
    steps_are_of_the_files();
}
