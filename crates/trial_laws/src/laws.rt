//! The laws.
ghost use Rattle.std.specs.Prelude.{◌≡◌, ℕ, ◌≤◌, IsTrue, Ok, length};
ghost use Rattle.rel_base.specs.Limits.{most_script_bytes};
ghost use Rattle.algebra.specs.Conditions.{is_of};
ghost use Rattle.algebra.specs.Rewriting.{AreTyped};
ghost use Rattle.myrial_meaning.specs.Fetches.{fetches};
ghost use Rattle.myrial_types.specs.Checking.{checked_of};
ghost use Rattle.myrial_types.specs.Fetching.{are_fetched, have_forms};
ghost use Rattle.trial_gen.specs.TrialScript.{trial_script};
ghost use Rattle.trial_gen.specs.Trials.{trial_files};
ghost use Rattle.trial_laws.specs.TrialSteps.{trial_checked, trial_fetches};
ghost use Rattle.trial_laws.specs.TrialTrees.{ReadsAs, trial_trees};

/// Law: the bytes of the script of a trial are short enough for a script, and read as its trees.
pub fn trial_is_read()
    ensures short { length trial_script ≤ most_script_bytes }
    ensures read { ReadsAs trial_script trial_trees }
{}

/// Law: the script of a trial asks for its three relations, and over those of every size it is
/// typed, to the same steps.
pub fn trial_is_typed()
    ensures fetched { fetches trial_trees ≡ trial_fetches }
    ensures files { (n : ℕ) → IsTrue (are_fetched (trial_files n) trial_trees) }
    ensures formed { (n : ℕ) → IsTrue (have_forms (trial_files n) trial_trees) }
    ensures rows { (n : ℕ) → AreTyped (trial_files n) }
    ensures typed { (n : ℕ) → checked_of (trial_files n) trial_trees ≡ Ok trial_checked }
    ensures steps { (n : ℕ) → IsTrue (is_of (trial_files n) trial_checked) }
{}
