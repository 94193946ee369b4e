//! The script of a trial, and the size of the largest one.
ghost use Rattle.std.specs.Prelude.{◌≡◌};
ghost use Rattle.trial_gen.specs.TrialScript.{trial_script};
ghost use Rattle.trial_gen.specs.Trials.{most_trial_rows};

/// Lists the triangles of the three relations of a trial.
pub const TRIAL_SCRIPT: &str = "R = scan(E1); S = scan(E2); T = scan(E3);
Tri = [from R, S, T where R.b = S.a and S.b = T.a and T.b = R.a
       emit R.a as x, S.a as y, T.a as z];
store(Tri, Tri);
";

/// The most rows of each relation of a trial.
pub const MOST_TRIAL_ROWS: u32 = 100_000;

/// Law: the script and the limit are those of the definitions.
pub fn trial_is_as_defined()
    ensures script { TRIAL_SCRIPT.now ≡ trial_script }
    ensures rows { MOST_TRIAL_ROWS ≡ most_trial_rows }
{}
