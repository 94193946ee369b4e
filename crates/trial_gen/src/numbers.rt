//! Numbers that look random and are the same at every run.
//!
//! Source: the linear congruential generator of Knuth's MMIX (The Art of Computer Programming,
//! volume 2, section 3.3.4), whose states are numbers of 64 bits. Only their high bits are used,
//! since the low ones have short periods.
ghost use Rattle.std.specs.Prelude.{◌≡◌, ◌<◌, pos};
ghost use Rattle.trial_gen.specs.Trials as spec;

/// What a state is multiplied by.
const FACTOR: u64 = 6_364_136_223_846_793_005;

/// What is added then.
const INCREMENT: u64 = 1_442_695_040_888_963_407;

/// The state behind a state.
pub(crate) fn next_state(state: u64) -> u64
    ensures { result ≡ spec.next_state state }
{
    state.wrapping_mul(FACTOR).wrapping_add(INCREMENT)
}

/// The number below a bound that is made of a state.
pub(crate) fn number_of(bound: u32, state: u64) -> i64
    requires { 0 < bound }
    ensures { result ≡ pos (spec.number_of bound state) }
{
    ((state >> 33) % u64::from(bound)) as i64
}
