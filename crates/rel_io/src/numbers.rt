//! The numbers of the calls that are to fail.
ghost use Rattle.std.specs.Prelude.{◌≡◌};
ghost use Rattle.rel_io.specs.InMemory.{is_failing as is_among};

use rel_base::Places;

/// Whether the call of this number is to fail.
pub fn is_failing(failing: &Places, number: u64) -> bool
    ensures { result ≡ is_among failing.now number }
{
    failing.as_slice().iter().any(|n| u64::from(*n) == number)
}
