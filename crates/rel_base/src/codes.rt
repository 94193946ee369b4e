//! Codes of values, by which rows are spread over workers.
ghost use Rattle.std.specs.Prelude.{◌≡◌, ◌-◌, ◌^◌, ◌<◌};
ghost use Rattle.rel_base.specs.Codes.{modulus, code_of_int, mixed_with, code_of_bytes};

use crate::Value;

impl Value {
    ghost use Rattle.rel_base.specs.Codes.{modulus, code_of};

    /// The number of codes, which is the prime 2^61 - 1.
    pub const CODES: u64 = 2_305_843_009_213_693_951;

    /// The code of this value. Equal values have one code, and values that differ may share one.
    pub fn code(&self) -> u64
        ensures value { result ≡ code_of self.now }
        ensures range { result < modulus }
    {
        match self {
            Value::Int(number) => code_of_int(*number),
            Value::Str(text) => code_of_bytes(text.as_str().as_bytes()),
            Value::Bool(false) => 0,
            Value::Bool(true) => 1,
        }
    }
}

/// The code of a number.
fn code_of_int(number: i64) -> u64
    ensures value { result ≡ code_of_int number }
    ensures range { result < modulus }
{
    number.rem_euclid(Value::CODES as i64) as u64
}

/// The code of a text of these bytes.
fn code_of_bytes(bytes: &[u8]) -> u64
    ensures value { result ≡ code_of_bytes bytes.now }
    ensures range { result < modulus }
{
    let mixed = bytes
        .iter()
        .fold(0, |mixed, byte| mixed_with(mixed, u64::from(*byte)));
    mixed % Value::CODES
}

/// What is mixed so far, with one part more, as the codes of texts and of keys are made.
pub fn mixed_with(mixed: u64, part: u64) -> u64
    requires { part < 2 ^ 64 - 1 }
    ensures { result ≡ mixed_with mixed part }
{
    mixed.wrapping_mul(257).wrapping_add(part + 1)
}
