//! What the text of an option says.
ghost use Rattle.std.specs.Prelude.{◌≡◌};
ghost use Rattle.std.specs.Char.{is_ascii_digit};
ghost use Rattle.std.specs.List.{list_all};
ghost use Rattle.command_words.specs.Texts as spec;

use crate::Mode;
use algebra::{JoinKind, ShuffleKind};

/// Whether the text has a digit, and nothing but digits.
fn is_numeral(text: &str) -> bool
    ensures { result ≡ spec.is_numeral text.now }
{
    !text.is_empty() && are_digits(text.as_bytes())
}

/// Whether each byte is a digit.
fn are_digits(bytes: &[u8]) -> bool
    ensures { result ≡ list_all is_ascii_digit bytes.now }
{
    bytes.iter().all(|byte| byte.is_ascii_digit())
}

/// The number that the text writes, where it lies within these limits.
pub fn number_within(least: u64, most: u64, text: &str) -> Option<u64>
    ensures { result ≡ spec.number_within least most text.now }
{
    if !is_numeral(text) {
        return None;
    }
    let Ok(number) = text.parse::<u64>() else {
        return None;
    };
    if number < least || most < number {
        return None;
    }
    Some(number)
}

/// The mode of this name.
pub fn mode_of(text: &str) -> Option<Mode>
    ensures { result ≡ spec.mode_of text.now }
{
    match text {
        "run" => Some(Mode::Run),
        "check" => Some(Mode::Check),
        "explain" => Some(Mode::Explain),
        "trial" => Some(Mode::Trial),
        "export" => Some(Mode::Export),
        "replay" => Some(Mode::Replay),
        _ => None,
    }
}

/// The shuffle of this name.
pub fn shuffle_of(text: &str) -> Option<ShuffleKind>
    ensures { result ≡ spec.shuffle_of text.now }
{
    match text {
        "hc" => Some(ShuffleKind::Hc),
        "rs" => Some(ShuffleKind::Rs),
        "br" => Some(ShuffleKind::Br),
        _ => None,
    }
}

/// The local join of this name.
pub fn join_of(text: &str) -> Option<JoinKind>
    ensures { result ≡ spec.join_of text.now }
{
    match text {
        "tj" => Some(JoinKind::Tj),
        "hj" => Some(JoinKind::Hj),
        _ => None,
    }
}
