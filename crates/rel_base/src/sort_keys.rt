//! Keys of strings, by which most comparisons are decided without a look at the string.
ghost use Rattle.std.specs.Prelude.{◌≡◌, ◌^◌, ◌<◌, ◌≤◌};
ghost use Rattle.rel_base.specs.SortKeys.{IsKeyOf, IsDigitAt};

/// The key of a text of these bytes.
///
/// A string with the lesser key is the lesser one. Strings of one key are equal, or both go on
/// after seven bytes, and then the key is odd.
pub fn sort_key(bytes: &[u8]) -> u64
    ensures key { IsKeyOf bytes.now result }
    ensures bound { result < 2 ^ 63 }
{
    let mut key = 0u64;
    for place in 0..7 {
        key = key * 257 + digit(bytes, place);
    }
    if bytes.len() > 7 {
        key * 2 + 1
    } else {
        key * 2
    }
}

/// What byte number `place` adds to a key: 0 where the text has ended.
fn digit(bytes: &[u8], place: usize) -> u64
    ensures at { IsDigitAt bytes.now place result }
    ensures most { result ≤ 256 }
{
    match bytes.get(place) {
        Some(byte) => u64::from(*byte) + 1,
        None => 0,
    }
}
