//! Keys of texts: by them most comparisons are decided without a look at the texts.
ghost use Rattle.std.specs.Prelude.{◌≡◌, ℕ, List, IfNone, IfSome, drop};
ghost use Rattle.rel_base.specs.SortKeys.{IsKeyOf};
ghost use Rattle.word_table.specs.Words.{text_order};
ghost use Rattle.word_table.specs.inner.TextKeys.{AreKeysOf};

use rel_base::sort_key;
use std::cmp::Ordering;

/// Two keys of a text: of its first seven bytes, and of the bytes from the eighth on.
#[derive(Clone, Copy)]
pub(crate) struct TextKeys {
    first: u64,
    second: u64,
}

impl TextKeys {
    /// The keys of the text.
    pub(crate) fn of(text: &str) -> TextKeys
        ensures { AreKeysOf text.now result }
    {
        let bytes = text.as_bytes();
        TextKeys {
            first: sort_key(bytes),
            second: sort_key(from_the_eighth(bytes)),
        }
    }

    /// How two texts of these keys compare; `None` where the keys don't tell.
    pub(crate) fn compare(self, other: TextKeys) -> Option<Ordering>
        ensures { IfSome result (λ order. (s t : List ℕ)
            → AreKeysOf s self → AreKeysOf t other → order ≡ text_order s t) }
    {
        match decided(self.first, other.first) {
            Some(order) => Some(order),
            None => decided(self.second, other.second),
        }
    }
}

/// The bytes from the eighth on.
fn from_the_eighth(bytes: &[u8]) -> &[u8]
    ensures { result.now ≡ drop 7 bytes.now }
{
    if bytes.len() > 7 { &bytes[7..] } else { &[] }
}

/// How two texts compare whose keys are these; `None` where both go on after seven equal bytes.
fn decided(key: u64, other: u64) -> Option<Ordering>
    ensures decides { IfSome result (λ order. (s t : List ℕ)
        → IsKeyOf s key → IsKeyOf t other → order ≡ text_order s t) }
    ensures tied { IfNone result (key ≡ other) }
{
    if key < other {
        Some(Ordering::Less)
    } else if other < key {
        Some(Ordering::Greater)
    } else if key % 2 == 0 {
        Some(Ordering::Equal)
    } else {
        None
    }
}
