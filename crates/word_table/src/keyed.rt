//! Strings that are to be sorted, each beside its keys.
ghost use Rattle.std.specs.Prelude.{◌≡◌};
ghost use Rattle.std.specs.Ordering.{eq_by_cmp, as_partial_cmp};
ghost use Rattle.std.specs.Cmp.{eq_by_cmp_equiv, partial_equiv_from_equiv, partial_order_from_total};
ghost use Rattle.std.specs.Cmp.Lexicographic.{nat_list_cmp_total};
ghost use Rattle.word_table.specs.inner.TextKeys.{AreKeysOf};

use crate::text_keys::TextKeys;
use std::cmp::Ordering;
use std::marker::Model;

/// A string of the rows beside its keys, which contracts see as the string's bytes. It is ordered
/// by its bytes.
#[derive(Drop)]
pub(crate) struct Keyed<'a> {
    keys: TextKeys,
    text: &'a str,
}

impl<'a> Model for Keyed<'a> {
    ghost use Rattle.std.specs.Prelude.{List, ℕ};
    ghost use Rattle.word_table.specs.inner.TextKeys.{AreKeysOf};

    ghost Value = { List ℕ };

    ghost view = { λ k. k.text.now };

    ghost invariant = { λ k. AreKeysOf k.text.now k.keys };
}

impl<'a> Keyed<'a> {
    /// The string beside its keys.
    pub(crate) fn of(text: &'a str) -> Keyed<'a>
        ensures { result ≡ text.now }
    {
        Keyed {
            keys: TextKeys::of(text),
            text,
        }
    }

    /// The same string beside its keys once more.
    pub(crate) fn again(&self) -> Keyed<'a>
        ensures { result ≡ self.now }
    {
        Keyed {
            keys: self.keys,
            text: self.text,
        }
    }

    /// The string's keys.
    pub(crate) fn keys(&self) -> TextKeys
        ensures { AreKeysOf self.now result }
    {
        self.keys
    }

    /// The string.
    pub(crate) fn as_str(&self) -> &'a str
        ensures { result.now ≡ self.now }
    {
        self.text
    }
}

impl<'a> PartialEq for Keyed<'a> {
    ghost use Rattle.word_table.specs.Words.{text_order};

    ghost eq = { eq_by_cmp text_order };

    ghost laws = { partial_equiv_from_equiv (eq_by_cmp_equiv nat_list_cmp_total) };

    fn eq(&self, other: &Keyed<'a>) -> bool {
        self.cmp(other).is_eq()
    }
}

impl<'a> Eq for Keyed<'a> {
    ghost laws = { eq_by_cmp_equiv nat_list_cmp_total };
}

impl<'a> PartialOrd for Keyed<'a> {
    ghost use Rattle.word_table.specs.Words.{text_order};

    ghost partial_cmp = { as_partial_cmp text_order };

    ghost laws = { partial_order_from_total nat_list_cmp_total };

    fn partial_cmp(&self, other: &Keyed<'a>) -> Option<Ordering> {
        Some(self.cmp(other))
    }
}

impl<'a> Ord for Keyed<'a> {
    ghost use Rattle.std.specs.Prelude.{refl};
    ghost use Rattle.word_table.specs.Words.{text_order};

    ghost cmp = { text_order };

    ghost total = { nat_list_cmp_total };

    ghost matches_partial_cmp = { λ s t. refl };

    ghost matches_eq = { λ s t. refl };

    fn cmp(&self, other: &Keyed<'a>) -> Ordering {
        match self.keys.compare(other.keys) {
            Some(order) => order,
            None => self.text.cmp(other.text),
        }
    }
}
