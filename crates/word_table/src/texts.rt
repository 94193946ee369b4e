//! The strings of a dictionary: one behind another in one piece of memory, and their keys.
ghost use Rattle.std.specs.Prelude.{◌≡◌, ◌<◌, [], Contains, IfOk, length, slice_index_or};
ghost use Rattle.std.specs.Option.{SomeIff};
ghost use Rattle.word_table.specs.Words.{text_order, IsAscending, rank};

use crate::keyed::Keyed;
use crate::text_keys::TextKeys;
use rel_base::Memory;
use std::alloc::Global;
use std::cmp::Ordering;
use std::marker::Model;

/// Strings one behind another in one piece of memory, which contracts see as their list.
///
/// What a search reads, the keys, lies apart from what is read where a string is lent.
pub(crate) struct Texts {
    letters: String,
    /// Where each string begins, and at last where the last one ends.
    starts: Vec<usize>,
    keys: Vec<TextKeys>,
}

// Written out, since a derived drop is proved anew at each place where a value is let go.
impl Drop for Texts {
    fn drop(self) {
        let Texts {
            letters: _,
            starts: _,
            keys: _,
        } = self;
    }
}

impl Model for Texts {
    ghost use Rattle.std.specs.Prelude.{List, ℕ, length, string_bytes};
    ghost use Rattle.word_table.specs.inner.Texts.{texts_in, AreTexts};

    ghost Value = { List (List ℕ) };

    ghost view = { λ t. texts_in (string_bytes t.letters) t.starts.items (length t.keys.items) };

    ghost invariant = { λ t. AreTexts (string_bytes t.letters) t.starts.items t.keys.items };
}

impl Texts {
    /// Copies of the strings, in their order.
    pub(crate) fn of(alloc: Global, strings: &[Keyed<'_>]) -> Result<Texts, Memory>
        ensures { IfOk result (λ made. made ≡ strings.now) }
    {
        let mut letters = String::with_capacity(alloc, total_len(strings))?;
        let mut starts = Vec::with_capacity(alloc, strings.len() + 1)?;
        let mut keys = Vec::with_capacity(alloc, strings.len())?;
        starts.push(0)?;
        for string in strings {
            letters.push_str(string.as_str())?;
            starts.push(letters.len())?;
            keys.push(string.keys())?;
        }
        Ok(Texts {
            letters,
            starts,
            keys,
        })
    }

    /// The string of this place, from 0.
    pub(crate) fn at(&self, place: usize) -> &str
        requires { place < length self.now }
        ensures { result.now ≡ slice_index_or self.now place [] }
    {
        let (start, end) = (self.starts[place], self.starts[place + 1]);
        &self.letters.as_str()[start..end]
    }

    /// How many of the strings, which ascend, are below this one, where it is one of them.
    pub(crate) fn rank(&self, text: &str) -> Option<u64>
        requires { IsAscending self.now }
        ensures { SomeIff result (Contains self.now text.now) (rank self.now text.now) }
    {
        let sought = Keyed::of(text);
        let (mut low, mut high) = (0, self.keys.len());
        while low < high {
            let middle = low + (high - low) / 2;
            match self.compare(middle, &sought) {
                Ordering::Less => low = middle + 1,
                Ordering::Equal => return Some(middle as u64),
                Ordering::Greater => high = middle,
            }
        }
        None
    }

    /// How the string of this place compares to the other, by bytes.
    fn compare(&self, place: usize, other: &Keyed<'_>) -> Ordering
        requires { place < length self.now }
        ensures { result ≡ text_order (slice_index_or self.now place []) other.now }
    {
        match self.keys[place].compare(other.keys()) {
            Some(order) => order,
            None => self.at(place).cmp(other.as_str()),
        }
    }
}

/// How many bytes the strings have together, where that is a number of 64 bits. It is only the room
/// that is asked for.
fn total_len(strings: &[Keyed<'_>]) -> usize {
    let mut total = 0usize;
    for string in strings {
        total = total.saturating_add(string.as_str().len());
    }
    total
}
