//! Numbers of strings, so that few strings that stand often are sorted once each.
ghost use Rattle.std.specs.Prelude.{◌≡◌, [], IfOk, IfSome};
ghost use Rattle.word_table.specs.inner.Gathered.{IsNumber, AddsString};

use crate::keyed::Keyed;
use rel_base::Memory;
use std::alloc::Global;
use std::collections::HashMap;

/// How many strings are looked up: where there are more, most stand seldom, and a sort is quicker.
const MOST_KNOWN: usize = 65_536;

/// A string of the parts and its number. Occurrences compare by their strings, then by numbers.
#[derive(Drop, PartialEq, Eq, PartialOrd, Ord)]
pub(crate) struct Occurrence<'a> {
    pub(crate) string: Keyed<'a>,
    pub(crate) place: u64,
}

/// Occurrences of strings, numbered from 0. A string may have several numbers.
#[derive(Drop)]
pub(crate) struct Numbering<'a> {
    /// The occurrences, in the order of their numbers.
    pub(crate) found: Vec<Occurrence<'a>>,
    /// A number of each of the first strings. Were it wrong, a string would get one more.
    known: HashMap<&'a str, u64>,
}

impl<'a> Numbering<'a> {
    /// No occurrences.
    pub(crate) fn new(alloc: Global) -> Numbering<'a>
        ensures { result.found.items ≡ [] }
    {
        Numbering {
            found: Vec::new(alloc),
            known: HashMap::new(alloc),
        }
    }

    /// The number of an occurrence of this string: of one that is there, or of a new one.
    pub(crate) fn number_of(&mut self, text: &'a str) -> Result<u64, Memory>
        ensures { IfOk result (AddsString self.old.found.items self.new.found.items text.now) }
    {
        if let Some(number) = self.known_number(text) {
            return Ok(number);
        }
        let number = self.found.len() as u64;
        let string = Keyed::of(text);
        self.found.push(Occurrence {
            string,
            place: number,
        })?;
        if self.known.len() < MOST_KNOWN {
            self.known.insert(text, number)?;
        }
        Ok(number)
    }

    /// The number of an occurrence that was found by its string.
    fn known_number(&self, text: &'a str) -> Option<u64>
        ensures { IfSome result (IsNumber self.now.found.items text.now) }
    {
        let number = *self.known.get(&text)?;
        let occurrence = self.found.get(number as usize)?;
        if occurrence.string.as_str() == text {
            Some(number)
        } else {
            None
        }
    }
}
