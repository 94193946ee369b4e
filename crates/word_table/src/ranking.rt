//! The ranks of strings that are sorted together with their numbers.
ghost use Rattle.std.specs.Prelude.{◌<◌, ◌↔◌, All, AllPairs, IfOk, IsTrue, length, slice_index};
ghost use Rattle.word_table.specs.declared.numbering.Occurrence.{Occurrence as Found};
ghost use Rattle.word_table.specs.inner.Gathered.{Rise, IsLast, IsRanked, HasRanks};

use crate::keyed::Keyed;
use crate::numbering::Occurrence;
use rel_base::Memory;
use std::alloc::Global;

/// The strings of occurrences that ascend, each once, and in the place of each occurrence the rank
/// of its string.
pub(crate) fn ranked<'a>(
    alloc: Global,
    found: &[Occurrence<'a>],
    words: &mut Vec<u64>,
) -> Result<Vec<Keyed<'a>>, Memory>
    requires rise { Rise found.now }
    requires places { All (λ (o : Found). o.place < length words.old.items) found.now }
    ensures { IfOk result (λ made.
        IsRanked found.now (length found.now) made.items words.old.items words.new.items) }
{
    let mut strings = Vec::new(alloc);
    for occurrence in found {
        if !is_last(strings.as_slice(), &occurrence.string) {
            strings.push(occurrence.string.again())?;
        }
        words[occurrence.place as usize] = strings.len() as u64 - 1;
    }
    Ok(strings)
}

/// Whether the last of the strings is this one.
fn is_last<'a>(strings: &[Keyed<'a>], string: &Keyed<'a>) -> bool
    ensures { IsTrue result ↔ IsLast strings.now string.now }
{
    match strings.last() {
        Some(last) => last == string,
        None => false,
    }
}

/// Puts at each of the places the rank of the string whose number stands there.
pub(crate) fn put_ranks(words: &mut Vec<u64>, places: &[u64], ranks: &[u64])
    requires within { All (λ q. q < length words.old.items) places.now }
    requires ascending { AllPairs (λ p q. p < q) places.now }
    requires numbers { All (λ q. slice_index words.old.items q < length ranks.now) places.now }
    ensures { HasRanks places.now ranks.now words.old.items words.new.items }
{
    for place in places {
        let number = words[*place as usize];
        words[*place as usize] = ranks[number as usize];
    }
}
