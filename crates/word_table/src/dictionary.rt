//! Dictionaries: the strings of rows, in byte order, and the words of values.
ghost use Rattle.std.specs.Prelude.{◌≡◌, ◌↔◌, All, FitsSigned, IsSome, IfSome, IfOk};
ghost use Rattle.std.specs.Int.{w64};
ghost use Rattle.rel_base.specs.Relations.{type_of};
ghost use Rattle.rel_base.specs.declared.values.Value.{Value as Datum};
ghost use Rattle.rel_base.specs.declared.values.Value.TheVariants as variant;
ghost use Rattle.rel_base.specs.declared.values.ColType.TheVariants as kind;
ghost use Rattle.word_table.specs.Words.{IsAscending, IsDictionaryOf, int_word, word_of, HasWord, IsHeld, IsWordOf, WordsKeepOrder};

use crate::gathering::strings_of_parts;
use crate::keyed::Keyed;
use crate::texts::Texts;
use rel_base::{ColType, Memory, Parts, Text, Value};
use std::alloc::Global;
use std::marker::Model;

/// The strings of rows, each once and in ascending byte order, which contracts see as the list of
/// the strings.
///
/// A value has a word under a dictionary: an int is its number plus 2^63, a boolean 0 or 1, and a
/// string its rank among the strings. Words of one type compare as their values do; words of two
/// types may coincide.
pub struct Dictionary {
    texts: Texts,
}

// Written out, since a derived drop is proved anew at each place where a value is let go.
impl Drop for Dictionary {
    fn drop(self) {
        let Dictionary { texts: _ } = self;
    }
}

impl Model for Dictionary {
    ghost use Rattle.std.specs.Prelude.{List, ℕ};
    ghost use Rattle.word_table.specs.Words.{IsAscending};

    ghost Value = { List (List ℕ) };

    ghost view = { λ d. d.texts };

    ghost invariant = { λ d. IsAscending d.texts };
}

impl Dictionary {
    /// The dictionary of all strings of the parts. Ints and booleans take no room in it.
    pub fn build(alloc: Global, parts: &Parts) -> Result<Dictionary, Memory>
        ensures strings { IfOk result (IsDictionaryOf parts.now) }
        ensures held { IfOk result (λ made. All (All (All (IsHeld made))) parts.now) }
    {
        let mut strings = strings_of_parts(alloc, parts)?;
        strings.sort_unstable();
        strings.dedup();
        Dictionary::of_strings(alloc, strings.as_slice())
    }

    /// The dictionary of these strings, which are copied.
    pub(crate) fn of_strings(alloc: Global, strings: &[Keyed<'_>]) -> Result<Dictionary, Memory>
        requires { IsAscending strings.now }
        ensures { IfOk result (λ made. made ≡ strings.now) }
    {
        let texts = Texts::of(alloc, strings)?;
        Ok(Dictionary { texts })
    }

    /// The word of a value; `None` where it is a string that is not in the dictionary.
    pub fn word(&self, value: &Value) -> Option<u64>
        ensures some { IsSome result ↔ IsHeld self.now value.now }
        ensures word { IfSome result (IsWordOf self.now value.now (type_of value.now)) }
        ensures ascending { IsAscending self.now }
    {
        let texts = &self.texts;
        match value {
            Value::Int(number) => Some(word_of_int(*number)),
            Value::Str(text) => texts.rank(text.as_str()),
            Value::Bool(truth) => Some(u64::from(*truth)),
        }
    }

    /// The value of this type with this word.
    pub fn value(&self, alloc: Global, kind: ColType, word: u64) -> Result<Value, Memory>
        requires { (v : Datum) × IsWordOf self.now v kind word }
        ensures value { IfOk result (λ made. IsWordOf self.now made kind word) }
        ensures undoes { IfOk result (λ made. (v : Datum) → IsWordOf self.now v kind word → made ≡ v) }
    {
        match kind {
            ColType::Int => Ok(Value::Int(number_of_word(word))),
            ColType::Str => Ok(Value::Str(Text::of(alloc, self.lend(word))?)),
            ColType::Bool => Ok(Value::Bool(word == 1)),
        }
    }

    /// The string with this word, which is not copied.
    pub fn lend(&self, word: u64) -> &str
        requires { (v : Datum) × IsWordOf self.now v kind.Str word }
        ensures value { IsWordOf self.now (variant.Str result.now) kind.Str word }
        ensures undoes { (v : Datum) → IsWordOf self.now v kind.Str word
            → variant.Str result.now ≡ v }
    {
        self.texts.at(word as usize)
    }
}

/// Law: under any ascending strings, words of one type compare as their values do.
pub fn words_keep_order()
    ensures { WordsKeepOrder }
{}

/// The word of a number.
pub(crate) fn word_of_int(number: i64) -> u64
    ensures { result ≡ int_word number }
{
    number.abs_diff(i64::MIN)
}

/// The number with this word: under any dictionary the number of the int whose word it is.
pub fn number_of_word(word: u64) -> i64
    ensures fits { FitsSigned w64 result }
    ensures word { int_word result ≡ word }
{
    const ZERO: u64 = 1 << 63;
    if word >= ZERO {
        (word - ZERO) as i64
    } else {
        i64::MIN + word as i64
    }
}
