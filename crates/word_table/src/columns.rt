//! Columns of words, and between which words they are.
ghost use Rattle.std.specs.Prelude.{◌≡◌, ◌*◌, ◌^◌, ◌<◌, All, IfOk, length};
ghost use Rattle.word_table.specs.WordTables.{IsRange, column_of, cut_into};

use rel_base::Memory;
use std::alloc::Global;
use std::marker::Model;

/// The least and the greatest word of a column.
#[derive(Clone, Copy)]
pub struct WordRange {
    pub least: u64,
    pub greatest: u64,
}

/// The words of one column beside their range, which contracts see as the list of the words.
pub(crate) struct WordColumn {
    words: Vec<u64>,
    /// Of no words the range is of no meaning.
    range: WordRange,
}

// Written out, since a derived drop is proved anew at each place where a value is let go.
impl Drop for WordColumn {
    fn drop(self) {
        let WordColumn { words: _, range: _ } = self;
    }
}

impl Model for WordColumn {
    ghost use Rattle.std.specs.Prelude.{◌<◌, List, ℕ, length};
    ghost use Rattle.word_table.specs.WordTables.{IsRange};

    ghost Value = { List ℕ };

    ghost view = { λ c. c.words.items };

    ghost invariant = { λ c. 0 < length c.words.items → IsRange c.words.items c.range };
}

impl WordColumn {
    /// The column of these words. None is copied.
    pub(crate) fn of(words: Vec<u64>) -> WordColumn
        ensures words { result ≡ words.items }
        ensures fit { All (λ word. word < 2 ^ 64) result }
    {
        let range = range_of(words.as_slice());
        WordColumn { words, range }
    }

    /// The words, row by row.
    pub(crate) fn as_slice(&self) -> &[u64]
        ensures { result.now ≡ self.now }
    {
        self.words.as_slice()
    }

    /// The least and the greatest of the words. No word is read.
    pub(crate) fn range(&self) -> WordRange
        requires { 0 < length self.now }
        ensures { IsRange self.now result }
    {
        self.range
    }
}

/// The least and the greatest of the words.
fn range_of(words: &[u64]) -> WordRange
    ensures { 0 < length words.now → IsRange words.now result }
{
    let mut least = u64::MAX;
    let mut greatest = 0u64;
    for word in words {
        least = least.min(*word);
        greatest = greatest.max(*word);
    }
    WordRange { least, greatest }
}

/// The words of one column of rows that stand one after another.
pub(crate) fn column_words(
    alloc: Global,
    words: &[u64],
    columns: u32,
    count: u32,
    column: u32,
) -> Result<Vec<u64>, Memory>
    requires there { column < columns }
    requires full { length words.now ≡ count * columns }
    ensures { IfOk result
        (λ made. made.items ≡ column_of (cut_into count columns words.now) column) }
{
    let mut made = Vec::with_capacity(alloc, count as usize)?;
    for place in 0..count {
        made.push(words[place as usize * columns as usize + column as usize])?;
    }
    Ok(made)
}
