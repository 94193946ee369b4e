//! Phrases with commas between them, and a phrase in parentheses behind a word that isn't reserved.
ghost use Rattle.std.specs.Prelude.{map};
ghost use Rattle.myrial_parser.specs.inner.Descent as spec;
ghost use Rattle.myrial_parser.specs.inner.Descent.{Parser, Parses};

use crate::cursor::Cursor;
use crate::faults::Refusal;
use crate::terminals::Symbol;
use myrial_lexer::Sign;
use rel_base::Items;
use std::alloc::Global;

/// What stands between the commas of a list, or in parentheses.
pub trait Phrase: Drop {
    ghost Tree: { Type 0 };

    ghost tree_of: { Self → Tree };

    ghost parser: { Parser Tree };

    /// Passes such a phrase, which has to come next.
    fn read(cursor: &mut Cursor<'_>, alloc: Global) -> Result<Self, Refusal>
        ensures { Parses tree_of (parser cursor.old) result cursor.new };
}

impl Cursor<'_> {
    /// Phrases with commas between them.
    pub fn separated<P: Phrase>(&mut self, alloc: Global) -> Result<Items<P>, Refusal>
        ensures { Parses (map P.tree_of) (spec.separated P.parser self.old) result self.new }
    {
        let mut items = Items::new(alloc);
        for _turn in 0..self.left() {
            let item = P::read(self, alloc)?;
            items.push(item)?;
            if !self.eat(Symbol::Sign(Sign::Comma)) {
                return Ok(items);
            }
        }
        Err(Refusal::Syntax)
    }

    /// A phrase in parentheses behind this word, which isn't reserved.
    pub fn called<P: Phrase>(&mut self, alloc: Global, wanted: &[u8]) -> Result<P, Refusal>
        ensures { Parses P.tree_of (spec.called wanted.now P.parser self.old) result self.new }
    {
        self.word(wanted)?;
        self.expect(Symbol::Sign(Sign::OpenParen))?;
        let inside = P::read(self, alloc)?;
        self.expect(Symbol::Sign(Sign::CloseParen))?;
        Ok(inside)
    }
}
