//! A cursor over the terminals of a piece. It looks one terminal ahead, and two more where `T.*`
//! may be emitted.
ghost use Rattle.std.specs.Prelude.{◌≡◌, ◌-◌, ◌<◌, ◌^◌, All, IfSome, length, drop, option_map};
ghost use Rattle.myrial_parser.specs.inner.Descent as spec;
ghost use Rattle.myrial_parser.specs.inner.Descent.{Parses};
ghost use Rattle.myrial_lexer.specs.Slices.{IsCut};
ghost use Rattle.myrial_parser.specs.Terminals.{IsSmall, seen, terminals_of};

use crate::faults::Refusal;
use crate::terminals::{Symbol, Terminal, same_word, terminal_of};
use myrial_lexer::Token;
use rel_base::Text;
use std::alloc::Global;
use std::marker::Model;

/// The terminals ahead, which contracts see as their list.
#[derive(Drop)]
pub struct Cursor<'a> {
    tokens: &'a [Token],
    bytes: &'a [u8],
}

impl<'a> Model for Cursor<'a> {
    ghost use Rattle.std.specs.Prelude.{◌-◌, ◌<◌, ◌^◌, All, length};
    ghost use Rattle.myrial_parser.specs.inner.Descent.{Input};
    ghost use Rattle.myrial_lexer.specs.Slices.{IsCut};
    ghost use Rattle.myrial_parser.specs.Terminals.{terminals_of};

    ghost Value = { Input };

    ghost view = { λ c. terminals_of c.bytes.now c.tokens.now };

    ghost invariant = { λ c. All (IsCut c.bytes.now) c.tokens.now × (length c.tokens.now < 2 ^ 32 - 1) };
}

impl<'a> Cursor<'a> {
    /// A cursor before the first of the tokens.
    pub fn new(tokens: &'a [Token], bytes: &'a [u8]) -> Cursor<'a>
        requires cut { All (IsCut bytes.now) tokens.now }
        requires few { length tokens.now < 2 ^ 32 - 1 }
        ensures { result ≡ terminals_of bytes.now tokens.now }
    {
        Cursor { tokens, bytes }
    }

    /// How many terminals are ahead.
    pub fn left(&self) -> usize
        ensures value { result ≡ length self.now }
        ensures bound { length self.now < 2 ^ 32 - 1 }
    {
        self.tokens.len()
    }

    /// The next terminal.
    pub fn peek(&self) -> Option<Terminal<'a>>
        ensures value { option_map seen result ≡ spec.first self.now }
        ensures small { IfSome result (λ x. IsSmall (seen x)) }
    {
        match self.tokens {
            [] => None,
            [token, ..] => Some(terminal_of(self.bytes, *token)),
        }
    }

    /// Passes the next terminal, if there is one.
    pub fn skip(&mut self)
        ensures { self.new ≡ drop 1 self.old }
    {
        if let [_, rest @ ..] = self.tokens {
            self.tokens = rest;
        }
    }

    /// The symbol that comes next, if one does.
    pub fn symbol(&self) -> Option<Symbol>
        ensures { result ≡ spec.symbol_ahead self.now }
    {
        let Some(Terminal::Fixed(symbol)) = self.peek() else {
            return None;
        };
        Some(symbol)
    }

    /// Whether this symbol comes next.
    pub fn sees(&self, symbol: Symbol) -> bool
        ensures { result ≡ spec.sees symbol self.now }
    {
        let Some(Terminal::Fixed(found)) = self.peek() else {
            return false;
        };
        same_symbol(found, symbol)
    }

    /// Whether this symbol comes behind so many terminals.
    pub fn sees_behind(&self, count: usize, symbol: Symbol) -> bool
        ensures { result ≡ spec.sees symbol (drop count self.now) }
    {
        if count < self.tokens.len() {
            Cursor::new(&self.tokens[count..], self.bytes).sees(symbol)
        } else {
            false
        }
    }

    /// Passes this symbol, if it comes next.
    pub fn eat(&mut self, symbol: Symbol) -> bool
        ensures found { result ≡ spec.sees symbol self.old }
        ensures after { self.new ≡ spec.after symbol self.old }
    {
        let found = self.sees(symbol);
        if found {
            self.skip();
        }
        found
    }

    /// Passes this symbol, which has to come next.
    pub fn expect(&mut self, symbol: Symbol) -> Result<(), Refusal>
        ensures { Parses (λ x. x) (spec.expect symbol self.old) result self.new }
    {
        if self.sees(symbol) {
            self.skip();
            Ok(())
        } else {
            Err(Refusal::Syntax)
        }
    }

    /// Passes a name, which has to come next.
    pub fn name(&mut self, alloc: Global) -> Result<Text, Refusal>
        ensures { Parses (λ x. x) (spec.name self.old) result self.new }
    {
        let Some(Terminal::Name(name)) = self.peek() else {
            return Err(Refusal::Syntax);
        };
        self.skip();
        Ok(Text::of(alloc, name)?)
    }

    /// Passes a number, which has to come next.
    pub fn number(&mut self) -> Result<u64, Refusal>
        ensures { Parses (λ x. x) (spec.number self.old) result self.new }
    {
        let Some(Terminal::Number(number)) = self.peek() else {
            return Err(Refusal::Syntax);
        };
        self.skip();
        Ok(number)
    }

    /// Whether this word, which isn't reserved, comes next.
    pub fn sees_word(&self, wanted: &[u8]) -> bool
        ensures { result ≡ spec.is_word_of wanted.now (spec.first self.now) }
    {
        let Some(Terminal::Name(word)) = self.peek() else {
            return false;
        };
        same_word(word.as_bytes(), wanted)
    }

    /// Passes this word, which isn't reserved and has to come next.
    pub fn word(&mut self, wanted: &[u8]) -> Result<(), Refusal>
        ensures { Parses (λ x. x) (spec.word wanted.now self.old) result self.new }
    {
        if self.sees_word(wanted) {
            self.skip();
            Ok(())
        } else {
            Err(Refusal::Syntax)
        }
    }

    /// Passes a string, which has to come next.
    pub fn quoted(&mut self, alloc: Global) -> Result<Text, Refusal>
        ensures { Parses (λ x. x) (spec.quoted self.old) result self.new }
    {
        let Some(Terminal::Quoted(text)) = self.peek() else {
            return Err(Refusal::Syntax);
        };
        self.skip();
        Ok(Text::of(alloc, text)?)
    }

    /// Passes the end, which has to be reached.
    pub fn end(&self) -> Result<(), Refusal>
        ensures { Parses (λ x. x) (spec.end self.now) result self.now }
    {
        if self.tokens.is_empty() {
            Ok(())
        } else {
            Err(Refusal::Syntax)
        }
    }
}

/// Whether two symbols are one.
#[tactic(auto, unfolding(crate::specs::inner::Descent::same_symbol))]
fn same_symbol(found: Symbol, symbol: Symbol) -> bool
    ensures { result ≡ spec.same_symbol found symbol }
{
    match (found, symbol) {
        (Symbol::Keyword(found), Symbol::Keyword(symbol)) => found == symbol,
        (Symbol::Sign(found), Symbol::Sign(symbol)) => found == symbol,
        _ => false,
    }
}
