//! Terminals: a token each, as the grammar reads it.
ghost use Rattle.std.specs.Prelude.{◌≡◌, ◌≤◌, length, map};
ghost use Rattle.std.specs.Str.{IsUtf8, str_eq_ignore_ascii_case};
ghost use Rattle.std.specs.Str.Parse.{digits_value};
ghost use Rattle.myrial_lexer.specs.Slices as cut;
ghost use Rattle.myrial_lexer.specs.Tokens as lexed;
ghost use Rattle.myrial_parser.specs.Terminals as spec;

use myrial_lexer::{Sign, Token, TokenKind};
use std::str;

/// A reserved word.
#[derive(Clone, Copy, PartialEq, Eq)]
pub enum Keyword {
    From,
    Where,
    Emit,
    As,
    And,
    Or,
    Not,
    True,
    False,
    Scan,
    Store,
    Empty,
    Distinct,
    UnionAll,
    Diff,
    Count,
    CountAll,
    Sum,
    Min,
    Max,
}

/// A reserved word or a sign.
#[derive(Clone, Copy)]
pub enum Symbol {
    /// A reserved word.
    Keyword(Keyword),
    /// A sign.
    Sign(Sign),
}

/// What the grammar reads, with the text or the value that a tree keeps of it.
#[derive(Clone, Copy)]
pub enum Terminal<'a> {
    /// A word that isn't reserved.
    Name(&'a str),
    /// A number.
    Number(u64),
    /// What stands between the quotes of a string.
    Quoted(&'a str),
    /// A reserved word or a sign.
    Fixed(Symbol),
}

/// The reserved words, which stand in any case.
const RESERVED: [(&[u8], Keyword); 20] = [
    (b"from", Keyword::From),
    (b"where", Keyword::Where),
    (b"emit", Keyword::Emit),
    (b"as", Keyword::As),
    (b"and", Keyword::And),
    (b"or", Keyword::Or),
    (b"not", Keyword::Not),
    (b"true", Keyword::True),
    (b"false", Keyword::False),
    (b"scan", Keyword::Scan),
    (b"store", Keyword::Store),
    (b"empty", Keyword::Empty),
    (b"distinct", Keyword::Distinct),
    (b"unionall", Keyword::UnionAll),
    (b"diff", Keyword::Diff),
    (b"count", Keyword::Count),
    (b"countall", Keyword::CountAll),
    (b"sum", Keyword::Sum),
    (b"min", Keyword::Min),
    (b"max", Keyword::Max),
];

/// Whether two words are one in any case.
pub fn same_word(word: &[u8], other: &[u8]) -> bool
    ensures { result ≡ str_eq_ignore_ascii_case word.now other.now }
{
    word.eq_ignore_ascii_case(other)
}

/// The reserved word of a table that a word is, in any case.
fn lookup(mut table: &[(&[u8], Keyword)], word: &[u8]) -> Option<Keyword>
    ensures { result ≡ spec.lookup (map (λ row. (row.0.now, row.1)) table.entry.now) word.now }
{
    while let [row, rest @ ..] = table {
        if same_word(word, row.0) {
            return Some(row.1);
        }
        table = rest;
    }
    None
}

/// The reserved word that a word is, in any case.
fn reserved(word: &[u8]) -> Option<Keyword>
    ensures { result ≡ spec.reserved word.now }
{
    lookup(&RESERVED, word)
}

/// The bytes of a token.
fn slice_of(bytes: &[u8], token: Token) -> &[u8]
    requires { cut.Lies bytes.now token }
    ensures { result.now ≡ lexed.slice_of bytes.now token }
{
    &bytes[token.start as usize..token.end as usize]
}

/// The bytes as text.
fn text_of(bytes: &[u8]) -> &str
    requires { IsUtf8 bytes.now }
    ensures { result.now ≡ bytes.now }
{
    match str::from_utf8(bytes) {
        Ok(text) => text,
        Err(_) => unreachable!(),
    }
}

/// The terminal of a word.
fn word(bytes: &[u8]) -> Terminal<'_>
    requires { IsUtf8 bytes.now }
    ensures { spec.seen result ≡ spec.word_terminal bytes.now (spec.reserved bytes.now) }
{
    match reserved(bytes) {
        Some(keyword) => Terminal::Fixed(Symbol::Keyword(keyword)),
        None => Terminal::Name(text_of(bytes)),
    }
}

/// The value of digits.
fn number(digits: &[u8]) -> u64
    requires { cut.IsNumeral digits.now }
    ensures { result ≡ digits_value 10 digits.now }
{
    match str::from_utf8(digits) {
        Ok(text) => match text.parse::<u64>() {
            Ok(value) => value,
            Err(_) => unreachable!(),
        },
        Err(_) => unreachable!(),
    }
}

/// What stands between the quotes of a string.
fn unquoted(bytes: &[u8]) -> &str
    requires quotes { 2 ≤ length bytes.now }
    requires text { IsUtf8 (cut.unquoted bytes.now) }
    ensures { result.now ≡ cut.unquoted bytes.now }
{
    text_of(&bytes[1..bytes.len() - 1])
}

/// The terminal of a token of a text.
pub fn terminal_of(bytes: &[u8], token: Token) -> Terminal<'_>
    requires { cut.IsCut bytes.now token }
    ensures value { spec.seen result ≡ spec.terminal_of bytes.now token }
    ensures small { spec.IsSmall (spec.seen result) }
{
    match token.kind {
        TokenKind::Word => word(slice_of(bytes, token)),
        TokenKind::Int => Terminal::Number(number(slice_of(bytes, token))),
        TokenKind::Str => Terminal::Quoted(unquoted(slice_of(bytes, token))),
        TokenKind::Sign(sign) => Terminal::Fixed(Symbol::Sign(sign)),
    }
}
