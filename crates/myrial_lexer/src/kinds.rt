//! Tokens and their kinds.
use rel_base::Items;

/// A sign, of one or two characters.
#[derive(Clone, Copy, Debug, PartialEq, Eq)]
pub enum Sign {
    /// `=` or `==`.
    Eq,
    /// `!=` or `<>`.
    Ne,
    /// `<=`.
    Le,
    /// `<`.
    Lt,
    /// `>=`.
    Ge,
    /// `>`.
    Gt,
    /// `+`.
    Plus,
    /// `-`.
    Minus,
    /// `*`.
    Star,
    /// `(`.
    OpenParen,
    /// `)`.
    CloseParen,
    /// `[`.
    OpenBracket,
    /// `]`.
    CloseBracket,
    /// `,`.
    Comma,
    /// `.`.
    Dot,
    /// `:`.
    Colon,
    /// `;`.
    Semicolon,
    /// `$`.
    Dollar,
}

/// What a token is.
#[derive(Clone, Copy, Debug, PartialEq, Eq)]
pub enum TokenKind {
    /// A letter or `_`, then letters, digits and `_`.
    Word,
    /// Decimal digits.
    Int,
    /// Characters between two equal quotes.
    Str,
    /// A sign.
    Sign(Sign),
}

/// A slice of the text: its bytes from `start` up to, and without, `end`.
#[derive(Clone, Copy, Debug, PartialEq, Eq)]
pub struct Token {
    /// What the slice is.
    pub kind: TokenKind,
    /// The place of its first byte, from 0.
    pub start: u32,
    /// The place behind its last byte.
    pub end: u32,
}

/// Tokens, in the order of the text.
pub type Tokens = Items<Token>;
