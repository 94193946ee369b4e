//! What stands at the front of a text: the longest piece that the token rules give there.
ghost use Rattle.std.specs.Prelude.{◌≡◌, ◌≢◌, ◌≤◌, ◌<◌, length, slice_index, true, pos};
ghost use Rattle.std.specs.Str.{all_ascii_digits};
ghost use Rattle.std.specs.Str.Parse.{digits_value};
ghost use Rattle.rel_base.specs.Values.{in_64_bits};
ghost use Rattle.myrial_lexer.specs.Tokens as spec;
ghost use Rattle.myrial_lexer.specs.inner.Sizes.{IsWithin};

use crate::faults::LexWhat;
use crate::kinds::{Sign, TokenKind};
use std::str;

/// What stands at the front of a text; a blank, a comment and a token with their number of bytes.
#[derive(Clone, Copy, Debug, PartialEq, Eq)]
pub enum Front {
    /// A blank or a comment.
    Gap(usize),
    /// A token.
    Piece(TokenKind, usize),
    /// Nothing that the rules have.
    Fault(LexWhat),
}

/// Bytes that go on with each other.
#[derive(Clone, Copy, Debug)]
pub enum Run {
    /// Letters, digits and `_`.
    Word,
    /// Digits.
    Digits,
    /// All but the line feed.
    Line,
    /// All but the line feed and this quote.
    Inside(u8),
}

fn is_blank(b: u8) -> bool
    ensures { result ≡ spec.is_blank b }
{
    b == b' ' || b == b'\t' || b == b'\r' || b == b'\n'
}

fn is_letter(b: u8) -> bool
    ensures { result ≡ spec.is_letter b }
{
    b.is_ascii_alphabetic() || b == b'_'
}

fn is_quote(b: u8) -> bool
    ensures { result ≡ spec.is_quote b }
{
    b == b'"' || b == b'\''
}

fn goes_on(run: Run, b: u8) -> bool
    ensures { result ≡ spec.goes_on run b }
{
    match run {
        Run::Word => is_letter(b) || b.is_ascii_digit(),
        Run::Digits => b.is_ascii_digit(),
        Run::Line => b != b'\n',
        Run::Inside(quote) => !(b == quote || b == b'\n'),
    }
}

/// The byte at a place, or 0 past the end.
fn byte_at(text: &[u8], place: usize) -> u8
    ensures value { result ≡ slice_index text.now place }
    ensures within { result ≢ 0 → place < length text.now }
{
    if place < text.len() { text[place] } else { 0 }
}

/// How many bytes at the front go on so.
fn run_len(run: Run, text: &[u8]) -> usize
    ensures value { result ≡ spec.run_len run text.now }
    ensures within { result ≤ length text.now }
{
    let mut len = 0;
    while len < text.len() && goes_on(run, text[len]) {
        len += 1;
    }
    len
}

/// Whether digits write a number of 64 bits with a sign.
fn fits_int(digits: &[u8]) -> bool
    requires some { 0 < length digits.now }
    requires digits { all_ascii_digits digits.now ≡ true }
    ensures { result ≡ in_64_bits (pos (digits_value 10 digits.now)) }
{
    match str::from_utf8(digits) {
        Ok(text) => text.parse::<i64>().is_ok(),
        Err(_) => unreachable!(),
    }
}

fn number(text: &[u8]) -> Front
    requires { spec.goes_on Run.Digits (slice_index text.now 0) ≡ true }
    ensures value { result ≡ spec.number text.now }
    ensures within { IsWithin result text.now }
{
    let len = run_len(Run::Digits, text);
    if fits_int(&text[..len]) {
        Front::Piece(TokenKind::Int, len)
    } else {
        Front::Fault(LexWhat::NumberTooLarge)
    }
}

fn string(text: &[u8]) -> Front
    requires { spec.is_quote (slice_index text.now 0) ≡ true }
    ensures value { result ≡ spec.string text.now }
    ensures within { IsWithin result text.now }
{
    let quote = text[0];
    let len = run_len(Run::Inside(quote), &text[1..]);
    if byte_at(text, len + 1) == quote {
        Front::Piece(TokenKind::Str, len + 2)
    } else {
        Front::Fault(LexWhat::OpenString)
    }
}

/// The longest sign at the front.
fn sign(text: &[u8]) -> Front
    requires { 0 < length text.now }
    ensures value { result ≡ spec.sign (slice_index text.now 0) (slice_index text.now 1) }
    ensures within { IsWithin result text.now }
{
    let (sign, size) = match (text[0], byte_at(text, 1)) {
        (b'=', b'=') => (Sign::Eq, 2),
        (b'=', _) => (Sign::Eq, 1),
        (b'!', b'=') => (Sign::Ne, 2),
        (b'<', b'>') => (Sign::Ne, 2),
        (b'<', b'=') => (Sign::Le, 2),
        (b'<', _) => (Sign::Lt, 1),
        (b'>', b'=') => (Sign::Ge, 2),
        (b'>', _) => (Sign::Gt, 1),
        (b'+', _) => (Sign::Plus, 1),
        (b'-', _) => (Sign::Minus, 1),
        (b'*', _) => (Sign::Star, 1),
        (b'(', _) => (Sign::OpenParen, 1),
        (b')', _) => (Sign::CloseParen, 1),
        (b'[', _) => (Sign::OpenBracket, 1),
        (b']', _) => (Sign::CloseBracket, 1),
        (b',', _) => (Sign::Comma, 1),
        (b'.', _) => (Sign::Dot, 1),
        (b':', _) => (Sign::Colon, 1),
        (b';', _) => (Sign::Semicolon, 1),
        (b'$', _) => (Sign::Dollar, 1),
        _ => return Front::Fault(LexWhat::BadChar),
    };
    Front::Piece(TokenKind::Sign(sign), size)
}

/// What stands at the front of a text that isn't empty.
pub fn front_of(text: &[u8]) -> Front
    requires { 0 < length text.now }
    ensures value { result ≡ spec.front_of text.now }
    ensures within { IsWithin result text.now }
{
    let first = text[0];
    if is_blank(first) {
        Front::Gap(1)
    } else if first == b'-' && byte_at(text, 1) == b'-' {
        Front::Gap(run_len(Run::Line, text))
    } else if is_letter(first) {
        Front::Piece(TokenKind::Word, run_len(Run::Word, text))
    } else if first.is_ascii_digit() {
        number(text)
    } else if is_quote(first) {
        string(text)
    } else {
        sign(text)
    }
}
