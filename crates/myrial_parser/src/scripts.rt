//! Scripts: pieces of tokens, each ended by a semicolon.
ghost use Rattle.std.specs.Prelude.{◌≡◌, ℕ, ◌<◌, List, All, IfOk, IfSome, false, length, true};
ghost use Rattle.std.specs.List.{position};
ghost use Rattle.myrial_ast.specs.Trees.{statement_tree_of, trees_of};
ghost use Rattle.myrial_lexer.specs.Slices.{IsCut};
ghost use Rattle.myrial_lexer.specs.Tokens.{AreTokensOf};
ghost use Rattle.myrial_parser.specs.Pieces as spec;
ghost use Rattle.myrial_parser.specs.Pieces.{HasFault, IsFaulty, IsFirstFault, IsRead, IsScript, PieceFault, Syntax, rank, told};

use crate::cursor::Cursor;
use crate::faults::{ParseFault, Refusal, What};
use crate::laws::a_piece_has_one_statement;
use crate::limits::{columns_of, excess_of_tokens, items_of};
use myrial_ast::{Script, Stmt};
use myrial_lexer::{Sign, Token, TokenKind, Tokens, tokens_are_slices};
use rel_base::{MOST_COLUMNS, MOST_ITEMS};
use std::alloc::Global;

/// Whether a token of this kind ends a piece.
fn is_semicolon(kind: TokenKind) -> bool
    ensures { result ≡ spec.is_semicolon kind }
{
    matches!(kind, TokenKind::Sign(Sign::Semicolon))
}

/// How many tokens stand in front of the first semicolon, where there is one.
fn next_semicolon(tokens: &[Token]) -> Option<usize>
    ensures value { result ≡ position (λ token. spec.is_semicolon token.kind) tokens.now }
    ensures within { IfSome result (λ len. len < length tokens.now) }
{
    tokens.iter().position(|token| is_semicolon(token.kind))
}

/// The fault of a piece that has too many of something.
fn too_many(statement: u32, what: What) -> ParseFault
    ensures { result ≡ told statement (spec.TooMany what) }
{
    ParseFault::TooMany { statement, what }
}

/// The statement of a piece that a semicolon ends, and that is within the limits of its tokens.
fn short_piece(
    alloc: Global,
    number: u32,
    tokens: &[Token],
    bytes: &[u8],
) -> Result<Stmt, ParseFault>
    requires cut { All (IsCut bytes.now) tokens.now }
    requires within { (fault : PieceFault) → rank fault < rank Syntax
        → HasFault bytes.now number (record { tokens = tokens.now; ended = true }) fault → ⊥ }
    ensures ok { IfOk result
        (λ made. IsRead bytes.now number (record { tokens = tokens.now; ended = true })
        (statement_tree_of made)) }
    ensures fault { (n : ℕ) (fault : PieceFault) → result ≡ Err (told n fault)
        → (n ≡ number) × IsFaulty bytes.now number
        (record { tokens = tokens.now; ended = true }) fault }
{
    a_piece_has_one_statement();
    match Cursor::new(tokens, bytes).statement(alloc) {
        Ok(statement) => {
            if items_of(&statement) > MOST_ITEMS {
                Err(too_many(number, What::FromItems))
            } else if columns_of(&statement) > MOST_COLUMNS {
                Err(too_many(number, What::Columns))
            } else {
                Ok(statement)
            }
        }
        Err(Refusal::Syntax) => Err(ParseFault::Syntax { statement: number }),
        Err(Refusal::Memory) => Err(ParseFault::Memory),
    }
}

/// The statement of a piece that a semicolon ends.
fn piece(alloc: Global, number: u32, tokens: &[Token], bytes: &[u8]) -> Result<Stmt, ParseFault>
    requires { All (IsCut bytes.now) tokens.now }
    ensures ok { IfOk result
        (λ made. IsRead bytes.now number (record { tokens = tokens.now; ended = true })
        (statement_tree_of made)) }
    ensures fault { (n : ℕ) (fault : PieceFault) → result ≡ Err (told n fault)
        → (n ≡ number) × IsFaulty bytes.now number
        (record { tokens = tokens.now; ended = true }) fault }
{
    match excess_of_tokens(number, tokens) {
        Some(what) => Err(too_many(number, what)),
        None => short_piece(alloc, number, tokens, bytes),
    }
}

/// The fault of a piece that no semicolon ends.
fn fault_of_last(number: u32, tokens: &[Token]) -> ParseFault
    ensures { (text : List ℕ)
        → (fault : PieceFault) × (result ≡ told number fault)
        × IsFaulty text number (record { tokens = tokens.now; ended = false }) fault }
{
    match excess_of_tokens(number, tokens) {
        Some(what) => too_many(number, what),
        None => ParseFault::Syntax { statement: number },
    }
}

/// The script that the tokens of the text `bytes` read as, or the first fault of the first piece
/// that has one.
pub fn parse(alloc: Global, tokens: &Tokens, bytes: &[u8]) -> Result<Script, ParseFault>
    requires { AreTokensOf bytes.now tokens.now }
    // A script has one reading (`a_script_has_one_reading`), so with `ok` a fault comes wherever the script has one.
    ensures ok { IfOk result (λ script. IsScript bytes.now tokens.now (trees_of script)) }
    ensures fault { (number : ℕ) (fault : PieceFault) → result ≡ Err (told number fault)
        → IsFirstFault bytes.now tokens.now number fault }
{
    tokens_are_slices(bytes, tokens);
    let mut script = Script::new(alloc);
    let mut rest = tokens.as_slice();
    let mut number = 1;
    while let Some(len) = next_semicolon(rest) {
        let statement = match piece(alloc, number, &rest[..len], bytes) {
            Ok(statement) => statement,
            Err(fault) => return Err(fault),
        };
        script.push(statement)?;
        rest = &rest[len + 1..];
        number += 1;
    }
    if rest.is_empty() {
        Ok(script)
    } else {
        Err(fault_of_last(number, rest))
    }
}
