//! How much a script may have.
ghost use Rattle.std.specs.Prelude.{◌≡◌, ℕ, ◌<◌, ◌↔◌, Bool, true, List, [], ◌∷◌, length, map};
ghost use Rattle.std.specs.declared.option.Option.TheVariants.{None as Nothing};
ghost use Rattle.myrial_ast.specs.Trees.{emit_tree_of, statement_tree_of};
ghost use Rattle.myrial_parser.specs.declared.faults.What.{What as WhatSeen};
ghost use Rattle.myrial_parser.specs.Pieces as spec;
ghost use Rattle.myrial_parser.specs.Pieces.{HasFault, IsFaulty, NestsTooDeep, PieceFault, TooMany, rank};

use crate::faults::What;
use myrial_ast::{EmitItems, FromItems, Operand, RelExpr, Stmt};
use myrial_lexer::{Sign, Token, TokenKind};
use rel_base::{MOST_NESTING, MOST_PIECES, MOST_TOKENS};

/// Whether somewhere in the tokens more than `MOST_NESTING` parentheses are open.
pub fn nests_too_deep(tokens: &[Token]) -> bool
    ensures { (result ≡ true) ↔ NestsTooDeep tokens.now }
{
    let mut opened = 0;
    let mut closed = 0;
    for token in tokens {
        match token.kind {
            TokenKind::Sign(Sign::OpenParen) => opened += 1,
            TokenKind::Sign(Sign::CloseParen) => closed += 1,
            _ => {}
        }
        if opened > closed + MOST_NESTING {
            return true;
        }
    }
    false
}

/// What a piece with this number and these tokens has too many of, before it is read.
pub fn excess_of_tokens(number: u32, tokens: &[Token]) -> Option<What>
    ensures some { (what : WhatSeen) → result ≡ Some what → (text : List ℕ) (ended : Bool)
        → IsFaulty text number (record { tokens = tokens.now; ended = ended }) (TooMany what) }
    ensures none { result ≡ Nothing → (text : List ℕ) (ended : Bool) (fault : PieceFault)
        → rank fault < rank spec.Syntax
        → HasFault text number (record { tokens = tokens.now; ended = ended }) fault → ⊥ }
{
    if number > MOST_PIECES {
        Some(What::Statements)
    } else if tokens.len() > MOST_TOKENS {
        Some(What::Tokens)
    } else if nests_too_deep(tokens) {
        Some(What::Nesting)
    } else {
        None
    }
}

/// How many items a statement's comprehension has.
pub fn items_of(statement: &Stmt) -> u32
    ensures { result ≡ spec.items_of (statement_tree_of statement.now) }
{
    match statement {
        Stmt::Assign(_, RelExpr::From(items, _, _)) => items.len(),
        _ => 0,
    }
}

/// How many columns a load is written with.
fn loaded_columns(operand: &Operand) -> u32
    ensures { result ≡ spec.loaded_columns operand.now }
{
    match operand {
        Operand::Load(_, schema, _) => schema.len(),
        _ => 0,
    }
}

/// The greater of a number of columns and that of an operand.
fn wider(most: u32, operand: &Operand) -> u32
    ensures { result ≡ spec.widest most (operand.now ∷ []) }
{
    let columns = loaded_columns(operand);
    if most < columns { columns } else { most }
}

/// The greatest of a number of columns and those of some items.
fn widest_item(most: u32, items: &FromItems) -> u32
    ensures { result ≡ spec.widest most (map (λ item. item.source) items.now) }
{
    let mut widest = most;
    for item in items.as_slice() {
        widest = wider(widest, &item.source);
    }
    widest
}

/// How many emit items there are.
fn emitted(emits: &EmitItems) -> u32
    ensures { result ≡ length (map emit_tree_of emits.now) }
{
    emits.len()
}

/// The most columns that a statement writes in one place.
pub fn columns_of(statement: &Stmt) -> u32
    ensures { result ≡ spec.columns_of (statement_tree_of statement.now) }
{
    let Stmt::Assign(_, relation) = statement else {
        return 0;
    };
    match relation {
        RelExpr::Copy(source) => wider(0, source),
        RelExpr::Empty(schema) => schema.len(),
        RelExpr::Distinct(source) => wider(0, source),
        RelExpr::UnionAll(left, right) => wider(wider(0, left), right),
        RelExpr::Diff(left, right) => wider(wider(0, left), right),
        RelExpr::From(items, _, emits) => widest_item(emitted(emits), items),
    }
}
