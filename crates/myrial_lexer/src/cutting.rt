//! Cuts a text into tokens, from its front to its end.
ghost use Rattle.std.specs.Prelude.{◌≡◌, ℕ, ◌≤◌, ◌↔◌, length, IfOk};
ghost use Rattle.std.specs.Str.{IsUtf8};
ghost use Rattle.rel_base.specs.Limits.{most_script_bytes};
ghost use Rattle.myrial_lexer.specs.Tokens as spec;
ghost use Rattle.myrial_lexer.specs.Tokens.{AreTokensOf, HasFault};
ghost use Rattle.myrial_lexer.specs.declared.faults.LexWhat.{LexWhat as LexWhatSeen};

use crate::faults::LexFault;
use crate::front::{Front, front_of};
use crate::kinds::{Token, Tokens};
use std::alloc::Global;
use std::str;

/// The number of the line on which a place of the text lies, from 1.
fn line_at(text: &[u8], place: usize) -> u32
    requires place { place ≤ length text.now }
    requires short { length text.now ≤ most_script_bytes }
    ensures { result ≡ spec.line_at text.now place }
{
    1 + text[..place].iter().filter(|b| **b == b'\n').count() as u32
}

/// The tokens of the UTF-8 text `bytes`, or the first place that breaks the token rules.
pub fn lex(alloc: Global, bytes: &[u8]) -> Result<Tokens, LexFault>
    requires { length bytes.now ≤ most_script_bytes }
    // With `ok` and `at`, the other fault comes wherever the text is UTF-8 and has one.
    ensures ok { IfOk result (λ tokens. AreTokensOf bytes.now tokens) }
    ensures not_text { (result ≡ Err LexFault.NotText) ↔ (IsUtf8 bytes.now → ⊥) }
    ensures at { (line : ℕ) (what : LexWhatSeen) → result ≡ Err (LexFault.At line what)
        → HasFault bytes.now line what }
{
    let Ok(_) = str::from_utf8(bytes) else {
        return Err(LexFault::NotText);
    };
    let mut tokens = Tokens::new(alloc);
    let mut place = 0;
    while place < bytes.len() {
        match front_of(&bytes[place..]) {
            Front::Gap(size) => place += size,
            Front::Piece(kind, size) => {
                let end = place + size;
                tokens.push(Token {
                    kind,
                    start: place as u32,
                    end: end as u32,
                })?;
                place = end;
            }
            Front::Fault(what) => {
                return Err(LexFault::At {
                    line: line_at(bytes, place),
                    what,
                });
            }
        }
    }
    Ok(tokens)
}
