//! The law of the token rules.
ghost use Rattle.std.specs.Prelude.{All};
ghost use Rattle.myrial_lexer.specs.Tokens.{AreTokensOf};
ghost use Rattle.myrial_lexer.specs.Slices.{IsCut};

use crate::kinds::Tokens;

/// Law: each token of a text is a slice of it, of a byte or more, whose bytes are text again and
/// such as its kind has.
pub fn tokens_are_slices(text: &[u8], tokens: &Tokens)
    requires { AreTokensOf text.now tokens.now }
    ensures { All (IsCut text.now) tokens.now }
{}
