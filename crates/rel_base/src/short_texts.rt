//! Short texts, which need no memory of their own.
ghost use Rattle.std.specs.Prelude.{◌≡◌, ◌≤◌, [], length};

use std::marker::Model;
use std::str;

/// UTF-8 text of at most 22 bytes, which contracts see as its bytes. They lie in the value itself,
/// behind their number.
#[derive(Drop)]
pub struct ShortText {
    len: u8,
    bytes: [u8; 22],
}

impl Model for ShortText {
    ghost use Rattle.std.specs.Prelude.{List, ℕ, ◌≡◌, ◌≤◌, length, take, IsUtf8};

    ghost Value = { List ℕ };

    ghost view = { λ t. take t.len t.bytes };

    ghost invariant = { λ t. (t.len ≤ 22) × (length t.bytes ≡ 22) × ∥ IsUtf8 (take t.len t.bytes) ∥₁ };
}

impl ShortText {
    /// The most bytes that it holds.
    pub const MOST: usize = 22;

    /// The empty text.
    #[inline(always)]
    pub fn new() -> ShortText
        ensures { result ≡ [] }
    {
        ShortText {
            len: 0,
            bytes: [0; 22],
        }
    }

    /// Writes a text over this one, where it stands.
    #[inline(always)]
    pub fn set(&mut self, s: &str)
        requires { length s.now ≤ 22 }
        ensures { self.new ≡ s.now }
    {
        let len = s.len();
        self.bytes[..len].copy_from_slice(s.as_bytes());
        self.len = len as u8;
    }

    /// The text.
    pub fn as_str(&self) -> &str
        ensures { result.now ≡ self.now }
    {
        unsafe { str::from_utf8_unchecked(&self.bytes[..self.len as usize]) }
    }
}
