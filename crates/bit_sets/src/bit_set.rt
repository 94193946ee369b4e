//! Numbers below a bound, each with a bit that says whether it is there.
ghost use Rattle.std.specs.Prelude.{◌≡◌, ◌*◌, ◌||◌, ◌==◌, ℕ, IfOk, Some, None, false, if◌then◌else◌, not, nat_lt, option_map};
ghost use Rattle.bit_sets.specs.Bits.{bit_of};

use rel_base::Memory;
use std::alloc::Global;

/// A set of numbers below a bound. What has no bit isn't put there.
#[derive(Drop)]
pub struct BitSet {
    /// 64 bits each, the lowest first.
    words: Vec<u64>,
}

impl BitSet {
    /// No numbers, with room for those below 64 times as many.
    pub fn new(alloc: Global, words: usize) -> Result<BitSet, Memory>
        ensures { IfOk result (λ made. (number : ℕ) → bit_of made number
            ≡ (if nat_lt number (64 * words) then Some false else None)) }
    {
        let words = vec![in alloc; 0u64; words]?;
        Ok(BitSet { words })
    }

    /// Whether a number is there; `None` where it has no bit.
    #[inline(always)]
    pub fn find(&self, number: u64) -> Option<bool>
        ensures { result ≡ bit_of self.now number }
    {
        let word = self.words.get((number / 64) as usize)?;
        Some((*word >> (number % 64)) & 1 == 1)
    }

    /// Adds a number, and says whether it is new; `None` where it has no bit.
    #[inline(always)]
    pub fn insert(&mut self, number: u64) -> Option<bool>
        ensures new { result ≡ option_map not (bit_of self.old number) }
        ensures added { (k : ℕ) → bit_of self.new k
            ≡ option_map (λ bit. bit || (k == number)) (bit_of self.old k) }
    {
        let is_there = self.find(number)?;
        self.words[(number / 64) as usize] |= 1 << (number % 64);
        Some(!is_there)
    }
}
