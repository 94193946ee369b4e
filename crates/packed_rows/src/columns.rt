//! Columns of rows that are packed in words.
ghost use Rattle.std.specs.Prelude.{◌≡◌, ◌<◌, ◌^◌, ◌/◌, pos, bit_and, IsTrue};
ghost use Rattle.std.specs.Int.{w64, int_wrapping_add};
ghost use Rattle.rel_base.specs.Values.{value_order};
ghost use Rattle.packed_rows.specs.Words.{unpacked};

use rel_base::Value;
use std::cmp::Ordering;

/// Which bits of a word tell the value of a column, and what they stand for.
#[derive(Clone, Copy)]
pub struct PackedColumn {
    /// The number of bits below.
    pub shift: u32,
    /// As many ones as there are bits.
    pub mask: u64,
    /// The number that stands where no bit is set.
    pub least: i64,
    /// Whether the values are booleans.
    pub is_truth: bool,
    ghost below: { shift < 64 },
    ghost short: { mask < 2 ^ 63 },
}

impl PackedColumn {
    /// No bits: each value is the number 0.
    pub fn none() -> PackedColumn {
        PackedColumn {
            shift: 63,
            mask: 0,
            least: 0,
            is_truth: false,
        }
    }

    /// The column of values up to so far from the least one, in the highest of so many bits that
    /// are left.
    pub fn below(left: u32, farthest: u64, least: i64, is_truth: bool) -> Option<PackedColumn> {
        let bits = 64 - farthest.leading_zeros();
        if bits > left || left > 64 || bits > 63 {
            return None;
        }
        Some(PackedColumn {
            shift: (left - bits).min(63),
            mask: (u64::MAX >> 1) >> (63 - bits),
            least,
            is_truth,
        })
    }

    /// The bits of a value, where they stand in a word.
    #[inline(always)]
    pub fn bits_of(self, value: &Value) -> u64 {
        let distance = match value {
            Value::Int(number) => number.wrapping_sub(self.least).cast_unsigned(),
            Value::Bool(truth) => u64::from(*truth),
            Value::Str(_) => 0,
        };
        (distance & self.mask) << self.shift
    }

    /// The value of a word in this column.
    #[inline(always)]
    pub fn value(self, word: u64) -> Value
        ensures { result ≡ unpacked self.shift self.mask self.least self.is_truth word }
    {
        let bits = (word >> self.shift) & self.mask;
        if self.is_truth {
            Value::Bool(bits == 1)
        } else {
            Value::Int(self.least.wrapping_add(bits as i64))
        }
    }

    /// Whether a word has this value in this column.
    #[inline(always)]
    pub fn holds(self, word: u64, value: &Value) -> bool
        ensures { IsTrue result
            → unpacked self.shift self.mask self.least self.is_truth word ≡ value.now }
    {
        match value {
            Value::Int(number) => !self.is_truth && self.number(word) == *number,
            Value::Bool(truth) => {
                self.is_truth && (((word >> self.shift) & self.mask) == 1) == *truth
            }
            Value::Str(_) => false,
        }
    }

    /// The number of a word in a column of numbers.
    #[inline(always)]
    fn number(self, word: u64) -> i64
        ensures { result
            ≡ int_wrapping_add w64 self.least (pos (bit_and (word / 2 ^ self.shift) self.mask)) }
    {
        let bits = (word >> self.shift) & self.mask;
        self.least.wrapping_add(bits as i64)
    }

    /// How the values of two words compare, of which each stands in its column.
    #[inline(always)]
    pub fn order(self, word: u64, column: PackedColumn, other: u64) -> Ordering
        ensures { result ≡ value_order (unpacked self.shift self.mask self.least self.is_truth word)
            (unpacked column.shift column.mask column.least column.is_truth other) }
    {
        if self.is_truth || column.is_truth {
            return self.value(word).cmp(&column.value(other));
        }
        self.number(word).cmp(&column.number(other))
    }
}
