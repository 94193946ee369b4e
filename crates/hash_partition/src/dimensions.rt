//! The hash of a dimension, made once for all of its values.
//!
//! Source: Carter and Wegman, "Universal Classes of Hash Functions", 1979: a hash is `a * code +
//! b` by a prime modulus. Here `a` and `b` are not drawn but made from the hash seed, by the
//! constants of Knuth's generator MMIX.
ghost use Rattle.std.specs.Prelude.{◌≡◌, ◌%◌, ◌^◌, ◌<◌, ◌≤◌, length, All};
ghost use Rattle.hash_partition.specs.Hashing.{dimension_of, part_of_code, part_of_key, key_of};
ghost use Rattle.rel_base.specs.Codes.{modulus};

use crate::hashing::key_code;
use rel_base::{Places, Value};
use std::marker::Model;

/// What the seed of a dimension is multiplied by for the multiplier of its hash.
const MULTIPLIER_FACTOR: u64 = 6_364_136_223_846_793_005;

/// What the seed of a dimension is multiplied by for the offset of its hash.
const OFFSET_FACTOR: u64 = 1_442_695_040_888_963_407;

/// A dimension that is spread over some parts, with the hash that says in which part a value is.
///
/// A hash's multiplier and offset take longer to make than one coordinate: whoever asks for many
/// coordinates of a dimension makes it once.
#[derive(Debug, Drop)]
pub struct Dimension {
    /// What the hash multiplies a code by.
    multiplier: u64,
    /// What it adds to that.
    offset: u64,
    /// The number of parts.
    share: u32,
}

impl Model for Dimension {
    ghost use Rattle.hash_partition.specs.Hashing.{DimensionState, IsDimension};

    ghost Value = { DimensionState };

    ghost view = { λ d. record {
      multiplier = d.multiplier;
      offset = d.offset;
      share = d.share;
    } };

    ghost invariant = { λ d. IsDimension (record {
      multiplier = d.multiplier;
      offset = d.offset;
      share = d.share;
    }) };
}

impl Dimension {
    /// Dimension number `number` of a run with this hash seed, spread over so many parts.
    ///
    /// Dimensions are counted from 0, in the order of the join variables.
    pub fn new(seed: u64, number: u32, share: u32) -> Dimension
        requires { 1 ≤ share }
        ensures { result ≡ dimension_of seed number share }
    {
        let own_seed = seed.wrapping_add(u64::from(number) + 1);
        Dimension {
            multiplier: 1 + own_seed.wrapping_mul(MULTIPLIER_FACTOR) % (Value::CODES - 1),
            offset: own_seed.wrapping_mul(OFFSET_FACTOR) % Value::CODES,
            share,
        }
    }

    /// The number of parts.
    pub fn share(&self) -> u32
        ensures { result ≡ self.now.share }
    {
        self.share
    }

    /// The coordinate of a value with this code, which is the number of its part. Where there is
    /// one part, no code is hashed.
    pub fn coordinate(&self, code: u64) -> u32
        requires { code < modulus }
        ensures value { result ≡ part_of_code self.now code }
        ensures range { result < self.now.share }
    {
        if self.share == 1 {
            return 0;
        }
        let product = u128::from(self.multiplier) * u128::from(code);
        part_of(remainder(product + u128::from(self.offset)), self.share)
    }

    /// The part in which the rows with one key are: the key that a row has in these columns.
    ///
    /// A key of no columns is in part 0. Where there is one part, no key is hashed.
    pub fn part_of_key(&self, row: &[Value], columns: &Places) -> u32
        requires { All (λ column. column < length row.now) columns.now }
        ensures value { result ≡ part_of_key self.now (key_of row.now columns.now) }
        ensures range { result < self.now.share }
    {
        if self.share == 1 || columns.is_empty() {
            return 0;
        }
        self.coordinate(key_code(row, columns))
    }
}

/// The remainder of a hash by a share.
///
/// A division takes as long as all the rest of a coordinate. Shares are mostly the powers of two up
/// to the number of workers, of which each has a branch without one.
fn part_of(hash: u64, share: u32) -> u32
    requires { 1 ≤ share }
    ensures { result ≡ hash % share }
{
    let part = match share {
        1 => 0,
        2 => hash % 2,
        4 => hash % 4,
        8 => hash % 8,
        16 => hash % 16,
        32 => hash % 32,
        64 => hash % 64,
        _ => hash % u64::from(share),
    };
    part as u32
}

/// The remainder of a number by the modulus of codes.
///
/// As 2^61 is one more than the modulus, the number's high bits count as ones, and no division of
/// 128 bits is made.
fn remainder(number: u128) -> u64
    requires { number < 2 ^ 122 }
    ensures { result ≡ number % modulus }
{
    let high = (number >> 61) as u64;
    let low = (number % (1 << 61)) as u64;
    (high + low) % Value::CODES
}
