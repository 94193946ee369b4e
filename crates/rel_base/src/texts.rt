//! Text: names and string values.
ghost use Rattle.std.specs.Prelude.{◌≡◌, ◌≤◌, length, IfOk, Some, nat_eq, refl};
ghost use Rattle.std.specs.Ordering.{nat_cmp};
ghost use Rattle.std.specs.Cmp.Lexicographic.{pointwise, slice_cmp, nat_list_eq_equiv, nat_list_cmp_total, texts_ties, texts_po};
ghost use Rattle.std.specs.Cmp.{partial_equiv_from_equiv};

use crate::short_texts::ShortText;
use crate::{Duplicate, Memory};
use std::alloc::Global;
use std::cmp::Ordering;
use std::fmt;
use std::hash::{Hash, Hasher};
use std::marker::Model;
use std::mem::size_of;

/// UTF-8 text, which contracts see as its bytes. It is ordered by its bytes.
///
/// The text stands behind one pointer, so that a `Value` has 16 bytes. A short one takes one
/// allocation, of 24 bytes.
pub struct Text {
    boxed: Box<Letters>,
}

// Written out, since a derived drop is proved anew at each place where a value is let go.
impl Drop for Text {
    fn drop(self) {
        let Text { boxed: _ } = self;
    }
}

/// Where the bytes of a text stand.
pub enum Letters {
    /// In the value itself.
    Short(ShortText),
    /// In memory of their own.
    Long(Box<String>),
}

// Written out, since a derived drop is proved anew at each place where a value is let go.
impl Drop for Letters {
    fn drop(self) {
        match self {
            Letters::Short(_) | Letters::Long(_) => {}
        }
    }
}

// A piece of memory of 24 bytes is the least that `malloc` gives.
const _: () = prove!(size_of::<Letters>() == 24);

impl Letters {
    ghost use Rattle.rel_base.specs.inner.Letters.{IsShort, bytes_in};

    /// Writes a short text over another one, where it stands.
    #[inline(always)]
    fn set_short(&mut self, s: &str)
        requires short { IsShort self.old }
        requires room { length s.now ≤ 22 }
        ensures { bytes_in self.new ≡ s.now }
    {
        match self {
            Letters::Short(short) => short.set(s),
            Letters::Long(_) => unreachable!(),
        }
    }
}

impl Model for Text {
    ghost use Rattle.std.specs.Prelude.{List, ℕ};
    ghost use Rattle.rel_base.specs.inner.Letters.{bytes_in};

    ghost Value = { List ℕ };

    ghost view = { λ t. bytes_in t.boxed.value };
}

impl Text {
    /// The same text, in memory of its own.
    pub fn of(alloc: Global, s: &str) -> Result<Text, Memory>
        ensures { IfOk result (λ made. made ≡ s.now) }
    {
        if s.len() > ShortText::MOST {
            let long = Box::new(alloc, String::from_str(alloc, s)?)?;
            let boxed = Box::new(alloc, Letters::Long(long))?;
            return Ok(Text { boxed });
        }
        Text::of_short(alloc, s)
    }

    /// The same short text, in memory of its own.
    fn of_short(alloc: Global, s: &str) -> Result<Text, Memory>
        requires { length s.now ≤ 22 }
        ensures { IfOk result (λ made. made ≡ s.now) }
    {
        let mut boxed = Box::new(alloc, Letters::Short(ShortText::new()))?;
        boxed.set_short(s);
        Ok(Text { boxed })
    }

    /// The text.
    pub fn as_str(&self) -> &str
        ensures { result.now ≡ self.now }
    {
        match &*self.boxed {
            Letters::Short(short) => short.as_str(),
            Letters::Long(long) => long.as_str(),
        }
    }
}

impl Duplicate for Text {
    fn copy(&self, alloc: Global) -> Result<Text, Memory> {
        Text::of(alloc, self.as_str())
    }
}

impl PartialEq for Text {
    ghost eq = { pointwise nat_eq };

    ghost laws = { partial_equiv_from_equiv nat_list_eq_equiv };

    fn eq(&self, other: &Text) -> bool {
        self.as_str() == other.as_str()
    }
}

impl Eq for Text {
    ghost laws = { nat_list_eq_equiv };
}

impl PartialOrd for Text {
    ghost partial_cmp = { λ s t. Some (slice_cmp nat_cmp s t) };

    ghost laws = { texts_po };

    fn partial_cmp(&self, other: &Text) -> Option<Ordering> {
        Some(self.cmp(other))
    }
}

impl Ord for Text {
    ghost cmp = { slice_cmp nat_cmp };

    ghost total = { nat_list_cmp_total };

    ghost matches_partial_cmp = { λ s t. refl };

    ghost matches_eq = { texts_ties };

    fn cmp(&self, other: &Text) -> Ordering {
        self.as_str().cmp(other.as_str())
    }
}

impl Hash for Text {
    ghost use Rattle.std.specs.Hash as fed;
    ghost use Rattle.std.specs.Cmp.Rules.{hashing};
    ghost use Rattle.std.proofs.Common.{rules};

    ghost hash_input = { λ t. fed.str t };

    ghost respects_eq = { Prim.search (hashing, rules) };

    fn hash<H: Hasher>(&self, state: &mut H) {
        self.as_str().hash(state);
    }
}

impl fmt::Debug for Text {
    fn fmt<W: fmt::Write>(&self, f: &mut fmt::Formatter<W>) -> fmt::Result {
        let text = self.as_str();
        write!(f, "{text:?}")
    }
}

impl fmt::Display for Text {
    ghost output = { λ t. Some t };

    fn fmt<W: fmt::Write>(&self, f: &mut fmt::Formatter<W>) -> fmt::Result {
        f.write_str(self.as_str())
    }
}
