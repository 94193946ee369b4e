//! Values as rows lend them.
ghost use Rattle.std.specs.Prelude.{◌≡◌, IsTrue, IfOk, OnErr};
ghost use Rattle.rel_base.specs.declared.values.ColType.TheVariants as kind;
ghost use Rattle.rel_base.specs.Relations.{type_of};
ghost use Rattle.rel_base.specs.Values.{value_order, number_of, truth_of, in_64_bits};
ghost use Rattle.expr_eval.specs.Lent.{value_of_lent};

use rel_base::{Memory, Text, Value};
use std::alloc::Global;
use std::cmp::Ordering;

/// A value, its string lent. So a row lends what it keeps as a machine word as well as what it
/// keeps as a `Value`.
#[derive(Clone, Copy, Debug)]
pub enum Lent<'a> {
    /// A number.
    Int(i64),
    /// A text.
    Str(&'a str),
    /// A truth value.
    Bool(bool),
}

impl<'a> Lent<'a> {
    /// The same value.
    #[inline]
    pub fn of(value: &'a Value) -> Lent<'a>
        ensures value { value_of_lent result ≡ value.entry.now }
        ensures fits { IsTrue (in_64_bits (number_of value.entry.now)) }
    {
        match value {
            Value::Int(number) => Lent::Int(*number),
            Value::Str(text) => Lent::Str(text.as_str()),
            Value::Bool(truth) => Lent::Bool(*truth),
        }
    }

    /// The value itself. Memory is asked for where it is a string, which is copied.
    #[inline(always)]
    pub(crate) fn owned(self, alloc: Global) -> Result<Value, Memory>
        ensures value { IfOk result (λ value. value ≡ value_of_lent self.entry) }
        ensures refused { OnErr result (type_of (value_of_lent self.entry) ≡ kind.Str) }
    {
        match self {
            Lent::Int(number) => Ok(Value::Int(number)),
            Lent::Str(text) => Ok(Value::Str(Text::of(alloc, text)?)),
            Lent::Bool(truth) => Ok(Value::Bool(truth)),
        }
    }

    /// The number; of another value 0.
    pub(crate) fn number(self) -> i64
        ensures value { result ≡ number_of (value_of_lent self.entry) }
    {
        match self {
            Lent::Int(number) => number,
            _ => 0,
        }
    }

    /// The truth; of another value false.
    pub(crate) fn truth(self) -> bool
        ensures { result ≡ truth_of (value_of_lent self.entry) }
    {
        match self {
            Lent::Bool(truth) => truth,
            _ => false,
        }
    }

    /// How the values compare: an int comes before a string, and a string before a boolean.
    pub(crate) fn compared(self, other: Lent<'_>) -> Ordering
        ensures { result ≡ value_order (value_of_lent self.entry) (value_of_lent other.entry) }
    {
        match (self, other) {
            (Lent::Int(a), Lent::Int(b)) => a.cmp(&b),
            (Lent::Str(a), Lent::Str(b)) => a.cmp(b),
            (Lent::Bool(a), Lent::Bool(b)) => a.cmp(&b),
            (Lent::Int(_), _) => Ordering::Less,
            (_, Lent::Int(_)) => Ordering::Greater,
            (Lent::Str(_), Lent::Bool(_)) => Ordering::Less,
            (Lent::Bool(_), Lent::Str(_)) => Ordering::Greater,
        }
    }
}
