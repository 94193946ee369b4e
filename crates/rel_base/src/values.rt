//! Values and their types.
use crate::{Duplicate, Memory, Text};
use std::alloc::Global;
use std::cmp::Ordering;
use std::mem::size_of;

/// The type of a column.
#[derive(Clone, Copy, Debug, PartialEq, Eq)]
pub enum ColType {
    /// Whole numbers of 64 bits, signed.
    Int,
    /// UTF-8 text.
    Str,
    /// Truth values.
    Bool,
}

/// One field of a row.
///
/// Values of one type are ordered by number, by bytes, and false before true. Between types an int
/// comes before a string and a string before a boolean.
#[derive(Debug)]
pub enum Value {
    /// A number.
    Int(i64),
    /// A text.
    Str(Text),
    /// A truth value.
    Bool(bool),
}

// Written out, since a derived drop is proved anew at each place where a value is let go.
impl Drop for Value {
    fn drop(self) {
        match self {
            Value::Int(_) | Value::Str(_) | Value::Bool(_) => {}
        }
    }
}

const _: () = prove!(size_of::<Value>() == 16);

/// The value that fills the unused places of a short row: the number 0.
impl Default for Value {
    ghost use Rattle.std.specs.Prelude.{◌≡◌, pos};
    ghost use Rattle.rel_base.specs.declared.values.Value.TheVariants as variant;

    ghost is_default = { λ v. v ≡ variant.Int (pos 0) };

    fn default() -> Value {
        Value::Int(0)
    }
}

impl Duplicate for Value {
    fn copy(&self, alloc: Global) -> Result<Value, Memory> {
        match self {
            Value::Int(number) => Ok(Value::Int(*number)),
            Value::Str(text) => Ok(Value::Str(text.copy(alloc)?)),
            Value::Bool(truth) => Ok(Value::Bool(*truth)),
        }
    }
}

impl PartialEq for Value {
    ghost use Rattle.rel_base.specs.Values.{value_order};
    ghost use Rattle.rel_base.specs.ValueLaws.{value_order_total};
    ghost use Rattle.std.specs.Cmp.{eq_by_cmp_equiv, partial_equiv_from_equiv};
    ghost use Rattle.std.specs.Ordering.{eq_by_cmp};

    ghost eq = { eq_by_cmp value_order };

    ghost laws = { partial_equiv_from_equiv (eq_by_cmp_equiv value_order_total) };

    fn eq(&self, other: &Value) -> bool {
        self.cmp(other).is_eq()
    }
}

impl Eq for Value {
    ghost use Rattle.rel_base.specs.ValueLaws.{value_order_total};
    ghost use Rattle.std.specs.Cmp.{eq_by_cmp_equiv};

    ghost laws = { eq_by_cmp_equiv value_order_total };
}

impl PartialOrd for Value {
    ghost use Rattle.rel_base.specs.Values.{value_order};
    ghost use Rattle.rel_base.specs.ValueLaws.{value_order_total};
    ghost use Rattle.std.specs.Cmp.{partial_order_from_total};
    ghost use Rattle.std.specs.Ordering.{as_partial_cmp};

    ghost partial_cmp = { as_partial_cmp value_order };

    ghost laws = { partial_order_from_total value_order_total };

    fn partial_cmp(&self, other: &Value) -> Option<Ordering> {
        Some(self.cmp(other))
    }
}

impl Ord for Value {
    ghost use Rattle.std.specs.Prelude.{refl};
    ghost use Rattle.rel_base.specs.Values.{value_order};
    ghost use Rattle.rel_base.specs.ValueLaws.{value_order_total};

    ghost cmp = { value_order };

    ghost total = { value_order_total };

    ghost matches_partial_cmp = { λ a b. refl };

    ghost matches_eq = { λ a b. refl };

    fn cmp(&self, other: &Value) -> Ordering {
        match (self, other) {
            (Value::Int(a), Value::Int(b)) => a.cmp(b),
            (Value::Str(a), Value::Str(b)) => a.cmp(b),
            (Value::Bool(a), Value::Bool(b)) => a.cmp(b),
            (Value::Int(_), _) => Ordering::Less,
            (_, Value::Int(_)) => Ordering::Greater,
            (Value::Str(_), Value::Bool(_)) => Ordering::Less,
            (Value::Bool(_), Value::Str(_)) => Ordering::Greater,
        }
    }
}
