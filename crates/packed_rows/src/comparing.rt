//! How two values compare.
ghost use Rattle.std.specs.Prelude.{◌≡◌};
ghost use Rattle.rel_base.specs.Values.{value_order};

use rel_base::Value;
use std::cmp::Ordering;

/// How two values compare. Ints, which most of them are, are compared without a call.
pub fn order_of(value: &Value, other: &Value) -> Ordering
    ensures { result ≡ value_order value.now other.now }
{
    match (value, other) {
        (Value::Int(a), Value::Int(b)) => a.cmp(b),
        _ => value.cmp(other),
    }
}
