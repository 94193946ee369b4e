//! What rows emit to be packed: all of their values, or those of picks.
ghost use Rattle.std.specs.Prelude.{◌≡◌, IfSome, length};
ghost use Rattle.myrial_ast.specs.Scalars.{value_at, exact_value};
ghost use Rattle.myrial_ast.specs.ScalarTrees.{scalar_tree_of};
ghost use Rattle.packed_rows.specs.Emitted.{emitted_by};

use myrial_ast::Scalar;
use rel_base::Value;

/// What each row emits.
#[derive(Clone, Copy)]
pub enum Emits<'a> {
    /// All of its values.
    Whole,
    /// The values of these, which are columns and literals.
    Picked(&'a [Scalar]),
}

impl<'a> Emits<'a> {
    /// How many values a row emits.
    pub fn width(self, values: &[Value]) -> usize
        ensures { result ≡ length (emitted_by self.entry values.now) }
    {
        match self {
            Emits::Whole => values.len(),
            Emits::Picked(picks) => picks.len(),
        }
    }

    /// The value at a place of what a row emits, where the row has it or it is a literal.
    pub fn value(self, values: &'a [Value], place: usize) -> Option<&'a Value>
        ensures { IfSome result (λ value. value.now
            ≡ value_at (emitted_by self.entry values.entry.now) place) }
    {
        match self {
            Emits::Whole => values.get(place),
            Emits::Picked(picks) => {
                if place >= picks.len() {
                    return None;
                }
                picked(&picks[place], values)
            }
        }
    }
}

/// The value of a column that the row has, or of a literal.
#[inline(always)]
pub fn picked<'a>(pick: &'a Scalar, values: &'a [Value]) -> Option<&'a Value>
    ensures { IfSome result (λ value. value.now
        ≡ exact_value (scalar_tree_of pick.entry.now) values.entry.now) }
{
    match pick {
        Scalar::At(place) => values.get(*place as usize),
        Scalar::Lit(value) => Some(value),
        _ => None,
    }
}
