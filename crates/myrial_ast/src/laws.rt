//! The law of column classes.
ghost use Rattle.std.specs.Prelude.{◌↔◌, ℕ, List, IsTrue};
ghost use Rattle.myrial_ast.specs.Classes.{IsLinked, same_class};

/// Law: a chain of equalities leads from one column to another exactly where the two are in one
/// class by the test that computes. It does nothing.
pub fn linked_columns_share_a_class()
    ensures { (pairs : List (ℕ × ℕ)) (a b : ℕ)
        → IsLinked pairs a b ↔ IsTrue (same_class pairs a b) }
{}
