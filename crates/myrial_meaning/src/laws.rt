//! The law of needed statements.
ghost use Rattle.std.specs.Prelude.{◌↔◌, List, IsTrue};
ghost use Rattle.myrial_ast.specs.Trees.{StatementTree};
ghost use Rattle.myrial_meaning.specs.Needed.{IsNeeded, is_needed};

/// Law: the least set with every store and, for each name that a member uses, the statement that
/// assigns it last before the member, is what the test tells. It does nothing.
pub fn needed_statements_are_the_least_set()
    ensures { (s : StatementTree) (rest : List StatementTree)
        → IsNeeded s rest ↔ IsTrue (is_needed s rest) }
{}
