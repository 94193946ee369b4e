//! The laws.
ghost use Rattle.std.specs.Prelude.{List};
ghost use Rattle.rel_base.specs.Keys.{File};
ghost use Rattle.myrial_ast.specs.Trees.{StatementTree};
ghost use Rattle.myrial_meaning.specs.Meaning.{stored_relations};
ghost use Rattle.myrial_laws.specs.Permuted.{SameFiles};

/// Law: a script stores the same relations, as bags, whatever the order of the rows in its files.
/// It does nothing.
pub fn order_of_rows_changes_no_bag()
    ensures { (script : List StatementTree) (files others : List File) → SameFiles files others
        → SameFiles (stored_relations files script) (stored_relations others script) }
{}
