//! Statements and scripts.
ghost use Rattle.std.specs.Prelude.{◌≡◌, IfOk};
ghost use Rattle.myrial_ast.specs.Trees.{statement_tree_of};

use crate::relations::RelExpr;
use rel_base::{Duplicate, Items, Key, Memory, Text};
use std::alloc::Global;

/// A statement of a script.
#[derive(Debug)]
pub enum Stmt {
    /// An empty piece between two `;`.
    Nothing,
    /// `NAME = relation`.
    Assign(Text, RelExpr),
    /// `store(NAME, key)`.
    Store(Text, Key),
}

// Written out, since a derived drop is proved anew at each place where a value is let go.
impl Drop for Stmt {
    fn drop(self) {
        match self {
            Stmt::Nothing | Stmt::Assign(_, _) | Stmt::Store(_, _) => {}
        }
    }
}

/// The statements of a script, in order.
pub type Script = Items<Stmt>;

impl Stmt {
    /// A statement with the same tree, in memory of its own.
    pub fn copy(&self, alloc: Global) -> Result<Stmt, Memory>
        ensures { IfOk result (λ made. statement_tree_of made ≡ statement_tree_of self.now) }
    {
        match self {
            Stmt::Nothing => Ok(Stmt::Nothing),
            Stmt::Assign(name, relation) => {
                let name = name.copy(alloc)?;
                Ok(Stmt::Assign(name, relation.copy(alloc)?))
            }
            Stmt::Store(name, key) => {
                let name = name.copy(alloc)?;
                Ok(Stmt::Store(name, key.copy(alloc)?))
            }
        }
    }
}
