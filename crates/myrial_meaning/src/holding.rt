//! The relations that names stand for.
ghost use Rattle.std.specs.Prelude.{◌≡◌, IfOk};
ghost use Rattle.myrial_meaning.specs.inner.Assignments.{table_of};

use rel_base::{Duplicate, Memory, Relation, Text};
use std::alloc::Global;

/// A relation that a name stands for.
pub enum Held<'a> {
    /// The relation of a file, which is lent.
    Lent(&'a Relation),
    /// A relation that was made.
    Made(Relation),
}

// Written out, since a derived drop is proved anew at each place where a value is let go.
impl<'a> Drop for Held<'a> {
    fn drop(self) {
        match self {
            Held::Lent(_) | Held::Made(_) => {}
        }
    }
}

impl<'a> Held<'a> {
    /// The relation.
    pub fn relation(&self) -> &Relation
        ensures { result.now ≡ table_of self.now }
    {
        match self {
            Held::Lent(relation) => relation,
            Held::Made(relation) => relation,
        }
    }

    /// The same relation once more: lent again, or a copy of what was made.
    pub fn again(&self, alloc: Global) -> Result<Held<'a>, Memory>
        ensures { IfOk result (λ held. table_of held ≡ table_of self.now) }
    {
        match self {
            Held::Lent(relation) => Ok(Held::Lent(relation)),
            Held::Made(relation) => Ok(Held::Made(relation.copy(alloc)?)),
        }
    }
}

/// A name and the relation that was assigned to it.
pub struct Assignment<'a> {
    /// The name.
    pub name: &'a Text,
    /// The relation.
    pub held: Held<'a>,
}

// Written out, since a derived drop is proved anew at each place where a value is let go.
impl<'a> Drop for Assignment<'a> {
    fn drop(self) {
        let Assignment { name: _, held: _ } = self;
    }
}
