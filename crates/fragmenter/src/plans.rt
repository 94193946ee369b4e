//! Plans: for each join of a script how its rows meet.
ghost use Rattle.std.specs.Prelude.{◌≡◌, ◌==◌, find};
ghost use Rattle.std.specs.Option.{option_copied};
ghost use Rattle.fragmenter.specs.Plans.{plan_tree_of, planned_shuffle, shuffle_of};

use rel_base::Items;
use share_chooser::Shares;

/// How the rows of a join's items meet.
#[derive(Clone, Copy, Debug, PartialEq, Eq)]
pub enum How {
    /// All items at once, at cells, with these shares.
    Hc(Shares),
    /// Two items at a time, by keys.
    Rs,
    /// One item stays where it is, and the others go to all workers.
    Br,
}

/// The choice for the join of a statement.
#[derive(Clone, Copy, Debug, PartialEq, Eq)]
pub struct Choice {
    /// The number of the statement, from 1.
    pub statement: u32,
    /// How the rows of its items meet.
    pub how: How,
}

/// Choices, in the order of their statements.
pub type Choices = Items<Choice>;

/// A plan: for so many workers, a choice for each join of a script.
#[derive(Debug, PartialEq, Eq)]
pub struct Plan {
    /// The number of workers that it is for.
    pub workers: u32,
    /// The choices, one for each join, in order.
    pub choices: Choices,
}

// Written out, since a derived drop is proved anew at each place where a value is let go.
impl Drop for Plan {
    fn drop(self) {
        let Plan {
            workers: _,
            choices: _,
        } = self;
    }
}

impl Plan {
    /// How the rows of the join of a statement meet: as the first choice for it says, and where
    /// there is none, one item stays where it is. It takes time by the number of choices.
    pub fn how(&self, statement: u32) -> How
        ensures { shuffle_of result ≡ planned_shuffle (plan_tree_of self.now) statement }
    {
        match self.first_choice(statement) {
            Some(choice) => choice.how,
            None => How::Br,
        }
    }

    /// The first choice for a statement.
    fn first_choice(&self, statement: u32) -> Option<&Choice>
        ensures { option_copied result
            ≡ find (λ (c : Choice). c.statement == statement) self.now.choices }
    {
        let choices = self.choices.as_slice();
        choices.iter().find(|choice| choice.statement == statement)
    }
}

/// Why a plan doesn't fit a script.
#[derive(Clone, Copy, Debug, PartialEq, Eq)]
pub enum Misfit {
    /// It is for another number of workers.
    Workers,
    /// The join of this statement has no choice, or one that isn't for it; or the choice of this
    /// statement stands behind those of all joins.
    Statement {
        /// The number of the statement.
        statement: u32,
    },
}
