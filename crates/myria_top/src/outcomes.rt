//! What a run answers.
ghost use Rattle.std.specs.Prelude.{◌≡◌};
ghost use Rattle.myria_top.specs.Outcomes.{status_of};

use command_words::WordsFault;
use exchange_channels::Receipts;
use myrial_lexer::LexWhat;
use myrial_parser::What;
use myrial_types::{TypeFault, TypeKind};
use rel_base::{Key, Memory, RunFault, Text};
use relation_csv::RelFault;

/// How a run ended.
#[derive(Drop)]
pub enum Outcome {
    /// The text of the mode is printed.
    Done {
        /// What was sent in the exchanges of the run.
        receipts: Receipts,
    },
    /// The words are none that the program takes.
    Usage,
    /// There is no such script.
    NoScript,
    /// The script is longer than the most bytes of a script.
    ScriptTooLong,
    /// The script isn't UTF-8.
    ScriptNotText,
    /// The script has no tokens.
    Lex {
        /// The line of the first fault, from 1.
        line: u32,
        /// What is wrong there.
        what: LexWhat,
    },
    /// A statement isn't in the grammar.
    Syntax {
        /// The number of the first one, from 1.
        statement: u32,
    },
    /// A statement passes a limit.
    TooMany {
        /// The number of the first one, from 1.
        statement: u32,
        /// What it has too many of.
        what: What,
    },
    /// There is no file for this relation.
    NoRelation {
        /// The key of the relation that is not there.
        key: Key,
    },
    /// The file of a relation is longer than the most bytes of one.
    RelTooLong {
        /// The key of the relation.
        key: Key,
    },
    /// The file of a relation is no relation.
    BadRelation {
        /// The key of the relation.
        key: Key,
        /// The first fault of its file.
        fault: RelFault,
    },
    /// A statement isn't typed.
    Typing {
        /// The number of the first one, from 1.
        statement: u32,
        /// The first of its kinds of fault.
        kind: TypeKind,
    },
    /// A statement has more rows than a relation may have.
    TooManyRows {
        /// Its number, from 1.
        statement: u32,
    },
    /// A number that a statement computes leaves 64 bits.
    Overflow {
        /// Its number, from 1.
        statement: u32,
    },
    /// A sum that a statement computes leaves 64 bits.
    AggregateOverflow {
        /// Its number, from 1.
        statement: u32,
    },
    /// A file could not be read.
    ReadFault {
        /// The name under which it was asked for.
        name: Text,
    },
    /// The output could not be written.
    WriteFault,
    /// Memory was refused.
    Memory,
    /// There is no such plan.
    NoPlan,
    /// The file of the plan is longer than the most bytes of one.
    PlanTooLong,
    /// The file of the plan is no plan.
    BadPlan,
    /// The plan is for another number of workers.
    PlanWorkers {
        /// The number that it is for.
        workers: u32,
    },
    /// The plan has no choice for a join, or one that isn't for it, or one too many.
    PlanMisfit {
        /// The number of the first such statement, from 1.
        statement: u32,
    },
}

impl Outcome {
    /// The exit status of the program.
    pub fn status(&self) -> u8
        ensures { result ≡ status_of self.now }
    {
        match self {
            Outcome::Done { receipts: _ } => 0,
            Outcome::Usage => 1,
            Outcome::NoScript => 2,
            Outcome::ScriptTooLong => 2,
            Outcome::ScriptNotText => 2,
            Outcome::Lex { line: _, what: _ } => 3,
            Outcome::Syntax { statement: _ } => 4,
            Outcome::TooMany {
                statement: _,
                what: _,
            } => 4,
            Outcome::Typing {
                statement: _,
                kind: _,
            } => 5,
            Outcome::NoRelation { key: _ } => 6,
            Outcome::RelTooLong { key: _ } => 7,
            Outcome::BadRelation { key: _, fault: _ } => 7,
            Outcome::TooManyRows { statement: _ } => 8,
            Outcome::Overflow { statement: _ } => 9,
            Outcome::AggregateOverflow { statement: _ } => 10,
            Outcome::ReadFault { name: _ } => 11,
            Outcome::WriteFault => 12,
            Outcome::Memory => 13,
            Outcome::NoPlan => 15,
            Outcome::PlanTooLong => 15,
            Outcome::BadPlan => 16,
            Outcome::PlanWorkers { workers: _ } => 17,
            Outcome::PlanMisfit { statement: _ } => 17,
        }
    }
}

impl From<Memory> for Outcome {
    ghost use Rattle.std.specs.Prelude.{◌≡◌};
    ghost use Rattle.myria_top.specs.declared.outcomes.Outcome.TheVariants as outcome;

    ghost from_gives = { λ _ answer. answer ≡ outcome.Memory };

    fn from(_refused: Memory) -> Outcome {
        Outcome::Memory
    }
}

impl From<WordsFault> for Outcome {
    ghost use Rattle.std.specs.Prelude.{◌≡◌};
    ghost use Rattle.myria_top.specs.Runs.{words_answer};

    ghost from_gives = { λ fault answer. answer ≡ words_answer fault };

    fn from(fault: WordsFault) -> Outcome {
        match fault {
            WordsFault::Usage => Outcome::Usage,
            WordsFault::Memory => Outcome::Memory,
        }
    }
}

impl From<TypeFault> for Outcome {
    ghost use Rattle.std.specs.Prelude.{◌≡◌};
    ghost use Rattle.myria_top.specs.Runs.{typing_answer};

    ghost from_gives = { λ fault answer. answer ≡ typing_answer fault };

    fn from(fault: TypeFault) -> Outcome {
        match fault {
            TypeFault::At { statement, kind } => Outcome::Typing { statement, kind },
            TypeFault::Memory => Outcome::Memory,
        }
    }
}

impl From<RunFault> for Outcome {
    ghost use Rattle.std.specs.Prelude.{◌≡◌};
    ghost use Rattle.myria_top.specs.Runs.{run_answer};

    ghost from_gives = { λ fault answer. answer ≡ run_answer fault };

    fn from(fault: RunFault) -> Outcome {
        match fault {
            RunFault::TooManyRows { statement } => Outcome::TooManyRows { statement },
            RunFault::Overflow { statement } => Outcome::Overflow { statement },
            RunFault::AggregateOverflow { statement } => Outcome::AggregateOverflow { statement },
            RunFault::Memory => Outcome::Memory,
        }
    }
}
