//! The line on standard error.
ghost use Rattle.std.specs.Prelude.{◌≡◌, ◌++◌};
ghost use Rattle.std.specs.List.{flat_map};
ghost use Rattle.rel_io.specs.Sinks.{Offers, written_of};
ghost use Rattle.relation_csv.specs.Faults.{fault_text};
ghost use Rattle.myrial_types.specs.Faults.{kind_text};
ghost use Rattle.myria_top.specs.FileNames.{key_words};
ghost use Rattle.myria_top.specs.Outcomes as outcomes;

use crate::Outcome;
use crate::file_names::is_loaded;
use itoa::Buffer;
use myrial_lexer::LexWhat;
use myrial_parser::What;
use myrial_types::TypeKind;
use rel_base::Key;
use rel_io::{Sink, SinkFault, offer};
use relation_csv::RelFault;

/// Writes the line of an answer, and nothing after `Done`. Takes no memory of the program's own.
///
/// The name is that of the script as the words give it, or of the plan where there is none such. A
/// fault of the sink stops the line.
pub fn tell<E: Sink>(err: &mut E, name: &str, answer: &Outcome) -> Result<(), SinkFault>
    ensures { Offers (written_of E.Sink err.old err.new)
        (outcomes.line_of name.now answer.now) result }
{
    match answer {
        Outcome::Done { receipts: _ } => Ok(()),
        Outcome::Usage => offer_all(err, &["myria: usage: myria [options] SCRIPT\n"]),
        Outcome::NoScript => offer_all(err, &["myria: no script ", name, "\n"]),
        Outcome::ScriptTooLong => offer_all(err, &["myria: script too long\n"]),
        Outcome::ScriptNotText => offer_all(err, &["myria: script is not UTF-8\n"]),
        Outcome::Lex { line, what } => tell_line(err, *line, lexical_words(*what)),
        Outcome::Syntax { statement } => tell_statement(err, *statement, "syntax error", ""),
        Outcome::TooMany { statement, what } => {
            tell_statement(err, *statement, "too many ", many_words(*what))
        }
        Outcome::Typing { statement, kind } => {
            tell_statement(err, *statement, kind_words(*kind), "")
        }
        Outcome::NoRelation { key } => tell_missing(err, key),
        Outcome::RelTooLong { key } => tell_relation(err, key, ("", "", "", "", "too long")),
        Outcome::BadRelation { key, fault } => tell_fault(err, key, *fault),
        Outcome::TooManyRows { statement } => tell_statement(err, *statement, "too many rows", ""),
        Outcome::Overflow { statement } => tell_statement(err, *statement, "overflow", ""),
        Outcome::AggregateOverflow { statement } => {
            tell_statement(err, *statement, "aggregate overflow", "")
        }
        Outcome::ReadFault { name } => {
            offer_all(err, &["myria: cannot read ", name.as_str(), "\n"])
        }
        Outcome::WriteFault => offer_all(err, &["myria: cannot write\n"]),
        Outcome::Memory => offer_all(err, &["myria: out of memory\n"]),
        Outcome::NoPlan => offer_all(err, &["myria: no plan ", name, "\n"]),
        Outcome::PlanTooLong => offer_all(err, &["myria: plan too long\n"]),
        Outcome::BadPlan => offer_all(err, &["myria: bad plan\n"]),
        Outcome::PlanWorkers { workers } => tell_workers(err, *workers),
        Outcome::PlanMisfit { statement } => tell_misfit(err, *statement),
    }
}

/// The line of a plan for so many workers, which is another number.
fn tell_workers<E: Sink>(err: &mut E, workers: u32) -> Result<(), SinkFault>
    ensures { Offers (written_of E.Sink err.old err.new) (outcomes.workers_line workers) result }
{
    let mut buffer = Buffer::new();
    offer_all(
        err,
        &["myria: plan is for ", buffer.format(workers), " workers\n"],
    )
}

/// The line of a plan that doesn't fit a statement.
fn tell_misfit<E: Sink>(err: &mut E, statement: u32) -> Result<(), SinkFault>
    ensures { Offers (written_of E.Sink err.old err.new) (outcomes.misfit_line statement) result }
{
    let mut buffer = Buffer::new();
    let number = buffer.format(statement);
    offer_all(err, &["myria: plan does not fit statement ", number, "\n"])
}

/// The line of a fault on a line of the script.
fn tell_line<E: Sink>(err: &mut E, line: u32, words: &str) -> Result<(), SinkFault>
    ensures { Offers (written_of E.Sink err.old err.new)
        (outcomes.lexical_line line words.now) result }
{
    let mut buffer = Buffer::new();
    offer_all(
        err,
        &["myria: line ", buffer.format(line), ": ", words, "\n"],
    )
}

/// The line of a fault of a statement, in two pieces of words.
fn tell_statement<E: Sink>(
    err: &mut E,
    statement: u32,
    words: &str,
    others: &str,
) -> Result<(), SinkFault>
    ensures { Offers (written_of E.Sink err.old err.new)
        (outcomes.statement_line statement (words.now ++ others.now)) result }
{
    let mut buffer = Buffer::new();
    let number = buffer.format(statement);
    offer_all(
        err,
        &["myria: statement ", number, ": ", words, others, "\n"],
    )
}

/// Words in five pieces, some of which may be empty.
type Words<'a> = (&'a str, &'a str, &'a str, &'a str, &'a str);

/// A key in words, in pieces.
fn words_of_key(key: &Key) -> Words<'_>
    ensures { outcomes.joined_words result ≡ key_words key.now }
{
    let name = key.name.as_str();
    if is_loaded(key) {
        ("", "", "", "", name)
    } else {
        (key.user.as_str(), ":", key.program.as_str(), ":", name)
    }
}

/// The line of a missing relation.
fn tell_missing<E: Sink>(err: &mut E, key: &Key) -> Result<(), SinkFault>
    ensures { Offers (written_of E.Sink err.old err.new) (outcomes.missing_line key.now) result }
{
    let (user, colon, program, other, name) = words_of_key(key);
    offer_all(
        err,
        &[
            "myria: no relation ",
            user,
            colon,
            program,
            other,
            name,
            "\n",
        ],
    )
}

/// The line of a fault of a relation's file.
fn tell_fault<E: Sink>(err: &mut E, key: &Key, fault: RelFault) -> Result<(), SinkFault>
    ensures { Offers (written_of E.Sink err.old err.new)
        (outcomes.relation_line key.now (fault_text fault)) result }
{
    let mut first = Buffer::new();
    let mut second = Buffer::new();
    let words = fault_words(fault, &mut first, &mut second);
    tell_relation(err, key, words)
}

/// A fault of a relation's file in words, in pieces.
fn fault_words<'a>(fault: RelFault, first: &'a mut Buffer, second: &'a mut Buffer) -> Words<'a>
    ensures { outcomes.joined_words result ≡ fault_text fault }
{
    match fault {
        RelFault::NoHeader => ("", "", "", "", "no header"),
        RelFault::NotText { nth } => ("", "", "record ", first.format(nth), " is not UTF-8"),
        RelFault::TooManyColumns => ("", "", "", "", "too many columns"),
        RelFault::BadHeader { field } => ("", "", "", "bad header field ", first.format(field)),
        RelFault::FieldCount { nth } => {
            let count = " has a wrong number of fields";
            ("", "", "record ", first.format(nth), count)
        }
        RelFault::BadInt { nth, column } => {
            let (record, column) = (first.format(nth), second.format(column));
            ("record ", record, " column ", column, " is not an int")
        }
        RelFault::BadBool { nth, column } => {
            let (record, column) = (first.format(nth), second.format(column));
            ("record ", record, " column ", column, " is not a boolean")
        }
        RelFault::TooManyRows => ("", "", "", "", "too many rows"),
        RelFault::Memory => ("", "", "", "", "out of memory"),
    }
}

/// The line of a relation, in five pieces of words.
fn tell_relation<E: Sink>(err: &mut E, key: &Key, words: Words<'_>) -> Result<(), SinkFault>
    ensures { Offers (written_of E.Sink err.old err.new)
        (outcomes.relation_line key.now (outcomes.joined_words words.entry)) result }
{
    let (user, colon, program, other, name) = words_of_key(key);
    let (first, second, third, fourth, fifth) = words;
    offer_all(
        err,
        &[
            "myria: relation ",
            user,
            colon,
            program,
            other,
            name,
            ": ",
            first,
            second,
            third,
            fourth,
            fifth,
            "\n",
        ],
    )
}

/// What breaks the token rules, in words.
fn lexical_words(what: LexWhat) -> &'static str
    ensures { result.now ≡ outcomes.lexical_words what }
{
    match what {
        LexWhat::BadChar => "unexpected character",
        LexWhat::OpenString => "string without end",
        LexWhat::NumberTooLarge => "number too large",
    }
}

/// What there are too many of, in words.
fn many_words(what: What) -> &'static str
    ensures { result.now ≡ outcomes.many_words what }
{
    match what {
        What::Statements => "statements",
        What::Tokens => "tokens",
        What::Nesting => "parentheses",
        What::FromItems => "items",
        What::Columns => "columns",
    }
}

/// What is wrong with a statement that isn't typed, in words.
fn kind_words(kind: TypeKind) -> &'static str
    ensures { result.now ≡ kind_text kind }
{
    match kind {
        TypeKind::UnknownRelation => "unknown relation",
        TypeKind::UnknownColumn => "unknown column",
        TypeKind::AmbiguousColumn => "ambiguous column",
        TypeKind::TypeMismatch => "type mismatch",
        TypeKind::Misplaced => "misplaced aggregate",
        TypeKind::Limit => "limit",
        TypeKind::LoadConflict => "load conflict",
    }
}

/// Offers piece after piece, each until the sink has taken it whole.
fn offer_all<S: Sink>(sink: &mut S, pieces: &[&str]) -> Result<(), SinkFault>
    ensures { Offers (written_of S.Sink sink.old sink.new)
        (flat_map (λ p. p.now) pieces.now) result }
{
    match pieces {
        [] => Ok(()),
        [first, others @ ..] => {
            offer(sink, first.as_bytes())?;
            offer_all(sink, others)
        }
    }
}
