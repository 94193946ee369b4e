//! The lines of a plan.
ghost use Rattle.std.specs.Prelude.{◌≡◌, ◌++◌, OnOk, OnErr, string_bytes};
ghost use Rattle.algebra.specs.declared.notes.PlanNote.TheVariants as note;
ghost use Rattle.plan_printer.specs.PlanTexts.{columns_text, counts_text, join_word, kind_word};
ghost use Rattle.plan_printer.specs.PlanTexts.{plan_line, plan_text, share_text};

use algebra::{Counts, ItemPlaces, JoinKind, PlanKind, PlanNote, PlanNotes};
use rel_base::Memory;
use std::fmt::Write;

/// Appends the text of a plan, a line for each note. After `Memory` the bytes are as they were.
pub fn print_plan(notes: &PlanNotes, into: &mut Vec<u8>) -> Result<(), Memory>
    ensures ok { OnOk result (into.new.items ≡ into.old.items ++ plan_text notes.now) }
    ensures err { OnErr result (into.new.items ≡ into.old.items) }
{
    let mut text = String::new(*into.allocator());
    for note in notes.as_slice() {
        push_line(note, &mut text)?;
    }
    into.extend_from_slice(text.as_bytes())?;
    Ok(())
}

/// Adds the line of a note, as `-- item 1 rows 200 pushed 1 kept 40`.
fn push_line(note: &PlanNote, text: &mut String) -> Result<(), Memory>
    ensures { OnOk result (string_bytes text.new ≡ string_bytes text.old ++ plan_line note.now) }
{
    match note {
        PlanNote::Statement { number, kind, rows } => {
            let kind = word_of_kind(*kind);
            writeln!(text, "-- plan {number} {kind} rows {rows}")?;
        }
        PlanNote::Item {
            number,
            rows,
            pushed,
            kept,
        } => writeln!(
            text,
            "-- item {number} rows {rows} pushed {pushed} kept {kept}"
        )?,
        PlanNote::Reduced(counts) => push_reduced(counts, text)?,
        PlanNote::ReduceCyclic => text.push_str("-- reduce cyclic\n")?,
        PlanNote::Variable {
            number,
            places,
            share,
        } => push_variable(*number, places, *share, text)?,
        PlanNote::Hc {
            local,
            cells,
            num,
            den,
        } => {
            let local = word_of_join(*local);
            writeln!(
                text,
                "-- shuffle hc join {local} cells {cells} load {num}/{den}"
            )?;
        }
        PlanNote::Rs { local } => {
            let local = word_of_join(*local);
            writeln!(text, "-- shuffle rs join {local}")?;
        }
        PlanNote::Br { local, stays } => {
            let local = word_of_join(*local);
            writeln!(text, "-- shuffle br join {local} stays {stays}")?;
        }
        PlanNote::Group { keys, aggregates } => {
            writeln!(text, "-- group keys {keys} aggregates {aggregates}")?;
        }
    }
    Ok(())
}

/// Adds the line of the rows that are joined, as `-- reduce 2 1 1`.
fn push_reduced(counts: &Counts, text: &mut String) -> Result<(), Memory>
    ensures { OnOk result (string_bytes text.new
        ≡ string_bytes text.old ++ plan_line (note.Reduced counts.now)) }
{
    text.push_str("-- reduce")?;
    push_counts(counts, text)?;
    text.push_str("\n")?;
    Ok(())
}

/// Adds numbers of rows, each behind a space, as ` 2 1 1`.
fn push_counts(counts: &Counts, text: &mut String) -> Result<(), Memory>
    ensures { OnOk result
        (string_bytes text.new ≡ string_bytes text.old ++ counts_text counts.now) }
{
    for count in counts.as_slice() {
        write!(text, " {count}")?;
    }
    Ok(())
}

/// Adds the line of a variable, as `-- variable 1 1.$0 3.$1 share 2`.
fn push_variable(
    number: u32,
    places: &ItemPlaces,
    share: Option<u32>,
    text: &mut String,
) -> Result<(), Memory>
    ensures { OnOk result (string_bytes text.new
        ≡ string_bytes text.old ++ plan_line (note.Variable number places.now share)) }
{
    write!(text, "-- variable {number}")?;
    push_columns(places, text)?;
    push_share(share, text)?;
    text.push_str("\n")?;
    Ok(())
}

/// Adds the columns of a variable, each behind a space, as ` 1.$0 3.$1`.
fn push_columns(places: &ItemPlaces, text: &mut String) -> Result<(), Memory>
    ensures { OnOk result
        (string_bytes text.new ≡ string_bytes text.old ++ columns_text places.now) }
{
    for (item, place) in places.as_slice() {
        write!(text, " {item}.${place}")?;
    }
    Ok(())
}

/// Adds the share of a variable, as ` share 2`; nothing where it has none.
fn push_share(share: Option<u32>, text: &mut String) -> Result<(), Memory>
    ensures { OnOk result (string_bytes text.new ≡ string_bytes text.old ++ share_text share) }
{
    if let Some(share) = share {
        write!(text, " share {share}")?;
    }
    Ok(())
}

/// The word for a kind of statement.
fn word_of_kind(kind: PlanKind) -> &'static str
    ensures { result.now ≡ kind_word kind }
{
    match kind {
        PlanKind::Copy => "copy",
        PlanKind::Empty => "empty",
        PlanKind::Distinct => "distinct",
        PlanKind::UnionAll => "unionall",
        PlanKind::Diff => "diff",
        PlanKind::From => "from",
    }
}

/// The word for a way to join at a worker.
fn word_of_join(local: JoinKind) -> &'static str
    ensures { result.now ≡ join_word local }
{
    match local {
        JoinKind::Tj => "tj",
        JoinKind::Hj => "hj",
    }
}
