//! Groups: rows in the order of their keys, read run by run.
ghost use Rattle.std.specs.Prelude.{◌≡◌, ◌<◌, ◌^◌, ◌++◌, IsTrue, map, length, OnOk, IfOk, IfErr, IfSome, IsSorted, true, All};
ghost use Rattle.std.specs.List.{list_all};
ghost use Rattle.rel_base.specs.Bags.{SameBag};
ghost use Rattle.rel_base.specs.Values.{row_order};
ghost use Rattle.myrial_ast.specs.Groups.{groups, sums_fit, row_fits};
ghost use Rattle.myrial_ast.specs.Combinations.{emitted};
ghost use Rattle.myrial_ast.specs.CandidateFaults.{all_fit};
ghost use Rattle.myrial_ast.specs.ScalarTrees.{scalar_tree_of};
ghost use Rattle.myrial_ast.specs.Partials.{partial_kinds};
ghost use Rattle.bag_laws.specs.PartialLaws.{AreGrouped};
ghost use Rattle.algebra.specs.Trees.{kind_of_emit};
ghost use Rattle.packed_rows.specs.Emitted.{all_emitted};
ghost use Rattle.aggregate_ops.specs.Columns.{key_places, key_at, Overflows};
ghost use Rattle.aggregate_ops.specs.Picks.{are_picks};
ghost use Rattle.aggregate_ops.specs.inner.Reading.{rows_of};
ghost use Rattle.aggregate_ops.specs.Forms.{grouped_kinds, results, results_fit};

use crate::AggFault;
use crate::group_rows::{Form, added};
use crate::key_runs::{are_in_order, run_length};
use crate::keys::rows_by_key;
use crate::picking::picked_rows;
use crate::rows_of_groups::GroupedRows;
use algebra::{EmitKind, EmitKinds};
use myrial_ast::{AggOp, Scalars};
use packed_rows::{
    Emits, ScannedColumn, guessed_columns, key_columns, packed_columns, scanned_columns,
    sorted_words,
};
use rel_base::{Memory, Places, Row, Rows};
use std::alloc::Global;

/// Adds how the columns of partial rows are grouped again: counts are added, and a sum is two
/// columns.
fn put_kinds(kinds: &[EmitKind], into: &mut Vec<EmitKind>) -> Result<(), Memory>
    ensures { OnOk result (map kind_of_emit into.new.items
        ≡ map kind_of_emit into.old.items ++ partial_kinds (map kind_of_emit kinds.now)) }
{
    match kinds {
        [] => Ok(()),
        [EmitKind::Agg(AggOp::Sum), kinds @ ..] => {
            into.push(EmitKind::Agg(AggOp::Sum))?;
            into.push(EmitKind::Agg(AggOp::Sum))?;
            put_kinds(kinds, into)
        }
        [kind, kinds @ ..] => {
            into.push(added(*kind))?;
            put_kinds(kinds, into)
        }
    }
}

/// How the columns of partial rows are grouped again.
fn partial_kinds(alloc: Global, kinds: &[EmitKind]) -> Result<Vec<EmitKind>, Memory>
    ensures { IfOk result (λ made. map kind_of_emit made.items
        ≡ partial_kinds (map kind_of_emit kinds.now)) }
{
    let mut made = Vec::with_capacity(alloc, kinds.len())?;
    put_kinds(kinds, &mut made)?;
    Ok(made)
}

/// The places of what rows are grouped by; there is no memory where a place is no `u32`.
fn key_places(alloc: Global, kinds: &[EmitKind]) -> Result<Places, Memory>
    ensures { IfOk result (λ made. made ≡ key_places (map kind_of_emit kinds.now)) }
{
    if kinds.len() > u32::MAX as usize {
        return Err(Memory);
    }
    let mut places = Places::new(alloc);
    for (place, kind) in kinds.iter().enumerate() {
        if matches!(kind, EmitKind::Key) {
            places.push(place as u32)?;
        }
    }
    Ok(places)
}

/// The places of what partial rows are grouped by; there is no memory where a place is no `u32`.
pub fn partial_places(alloc: Global, kinds: &[EmitKind]) -> Result<Places, Memory>
    ensures { IfOk result (λ made. made ≡ key_places (partial_kinds (map kind_of_emit kinds.now))) }
{
    let kinds = partial_kinds(alloc, kinds)?;
    key_places(alloc, &kinds)
}

/// The places of what rows are grouped by.
fn places_for(alloc: Global, form: Form, kinds: &EmitKinds) -> Result<Places, Memory>
    ensures { IfOk result (λ made. made
        ≡ key_places (grouped_kinds form (map kind_of_emit kinds.now))) }
{
    match form {
        Form::Whole => key_places(alloc, kinds.as_slice()),
        Form::Split => key_places(alloc, kinds.as_slice()),
        Form::Merged => partial_places(alloc, kinds.as_slice()),
    }
}

/// What is made of each run of equal keys. One row is filled again and again, and keeps its memory
/// from run to run.
fn rows_of_runs(
    alloc: Global,
    form: Form,
    kinds: &EmitKinds,
    places: &[u32],
    ordered: GroupedRows<'_>,
) -> Result<Rows, AggFault>
    requires places { places.now ≡ key_places (grouped_kinds form (map kind_of_emit kinds.now)) }
    requires width { AreGrouped (grouped_kinds form (map kind_of_emit kinds.now))
        (rows_of ordered) }
    requires ascending { IsSorted row_order (map (key_at places.now) (rows_of ordered)) }
    requires few { length (rows_of ordered) < 2 ^ 32 }
    ensures rows { IfOk result (λ made. made
        ≡ results form (map kind_of_emit kinds.now) (rows_of ordered.entry)) }
    ensures fits { OnOk result (results_fit form (map kind_of_emit kinds.now) (rows_of ordered.entry)
        ≡ true) }
    ensures fault { IfErr result (λ fault. Overflows fault
        (results_fit form (map kind_of_emit kinds.now) (rows_of ordered.entry))) }
{
    let mut made = Rows::new(alloc);
    let mut row = Row::with_capacity(alloc, kinds.len())?;
    let mut done = 0;
    while done < ordered.len() {
        let left = ordered.behind(done);
        let count = run_length(places, left);
        match form.put_row(alloc, kinds, left.front(count), &mut row) {
            Ok(()) => made.push_from(&mut row)?,
            Err(fault) => return Err(fault),
        }
        done += count;
    }
    made.freeze(alloc)?;
    Ok(made)
}

/// What is made of each group of what rows emit, in the order of the keys, where that is packed in
/// words.
fn grouped_words(
    alloc: Global,
    form: Form,
    emits: Emits<'_>,
    rows: &Rows,
    kinds: &EmitKinds,
    places: &[u32],
    scanned: &[ScannedColumn],
) -> Result<Option<Rows>, AggFault>
    requires places { places.now ≡ key_places (grouped_kinds form (map kind_of_emit kinds.now)) }
    requires width { AreGrouped (grouped_kinds form (map kind_of_emit kinds.now))
        (all_emitted emits rows.now) }
    ensures bag { IfOk result (λ found. IfSome found (λ made. SameBag
        (results form (map kind_of_emit kinds.now) (all_emitted emits.entry rows.now)) made)) }
    ensures fits { IfOk result (λ found. IfSome found (λ made.
        results_fit form (map kind_of_emit kinds.now) (all_emitted emits.entry rows.now) ≡ true)) }
    ensures numbers { IfOk result (λ found. IfSome found (λ made.
        All (λ row. row_fits row ≡ true) (all_emitted emits.entry rows.now))) }
    ensures fault { IfErr result (λ fault. Overflows fault
        (results_fit form (map kind_of_emit kinds.now) (all_emitted emits.entry rows.now))) }
    ensures few { OnOk result (length rows.now < 2 ^ 32) }
{
    let columns = packed_columns(alloc, scanned, places)?;
    let Some(words) = sorted_words(alloc, emits, rows, &columns)? else {
        return Ok(None);
    };
    let packed = GroupedRows::packed(&words, &columns);
    if !are_in_order(places, packed) {
        return Ok(None);
    }
    match rows_of_runs(alloc, form, kinds, places, packed) {
        Ok(made) => Ok(Some(made)),
        Err(fault) => Err(fault),
    }
}

/// What is made of each group of rows, which are lent, in the order of the keys.
fn grouped_rows(
    alloc: Global,
    form: Form,
    rows: &Rows,
    kinds: &EmitKinds,
    places: &[u32],
    scanned: &[ScannedColumn],
) -> Result<Rows, AggFault>
    requires places { places.now ≡ key_places (grouped_kinds form (map kind_of_emit kinds.now)) }
    requires width { AreGrouped (grouped_kinds form (map kind_of_emit kinds.now)) rows.now }
    requires few { length rows.now < 2 ^ 32 }
    ensures bag { IfOk result (λ made. SameBag
        (results form (map kind_of_emit kinds.now) rows.now) made) }
    ensures fits { OnOk result (results_fit form (map kind_of_emit kinds.now) rows.now ≡ true) }
    ensures fault { IfErr result (λ fault. Overflows fault
        (results_fit form (map kind_of_emit kinds.now) rows.now)) }
{
    let columns = key_columns(alloc, scanned, places)?;
    let lent = rows_by_key(alloc, rows, places, &columns)?;
    let ordered = GroupedRows::lent(&lent);
    rows_of_runs(alloc, form, kinds, places, ordered)
}

/// What is made of each group of rows, in the order of the keys.
pub fn grouped(alloc: Global, form: Form, rows: &Rows, kinds: &EmitKinds) -> Result<Rows, AggFault>
    requires { AreGrouped (grouped_kinds form (map kind_of_emit kinds.now)) rows.now }
    ensures bag { IfOk result (λ made. SameBag
        (results form (map kind_of_emit kinds.now) rows.now) made) }
    ensures fits { OnOk result (results_fit form (map kind_of_emit kinds.now) rows.now ≡ true) }
    ensures fault { IfErr result (λ fault. Overflows fault
        (results_fit form (map kind_of_emit kinds.now) rows.now)) }
{
    let places = places_for(alloc, form, kinds)?;
    let places = places.as_slice();
    let guessed = guessed_columns(alloc, Emits::Whole, rows, &Rows::new(alloc))?;
    if let Some(made) = grouped_words(alloc, form, Emits::Whole, rows, kinds, places, &guessed)? {
        return Ok(made);
    }
    let scanned = scanned_columns(alloc, Emits::Whole, rows, &Rows::new(alloc))?;
    match grouped_words(alloc, form, Emits::Whole, rows, kinds, places, &scanned)? {
        Some(made) => Ok(made),
        None => grouped_rows(alloc, form, rows, kinds, places, &scanned),
    }
}

/// What is made of each group of what rows emit by picks, in the order of the keys. Only where that
/// can't be packed in words are there rows of it.
pub fn grouped_picks(
    alloc: Global,
    form: Form,
    rows: &Rows,
    picks: &Scalars,
    kinds: &EmitKinds,
) -> Result<Rows, AggFault>
    requires picks { IsTrue (are_picks (map scalar_tree_of picks.now)) }
    requires width { AreGrouped (grouped_kinds form (map kind_of_emit kinds.now))
        (map (emitted (map scalar_tree_of picks.now)) rows.now) }
    ensures bag { IfOk result (λ made. SameBag (results form (map kind_of_emit kinds.now)
        (map (emitted (map scalar_tree_of picks.now)) rows.now)) made) }
    ensures numbers { OnOk result
        (list_all (all_fit (map scalar_tree_of picks.now)) rows.now ≡ true) }
    ensures fault { IfErr result (λ fault. Overflows fault (results_fit form
        (map kind_of_emit kinds.now) (map (emitted (map scalar_tree_of picks.now)) rows.now))) }
{
    let places = places_for(alloc, form, kinds)?;
    let places = places.as_slice();
    let emits = Emits::Picked(picks.as_slice());
    let guessed = guessed_columns(alloc, emits, rows, &Rows::new(alloc))?;
    if let Some(made) = grouped_words(alloc, form, emits, rows, kinds, places, &guessed)? {
        return Ok(made);
    }
    let scanned = scanned_columns(alloc, emits, rows, &Rows::new(alloc))?;
    if let Some(made) = grouped_words(alloc, form, emits, rows, kinds, places, &scanned)? {
        return Ok(made);
    }
    let listed = picked_rows(alloc, picks, rows)?;
    grouped_rows(alloc, form, &listed, kinds, places, &scanned)
}

/// A row for each group of the rows, in the order of their keys: what rows are grouped by, and the
/// aggregates of the rest.
///
/// No group is left out, and rows fall together where their keys are equal, whatever their codes
/// are. A sum may leave 64 bits on the way.
pub fn group(alloc: Global, rows: &Rows, kinds: &EmitKinds) -> Result<Rows, AggFault>
    requires { AreGrouped (map kind_of_emit kinds.now) rows.now }
    ensures bag { IfOk result (λ made. SameBag
        (groups (map kind_of_emit kinds.now) rows.now) made) }
    ensures fits { OnOk result (sums_fit (map kind_of_emit kinds.now) rows.now ≡ true) }
    ensures fault { IfErr result (λ fault. Overflows fault
        (sums_fit (map kind_of_emit kinds.now) rows.now)) }
{
    grouped(alloc, Form::Whole, rows, kinds)
}
