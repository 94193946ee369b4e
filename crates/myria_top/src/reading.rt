//! Reads the script and the relations that it needs.
ghost use Rattle.std.specs.Prelude.{◌≡◌, ◌≢◌, ◌≤◌, ◌<◌, ◌^◌, ◌-◌, ◌++◌, ◌∷◌, [], ◌⊎◌};
ghost use Rattle.std.specs.Prelude.{false, length, All, AllPairs, Err, IfOk, IfErr, IsTrue, OnOk};
ghost use Rattle.rel_base.specs.Keys.{holds_key, same_key};
ghost use Rattle.rel_base.specs.Relations.{HasTypes};
ghost use Rattle.myria_top.specs.Scripts.{ScriptComesTo, TextComesTo, trees_read};
ghost use Rattle.myria_top.specs.inner.Working.{IsOfText, IsOfScript, IsOfKey, HasFirstBad};
ghost use Rattle.myrial_types.specs.Fetching.{has_form};
ghost use Rattle.relation_csv.specs.Files.{IsReadAs};
ghost use Rattle.rel_io.specs.Shelves.{HaveNotFallen, counts_of};
ghost use Rattle.myria_top.specs.EachFile.{MayBeGood};
ghost use Rattle.myria_top.specs.FileNames.{file_name_of};
ghost use Rattle.rel_io.specs.Outside.{IsGiven};
ghost use Rattle.myria_top.specs.Reading as spec;
ghost use Rattle.myria_top.specs.Runs.{files_verdict, relation_read, relation_verdict};
ghost use Rattle.myria_top.specs.Runs.{IsFetchedBy, IsFileOf};

use crate::Outcome;
use crate::file_names::file_name;
use myrial_ast::{LoadForm, Script};
use myrial_lexer::{LexFault, lex};
use myrial_parser::{ParseFault, parse};
use myrial_types::{Fetch, Fetches};
use rel_base::{
    Duplicate, Files, Key, MOST_RELATION_BYTES, MOST_SCRIPT_BYTES, Memory, Relation, Text,
};
use rel_io::{Shelf, ShelfFault};
use relation_csv::{RelFault, read_relation_in_jobs, read_with_in_jobs};
use std::alloc::Global;
use std::thread::Threads;

/// The script of this name.
pub fn read_script<F: Shelf>(alloc: Global, shelf: &mut F, name: &Text) -> Result<Script, Outcome>
    ensures read { spec.ReadsBy (ScriptComesTo (F.content shelf.old name.now))
        (counts_of F.Shelf shelf.old shelf.new)
        (λ asked. asked ≡ name.now) (trees_read result) }
    ensures kind { IfErr result IsOfScript }
    ensures part { result ≢ Err Outcome.Usage }
    ensures content { F.content shelf.new ≡ F.content shelf.old }
{
    let most = MOST_SCRIPT_BYTES as u64 + 1;
    let bytes = match fetched(alloc, shelf, name.as_str(), most) {
        Ok(bytes) => bytes,
        Err(ShelfFault::Absent) => return Err(Outcome::NoScript),
        Err(ShelfFault::Failed) => return Err(read_fault(alloc, name.as_str())),
        Err(ShelfFault::Memory) => return Err(Outcome::Memory),
    };
    if bytes.len() > MOST_SCRIPT_BYTES {
        return Err(Outcome::ScriptTooLong);
    }
    script_of_text(alloc, &bytes)
}

/// The script of a text that is short enough.
pub fn script_of_text(alloc: Global, bytes: &[u8]) -> Result<Script, Outcome>
    requires { length bytes.now ≤ 65536 }
    ensures agrees { spec.AgreesBy (TextComesTo bytes.now) (trees_read result) }
    ensures kind { IfErr result IsOfText }
{
    let tokens = match lex(alloc, bytes) {
        Ok(tokens) => tokens,
        Err(LexFault::NotText) => return Err(Outcome::ScriptNotText),
        Err(LexFault::At { line, what }) => return Err(Outcome::Lex { line, what }),
        Err(LexFault::Memory) => return Err(Outcome::Memory),
    };
    match parse(alloc, &tokens, bytes) {
        Ok(script) => Ok(script),
        Err(ParseFault::Syntax { statement }) => Err(Outcome::Syntax { statement }),
        Err(ParseFault::TooMany { statement, what }) => Err(Outcome::TooMany { statement, what }),
        Err(ParseFault::Memory) => Err(Outcome::Memory),
    }
}

/// The relations of these files, each read wholly before the next, and a long one in so many jobs.
pub fn read_files<R: Threads + Sync, F: Shelf>(
    rt: &R,
    alloc: Global,
    shelf: &mut F,
    fetches: &Fetches,
    jobs: u32,
) -> Result<Files, Outcome>
    requires { AllPairs (λ f g. same_key f.key g.key ≡ false) fetches.now }
    ensures read { spec.ReadsStep (files_verdict (F.content shelf.old) fetches.now)
        (counts_of F.Shelf shelf.old shelf.new)
        (IsFileOf fetches.now) result }
    ensures good { OnOk result (All (MayBeGood (F.content shelf.old)) fetches.now) }
    ensures bad { IfErr result (HasFirstBad (F.content shelf.old) fetches.now) }
    ensures formed { IfOk result (All (IsFetchedBy fetches.now)) }
    ensures part { result ≢ Err Outcome.Usage }
    ensures content { F.content shelf.new ≡ F.content shelf.old }
{
    let mut files = Files::new(alloc);
    for fetch in fetches.as_slice() {
        let relation = match read_fetched(rt, alloc, shelf, fetch, jobs) {
            Ok(relation) => relation,
            Err(refusal) => return Err(refusal),
        };
        if let Err(refusal) = add_file(alloc, &mut files, &fetch.key, relation) {
            return Err(Outcome::from(refusal));
        }
    }
    Ok(files)
}

/// Adds the relation of a key.
fn add_file(alloc: Global, files: &mut Files, key: &Key, relation: Relation) -> Result<(), Memory>
    requires room { length files.old < 2 ^ 32 - 1 }
    requires new_key { holds_key files.old key.now ≡ false }
    ensures { OnOk result (files.new ≡ files.old ++ (key.now, relation) ∷ []) }
{
    let key = key.copy(alloc)?;
    files.push((key, relation))
}

/// The relation of this file, which is read in so many jobs where it is long.
pub fn read_fetched<R: Threads + Sync, F: Shelf>(
    rt: &R,
    alloc: Global,
    shelf: &mut F,
    fetch: &Fetch,
    jobs: u32,
) -> Result<Relation, Outcome>
    ensures read { spec.ReadsStep
        (relation_verdict fetch.now (F.content shelf.old (file_name_of fetch.now.key)))
        (counts_of F.Shelf shelf.old shelf.new)
        (λ asked. asked ≡ file_name_of fetch.now.key) result }
    ensures formed { IfOk result (λ relation. IsTrue (has_form fetch.now.form relation)) }
    ensures typed { IfOk result (λ relation. All (HasTypes relation.schema) relation.rows) }
    ensures kind { IfErr result (IsOfKey fetch.now.key) }
    ensures part { result ≢ Err Outcome.Usage }
    ensures content { F.content shelf.new ≡ F.content shelf.old }
{
    let key = &fetch.key;
    let name = match file_name(alloc, key) {
        Ok(name) => name,
        Err(_) => return Err(Outcome::Memory),
    };
    let most = MOST_RELATION_BYTES as u64 + 1;
    let file = match fetched(alloc, shelf, name.as_str(), most) {
        Ok(file) => file,
        Err(ShelfFault::Absent) => return Err(no_relation(alloc, key)),
        Err(ShelfFault::Failed) => return Err(read_fault(alloc, name.as_str())),
        Err(ShelfFault::Memory) => return Err(Outcome::Memory),
    };
    if file.len() > MOST_RELATION_BYTES {
        return Err(too_long(alloc, key));
    }
    match relation_of(rt, alloc, &file, &fetch.form, jobs) {
        Ok(relation) => Ok(relation),
        Err(fault) => Err(bad_relation(alloc, key, fault)),
    }
}

/// The relation of the bytes of a file: a loaded file is read by its form, and any other by its
/// header.
fn relation_of<R: Threads + Sync>(
    rt: &R,
    alloc: Global,
    bytes: &[u8],
    form: &Option<LoadForm>,
    jobs: u32,
) -> Result<Relation, RelFault>
    ensures read { IsReadAs result (relation_read form.now bytes.now) }
    ensures typed { IfOk result (λ relation. All (HasTypes relation.schema) relation.rows) }
{
    match form {
        None => read_relation_in_jobs(rt, alloc, bytes, jobs),
        Some(form) => read_with_in_jobs(rt, alloc, bytes, &form.schema, form.skip, jobs),
    }
}

/// The answer to a file of a relation that is too long, or of memory where the key can't be kept.
fn too_long(alloc: Global, key: &Key) -> Outcome
    ensures { (result ≡ Outcome.RelTooLong key.now) ⊎ (result ≡ Outcome.Memory) }
{
    match key.copy(alloc) {
        Ok(key) => Outcome::RelTooLong { key },
        Err(_) => Outcome::Memory,
    }
}

/// The answer to a file that is no relation, or of memory where it was refused or the key can't be
/// kept.
fn bad_relation(alloc: Global, key: &Key, fault: RelFault) -> Outcome
    ensures { ((fault ≢ RelFault.Memory) × (result ≡ Outcome.BadRelation key.now fault))
        ⊎ (result ≡ Outcome.Memory) }
{
    if fault == RelFault::Memory {
        return Outcome::Memory;
    }
    match key.copy(alloc) {
        Ok(key) => Outcome::BadRelation { key, fault },
        Err(_) => Outcome::Memory,
    }
}

/// The first `most` bytes of a file, or all of a shorter one.
pub(crate) fn fetched<F: Shelf>(
    alloc: Global,
    shelf: &mut F,
    name: &str,
    most: u64,
) -> Result<Vec<u8>, ShelfFault>
    ensures ok { IfOk result (λ bytes. IsGiven (F.content shelf.old name.now) most bytes.items) }
    ensures refused { IfErr result (spec.HasFetchCause (counts_of F.Shelf shelf.old shelf.new)
        (F.content shelf.old name.now)) }
    ensures content { F.content shelf.new ≡ F.content shelf.old }
    ensures kept { HaveNotFallen (counts_of F.Shelf shelf.old shelf.new) }
{
    let mut bytes = Vec::new(alloc);
    shelf.fetch(name, most, &mut bytes)?;
    Ok(bytes)
}

/// The answer to a fault of the shelf, or of memory where the name can't be kept.
pub(crate) fn read_fault(alloc: Global, name: &str) -> Outcome
    ensures { (result ≡ Outcome.ReadFault name.now) ⊎ (result ≡ Outcome.Memory) }
{
    match Text::of(alloc, name) {
        Ok(name) => Outcome::ReadFault { name },
        Err(_) => Outcome::Memory,
    }
}

/// The answer to a missing relation, or of memory where the key can't be kept.
fn no_relation(alloc: Global, key: &Key) -> Outcome
    ensures { (result ≡ Outcome.NoRelation key.now) ⊎ (result ≡ Outcome.Memory) }
{
    match key.copy(alloc) {
        Ok(key) => Outcome::NoRelation { key },
        Err(_) => Outcome::Memory,
    }
}
