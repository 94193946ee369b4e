//! Laws over the definitions alone.
ghost use Rattle.std.specs.Prelude.{◌≡◌, ◌≢◌, ℕ, List, Ok, Err};
ghost use Rattle.rel_base.specs.Relations.{RelationState};
ghost use Rattle.rel_base.specs.declared.relations.Column.{Column};
ghost use Rattle.relation_csv.specs.declared.faults.RelFault.TheVariants as fault;
ghost use Rattle.relation_csv.specs.Files.{relation_of_bytes, relation_with};
ghost use Rattle.relation_csv.specs.RoundTrip.{FitsFile, file_text};

/// Law: each relation that fits a file is read back from the file that is written of it.
pub fn written_relation_is_read_back()
    ensures { (relation : RelationState) → FitsFile relation
        → relation_of_bytes (file_text relation) ≡ Ok relation }
{}

/// Law: what a file comes to is never want of memory.
pub fn no_definition_gives_memory()
    ensures with_header { (bytes : List ℕ) → relation_of_bytes bytes ≢ Err fault.Memory }
    ensures without_header { (bytes : List ℕ) (schema : List Column) (skip : ℕ)
        → relation_with bytes schema skip ≢ Err fault.Memory }
{}
