//! Relations and their files: reads a CSV file as a relation, and writes a relation's header and
//! rows as records.
//!
//! Stands on `rel_base` for relations, on `csv` for the records of a file, on `memchr` for the
//! ends of fields and on `itoa` for the text of numbers. Of std's threads it uses `map_vec`, in
//! the two calls whose names end in `_in_jobs`.
//!
//! Promises: a file is read as `relation_of_bytes` says, over the list of all its records: its
//! relation, or the fault of the first record that has one; a file without a header is read as
//! `relation_with` says, by the same words; a header and a row are written as `header_record` and
//! `row_record` say, which are the `csv` crate's own text of their fields; a relation that is
//! written so is read back. Not promised: that memory is there.
//!
//! A file without quotes and carriage returns is read where it stands (`plain.rt`), rows of ints
//! alone without a row of their own (`int_rows.rt`), a large file in jobs if the caller asks for
//! them (`jobs.rt`), and any other record by record. Every way to read keeps the same promise.
//!
//! Read `specs/Fields.antt`, `specs/Files.antt`, `specs/RecordTexts.antt` and
//! `specs/RoundTrip.antt`, then `files.rt`.
#![tactic(auto)]

mod faults;
mod fields;
mod files;
mod int_rows;
mod jobs;
mod laws;
mod plain;
mod records;
mod texts;

pub use faults::RelFault;
pub use files::{read_relation, read_relation_in_jobs, read_with, read_with_in_jobs};
pub use laws::{no_definition_gives_memory, written_relation_is_read_back};
pub use texts::{header_text, row_text};
