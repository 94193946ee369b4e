//! Records: reads the records of a file one by one.
ghost use Rattle.std.specs.Prelude.{◌≡◌, IfOk, OnOk, drop, true, if◌then◌else◌, []};
ghost use Rattle.csv.specs.Records.{fields_of};
ghost use Rattle.relation_csv.specs.Files.{records_of_bytes};
ghost use Rattle.relation_csv.specs.inner.RecordsLeft.{IsNext, IsSteady, records_left};

use csv::{ByteRecord, ErrorKind, Reader, ReaderBuilder, StringRecord};
use rel_base::Memory;
use std::alloc::Global;

/// What a reader finds next.
#[derive(Clone, Copy, PartialEq, Eq)]
pub(crate) enum Next {
    /// A record of text.
    Record,
    /// A record that is not text.
    NotText,
    /// No record is left.
    End,
}

/// A reader of all records of a file, which may have any lengths.
pub(crate) fn reader_of(alloc: Global, bytes: &[u8]) -> Reader<&[u8]>
    ensures steady { IsSteady result }
    ensures left { records_left result ≡ records_of_bytes bytes.now }
{
    ReaderBuilder::new()
        .has_headers(false)
        .flexible(true)
        .from_reader(alloc, bytes)
}

/// Reads the next record into `fields`.
///
/// A slice is read without fail and records of any lengths are taken, so want of memory is the one
/// other error.
pub(crate) fn read_next(
    reader: &mut Reader<&[u8]>,
    fields: &mut StringRecord,
) -> Result<Next, Memory>
    requires { IsSteady reader.old }
    ensures steady { OnOk result (IsSteady reader.new) }
    ensures next { IfOk result (λ next. IsNext next (records_left reader.old)
        (fields_of fields.new) (records_left reader.new)) }
{
    match reader.read_record(fields) {
        Ok(true) => Ok(Next::Record),
        Ok(false) => Ok(Next::End),
        Err(error) => match error.kind() {
            ErrorKind::Utf8 { .. } => Ok(Next::NotText),
            _ => Err(Memory),
        },
    }
}

/// Passes over so many records, whatever they hold, and says whether all of them were there.
pub(crate) fn skip_records(
    alloc: Global,
    reader: &mut Reader<&[u8]>,
    count: u64,
) -> Result<bool, Memory>
    requires { IsSteady reader.old }
    ensures steady { IfOk result (λ all. all ≡ true → IsSteady reader.new) }
    ensures left { IfOk result (λ all. drop count (records_left reader.old)
        ≡ (if all then records_left reader.new else [])) }
{
    let mut record = ByteRecord::new(alloc);
    'records: for _ in 0..count {
        match reader.read_byte_record(&mut record) {
            Ok(true) => {}
            Ok(false) => return Ok(false),
            Err(_) => return Err(Memory),
        }
    }
    Ok(true)
}
