//! Files: reads the relation of a file.
ghost use Rattle.std.specs.Prelude.{◌≡◌, drop, OnOk};
ghost use Rattle.relation_csv.specs.Files.{IsReadAs, records_of_bytes, relation_of_bytes, relation_with, rows_of_records};
ghost use Rattle.relation_csv.specs.inner.RecordsLeft.{IsSteady, records_left, schema_ahead};

use crate::RelFault;
use crate::fields::{row_of, schema_of};
use crate::jobs::InJobs;
use crate::plain::{InTurn, PlainReader};
use crate::records::{Next, read_next, reader_of, skip_records};
use csv::{Reader, StringRecord};
use rel_base::{Duplicate, MOST_ROWS, Relation, Rows, Schema};
use std::alloc::Global;
use std::thread::Threads;

/// Reads the relation of a file.
///
/// The records are those that the `csv` crate reads by default, save that the first is a record as
/// the others are and that lengths may differ. The first is the header: 1 to 16 fields of text,
/// each a name, a colon and a type, or the name alone of a string column. Each later one is a row
/// of as many fields. An int is a sign or none and then digits, with a value in 64 bits; a boolean
/// is `true` or `false` in any case; every text is a string.
pub fn read_relation(alloc: Global, bytes: &[u8]) -> Result<Relation, RelFault>
    ensures { IsReadAs result (relation_of_bytes bytes.now) }
{
    relation_by(alloc, bytes, &InTurn)
}

/// Reads the relation of a file as `read_relation` does: the lines of a large plain file side by
/// side, in so many jobs.
pub fn read_relation_in_jobs<R: Threads + Sync>(
    rt: &R,
    alloc: Global,
    bytes: &[u8],
    jobs: u32,
) -> Result<Relation, RelFault>
    ensures { IsReadAs result (relation_of_bytes bytes.now) }
{
    relation_by(alloc, bytes, &InJobs { rt, jobs })
}

/// Reads the relation of a file, its rows by this reader if it can.
fn relation_by<P: PlainReader>(alloc: Global, bytes: &[u8], plain: &P) -> Result<Relation, RelFault>
    requires { P.is_ready plain.now }
    ensures { IsReadAs result (relation_of_bytes bytes.now) }
{
    let mut reader = reader_of(alloc, bytes);
    let schema = header_of(alloc, &mut reader)?;
    let rows = rows_behind(alloc, &schema, bytes, 1, plain, &mut reader)?;
    Ok(Relation::new(schema, rows))
}

/// Reads the header of a file, the first of the records that are left.
fn header_of(alloc: Global, reader: &mut Reader<&[u8]>) -> Result<Schema, RelFault>
    requires { IsSteady reader.old }
    ensures schema { IsReadAs result (schema_ahead (records_left reader.old)) }
    ensures steady { OnOk result (IsSteady reader.new) }
    ensures left { OnOk result (records_left reader.new ≡ drop 1 (records_left reader.old)) }
{
    let mut fields = StringRecord::new(alloc);
    match read_next(reader, &mut fields)? {
        Next::Record => schema_of(alloc, &fields),
        Next::NotText => Err(RelFault::NotText { nth: 0 }),
        Next::End => Err(RelFault::NoHeader),
    }
}

/// Reads the relation of a file without a header, under these columns.
///
/// The first `skip` records are passed over unread, and the others are rows, counted from 1. With
/// fewer records there are no rows.
pub fn read_with(
    alloc: Global,
    bytes: &[u8],
    schema: &Schema,
    skip: u64,
) -> Result<Relation, RelFault>
    ensures { IsReadAs result (relation_with bytes.now schema.now skip) }
{
    relation_under(alloc, bytes, schema, skip, &InTurn)
}

/// Reads the relation of a file without a header as `read_with` does: the lines of a large plain
/// file side by side, in so many jobs.
pub fn read_with_in_jobs<R: Threads + Sync>(
    rt: &R,
    alloc: Global,
    bytes: &[u8],
    schema: &Schema,
    skip: u64,
    jobs: u32,
) -> Result<Relation, RelFault>
    ensures { IsReadAs result (relation_with bytes.now schema.now skip) }
{
    relation_under(alloc, bytes, schema, skip, &InJobs { rt, jobs })
}

/// Reads the relation of a file without a header, its rows by this reader if it can.
fn relation_under<P: PlainReader>(
    alloc: Global,
    bytes: &[u8],
    schema: &Schema,
    skip: u64,
    plain: &P,
) -> Result<Relation, RelFault>
    requires { P.is_ready plain.now }
    ensures { IsReadAs result (relation_with bytes.now schema.now skip) }
{
    let schema = schema.copy(alloc)?;
    let mut reader = reader_of(alloc, bytes);
    if !skip_records(alloc, &mut reader, skip)? {
        return Ok(Relation::new(schema, Rows::new(alloc)));
    }
    let rows = rows_behind(alloc, &schema, bytes, skip, plain, &mut reader)?;
    Ok(Relation::new(schema, rows))
}

/// Reads the rows of all records that are left, which are those behind the first `skip` of the
/// file: where they stand, or else record by record.
fn rows_behind<P: PlainReader>(
    alloc: Global,
    schema: &Schema,
    bytes: &[u8],
    skip: u64,
    plain: &P,
    reader: &mut Reader<&[u8]>,
) -> Result<Rows, RelFault>
    requires ready { P.is_ready plain.now }
    requires steady { IsSteady reader.old }
    requires left { records_left reader.old ≡ drop skip (records_of_bytes bytes.now) }
    ensures { IsReadAs result (rows_of_records schema.now (records_left reader.old)) }
{
    match plain.rows(alloc, schema, bytes, skip)? {
        Some(rows) => Ok(rows),
        None => rows_of(alloc, schema, reader, &mut StringRecord::new(alloc)),
    }
}

/// Reads the rows of all records that are left, each record into `fields`. They are shared from the
/// start.
fn rows_of(
    alloc: Global,
    schema: &Schema,
    reader: &mut Reader<&[u8]>,
    fields: &mut StringRecord,
) -> Result<Rows, RelFault>
    requires { IsSteady reader.old }
    ensures { IsReadAs result (rows_of_records schema.now (records_left reader.old)) }
{
    let mut rows = Rows::new(alloc);
    'rows: loop {
        let nth = rows.len() + 1;
        match read_next(reader, fields)? {
            Next::End => {
                rows.freeze(alloc)?;
                return Ok(rows);
            }
            Next::NotText if nth <= MOST_ROWS => return Err(RelFault::NotText { nth }),
            Next::Record if nth <= MOST_ROWS => {
                let row = row_of(alloc, schema, nth, fields)?;
                rows.push(row)?;
            }
            _ => return Err(RelFault::TooManyRows),
        }
    }
}
