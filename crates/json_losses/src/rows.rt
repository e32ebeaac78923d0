//! The count over the rows of a file.
ghost use Rattle.std.specs.Prelude.{◌≡◌, ◌<◌, [], false, IfOk, length, slice_index_or};
ghost use Rattle.std.specs.List.{list_any, sum_by};
ghost use Rattle.csv.specs.Records.{fields_of};
ghost use Rattle.json_losses.specs.Losses.{cell_losses, field_losses, held, losses, row_losses};
ghost use Rattle.json_losses.specs.RecordsLeft.{IsPlain, records_left};

use crate::fields::field;
use crate::header::dynamic_columns;
use crate::json::read_losses;
use crate::records::{next_record, reader_of};
use csv::{ByteRecord, Reader};
use std::alloc::{AllocError, Global};
use std::str;

/// How many numbers of JSON in the cells of a table file's dynamic columns are read as null, since they are no whole
/// numbers in 64 bits; 2^64 - 1 stands for more.
///
/// It is over the records of the file, whether they load or not. Of a file without a dynamic column the header alone is
/// read.
pub fn count_losses(alloc: Global, bytes: &[u8]) -> Result<u64, AllocError>
    ensures count { IfOk result (λ n. n ≡ held (losses bytes.now)) }
{
    let mut rdr = reader_of(alloc, bytes);
    let mut row = ByteRecord::new(alloc);
    if !next_record(&mut rdr, &mut row)? {
        return Ok(0);
    }
    let columns = dynamic_columns(alloc, &row)?;
    if !has_dynamic(columns.as_slice()) {
        return Ok(0);
    }
    rows_losses(alloc, &mut rdr, &mut row, columns.as_slice())
}

// Whether one of the columns is dynamic.
fn has_dynamic(columns: &[bool]) -> bool
    ensures { result ≡ list_any (λ b. b) columns.now }
{
    for column in columns {
        if *column {
            return true;
        }
    }
    false
}

// The count over the records that are left.
fn rows_losses(
    alloc: Global,
    rdr: &mut Reader<&[u8]>,
    row: &mut ByteRecord,
    columns: &[bool],
) -> Result<u64, AllocError>
    requires { IsPlain rdr.old }
    ensures count { IfOk result (λ n. n ≡ held (sum_by (row_losses columns.now) (records_left rdr.old))) }
{
    let mut count: u64 = 0;
    'records: while next_record(rdr, row)? {
        count = count.saturating_add(row_losses(alloc, row, columns)?);
    }
    Ok(count)
}

// The count over the fields of a record.
fn row_losses(alloc: Global, row: &ByteRecord, columns: &[bool]) -> Result<u64, AllocError>
    ensures count { IfOk result (λ n. n ≡ held (row_losses columns.now (fields_of row.now))) }
{
    let mut count: u64 = 0;
    'fields: for j in 0..row.len() {
        count = count.saturating_add(cell_losses(alloc, row, columns, j)?);
    }
    Ok(count)
}

// The count in the field at a place.
#[tactic(auto, unfolding(crate::specs::Losses::cell_losses))]
fn cell_losses(
    alloc: Global,
    row: &ByteRecord,
    columns: &[bool],
    j: usize,
) -> Result<u64, AllocError>
    requires { j < length (fields_of row.now) }
    ensures count { IfOk result (λ n. n ≡ held (cell_losses (slice_index_or columns.now j false) (slice_index_or (fields_of row.now) j []))) }
{
    if j < columns.len() && columns[j] {
        field_losses(alloc, field(row, j))
    } else {
        Ok(0)
    }
}

// The count in a field.
#[tactic(auto, unfolding(crate::specs::Losses::field_losses))]
fn field_losses(alloc: Global, field: &[u8]) -> Result<u64, AllocError>
    ensures count { IfOk result (λ n. n ≡ held (field_losses field.now)) }
{
    match str::from_utf8(field) {
        Ok(text) => read_losses(alloc, text),
        Err(_) => Ok(0),
    }
}
