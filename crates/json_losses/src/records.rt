//! The records of a file, one after another.
ghost use Rattle.std.specs.Prelude.{◌≡◌, IfOk, IsErr, MatchResult};
ghost use Rattle.csv.specs.Records.{fields_of};
ghost use Rattle.csv_io.specs.Load.{file_records};
ghost use Rattle.json_losses.specs.RecordsLeft.{Gives, IsPlain, records_left};

use csv::{ByteRecord, Error, Reader, ReaderBuilder};
use std::alloc::{AllocError, Global};

/// A reader of all records of a file.
pub(crate) fn reader_of<'a>(alloc: Global, bytes: &'a [u8]) -> Reader<&'a [u8]>
    ensures plain { IsPlain result }
    ensures all { records_left result ≡ file_records bytes.now }
{
    ReaderBuilder::new()
        .has_headers(false)
        .flexible(true)
        .from_reader(alloc, bytes)
}

/// Reads the next record, and answers whether there is one.
pub(crate) fn next_record(rdr: &mut Reader<&[u8]>, row: &mut ByteRecord) -> Result<bool, AllocError>
    requires { IsPlain rdr.old }
    ensures plain { IsPlain rdr.new }
    ensures given { IfOk result (λ found. Gives found (records_left rdr.old) (fields_of row.new) (records_left rdr.new)) }
{
    answered(rdr.read_byte_record(row))
}

// What a reader of a slice answered, which fails for memory alone.
fn answered(outcome: Result<bool, Error>) -> Result<bool, AllocError>
    ensures { MatchResult result (λ found. outcome ≡ Ok found) (λ _. IsErr outcome) }
{
    match outcome {
        Ok(found) => Ok(found),
        Err(_) => Err(AllocError),
    }
}
