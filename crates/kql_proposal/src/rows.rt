//! Whether two files have the same records behind their headers.

ghost use Rattle.std.specs.Prelude.{◌≡◌, Ok, IfOk, IsErr, IsTrue, MatchResult, drop, true};
ghost use Rattle.csv.specs.Records.{fields_of};
ghost use Rattle.csv_io.specs.Load.{file_records};
ghost use Rattle.csv_io.specs.RecordsLeft.{Gives, IsPlain, records_left};
ghost use Rattle.kql_proposal.specs.Pairs.{PairsAs};

use csv::{ByteRecord, Error, Reader, ReaderBuilder};
use std::alloc::{AllocError, Global};

// The next records of two files.
#[derive(Clone, Copy, Debug, PartialEq, Eq)]
enum Pair {
    Same,
    End,
    Other,
}

/// Whether two files have the same records behind their headers.
pub(crate) fn have_same_rows(alloc: Global, a: &[u8], b: &[u8]) -> Result<bool, AllocError>
    ensures { IfOk result (λ same. same ≡ true → drop 1 (file_records a.now) ≡ drop 1 (file_records b.now)) }
{
    let mut left = records_of(alloc, a);
    let mut right = records_of(alloc, b);
    let mut x = ByteRecord::new(alloc);
    let mut y = ByteRecord::new(alloc);
    if !next(&mut left, &mut x)? {
        return Ok(false);
    }
    if !next(&mut right, &mut y)? {
        return Ok(false);
    }
    have_same_rest(&mut left, &mut right, &mut x, &mut y)
}

// All records of a file, none of which is read yet.
fn records_of<'a>(alloc: Global, text: &'a [u8]) -> Reader<&'a [u8]>
    ensures plain { IsPlain result }
    ensures all { records_left result ≡ file_records text.now }
{
    ReaderBuilder::new()
        .has_headers(false)
        .flexible(true)
        .from_reader(alloc, text)
}

// Whether two readers have the same records left.
fn have_same_rest(
    left: &mut Reader<&[u8]>,
    right: &mut Reader<&[u8]>,
    x: &mut ByteRecord,
    y: &mut ByteRecord,
) -> Result<bool, AllocError>
    requires left { IsPlain left.old }
    requires right { IsPlain right.old }
    ensures { IfOk result (λ same. same ≡ true → records_left left.old ≡ records_left right.old) }
{
    for _ in 0..u64::MAX {
        match next_pair(left, right, x, y)? {
            Pair::Same => {}
            Pair::End => return Ok(true),
            Pair::Other => return Ok(false),
        }
    }
    Ok(false)
}

// Reads the next record of two readers.
fn next_pair(
    left: &mut Reader<&[u8]>,
    right: &mut Reader<&[u8]>,
    x: &mut ByteRecord,
    y: &mut ByteRecord,
) -> Result<Pair, AllocError>
    requires left { IsPlain left.old }
    requires right { IsPlain right.old }
    ensures left { IsPlain left.new }
    ensures right { IsPlain right.new }
    ensures pair { IfOk result (λ pair. PairsAs pair (records_left left.old) (records_left right.old) (records_left left.new) (records_left right.new)) }
{
    let found = next(left, x)?;
    let others = next(right, y)?;
    if found && others {
        if have_same_fields(x, y) {
            Ok(Pair::Same)
        } else {
            Ok(Pair::Other)
        }
    } else if found || others {
        Ok(Pair::Other)
    } else {
        Ok(Pair::End)
    }
}

// Reads the next record of a reader, and answers whether there is one.
fn next(rdr: &mut Reader<&[u8]>, row: &mut ByteRecord) -> Result<bool, AllocError>
    requires { IsPlain rdr.old }
    ensures plain { IsPlain rdr.new }
    ensures given { IfOk result (λ found. Gives found (records_left rdr.old) (fields_of row.new) (records_left rdr.new)) }
{
    answered(rdr.read_byte_record(row))
}

// What a reader of a slice answered, which fails for memory alone.
fn answered(outcome: Result<bool, Error>) -> Result<bool, AllocError>
    ensures { MatchResult result (λ found. outcome ≡ Ok found) (λ _. IsErr outcome) }
{
    match outcome {
        Ok(found) => Ok(found),
        Err(_) => Err(AllocError),
    }
}

fn have_same_fields(x: &ByteRecord, y: &ByteRecord) -> bool
    ensures { IsTrue result → fields_of x.now ≡ fields_of y.now }
{
    x == y
}
