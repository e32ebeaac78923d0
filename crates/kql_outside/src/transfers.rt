ghost use Rattle.std.specs.Prelude.{◌≡◌, ◌≢◌, ◌<◌, ◌≤◌, ◌+◌, [], length, take, drop, vec_len, IfOk, IfErr, IfSome, OnOk, OnErr};
ghost use Rattle.kql_outside.specs.Calls.{StopsAtFault, StopsAtReadFault, noted};
ghost use Rattle.kql_outside.specs.Causes.{HasCause, Rose};
ghost use Rattle.kql_outside.specs.Told.{appended, prepended, dropped, reduced, IsCutShort, IsPartRead};

use crate::outside::{Failed, Shelf, Sink};
use std::alloc::{AllocError, Global};

/// Writes all the bytes. After a failure the sink holds some of them, and not all.
pub fn write_all<S: Sink>(sink: &mut S, bytes: &[u8]) -> Result<(), Failed>
    ensures cause { HasCause (S.faults sink.old) (S.faults sink.new) result }
    ensures stops { StopsAtFault (S.calls sink.old) (S.calls sink.new) result }
    ensures bytes { OnOk result (S.written sink.new ≡ appended (S.written sink.old) bytes.now) }
    ensures room { OnOk result (S.room sink.new ≡ reduced (S.room sink.old) (length bytes.now)) }
    ensures cut { OnErr result (IsCutShort (S.written sink.old) (S.written sink.new) bytes.now) }
    ensures full { OnErr result (IfSome (S.room sink.old) (λ left. left < length bytes.now)) }
{
    let mut at = 0;
    while at < bytes.len() {
        let rest = &bytes[at..];
        at += sink.write(rest)?;
    }
    Ok(())
}

/// Why a file could not be read.
#[derive(Clone, Copy, Debug, PartialEq, Eq)]
pub enum ReadError {
    /// A call of the shelf failed.
    Failed,
    /// There was no memory for the bytes.
    OutOfMemory,
}

impl From<Failed> for ReadError {
    ghost use Rattle.std.specs.Prelude.{◌≡◌};
    ghost use Rattle.kql_outside.specs.declared.transfers.ReadError.TheVariants as read_error;

    ghost from_gives = { λ _ e. e ≡ read_error.Failed };

    fn from(_error: Failed) -> ReadError {
        ReadError::Failed
    }
}

impl From<AllocError> for ReadError {
    ghost use Rattle.std.specs.Prelude.{◌≡◌};
    ghost use Rattle.kql_outside.specs.declared.transfers.ReadError.TheVariants as read_error;

    ghost from_gives = { λ _ e. e ≡ read_error.OutOfMemory };

    fn from(_error: AllocError) -> ReadError {
        ReadError::OutOfMemory
    }
}

// How many bytes are asked of a shelf at once.
const PIECE: usize = 262_144;

/// Reads what is left of the started file, to its end or until there are `limit` bytes. After an error the bytes
/// that were read are lost, and the shelf stands behind them.
pub fn read_up_to<F: Shelf>(
    alloc: Global,
    shelf: &mut F,
    limit: usize,
) -> Result<Vec<u8>, ReadError>
    ensures files { F.files shelf.new ≡ F.files shelf.old }
    ensures later { F.faults shelf.old ≤ F.faults shelf.new }
    ensures failed { result ≡ Err ReadError.Failed → Rose (F.faults shelf.old) (F.faults shelf.new) }
    ensures stops { StopsAtReadFault (F.calls shelf.old) (F.calls shelf.new) result }
    ensures starts { F.starts shelf.new ≡ F.starts shelf.old }

    ensures within { IfOk result (λ bytes. vec_len bytes ≤ limit) }
    ensures bytes { IfOk result (λ bytes.
        IfSome (F.rest shelf.old) (λ left. bytes.items ≡ take limit left)) }
    ensures rest { OnOk result (F.rest shelf.new ≡ dropped limit (F.rest shelf.old)) }
    ensures part { OnErr result (IsPartRead (F.rest shelf.old) (F.rest shelf.new) limit) }
{
    let mut bytes = Vec::new(alloc);
    let filled = fill(shelf, &mut bytes, limit)?;
    bytes.truncate(filled);
    Ok(bytes)
}

// Reads into the front of `bytes`, and answers how many bytes of it are filled.
fn fill<F: Shelf>(shelf: &mut F, bytes: &mut Vec<u8>, limit: usize) -> Result<usize, ReadError>
    requires { vec_len bytes.old ≤ limit }
    ensures files { F.files shelf.new ≡ F.files shelf.old }
    ensures later { F.faults shelf.old ≤ F.faults shelf.new }
    ensures failed { result ≡ Err ReadError.Failed → Rose (F.faults shelf.old) (F.faults shelf.new) }
    ensures stops { StopsAtReadFault (F.calls shelf.old) (F.calls shelf.new) result }
    ensures starts { F.starts shelf.new ≡ F.starts shelf.old }

    ensures within { IfOk result (λ filled. filled ≤ vec_len bytes.new) }
    ensures bounded { IfOk result (λ filled. filled ≤ limit) }
    ensures bytes { IfOk result (λ filled.
        F.rest shelf.old ≡ prepended (take filled bytes.new.items) (F.rest shelf.new)) }
    ensures end { IfOk result (λ filled.
        filled ≢ limit → IfSome (F.rest shelf.new) (λ left. left ≡ [])) }
    ensures part { OnErr result (IsPartRead (F.rest shelf.old) (F.rest shelf.new) limit) }
{
    let mut filled = 0;
    while filled < limit {
        let count = read_piece(shelf, bytes, filled, limit)?;
        if count == 0 {
            return Ok(filled);
        }
        filled += count;
    }
    Ok(filled)
}

// One read into `bytes` behind what is filled. Room is made first, so that no byte is lost without memory.
fn read_piece<F: Shelf>(
    shelf: &mut F,
    bytes: &mut Vec<u8>,
    filled: usize,
    limit: usize,
) -> Result<usize, ReadError>
    requires below { filled < limit }
    requires within { filled ≤ vec_len bytes.old }
    requires bounded { vec_len bytes.old ≤ limit }
    ensures files { F.files shelf.new ≡ F.files shelf.old }
    ensures later { F.faults shelf.old ≤ F.faults shelf.new }
    ensures failed { result ≡ Err ReadError.Failed → Rose (F.faults shelf.old) (F.faults shelf.new) }
    ensures stops { StopsAtReadFault (F.calls shelf.old) (F.calls shelf.new) result }
    ensures starts { F.starts shelf.new ≡ F.starts shelf.old }

    ensures bounded { vec_len bytes.new ≤ limit }
    ensures front { take filled bytes.new.items ≡ take filled bytes.old.items }
    ensures fits { IfOk result (λ count. filled + count ≤ vec_len bytes.new) }
    ensures bytes { IfOk result (λ count.
        F.rest shelf.old ≡ prepended (take count (drop filled bytes.new.items)) (F.rest shelf.new)) }
    ensures end { IfOk result (λ count. count ≡ 0 → IfSome (F.rest shelf.new) (λ left. left ≡ [])) }
    ensures kept { OnErr result (F.rest shelf.new ≡ F.rest shelf.old) }
{
    make_room(bytes, filled, limit)?;
    let count = read_at(shelf, bytes.as_mut_slice(), filled)?;
    Ok(count)
}

// Makes `bytes` longer than what is filled.
fn make_room(bytes: &mut Vec<u8>, filled: usize, limit: usize) -> Result<(), AllocError>
    requires below { filled < limit }
    requires within { filled ≤ vec_len bytes.old }
    requires bounded { vec_len bytes.old ≤ limit }
    ensures room { OnOk result (filled < vec_len bytes.new) }
    ensures bounded { vec_len bytes.new ≤ limit }
    ensures front { take filled bytes.new.items ≡ take filled bytes.old.items }
{
    if bytes.len() > filled {
        return Ok(());
    }
    let end = limit.min(filled.saturating_add(PIECE));
    bytes.resize(end, 0)
}

fn read_at<F: Shelf>(shelf: &mut F, buf: &mut [u8], at: usize) -> Result<usize, Failed>
    requires { at < length buf.old }
    ensures files { F.files shelf.new ≡ F.files shelf.old }
    ensures cause { HasCause (F.faults shelf.old) (F.faults shelf.new) result }
    ensures calls { F.calls shelf.new ≡ noted result (F.calls shelf.old) }
    ensures starts { F.starts shelf.new ≡ F.starts shelf.old }

    ensures front { take at buf.new ≡ take at buf.old }
    ensures fits { IfOk result (λ count. at + count ≤ length buf.new) }
    ensures bytes { IfOk result (λ count.
        F.rest shelf.old ≡ prepended (take count (drop at buf.new)) (F.rest shelf.new)) }
    ensures end { IfOk result (λ count. count ≡ 0 → IfSome (F.rest shelf.new) (λ left. left ≡ [])) }
    ensures kept { OnErr result (F.rest shelf.new ≡ F.rest shelf.old) }
{
    shelf.read(&mut buf[at..])
}
