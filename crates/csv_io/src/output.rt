ghost use Rattle.std.specs.Prelude.{◌≡◌, ◌==◌, ◌++◌, ◌∷◌, [], IsUtf8, OnOk, if◌then◌else◌, length};
ghost use Rattle.csv.specs.Writing.{default_writer, escaped, field_text, needs_byte, needs_quotes, next_sep, quoted};

use crate::lanes::{LANES, clear_run};
use std::alloc::AllocError;

// Adds a field of this text, in quotes where a byte of it calls for them.
pub(crate) fn push_field(out: &mut Vec<u8>, field: &str) -> Result<(), AllocError>
    ensures added { OnOk result (out.new.items ≡ out.old.items ++ field_text default_writer field.now) }
    ensures utf8 { IsUtf8 field.now }
{
    let bytes = field.as_bytes();
    if calls_for_quotes(bytes) {
        push_quoted(out, bytes)
    } else {
        out.extend_from_slice(bytes)
    }
}

// Whether a byte of a field calls for quotes.
fn calls_for_quotes(field: &[u8]) -> bool
    ensures { result ≡ needs_quotes default_writer field.now }
{
    let mut at = 0;
    'by_load: while field.len() - at >= LANES {
        let run = clear_run(field, at);
        if run < LANES {
            return true;
        }
        at += LANES;
    }
    while at < field.len() {
        if is_special(field[at]) {
            return true;
        }
        at += 1;
    }
    false
}

fn is_special(b: u8) -> bool
    ensures { result ≡ needs_byte default_writer b }
{
    matches!(b, b',' | b'"' | b'\r' | b'\n')
}

// Adds a field between quotes, each quote in it twice.
fn push_quoted(out: &mut Vec<u8>, field: &[u8]) -> Result<(), AllocError>
    ensures { OnOk result (out.new.items ≡ out.old.items ++ quoted default_writer field.now) }
{
    out.push(b'"')?;
    for i in 0..field.len() {
        push_escaped(out, field[i])?;
    }
    out.push(b'"')?;
    Ok(())
}

// Adds a byte of a field between quotes.
#[tactic(auto, unfolding(csv::specs::Writing::escaped))]
fn push_escaped(out: &mut Vec<u8>, b: u8) -> Result<(), AllocError>
    ensures { OnOk result (out.new.items ≡ out.old.items ++ escaped default_writer (b ∷ [])) }
{
    if b == b'"' {
        out.push(b'"')?;
    }
    out.push(b)?;
    Ok(())
}

// Adds what stands before the field at a place.
pub(crate) fn push_separator(out: &mut Vec<u8>, place: usize) -> Result<(), AllocError>
    ensures { OnOk result (out.new.items ≡ out.old.items ++ next_sep default_writer place) }
{
    if place == 0 {
        Ok(())
    } else {
        out.push(b',')?;
        Ok(())
    }
}

// Ends a line that began at `start`: two quotes stand for one that shows no byte.
pub(crate) fn end_line(out: &mut Vec<u8>, start: usize) -> Result<(), AllocError>
    ensures { OnOk result (out.new.items ≡ out.old.items ++ ((if length out.old.items == start then 34 ∷ 34 ∷ [] else []) ++ 10 ∷ [])) }
{
    if out.len() == start {
        out.extend_from_slice(b"\"\"")?;
    }
    out.push(b'\n')?;
    Ok(())
}
