//! Pieces of a text, put together.
ghost use Rattle.std.specs.Prelude.{◌≡◌, ◌≤◌, ◌++◌, [], All, IfErr, IfOk, OnOk, length};
ghost use Rattle.csv_io.specs.Cuts.{records_at};
ghost use Rattle.csv_io.specs.Faults.{IsFirstOf, Reads};
ghost use Rattle.csv_io.specs.Load.{rows_faults, rows_grid};
ghost use Rattle.csv_io.specs.Parts.{IsPart, IsStart};

use crate::fault::DataFault;
use crate::piece::Piece;
use crate::rows::read_rows;
use crate::stack::Stack;
use kql_cells::Schema;
use kql_items::Items;
use kql_values::Table;
use std::alloc::Global;

// The tables of the records of a text from a place on, or the first fault in them, from pieces that were read apart,
// whichever they are. What is in none of them is read here.
pub(crate) fn join_pieces(
    alloc: Global,
    schema: Schema,
    text: &[u8],
    start: usize,
    mut pieces: Items<Piece<'_>>,
) -> Result<Stack, DataFault>
    requires start { IsStart text.now start }
    requires of_text { All (λ p. p ≡ record { text = text.now; columns = schema }) pieces }
    ensures { Reads (rows_faults schema 1 (records_at text.now start)) (rows_grid schema (records_at text.now start)) result }
{
    let mut table = Stack::new(alloc, Table::empty(alloc, schema.copy(alloc)?)?);
    let mut at = start;
    pieces.reverse();
    'pieces: while let Some(piece) = pieces.pop() {
        at = take_piece(alloc, &schema, text, start, at, piece, &mut table)?;
    }
    read_more(alloc, &schema, text, start, at, text.len(), &mut table)?;
    Ok(table)
}

// Reads what stands before a piece, and adds its rows where it is then at its place. Answers up to where the rows of the
// table go, which begin at `start`.
fn take_piece(
    alloc: Global,
    schema: &Schema,
    text: &[u8],
    start: usize,
    at: usize,
    piece: Piece<'_>,
    table: &mut Stack,
) -> Result<usize, DataFault>
    requires start { IsStart text.now start }
    requires columns { table.old.columns ≡ schema.now }
    requires part { IsPart schema.now text.now start at table.old.lines }
    requires piece { piece ≡ record { text = text.now; columns = schema.now } }
    ensures columns { OnOk result (table.new.columns ≡ schema.now) }
    ensures part { IfOk result (λ end. IsPart schema.now text.now start end table.new.lines) }
    ensures fault { IfErr result (IsFirstOf (rows_faults schema.now 1 (records_at text.now start))) }
{
    let (from, end, rows) = piece.into_parts();
    let at = read_up_to(alloc, schema, text, start, at, from, table)?;
    if at != from {
        return Ok(at);
    }
    table.append(rows)?;
    Ok(end)
}

// Reads the records up to a place, if they do not go that far.
fn read_up_to(
    alloc: Global,
    schema: &Schema,
    text: &[u8],
    start: usize,
    at: usize,
    to: usize,
    table: &mut Stack,
) -> Result<usize, DataFault>
    requires start { IsStart text.now start }
    requires columns { table.old.columns ≡ schema.now }
    requires part { IsPart schema.now text.now start at table.old.lines }
    ensures columns { OnOk result (table.new.columns ≡ schema.now) }
    ensures part { IfOk result (λ end. IsPart schema.now text.now start end table.new.lines) }
    ensures fault { IfErr result (IsFirstOf (rows_faults schema.now 1 (records_at text.now start))) }
{
    if at >= to {
        return Ok(at);
    }
    read_more(alloc, schema, text, start, at, to, table)
}

// Reads the records that begin from a place on and before another, and adds their rows. Answers where they end.
fn read_more(
    alloc: Global,
    schema: &Schema,
    text: &[u8],
    start: usize,
    at: usize,
    to: usize,
    table: &mut Stack,
) -> Result<usize, DataFault>
    requires start { IsStart text.now start }
    requires columns { table.old.columns ≡ schema.now }
    requires part { IsPart schema.now text.now start at table.old.lines }
    ensures columns { OnOk result (table.new.columns ≡ schema.now) }
    ensures part { IfOk result (λ end. IsPart schema.now text.now start end table.new.lines) }
    ensures all { IfOk result (λ end. length text.now ≤ to → records_at text.now end ≡ []) }
    ensures fault { IfErr result (IsFirstOf (rows_faults schema.now 1 (records_at text.now start))) }
{
    let _start = start;
    let more = read_rows(alloc, schema.copy(alloc)?, text, at, to, table.len())?;
    table.append(more.table)?;
    Ok(more.end)
}
