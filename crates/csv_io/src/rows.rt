//! Rows of a text.
ghost use Rattle.std.specs.Prelude.{◌≡◌, ◌+◌, ◌<◌, ◌≤◌, ◌^◌, [], IfErr, IfOk, OnOk, length};
ghost use Rattle.csv.specs.Records.{AllText};
ghost use Rattle.csv_io.specs.Cuts.{records_at};
ghost use Rattle.csv_io.specs.Faults.{IsFirstOf, Reads};
ghost use Rattle.csv_io.specs.Load.{cell_faults, cell_of, cells_of, row_faults, rows_faults};
ghost use Rattle.csv_io.specs.Next.{IsNext};
ghost use Rattle.csv_io.specs.Parts.{IsPart, IsStart};
ghost use Rattle.kql_values.specs.Growing.{with_cell};

use crate::blanks::bare;
use crate::cells::filled_cell;
use crate::cut::record_start;
use crate::days::Day;
use crate::fault::{BAD_CELL, BAD_LENGTH, DataFault, refused};
use crate::fields::field;
use crate::line::Line;
use kql_cells::{Kind, Schema};
use kql_dynamic::parse_json;
use kql_values::{Table, TableBuilder};
use std::alloc::Global;

// The table of some rows of a text, and where they end.
#[derive(Drop)]
pub(crate) struct Rows {
    pub(crate) table: Table,
    pub(crate) end: usize,
}

// Reads the records of a text that begin from a place on and before another, as rows behind so many others.
pub(crate) fn read_rows(
    alloc: Global,
    schema: Schema,
    text: &[u8],
    from: usize,
    to: usize,
    before: usize,
) -> Result<Rows, DataFault>
    requires start { IsStart text.now from }
    requires small { before < 2 ^ 63 }
    ensures columns { IfOk result (λ r. r.table.columns ≡ schema) }
    ensures part { IfOk result (λ r. IsPart schema text.now from r.end r.table.lines) }
    ensures all { IfOk result (λ r. length text.now ≤ to → records_at text.now r.end ≡ []) }
    ensures fault { IfErr result (IsFirstOf (rows_faults schema (before + 1) (records_at text.now from))) }
{
    let mut line = Line::new(alloc);
    let mut table = TableBuilder::new(alloc, schema)?;
    let mut day = Day::new();
    let mut at = record_start(text, from);
    'records: while at < to && at < text.len() {
        let end = line.read(text, at)?;
        read_row(alloc, &mut table, &line, &mut day, before)?;
        table.end_row()?;
        at = record_start(text, end);
    }
    Ok(Rows {
        table: table.finish(),
        end: at,
    })
}

// Adds the cells of a record.
fn read_row(
    alloc: Global,
    table: &mut TableBuilder,
    line: &Line<'_>,
    day: &mut Day,
    before: usize,
) -> Result<(), DataFault>
    requires text { AllText line.now }
    requires fresh { table.old.row ≡ [] }
    requires small { before < 2 ^ 63 }
    ensures read { Reads (row_faults table.old.grid.columns (before + length table.old.grid.lines + 1) line.now) tt result }
    ensures grid { OnOk result (table.new.grid ≡ table.old.grid) }
    ensures row { OnOk result (table.new.row ≡ cells_of table.old.grid.columns line.now) }
    ensures whole { OnOk result (length table.new.row ≡ length table.old.grid.columns) }
{
    let number = before as u64 + table.len() as u64 + 1;
    let width = table.schema().len();
    if line.len() != width {
        return Err(refused(BAD_LENGTH, number, line.len()));
    }
    for j in 0..width {
        let kind = table.schema().columns()[j].kind;
        read_cell(alloc, table, kind, field(line, j), day, number, j + 1)?;
    }
    Ok(())
}

// Adds the cell of a field in a column of this type.
#[tactic(auto, using(crate::proofs::FieldFacts::cell_facts))]
fn read_cell(
    alloc: Global,
    table: &mut TableBuilder,
    kind: Kind,
    text: &str,
    day: &mut Day,
    row: u64,
    column: usize,
) -> Result<(), DataFault>
    requires { IsNext table.old kind }
    ensures read { Reads (cell_faults kind row column text.now) tt result }
    ensures added { OnOk result (table.new ≡ with_cell table.old (cell_of kind text.now)) }
{
    let text = bare(kind, text);
    if text.is_empty() {
        table.push_cell(kind.absent())?;
        return Ok(());
    }
    if kind == Kind::Dynamic {
        table.push_value(parse_json(alloc, text)?)?;
        return Ok(());
    }
    match filled_cell(kind, text, day) {
        Some(cell) => {
            table.push_cell(cell)?;
            Ok(())
        }
        None => Err(refused(BAD_CELL, row, column)),
    }
}
