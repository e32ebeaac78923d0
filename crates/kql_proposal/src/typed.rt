ghost use Rattle.std.specs.Prelude.{◌≡◌, IfOk, IfSome, drop};
ghost use Rattle.csv_io.specs.Load.{file_records, loaded};
ghost use Rattle.kql_proposal.specs.Headed.{IsHeaded, IsRetyped};

use crate::header::{have_same_names, header_with};
use crate::kinds::{FIRST, TRIED, is_empty, is_json, kind_after};
use crate::record::{First, first_record};
use crate::rows::have_same_rows;
use csv_io::{DataFault, load};
use kql_cells::{Bytes, Column, Kind};
use kql_values::Table;
use std::alloc::{AllocError, Global};

// The code of a cell that does not read as its type.
const BAD_CELL: u32 = 306;

/// A header with types, and the file with it.
#[derive(Debug, Drop)]
pub struct Proposal {
    /// The line of the header.
    pub header: Bytes,
    /// The whole file: that line, and the rows as they stand in the file.
    pub text: Vec<u8>,
}

/// The header with types that the cells of a file call for: of a column without a type, the first of long, bool, datetime and timespan
/// as which every cell reads, where one is not empty, else dynamic where each is the JSON of an array or a bag, else string. None where
/// the header cannot be told from the rows.
///
/// The file with it loads, and has columns of the same names; the records behind its header are the same.
pub fn propose(alloc: Global, bytes: &[u8]) -> Result<Option<Proposal>, DataFault>
    ensures retyped { IfOk result (λ o. IfSome o (λ p. IsRetyped (loaded bytes.now) (loaded p.text.items))) }
    ensures rows { IfOk result (λ o. IfSome o (λ p. drop 1 (file_records p.text.items) ≡ drop 1 (file_records bytes.now))) }
    ensures headed { IfOk result (λ o. IfSome o (λ p. IsHeaded p.header bytes.now p.text.items)) }
{
    let given = load(alloc, bytes)?;
    let first = first_record(alloc, bytes)?;
    if first.end > bytes.len() {
        return Ok(None);
    }
    let rows = &bytes[first.end..];
    let kinds = kinds_of(alloc, &given, &first, rows)?;
    let header = header_with(alloc, given.schema(), kinds.as_slice())?;
    let mut text = Vec::from_slice(alloc, header.as_slice())?;
    text.extend_from_slice(rows)?;
    let read = load(alloc, text.as_slice())?;
    if read.len() != given.len() || !have_same_names(&read, &given) {
        return Ok(None);
    }
    if !have_same_rows(alloc, bytes, text.as_slice())? {
        return Ok(None);
    }
    Ok(Some(Proposal { header, text }))
}

// The types of the columns.
fn kinds_of(
    alloc: Global,
    given: &Table,
    first: &First,
    rows: &[u8],
) -> Result<Vec<Kind>, DataFault> {
    let open = open_columns(alloc, given, first)?;
    let mut kinds = first_kinds(alloc, given, open.as_slice())?;
    let tries = kinds.len().saturating_mul(TRIED);
    for _ in 0..tries {
        let header = header_with(alloc, given.schema(), kinds.as_slice())?;
        let mut text = Vec::from_slice(alloc, header.as_slice())?;
        text.extend_from_slice(rows)?;
        match load(alloc, text.as_slice()) {
            Ok(table) => {
                settle(alloc, &table, open.as_slice(), &mut kinds)?;
                return Ok(kinds);
            }
            Err(
                DataFault::Refused {
                    code: BAD_CELL,
                    column,
                    ..
                },
            ) => try_next(&mut kinds, open.as_slice(), column),
            Err(fault) => return Err(fault),
        }
    }
    Ok(kinds)
}

// For each column, whether its type is not given.
fn open_columns(alloc: Global, given: &Table, first: &First) -> Result<Vec<bool>, AllocError> {
    let mut open = Vec::new(alloc);
    let columns = given.schema().columns();
    for j in 0..columns.len() {
        let is_string = first.strings.get(j).copied().unwrap_or(false);
        open.push(columns[j].kind == Kind::Text && !is_string)?;
    }
    Ok(open)
}

// The types that are tried first.
fn first_kinds(alloc: Global, given: &Table, open: &[bool]) -> Result<Vec<Kind>, AllocError> {
    let mut kinds = Vec::new(alloc);
    let columns = given.schema().columns();
    for j in 0..columns.len() {
        let is_open = open.get(j).copied().unwrap_or(false);
        kinds.push(if is_open { FIRST } else { columns[j].kind })?;
    }
    Ok(kinds)
}

// The next type of the column of this number, from 1, where its type is not given.
fn try_next(kinds: &mut Vec<Kind>, open: &[bool], column: u64) {
    let j = usize::try_from(column.saturating_sub(1)).unwrap_or(usize::MAX);
    if j < kinds.len() && open.get(j).copied().unwrap_or(false) {
        kinds[j] = kind_after(kinds[j]);
    }
}

// A column of nulls alone is one of strings, and one of texts that are all JSON is dynamic.
fn settle(
    alloc: Global,
    table: &Table,
    open: &[bool],
    kinds: &mut Vec<Kind>,
) -> Result<(), AllocError> {
    let columns = table.schema().columns();
    for j in 0..columns.len() {
        if j < kinds.len() && open.get(j).copied().unwrap_or(false) {
            if columns[j].kind == Kind::Text {
                if is_json(alloc, table, j)? {
                    kinds[j] = Kind::Dynamic;
                }
            } else if is_empty(table, j) {
                kinds[j] = Kind::Text;
            }
        }
    }
    Ok(())
}
