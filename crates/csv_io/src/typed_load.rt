//! Tables of files whose columns are known.
ghost use Rattle.std.specs.Prelude.{◌≡◌, Ok, IfErr, IfOk};
ghost use Rattle.csv.specs.Records.{AllText};
ghost use Rattle.csv_io.specs.Faults.{IsFaultOf, Reads};
ghost use Rattle.csv_io.specs.TypedLoad.{differences, heads, loaded_typed};

use crate::fault::{DataFault, HEADER_DIFFERS, NOT_UTF8, refused};
use crate::fields::field;
use crate::head::Head;
use crate::line::Line;
use crate::print::typed_name;
use kql_cells::{Column, Schema};
use kql_items::Items;
use kql_values::Table;
use simdutf8::compat::from_utf8;
use std::alloc::{AllocError, Global};

/// The table of a file of CSV (RFC 4180) whose columns are these, or the first fault in it.
///
/// The first record is the header, of which each field is the name of its column, or that name, a colon and the word for its type. The other
/// records are the rows, read as `load` reads them.
///
/// The refusals, in the order in which they are looked for: 301 the file is not UTF-8 (the column is the number of bytes
/// before the first that is not); 302 there is no record; 312 the first column in which the header and the columns differ, one too few and one
/// too many among them; then row by row 305 another number of fields (which is the column), and 306 a cell that does not read as its type.
pub fn load_typed(alloc: Global, bytes: &[u8], schema: &Schema) -> Result<Table, DataFault>
    ensures table { IfOk result (λ t. loaded_typed schema.now bytes.now ≡ Ok t) }
    ensures columns { IfOk result (λ t. t.columns ≡ schema.now) }
    ensures fault { IfErr result (IsFaultOf (loaded_typed schema.now bytes.now)) }
{
    match from_utf8(bytes) {
        Ok(text) => Head::read_typed(alloc, text, schema)?.join(alloc, Items::new(alloc)),
        Err(e) => Err(refused(NOT_UTF8, 0, e.valid_up_to())),
    }
}

// Whether a header heads these columns, or the first in which it differs.
pub(crate) fn check_header(
    alloc: Global,
    columns: &[Column],
    line: &Line<'_>,
) -> Result<(), DataFault>
    requires { AllText line.now }
    ensures { Reads (differences 1 columns.now line.now) tt result }
{
    for j in 0..columns.len() {
        if j >= line.len() {
            return Err(refused(HEADER_DIFFERS, 0, j + 1));
        }
        if !heads(alloc, &columns[j], field(line, j))? {
            return Err(refused(HEADER_DIFFERS, 0, j + 1));
        }
    }
    if line.len() > columns.len() {
        return Err(refused(HEADER_DIFFERS, 0, columns.len() + 1));
    }
    Ok(())
}

// Whether a field of a header heads a column.
fn heads(alloc: Global, column: &Column, field: &str) -> Result<bool, AllocError>
    ensures heads { IfOk result (λ h. h ≡ heads column.now field.now) }
{
    let typed = typed_name(alloc, column)?;
    Ok(field == column.name.as_str() || field == typed.as_str())
}
