//! Which types are tried for a column, and what its cells say.

ghost use Rattle.std.specs.Prelude.{◌≡◌, ◌<◌, length};
ghost use Rattle.kql_proposal.specs.Kinds.{kind_after};

use kql_cells::{CellRef, Dyn, Kind, Value};
use kql_dynamic::parse_json;
use kql_values::Table;
use std::alloc::{AllocError, Global};

/// How many types are tried for a column.
pub(crate) const TRIED: usize = 5;

/// The type that is tried first.
pub(crate) const FIRST: Kind = Kind::Long;

/// The type that is tried after another. Every cell reads as a string.
pub(crate) fn kind_after(kind: Kind) -> Kind
    ensures { result ≡ kind_after kind }
{
    match kind {
        Kind::Long => Kind::Bool,
        Kind::Bool => Kind::Moment,
        Kind::Moment => Kind::Span,
        _ => Kind::Text,
    }
}

/// Whether a column has no cell but nulls.
pub(crate) fn is_empty(table: &Table, j: usize) -> bool
    requires { j < length table.now.columns }
{
    for i in 0..table.len() {
        if !table.cell(i, j).is_null() {
            return false;
        }
    }
    true
}

/// Whether each text of a column is the JSON of an array or a bag, or empty, and one is not empty.
pub(crate) fn is_json(alloc: Global, table: &Table, j: usize) -> Result<bool, AllocError>
    requires { j < length table.now.columns }
{
    let mut has_json = false;
    for i in 0..table.len() {
        if let CellRef::Text(text) = table.cell(i, j) {
            if !text.is_empty() {
                if !is_json_text(alloc, text)? {
                    return Ok(false);
                }
                has_json = true;
            }
        }
    }
    Ok(has_json)
}

// Whether a text is the JSON of an array or a bag.
fn is_json_text(alloc: Global, text: &str) -> Result<bool, AllocError> {
    if !text.as_bytes().starts_with(b"{") && !text.as_bytes().starts_with(b"[") {
        return Ok(false);
    }
    match parse_json(alloc, text)? {
        Value::Dynamic(Dyn::Array(_)) => Ok(true),
        Value::Dynamic(Dyn::Bag(_)) => Ok(true),
        _ => Ok(false),
    }
}
