//! Cells as texts, and the texts that a row says.
ghost use Rattle.kql_cells.specs.Seen.{seen};
ghost use Rattle.kql_cells.specs.Values.{IsWellFormed};

use kql_cells::{CellRef, KText, Kind, Value};
use kql_dynamic::print_json;
use kql_scalar_fns::{ConversionFunc, Func, apply_cells};
use std::alloc::{AllocError, Global};

fn text_or_none(alloc: Global, value: Value) -> KText {
    match value {
        Value::Text(text) => text,
        _ => KText::new(alloc),
    }
}

fn printed(alloc: Global, cell: CellRef<'_>) -> Result<KText, AllocError>
    requires { IsWellFormed (seen cell) }
{
    match cell {
        CellRef::Dynamic(d) => print_json(alloc, d),
        _ => {
            let value = apply_cells(alloc, Func::Conversion(ConversionFunc::ToText), &[cell])?;
            Ok(text_or_none(alloc, value))
        }
    }
}

/// A cell of this type as it is printed in tables, but for quotes.
pub(crate) fn cell_text(alloc: Global, cell: CellRef<'_>, kind: Kind) -> Result<KText, AllocError> {
    if !cell.is_of_kind(kind) {
        KText::from_str(alloc, "(a cell of another type)")
    } else if !cell.is_well_formed() {
        KText::from_str(alloc, "(a cell that is not well formed)")
    } else {
        printed(alloc, cell)
    }
}

// A text without the blank at each end.
fn bare(text: &str) -> &str {
    let text = text.strip_prefix(" ").unwrap_or(text);
    text.strip_suffix(" ").unwrap_or(text)
}

/// The text at a place; the last is also that of the places behind it.
pub(crate) fn text_at(texts: &str, i: usize) -> &str {
    let mut left = texts;
    for _ in 0..i {
        if let Some((_, more)) = left.split_once(';') {
            left = more;
        }
    }
    match left.split_once(';') {
        Some((first, _)) => bare(first),
        None => bare(left),
    }
}

/// How many texts there are.
pub(crate) fn count_of(texts: &str) -> usize {
    let mut count: usize = 0;
    for _ in texts.split(";") {
        count = count.saturating_add(1);
    }
    count
}
