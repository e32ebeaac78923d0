//! A table as JSON: an object for each row, its members in the order of the columns.

ghost use Rattle.std.specs.Prelude.{◌≡◌, ◌<◌, ◌++◌, All, IfOk, IsTrue, OnOk, length};
ghost use Rattle.kql_cells.specs.Dynamic.{is_well_formed_dynamic};
ghost use Rattle.kql_cells.specs.Seen.{row_at, seen};
ghost use Rattle.kql_cells.specs.Values.{IsWellFormed};
ghost use Rattle.kql_dynamic.specs.Json.{parsed};
ghost use Rattle.kql_dynamic.specs.Parts.{value_of};
ghost use Rattle.kql_dynamic.specs.Printed.{printed};
ghost use Rattle.kql_views.specs.Json.{ReadsAs, ReadsBack, array_text, dyn_of_cell, lines_text, member_text, object_text, separator};

use crate::cells::cell_of;
use kql_cells::{Bytes, CellRef, Column, Dyn, KText, clone_dyn};
use kql_dynamic::print_json;
use kql_items::Items;
use kql_ticks::{print_moment, print_span};
use kql_values::Table;
use std::alloc::{AllocError, Global};

/// An array of an object for each row, each on a line.
pub fn json_text(alloc: Global, table: &Table) -> Result<Bytes, AllocError>
    ensures text { IfOk result (λ b. b ≡ array_text table.now) }
    ensures reads_back { OnOk result (All (All ReadsBack) table.now.lines) }
{
    let mut out = Vec::new(alloc);
    out.push(b'[')?;
    for i in 0..table.len() {
        push_separator(&mut out, i)?;
        out.push(b'\n')?;
        push_object(alloc, &mut out, table, i)?;
    }
    out.extend_from_slice(b"\n]\n")?;
    Ok(Items::from_vec(out))
}

/// An object for each row, each on a line.
pub fn json_lines(alloc: Global, table: &Table) -> Result<Bytes, AllocError>
    ensures text { IfOk result (λ b. b ≡ lines_text table.now) }
    ensures reads_back { OnOk result (All (All ReadsBack) table.now.lines) }
{
    let mut out = Vec::new(alloc);
    for i in 0..table.len() {
        push_object(alloc, &mut out, table, i)?;
        out.push(b'\n')?;
    }
    Ok(Items::from_vec(out))
}

// Adds what stands before the text of a place.
fn push_separator(out: &mut Vec<u8>, place: usize) -> Result<(), AllocError>
    ensures { OnOk result (out.new.items ≡ out.old.items ++ separator place) }
{
    if place == 0 {
        Ok(())
    } else {
        out.push(b',')?;
        Ok(())
    }
}

// Adds the object of a row.
fn push_object(alloc: Global, out: &mut Vec<u8>, table: &Table, i: usize) -> Result<(), AllocError>
    requires row { i < length table.now.lines }
    ensures text { OnOk result (out.new.items ≡ out.old.items ++ object_text table.now.columns (row_at table.now.lines i)) }
    ensures reads_back { OnOk result (All ReadsBack (row_at table.now.lines i)) }
{
    let columns = table.schema().columns();
    out.push(b'{')?;
    for j in 0..columns.len() {
        push_separator(out, j)?;
        push_member(alloc, out, &columns[j], cell_of(table, i, j))?;
    }
    out.push(b'}')?;
    Ok(())
}

// Adds a member: the column's name and the cell.
#[tactic(auto, using(crate::proofs::ScalarForms::scalar_forms))]
fn push_member(
    alloc: Global,
    out: &mut Vec<u8>,
    column: &Column,
    cell: CellRef<'_>,
) -> Result<(), AllocError>
    requires { IsWellFormed (seen cell) }
    ensures text { OnOk result (out.new.items ≡ out.old.items ++ member_text column.now (seen cell.entry)) }
    ensures reads_back { OnOk result (ReadsBack (seen cell.entry)) }
{
    let name = print_json(alloc, &Dyn::Text(column.name.copy(alloc)?))?;
    out.extend_from_slice(name.as_str().as_bytes())?;
    out.push(b':')?;
    let value = cell_json(alloc, cell)?;
    out.extend_from_slice(value.as_str().as_bytes())
}

// The JSON of a cell, which reads back as its dynamic value.
fn cell_json(alloc: Global, cell: CellRef<'_>) -> Result<KText, AllocError>
    requires { IsWellFormed (seen cell) }
    ensures text { IfOk result (λ t. t ≡ printed (dyn_of_cell (seen cell.entry))) }
    ensures reads_back { OnOk result (ReadsBack (seen cell.entry)) }
{
    let value = dyn_of(alloc, cell)?;
    print_json(alloc, &value)
}

// A cell as a dynamic value: datetimes and timespans are texts.
#[tactic(auto, using(crate::proofs::ScalarForms::scalar_forms))]
fn dyn_of(alloc: Global, cell: CellRef<'_>) -> Result<Dyn, AllocError>
    requires { IsWellFormed (seen cell) }
    ensures value { IfOk result (λ d. d ≡ dyn_of_cell (seen cell.entry)) }
    ensures same { OnOk result (ReadsAs (value_of (dyn_of_cell (seen cell.entry))) (seen cell.entry)) }
    ensures form { IfOk result (λ d. IsTrue (is_well_formed_dynamic d)) }
{
    match cell {
        CellRef::Null => Ok(Dyn::Null),
        CellRef::Bool(b) => Ok(Dyn::Bool(b)),
        CellRef::Long(n) => Ok(Dyn::Long(n)),
        CellRef::Text(t) => Ok(Dyn::Text(KText::from_str(alloc, t)?)),
        CellRef::Moment(x) => Ok(Dyn::Text(print_moment(alloc, x)?)),
        CellRef::Span(x) => Ok(Dyn::Text(print_span(alloc, x)?)),
        CellRef::Dynamic(d) => clone_dyn(alloc, d),
    }
}
