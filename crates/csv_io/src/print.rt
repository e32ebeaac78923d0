ghost use Rattle.std.specs.Prelude.{◌≡◌, ◌<◌, ◌≤◌, ◌++◌, All, IfOk, IsUtf8, Ok, OnOk, flat_map, length, map, slice_range, string_bytes};
ghost use Rattle.csv.specs.Records.{AllText};
ghost use Rattle.csv.specs.Writing.{default_writer, field_text, row_text};
ghost use Rattle.kql_cells.specs.Seen.{seen, value_at};
ghost use Rattle.kql_cells.specs.Values.{IsMoment, IsWellFormed};
ghost use Rattle.kql_cells.specs.declared.value.Value.TheVariants as value;
ghost use Rattle.kql_values.specs.Grids.{row_of};
ghost use Rattle.kql_values.specs.Numbers.{values_of_numbers};
ghost use Rattle.csv_io.specs.Load.{loaded};
ghost use Rattle.csv_io.specs.Reload.{IsLoadable, ReadsBack, typed_name, typed_text, with_kinds, word_of};
ghost use Rattle.csv_io.specs.Text.{cell_text, line_text, lines_text, names_of, table_text};

use crate::lent::{Lent, Stored, lent_columns};
use crate::output::{end_line, push_field, push_separator};
use crate::printed_day::PrintedDay;
use itoa::Buffer;
use kql_cells::{Bytes, CellRef, Column, Dyn, Kind};
use kql_dynamic::print_json;
use kql_items::Items;
use kql_ticks::push_span;
use kql_values::{NumberKind, Numbers, Table};
use std::alloc::{AllocError, Global};

/// The text of a table: a line of the columns' names, without their types, and a line for each row. A null is an empty
/// cell, a dynamic value is compact JSON, and each line ends with a line feed. RFC 4180's quotes stand where a cell needs
/// them, and around a lone empty one.
///
/// With the types written into its header the text loads as the table, columns of dynamic values among them, where there
/// are from one column to 256, each has a name, and the first name does not begin with a byte order mark.
pub fn table_text(alloc: Global, t: &Table) -> Result<Bytes, AllocError>
    ensures text { IfOk result (λ b. b ≡ table_text t.now) }
    ensures loads { IfOk result (λ b. IsLoadable t.now.columns → loaded (with_kinds t.now.columns b) ≡ Ok t.now) }
{
    let mut out = Vec::new(alloc);
    push_names(&mut out, t.schema().columns())?;
    push_lines(alloc, &mut out, t)?;
    Ok(Items::from_vec(out))
}

/// The same text with the types of the columns in its header, as `ms:long`: it loads as the table, where there are from one column to
/// 256, each has a name, and the first name does not begin with a byte order mark.
pub fn typed_text(alloc: Global, t: &Table) -> Result<Bytes, AllocError>
    ensures text { IfOk result (λ b. b ≡ typed_text t.now) }
    ensures loads { IfOk result (λ b. IsLoadable t.now.columns → loaded b ≡ Ok t.now) }
{
    let mut out = Vec::new(alloc);
    push_typed_names(alloc, &mut out, t.schema().columns())?;
    push_lines(alloc, &mut out, t)?;
    Ok(Items::from_vec(out))
}

// Adds a line for each row.
fn push_lines(alloc: Global, out: &mut Vec<u8>, t: &Table) -> Result<(), AllocError>
    ensures text { OnOk result (out.new.items ≡ out.old.items ++ flat_map line_text t.now.lines) }
    ensures back { OnOk result (All (All ReadsBack) t.now.lines) }
{
    push_range(alloc, out, t, 0, t.len())?;
    Ok(())
}

// Adds a line for each of the rows from a place up to another.
pub(crate) fn push_range(
    alloc: Global,
    out: &mut Vec<u8>,
    t: &Table,
    from: usize,
    to: usize,
) -> Result<(), AllocError>
    requires order { from ≤ to }
    requires within { to ≤ length t.now.lines }
    ensures text { OnOk result (out.new.items ≡ out.old.items ++ lines_text t.now from to) }
    ensures back { OnOk result (All (All ReadsBack) (slice_range t.now.lines from to)) }
{
    let _ = t.schema();
    let lent = lent_columns(alloc, t.columns())?;
    let mut day = PrintedDay::new();
    for i in from..to {
        push_line(alloc, out, lent.as_slice(), i, &mut day)?;
    }
    Ok(())
}

// Adds a line of the columns' names, each with its type.
pub(crate) fn push_typed_names(
    alloc: Global,
    out: &mut Vec<u8>,
    columns: &[Column],
) -> Result<(), AllocError>
    ensures text { OnOk result (out.new.items ≡ out.old.items ++ row_text default_writer (map typed_name columns.now)) }
    ensures utf8 { OnOk result (AllText (names_of columns.now)) }
{
    let start = out.len();
    for j in 0..columns.len() {
        push_separator(out, j)?;
        let field = typed_name(alloc, &columns[j])?;
        push_field(out, field.as_str())?;
    }
    end_line(out, start)?;
    Ok(())
}

// The field of a header for a column: its name, a colon and its type.
pub(crate) fn typed_name(alloc: Global, column: &Column) -> Result<String, AllocError>
    ensures field { IfOk result (λ f. string_bytes f ≡ typed_name column.now) }
    ensures utf8 { IsUtf8 column.now.name }
{
    let name = column.name.as_str();
    let word = word_of(column.kind);
    format!(in alloc; "{name}:{word}")
}

// The word for a type in a header.
fn word_of(kind: Kind) -> &'static str
    ensures { result.now ≡ word_of kind }
{
    match kind {
        Kind::Bool => "bool",
        Kind::Long => "long",
        Kind::Text => "string",
        Kind::Moment => "datetime",
        Kind::Span => "timespan",
        Kind::Dynamic => "dynamic",
    }
}

// Adds a line of the columns' names.
pub(crate) fn push_names(out: &mut Vec<u8>, columns: &[Column]) -> Result<(), AllocError>
    ensures text { OnOk result (out.new.items ≡ out.old.items ++ row_text default_writer (names_of columns.now)) }
    ensures utf8 { OnOk result (AllText (names_of columns.now)) }
{
    let start = out.len();
    for j in 0..columns.len() {
        push_separator(out, j)?;
        push_field(out, columns[j].name.as_str())?;
    }
    end_line(out, start)?;
    Ok(())
}

// Adds a line of the cells of a row.
#[inline(always)]
fn push_line(
    alloc: Global,
    out: &mut Vec<u8>,
    columns: &[Lent<'_>],
    i: usize,
    day: &mut PrintedDay,
) -> Result<(), AllocError>
    requires within { All (λ c. i < length c) columns.now }
    requires forms { All IsWellFormed (row_of columns.now i) }
    ensures text { OnOk result (out.new.items ≡ out.old.items ++ line_text (row_of columns.now i)) }
    ensures back { OnOk result (All ReadsBack (row_of columns.now i)) }
{
    let start = out.len();
    for j in 0..columns.len() {
        push_separator(out, j)?;
        push_lent(alloc, out, &columns[j], i, day)?;
    }
    end_line(out, start)?;
    Ok(())
}

// Adds a cell of a column.
#[inline(always)]
fn push_lent(
    alloc: Global,
    out: &mut Vec<u8>,
    column: &Lent<'_>,
    i: usize,
    day: &mut PrintedDay,
) -> Result<(), AllocError>
    requires within { i < length column.now }
    requires form { IsWellFormed (value_at column.now i) }
    ensures added { OnOk result (out.new.items ≡ out.old.items ++ field_text default_writer (cell_text (value_at column.now i))) }
    ensures back { OnOk result (ReadsBack (value_at column.now i)) }
{
    match &column.stored {
        Stored::Numbers(numbers) => push_number(out, numbers, i, day),
        Stored::Texts(texts) => push_text(out, texts.get(i)),
        Stored::Cells(cells) => push_cell(alloc, out, cells.cell(i), day),
    }
}

// Adds a number of a column of numbers, or nothing where it is null.
#[inline(always)]
fn push_number(
    out: &mut Vec<u8>,
    numbers: &Numbers<'_>,
    i: usize,
    day: &mut PrintedDay,
) -> Result<(), AllocError>
    requires within { i < length numbers.now.numbers.now }
    requires whole { length numbers.now.nulls.now ≡ length numbers.now.numbers.now }
    requires form { IsWellFormed (value_at (values_of_numbers numbers.now) i) }
    ensures added { OnOk result (out.new.items ≡ out.old.items ++ field_text default_writer (cell_text (value_at (values_of_numbers numbers.now) i))) }
    ensures back { OnOk result (ReadsBack (value_at (values_of_numbers numbers.now) i)) }
{
    let is_null = numbers.nulls[i];
    if is_null {
        return Ok(());
    }
    let n = numbers.numbers[i];
    match numbers.kind {
        NumberKind::Long => push_long(out, n),
        NumberKind::Moment => push_datetime(out, n, day),
        NumberKind::Span => push_timespan(out, n),
    }
}

// Adds a text.
#[inline(always)]
fn push_text(out: &mut Vec<u8>, text: &str) -> Result<(), AllocError>
    ensures added { OnOk result (out.new.items ≡ out.old.items ++ field_text default_writer (cell_text (value.Text text.now))) }
    ensures back { OnOk result (ReadsBack (value.Text text.now)) }
{
    push_field(out, text)
}

// Adds a cell of a column that is stored otherwise.
fn push_cell(
    alloc: Global,
    out: &mut Vec<u8>,
    cell: CellRef<'_>,
    day: &mut PrintedDay,
) -> Result<(), AllocError>
    requires form { IsWellFormed (seen cell) }
    ensures added { OnOk result (out.new.items ≡ out.old.items ++ field_text default_writer (cell_text (seen cell.entry))) }
    ensures back { OnOk result (ReadsBack (seen cell.entry)) }
{
    match cell {
        CellRef::Null => push_field(out, ""),
        CellRef::Bool(true) => push_field(out, "true"),
        CellRef::Bool(false) => push_field(out, "false"),
        CellRef::Long(n) => push_long(out, n),
        CellRef::Text(t) => push_field(out, t),
        CellRef::Moment(x) => push_datetime(out, x, day),
        CellRef::Span(x) => push_timespan(out, x),
        CellRef::Dynamic(d) => push_dynamic(alloc, out, d),
    }
}

fn push_long(out: &mut Vec<u8>, n: i64) -> Result<(), AllocError>
    ensures added { OnOk result (out.new.items ≡ out.old.items ++ field_text default_writer (cell_text (value.Long n))) }
    ensures back { OnOk result (ReadsBack (value.Long n)) }
{
    let mut buffer = Buffer::new();
    out.extend_from_slice(buffer.format(n).as_bytes())
}

#[inline(always)]
fn push_datetime(out: &mut Vec<u8>, x: i64, day: &mut PrintedDay) -> Result<(), AllocError>
    requires { IsMoment x }
    ensures added { OnOk result (out.new.items ≡ out.old.items ++ field_text default_writer (cell_text (value.Moment x))) }
    ensures back { OnOk result (ReadsBack (value.Moment x)) }
{
    day.push(out, x)
}

fn push_timespan(out: &mut Vec<u8>, x: i64) -> Result<(), AllocError>
    ensures added { OnOk result (out.new.items ≡ out.old.items ++ field_text default_writer (cell_text (value.Span x))) }
    ensures back { OnOk result (ReadsBack (value.Span x)) }
{
    push_span(out, x)
}

#[inline(never)]
fn push_dynamic(alloc: Global, out: &mut Vec<u8>, d: &Dyn) -> Result<(), AllocError>
    requires { IsWellFormed (value.Dynamic d.now) }
    ensures added { OnOk result (out.new.items ≡ out.old.items ++ field_text default_writer (cell_text (value.Dynamic d.now))) }
    ensures back { OnOk result (ReadsBack (value.Dynamic d.now)) }
{
    let text = print_json(alloc, d)?;
    push_field(out, text.as_str())
}
