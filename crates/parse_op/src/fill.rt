//! The pieces of a text as the cells of a row.
ghost use Rattle.std.specs.Prelude.{◌≡◌, ◌≢◌, ◌++◌, [], drop, length, slice_get, IfOk, IsSomeAnd, IsTrue, OnOk};
ghost use Rattle.kql_cells.specs.Named.{HasDistinctNames, column_name};
ghost use Rattle.kql_cells.specs.Ordered.{text_in};
ghost use Rattle.kql_cells.specs.Seen.{seen};
ghost use Rattle.kql_cells.specs.Values.{IsOfKind, IsWellFormed};
ghost use Rattle.kql_cells.specs.declared.value.Kind.TheVariants.{Dynamic};
ghost use Rattle.kql_meaning.specs.Parse.{parsed_values, pattern_columns, piece_value, pieces_values};
ghost use Rattle.kql_meaning.specs.Tables.{absent_row};
ghost use Rattle.kql_values.specs.Growing.{closed, with_cell};
ghost use Rattle.parse_op.specs.Filled.{AreEnds, IsNextColumn, grown, has_row, item_absent, item_values, parsed_grid};
ghost use Rattle.parse_op.specs.Search.{ends_in, is_place};

use crate::slot::Slot;
use crate::whole::{cut_into, slots_of};
use kql_bound::{ParsePlan, PatItem};
use kql_cells::{CellRef, Kind, Schema, read_bool, read_long};
use kql_columns::pattern_columns;
use kql_dynamic::parse_json;
use kql_ticks::{read_moment, read_span};
use kql_values::{Table, TableBuilder, Vector};
use std::alloc::{AllocError, Global};

/// The table of the pieces of texts, a row for each.
#[tactic(auto, using(crate::proofs::FillSteps::table_steps))]
pub(crate) fn parsed_table(
    alloc: Global,
    texts: &Vector,
    p: &ParsePlan,
) -> Result<Table, AllocError>
    requires names { HasDistinctNames column_name (pattern_columns p.now.pattern) }
    ensures rows { IfOk result (λ t. t ≡ parsed_grid p.now texts.now) }
{
    let columns = pattern_columns(alloc, p.pattern.as_slice())?;
    let mut builder = TableBuilder::new(alloc, Schema::from_items(columns))?;
    let mut slots = slots_of(alloc, p.pattern.len())?;
    fill_rows(alloc, &mut builder, texts, p, &mut slots)?;
    Ok(builder.finish())
}

// Adds the rows of texts.
#[tactic(auto, using(crate::proofs::FillSteps::table_steps))]
fn fill_rows(
    alloc: Global,
    builder: &mut TableBuilder,
    texts: &Vector,
    p: &ParsePlan,
    slots: &mut [Slot],
) -> Result<(), AllocError>
    requires count { length slots.old ≡ length p.now.pattern }
    requires empty { builder.old ≡ grown p.now texts.now 0 }
    ensures filled { OnOk result (builder.new ≡ grown p.now texts.now (length texts.now)) }
{
    'rows: for i in 0..texts.len() {
        fill_row(alloc, builder, p, slots, text_in(texts.cell(i)))?;
    }
    Ok(())
}

// The text that a cell shows.
fn text_in(cell: CellRef<'_>) -> &str
    ensures text { result.now ≡ text_in (seen cell.entry) }
{
    match cell {
        CellRef::Text(text) => text,
        CellRef::Null => "",
        CellRef::Bool(_) => "",
        CellRef::Long(_) => "",
        CellRef::Moment(_) => "",
        CellRef::Span(_) => "",
        CellRef::Dynamic(_) => "",
    }
}

// Adds the row of a text.
#[tactic(auto, using(crate::proofs::FillSteps::row_steps))]
fn fill_row(
    alloc: Global,
    builder: &mut TableBuilder,
    p: &ParsePlan,
    slots: &mut [Slot],
    text: &str,
) -> Result<(), AllocError>
    requires count { length slots.old ≡ length p.now.pattern }
    requires columns { builder.old.grid.columns ≡ pattern_columns p.now.pattern }
    requires closed { builder.old.row ≡ [] }
    ensures count { length slots.new ≡ length p.now.pattern }
    ensures added { OnOk result (builder.new ≡ closed (has_row builder.old (parsed_values p.now text.now))) }
{
    let is_cut = cut_into(p.relaxed, p.pattern.as_slice(), text, slots)?;
    if is_cut {
        fill_pieces(alloc, builder, p.pattern.as_slice(), slots, text)?;
        builder.end_row()
    } else {
        fill_absent(builder, p.pattern.as_slice())?;
        builder.end_row()
    }
}

// Adds the cells of the columns of a pattern, from the ends of the pieces of a text.
#[tactic(auto, using(crate::proofs::FillSteps::piece_steps))]
fn fill_pieces(
    alloc: Global,
    builder: &mut TableBuilder,
    pattern: &[PatItem],
    slots: &[Slot],
    text: &str,
) -> Result<(), AllocError>
    requires count { length slots.now ≡ length pattern.now }
    requires place { IsTrue (is_place text.now 0) }
    requires ends { AreEnds text.now 0 (ends_in slots.now) }
    requires columns { drop (length builder.old.row) builder.old.grid.columns ≡ pattern_columns pattern.now }
    ensures added { OnOk result (builder.new ≡ has_row builder.old (builder.old.row ++ pieces_values pattern.now text.now 0 (ends_in slots.now))) }
{
    let mut start = 0;
    let mut left = pattern;
    let mut ends = slots;
    'items: while let Some((item, later)) = left.split_first() {
        let Some((slot, behind)) = ends.split_first() else {
            return Ok(());
        };
        fill_item(alloc, builder, item, &text[start..slot.end])?;
        start = slot.end;
        left = later;
        ends = behind;
    }
    Ok(())
}

// Adds the cell of a column, or nothing for another item.
#[tactic(auto, using(crate::proofs::FillSteps::item_steps))]
fn fill_item(
    alloc: Global,
    builder: &mut TableBuilder,
    item: &PatItem,
    piece: &str,
) -> Result<(), AllocError>
    requires column { IsNextColumn builder.old item.now }
    ensures added { OnOk result (builder.new ≡ has_row builder.old (builder.old.row ++ item_values item.now piece.now)) }
{
    match item {
        PatItem::Star => Ok(()),
        PatItem::Literal(_) => Ok(()),
        PatItem::Column { name: _, kind } => fill_piece(alloc, builder, *kind, piece),
    }
}

// Adds what a column of a type gets of its piece.
#[tactic(auto, using(crate::proofs::FillSteps::cell_steps))]
fn fill_piece(
    alloc: Global,
    builder: &mut TableBuilder,
    kind: Kind,
    piece: &str,
) -> Result<(), AllocError>
    requires column { IsSomeAnd (slice_get builder.old.grid.columns (length builder.old.row)) (λ c. c.kind ≡ kind) }
    ensures added { OnOk result (builder.new ≡ with_cell builder.old (piece_value kind piece.now)) }
{
    if piece.is_empty() {
        return fill_cell(builder, kind, kind.absent());
    }
    if kind == Kind::Dynamic {
        let value = parse_json(alloc, piece)?;
        return builder.push_value(value);
    }
    fill_cell(builder, kind, piece_cell(kind, piece))
}

// Adds a cell of a column's type.
#[tactic(auto, using(crate::proofs::FillSteps::cell_steps))]
fn fill_cell(builder: &mut TableBuilder, kind: Kind, cell: CellRef<'_>) -> Result<(), AllocError>
    requires column { IsSomeAnd (slice_get builder.old.grid.columns (length builder.old.row)) (λ c. c.kind ≡ kind) }
    requires of_kind { IsOfKind kind (seen cell) }
    requires form { IsWellFormed (seen cell) }
    ensures added { OnOk result (builder.new ≡ with_cell builder.old (seen cell.entry)) }
{
    builder.push_cell(cell)
}

// What a column of a type shows of a piece that is not empty.
#[tactic(auto, unfolding(kql_meaning::specs::Parse::piece_value, kql_meaning::specs::Cuts::piece_read, kql_meaning::specs::Cuts::filled_piece_read, kql_scalar_fns::specs::Conversion::moment_written, kql_cells::specs::Keys::absent))]
fn piece_cell(kind: Kind, piece: &str) -> CellRef<'_>
    requires filled { piece.now ≢ [] }
    requires scalar { kind ≢ Dynamic }
    ensures value { seen result ≡ piece_value kind piece.now }
    ensures of_kind { IsOfKind kind (seen result) }
    ensures form { IsWellFormed (seen result) }
{
    match kind {
        Kind::Text => CellRef::Text(piece),
        Kind::Bool => match read_bool(piece) {
            Some(holds) => CellRef::Bool(holds),
            None => CellRef::Null,
        },
        Kind::Long => match read_long(piece) {
            Some(number) => CellRef::Long(number),
            None => CellRef::Null,
        },
        Kind::Moment => match read_moment(piece) {
            Some(ticks) => CellRef::Moment(ticks),
            None => CellRef::Null,
        },
        Kind::Span => match read_span(piece) {
            Some(ticks) => CellRef::Span(ticks),
            None => CellRef::Null,
        },
        Kind::Dynamic => CellRef::Null,
    }
}

// Adds an absent cell for each column of a pattern.
#[tactic(auto, using(crate::proofs::FillSteps::absent_steps))]
fn fill_absent(builder: &mut TableBuilder, pattern: &[PatItem]) -> Result<(), AllocError>
    requires columns { drop (length builder.old.row) builder.old.grid.columns ≡ pattern_columns pattern.now }
    ensures added { OnOk result (builder.new ≡ has_row builder.old (builder.old.row ++ absent_row (pattern_columns pattern.now))) }
{
    let mut left = pattern;
    'items: while let Some((item, later)) = left.split_first() {
        fill_nothing(builder, item)?;
        left = later;
    }
    Ok(())
}

// Adds an absent cell for a column, or nothing for another item.
#[tactic(auto, using(crate::proofs::FillSteps::item_steps))]
fn fill_nothing(builder: &mut TableBuilder, item: &PatItem) -> Result<(), AllocError>
    requires column { IsNextColumn builder.old item.now }
    ensures added { OnOk result (builder.new ≡ has_row builder.old (builder.old.row ++ item_absent item.now)) }
{
    match item {
        PatItem::Star => Ok(()),
        PatItem::Literal(_) => Ok(()),
        PatItem::Column { name: _, kind } => fill_cell(builder, *kind, kind.absent()),
    }
}
