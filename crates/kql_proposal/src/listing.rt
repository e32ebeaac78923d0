//! The columns of tables as a table.

ghost use Rattle.std.specs.Prelude.{◌≡◌, ◌++◌, ◌∷◌, [], IfOk, OnOk};
ghost use Rattle.csv_io.specs.Reload.{word_of};
ghost use Rattle.kql_cells.specs.Seen.{seen};
ghost use Rattle.kql_proposal.specs.Listing.{count_value, listed, listing_columns, row_of, rows_of_table};

use kql_cells::{CellRef, Column, KText, Kind, NamedSchema, Schema};
use kql_items::Items;
use kql_values::Table;
use std::alloc::{AllocError, Global};

/// A table with a row for each column of these tables: the table's name, the column's, its type, and how many rows the table has,
/// where the count of its place is told.
pub fn schema_table(
    alloc: Global,
    tables: &[NamedSchema],
    counts: &[i64],
) -> Result<Table, AllocError>
    ensures table { IfOk result (λ t. t ≡ record { columns = listing_columns; lines = listed tables.now counts.now }) }
{
    let mut listing = Table::empty(alloc, listing_schema(alloc)?)?;
    let mut left = tables;
    let mut counts_left = counts;
    'tables: while let Some((table, more)) = left.split_first() {
        match counts_left {
            [count, others @ ..] => {
                push_columns(&mut listing, table, Some(*count))?;
                counts_left = others;
            }
            [] => push_columns(&mut listing, table, None)?,
        }
        left = more;
    }
    Ok(listing)
}

// Adds a row for each column of a table, with the count of its rows where that is told.
fn push_columns(
    listing: &mut Table,
    named: &NamedSchema,
    count: Option<i64>,
) -> Result<(), AllocError>
    requires columns { listing.old.columns ≡ listing_columns }
    ensures columns { OnOk result (listing.new.columns ≡ listing_columns) }
    ensures lines { OnOk result (listing.new.lines ≡ listing.old.lines ++ rows_of_table named.now (count_value count)) }
{
    for column in named.schema.columns() {
        push_column(listing, named.name.as_str(), column, count)?;
    }
    Ok(())
}

// Adds the row of a column.
#[tactic(auto, using(crate::proofs::ListingFacts::listing_facts))]
fn push_column<'a>(
    listing: &mut Table,
    table: &'a str,
    column: &'a Column,
    count: Option<i64>,
) -> Result<(), AllocError>
    requires columns { listing.old.columns ≡ listing_columns }
    ensures columns { OnOk result (listing.new.columns ≡ listing_columns) }
    ensures line { OnOk result (listing.new.lines ≡ listing.old.lines ++ row_of table.now (count_value count) column.now ∷ []) }
{
    listing.push_cells(&[
        CellRef::Text(table),
        CellRef::Text(column.name.as_str()),
        CellRef::Text(kind_word(column.kind)),
        count_cell(count),
    ])
}

// A count of rows, or null.
fn count_cell(count: Option<i64>) -> CellRef<'static>
    ensures { seen result ≡ count_value count }
{
    match count {
        Some(count) => CellRef::Long(count),
        None => CellRef::Null,
    }
}

// The columns of the listing.
#[tactic(auto, using(crate::proofs::ListingFacts::listing_facts))]
fn listing_schema(alloc: Global) -> Result<Schema, AllocError>
    ensures columns { IfOk result (λ s. s ≡ listing_columns) }
{
    let mut columns = Items::with_capacity(alloc, 4)?;
    columns.push(column(alloc, "Table", Kind::Text)?)?;
    columns.push(column(alloc, "Column", Kind::Text)?)?;
    columns.push(column(alloc, "Type", Kind::Text)?)?;
    columns.push(column(alloc, "Rows", Kind::Long)?)?;
    Ok(Schema::from_items(columns))
}

fn column(alloc: Global, name: &str, kind: Kind) -> Result<Column, AllocError>
    ensures { IfOk result (λ c. c ≡ record { name = name.now; kind = kind }) }
{
    Ok(Column {
        name: KText::from_str(alloc, name)?,
        kind,
    })
}

// The word for a type in a header.
fn kind_word(kind: Kind) -> &'static str
    ensures word { result.now ≡ word_of kind }
{
    match kind {
        Kind::Bool => "bool",
        Kind::Long => "long",
        Kind::Text => "string",
        Kind::Moment => "datetime",
        Kind::Span => "timespan",
        Kind::Dynamic => "dynamic",
    }
}
