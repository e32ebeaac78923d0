//! The line of a header with types.

ghost use Rattle.std.specs.Prelude.{◌≡◌, ◌↔◌, IfOk, IsTrue, map};
ghost use Rattle.csv.specs.Writing.{default_writer, row_text};
ghost use Rattle.csv_io.specs.Reload.{typed_name};
ghost use Rattle.csv_io.specs.Text.{names_of};
ghost use Rattle.kql_proposal.specs.Headed.{kinds_given};

use csv_io::typed_text;
use kql_cells::{Bytes, Column, Kind, Schema};
use kql_items::Items;
use kql_values::Table;
use std::alloc::{AllocError, Global};

/// The line of a header for these columns with other types; a string where no other is given.
#[tactic(auto, using(crate::proofs::HeaderFacts::header_facts))]
pub(crate) fn header_with(
    alloc: Global,
    schema: &Schema,
    kinds: &[Kind],
) -> Result<Bytes, AllocError>
    ensures line { IfOk result (λ b. b ≡ row_text default_writer (map typed_name (kinds_given schema.now kinds.now))) }
{
    let columns = columns_with(alloc, schema.columns(), kinds)?;
    typed_text(alloc, &Table::empty(alloc, Schema::from_items(columns))?)
}

// These columns with other types.
fn columns_with(
    alloc: Global,
    columns: &[Column],
    kinds: &[Kind],
) -> Result<Items<Column>, AllocError>
    ensures given { IfOk result (λ cs. cs ≡ kinds_given columns.now kinds.now) }
{
    let mut made = Items::with_capacity(alloc, columns.len())?;
    let mut left = columns;
    let mut kinds_left = kinds;
    'columns: while let Some((column, more)) = left.split_first() {
        let kind = match kinds_left.first() {
            Some(kind) => *kind,
            None => Kind::Text,
        };
        made.push(Column {
            name: column.name.copy(alloc)?,
            kind,
        })?;
        left = more;
        kinds_left = match kinds_left {
            [_, kinds @ ..] => kinds,
            [] => kinds_left,
        };
    }
    Ok(made)
}

/// Whether two tables have columns of the same names.
pub(crate) fn have_same_names(a: &Table, b: &Table) -> bool
    ensures { IsTrue result ↔ (names_of a.now.columns ≡ names_of b.now.columns) }
{
    are_named_alike(a.schema().columns(), b.schema().columns())
}

fn are_named_alike(a: &[Column], b: &[Column]) -> bool
    ensures { IsTrue result ↔ (names_of a.now ≡ names_of b.now) }
{
    let mut left = a;
    let mut right = b;
    'columns: while let Some((x, more)) = left.split_first() {
        let Some((y, others)) = right.split_first() else {
            return false;
        };
        if x.name.as_str() != y.name.as_str() {
            return false;
        }
        left = more;
        right = others;
    }
    right.is_empty()
}
