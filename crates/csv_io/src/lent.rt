ghost use Rattle.std.specs.Prelude.{◌≡◌, IfOk};

use kql_values::{Numbers, TextColumn, Vector};
use std::alloc::{AllocError, Global};
use std::marker::Model;

// How the cells of a column are stored.
#[derive(Clone, Copy)]
pub(crate) enum Stored<'a> {
    Numbers(Numbers<'a>),
    Texts(&'a TextColumn),
    Cells(&'a Vector),
}

// A column of which is known how its cells are stored, so that nobody asks again at each row.
#[derive(Drop)]
pub(crate) struct Lent<'a> {
    pub(crate) stored: Stored<'a>,
}

impl<'a> Model for Lent<'a> {
    ghost use Rattle.std.specs.Prelude.{List};
    ghost use Rattle.std.specs.Coded.{codes};
    ghost use Rattle.kql_cells.specs.contracts.dynamic.Dyn as dynamic;
    ghost use Rattle.kql_cells.specs.declared.value.Value.{Value as Cell};
    ghost use Rattle.csv_io.specs.Lending.{IsWhole, held};

    ghost Value = { List Cell };

    ghost coded = { Prim.hlevel (codes, dynamic.the_row.coded) };

    ghost view = { λ l. held l.stored };

    ghost invariant = { λ l. IsWhole l.stored };
}

impl<'a> Lent<'a> {
    // A column, lent.
    pub(crate) fn new(column: &'a Vector) -> Lent<'a>
        ensures { result ≡ column.now }
    {
        if let Some(numbers) = column.numbers() {
            return Lent {
                stored: Stored::Numbers(numbers),
            };
        }
        match column.texts() {
            Some(texts) => Lent {
                stored: Stored::Texts(texts),
            },
            None => Lent {
                stored: Stored::Cells(column),
            },
        }
    }
}

// Columns, lent.
pub(crate) fn lent_columns<'a>(
    alloc: Global,
    columns: &'a [Vector],
) -> Result<Vec<Lent<'a>>, AllocError>
    ensures { IfOk result (λ v. v.items ≡ columns.now) }
{
    let mut lent = Vec::with_capacity(alloc, columns.len())?;
    for column in columns {
        lent.push(Lent::new(column))?;
    }
    Ok(lent)
}
