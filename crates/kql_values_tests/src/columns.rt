use crate::shown::{Made, STORES, Shown, both, column, has, vector_of, with_column};
use kql_values::*;
use std::alloc::Global;
use std::test::Fail;

// A column's name, its type and its cells.
#[derive(Clone, Copy)]
struct Cells {
    name: &'static str,
    kind: Kind,
    cells: &'static [Shown],
}

// A column `a` of a type.
fn own(kind: Kind, cells: &'static [Shown]) -> Cells {
    Cells {
        name: "a",
        kind,
        cells,
    }
}

// A column `b` of texts.
fn words(cells: &'static [Shown]) -> Cells {
    Cells {
        name: "b",
        kind: Kind::Text,
        cells,
    }
}

const WORDS: &[Shown] = &[
    Shown::Text("w"),
    Shown::Text(""),
    Shown::Text("é"),
    Shown::Text("xyz"),
];

// A vector alone.
fn alone(alloc: Global, vector: Made<Vector>) -> Made<Vec<Vector>> {
    let vector = vector?;
    let mut vectors = Vec::with_capacity(alloc, 1)?;
    vectors.push(vector)?;
    Ok(vectors)
}

// The table of one column, or one without columns where the cells do not fit it.
fn one(alloc: Global, cells: Cells) -> Made<Table> {
    let schema = with_column(
        Ok(Schema::new(alloc)),
        column(alloc, cells.name, cells.kind),
    );
    let vectors = alone(alloc, vector_of(alloc, cells.kind, cells.cells));
    let (schema, vectors) = both(schema, vectors)?;
    let count = cells.cells.len();
    if columns_fit(schema.columns(), count, vectors.as_slice()) {
        Ok(Table::from_columns(alloc, schema, count, vectors))
    } else {
        Table::empty(alloc, Schema::new(alloc))
    }
}

// Adds a column, where the table takes it.
fn add(alloc: Global, table: &mut Table, cells: Cells) -> Made<bool> {
    let vector = vector_of(alloc, cells.kind, cells.cells);
    let (column, vector) = both(column(alloc, cells.name, cells.kind), vector)?;
    let taken = vector.len() == table.len()
        && vector.fits(&column)
        && table.schema().find(column.name.as_str()).is_none();
    if taken {
        table.push_column(column, vector)?;
    }
    Ok(taken)
}

// Whether a table has two columns of these cells, the second of which is called so.
fn has_two(table: &Table, first: &[Shown], second: &[Shown], name: &str) -> bool {
    table.schema().len() == 2
        && has(table.column(0), first)
        && has(table.column(1), second)
        && table.schema().find(name) == Some(1)
}

// Whether a column is taken where it may be, and refused for its name, its length and its cells.
fn takes_columns(alloc: Global, table: &mut Table, cells: Cells) -> Made<bool> {
    let again = add(alloc, table, cells)?;
    let short = add(alloc, table, words(&[]))?;
    let wrong = add(alloc, table, words(&[Shown::Null; 4]))?;
    let taken = add(alloc, table, words(WORDS))?;
    Ok(!again && !short && !wrong && taken && has_two(table, cells.cells, WORDS, "b"))
}

// Two tables beside each other, or one without columns where they do not stand so.
fn beside(alloc: Global, left: Made<Table>, right: Made<Table>) -> Made<Table> {
    let (left, right) = both(left, right)?;
    if left.takes_beside(&right) {
        left.beside(right)
    } else {
        Table::empty(alloc, Schema::new(alloc))
    }
}

// Whether two columns beside each other are a table of both, in this order.
fn stand(alloc: Global, left: Cells, right: Cells) -> Made<bool> {
    let table = beside(alloc, one(alloc, left), one(alloc, right))?;
    Ok(has_two(&table, left.cells, right.cells, right.name))
}

// Whether a column stands beside another in both orders, also without rows, and not where a name is the same or a row
// is missing.
fn stands(alloc: Global, cells: Cells) -> Made<bool> {
    let before = stand(alloc, cells, words(WORDS))?;
    let behind = stand(alloc, words(WORDS), cells)?;
    let empty = stand(alloc, own(cells.kind, &[]), words(&[]))?;
    let same = stand(alloc, cells, cells)?;
    let short = stand(alloc, cells, words(&[]))?;
    Ok(before && behind && empty && !same && !short)
}

// How many rows of `STORES` fit a column of their type: the others hold another type, or a null text.
const FITTING: usize = 5;

// Whether a column is made to a table where it fits, and widened.
fn is_right(alloc: Global, i: usize, cells: Cells) -> Made<bool> {
    let mut table = one(alloc, cells)?;
    if i >= FITTING {
        return Ok(table.schema().len() == 0);
    }
    Ok(takes_columns(alloc, &mut table, cells)?)
}

// The first row of `STORES` that is wrong.
fn first_wrong(alloc: Global, rows: &'static [(Kind, &'static [Shown])]) -> Made<Option<usize>> {
    for i in 0..rows.len() {
        let (kind, cells) = rows[i];
        let cells = own(kind, cells);
        if !is_right(alloc, i, cells)? || stands(alloc, cells)? != (i < FITTING) {
            return Ok(Some(i));
        }
    }
    Ok(None)
}

#[test]
fn widens_tables_by_columns(rt: HostRuntime) -> Result<(), Fail> {
    assert_eq!(rt; first_wrong(rt.alloc(), STORES)?, None);
    Ok(())
}
