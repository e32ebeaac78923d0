use crate::shown::{Made, Shown, both, column, has, with_column};
use kql_values::*;
use std::alloc::Global;
use std::test::Fail;

// The schema of a column of longs and a column of texts.
fn schema(alloc: Global, first: &str, second: &str) -> Made<Schema> {
    let one = with_column(Ok(Schema::new(alloc)), column(alloc, first, Kind::Long));
    with_column(one, column(alloc, second, Kind::Text))
}

// A row of a number, or null, and a text.
type Pair = (Option<i64>, &'static str);

const FIRST: Pair = (Some(1), "a");

const SECOND: Pair = (None, "");

const THIRD: Pair = (Some(3), "ccc");

fn number(pair: Pair) -> CellRef<'static> {
    match pair.0 {
        None => CellRef::Null,
        Some(n) => CellRef::Long(n),
    }
}

// Adds a row cell by cell, and tells whether each was taken where it fits.
fn grow(builder: &mut TableBuilder, pair: Pair) -> Made<bool> {
    let number = number(pair);
    if builder.filled() != 0 || !builder.fits_next(number) {
        return Ok(false);
    }
    builder.push_cell(number)?;
    if builder.filled() != 1 || !builder.fits_next(CellRef::Text(pair.1)) {
        return Ok(false);
    }
    builder.push_cell(CellRef::Text(pair.1))?;
    if builder.filled() != builder.schema().len() || builder.fits_next(CellRef::Null) {
        return Ok(false);
    }
    builder.end_row()?;
    Ok(builder.filled() == 0)
}

fn grow_all(builder: &mut TableBuilder, pairs: &[Pair]) -> Made<bool> {
    for pair in pairs {
        if !grow(builder, *pair)? {
            return Ok(false);
        }
    }
    Ok(true)
}

// The table of these rows, or of none where a row is not taken.
fn built(alloc: Global, pairs: &[Pair]) -> Made<Table> {
    let mut builder = TableBuilder::new(alloc, schema(alloc, "k", "t")?)?;
    let taken = grow_all(&mut builder, pairs)?;
    if taken && builder.filled() == 0 {
        Ok(builder.finish())
    } else {
        Table::empty(alloc, Schema::new(alloc))
    }
}

// The three rows.
fn table(alloc: Global) -> Made<Table> {
    built(alloc, &[FIRST, SECOND, THIRD])
}

// Whether a table has these rows.
fn shows(table: &Table, want: &[Pair]) -> bool {
    if table.len() != want.len() || table.schema().len() != 2 {
        return false;
    }
    for i in 0..want.len() {
        if i < table.len()
            && (!table.cell(i, 0).is_same(number(want[i]))
                || !table.cell(i, 1).is_same(CellRef::Text(want[i].1)))
        {
            return false;
        }
    }
    true
}

// Whether what is made has these rows.
fn gives(made: Made<Table>, want: &[Pair]) -> Made<bool> {
    Ok(shows(&made?, want))
}

#[test]
fn grows_cell_by_cell(rt: HostRuntime) -> Result<(), Fail> {
    let alloc = rt.alloc();
    assert!(rt; gives(table(alloc), &[FIRST, SECOND, THIRD])?);
    assert!(rt; gives(built(alloc, &[]), &[])?);
    Ok(())
}

// What a builder of a column of longs takes first: a long and null, and no text.
fn takes_longs(builder: &TableBuilder) -> bool {
    builder.fits_next(CellRef::Long(1))
        && builder.fits_next(CellRef::Null)
        && !builder.fits_next(CellRef::Text("1"))
        && !builder.fits_next(CellRef::Bool(true))
}

#[test]
fn takes_what_fits(rt: HostRuntime) -> Result<(), Fail> {
    let alloc = rt.alloc();
    assert!(rt; takes_longs(&TableBuilder::new(alloc, schema(alloc, "k", "t")?)?));
    assert!(rt; !takes_longs(&TableBuilder::new(alloc, Schema::new(alloc))?));
    Ok(())
}

// Whether rows of three are gathered and cut well.
fn moves(alloc: Global, table: &Table) -> Made<bool> {
    if table.len() != 3 {
        return Ok(false);
    }
    let some = gives(table.gather(alloc, &[2, 0, 2]), &[THIRD, FIRST, THIRD])?;
    let none = gives(table.gather(alloc, &[]), &[])?;
    let outer = gives(
        table.gather_or_absent(alloc, &[None, Some(2)]),
        &[SECOND, THIRD],
    )?;
    let last = gives(table.slice(alloc, 1, 3), &[SECOND, THIRD])?;
    let end = gives(table.slice(alloc, 3, 3), &[])?;
    Ok(some && none && outer && last && end)
}

// Whether the last two of three rows are kept.
fn keeps(table: &mut Table) -> Made<bool> {
    if table.len() == 3 {
        table.keep(&[1, 2])?;
    }
    Ok(shows(table, &[SECOND, THIRD]))
}

#[test]
fn moves_rows(rt: HostRuntime) -> Result<(), Fail> {
    let alloc = rt.alloc();
    let mut table = table(alloc)?;
    assert!(rt; moves(alloc, &table)?);
    assert!(rt; keeps(&mut table)?);
    Ok(())
}

// Whether the moves of a table of no rows are right.
fn moves_none(alloc: Global, table: &mut Table) -> Made<bool> {
    let some = gives(table.gather(alloc, &[]), &[])?;
    let outer = gives(table.gather_or_absent(alloc, &[None]), &[SECOND])?;
    table.keep(&[])?;
    table.append(table.copy(alloc)?)?;
    Ok(some && outer && shows(table, &[]))
}

#[test]
fn moves_tables_of_no_rows(rt: HostRuntime) -> Result<(), Fail> {
    let alloc = rt.alloc();
    let mut none = Table::empty(alloc, schema(alloc, "k", "t")?)?;
    assert!(rt; moves_none(alloc, &mut none)?);
    Ok(())
}

// Whether a table is appended to itself and cut off.
fn joins(alloc: Global, table: &mut Table) -> Made<bool> {
    table.append(table.copy(alloc)?)?;
    table.truncate(4);
    Ok(shows(table, &[FIRST, SECOND, THIRD, FIRST]))
}

// A table with the rows of another behind its own, or without them where the types are others.
fn appended(table: Made<Table>, more: Made<Table>) -> Made<Table> {
    let (mut table, more) = both(table, more)?;
    if have_same_kinds(more.schema().columns(), table.schema().columns()) {
        table.append(more)?;
    }
    Ok(table)
}

// A table under another schema, or as it was where the types are others.
fn renamed(table: Made<Table>, schema: Made<Schema>) -> Made<Table> {
    let (table, schema) = both(table, schema)?;
    if have_same_kinds(table.schema().columns(), schema.columns()) {
        Ok(table.with_schema(schema))
    } else {
        Ok(table)
    }
}

// The columns of a table turned round, where it has two.
fn turned(table: Made<Table>) -> Made<Table> {
    let table = table?;
    if table.schema().len() == 2 {
        table.select(&[1, 0])
    } else {
        Ok(table)
    }
}

// The vectors of a table, taken out and put back.
fn put_back(alloc: Global, table: Made<Table>) -> Made<Table> {
    let (schema, count, columns) = table?.into_columns();
    Ok(Table::from_columns(alloc, schema, count, columns))
}

// Where a table has a column of a name.
fn place(made: Made<Table>, name: &str) -> Made<Option<usize>> {
    Ok(made?.schema().find(name))
}

// Whether tables are appended where the types are the same, also to and of no rows, and not where they are others.
fn appends(alloc: Global) -> Made<bool> {
    let one = &[THIRD];
    let none = gives(appended(built(alloc, one), built(alloc, &[])), one)?;
    let some = gives(appended(built(alloc, &[]), built(alloc, one)), one)?;
    let other = gives(appended(built(alloc, one), turned(table(alloc))), one)?;
    Ok(none && some && other)
}

#[test]
fn joins_tables(rt: HostRuntime) -> Result<(), Fail> {
    let alloc = rt.alloc();
    assert!(rt; joins(alloc, &mut table(alloc)?)?);
    assert!(rt; appends(alloc)?);
    assert!(rt; gives(put_back(alloc, table(alloc)), &[FIRST, SECOND, THIRD])?);
    Ok(())
}

// Where the second column stands under a schema of the same types and one of others, and turned round.
fn places(alloc: Global) -> Made<[Option<usize>; 3]> {
    let other = schema(alloc, "t", "k");
    let same = place(renamed(table(alloc), other), "k")?;
    let one = with_column(Ok(Schema::new(alloc)), column(alloc, "k", Kind::Long));
    let kept = place(renamed(table(alloc), one), "t")?;
    let turned = place(turned(table(alloc)), "t")?;
    Ok([same, kept, turned])
}

#[test]
fn names_columns(rt: HostRuntime) -> Result<(), Fail> {
    assert_eq!(rt; places(rt.alloc())?, [Some(1), Some(1), Some(0)]);
    Ok(())
}

// Whether the columns of a table turned round have these cells.
fn shows_columns(made: Made<Table>, first: &[Shown], second: &[Shown]) -> Made<bool> {
    let table = made?;
    Ok(table.schema().len() == 2 && has(table.column(0), first) && has(table.column(1), second))
}

#[test]
fn lends_columns(rt: HostRuntime) -> Result<(), Fail> {
    let alloc = rt.alloc();
    let numbers = &[Shown::Long(1), Shown::Null, Shown::Long(3)];
    let texts = &[Shown::Text("a"), Shown::Text(""), Shown::Text("ccc")];
    assert!(rt; shows_columns(table(alloc), numbers, texts)?);
    assert!(rt; shows_columns(turned(table(alloc)), texts, numbers)?);
    Ok(())
}

// How many rows a table has without its columns.
fn bare(table: Made<Table>) -> Made<usize> {
    Ok(table?.select(&[])?.len())
}

// A table beside itself without its columns.
fn beside_bare(alloc: Global, table: &Table) -> Made<Table> {
    let bare = table.copy(alloc)?.select(&[])?;
    table.copy(alloc)?.beside(bare)
}

#[test]
fn keeps_rows_without_columns(rt: HostRuntime) -> Result<(), Fail> {
    let alloc = rt.alloc();
    assert_eq!(rt; bare(table(alloc))?, 3);
    assert!(rt; gives(beside_bare(alloc, &table(alloc)?), &[FIRST, SECOND, THIRD])?);
    Ok(())
}

// Whether a row is copied out and added again, by values and by cells.
fn copies_rows(alloc: Global, table: &mut Table) -> Made<bool> {
    if table.len() != 3 || table.schema().len() != 2 {
        return Ok(false);
    }
    let mut row = table.copy_row(alloc, 2)?;
    table.push_drained(&mut row)?;
    Ok(row.is_empty() && shows(table, &[FIRST, SECOND, THIRD, THIRD]))
}

// Adds a row by values, where it fits.
fn push_values(alloc: Global, table: &mut Table, text: &str) -> Made<bool> {
    let mut row = Values::new(alloc);
    row.push(Value::Null)?;
    row.push(Value::Text(KText::from_str(alloc, text)?))?;
    let fits = row_fits(table.schema().columns(), row.as_slice());
    if fits {
        table.push_row(row)?;
    }
    Ok(fits)
}

// Adds a row of cells, where it fits.
fn push_cells(table: &mut Table, row: &[CellRef<'_>]) -> Made<bool> {
    let fits = cells_fit(table.schema().columns(), row);
    if fits {
        table.push_cells(row)?;
    }
    Ok(fits)
}

// Whether rows are added where they fit, and refused where a cell is missing or of another type.
fn adds_rows(alloc: Global, table: &mut Table) -> Made<bool> {
    let short = push_cells(table, &[CellRef::Long(1)])?;
    let wrong = push_cells(table, &[CellRef::Text("1"), CellRef::Text("a")])?;
    let right = push_cells(table, &[CellRef::Long(1), CellRef::Text("a")])?;
    let values = push_values(alloc, table, "")?;
    Ok(!short && !wrong && right && values && shows(table, &[FIRST, SECOND]))
}

#[test]
fn adds_rows_that_fit(rt: HostRuntime) -> Result<(), Fail> {
    let alloc = rt.alloc();
    assert!(rt; copies_rows(alloc, &mut table(alloc)?)?);
    assert!(rt; adds_rows(alloc, &mut built(alloc, &[])?)?);
    Ok(())
}

// Whether rows take a row of their width.
fn grows_rows(rows: &mut Rows) -> Made<bool> {
    if rows.len() != 3 || rows.width(0) != 2 {
        return Ok(false);
    }
    rows.push_cells(&[CellRef::Null, CellRef::Text("b")])?;
    Ok(rows.len() == 4)
}

// Whether the last of four rows and the first are gathered.
fn gathers_rows(alloc: Global, rows: &Rows) -> Made<bool> {
    if rows.len() != 4 {
        return Ok(false);
    }
    let (count, columns) = rows.gather(alloc, &[3, 0])?.into_columns();
    Ok(
        count == 2
            && columns.len() == 2
            && has(&columns[0], &[Shown::Null, Shown::Long(1)])
            && has(&columns[1], &[Shown::Text("b"), Shown::Text("a")]),
    )
}

#[test]
fn moves_rows_alone(rt: HostRuntime) -> Result<(), Fail> {
    let alloc = rt.alloc();
    let (_, mut rows) = table(alloc)?.into_parts();
    assert!(rt; grows_rows(&mut rows)?);
    assert!(rt; gathers_rows(alloc, &rows)?);
    Ok(())
}

// A table under a name.
fn named(alloc: Global, name: &str, table: Made<Table>) -> Made<Named> {
    let (name, table) = both(KText::from_str(alloc, name), table)?;
    Ok(Named { name, table })
}

// A catalogue and a table more, where it has none of that name.
fn with_table(catalogue: Made<Catalogue>, named: Made<Named>) -> Made<Catalogue> {
    let (mut catalogue, named) = both(catalogue, named)?;
    if catalogue.find(named.name.as_str()).is_none() {
        catalogue.push(named)?;
    }
    Ok(catalogue)
}

// The three rows as `T`, and the last alone as `L`; a second `T` is not taken.
fn catalogue(alloc: Global) -> Made<Catalogue> {
    let none = Ok(Catalogue::new(alloc));
    let one = with_table(none, named(alloc, "T", table(alloc)));
    let two = with_table(one, named(alloc, "L", built(alloc, &[THIRD])));
    with_table(two, named(alloc, "T", built(alloc, &[])))
}

// The table of a name, moved out, or one without columns.
fn taken(alloc: Global, catalogue: Made<Catalogue>, name: &str) -> Made<Table> {
    let catalogue = catalogue?;
    match catalogue.find(name) {
        Some(k) => Ok(catalogue.take(k)),
        None => Table::empty(alloc, Schema::new(alloc)),
    }
}

// Whether the schemas stand under their names.
fn tells_schemas(alloc: Global, catalogue: &Catalogue) -> Made<bool> {
    let schemas = catalogue.schemas(alloc)?;
    Ok(
        catalogue.tables().len() == 2
            && schemas.schemas().len() == 2
            && schemas.find("T") == Some(0)
            && schemas.find("L") == Some(1)
            && schemas.find("t").is_none(),
    )
}

// Whether each table is moved out by its name, and none by another.
fn takes(alloc: Global) -> Made<bool> {
    let first = gives(taken(alloc, catalogue(alloc), "T"), &[FIRST, SECOND, THIRD])?;
    let last = gives(taken(alloc, catalogue(alloc), "L"), &[THIRD])?;
    let none = gives(taken(alloc, catalogue(alloc), "t"), &[])?;
    Ok(first && last && !none)
}

#[test]
fn keeps_tables(rt: HostRuntime) -> Result<(), Fail> {
    let alloc = rt.alloc();
    assert!(rt; tells_schemas(alloc, &catalogue(alloc)?)?);
    assert!(rt; takes(alloc)?);
    Ok(())
}
