use crate::shown::{Made, STORES, Shown, both, has, vector_of, with_cells};
use kql_items::Items;
use kql_values::*;
use std::alloc::Global;
use std::test::Fail;

// Whether what is made has these cells.
fn gives(made: Made<Vector>, want: &[Shown]) -> Made<bool> {
    Ok(has(&made?, want))
}

// A vector with the cells of another behind its own.
fn appended(vector: Made<Vector>, more: Made<Vector>) -> Made<Vector> {
    let (mut vector, more) = both(vector, more)?;
    vector.append(more)?;
    Ok(vector)
}

// Whether what is cut of a vector of four cells is right.
fn is_cut_well(alloc: Global, vector: &Vector, cells: &[Shown]) -> Made<bool> {
    if vector.len() != 4 || cells.len() != 4 || !has(vector, cells) {
        return Ok(false);
    }
    let first = gives(vector.slice(alloc, 0, 2), &[cells[0], cells[1]])?;
    let last = gives(vector.slice(alloc, 1, 4), &[cells[1], cells[2], cells[3]])?;
    let all = gives(vector.slice(alloc, 0, 4), cells)?;
    Ok(first && last && all)
}

// Whether nothing is cut of a vector of four cells, and what is gathered of it is right.
fn is_gathered_well(alloc: Global, vector: &Vector, cells: &[Shown]) -> Made<bool> {
    if vector.len() != 4 || cells.len() != 4 {
        return Ok(false);
    }
    let start = gives(vector.slice(alloc, 0, 0), &[])?;
    let end = gives(vector.slice(alloc, 4, 4), &[])?;
    let none = gives(vector.gather(alloc, &[]), &[])?;
    let picked = &[cells[3], cells[1], cells[1]];
    let some = gives(vector.gather(alloc, &[3, 1, 1]), picked)?;
    Ok(start && end && none && some)
}

// Whether a vector of four cells is gathered with absent cells, copied, appended and cut off well.
fn is_joined_well(alloc: Global, vector: &mut Vector, cells: &[Shown]) -> Made<bool> {
    if vector.len() != 4 || cells.len() != 4 {
        return Ok(false);
    }
    let places = &[None, Some(1)];
    let outer = vector.gather_or_absent(alloc, places, CellRef::Span(4));
    let absent = gives(outer, &[Shown::Span(4), cells[1]])?;
    vector.append(vector.copy(alloc)?)?;
    vector.truncate(6);
    let want = &[cells[0], cells[1], cells[2], cells[3], cells[0], cells[1]];
    Ok(absent && has(vector, want))
}

// Whether cells are stored as numbers of a type or as texts where they are such, and else as neither.
fn is_stored_as(vector: &Vector, kind: Kind) -> bool {
    let own = match kind {
        Kind::Long => Some(NumberKind::Long),
        Kind::Moment => Some(NumberKind::Moment),
        Kind::Span => Some(NumberKind::Span),
        _ => None,
    };
    let numbers = vector.numbers();
    numbers.map(|n| n.kind) == own
        && numbers.is_none_or(|n| n.numbers.len() == vector.len())
        && vector.texts().is_some() == (kind == Kind::Text)
        && vector.texts().is_none_or(|t| t.len() == vector.len())
}

// Whether what is made is stored as values of a type.
fn is_made_as(made: Made<Vector>, kind: Kind) -> Made<bool> {
    Ok(is_stored_as(&made?, kind))
}

// Whether what is made of a vector of four cells is stored as it is.
fn stays_typed(alloc: Global, vector: &Vector, kind: Kind) -> Made<bool> {
    if vector.len() != 4 {
        return Ok(false);
    }
    let some = is_made_as(vector.gather(alloc, &[3, 1]), kind)?;
    let part = is_made_as(vector.slice(alloc, 1, 3), kind)?;
    let places = &[Some(0), Some(1)];
    let outer = is_made_as(vector.gather_or_absent(alloc, places, kind.absent()), kind)?;
    Ok(some && part && outer)
}

// Whether a vector behind itself is stored as it is.
fn joins_typed(alloc: Global, vector: &Vector, kind: Kind) -> Made<bool> {
    is_made_as(appended(vector.copy(alloc), vector.copy(alloc)), kind)
}

// The rows of `STORES` whose cells are all of the type of their vector.
const TYPED: usize = 6;

// Whether a row of `STORES` is right.
fn is_right(alloc: Global, i: usize, kind: Kind, cells: &[Shown]) -> Made<bool> {
    let empty = Vector::new(alloc, kind);
    let fresh = is_stored_as(&empty, kind);
    let mut vector = appended(Ok(empty), vector_of(alloc, kind, cells))?;
    Ok(fresh && moves(alloc, &mut vector, i, kind, cells)?)
}

// Whether the vector of a row of `STORES` is moved well.
fn moves(alloc: Global, vector: &mut Vector, i: usize, kind: Kind, cells: &[Shown]) -> Made<bool> {
    let cut = is_cut_well(alloc, vector, cells)? && is_gathered_well(alloc, vector, cells)?;
    let stays = stays_typed(alloc, vector, kind)? && joins_typed(alloc, vector, kind)?;
    Ok(cut && (stays || i >= TYPED) && is_joined_well(alloc, vector, cells)?)
}

// The first row that is wrong.
fn first_wrong(alloc: Global, rows: &[(Kind, &[Shown])]) -> Made<Option<usize>> {
    for i in 0..rows.len() {
        let (kind, cells) = rows[i];
        if !is_right(alloc, i, kind, cells)? {
            return Ok(Some(i));
        }
    }
    Ok(None)
}

#[test]
fn stores_cells(rt: HostRuntime) -> Result<(), Fail> {
    assert_eq!(rt; first_wrong(rt.alloc(), STORES)?, None);
    Ok(())
}

// The first pair of rows that are appended wrong: each store onto each.
fn first_wrong_pair(alloc: Global, rows: &[(Kind, &[Shown])]) -> Made<Option<(usize, usize)>> {
    for i in 0..rows.len() {
        let (kind, cells) = rows[i];
        for j in 0..rows.len() {
            let (more_kind, more) = rows[j];
            let moved = appended(
                vector_of(alloc, kind, cells),
                vector_of(alloc, more_kind, more),
            );
            let pushed = with_cells(vector_of(alloc, Kind::Dynamic, cells), more);
            if !are_alike(moved, pushed)? {
                return Ok(Some((i, j)));
            }
        }
    }
    Ok(None)
}

// Whether two vectors that are made have the same cells.
fn are_alike(a: Made<Vector>, b: Made<Vector>) -> Made<bool> {
    let (a, b) = both(a, b)?;
    Ok(alike(&a, &b))
}

// Whether two vectors have the same cells.
fn alike(a: &Vector, b: &Vector) -> bool {
    if a.len() != b.len() {
        return false;
    }
    for i in 0..a.len() {
        if i < b.len() && !a.cell(i).is_same(b.cell(i)) {
            return false;
        }
    }
    true
}

#[test]
fn appends_each_store_to_each(rt: HostRuntime) -> Result<(), Fail> {
    assert_eq!(rt; first_wrong_pair(rt.alloc(), STORES)?, None);
    Ok(())
}

// Whether a cell that is repeated is stored as a type, and has these cells.
fn repeats(alloc: Global, kind: Kind, cell: CellRef<'_>, want: &[Shown]) -> Made<bool> {
    let vector = Vector::repeated(alloc, kind, cell, want.len())?;
    Ok(is_stored_as(&vector, kind) && has(&vector, want))
}

#[test]
fn lends_what_is_stored(rt: HostRuntime) -> Result<(), Fail> {
    let alloc = rt.alloc();
    assert!(rt; repeats(alloc, Kind::Long, CellRef::Long(4), &[Shown::Long(4); 3])?);
    assert!(rt; repeats(alloc, Kind::Span, CellRef::Null, &[Shown::Null; 2])?);
    assert!(rt; repeats(alloc, Kind::Text, CellRef::Text("é"), &[])?);
    Ok(())
}

// Adds the array of a number.
fn push_array(alloc: Global, vector: &mut Vector, n: i64) -> Made<()> {
    let mut parts = Items::new(alloc);
    parts.push(Dyn::Long(n))?;
    vector.push(Value::Dynamic(Dyn::Array(parts)))?;
    Ok(())
}

// Whether `[7]` and `[8]` are turned round, copied and joined again.
fn moves_arrays(alloc: Global, vector: &mut Vector) -> Made<bool> {
    push_array(alloc, vector, 7)?;
    push_array(alloc, vector, 8)?;
    if vector.len() != 2 {
        return Ok(false);
    }
    let first = vector.slice(alloc, 0, 1);
    let last = vector.slice(alloc, 1, 2);
    let turned = are_alike(appended(last, first), vector.gather(alloc, &[1, 0]))?;
    let first = vector.slice(alloc, 0, 1);
    let last = vector.slice(alloc, 1, 2);
    let whole = are_alike(appended(first, last), vector.copy(alloc))?;
    let same = are_alike(vector.gather(alloc, &[1, 0]), vector.copy(alloc))?;
    Ok(turned && whole && !same && !vector.cell(0).is_same(vector.cell(1)))
}

#[test]
fn stores_arrays(rt: HostRuntime) -> Result<(), Fail> {
    let alloc = rt.alloc();
    let mut vector = Vector::new(alloc, Kind::Dynamic);
    assert!(rt; moves_arrays(alloc, &mut vector)?);
    Ok(())
}
