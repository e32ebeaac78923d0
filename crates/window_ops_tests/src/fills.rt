//! The rows of ranges, from the carries of the rows before them.

use crate::table::Made;
use kql_bound::BItem;
use kql_cells::CellRef;
use kql_fits::items_fit;
use kql_meaning::Position;
use kql_values::{Rows, Table};
use std::alloc::Global;
use window_ops::{Carries, Carry, carry, fill_piece, sum_pieces};

/// The rows that are wanted.
pub(crate) type Wanted = &'static [&'static [Option<i64>]];

fn is_cell(cell: CellRef<'_>, wanted: Option<i64>) -> bool {
    match cell {
        CellRef::Long(n) => wanted == Some(n),
        CellRef::Null => wanted.is_none(),
        _ => false,
    }
}

fn is_row(rows: &Rows, i: usize, wanted: &[Option<i64>]) -> bool {
    if i >= rows.len() {
        return false;
    }
    let width = rows.width(i);
    if width != wanted.len() {
        return false;
    }
    for j in 0..width {
        if !is_cell(rows.cell(i, j), wanted[j]) {
            return false;
        }
    }
    true
}

fn are_rows(rows: &Rows, wanted: &[&[Option<i64>]]) -> bool {
    if rows.len() != wanted.len() {
        return false;
    }
    for i in 0..wanted.len() {
        if !is_row(rows, i, wanted[i]) {
            return false;
        }
    }
    true
}

// The carries of a range, where there is one.
fn sums(alloc: Global, t: &Table, from: usize, to: usize, items: &[BItem]) -> Made<Carries> {
    if !items_fit(alloc, items, t.schema().columns(), Position::Window)? {
        return Ok(Carries::new(alloc));
    }
    if from > to || to > t.len() {
        return Ok(Carries::new(alloc));
    }
    let carries = sum_pieces(alloc, t, from, to, items)?;
    Ok(carries)
}

/// Whether a range has the rows that are wanted there.
pub(crate) fn fills(
    alloc: Global,
    t: &Table,
    from: usize,
    to: usize,
    items: &[BItem],
    wanted: &[&[Option<i64>]],
) -> Made<bool> {
    if !items_fit(alloc, items, t.schema().columns(), Position::Window)? {
        return Ok(false);
    }
    if from > to || to > t.len() || to > wanted.len() {
        return Ok(false);
    }
    let carries = sum_pieces(alloc, t, 0, from, items)?;
    let rows = fill_piece(alloc, t, from, to, items, carries.as_slice())?;
    Ok(are_rows(&rows, &wanted[from..to]))
}

fn is_same(a: &Carry, b: &Carry) -> bool {
    a.restarts() == b.restarts() && a.sum() == b.sum() && a.count() == b.count()
}

fn is_joined(a: &Carry, b: &Carry, whole: &Carry) -> bool {
    if a.count() > 100 || b.count() > 100 {
        return false;
    }
    is_same(&carry(a, b), whole)
}

fn are_joined(a: &[Carry], b: &[Carry], whole: &[Carry], count: usize) -> bool {
    if a.len() != count || b.len() != count || whole.len() != count {
        return false;
    }
    for k in 0..count {
        if !is_joined(&a[k], &b[k], &whole[k]) {
            return false;
        }
    }
    true
}

/// Whether so many carries of two ranges, one behind the other, make those of both.
pub(crate) fn join_up(
    alloc: Global,
    t: &Table,
    at: usize,
    to: usize,
    items: &[BItem],
    count: usize,
) -> Made<bool> {
    let a = sums(alloc, t, 0, at, items)?;
    let b = sums(alloc, t, at, to, items)?;
    let whole = sums(alloc, t, 0, to, items)?;
    Ok(are_joined(a.as_slice(), b.as_slice(), whole.as_slice(), count))
}
