use crate::calls::carry_of;
use crate::fills::{Wanted, fills, join_up};
use crate::items::items_of;
use crate::table::{Line, Made, table_of};
use kql_bound::BItem;
use kql_values::Table;
use std::alloc::Global;
use std::test::Fail;
use window_ops::{Carry, carry};

// A run begins at the rows 2 and 3; row 1 has no number.
const LINES: &[Line] = &[
    (Some(i64::MAX), false),
    (None, false),
    (Some(5), true),
    (Some(-9), true),
    (Some(i64::MIN), false),
];

// A range, and whether a run begins there, the sum over its last run, and how many rows that has.
type Row = (usize, usize, bool, i128, usize);

const ROWS: &[Row] = &[
    (0, 0, false, 0, 0),
    (3, 3, false, 0, 0),
    (5, 5, false, 0, 0),
    (0, 1, false, 9223372036854775807, 1),
    (0, 2, false, 9223372036854775807, 2),
    (0, 3, true, 5, 1),
    (0, 4, true, -9, 1),
    (0, 5, true, -9223372036854775817, 2),
    (1, 2, false, 0, 1),
    (4, 5, false, -9223372036854775808, 1),
    (3, 4, true, -9, 1),
];

fn is_carry(c: &Carry, row: &Row, sum: i128) -> bool {
    c.restarts() == row.2 && c.sum() == sum && c.count() == row.4
}

// Whether a range has the carry that a row tells, whole and cut at each place.
fn has_carry(alloc: Global, t: &Table, row: &Row) -> Made<bool> {
    match carry_of(alloc, t, row.0, row.1, "row_cumsum")? {
        None => Ok(false),
        Some(c) => Ok(is_carry(&c, row, row.3)),
    }
}

fn has_number_carry(alloc: Global, t: &Table, row: &Row) -> Made<bool> {
    match carry_of(alloc, t, row.0, row.1, "row_number")? {
        None => Ok(false),
        Some(c) => Ok(is_carry(&c, row, 0)),
    }
}

fn is_joined(a: &Option<Carry>, b: &Option<Carry>, row: &Row) -> bool {
    match a {
        None => false,
        Some(a) => match b {
            None => false,
            Some(b) => {
                if a.count() > 100 || b.count() > 100 {
                    return false;
                }
                is_carry(&carry(a, b), row, row.3)
            }
        },
    }
}

// Whether the carries of two ranges, one behind the other, make that of a row.
fn joins(alloc: Global, t: &Table, row: &Row, at: usize) -> Made<bool> {
    let front = carry_of(alloc, t, row.0, at, "row_cumsum")?;
    let back = carry_of(alloc, t, at, row.1, "row_cumsum")?;
    Ok(is_joined(&front, &back, row))
}

fn joins_all(alloc: Global, t: &Table, row: &Row) -> Made<bool> {
    for at in row.0..row.1 {
        if !joins(alloc, t, row, at)? {
            return Ok(false);
        }
    }
    joins(alloc, t, row, row.1)
}

// The first of the rows that is not as it should be.
fn first_wrong(alloc: Global, t: &Table, rows: &[Row]) -> Made<Option<usize>> {
    for i in 0..rows.len() {
        let row = &rows[i];
        if !has_carry(alloc, t, row)? || !has_number_carry(alloc, t, row)? {
            return Ok(Some(i));
        }
        if !joins_all(alloc, t, row)? {
            return Ok(Some(i));
        }
    }
    Ok(None)
}

#[test]
fn carries_of_ranges(rt: HostRuntime) -> Result<(), Fail> {
    let alloc = rt.alloc();
    let t = table_of(alloc, LINES)?;
    assert!(rt; first_wrong(alloc, &t, ROWS)? == None);
    assert!(rt; carry_of(alloc, &t, 2, 1, "row_cumsum")?.is_none());
    Ok(())
}

// Runs begin at the rows 2 and 3; row 1 has no number, and the sum leaves long's range at row 6 and comes back.
const MORE_LINES: &[Line] = &[
    (Some(4), false),
    (None, false),
    (Some(5), true),
    (Some(-9), true),
    (Some(2), false),
    (Some(i64::MAX), false),
    (Some(8), false),
    (Some(-1), false),
];

// What `s`, `i`, `p`, `q` and `m` are at each row.
const WANTED: Wanted = &[
    &[Some(4), Some(10), None, Some(5), Some(1005)],
    &[Some(4), Some(11), Some(4), Some(-9), Some(2006)],
    &[Some(5), Some(10), None, Some(2), Some(3005)],
    &[Some(-9), Some(10), Some(5), Some(i64::MAX), Some(4005)],
    &[Some(-7), Some(11), Some(-9), Some(8), Some(5006)],
    &[
        Some(9223372036854775800),
        Some(12),
        Some(2),
        Some(-1),
        Some(6007),
    ],
    &[None, Some(13), Some(i64::MAX), Some(77), Some(7008)],
    &[
        Some(9223372036854775807),
        Some(14),
        Some(8),
        Some(77),
        Some(8009),
    ],
];

// The first range that has other rows, or whose carries are not joined to those of the rows up to its end.
fn first_wrong_range(alloc: Global, t: &Table, items: &[BItem]) -> Made<Option<(usize, usize)>> {
    for to in 0..9 {
        for from in 0..9 {
            if from <= to {
                if !fills(alloc, t, from, to, items, WANTED)? {
                    return Ok(Some((from, to)));
                }
                if !join_up(alloc, t, from, to, items, 4)? {
                    return Ok(Some((from, to)));
                }
            }
        }
    }
    Ok(None)
}

#[test]
fn rows_of_ranges(rt: HostRuntime) -> Result<(), Fail> {
    let alloc = rt.alloc();
    let t = table_of(alloc, MORE_LINES)?;
    let items = items_of(alloc)?;
    assert!(rt; first_wrong_range(alloc, &t, items.as_slice())? == None);
    Ok(())
}
