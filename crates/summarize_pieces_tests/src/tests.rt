use crate::fitting::fits_table;
use crate::pieces::in_two_pieces;
use crate::plans::{best, bests, expressions, firsts, totals, whole};
use crate::table::{Line, Longs, Made, shows, table_of};
use kql_bound::GroupPlan;
use kql_values::Table;
use std::alloc::Global;
use std::test::Fail;

// The sum of the first key passes the range of long behind its second row, and is back in it behind the third. The second key has a null,
// and its greatest number twice. The third stands in one late row alone.
const LINES: &[Line] = &[
    (1, Some(i64::MAX), 10, "a"),
    (1, Some(1), 11, ""),
    (2, None, 12, ""),
    (1, Some(-1), 13, "ddd"),
    (2, Some(7), 14, "ee"),
    (3, Some(7), 15, "fffff"),
    (2, Some(7), 16, "g"),
];

const MAX: Option<i64> = Some(i64::MAX);

// Whether a table that is cut before a row gives this.
fn gives(alloc: Global, t: &Table, g: &GroupPlan, middle: usize, want: &[Longs]) -> Made<bool> {
    if middle > t.len() || !fits_table(alloc, g, t)? {
        return Ok(false);
    }
    let made = in_two_pieces(alloc, t, g, middle)?;
    Ok(shows(&made, want))
}

// Whether it does wherever it is cut.
fn all_give(alloc: Global, lines: &[Line], plan: Made<GroupPlan>, want: &[Longs]) -> Made<bool> {
    let g = plan?;
    let t = table_of(alloc, lines)?;
    for middle in 0..lines.len() {
        if !gives(alloc, &t, &g, middle, want)? {
            return Ok(false);
        }
    }
    gives(alloc, &t, &g, lines.len(), want)
}

#[test]
fn totals_of_two_pieces(rt: HostRuntime) -> Result<(), Fail> {
    let alloc = rt.alloc();
    let want: &[Longs] = &[
        &[Some(1), Some(3), MAX, Some(1), MAX, MAX, Some(-1)],
        &[
            Some(2),
            Some(3),
            Some(14),
            Some(2),
            Some(14),
            Some(7),
            Some(7),
        ],
        &[
            Some(3),
            Some(1),
            Some(7),
            Some(1),
            Some(7),
            Some(7),
            Some(7),
        ],
    ];
    assert!(rt; all_give(alloc, LINES, totals(alloc), want)?);
    Ok(())
}

// Twice the sum of the first key is out of range.
#[test]
fn expressions_over_two_pieces(rt: HostRuntime) -> Result<(), Fail> {
    let alloc = rt.alloc();
    let want: &[Longs] = &[
        &[Some(1), None, Some(9223372036854775794), Some(3), Some(1)],
        &[Some(2), Some(31), Some(-1), Some(2), Some(7)],
        &[Some(3), Some(15), Some(-9), Some(1), None],
    ];
    assert!(rt; all_give(alloc, LINES, expressions(alloc), want)?);
    Ok(())
}

#[test]
fn first_rows_of_two_pieces(rt: HostRuntime) -> Result<(), Fail> {
    let alloc = rt.alloc();
    let want: &[Longs] = &[
        &[Some(1), Some(10), MAX, MAX, Some(1)],
        &[Some(2), Some(12), None, Some(7), Some(0)],
        &[Some(3), Some(15), Some(7), Some(7), Some(5)],
    ];
    assert!(rt; all_give(alloc, LINES, firsts(alloc), want)?);
    Ok(())
}

// Without keys there is one group, also where there is no row: a text is empty there, and a long null.
#[test]
fn one_group_of_two_pieces(rt: HostRuntime) -> Result<(), Fail> {
    let alloc = rt.alloc();
    assert!(rt;
        all_give(
            alloc,
            LINES,
            whole(alloc),
            &[&[Some(7), Some(10), MAX, Some(1)]]
        )?
    );
    assert!(rt; all_give(alloc, &[], whole(alloc), &[&[Some(0), None, None, Some(0)]])?);
    Ok(())
}

// Of the rows with one value the first is chosen, and a null only where all are null. The third key stands in one late row alone.
#[test]
fn best_rows_of_two_pieces(rt: HostRuntime) -> Result<(), Fail> {
    let alloc = rt.alloc();
    let nulls: &[Line] = &[(4, None, 17, ""), (4, None, 18, "h")];
    let late: &[Line] = &[
        (5, None, 19, ""),
        (5, Some(0), 20, "iii"),
        (5, Some(0), 21, ""),
    ];
    let want: &[Longs] = &[
        &[Some(1), MAX, Some(10), Some(1), Some(-1), Some(13), Some(1)],
        &[
            Some(2),
            Some(7),
            Some(14),
            Some(2),
            Some(7),
            Some(14),
            Some(2),
        ],
        &[
            Some(3),
            Some(7),
            Some(15),
            Some(3),
            Some(7),
            Some(15),
            Some(3),
        ],
    ];
    let none: &[Longs] = &[&[Some(4), None, Some(17), Some(4), None, Some(17), Some(4)]];
    let first: &[Longs] = &[&[
        Some(5),
        Some(0),
        Some(20),
        Some(5),
        Some(0),
        Some(20),
        Some(5),
    ]];
    assert!(rt; all_give(alloc, LINES, bests(alloc), want)?);
    assert!(rt; all_give(alloc, nulls, bests(alloc), none)?);
    assert!(rt; all_give(alloc, late, bests(alloc), first)?);
    Ok(())
}

// Without keys there is one group, also where there is no row. Another item stands before and behind.
#[test]
fn best_row_of_two_pieces(rt: HostRuntime) -> Result<(), Fail> {
    let alloc = rt.alloc();
    let want: &[Longs] = &[&[Some(7), MAX, Some(10), Some(1), Some(3)]];
    let none: &[Longs] = &[&[Some(0), None, None, None, None]];
    assert!(rt; all_give(alloc, LINES, best(alloc), want)?);
    assert!(rt; all_give(alloc, &[], best(alloc), none)?);
    Ok(())
}
