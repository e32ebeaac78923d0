//! Folds of pieces, joined at each place: no query makes pieces. What aggregates give is shown by rows of the program.

use agg_folds::{Fold, FoldCall, PieceFold};
use kql_cells::{CellRef, KText, Kind, Value, is_well_formed};
use kql_functions::Aggregate;
use kql_scalar_fns::are_well_formed;
use std::alloc::{AllocError, Global};
use std::test::Fail;

/// What is made, or want of memory.
type Made<T> = Result<T, AllocError>;

/// All twenty.
const TWENTY: &[Aggregate] = &[
    Aggregate::Count,
    Aggregate::CountIf,
    Aggregate::CountDistinct,
    Aggregate::CountDistinctIf,
    Aggregate::Sum,
    Aggregate::SumIf,
    Aggregate::Min,
    Aggregate::MinIf,
    Aggregate::Max,
    Aggregate::MaxIf,
    Aggregate::MakeList,
    Aggregate::MakeListIf,
    Aggregate::MakeSet,
    Aggregate::MakeSetIf,
    Aggregate::ArgMax,
    Aggregate::ArgMin,
    Aggregate::TakeAny,
    Aggregate::BinaryAllAnd,
    Aggregate::BinaryAllOr,
    Aggregate::BinaryAllXor,
];

fn long_call(aggregate: Aggregate) -> FoldCall {
    FoldCall {
        aggregate,
        kind: Some(Kind::Long),
        limit: Some(3),
    }
}

// Numbers with nulls and ties; with their neighbours' conditions below.
fn numbers() -> [CellRef<'static>; 7] {
    [
        CellRef::Null,
        CellRef::Long(3),
        CellRef::Long(i64::MAX),
        CellRef::Long(-5),
        CellRef::Long(i64::MAX),
        CellRef::Null,
        CellRef::Long(-3),
    ]
}

// The state of a piece: of these values of the first argument, at each of which the second is true.
fn piece<'a>(alloc: Global, call: &FoldCall, cells: &[CellRef<'a>]) -> Made<Fold<'a>> {
    let mut state = call.start(alloc)?;
    for cell in cells {
        let args = [*cell, CellRef::Bool(true)];
        if state.count() < 1000 && are_well_formed(&args) {
            let next = call.step(state, &args)?;
            state = next;
        }
    }
    Ok(state)
}

// The state of the pieces before a place and from it on, joined.
fn joined<'a>(alloc: Global, call: &FoldCall, cells: &[CellRef<'a>], cut: usize) -> Made<Fold<'a>> {
    if cells.len() < cut {
        return piece(alloc, call, cells);
    }
    let first = piece(alloc, call, &cells[..cut])?;
    let second = piece(alloc, call, &cells[cut..])?;
    if first.count() < 1000 && second.count() < 1000 {
        call.join(first, second)
    } else {
        Ok(first)
    }
}

fn are_same(a: &Value, b: &Value) -> bool {
    is_well_formed(a) && is_well_formed(b) && a.as_cell().is_same(b.as_cell())
}

// Whether pieces joined at a place give what all rows give at once, from the row that these take, also where they own their values.
fn cut_gives(alloc: Global, call: &FoldCall, cells: &[CellRef<'_>], cut: usize) -> Made<bool> {
    let whole = piece(alloc, call, cells)?;
    let kept = joined(alloc, call, cells, cut)?.own(alloc)?;
    let parts = kept.lend(alloc)?;
    let same_row = whole.chosen() == parts.chosen();
    let a = call.finish(alloc, whole)?;
    let b = call.finish(alloc, parts)?;
    Ok(same_row && are_same(&a, &b))
}

// The first aggregate that gives something else where its rows are cut, and the place.
fn first_wrong(alloc: Global) -> Made<Option<(usize, usize)>> {
    let cells = numbers();
    for i in 0..TWENTY.len() {
        let call = long_call(TWENTY[i]);
        for cut in 0..cells.len() {
            let same = cut_gives(alloc, &call, &cells, cut)?;
            if !same {
                return Ok(Some((i, cut)));
            }
        }
    }
    Ok(None)
}

// The sum of the greatest long, one and minus one, cut behind the second: it does not fit there, and does at the end.
fn sum_over_the_range(alloc: Global) -> Made<Value> {
    let call = long_call(Aggregate::Sum);
    let cells = [CellRef::Long(i64::MAX), CellRef::Long(1), CellRef::Long(-1)];
    let state = joined(alloc, &call, &cells, 2)?;
    call.finish(alloc, state)
}

// What `take_any` of a column of strings gives where there is no row.
fn any_of_none(alloc: Global) -> Made<Value> {
    let call = FoldCall {
        aggregate: Aggregate::TakeAny,
        kind: Some(Kind::Text),
        limit: None,
    };
    let state = call.start(alloc)?;
    call.finish(alloc, state)
}

#[test]
fn pieces_are_joined(rt: HostRuntime) -> Result<(), Fail> {
    let alloc = rt.alloc();
    assert_eq!(rt; first_wrong(alloc)?, None);
    let sum = sum_over_the_range(alloc)?;
    assert!(rt; are_same(&sum, &Value::Long(i64::MAX)));
    let none = any_of_none(alloc)?;
    assert!(rt; are_same(&none, &Value::Text(KText::new(alloc))));
    Ok(())
}
