use kql_cells::{CellRef, Dyn, Kind, Value};
use kql_items::Items;
use kql_keys::*;
use kql_values::Vector;
use std::alloc::{AllocError, Global};
use std::test::Fail;

// A cell that a constant can hold.
#[derive(Clone, Copy)]
enum Shown {
    Null,
    Bool(bool),
    Long(i64),
    Moment(i64),
    Span(i64),
    Text(&'static str),
}

fn cell(shown: Shown) -> CellRef<'static> {
    match shown {
        Shown::Null => CellRef::Null,
        Shown::Bool(b) => CellRef::Bool(b),
        Shown::Long(n) => CellRef::Long(n),
        Shown::Moment(n) => CellRef::Moment(n),
        Shown::Span(n) => CellRef::Span(n),
        Shown::Text(t) => CellRef::Text(t),
    }
}

// What is made, or want of memory.
type Made<T> = Result<T, AllocError>;

// A vector of these cells.
fn vector_of(alloc: Global, kind: Kind, cells: &[Shown]) -> Made<Vector> {
    let mut vector = Vector::new(alloc, kind);
    push_all(&mut vector, cells)?;
    Ok(vector)
}

fn push_all(vector: &mut Vector, cells: &[Shown]) -> Made<()> {
    for shown in cells {
        vector.push_cell(cell(*shown))?;
    }
    Ok(())
}

// Five cells of a column, and what the rows' keys are numbered by it alone: the numbers and the first places.
const COLUMNS: &[(Kind, &[Shown], &[usize], &[usize])] = &[
    (
        Kind::Long,
        &[
            Shown::Long(2),
            Shown::Long(2),
            Shown::Null,
            Shown::Long(1),
            Shown::Null,
        ],
        &[0, 0, 1, 2, 1],
        &[0, 2, 3],
    ),
    // Null is not 0.
    (
        Kind::Long,
        &[
            Shown::Null,
            Shown::Long(0),
            Shown::Null,
            Shown::Long(-1),
            Shown::Long(0),
        ],
        &[0, 1, 0, 2, 1],
        &[0, 1, 3],
    ),
    (
        Kind::Bool,
        &[
            Shown::Bool(true),
            Shown::Bool(true),
            Shown::Bool(false),
            Shown::Null,
            Shown::Bool(true),
        ],
        &[0, 0, 1, 2, 0],
        &[0, 2, 3],
    ),
    (
        Kind::Moment,
        &[
            Shown::Moment(5),
            Shown::Moment(6),
            Shown::Moment(5),
            Shown::Moment(6),
            Shown::Moment(7),
        ],
        &[0, 1, 0, 1, 2],
        &[0, 1, 4],
    ),
    (
        Kind::Span,
        &[
            Shown::Span(-1),
            Shown::Span(1),
            Shown::Span(1),
            Shown::Span(-1),
            Shown::Span(1),
        ],
        &[0, 1, 1, 0, 1],
        &[0, 1],
    ),
    (
        Kind::Text,
        &[
            Shown::Text("a"),
            Shown::Text(""),
            Shown::Text("A"),
            Shown::Text("a"),
            Shown::Text(""),
        ],
        &[0, 1, 2, 0, 1],
        &[0, 1, 2],
    ),
    // Texts that begin alike: with seven bytes, and with fourteen.
    (
        Kind::Text,
        &[
            Shown::Text("abcdefg"),
            Shown::Text("abcdefgh"),
            Shown::Text("abcdefghijklmn"),
            Shown::Text("abcdefghijklmno"),
            Shown::Text("abcdefgh"),
        ],
        &[0, 1, 2, 3, 1],
        &[0, 1, 2, 3],
    ),
    // Texts of 21 bytes, and bytes that are 0.
    (
        Kind::Text,
        &[
            Shown::Text("abcdefghijklmnopqrstu"),
            Shown::Text("abcdefghijklmnopqrstv"),
            Shown::Text("\0"),
            Shown::Text(""),
            Shown::Text("abcdefghijklmnopqrstu"),
        ],
        &[0, 1, 2, 3, 0],
        &[0, 1, 2, 3],
    ),
    // One text of 22 bytes.
    (
        Kind::Text,
        &[
            Shown::Text("abcdefghijklmnopqrstu"),
            Shown::Text("abcdefghijklmnopqrstuv"),
            Shown::Text("a\0"),
            Shown::Text("a"),
            Shown::Text("abcdefghijklmnopqrstu"),
        ],
        &[0, 1, 2, 3, 0],
        &[0, 1, 2, 3],
    ),
    // The empty text is not null.
    (
        Kind::Text,
        &[
            Shown::Text(""),
            Shown::Null,
            Shown::Text("\0"),
            Shown::Null,
            Shown::Text(""),
        ],
        &[0, 1, 2, 1, 0],
        &[0, 1, 2],
    ),
    // One number in values of three types.
    (
        Kind::Dynamic,
        &[
            Shown::Long(1),
            Shown::Span(1),
            Shown::Moment(1),
            Shown::Long(1),
            Shown::Text("1"),
        ],
        &[0, 1, 2, 0, 3],
        &[0, 1, 2, 4],
    ),
];

// Whether keys are numbered so.
fn is(found: Made<Numbered>, numbers: &[usize], firsts: &[usize]) -> Made<bool> {
    let found = found?;
    Ok(found.numbers.as_slice() == numbers && found.firsts.as_slice() == firsts)
}

// Whether the rows of one column of five cells are numbered so.
fn numbers_one(alloc: Global, column: &Vector, numbers: &[usize], firsts: &[usize]) -> Made<bool> {
    if column.len() != 5 {
        return Ok(false);
    }
    is(number_keys(alloc, [column].as_slice(), 5), numbers, firsts)
}

// The first column by which the rows are numbered wrong.
fn first_wrong(
    alloc: Global,
    rows: &[(Kind, &[Shown], &[usize], &[usize])],
) -> Made<Option<usize>> {
    for i in 0..rows.len() {
        let (kind, cells, numbers, firsts) = rows[i];
        let column = vector_of(alloc, kind, cells)?;
        if !numbers_one(alloc, &column, numbers, firsts)? {
            return Ok(Some(i));
        }
    }
    Ok(None)
}

#[test]
fn numbers_keys_of_each_type(rt: HostRuntime) -> Result<(), Fail> {
    assert_eq!(rt; first_wrong(rt.alloc(), COLUMNS)?, None);
    Ok(())
}

const NUMBERS: &[Shown] = &[
    Shown::Long(2),
    Shown::Long(2),
    Shown::Null,
    Shown::Long(1),
    Shown::Null,
    Shown::Long(2),
];

const TEXTS: &[Shown] = &[
    Shown::Text("a"),
    Shown::Text("b"),
    Shown::Text("a"),
    Shown::Text("a"),
    Shown::Text("a"),
    Shown::Text("b"),
];

// 2, 2, null, 1, null, 2.
fn numbers(alloc: Global) -> Made<Vector> {
    vector_of(alloc, Kind::Long, NUMBERS)
}

// "a", "b", "a", "a", "a", "b".
fn texts(alloc: Global) -> Made<Vector> {
    vector_of(alloc, Kind::Text, TEXTS)
}

// Adds the array of a number.
fn push_array(alloc: Global, vector: &mut Vector, n: i64) -> Made<()> {
    let mut parts = Items::new(alloc);
    parts.push(Dyn::Long(n))?;
    vector.push(Value::Dynamic(Dyn::Array(parts)))?;
    Ok(())
}

// Whether `[0]`, `[1]`, `[0]` are two keys.
fn numbers_arrays(alloc: Global, vector: &mut Vector) -> Made<bool> {
    push_array(alloc, vector, 0)?;
    push_array(alloc, vector, 1)?;
    push_array(alloc, vector, 0)?;
    if vector.len() != 3 {
        return Ok(false);
    }
    is(
        number_keys(alloc, [&*vector].as_slice(), 3),
        &[0, 1, 0],
        &[0, 1],
    )
}

// Whether the rows of two columns are numbered by both, and no row by one.
fn numbers_two(alloc: Global, longs: &Vector, words: &Vector) -> Made<bool> {
    if longs.len() != 6 || words.len() != 6 {
        return Ok(false);
    }
    let two = number_keys(alloc, [longs, words].as_slice(), 6);
    let both = is(two, &[0, 1, 2, 3, 2, 1], &[0, 1, 2, 3])?;
    let none = is(number_keys(alloc, [words].as_slice(), 0), &[], &[])?;
    Ok(both && none)
}

#[test]
fn numbers_keys(rt: HostRuntime) -> Result<(), Fail> {
    let alloc = rt.alloc();
    assert!(rt; numbers_two(alloc, &numbers(alloc)?, &texts(alloc)?)?);
    assert!(rt; is(number_keys(alloc, &[], 3), &[0, 0, 0], &[0])?);
    assert!(rt; numbers_arrays(alloc, &mut Vector::new(alloc, Kind::Dynamic))?);
    Ok(())
}

// Whether the keys of six rows of two columns are told apart.
fn tells_apart(longs: &Vector, words: &Vector) -> bool {
    if longs.len() != 6 || words.len() != 6 {
        return false;
    }
    let columns = [longs, words];
    let first = KeyRef::new(columns.as_slice(), 0);
    KeyRef::new(columns.as_slice(), 1) == KeyRef::new(columns.as_slice(), 5)
        && first != KeyRef::new(columns.as_slice(), 1)
        && first != KeyRef::new([longs].as_slice(), 0)
        && !first.has_null()
        && KeyRef::new(columns.as_slice(), 2).has_null()
}

#[test]
fn compares_keys(rt: HostRuntime) -> Result<(), Fail> {
    let alloc = rt.alloc();
    assert!(rt; tells_apart(&numbers(alloc)?, &texts(alloc)?));
    Ok(())
}

// Whether these are the places of 0, 1, 2 and 3 in 1, 0, 1, 3.
fn are_places(lists: &PlaceLists) -> bool {
    lists.len() == 4
        && lists.get(0) == [1].as_slice()
        && lists.get(1) == [0, 2].as_slice()
        && lists.get(2).is_empty()
        && lists.get(3) == [3].as_slice()
}

#[test]
fn lists_places(rt: HostRuntime) -> Result<(), Fail> {
    assert!(rt; are_places(&places_by_number(rt.alloc(), &[1, 0, 1, 3], 4)?));
    Ok(())
}

// Whether these are the pairs.
fn are(pairs: Made<Pairs>, lefts: &[usize], rights: &[usize]) -> Made<bool> {
    let pairs = pairs?;
    Ok(pairs.lefts.as_slice() == lefts && pairs.rights.as_slice() == rights)
}

// Whether six rows are paired with four, and none where a side is empty.
fn pairs_six(alloc: Global, longs: &Vector) -> Made<bool> {
    if longs.len() != 6 {
        return Ok(false);
    }
    let one = [longs];
    let six = matching_pairs(alloc, one.as_slice(), 6, one.as_slice(), 4);
    let some = are(six, &[0, 0, 1, 1, 3, 5, 5], &[0, 1, 0, 1, 3, 0, 1])?;
    let left = are(
        matching_pairs(alloc, one.as_slice(), 6, one.as_slice(), 0),
        &[],
        &[],
    )?;
    let right = are(
        matching_pairs(alloc, one.as_slice(), 0, one.as_slice(), 6),
        &[],
        &[],
    )?;
    Ok(some && left && right)
}

#[test]
fn pairs_rows(rt: HostRuntime) -> Result<(), Fail> {
    let alloc = rt.alloc();
    assert!(rt; pairs_six(alloc, &numbers(alloc)?)?);
    assert!(rt;
        are(
            matching_pairs(alloc, &[], 2, &[], 2),
            &[0, 0, 1, 1],
            &[0, 1, 0, 1]
        )?
    );
    Ok(())
}
