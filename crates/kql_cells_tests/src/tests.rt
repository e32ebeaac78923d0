use kql_cells::*;
use kql_items::Items;
use std::alloc::{AllocError, Global};
use std::cmp::Ordering;
use std::hash::{DefaultHasher, Hasher};
use std::test::Fail;

// Cells in rising order, and no two of them feed the same to a hasher.
fn rising() -> [CellRef<'static>; 13] {
    [
        CellRef::Null,
        CellRef::Bool(false),
        CellRef::Bool(true),
        CellRef::Long(-3),
        CellRef::Long(7),
        CellRef::Text(""),
        CellRef::Text("Z"),
        CellRef::Text("a"),
        CellRef::Text("ab"),
        CellRef::Moment(3),
        CellRef::Moment(12),
        CellRef::Span(-5),
        CellRef::Span(0),
    ]
}

const KINDS: &[Kind] = &[
    Kind::Bool,
    Kind::Long,
    Kind::Text,
    Kind::Moment,
    Kind::Span,
    Kind::Dynamic,
];

// The values that cells show.
fn values_of(alloc: Global, cells: &[CellRef<'_>]) -> Result<Values, AllocError> {
    let mut values = Items::new(alloc);
    for cell in cells {
        let value = cell.to_value(alloc)?;
        values.push(value)?;
    }
    Ok(values)
}

// Equal values.
fn copies_of(alloc: Global, values: &[Value]) -> Result<Values, AllocError> {
    let mut copies = Items::new(alloc);
    for value in values {
        let copy = clone_value(alloc, value)?;
        copies.push(copy)?;
    }
    Ok(copies)
}

// What a hasher makes of a cell.
fn hashed(cell: CellRef<'_>) -> u64 {
    let mut state = DefaultHasher::new();
    hash_cell(cell, &mut state);
    state.finish()
}

// Whether two values compare as their places do, and are the same and feed the same where their places are one.
fn compare_as(a: &Value, b: &Value, places: Ordering) -> bool {
    let one = places == Ordering::Equal;
    order_of(a, b) == places
        && same_key(a, b) == one
        && (hashed(a.as_cell()) == hashed(b.as_cell())) == one
}

// The first two places at which two lists compare otherwise.
fn first_misordered(values: &[Value], others: &[Value]) -> Option<(usize, usize)> {
    for i in 0..values.len() {
        for j in 0..others.len() {
            if !compare_as(&values[i], &others[j], i.cmp(&j)) {
                return Some((i, j));
            }
        }
    }
    None
}

#[test]
fn orders_values(rt: HostRuntime) -> Result<(), Fail> {
    let values = values_of(rt.alloc(), &rising())?;
    let copies = copies_of(rt.alloc(), values.as_slice())?;
    assert_eq!(rt; values.len(), 13);
    assert_eq!(rt;
        first_misordered(values.as_slice(), copies.as_slice()),
        None
    );
    Ok(())
}

// `[[..1..]]`, so many levels deep.
fn nested(alloc: Global, levels: u32) -> Result<Value, AllocError> {
    let mut d = Dyn::Long(1);
    for _ in 0..levels {
        let mut parts = Items::new(alloc);
        parts.push(d)?;
        d = Dyn::Array(parts);
    }
    Ok(Value::Dynamic(d))
}

fn bag(alloc: Global, first: &str, second: &str) -> Result<Value, AllocError> {
    let mut entries = Items::new(alloc);
    entries.push((KText::from_str(alloc, first)?, Dyn::Null))?;
    entries.push((KText::from_str(alloc, second)?, Dyn::Bool(true)))?;
    Ok(Value::Dynamic(Dyn::Bag(entries)))
}

fn sample(alloc: Global, i: usize) -> Result<Value, AllocError> {
    match i {
        0 => Ok(Value::Moment(0)),
        1 => Ok(Value::Moment(-1)),
        2 => Ok(Value::Moment(3_155_378_975_999_999_999)),
        3 => Ok(Value::Moment(3_155_378_976_000_000_000)),
        4 => Ok(Value::Span(i64::MIN)),
        5 => Ok(Value::Dynamic(Dyn::Null)),
        6 => nested(alloc, 127),
        7 => nested(alloc, 128),
        8 => bag(alloc, "B", "a"),
        9 => bag(alloc, "a", "B"),
        _ => bag(alloc, "a", "a"),
    }
}

// Whether each sample is well formed.
const ARE_WELL_FORMED: &[bool] = &[
    true, false, true, false, true, false, true, false, true, false, false,
];

// The samples from the first of these places to before the second.
fn samples(alloc: Global, first: usize, end: usize) -> Result<Values, AllocError> {
    let mut values = Items::new(alloc);
    for i in first..end {
        let value = sample(alloc, i)?;
        values.push(value)?;
    }
    Ok(values)
}

// The first value of which something else is told.
fn first_misformed(values: &[Value], are_well_formed: &[bool]) -> Option<usize> {
    for i in 0..values.len() {
        if are_well_formed.get(i) != Some(&is_well_formed(&values[i])) {
            return Some(i);
        }
    }
    None
}

#[test]
fn tells_well_formed_values(rt: HostRuntime) -> Result<(), Fail> {
    let values = samples(rt.alloc(), 0, 11)?;
    assert_eq!(rt; values.len(), 11);
    assert_eq!(rt; first_misformed(values.as_slice(), ARE_WELL_FORMED), None);
    Ok(())
}

// The first two places at which two lists of different dynamic values are told apart by order, or taken for the same.
fn first_misjudged(values: &[Value], others: &[Value]) -> Option<(usize, usize)> {
    for i in 0..values.len() {
        for j in 0..others.len() {
            if order_of(&values[i], &others[j]) != Ordering::Equal
                || same_key(&values[i], &others[j]) != (i == j)
            {
                return Some((i, j));
            }
        }
    }
    None
}

#[test]
fn gives_dynamics_no_order(rt: HostRuntime) -> Result<(), Fail> {
    let values = samples(rt.alloc(), 5, 11)?;
    let copies = copies_of(rt.alloc(), values.as_slice())?;
    assert_eq!(rt; values.len(), 6);
    assert_eq!(rt; first_misjudged(values.as_slice(), copies.as_slice()), None);
    Ok(())
}

// A value of each type, in the order of the types.
fn of_each_kind(alloc: Global) -> Result<Values, AllocError> {
    let mut values = Items::new(alloc);
    values.push(Value::Bool(false))?;
    values.push(Value::Long(0))?;
    values.push(Value::Text(KText::new(alloc)))?;
    values.push(Value::Moment(0))?;
    values.push(Value::Span(0))?;
    values.push(Value::Dynamic(Dyn::Bool(false)))?;
    Ok(values)
}

// The first value and type of which something else is told.
fn first_miskind(values: &[Value], kinds: &[Kind]) -> Option<(usize, usize)> {
    for i in 0..values.len() {
        for j in 0..kinds.len() {
            if values[i].is_of_kind(kinds[j]) != (i == j) {
                return Some((i, j));
            }
        }
    }
    None
}

// Whether null is of a type as said, and what stands for no value is of it, and null or not.
fn lacks(kind: Kind, null: bool) -> bool {
    CellRef::Null.is_of_kind(kind) == null
        && Value::Null.is_of_kind(kind) == null
        && kind.absent().is_of_kind(kind)
        && kind.absent().is_null() == null
}

// The first type but that of texts that has no null.
fn first_without_null(kinds: &[Kind]) -> Option<usize> {
    kinds
        .iter()
        .position(|kind| !lacks(*kind, *kind != Kind::Text))
}

fn count_nulls(cells: &[CellRef<'_>]) -> usize {
    cells.iter().filter(|cell| cell.is_null()).count()
}

#[test]
fn tells_kinds(rt: HostRuntime) -> Result<(), Fail> {
    let values = of_each_kind(rt.alloc())?;
    assert_eq!(rt; first_miskind(values.as_slice(), KINDS), None);
    assert_eq!(rt; first_without_null(KINDS), None);
    assert!(rt; Kind::Text.absent().is_same(CellRef::Text("")));
    assert!(rt; Kind::Dynamic.absent().is_same(CellRef::Null));
    assert_eq!(rt; count_nulls(&rising()), 1);
    Ok(())
}

// The schema of one column `k` of longs.
fn schema(alloc: Global) -> Result<Schema, AllocError> {
    let mut schema = Schema::new(alloc);
    let name = KText::from_str(alloc, "k")?;
    let kind = Kind::Long;
    schema.push(Column { name, kind })?;
    Ok(schema)
}

#[test]
fn tells_what_fits(rt: HostRuntime) -> Result<(), Fail> {
    let schema = schema(rt.alloc())?.copy(rt.alloc())?;
    let words = values_of(rt.alloc(), &[CellRef::Text("x")])?;
    assert_eq!(rt; schema.find("k"), Some(0));
    assert_eq!(rt; schema.find("K"), None);
    assert!(rt; row_fits(schema.columns(), &[Value::Long(2)]));
    assert!(rt; !row_fits(schema.columns(), &[]));
    assert!(rt; !row_fits(schema.columns(), words.as_slice()));
    Ok(())
}

// The schema above as that of a table.
fn schemas(alloc: Global, table: &str) -> Result<Schemas, AllocError> {
    let schema = schema(alloc)?;
    let name = KText::from_str(alloc, table)?;
    let mut schemas = Schemas::new(alloc);
    schemas.push(NamedSchema { name, schema })?;
    Ok(schemas)
}

#[test]
fn keeps_schemas(rt: HostRuntime) -> Result<(), Fail> {
    let schemas = schemas(rt.alloc(), "U")?;
    assert_eq!(rt; schemas.find("U"), Some(0));
    assert_eq!(rt; schemas.find("u"), None);
    Ok(())
}

#[test]
fn grows_texts(rt: HostRuntime) -> Result<(), Fail> {
    let whole = KText::from_str(rt.alloc(), "\u{e9}U")?;
    let mut text = KText::new(rt.alloc());
    text.push_str("\u{e9}")?;
    text.push_str("U")?;
    assert!(rt; text.equals(&whole));
    assert_eq!(rt; text.len(), 3);
    Ok(())
}

// Texts, and the longs and truth values that they write.
const READINGS: &[(&str, Option<i64>, Option<bool>)] = &[
    ("", None, None),
    ("0", Some(0), None),
    ("-7", Some(-7), None),
    ("007", Some(7), None),
    ("+7", None, None),
    ("7 ", None, None),
    ("-", None, None),
    ("9223372036854775807", Some(9_223_372_036_854_775_807), None),
    ("9223372036854775808", None, None),
    (
        "-9223372036854775808",
        Some(-9_223_372_036_854_775_808),
        None,
    ),
    ("-9223372036854775809", None, None),
    ("true", None, Some(true)),
    ("FALSE", None, Some(false)),
    ("True", None, Some(true)),
    ("tru\u{e9}", None, None),
    ("yes", None, None),
];

// The first row that reads otherwise.
fn first_misread(rows: &[(&str, Option<i64>, Option<bool>)]) -> Option<usize> {
    rows.iter().position(|row| read_long(row.0) != row.1 || read_bool(row.0) != row.2)
}

#[test]
fn reads_longs_and_bools(rt: HostRuntime) {
    assert_eq!(rt; first_misread(READINGS), None);
}
