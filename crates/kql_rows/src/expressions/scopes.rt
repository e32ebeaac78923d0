//! The scopes in which the rows stand: their columns, constants and steps, and the moment.
use bind_expr::{Const, Consts, Scope, StepNames};
use kql_cells::{Column, KText, Kind, Names, Schema, Value, Values};
use kql_items::Items;
use kql_meaning::Position;
use std::alloc::{AllocError, Global};

/// The first ticks of 2024 and of February 2024.
const NOW: i64 = 638396640000000000;

const FEBRUARY: i64 = 638423424000000000;

const COLUMNS: &[(&str, Kind)] = &[
    ("x", Kind::Long),
    ("y", Kind::Long),
    ("s", Kind::Text),
    ("u", Kind::Text),
    ("b", Kind::Bool),
    ("t", Kind::Moment),
    ("p", Kind::Span),
    ("d", Kind::Dynamic),
    ("e", Kind::Dynamic),
    ("a b", Kind::Long),
];

fn names(alloc: Global, texts: &[&str]) -> Result<Names, AllocError> {
    let mut names = Items::new(alloc);
    for text in texts {
        names.push(KText::from_str(alloc, text)?)?;
    }
    Ok(names)
}

fn schema(alloc: Global, columns: &[(&str, Kind)]) -> Result<Schema, AllocError> {
    let mut schema = Schema::new(alloc);
    for column in columns {
        let name = KText::from_str(alloc, column.0)?;
        if schema.find(name.as_str()).is_none() {
            schema.push(Column {
                name,
                kind: column.1,
            })?;
        }
    }
    Ok(schema)
}

/// The constants that are strings; a column hides the one named `x`.
const WORDS: &[(&str, &str)] = &[("w", "abc"), ("part", "day"), ("x", "hidden")];

fn constant(alloc: Global, name: &str, kind: Kind, value: Value) -> Result<Const, AllocError> {
    match KText::from_str(alloc, name) {
        Ok(name) => Ok(Const { name, kind, value }),
        Err(fault) => {
            drop(value);
            Err(fault)
        }
    }
}

fn word(alloc: Global, name: &str, word: &str) -> Result<Const, AllocError> {
    let word = KText::from_str(alloc, word)?;
    constant(alloc, name, Kind::Text, Value::Text(word))
}

fn consts(alloc: Global) -> Result<Consts, AllocError> {
    let mut consts = Items::new(alloc);
    for row in WORDS {
        consts.push(word(alloc, row.0, row.1)?)?;
    }
    consts.push(constant(alloc, "n", Kind::Long, Value::Long(7))?)?;
    consts.push(constant(alloc, "none", Kind::Long, Value::Null)?)?;
    consts.push(constant(alloc, "m", Kind::Moment, Value::Moment(FEBRUARY))?)?;
    Ok(consts)
}

fn absent(alloc: Global, kind: Kind) -> Value {
    match kind {
        Kind::Text => Value::Text(KText::new(alloc)),
        _ => Value::Null,
    }
}

/// What absent records of the steps give.
fn defaults(alloc: Global) -> Result<Values, AllocError> {
    let mut defaults = Items::new(alloc);
    for column in COLUMNS {
        defaults.push(absent(alloc, column.1))?;
    }
    Ok(defaults)
}

fn no_steps(alloc: Global) -> StepNames {
    StepNames {
        names: Items::new(alloc),
        columns: Schema::new(alloc),
        defaults: Items::new(alloc),
    }
}

fn steps(alloc: Global) -> Result<StepNames, AllocError> {
    let names = names(alloc, &["a", "d"])?;
    let columns = schema(alloc, COLUMNS)?;
    let defaults = defaults(alloc)?;
    Ok(StepNames {
        names,
        columns,
        defaults,
    })
}

/// Where rows stand.
#[derive(Clone, Copy)]
pub(crate) enum At {
    /// Neither window functions nor aggregates.
    Plain,
    /// The same without a moment.
    Timeless,
    /// Window functions over serialised rows.
    Serialised,
    /// Window functions over other rows.
    Loose,
    /// The term of a running sum.
    Term,
    Constant,
    /// Aggregates over groups by `s`.
    Group,
    /// Aggregates over groups of the one column `x`, which is the key.
    Alone,
    Series,
    /// The steps `a` and `d` of a scan.
    Scan,
}

fn position(at: At) -> Position {
    match at {
        At::Plain => Position::Plain,
        At::Timeless => Position::Plain,
        At::Serialised => Position::Window,
        At::Loose => Position::Window,
        At::Term => Position::Term,
        At::Constant => Position::Constant,
        At::Group => Position::Group,
        At::Alone => Position::Group,
        At::Series => Position::Series,
        At::Scan => Position::Plain,
    }
}

fn columns_at(at: At) -> &'static [(&'static str, Kind)] {
    match at {
        At::Alone => &[("x", Kind::Long)],
        _ => COLUMNS,
    }
}

fn keys_at(at: At) -> &'static [&'static str] {
    match at {
        At::Alone => &["x"],
        At::Group => &["s"],
        _ => &[],
    }
}

fn steps_at(alloc: Global, at: At) -> Result<StepNames, AllocError> {
    match at {
        At::Scan => steps(alloc),
        _ => Ok(no_steps(alloc)),
    }
}

/// All that a row may name there.
pub(crate) fn scope(alloc: Global, at: At) -> Result<Scope, AllocError> {
    let schema = schema(alloc, columns_at(at))?;
    let keys = names(alloc, keys_at(at))?;
    let consts = consts(alloc)?;
    let steps = steps_at(alloc, at)?;
    Ok(Scope {
        schema,
        serial: !matches!(at, At::Loose),
        position: position(at),
        steps,
        consts,
        keys,
        own: Items::new(alloc),
        moment: if matches!(at, At::Timeless) {
            None
        } else {
            Some(NOW)
        },
    })
}

/// Where the rows under this heading stand.
pub(crate) fn at_named(name: &str) -> Option<At> {
    match name {
        "Plain" => Some(At::Plain),
        "Timeless" => Some(At::Timeless),
        "Serialised" => Some(At::Serialised),
        "Loose" => Some(At::Loose),
        "Term" => Some(At::Term),
        "Constant" => Some(At::Constant),
        "Group" => Some(At::Group),
        "Alone" => Some(At::Alone),
        "Series" => Some(At::Series),
        "Scan" => Some(At::Scan),
        _ => None,
    }
}
