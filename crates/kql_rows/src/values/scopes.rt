//! What the rows may name: the columns of the table, and the steps of a scan.
use bind_expr::{Scope, StepNames};
use kql_cells::{CellRef, Column, KText, Names, Schema, Values};
use kql_items::Items;
use kql_meaning::Position;
use std::alloc::{AllocError, Global};

/// The first tick of 2024.
const NOW: i64 = 638396640000000000;

/// Where rows stand.
#[derive(Clone, Copy)]
pub(crate) enum At {
    /// No window functions.
    Plain,
    /// Window functions over serialised rows.
    Serialised,
    /// The steps `a` and `z` of a scan.
    Scan,
}

/// Where the rows under this heading stand.
pub(crate) fn at_named(name: &str) -> Option<At> {
    match name {
        "Plain" => Some(At::Plain),
        "Serialised" => Some(At::Serialised),
        "Scan" => Some(At::Scan),
        _ => None,
    }
}

fn names(alloc: Global, texts: &[&str]) -> Result<Names, AllocError> {
    let mut names = Items::new(alloc);
    for text in texts {
        names.push(KText::from_str(alloc, text)?)?;
    }
    Ok(names)
}

// What an absent record gives: `y` is declared with the default 9.
fn default_of(column: &Column) -> CellRef<'static> {
    match column.name.as_str() {
        "y" => CellRef::Long(9),
        _ => column.kind.absent(),
    }
}

fn defaults(alloc: Global, columns: &[Column]) -> Result<Values, AllocError> {
    let mut defaults = Items::new(alloc);
    for column in columns {
        defaults.push(default_of(column).to_value(alloc)?)?;
    }
    Ok(defaults)
}

fn no_steps(alloc: Global) -> StepNames {
    StepNames {
        names: Items::new(alloc),
        columns: Schema::new(alloc),
        defaults: Items::new(alloc),
    }
}

fn steps(alloc: Global, schema: &Schema) -> Result<StepNames, AllocError> {
    let names = names(alloc, &["a", "z"])?;
    let columns = schema.copy(alloc)?;
    let defaults = defaults(alloc, schema.columns())?;
    Ok(StepNames {
        names,
        columns,
        defaults,
    })
}

fn steps_at(alloc: Global, at: At, schema: &Schema) -> Result<StepNames, AllocError> {
    match at {
        At::Scan => steps(alloc, schema),
        _ => Ok(no_steps(alloc)),
    }
}

/// All that a row may name there.
pub(crate) fn scope(alloc: Global, at: At, schema: &Schema) -> Result<Scope, AllocError> {
    let steps = steps_at(alloc, at, schema)?;
    let schema = schema.copy(alloc)?;
    Ok(Scope {
        schema,
        serial: true,
        position: match at {
            At::Serialised => Position::Window,
            _ => Position::Plain,
        },
        steps,
        consts: Items::new(alloc),
        keys: Items::new(alloc),
        own: Items::new(alloc),
        moment: Some(NOW),
    })
}
