//! The tables over which the queries stand, and the moment.
use kql_cells::{Column, KText, Kind, NamedSchema, Schema, Schemas};
use std::alloc::{AllocError, Global};

/// The first tick of 2024.
const NOW: i64 = 638396640000000000;

type Columns = &'static [(&'static str, Kind)];

const TABLES: &[(&str, Columns)] = &[
    (
        "T",
        &[
            ("x", Kind::Long),
            ("s", Kind::Text),
            ("b", Kind::Bool),
            ("t", Kind::Moment),
            ("p", Kind::Span),
            ("d", Kind::Dynamic),
        ],
    ),
    ("U", &[("x", Kind::Long), ("y", Kind::Long)]),
    ("A", &[("k", Kind::Long), ("v", Kind::Text)]),
    ("B", &[("k", Kind::Long), ("w", Kind::Text)]),
    ("N", &[("x", Kind::Long), ("x1", Kind::Long)]),
    ("D", &[("a", Kind::Dynamic), ("b", Kind::Dynamic)]),
    (
        "a b",
        &[("k", Kind::Long), ("a b", Kind::Long), ("by", Kind::Text)],
    ),
];

/// Over which tables queries stand.
#[derive(Clone, Copy)]
pub(crate) enum At {
    /// Small tables.
    Plain,
    /// The same without a moment.
    Timeless,
    /// A table `W` of 256 columns, and the small ones.
    Wide,
    /// 64 tables, `t0` to `t63`, of the column `x`.
    Many,
    /// No table.
    Bare,
}

fn push_column(
    alloc: Global,
    schema: &mut Schema,
    name: &str,
    kind: Kind,
) -> Result<(), AllocError> {
    let name = KText::from_str(alloc, name)?;
    if schema.find(name.as_str()).is_none() {
        schema.push(Column { name, kind })?;
    }
    Ok(())
}

fn small(alloc: Global, columns: &[(&str, Kind)]) -> Result<Schema, AllocError> {
    let mut schema = Schema::new(alloc);
    for column in columns {
        push_column(alloc, &mut schema, column.0, column.1)?;
    }
    Ok(schema)
}

/// The columns `c0` to `c255` of numbers.
fn wide(alloc: Global) -> Result<Schema, AllocError> {
    let mut schema = Schema::new(alloc);
    for i in 0u32..256 {
        let name = format!(in alloc; "c{i}")?;
        push_column(alloc, &mut schema, name.as_str(), Kind::Long)?;
    }
    Ok(schema)
}

fn push_table(
    alloc: Global,
    schemas: &mut Schemas,
    name: &str,
    schema: Schema,
) -> Result<(), AllocError> {
    let name = KText::from_str(alloc, name)?;
    if schemas.find(name.as_str()).is_none() {
        schemas.push(NamedSchema { name, schema })?;
    }
    Ok(())
}

fn push_small(alloc: Global, schemas: &mut Schemas) -> Result<(), AllocError> {
    for table in TABLES {
        let schema = small(alloc, table.1)?;
        push_table(alloc, schemas, table.0, schema)?;
    }
    Ok(())
}

fn push_many(alloc: Global, schemas: &mut Schemas) -> Result<(), AllocError> {
    for i in 0u32..64 {
        let name = format!(in alloc; "t{i}")?;
        let schema = small(alloc, &[("x", Kind::Long)])?;
        push_table(alloc, schemas, name.as_str(), schema)?;
    }
    Ok(())
}

/// The tables.
pub(crate) fn schemas(alloc: Global, at: At) -> Result<Schemas, AllocError> {
    let mut schemas = Schemas::new(alloc);
    if matches!(at, At::Bare) {
        return Ok(schemas);
    }
    if matches!(at, At::Many) {
        push_many(alloc, &mut schemas)?;
        return Ok(schemas);
    }
    push_small(alloc, &mut schemas)?;
    if matches!(at, At::Wide) {
        let wide = wide(alloc)?;
        push_table(alloc, &mut schemas, "W", wide)?;
    }
    Ok(schemas)
}

/// The moment.
pub(crate) fn moment(at: At) -> Option<i64> {
    if matches!(at, At::Timeless) {
        None
    } else {
        Some(NOW)
    }
}

/// Over which tables the rows under this heading stand.
pub(crate) fn at_named(name: &str) -> Option<At> {
    match name {
        "Plain" => Some(At::Plain),
        "Timeless" => Some(At::Timeless),
        "Wide" => Some(At::Wide),
        "Many" => Some(At::Many),
        "Bare" => Some(At::Bare),
        _ => None,
    }
}
