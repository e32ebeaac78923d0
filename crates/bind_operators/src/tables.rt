//! What names stand for: tables, lets and columns.
ghost use Rattle.std.specs.Prelude.{◌≡◌, bytes_eq, find, IfOk};
ghost use Rattle.bind_expr.specs.Outcome.{Answers};
ghost use Rattle.kql_cells.specs.declared.schema.Column.{Column};
ghost use Rattle.kql_meaning.specs.Fits.{table_columns};
ghost use Rattle.bind_operators.specs.Known.{column_wanted, columns_handed_in, is_constant_name, let_columns, let_numbered, straight_from, table_bound, table_named, table_rows};

use crate::answers::or_lost;
use crate::bound::BoundPlan;
use crate::known::Known;
use crate::places::{name_place, text_of};
use crate::shape::Shape;
use bind_expr::{BindFault, Const};
use kql_bound::{Plan, Source};
use kql_cells::{Column, KText, NamedSchema, Schema};
use kql_columns::names_of;
use kql_items::{Boxed, Items};
use kql_lexer::Place;
use kql_syntax::Name;
use std::alloc::{AllocError, Global};

/// The number of the table let of a name, from 0.
#[tactic(auto, unfolding(crate::specs::Known::let_numbered))]
pub fn let_numbered(known: &Known, name: &str) -> Option<usize>
    ensures number { result ≡ let_numbered known.now name.now }
{
    known
        .lets
        .as_slice()
        .iter()
        .position(|l| l.name.as_str() == name)
}

/// Whether a constant has a name.
#[tactic(auto, unfolding(crate::specs::Known::is_constant_name))]
pub fn is_constant_name(consts: &[Const], name: &str) -> bool
    ensures is { result ≡ is_constant_name consts.now name.now }
{
    let mut left = consts;
    'each: while let Some((c, more)) = left.split_first() {
        if c.name.as_str() == name {
            return true;
        }
        left = more;
    }
    false
}

/// Rows straight from a source.
pub fn straight_from(
    alloc: Global,
    serial: bool,
    source: Source,
    columns: Schema,
) -> Result<BoundPlan, AllocError>
    ensures rows { IfOk result (λ p. p ≡ straight_from serial source columns) }
{
    let ops = Items::new(alloc);
    let plan = Boxed::new(alloc, Plan { source, ops })?;
    Ok(BoundPlan {
        plan,
        after: Shape {
            columns,
            serial,
            own: Items::new(alloc),
        },
    })
}

// Rows of a table that was handed in, all of whose columns are its own.
#[tactic(auto, unfolding(crate::specs::Known::table_rows))]
fn table_rows(alloc: Global, name: &KText, columns: Schema) -> Result<BoundPlan, AllocError>
    ensures rows { IfOk result (λ p. p ≡ table_rows name.now columns) }
{
    let own = names_of(alloc, columns.columns())?;
    let source = Source::Table(name.copy(alloc)?);
    let ops = Items::new(alloc);
    let plan = Boxed::new(alloc, Plan { source, ops })?;
    Ok(BoundPlan {
        plan,
        after: Shape {
            columns,
            serial: false,
            own,
        },
    })
}

#[tactic(auto, unfolding(kql_meaning::specs::Fits::table_columns))]
fn table_columns(
    alloc: Global,
    tables: &[NamedSchema],
    name: &str,
) -> Result<Option<Schema>, AllocError>
    ensures columns { IfOk result (λ o. o ≡ table_columns tables.now name.now) }
{
    let mut left = tables;
    'each: while let Some((named, more)) = left.split_first() {
        if named.name.as_str() == name {
            let columns = named.schema.copy(alloc)?;
            return Ok(Some(columns));
        }
        left = more;
    }
    Ok(None)
}

#[tactic(auto, unfolding(crate::specs::Known::columns_handed_in))]
fn columns_handed_in(alloc: Global, known: &Known, name: &str) -> Result<Option<Schema>, AllocError>
    ensures columns { IfOk result (λ o. o ≡ columns_handed_in known.now name.now) }
{
    if is_constant_name(known.consts.as_slice(), name) {
        return Ok(None);
    }
    table_columns(alloc, known.tables.schemas(), name)
}

// The columns of the table let of a number.
#[tactic(auto, unfolding(crate::specs::Known::let_columns))]
fn let_columns(alloc: Global, known: &Known, number: usize) -> Result<Schema, AllocError>
    ensures columns { IfOk result (λ cs. cs ≡ let_columns known.now number) }
{
    match known.lets.get(number) {
        Some(l) => l.columns.copy(alloc),
        None => Ok(Schema::new(alloc)),
    }
}

/// The table of a name: that of a let, else one that was handed in.
#[tactic(auto, unfolding(crate::specs::Known::table_named, crate::specs::Known::rows_of))]
pub fn table_named(
    alloc: Global,
    known: &Known,
    name: &KText,
) -> Result<Option<BoundPlan>, AllocError>
    ensures table { IfOk result (λ p. p ≡ table_named known.now name.now) }
{
    match let_numbered(known, name.as_str()) {
        Some(number) => {
            let columns = let_columns(alloc, known, number)?;
            Ok(Some(straight_from(alloc, false, Source::Let(number), columns)?))
        }
        None => match columns_handed_in(alloc, known, name.as_str())? {
            Some(columns) => Ok(Some(table_rows(alloc, name, columns)?)),
            None => Ok(None),
        },
    }
}

/// A table by its name, or 410 at the name.
#[tactic(auto, using(bind_expr::proofs::AnswerFacts::answer_steps), unfolding(crate::specs::Known::table_bound))]
pub fn bind_table(alloc: Global, known: &Known, n: &Name) -> Result<BoundPlan, BindFault>
    ensures exact { Answers result (table_bound known.now n.now) }
{
    match table_named(alloc, known, text_of(n)) {
        Ok(Some(rows)) => Ok(rows),
        Ok(None) => Err(BindFault::Refused {
            code: 410,
            place: name_place(n),
        }),
        Err(_) => Err(BindFault::OutOfMemory),
    }
}

// A copy of the column of a name.
fn column_named(alloc: Global, columns: &[Column], name: &str) -> Result<Option<Column>, AllocError>
    ensures column { IfOk result (λ o. o ≡ find (λ (c : Column). bytes_eq c.name name.now) columns.now) }
{
    let mut left = columns;
    'each: while let Some((c, more)) = left.split_first() {
        if c.name.as_str() == name {
            let copy = c.copy(alloc)?;
            return Ok(Some(copy));
        }
        left = more;
    }
    Ok(None)
}

/// A plain column where an operator wants one: 403 at the operator where a constant alone has the name, 401 at the name where nothing has.
#[tactic(auto, using(bind_expr::proofs::AnswerFacts::answer_steps), unfolding(crate::specs::Known::column_wanted))]
pub fn column_wanted(
    alloc: Global,
    operator: Place,
    known: &Known,
    columns: &[Column],
    n: &Name,
) -> Result<Column, BindFault>
    ensures exact { Answers result (column_wanted operator known.now columns.now n.now) }
{
    let name = text_of(n).as_str();
    match column_named(alloc, columns, name) {
        Ok(Some(c)) => Ok(c),
        Ok(None) => {
            if is_constant_name(known.consts.as_slice(), name) {
                Err(BindFault::Refused {
                    code: 403,
                    place: operator,
                })
            } else {
                Err(BindFault::Refused {
                    code: 401,
                    place: name_place(n),
                })
            }
        }
        Err(_) => Err(BindFault::OutOfMemory),
    }
}
