//! What is wrong with a row.
ghost use Rattle.std.specs.Prelude.{◌≡◌, ◌<◌, length};
ghost use Rattle.kql_scalar.specs.Evaluated.{AreSound};
ghost use Rattle.kql_scalar.specs.Scalar.{IsScalar};

use crate::trees::bound;
use crate::values::cells::{cell_text, count_of, text_at};
use crate::values::columns::{wrong_cell, wrong_range};
use bind_expr::Scope;
use kql_bound::BExpr;
use kql_cells::{KText, Kind};
use kql_scalar::{Located, are_sound, eval, is_scalar};
use kql_values::{Row, Table};
use std::alloc::{AllocError, Global};

/// Where rows stand: the table, what they may name, and what the steps hold.
#[derive(Drop)]
pub(crate) struct Seat {
    pub(crate) table: Table,
    pub(crate) scope: Scope,
    pub(crate) records: Vec<Option<Row>>,
}

/// The range inside of the table whose columns are looked at too.
const FROM: usize = 1;

const TO: usize = 4;

// The text of the value that `eval` gives.
fn evaluated(
    alloc: Global,
    e: &BExpr,
    kind: Kind,
    t: &Table,
    i: usize,
    s: &[Option<Row>],
) -> Result<KText, AllocError>
    requires scalar { IsScalar e.now }
    requires row { i < length t.now.lines }
    requires records { AreSound s.now }
{
    let value = eval(alloc, e, t, i, s)?;
    let text = cell_text(alloc, value.as_cell(), kind);
    drop(value);
    text
}

// The text of the value that `value` lends.
fn lent(
    alloc: Global,
    located: &Located,
    kind: Kind,
    t: &Table,
    i: usize,
    s: &[Option<Row>],
) -> Result<KText, AllocError>
    requires columns { t.now.columns ≡ located.now.columns }
    requires row { i < length t.now.lines }
    requires records { AreSound s.now }
{
    let value = located.value(alloc, t, i, s)?;
    let text = cell_text(alloc, value.as_cell(), kind);
    drop(value);
    text
}

// What is wrong with the values of `eval`.
fn wrong_evaluated(
    alloc: Global,
    e: &BExpr,
    kind: Kind,
    t: &Table,
    s: &[Option<Row>],
    texts: &str,
) -> Result<Option<String>, AllocError>
    requires scalar { IsScalar e.now }
    requires records { AreSound s.now }
{
    for i in 0..t.len() {
        let found = evaluated(alloc, e, kind, t, i, s)?;
        let found = found.as_str();
        let wanted = text_at(texts, i);
        if found != wanted {
            let told = format!(in alloc; "{found} at row {i}, not {wanted}")?;
            return Ok(Some(told));
        }
    }
    Ok(None)
}

// What is wrong with the values that are lent, and whether they are true.
fn wrong_lent(
    alloc: Global,
    located: &Located,
    kind: Kind,
    t: &Table,
    s: &[Option<Row>],
    texts: &str,
) -> Result<Option<String>, AllocError>
    requires columns { t.now.columns ≡ located.now.columns }
    requires records { AreSound s.now }
{
    for i in 0..t.len() {
        let found = lent(alloc, located, kind, t, i, s)?;
        let truth = located.is_true_at(alloc, t, i, s)?;
        let found = found.as_str();
        let wanted = text_at(texts, i);
        if found != wanted || truth != (kind == Kind::Bool && wanted == "true") {
            let told = format!(in alloc;
                "{found} lent at row {i}, {truth} by itself, not {wanted}"
            )?;
            return Ok(Some(told));
        }
    }
    Ok(None)
}

// What is wrong with the columns and places, of the whole table and inside of it. The whole column is asked for twice: as one that may be
// lent, and as one that is made.
fn wrong_ranges(
    alloc: Global,
    located: &Located,
    kind: Kind,
    t: &Table,
    texts: &str,
) -> Result<Option<String>, AllocError>
    requires columns { t.now.columns ≡ located.now.columns }
{
    let lent = located.lent_column(alloc, t)?;
    let told = wrong_cell(alloc, lent.as_vector(), kind, texts, 0)?;
    if told.is_some() {
        return Ok(told);
    }
    let whole = wrong_range(alloc, located, kind, t, texts, 0, t.len())?;
    if whole.is_some() || t.len() < TO {
        return Ok(whole);
    }
    wrong_range(alloc, located, kind, t, texts, FROM, TO)
}

// What is wrong with an expression.
fn wrong_expr(
    alloc: Global,
    seat: &Seat,
    e: &BExpr,
    kind: Kind,
    texts: &str,
) -> Result<Option<String>, AllocError> {
    let t = &seat.table;
    let s = seat.records.as_slice();
    if !is_scalar(e) || !are_sound(s) {
        return Ok(Some(String::from_str(alloc, "it is not scalar")?));
    }
    let evaluated = wrong_evaluated(alloc, e, kind, t, s, texts)?;
    if evaluated.is_some() {
        return Ok(evaluated);
    }
    let located = Located::new(alloc, e, t.schema())?;
    let lent = wrong_lent(alloc, &located, kind, t, s, texts)?;
    if lent.is_some() || !s.is_empty() {
        return Ok(lent);
    }
    wrong_ranges(alloc, &located, kind, t, texts)
}

/// What is wrong with a row, if something is. Columns and places are looked at where no step holds a record.
pub(crate) fn wrong_row(
    alloc: Global,
    seat: &Seat,
    text: &str,
    texts: &str,
) -> Result<Option<String>, AllocError> {
    let count = count_of(texts);
    if seat.table.len() < TO || count != 1 && count != seat.table.len() {
        return Ok(Some(String::from_str(alloc, "it says too few values or too many")?));
    }
    match bound(alloc, text, &seat.scope)? {
        None => Ok(Some(String::from_str(alloc, "it is refused")?)),
        Some(typed) => {
            let told = wrong_expr(alloc, seat, typed.expr.get(), typed.kind, texts);
            drop(typed);
            told
        }
    }
}
