//! The records of a scan's steps: the columns of the input and those that are declared, and what an absent record gives for each.
ghost use Rattle.std.specs.Prelude.{◌≡◌, [], IfOk, fold, map};
ghost use Rattle.kql_cells.specs.Named.{HasDistinctNames, column_name};
ghost use Rattle.bind_query.specs.Scan.{declared_cell, input_cell, record_cells, step_name, step_scope};
ghost use Rattle.bind_query.specs.ScanRecords.{two_lists, with_cell, with_lists};

use bind_expr::{Scope, StepNames};
use bind_operators::{Known, Shape, scope_at, text_of};
use kql_bound::Decl;
use kql_cells::{Column, Names, Schema, Value, Values, clone_value};
use kql_columns::has_column;
use kql_items::Items;
use kql_meaning::Position;
use kql_syntax::Step;
use std::alloc::{AllocError, Global};

/// The columns of a record, and what an absent record gives for each.
#[derive(Debug, Drop)]
pub struct RecordCells {
    pub columns: Items<Column>,
    pub defaults: Values,
}

#[tactic(auto, unfolding(crate::specs::ScanRecords::two_lists))]
fn no_cells(alloc: Global) -> RecordCells
    ensures none { result ≡ two_lists [] }
{
    RecordCells {
        columns: Items::new(alloc),
        defaults: Items::new(alloc),
    }
}

#[tactic(auto, unfolding(crate::specs::ScanRecords::with_cell))]
fn with_cell(cells: RecordCells, column: Column, default: Value) -> Result<RecordCells, AllocError>
    ensures added { IfOk result (λ r. r ≡ with_cell cells (column, default)) }
{
    if has_column(column.name.as_str(), cells.columns.as_slice()) {
        drop(default);
        return Ok(cells);
    }
    let RecordCells { columns, defaults } = cells;
    let mut columns = columns;
    let mut defaults = defaults;
    defaults.push(default)?;
    columns.push(column)?;
    Ok(RecordCells { columns, defaults })
}

fn input_cells(alloc: Global, columns: &[Column]) -> Result<RecordCells, AllocError>
    ensures cells { IfOk result (λ r. r ≡ fold (λ r c. with_cell r (input_cell c)) (two_lists []) columns.now) }
{
    let mut cells = no_cells(alloc);
    for c in columns {
        let column = c.copy(alloc)?;
        let absent = c.kind.absent().to_value(alloc)?;
        cells = with_cell(cells, column, absent)?;
    }
    Ok(cells)
}

fn declared_column(alloc: Global, d: &Decl) -> Result<Column, AllocError>
    ensures column { IfOk result (λ c. c ≡ record { name = d.now.name; kind = d.now.default.kind }) }
{
    Ok(Column {
        name: d.name.copy(alloc)?,
        kind: d.default.kind,
    })
}

fn with_declared(
    alloc: Global,
    start: RecordCells,
    declared: &[Decl],
) -> Result<RecordCells, AllocError>
    ensures cells { IfOk result (λ r. r ≡ fold (λ r d. with_cell r (declared_cell d)) start declared.now) }
{
    let mut cells = start;
    for d in declared {
        let column = declared_column(alloc, d)?;
        let default = clone_value(alloc, &d.default.value)?;
        cells = with_cell(cells, column, default)?;
    }
    Ok(cells)
}

// Of two columns of one name the first.
#[tactic(auto, using(crate::proofs::RecordLaws::record_steps))]
fn record_cells(
    alloc: Global,
    columns: &[Column],
    declared: &[Decl],
) -> Result<RecordCells, AllocError>
    ensures cells { IfOk result (λ r. r ≡ two_lists (record_cells columns.now declared.now)) }
{
    let cells = input_cells(alloc, columns)?;
    let cells = with_declared(alloc, cells, declared)?;
    Ok(cells)
}

fn step_names(alloc: Global, steps: &[Step]) -> Result<Names, AllocError>
    ensures names { IfOk result (λ ns. ns ≡ map step_name steps.now) }
{
    let mut names = Items::with_capacity(alloc, steps.len())?;
    for s in steps {
        let name = text_of(&s.name).copy(alloc)?;
        names.push(name)?;
    }
    Ok(names)
}

fn with_lists(
    alloc: Global,
    names: Names,
    cells: RecordCells,
    scope: Scope,
) -> Result<Scope, AllocError>
    requires distinct { HasDistinctNames column_name cells.columns }
    ensures scope { IfOk result (λ s. s ≡ with_lists names cells scope) }
{
    let RecordCells { columns, defaults } = cells;
    let columns = Schema::from_items(columns);
    let schema = columns.copy(alloc)?;
    Ok(Scope {
        schema,
        serial: scope.serial,
        position: scope.position,
        steps: StepNames {
            names,
            columns,
            defaults,
        },
        consts: scope.consts,
        keys: scope.keys,
        own: scope.own,
        moment: scope.moment,
    })
}

/// Where the expressions of steps stand.
#[tactic(auto, using(crate::proofs::RecordLaws::scope_steps))]
pub fn step_scope(
    alloc: Global,
    known: &Known,
    rows: &Shape,
    steps: &[Step],
    declared: &[Decl],
) -> Result<Scope, AllocError>
    ensures scope { IfOk result (λ s. s ≡ step_scope known.now rows.now steps.now declared.now) }
{
    let cells = record_cells(alloc, rows.columns.columns(), declared)?;
    let names = step_names(alloc, steps)?;
    let scope = scope_at(alloc, known, rows, Position::Plain)?;
    with_lists(alloc, names, cells, scope)
}
