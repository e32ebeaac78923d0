//! The table of the groups of all rows.
ghost use Rattle.std.specs.Prelude.{◌≡◌, ◌<◌, ◌++◌, [], true, ℕ, IfOk, IsTrue, List, None, OnOk, is_some, length, map, slice_get, slice_index_or};
ghost use Rattle.std.specs.List.{list_all};
ghost use Rattle.kql_cells.specs.Seen.{seen};
ghost use Rattle.kql_cells.specs.Table.{Grid};
ghost use Rattle.kql_cells.specs.declared.value.Value.{Value as Cell};
ghost use Rattle.kql_functions.specs.declared.aggregate.Aggregate.{Aggregate};
ghost use Rattle.kql_bound.specs.declared.expr.BExpr.{BExpr};
ghost use Rattle.kql_bound.specs.declared.parts.BItem.{BItem};
ghost use Rattle.kql_meaning.specs.Expressions.{kind_of, values_in};
ghost use Rattle.kql_meaning.specs.Results.{results};
ghost use Rattle.kql_scalar_fns.specs.Arguments.{AreWellFormed};
ghost use Rattle.kql_fit_laws.specs.LawsOfRows.{IsTable};
ghost use Rattle.kql_meaning.specs.FittingOperators.{answer_if, group_item_fits, summarize_fits};
ghost use Rattle.kql_meaning.specs.Items.{items_values};
ghost use Rattle.kql_meaning.specs.Summarize.{group_columns, group_rows, summarize_table};
ghost use Rattle.kql_meaning.specs.Values.{absent_as};
ghost use Rattle.agg_folds.specs.Folds.{folded};
ghost use Rattle.agg_folds.specs.States.{fold_of};
ghost use Rattle.agg_folds.specs.declared.call.FoldCall.{FoldCall};
ghost use Rattle.summarize_pieces.specs.Calls.{AreFurther, AreGiven, IsItem, calls_of, firsts, first_columns, further_row, item_calls};
ghost use Rattle.summarize_pieces.specs.Pieces.{AreAllGroups, AreAligned, call_over, group_line, groups_in, kept_row, kept_rows, state_in, value_for};

use crate::calls::{behind_first, first_columns, further_columns, values_behind_item};
use crate::groups::Groups;
use crate::kept::GroupFold;
use crate::values::{first_value, value_of};
use agg_folds::FoldCall;
use kql_bound::{BExpr, BItem, GroupPlan};
use kql_cells::{CellRef, Kind, Row, Schema, Value};
use kql_columns::group_columns;
use kql_items::Items;
use kql_meaning::kind_of;
use kql_values::{Rows, Table};
use std::alloc::{AllocError, Global};

/// The table of a plan from the groups of all rows: for each group its key, and behind it what each item gives.
#[tactic(auto, using(crate::proofs::PlanSteps::name_steps))]
pub fn finish_groups(
    alloc: Global,
    x: Groups<'_>,
    g: &GroupPlan,
    schema: &Schema,
) -> Result<Table, AllocError>
    requires fits { IsTrue (is_some (answer_if (summarize_fits g.now schema.now) (group_columns g.now schema.now))) }
    requires groups { AreAllGroups g.now schema.now x }
    ensures rows { (t : Grid) → IsTable t → t.columns ≡ schema.now → x.entry ≡ groups_in g.now t 0 (length t.lines) → IfOk result (λ r. r ≡ summarize_table g.now t) }
{
    let named = group_columns(alloc, g, schema.columns())?;
    let none = Table::empty(alloc, Schema::from_items(named))?;
    let (named, none) = none.into_parts();
    let rows = group_rows(alloc, &x, g, schema, none)?;
    let made = Table::new(alloc, named, rows)?;
    Ok(made)
}

// The rows of the groups, one for each, behind none.
fn group_rows(
    alloc: Global,
    x: &Groups<'_>,
    g: &GroupPlan,
    schema: &Schema,
    none: Rows,
) -> Result<Rows, AllocError>
    requires fits { IsTrue (is_some (answer_if (summarize_fits g.now schema.now) (group_columns g.now schema.now))) }
    requires groups { AreAllGroups g.now schema.now x.now }
    requires none { none ≡ [] }
    ensures rows { (t : Grid) → IsTable t → t.columns ≡ schema.now → x.now ≡ groups_in g.now t 0 (length t.lines) → IfOk result (λ r. r ≡ group_rows g.now.keys g.now.items t) }
{
    let mut rows = none;
    'groups: for k in 0..x.keys.len() {
        let line = group_line(alloc, x, k, g, schema)?;
        rows.push_row(line)?;
    }
    Ok(rows)
}

// The row of a group: its key, and behind it what each item gives.
fn group_line(
    alloc: Global,
    x: &Groups<'_>,
    k: usize,
    g: &GroupPlan,
    schema: &Schema,
) -> Result<Row, AllocError>
    requires fits { IsTrue (is_some (answer_if (summarize_fits g.now schema.now) (group_columns g.now schema.now))) }
    requires groups { AreAllGroups g.now schema.now x.now }
    requires within { k < length x.now.keys }
    ensures line { (t : Grid) → IsTable t → t.columns ≡ schema.now → x.now ≡ groups_in g.now t 0 (length t.lines) → IfOk result (λ r. r ≡ group_line g.now t (slice_index_or x.now.keys k [])) }
{
    let folds = x.folds.as_slice();
    let values = call_values(alloc, x.calls.as_slice(), folds, k)?;
    let key = x.keys.copy_row(alloc, k)?;
    let items = g.items.as_slice();
    let line = item_values(alloc, key, items, values.as_slice(), folds, k, schema)?;
    Ok(line)
}

// What each call gives for a group.
#[tactic(auto, using(crate::proofs::FinishSteps::aligned_steps))]
fn call_values(
    alloc: Global,
    _calls: &[FoldCall],
    folds: &[Items<GroupFold<'_>>],
    k: usize,
) -> Result<Items<Value>, AllocError>
    requires aligned { AreAligned k _calls.now folds.now }
    ensures values { (cs : List (Aggregate × List BExpr)) (keys : List BItem) (t : Grid) (from to : ℕ) (ks : List (List Cell)) → _calls.now ≡ map (λ c. call_over c t.columns) cs → folds.now ≡ map (λ c. map (state_in c keys t from to) ks) cs → IfOk result (λ vs. vs ≡ map (λ c. value_for c keys t from to (slice_index_or ks k [])) cs) }
{
    let mut values = Items::with_capacity(alloc, folds.len())?;
    'calls: for j in 0..folds.len() {
        let value = value_at(alloc, &folds[j], k)?;
        values.push(value)?;
    }
    Ok(values)
}

// What a call gives for a group.
#[tactic(auto, using(crate::proofs::FinishSteps::one_steps))]
fn value_at(alloc: Global, folds: &Items<GroupFold<'_>>, k: usize) -> Result<Value, AllocError>
    requires within { k < length folds.now }
    ensures value { (call : FoldCall) (lists : List (List (List Cell))) → map (λ s. s.kept) folds.now ≡ map (fold_of call) lists → IfOk result (λ v. v ≡ folded call (slice_index_or lists k [])) }
{
    let folds = folds.as_slice();
    let group = &folds[k];
    let value = group.fold().finish(alloc)?;
    Ok(value)
}

// What stands in a column of a type where there is no value.
#[tactic(auto, unfolding(kql_meaning::specs::Values::absent_as))]
fn absent_as(kind: Option<Kind>) -> CellRef<'static>
    ensures value { seen result ≡ absent_as kind }
{
    match kind {
        None => CellRef::Null,
        Some(kind) => kind.absent(),
    }
}

// A key, and behind it what items give for a group, where values begin with what their calls give, and folds keep their further columns.
#[tactic(auto, using(crate::proofs::ItemSteps::item_steps))]
fn item_values(
    alloc: Global,
    key: Row,
    items: &[BItem],
    values: &[Value],
    folds: &[Items<GroupFold<'_>>],
    k: usize,
    schema: &Schema,
) -> Result<Row, AllocError>
    requires fits { IsTrue (list_all (group_item_fits schema.now) items.now) }
    requires form { AreWellFormed values.now }
    requires many { length folds.now ≡ length values.now }
    ensures line { (u : Grid) → AreGiven (calls_of items.now) u values.now → AreFurther schema.now (calls_of items.now) u (kept_rows folds.now k) → IfOk result (λ r. r ≡ key ++ items_values items.now u 0) }
{
    let mut line = key;
    let mut rest = values;
    'items: for item in items {
        let next = values_behind_item(&item.expr, rest);
        let cells = kept_cells(folds, values.len() - rest.len(), k);
        push_item(alloc, &mut line, &item.expr, rest, cells, schema)?;
        rest = next;
    }
    Ok(line)
}

// What an item gives for a group, behind others.
fn push_item(
    alloc: Global,
    line: &mut Row,
    e: &BExpr,
    values: &[Value],
    cells: &[CellRef<'_>],
    schema: &Schema,
) -> Result<(), AllocError>
    requires item { IsItem schema.now e.now }
    requires form { AreWellFormed values.now }
    ensures pushed { (u : Grid) (rows : List (List Cell)) → AreGiven (item_calls e.now) u values.now → AreFurther schema.now (item_calls e.now) u rows → map seen cells.now ≡ slice_index_or rows 0 [] → OnOk result (line.new ≡ line.old ++ results e.now u 0 []) }
{
    match first_columns(e) {
        Some(columns) => {
            push_firsts(alloc, line, columns, values)?;
            Ok(())
        }
        None => {
            push_value(alloc, line, e, values, cells, schema)?;
            Ok(())
        }
    }
}

// What an item that is no call of `take_any` gives, behind others.
#[tactic(auto, using(crate::proofs::ItemSteps::value_steps))]
fn push_value(
    alloc: Global,
    line: &mut Row,
    e: &BExpr,
    values: &[Value],
    cells: &[CellRef<'_>],
    schema: &Schema,
) -> Result<(), AllocError>
    requires item { IsItem schema.now e.now }
    requires other { first_columns e.now ≡ None }
    requires form { AreWellFormed values.now }
    ensures pushed { (u : Grid) (rows : List (List Cell)) → AreGiven (item_calls e.now) u values.now → AreFurther schema.now (item_calls e.now) u rows → map seen cells.now ≡ slice_index_or rows 0 [] → OnOk result (line.new ≡ line.old ++ results e.now u 0 []) }
{
    let columns = further_columns(e);
    if columns.len() > 0 {
        let value = first_value(alloc, values)?;
        line.push(value)?;
        push_further(alloc, line, columns, cells, schema)?;
        Ok(())
    } else {
        let value = value_of(alloc, e, values, schema)?;
        line.push(value)?;
        Ok(())
    }
}

// The cells of further columns that are kept for a call of a group.
#[tactic(auto, using(crate::proofs::ItemSteps::call_steps))]
fn kept_cells<'b, 'a>(folds: &'b [Items<GroupFold<'a>>], j: usize, k: usize) -> &'b [CellRef<'a>]
    ensures cells { map seen result.now ≡ slice_index_or (kept_rows folds.now k) j [] }
{
    if j < folds.len() {
        group_cells(folds[j].as_slice(), k)
    } else {
        &[]
    }
}

// Those of a group.
#[tactic(auto, using(crate::proofs::ItemSteps::group_steps))]
fn group_cells<'b, 'a>(groups: &'b [GroupFold<'a>], k: usize) -> &'b [CellRef<'a>]
    ensures cells { map seen result.now ≡ kept_row (slice_get groups.now k) }
{
    if k < groups.len() {
        groups[k].further()
    } else {
        &[]
    }
}

// What further columns give, behind others: the cells that are kept, and where there are none what stands where there is no value.
#[tactic(auto, using(crate::proofs::ItemSteps::further_steps))]
fn push_further(
    alloc: Global,
    line: &mut Row,
    columns: &[BExpr],
    cells: &[CellRef<'_>],
    schema: &Schema,
) -> Result<(), AllocError>
    ensures pushed { OnOk result (line.new ≡ line.old ++ further_row schema.now columns.now (map seen cells.now)) }
{
    if cells.len() > 0 {
        push_cells(alloc, line, cells)
    } else {
        push_absent(alloc, line, columns, schema)
    }
}

// What stands in columns where there is no value, behind others.
fn push_absent(
    alloc: Global,
    line: &mut Row,
    columns: &[BExpr],
    schema: &Schema,
) -> Result<(), AllocError>
    ensures pushed { OnOk result (line.new ≡ line.old ++ map (λ (e : BExpr). absent_as (kind_of e schema.now)) columns.now) }
{
    'absent: for column in columns {
        let kind = kind_of(alloc, column, schema.columns())?;
        let value = absent_as(kind).to_value(alloc)?;
        line.push(value)?;
    }
    Ok(())
}

/// Cells, behind others.
pub(crate) fn push_cells(
    alloc: Global,
    line: &mut Row,
    cells: &[CellRef<'_>],
) -> Result<(), AllocError>
    ensures pushed { OnOk result (line.new ≡ line.old ++ map seen cells.now) }
{
    'cells: for cell in cells {
        let value = cell.to_value(alloc)?;
        line.push(value)?;
    }
    Ok(())
}

// What `take_any` of columns gives, behind others.
#[tactic(auto, using(crate::proofs::FirstSteps::column_steps))]
fn push_firsts(
    alloc: Global,
    line: &mut Row,
    columns: &[BExpr],
    values: &[Value],
) -> Result<(), AllocError>
    requires form { AreWellFormed values.now }
    ensures pushed { (u : Grid) → AreGiven (firsts columns.now) u values.now → OnOk result (line.new ≡ line.old ++ values_in columns.now u 0 []) }
{
    let mut rest = values;
    'columns: for j in 0..columns.len() {
        let next = behind_first(rest);
        let value = first_value(alloc, rest)?;
        line.push(value)?;
        rest = next;
    }
    Ok(())
}
