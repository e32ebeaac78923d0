//! What calls answer to the columns that they read, as columns of derived tables.
ghost use Rattle.std.specs.Prelude.{◌≡◌, ◌<◌, ◌≤◌, Contains, IfOk, IsTrue, Some, length, map};
ghost use Rattle.std.specs.List.{flat_map};
ghost use Rattle.kql_cells.specs.Named.{column_name, place_of};
ghost use Rattle.kql_meaning.specs.Sources.{named_table};
ghost use Rattle.kql_values.specs.Kept.{all_named, named_of};
ghost use Rattle.pattern_lift.specs.declared.calls.Derived.{Derived};
ghost use Rattle.pattern_laws.specs.AddedColumns.{column_of_call};
ghost use Rattle.pattern_laws.specs.Tables.{derived_named, derived_table};
ghost use Rattle.pattern_run.specs.Patterned.{Found, finds_of, told_by};
ghost use Rattle.pattern_run.specs.Ready.{HasColumn, IsReady, IsReadyIn, is_there};

use kql_cells::{Column, Schema};
use kql_items::Items;
use kql_values::{Named, Table};
use pattern_lift::{Derived, PatternCall, call_name};
use pattern_ops::{Pattern, answer_kind};
use pattern_workers::answers_by_workers;
use std::alloc::{AllocError, Global};
use std::thread::Threads;

// The place of a column that is there.
fn place_of(schema: &Schema, name: &str) -> usize
    requires there { HasColumn schema.now name.now }
    ensures place { place_of column_name name.now schema.now ≡ Some result }
    ensures within { result < length schema.now }
{
    match schema.find(name) {
        Some(place) => place,
        None => unreachable!(),
    }
}

// The column of a call.
fn column_of_call(alloc: Global, marks: &str, call: &PatternCall) -> Result<Column, AllocError>
    ensures column { IfOk result (λ c. c ≡ column_of_call marks.now call.now) }
{
    let name = call_name(alloc, marks, call.func.word)?;
    let kind = answer_kind(call.func.group);
    Ok(Column { name, kind })
}

// The table with what these calls answer.
fn derived_table<R: Threads + Sync, M: Pattern + Sync>(
    rt: &R,
    alloc: Global,
    workers: u32,
    marks: &str,
    base: &Table,
    calls: &[PatternCall],
    made: &[M],
) -> Result<Table, AllocError>
    requires workers { (0 < workers) × (workers ≤ 64) }
    requires ready { IsReady marks.now base.now calls.now }
    requires count { length made.now ≡ length calls.now }
    ensures table { IfOk result (λ t. (found : Found) →
        map M.finds made.now ≡ map (finds_of found) calls.now →
        t ≡ derived_table (told_by found) marks.now calls.now base.now) }
{
    let mut table = base.copy(alloc)?;
    for i in 0..calls.len() {
        let call = &calls[i];
        let place = place_of(base.schema(), call.column.as_str());
        let cells = base.column(place);
        let values = answers_by_workers(rt, alloc, workers, &made[i], cells, call.func.group)?;
        let column = column_of_call(alloc, marks, call)?;
        table.push_column(column, values)?;
    }
    Ok(table)
}

// The table of a name that is there.
#[tactic(auto, unfolding(kql_meaning::specs::Sources::named_table, kql_meaning::specs::Sources::table_of))]
fn table_named<'a>(tables: &'a [Named], name: &str) -> &'a Table
    requires there { IsTrue (is_there (all_named tables.now) name.now) }
    ensures table { result.now ≡ named_table (all_named tables.now) name.now }
{
    let mut left = tables;
    'tables: while let Some((named, more)) = left.split_first() {
        if named.name.as_str() == name {
            return &named.table;
        }
        left = more;
    }
    unreachable!()
}

// A derived table under its name.
fn derived_named<R: Threads + Sync, M: Pattern + Sync>(
    rt: &R,
    alloc: Global,
    workers: u32,
    marks: &str,
    known: &[Named],
    prefix: &Derived,
    made: &[M],
) -> Result<Named, AllocError>
    requires workers { (0 < workers) × (workers ≤ 64) }
    requires ready { IsReadyIn marks.now (all_named known.now) prefix.now }
    requires count { length made.now ≡ length prefix.now.calls }
    ensures table { IfOk result (λ n. (found : Found) →
        map M.finds made.now ≡ map (finds_of found) prefix.now.calls →
        named_of n ≡ derived_named (told_by found) marks.now (all_named known.now) prefix.now) }
{
    let base = table_named(known, prefix.table.as_str());
    let table = derived_table(
        rt,
        alloc,
        workers,
        marks,
        base,
        prefix.calls.as_slice(),
        made,
    )?;
    let name = prefix.name.copy(alloc)?;
    Ok(Named { name, table })
}

/// The derived tables of prefixes over these tables, by the patterns of their calls, one after another.
pub(crate) fn derived_tables<R: Threads + Sync, M: Pattern + Sync>(
    rt: &R,
    alloc: Global,
    workers: u32,
    marks: &str,
    known: &[Named],
    prefixes: &[Derived],
    made: &[M],
) -> Result<Items<Named>, AllocError>
    requires workers { (0 < workers) × (workers ≤ 64) }
    requires ready { (d : Derived) → Contains prefixes.now d → IsReadyIn marks.now (all_named known.now) d }
    requires count { length made.now ≡ length (flat_map (λ (d : Derived). d.calls) prefixes.now) }
    ensures tables { IfOk result (λ ts. (found : Found) →
        map M.finds made.now ≡ map (finds_of found) (flat_map (λ (d : Derived). d.calls) prefixes.now) →
        all_named ts ≡ map (derived_named (told_by found) marks.now (all_named known.now)) prefixes.now) }
{
    let mut tables = Items::with_capacity(alloc, prefixes.len())?;
    let mut left = made;
    for prefix in prefixes {
        let (own, behind) = left.split_at(prefix.calls.len());
        let table = derived_named(rt, alloc, workers, marks, known, prefix, own)?;
        tables.push(table)?;
        left = behind;
    }
    Ok(tables)
}
