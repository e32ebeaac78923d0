//! Programs.
ghost use Rattle.std.specs.Prelude.{◌≡◌, ◌&&◌, IfOk, map};
ghost use Rattle.std.specs.List.{list_all};
ghost use Rattle.kql_meaning.specs.Fits.{table_columns};
ghost use Rattle.pattern_lift.specs.Derived.{derived, name_of_call};
ghost use Rattle.pattern_lift.specs.declared.calls.Derived.{Derived};
ghost use Rattle.pattern_laws.specs.Liftable.{program_is_liftable};
ghost use Rattle.pattern_laws.specs.Tested.{are_own, can_lift, derived_is_sound, own_if};

use crate::marks::are_unmarked;
use crate::plans::{plan_is_liftable, plans_are_liftable};
use kql_bound::Program;
use kql_cells::{Column, KText, NamedSchema, Names};
use kql_columns::names_of;
use kql_fits::are_distinct;
use kql_items::Items;
use pattern_lift::{Derived, PatternCall, call_name};
use std::alloc::{AllocError, Global};

#[tactic(auto, unfolding(pattern_laws::specs::Liftable::program_is_liftable))]
fn program_is_liftable(alloc: Global, marks: &str, p: &Program) -> Result<bool, AllocError>
    ensures liftable { IfOk result (λ b. b ≡ program_is_liftable marks.now p.now) }
{
    let tables = p.tables.schemas();
    if !plans_are_liftable(alloc, marks, tables, p.lets.as_slice())? {
        return Ok(false);
    }
    plan_is_liftable(alloc, marks, tables, &p.main)
}

// Columns whose names differ, of which none begins with the marks.
#[tactic(auto, unfolding(pattern_laws::specs::Tested::are_own))]
fn are_own(alloc: Global, marks: &str, columns: &[Column]) -> Result<bool, AllocError>
    ensures own { IfOk result (λ b. b ≡ are_own marks.now columns.now) }
{
    let names = names_of(alloc, columns)?;
    if !are_distinct(names.as_slice()) {
        return Ok(false);
    }
    Ok(are_unmarked(marks, names.as_slice()))
}

// The same of the table of a name, which is there.
#[tactic(auto, unfolding(kql_meaning::specs::Fits::table_columns))]
fn table_is_own(
    alloc: Global,
    marks: &str,
    tables: &[NamedSchema],
    name: &KText,
) -> Result<bool, AllocError>
    ensures own { IfOk result (λ b. b ≡ own_if marks.now (table_columns tables.now name.now)) }
{
    let mut left = tables;
    'tables: while let Some((named, more)) = left.split_first() {
        if named.name.as_str() == name.as_str() {
            let own = are_own(alloc, marks, named.schema.columns())?;
            return Ok(own);
        }
        left = more;
    }
    Ok(false)
}

fn names_of_calls(alloc: Global, marks: &str, calls: &[PatternCall]) -> Result<Names, AllocError>
    ensures names { IfOk result (λ ns. ns ≡ map (name_of_call marks.now) calls.now) }
{
    let mut all = Items::with_capacity(alloc, calls.len())?;
    for call in calls {
        let name = call_name(alloc, marks, call.func.word)?;
        all.push(name)?;
    }
    Ok(all)
}

#[tactic(auto, unfolding(pattern_laws::specs::Tested::derived_is_sound))]
fn derived_is_sound(
    alloc: Global,
    marks: &str,
    tables: &[NamedSchema],
    d: &Derived,
) -> Result<bool, AllocError>
    ensures sound { IfOk result (λ b. b ≡ derived_is_sound marks.now tables.now d.now) }
{
    if !table_is_own(alloc, marks, tables, &d.table)? {
        return Ok(false);
    }
    let names = names_of_calls(alloc, marks, d.calls.as_slice())?;
    Ok(are_distinct(names.as_slice()))
}

fn all_are_sound(
    alloc: Global,
    marks: &str,
    tables: &[NamedSchema],
    all: &[Derived],
) -> Result<bool, AllocError>
    ensures sound { IfOk result (λ b. b ≡ list_all (derived_is_sound marks.now tables.now) all.now) }
{
    let mut left = all;
    'derived: while let Some((d, more)) = left.split_first() {
        if !derived_is_sound(alloc, marks, tables, d)? {
            return Ok(false);
        }
        left = more;
    }
    Ok(true)
}

fn names_of_derived(alloc: Global, all: &[Derived]) -> Result<Names, AllocError>
    ensures names { IfOk result (λ ns. ns ≡ map (λ (d : Derived). d.name) all.now) }
{
    let mut names = Items::with_capacity(alloc, all.len())?;
    for d in all {
        let name = d.name.copy(alloc)?;
        names.push(name)?;
    }
    Ok(names)
}

/// Whether a program can be lifted, where these are its prefixes with calls.
#[tactic(auto, unfolding(pattern_laws::specs::Tested::can_lift))]
pub fn can_lift(
    alloc: Global,
    marks: &str,
    p: &Program,
    prefixes: &[Derived],
) -> Result<bool, AllocError>
    requires prefixes { prefixes.now ≡ derived marks.now p.now }
    ensures liftable { IfOk result (λ b. b ≡ can_lift marks.now p.now) }
{
    if !program_is_liftable(alloc, marks, p)? {
        return Ok(false);
    }
    let names = names_of_derived(alloc, prefixes)?;
    if !are_distinct(names.as_slice()) {
        return Ok(false);
    }
    all_are_sound(alloc, marks, p.tables.schemas(), prefixes)
}
