//! The parts of a value, one by one.
ghost use Rattle.std.specs.Prelude.{◌≡◌, ◌++◌, ◌∷◌, [], map, slice_index_or, IfOk, OnOk};
ghost use Rattle.kql_cells.specs.Seen.{seen};
ghost use Rattle.kql_cells.specs.Values.{IsWellFormed};
ghost use Rattle.kql_cells.specs.declared.dynamic.Dyn.TheVariants as dyn;
ghost use Rattle.kql_cells.specs.declared.value.Value.TheVariants as value;
ghost use Rattle.kql_dynamic.specs.Parts.{value_of};
ghost use Rattle.kql_meaning.specs.MvExpand.{entry_part, part_as};
ghost use Rattle.kql_scalar_fns.specs.Conversion.{conversion};
ghost use Rattle.table_ops.specs.Parts.{part_count, part_or_null};

use kql_cells::{CellRef, Dyn, KText, Kind, Value, clone_dyn};
use kql_items::Items;
use kql_scalar_fns::{ConversionFunc, Func, apply_cells};
use kql_values::Vector;
use std::alloc::{AllocError, Global};

/// How many parts a value has.
#[tactic(auto, unfolding(crate::specs::Parts::part_count, kql_meaning::specs::MvExpand::parts_of))]
pub(crate) fn part_count(cell: CellRef<'_>) -> usize
    ensures count { result ≡ part_count (seen cell.entry) }
{
    match cell {
        CellRef::Dynamic(d) => dynamic_part_count(d),
        CellRef::Null
        | CellRef::Bool(_)
        | CellRef::Long(_)
        | CellRef::Text(_)
        | CellRef::Moment(_)
        | CellRef::Span(_) => 1,
    }
}

#[tactic(auto, unfolding(crate::specs::Parts::part_count, kql_meaning::specs::MvExpand::parts_of))]
fn dynamic_part_count(d: &Dyn) -> usize
    ensures count { result ≡ part_count (value.Dynamic d.now) }
{
    match d {
        Dyn::Array(parts) => parts.len(),
        Dyn::Bag(entries) => entries.len(),
        Dyn::Null | Dyn::Bool(_) | Dyn::Long(_) | Dyn::Text(_) => 1,
    }
}

/// Adds a part of a value, or null where there is none, converted.
#[tactic(auto, using(crate::proofs::PartFacts::part_steps), unfolding(crate::specs::Parts::part_or_null, kql_meaning::specs::MvExpand::parts_of))]
pub(crate) fn push_part(
    alloc: Global,
    out: &mut Vector,
    array: bool,
    to: Kind,
    cell: CellRef<'_>,
    k: usize,
) -> Result<(), AllocError>
    requires form { IsWellFormed (seen cell) }
    ensures added { OnOk result (out.new ≡ out.old ++ part_as to (part_or_null array (seen cell.entry) k) ∷ []) }
{
    match cell {
        CellRef::Dynamic(d) => push_dynamic_part(alloc, out, array, to, d, k),
        CellRef::Null
        | CellRef::Bool(_)
        | CellRef::Long(_)
        | CellRef::Text(_)
        | CellRef::Moment(_)
        | CellRef::Span(_) => push_as(alloc, out, to, only_part(cell, k)),
    }
}

// A value that is its only part.
fn only_part(cell: CellRef<'_>, k: usize) -> CellRef<'_>
    ensures part { seen result ≡ slice_index_or (seen cell.entry ∷ []) k value.Null }
{
    if k == 0 { cell } else { CellRef::Null }
}

#[tactic(auto, using(crate::proofs::PartFacts::dynamic_steps))]
fn push_dynamic_part(
    alloc: Global,
    out: &mut Vector,
    array: bool,
    to: Kind,
    d: &Dyn,
    k: usize,
) -> Result<(), AllocError>
    requires form { IsWellFormed (value.Dynamic d.now) }
    ensures added { OnOk result (out.new ≡ out.old ++ part_as to (part_or_null array (value.Dynamic d.now) k) ∷ []) }
{
    match d {
        Dyn::Array(parts) => push_as(alloc, out, to, element(parts.as_slice(), k)),
        Dyn::Bag(entries) => push_entry(alloc, out, array, to, entries.as_slice(), k),
        Dyn::Null | Dyn::Bool(_) | Dyn::Long(_) | Dyn::Text(_) => {
            push_as(alloc, out, to, only_part(CellRef::Dynamic(d), k))
        }
    }
}

// An element of an array, or null.
#[tactic(auto, using(crate::proofs::PartFacts::element_steps))]
fn element(parts: &[Dyn], k: usize) -> CellRef<'_>
    ensures part { seen result ≡ slice_index_or (map value_of parts.now) k value.Null }
{
    if k < parts.len() {
        cell_of(&parts[k])
    } else {
        CellRef::Null
    }
}

fn cell_of(d: &Dyn) -> CellRef<'_>
    ensures cell { seen result ≡ value_of d.now }
{
    match d {
        Dyn::Null => CellRef::Null,
        Dyn::Bool(_) | Dyn::Long(_) | Dyn::Text(_) | Dyn::Array(_) | Dyn::Bag(_) => {
            CellRef::Dynamic(d)
        }
    }
}

// Adds an entry of a bag, or null, converted.
#[tactic(auto, using(crate::proofs::PartFacts::entry_steps))]
fn push_entry(
    alloc: Global,
    out: &mut Vector,
    array: bool,
    to: Kind,
    entries: &[(KText, Dyn)],
    k: usize,
) -> Result<(), AllocError>
    requires form { IsWellFormed (value.Dynamic (dyn.Bag entries.now)) }
    ensures added { OnOk result (out.new ≡ out.old ++ part_as to (slice_index_or (map (entry_part array) entries.now) k value.Null) ∷ []) }
{
    if k < entries.len() {
        let part = entry_part(alloc, array, &entries[k])?;
        push_as(alloc, out, to, part.as_cell())
    } else {
        push_as(alloc, out, to, CellRef::Null)
    }
}

#[tactic(auto, unfolding(kql_meaning::specs::MvExpand::entry_part))]
fn entry_part(alloc: Global, array: bool, entry: &(KText, Dyn)) -> Result<Value, AllocError>
    ensures part { IfOk result (λ v. v ≡ entry_part array entry.now) }
{
    if array {
        let mut parts = Items::with_capacity(alloc, 2)?;
        parts.push(Dyn::Text(entry.0.copy(alloc)?))?;
        parts.push(clone_dyn(alloc, &entry.1)?)?;
        Ok(Value::Dynamic(Dyn::Array(parts)))
    } else {
        let mut entries = Items::with_capacity(alloc, 1)?;
        let key = entry.0.copy(alloc)?;
        let value = clone_dyn(alloc, &entry.1)?;
        entries.push((key, value))?;
        Ok(Value::Dynamic(Dyn::Bag(entries)))
    }
}

// Adds a value, converted to a type.
#[tactic(auto, unfolding(kql_meaning::specs::MvExpand::part_as, kql_scalar_fns::specs::Conversion::conversion, kql_scalar_fns::specs::Arguments::argument))]
fn push_as(alloc: Global, out: &mut Vector, to: Kind, cell: CellRef<'_>) -> Result<(), AllocError>
    requires form { IsWellFormed (seen cell) }
    ensures added { OnOk result (out.new ≡ out.old ++ part_as to (seen cell.entry) ∷ []) }
{
    match to {
        Kind::Bool => push_converted(alloc, out, ConversionFunc::ToBool, cell),
        Kind::Long => push_converted(alloc, out, ConversionFunc::ToLong, cell),
        Kind::Text => push_converted(alloc, out, ConversionFunc::ToText, cell),
        Kind::Moment => push_converted(alloc, out, ConversionFunc::ToMoment, cell),
        Kind::Span => push_converted(alloc, out, ConversionFunc::ToSpan, cell),
        Kind::Dynamic => out.push_cell(cell),
    }
}

#[tactic(auto, unfolding(kql_scalar_fns::specs::Applied::applied))]
fn push_converted(
    alloc: Global,
    out: &mut Vector,
    f: ConversionFunc,
    cell: CellRef<'_>,
) -> Result<(), AllocError>
    requires form { IsWellFormed (seen cell) }
    ensures added { OnOk result (out.new ≡ out.old ++ conversion f (seen cell.entry ∷ []) ∷ []) }
{
    let value = apply_cells(alloc, Func::Conversion(f), &[cell])?;
    out.push(value)
}
