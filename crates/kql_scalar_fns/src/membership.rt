ghost use Rattle.std.specs.Prelude.{◌≡◌, ◌++◌, IfOk, IfSome, IsTrue, OnOk, map, option_map};
ghost use Rattle.std.specs.List.{list_all, list_any};
ghost use Rattle.kql_dynamic.specs.Parts.{elements, value_of};
ghost use Rattle.kql_cells.specs.Dynamic.{is_well_formed_dynamic};
ghost use Rattle.kql_cells.specs.Seen.{seen};
ghost use Rattle.kql_cells.specs.Values.{IsWellFormed};
ghost use Rattle.kql_scalar_fns.specs.Arguments.{AreWellFormed};
ghost use Rattle.kql_scalar_fns.specs.Comparison.{alike, in_kind, is_among, is_match, members, values_in};
ghost use Rattle.kql_scalar_fns.specs.Logic.{is_true};
ghost use Rattle.kql_scalar_fns.specs.Readings.{text_of};
ghost use Rattle.kql_cells.specs.declared.value.Value.TheVariants as value;

use crate::comparison::{equality, text_equality};
use crate::conversion::{to_bool, to_long, to_moment, to_span};
use crate::logic::is_true;
use crate::readings::{text_in, text_of};
use kql_cells::{CellRef, Dyn, Kind, Value};
use kql_texts::Fold;
use std::alloc::{AllocError, Global};

// Whether one of the values of a list is alike: those of an operand that is an array are its elements.
#[tactic(auto, using(crate::proofs::ArgumentFacts::argument_facts), unfolding(crate::specs::Comparison::is_among))]
pub(crate) fn is_among(
    alloc: Global,
    fold: Fold,
    x: CellRef<'_>,
    operands: &[CellRef<'_>],
) -> Result<bool, AllocError>
    requires { AreWellFormed (map seen operands.now) }
    ensures { IfOk result (λ b. b ≡ is_among fold (seen x.entry) (map seen operands.now)) }
{
    let mut left = operands;
    'operands: while let [operand, more @ ..] = left {
        if has_match(alloc, fold, x, *operand)? {
            return Ok(true);
        }
        left = more;
    }
    Ok(false)
}

// Whether an operand, or an element of it, is alike.
#[tactic(auto, unfolding(crate::specs::Comparison::members))]
fn has_match(
    alloc: Global,
    fold: Fold,
    x: CellRef<'_>,
    operand: CellRef<'_>,
) -> Result<bool, AllocError>
    requires { IsWellFormed (seen operand) }
    ensures { IfOk result (λ b. b ≡ list_any (is_match fold (seen x.entry)) (members (seen operand.entry))) }
{
    match operand {
        CellRef::Dynamic(d) => match elements_in(d) {
            Some(parts) => is_element(alloc, fold, x, parts),
            None => is_match(alloc, fold, x, operand),
        },
        _ => is_match(alloc, fold, x, operand),
    }
}

// The elements of an array.
#[tactic(auto, using(crate::proofs::MemberFacts::element_facts), unfolding(kql_dynamic::specs::Parts::elements))]
fn elements_in(d: &Dyn) -> Option<&[Dyn]>
    requires { IsTrue (is_well_formed_dynamic d.now) }
    ensures elements { option_map (λ s. s.now) result ≡ elements d.now }
    ensures form { IfSome result (λ s. IsTrue (list_all is_well_formed_dynamic s.now)) }
{
    match d {
        Dyn::Array(parts) => Some(parts.as_slice()),
        _ => None,
    }
}

// Whether one of these elements is alike.
fn is_element(alloc: Global, fold: Fold, x: CellRef<'_>, parts: &[Dyn]) -> Result<bool, AllocError>
    requires { IsTrue (list_all is_well_formed_dynamic parts.now) }
    ensures { IfOk result (λ b. b ≡ list_any (is_match fold (seen x.entry)) (map value_of parts.now)) }
{
    let mut left = parts;
    'elements: while let [part, more @ ..] = left {
        if is_match(alloc, fold, x, cell_of(part))? {
            return Ok(true);
        }
        left = more;
    }
    Ok(false)
}

// An element as a cell.
#[tactic(auto, using(crate::proofs::MemberFacts::cell_facts))]
fn cell_of(d: &Dyn) -> CellRef<'_>
    ensures cell { seen result ≡ value_of d.now }
    ensures form { IsTrue (is_well_formed_dynamic d.now) → IsWellFormed (seen result) }
{
    match d {
        Dyn::Null => CellRef::Null,
        Dyn::Bool(_) | Dyn::Long(_) | Dyn::Text(_) | Dyn::Array(_) | Dyn::Bag(_) => {
            CellRef::Dynamic(d)
        }
    }
}

// Whether a value is alike in the type of x.
#[tactic(auto, unfolding(crate::specs::Comparison::is_match, crate::specs::Comparison::in_type_of))]
fn is_match(alloc: Global, fold: Fold, x: CellRef<'_>, v: CellRef<'_>) -> Result<bool, AllocError>
    requires { IsWellFormed (seen v) }
    ensures { IfOk result (λ b. b ≡ is_match fold (seen x.entry) (seen v.entry)) }
{
    match x {
        CellRef::Bool(_) => is_alike(alloc, fold, x, to_bool(v).as_cell()),
        CellRef::Long(_) => is_alike(alloc, fold, x, to_long(v).as_cell()),
        CellRef::Text(_) => is_text_match(alloc, fold, x, v),
        CellRef::Moment(_) => is_alike(alloc, fold, x, to_moment(v).as_cell()),
        CellRef::Span(_) => is_alike(alloc, fold, x, to_span(v).as_cell()),
        _ => is_alike(alloc, fold, x, v),
    }
}

// Whether the text of a value is alike. One that is there is not copied.
#[tactic(auto, unfolding(crate::specs::Readings::text_of, crate::specs::Readings::dynamic_text))]
fn is_text_match(
    alloc: Global,
    fold: Fold,
    x: CellRef<'_>,
    v: CellRef<'_>,
) -> Result<bool, AllocError>
    requires { IsWellFormed (seen v) }
    ensures { IfOk result (λ b. b ≡ is_true (alike fold (seen x.entry) (value.Text (text_of (seen v.entry))))) }
{
    if let CellRef::Text(t) = v {
        return is_alike(alloc, fold, x, CellRef::Text(t));
    }
    if let CellRef::Dynamic(d) = v {
        if let Some(t) = text_in(d) {
            return is_alike(alloc, fold, x, CellRef::Text(t));
        }
    }
    let text = text_of(alloc, v)?;
    is_alike(alloc, fold, x, CellRef::Text(text.as_str()))
}

#[tactic(auto, unfolding(crate::specs::Comparison::alike))]
fn is_alike(alloc: Global, fold: Fold, a: CellRef<'_>, b: CellRef<'_>) -> Result<bool, AllocError>
    ensures { IfOk result (λ r. r ≡ is_true (alike fold (seen a.entry) (seen b.entry))) }
{
    match fold {
        Fold::Exact => Ok(is_true(equality(a, b))),
        Fold::Caseless => Ok(is_true(text_equality(alloc, a, b)?)),
    }
}

/// The values of a list in one type, made once for many look-ups: those of an operand that is an array are its elements. What has no
/// value in the type is null.
#[tactic(auto, using(crate::proofs::ArgumentFacts::argument_facts), unfolding(crate::specs::Comparison::values_in))]
pub fn values_in(
    alloc: Global,
    kind: Kind,
    operands: &[CellRef<'_>],
) -> Result<Vec<Value>, AllocError>
    requires { AreWellFormed (map seen operands.now) }
    ensures values { IfOk result (λ vs. vs.items ≡ values_in kind (map seen operands.now)) }
{
    let mut values = Vec::new(alloc);
    let mut left = operands;
    'operands: while let [operand, more @ ..] = left {
        push_members(alloc, &mut values, kind, *operand)?;
        left = more;
    }
    Ok(values)
}

#[tactic(auto, unfolding(crate::specs::Comparison::members))]
fn push_members(
    alloc: Global,
    values: &mut Vec<Value>,
    kind: Kind,
    operand: CellRef<'_>,
) -> Result<(), AllocError>
    requires { IsWellFormed (seen operand) }
    ensures { OnOk result (values.new.items ≡ values.old.items ++ map (in_kind kind) (members (seen operand.entry))) }
{
    if let CellRef::Dynamic(d) = operand {
        if let Some(parts) = elements_in(d) {
            return push_elements(alloc, values, kind, parts);
        }
    }
    values.push(in_kind(alloc, kind, operand)?)?;
    Ok(())
}

fn push_elements(
    alloc: Global,
    values: &mut Vec<Value>,
    kind: Kind,
    parts: &[Dyn],
) -> Result<(), AllocError>
    requires { IsTrue (list_all is_well_formed_dynamic parts.now) }
    ensures { OnOk result (values.new.items ≡ values.old.items ++ map (in_kind kind) (map value_of parts.now)) }
{
    let mut left = parts;
    'elements: while let [part, more @ ..] = left {
        values.push(in_kind(alloc, kind, cell_of(part))?)?;
        left = more;
    }
    Ok(())
}

// A value in a type.
#[tactic(auto, unfolding(crate::specs::Comparison::in_kind))]
fn in_kind(alloc: Global, kind: Kind, v: CellRef<'_>) -> Result<Value, AllocError>
    requires { IsWellFormed (seen v) }
    ensures { IfOk result (λ w. w ≡ in_kind kind (seen v.entry)) }
{
    match kind {
        Kind::Bool => Ok(to_bool(v)),
        Kind::Long => Ok(to_long(v)),
        Kind::Text => Ok(Value::Text(text_of(alloc, v)?)),
        Kind::Moment => Ok(to_moment(v)),
        Kind::Span => Ok(to_span(v)),
        Kind::Dynamic => v.to_value(alloc),
    }
}
