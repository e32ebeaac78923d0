//! Values as the elements of an array.
ghost use Rattle.std.specs.Prelude.{◌≡◌, IfOk, map};
ghost use Rattle.kql_cells.specs.Seen.{seen};
ghost use Rattle.kql_cells.specs.Values.{IsWellFormed};
ghost use Rattle.kql_dynamic.specs.Arrays.{pack_array};
ghost use Rattle.kql_scalar_fns.specs.Dynamic.{element};
ghost use Rattle.kql_meaning.specs.Aggregates.{listed};

use crate::held::Held;
use kql_cells::{CellRef, Dyn, DynList, KText, LEVELS_TOP, Value, clone_dyn, has_levels_within};
use kql_items::Items;
use kql_ticks::{print_moment, print_span};
use std::alloc::{AllocError, Global};

/// An array of these, in order; null where it would have more than 127 levels.
#[tactic(auto, unfolding(kql_meaning::specs::Aggregates::listed))]
pub(crate) fn listed(alloc: Global, values: &[Held<'_>]) -> Result<Value, AllocError>
    ensures value { IfOk result (λ v. v ≡ listed values.now) }
{
    let parts = elements(alloc, values)?;
    Ok(packed(parts))
}

fn elements(alloc: Global, values: &[Held<'_>]) -> Result<DynList, AllocError>
    ensures parts { IfOk result (λ ds. ds ≡ map element values.now) }
{
    let mut parts = Items::with_capacity(alloc, values.len())?;
    for value in values {
        parts.push(element(alloc, value.cell())?)?;
    }
    Ok(parts)
}

// A datetime or timespan is its printed text.
#[tactic(auto, unfolding(kql_scalar_fns::specs::Dynamic::element))]
fn element(alloc: Global, cell: CellRef<'_>) -> Result<Dyn, AllocError>
    requires { IsWellFormed (seen cell) }
    ensures value { IfOk result (λ d. d ≡ element (seen cell.entry)) }
{
    match cell {
        CellRef::Null => Ok(Dyn::Null),
        CellRef::Bool(b) => Ok(Dyn::Bool(b)),
        CellRef::Long(n) => Ok(Dyn::Long(n)),
        CellRef::Text(t) => Ok(Dyn::Text(KText::from_str(alloc, t)?)),
        CellRef::Moment(n) => Ok(Dyn::Text(print_moment(alloc, n)?)),
        CellRef::Span(n) => Ok(Dyn::Text(print_span(alloc, n)?)),
        CellRef::Dynamic(d) => clone_dyn(alloc, d),
    }
}

fn packed(parts: DynList) -> Value
    ensures value { result ≡ pack_array parts }
{
    let packed = Dyn::Array(parts);
    if has_levels_within(&packed, LEVELS_TOP) {
        Value::Dynamic(packed)
    } else {
        drop(packed);
        Value::Null
    }
}
