//! Functions applied to lent values, and what is read of such a value.
ghost use Rattle.std.specs.Prelude.{◌≡◌, ◌∷◌, [], IfOk, map};
ghost use Rattle.kql_cells.specs.Seen.{seen};
ghost use Rattle.kql_cells.specs.Values.{IsWellFormed};
ghost use Rattle.kql_cells.specs.declared.value.Value.TheVariants as value;
ghost use Rattle.kql_scalar_fns.specs.Applied.{applied};
ghost use Rattle.kql_scalar_fns.specs.Arguments.{AreWellFormed};
ghost use Rattle.kql_scalar_fns.specs.Choice.{is_empty};
ghost use Rattle.kql_scalar_fns.specs.Logic.{truth};
ghost use Rattle.kql_meaning.specs.Values.{number_of};
ghost use Rattle.kql_meaning.specs.Windows.{count_in};
ghost use Rattle.kql_scalar.specs.Shown.{shown};

use crate::lent::Lent;
use crate::pairs::apply_pair;
use crate::truths::truth;
use kql_cells::{CellRef, Value};
use kql_functions::Func;
use kql_scalar_fns::apply_cells;
use std::alloc::{AllocError, Global};

/// What a function gives for one value.
pub(crate) fn apply_one(alloc: Global, f: Func, a: Lent<'_>) -> Result<Value, AllocError>
    requires { IsWellFormed (shown a) }
    ensures value { IfOk result (λ v. v ≡ applied f (shown a.entry ∷ [])) }
    ensures form { IfOk result IsWellFormed }
{
    let result = apply_cell(alloc, f, a.as_cell());
    drop(a);
    result
}

/// What a function gives for two values.
pub(crate) fn apply_two(
    alloc: Global,
    f: Func,
    a: Lent<'_>,
    b: Lent<'_>,
) -> Result<Value, AllocError>
    requires first { IsWellFormed (shown a) }
    requires second { IsWellFormed (shown b) }
    ensures value { IfOk result (λ v. v ≡ applied f (shown a.entry ∷ shown b.entry ∷ [])) }
    ensures form { IfOk result IsWellFormed }
{
    let result = apply_pair(alloc, f, a.as_cell(), b.as_cell());
    drop(a);
    drop(b);
    result
}

// What a function gives for one cell.
#[tactic(auto, using(crate::proofs::FormFacts::form_facts))]
fn apply_cell<'a>(alloc: Global, f: Func, a: CellRef<'a>) -> Result<Value, AllocError>
    requires { IsWellFormed (seen a) }
    ensures value { IfOk result (λ v. v ≡ applied f (seen a.entry ∷ [])) }
    ensures form { IfOk result IsWellFormed }
{
    apply_cells(alloc, f, &[a])
}

/// What a function gives for these values.
pub(crate) fn apply_all(alloc: Global, f: Func, values: Vec<Lent<'_>>) -> Result<Value, AllocError>
    requires { AreWellFormed (map shown values.items) }
    ensures value { IfOk result (λ v. v ≡ applied f (map shown values.entry.items)) }
    ensures form { IfOk result IsWellFormed }
{
    let cells = cells_of(alloc, values.as_slice())?;
    apply_cells(alloc, f, cells.as_slice())
}

// The values as cells.
fn cells_of<'a>(alloc: Global, values: &'a [Lent<'_>]) -> Result<Vec<CellRef<'a>>, AllocError>
    ensures { IfOk result (λ v. map seen v.items ≡ map shown values.now) }
{
    let mut cells = Vec::with_capacity(alloc, values.len())?;
    'arguments: for value in values {
        cells.push(value.as_cell())?;
    }
    Ok(cells)
}

/// The bool that a value is, if it is one.
pub(crate) fn truth_in(value: Lent<'_>) -> Option<bool>
    ensures { result ≡ truth (shown value.entry) }
{
    let known = truth(value.as_cell());
    drop(value);
    known
}

/// The same of a value that a function made.
pub(crate) fn truth_of_value(value: Value) -> Option<bool>
    ensures { result ≡ truth value }
{
    let known = truth(value.as_cell());
    drop(value);
    known
}

/// The number that a long, a datetime or a timespan is.
pub(crate) fn number_in(value: Lent<'_>) -> Option<i64>
    ensures { result ≡ number_of (shown value.entry) }
{
    let number = number_of(value.as_cell());
    drop(value);
    number
}

#[tactic(auto, unfolding(kql_meaning::specs::Values::number_of))]
fn number_of(cell: CellRef<'_>) -> Option<i64>
    ensures { result ≡ number_of (seen cell.entry) }
{
    match cell {
        CellRef::Long(n) => Some(n),
        CellRef::Moment(n) => Some(n),
        CellRef::Span(n) => Some(n),
        _ => None,
    }
}

/// The number that a long of 0 or more is, and else 0.
pub(crate) fn count_in(value: Lent<'_>) -> usize
    ensures { result ≡ count_in (shown value.entry) }
{
    let count = count_of(value.as_cell());
    drop(value);
    count
}

#[tactic(auto, unfolding(kql_meaning::specs::Windows::count_in))]
fn count_of(cell: CellRef<'_>) -> usize
    ensures { result ≡ count_in (seen cell.entry) }
{
    match cell {
        CellRef::Long(n) => whole(n),
        _ => 0,
    }
}

// A number of 0 or more, and else 0.
#[tactic(auto, using(crate::proofs::WindowSteps::count_steps))]
fn whole(n: i64) -> usize
    ensures { result ≡ count_in (value.Long n) }
{
    if n < 0 { 0 } else { n as usize }
}

/// Whether a value is null or the empty text.
pub(crate) fn is_empty(value: &Lent<'_>) -> bool
    ensures { result ≡ is_empty (shown value.now) }
{
    is_empty_cell(value.as_cell())
}

#[tactic(auto, unfolding(kql_scalar_fns::specs::Choice::is_empty))]
fn is_empty_cell(cell: CellRef<'_>) -> bool
    ensures { result ≡ is_empty (seen cell.entry) }
{
    match cell {
        CellRef::Null => true,
        CellRef::Text(t) => t.is_empty(),
        _ => false,
    }
}
