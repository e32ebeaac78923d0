//! Calls of literals.
ghost use Rattle.std.specs.Prelude.{◌≡◌, ◌∷◌, [], IfOk, IfSome, map, option_and_then, true};
ghost use Rattle.std.specs.Option.{option_copied};
ghost use Rattle.kql_cells.specs.Seen.{seen};
ghost use Rattle.kql_cells.specs.Values.{IsWellFormed};
ghost use Rattle.kql_scalar_fns.specs.Applied.{applied};
ghost use Rattle.kql_scalar_fns.specs.Arguments.{AreWellFormed};
ghost use Rattle.kql_meaning.specs.FittingExpressions.{literal_of};
ghost use Rattle.kql_meaning.specs.Literals.{is_well_formed};
ghost use Rattle.plan_rules.specs.Folding.{folded_call, literal_called, literal_joined, sound_literal, sound_literals};
ghost use Rattle.plan_constants.specs.Literals.{kind_in, value_in};

use kql_bound::{BExpr, Exprs, Lit, clone_lit};
use kql_cells::{CellRef, Kind, Value};
use kql_functions::{Func, result_kind};
use kql_items::Items;
use kql_scalar_fns::apply_cells;
use std::alloc::{AllocError, Global};

// The literal that an expression is.
#[tactic(auto, using(kql_meaning::proofs::ExpressionFitLaws::literal_steps))]
fn literal_of(e: &BExpr) -> Option<&Lit>
    ensures literal { option_copied result ≡ literal_of e.now }
{
    match e {
        BExpr::Literal(lit) => Some(lit),
        BExpr::Column(_) => None,
        BExpr::Step(_) => None,
        BExpr::Call(_, _) => None,
        BExpr::Chain(_, _) => None,
        BExpr::Path(_, _) => None,
        BExpr::Window(_, _) => None,
        BExpr::Aggregate(_, _) => None,
    }
}

fn is_well_formed(value: &Value) -> bool
    ensures form { result ≡ is_well_formed value.now }
{
    kql_cells::is_well_formed(value)
}

/// The literal that an expression is, if it is well formed.
#[tactic(auto, unfolding(plan_rules::specs::Folding::sound_literal))]
pub(crate) fn sound_literal(e: &BExpr) -> Option<&Lit>
    ensures literal { option_copied result ≡ sound_literal e.now }
    ensures form { IfSome result (λ l. is_well_formed l.now.value ≡ true) }
{
    match literal_of(e) {
        None => None,
        Some(lit) => {
            if is_well_formed(&lit.value) {
                Some(lit)
            } else {
                None
            }
        }
    }
}

// Those of several, where each is one.
#[tactic(auto, unfolding(plan_rules::specs::Folding::sound_literals))]
fn sound_literals(alloc: Global, es: &[BExpr]) -> Result<Option<Items<Lit>>, AllocError>
    ensures literals { IfOk result (λ o. o ≡ sound_literals es.now) }
{
    let mut literals = Items::new(alloc);
    let mut left = es;
    'parts: while let Some((e, more)) = left.split_first() {
        let Some(lit) = sound_literal(e) else {
            return Ok(None);
        };
        let copy = clone_lit(alloc, lit)?;
        literals.push(copy)?;
        left = more;
    }
    Ok(Some(literals))
}

fn kinds_of(alloc: Global, literals: &[Lit]) -> Result<Vec<Kind>, AllocError>
    ensures kinds { IfOk result (λ ks. ks.items ≡ map kind_in literals.now) }
{
    let mut kinds = Vec::with_capacity(alloc, literals.len())?;
    for lit in literals {
        kinds.push(lit.kind)?;
    }
    Ok(kinds)
}

fn cells_of<'a>(alloc: Global, literals: &'a [Lit]) -> Result<Vec<CellRef<'a>>, AllocError>
    ensures cells { IfOk result (λ cs. map seen cs.items ≡ map value_in literals.now) }
{
    let mut cells = Vec::with_capacity(alloc, literals.len())?;
    for lit in literals {
        cells.push(lit.value.as_cell())?;
    }
    Ok(cells)
}

// The literal of a call of literals, where its function takes their types.
#[tactic(auto, unfolding(plan_rules::specs::Folding::literal_called))]
fn literal_called(alloc: Global, f: Func, literals: &[Lit]) -> Result<Option<Lit>, AllocError>
    requires sound { AreWellFormed (map value_in literals.now) }
    ensures literal { IfOk result (λ o. o ≡ literal_called f literals.now) }
{
    let kinds = kinds_of(alloc, literals)?;
    let Some(kind) = result_kind(f, kinds.as_slice()) else {
        return Ok(None);
    };
    let cells = cells_of(alloc, literals)?;
    let value = apply_cells(alloc, f, cells.as_slice())?;
    Ok(Some(Lit { kind, value }))
}

// The literal of a call whose arguments are literals.
#[tactic(auto, using(crate::proofs::CallSteps::call_steps))]
fn literal_of_call(alloc: Global, f: Func, args: &[BExpr]) -> Result<Option<Lit>, AllocError>
    ensures literal { IfOk result (λ o. o ≡ option_and_then (literal_called f) (sound_literals args.now)) }
{
    let Some(literals) = sound_literals(alloc, args)? else {
        return Ok(None);
    };
    let made = literal_called(alloc, f, literals.as_slice())?;
    Ok(made)
}

/// A call of parts that are folded: the literal of its value, where they are literals.
#[tactic(auto, unfolding(plan_rules::specs::Folding::folded_call))]
pub(crate) fn folded_call(alloc: Global, f: Func, args: Exprs) -> Result<BExpr, AllocError>
    ensures call { IfOk result (λ e. e ≡ folded_call f args) }
{
    match literal_of_call(alloc, f, args.as_slice())? {
        None => Ok(BExpr::Call(f, args)),
        Some(lit) => Ok(BExpr::Literal(lit)),
    }
}

// What a function gives for two cells.
#[tactic(auto, using(crate::proofs::CallSteps::pair_steps))]
fn apply_two<'a>(
    alloc: Global,
    f: Func,
    a: CellRef<'a>,
    b: CellRef<'a>,
) -> Result<Value, AllocError>
    requires first { IsWellFormed (seen a) }
    requires second { IsWellFormed (seen b) }
    ensures value { IfOk result (λ v. v ≡ applied f (seen a.entry ∷ seen b.entry ∷ [])) }
{
    let value = apply_cells(alloc, f, &[a, b])?;
    Ok(value)
}

// The literal of a call of two literals.
#[tactic(auto, using(crate::proofs::CallSteps::cell_steps), unfolding(plan_rules::specs::Folding::literal_called))]
fn literal_of_two(alloc: Global, f: Func, a: &Lit, b: &Lit) -> Result<Option<Lit>, AllocError>
    requires first { is_well_formed a.now.value ≡ true }
    requires second { is_well_formed b.now.value ≡ true }
    ensures literal { IfOk result (λ o. o ≡ literal_called f (a.now ∷ b.now ∷ [])) }
{
    let Some(kind) = result_kind(f, &[a.kind, b.kind]) else {
        return Ok(None);
    };
    let value = apply_two(alloc, f, a.value.as_cell(), b.value.as_cell())?;
    Ok(Some(Lit { kind, value }))
}

/// The literal of a literal and what stands behind it in a chain or a path.
#[tactic(auto, unfolding(plan_rules::specs::Folding::literal_joined))]
pub(crate) fn literal_joined(
    alloc: Global,
    f: Func,
    a: &Lit,
    e: &BExpr,
) -> Result<Option<Lit>, AllocError>
    requires sound { is_well_formed a.now.value ≡ true }
    ensures literal { IfOk result (λ o. o ≡ literal_joined f a.now e.now) }
{
    let Some(b) = sound_literal(e) else {
        return Ok(None);
    };
    let made = literal_of_two(alloc, f, a, b)?;
    Ok(made)
}
