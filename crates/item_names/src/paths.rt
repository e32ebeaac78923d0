//! The names of paths into dynamic values: `d.a[0]` is named `d_a_0`.
ghost use Rattle.std.specs.Prelude.{◌≡◌, IfOk, is_none, is_some};
ghost use Rattle.std.specs.List.{list_all};
ghost use Rattle.std.specs.Option.{option_copied};
ghost use Rattle.kql_meaning.specs.FittingExpressions.{column_of, literal_of};
ghost use Rattle.item_names.specs.ItemNames.{first_path, index_name, index_of, name_behind, path_name, path_of};

use kql_bound::{BExpr, Lit};
use kql_cells::{KText, Value};
use std::alloc::{AllocError, Global};

// The column that an expression is.
#[tactic(auto, using(kql_meaning::proofs::ExpressionFitLaws::column_steps))]
pub(crate) fn column_of(e: &BExpr) -> Option<&str>
    ensures column { option_copied result ≡ column_of e.now }
{
    match e {
        BExpr::Literal(_) => None,
        BExpr::Column(name) => Some(name.as_str()),
        BExpr::Step(_) => None,
        BExpr::Call(_, _) => None,
        BExpr::Chain(_, _) => None,
        BExpr::Path(_, _) => None,
        BExpr::Window(_, _) => None,
        BExpr::Aggregate(_, _) => None,
    }
}

// The literal that an expression is.
#[tactic(auto, using(kql_meaning::proofs::ExpressionFitLaws::literal_steps))]
fn literal_of(e: &BExpr) -> Option<&Lit>
    ensures literal { option_copied result ≡ literal_of e.now }
{
    match e {
        BExpr::Literal(lit) => Some(lit),
        BExpr::Column(_) => None,
        BExpr::Step(_) => None,
        BExpr::Call(_, _) => None,
        BExpr::Chain(_, _) => None,
        BExpr::Path(_, _) => None,
        BExpr::Window(_, _) => None,
        BExpr::Aggregate(_, _) => None,
    }
}

// What a step of a path adds to its name.
#[tactic(auto, unfolding(crate::specs::ItemNames::index_of))]
fn index_of(alloc: Global, value: &Value) -> Result<Option<KText>, AllocError>
    ensures index { IfOk result (λ o. o ≡ index_of value.now) }
{
    match value {
        Value::Text(key) => {
            let key = key.as_str();
            let index = format!(in alloc; "_{key}")?;
            Ok(Some(KText::from_string(index)))
        }
        Value::Long(n) if *n >= 0 => {
            let place = *n as u64;
            let index = format!(in alloc; "_{place}")?;
            Ok(Some(KText::from_string(index)))
        }
        _ => Ok(None),
    }
}

#[tactic(auto, unfolding(crate::specs::ItemNames::index_name))]
fn index_name(alloc: Global, e: &BExpr) -> Result<Option<KText>, AllocError>
    ensures index { IfOk result (λ o. o ≡ index_name e.now) }
{
    match literal_of(e) {
        Some(lit) => index_of(alloc, &lit.value),
        None => Ok(None),
    }
}

// The name of a path.
#[tactic(auto, unfolding(crate::specs::ItemNames::path_name))]
pub(crate) fn path_name(
    alloc: Global,
    whole: &BExpr,
    steps: &[BExpr],
) -> Result<Option<KText>, AllocError>
    ensures name { IfOk result (λ o. o ≡ path_name whole.now steps.now) }
{
    match column_of(whole) {
        Some(column) => name_behind(alloc, KText::from_str(alloc, column)?, steps),
        None => Ok(None),
    }
}

// A name, and behind it what each of these steps adds.
#[tactic(auto, unfolding(crate::specs::ItemNames::name_behind))]
fn name_behind(alloc: Global, name: KText, steps: &[BExpr]) -> Result<Option<KText>, AllocError>
    ensures name { IfOk result (λ o. o ≡ name_behind name steps.now) }
{
    let mut name = name;
    let mut left = steps;
    'steps: while let Some((step, more)) = left.split_first() {
        match index_name(alloc, step)? {
            Some(index) => name.push_str(index.as_str())?,
            None => return Ok(None),
        }
        left = more;
    }
    Ok(Some(name))
}

// The name of the path that an expression is.
#[tactic(auto, using(crate::proofs::NameSteps::path_steps))]
fn path_of(alloc: Global, e: &BExpr) -> Result<Option<KText>, AllocError>
    ensures name { IfOk result (λ o. o ≡ path_of e.now) }
{
    match e {
        BExpr::Literal(_) => Ok(None),
        BExpr::Column(_) => Ok(None),
        BExpr::Step(_) => Ok(None),
        BExpr::Call(_, _) => Ok(None),
        BExpr::Chain(_, _) => Ok(None),
        BExpr::Path(whole, steps) => path_name(alloc, whole.get(), steps.as_slice()),
        BExpr::Window(_, _) => Ok(None),
        BExpr::Aggregate(_, _) => Ok(None),
    }
}

#[tactic(auto, unfolding(crate::specs::ItemNames::first_path))]
pub(crate) fn first_path(alloc: Global, args: &[BExpr]) -> Result<Option<KText>, AllocError>
    ensures name { IfOk result (λ o. o ≡ first_path args.now) }
{
    match args {
        [] => Ok(None),
        [first, ..] => path_of(alloc, first),
    }
}

// Whether a step of a path is a key, or a place from the start.
#[tactic(auto, unfolding(crate::specs::ItemNames::index_name, crate::specs::ItemNames::index_of))]
fn is_index(e: &BExpr) -> bool
    ensures some { result ≡ is_some (index_name e.now) }
{
    match literal_of(e) {
        Some(lit) => match &lit.value {
            Value::Text(_) => true,
            Value::Long(n) => *n >= 0,
            _ => false,
        },
        None => false,
    }
}

fn are_indices(steps: &[BExpr]) -> bool
    ensures all { result ≡ list_all (λ e. is_some (index_name e)) steps.now }
{
    steps.iter().all(|step| is_index(step))
}

// Whether a path has no name.
#[tactic(auto, using(crate::proofs::NameSteps::path_is_named))]
pub(crate) fn is_nameless_path(whole: &BExpr, steps: &[BExpr]) -> bool
    ensures none { result ≡ is_none (path_name whole.now steps.now) }
{
    column_of(whole).is_none() || !are_indices(steps)
}

// Whether the first of these expressions is no path with a name.
#[tactic(auto, using(crate::proofs::NameSteps::path_steps))]
fn is_no_path(e: &BExpr) -> bool
    ensures none { result ≡ is_none (path_of e.now) }
{
    match e {
        BExpr::Literal(_) => true,
        BExpr::Column(_) => true,
        BExpr::Step(_) => true,
        BExpr::Call(_, _) => true,
        BExpr::Chain(_, _) => true,
        BExpr::Path(whole, steps) => is_nameless_path(whole.get(), steps.as_slice()),
        BExpr::Window(_, _) => true,
        BExpr::Aggregate(_, _) => true,
    }
}

#[tactic(auto, unfolding(crate::specs::ItemNames::first_path))]
pub(crate) fn has_no_path(args: &[BExpr]) -> bool
    ensures none { result ≡ is_none (first_path args.now) }
{
    match args {
        [] => true,
        [first, ..] => is_no_path(first),
    }
}
