//! The names of items.
ghost use Rattle.std.specs.Prelude.{◌≡◌, [], ◌∷◌, IfOk, is_none, map};
ghost use Rattle.std.specs.List.{list_any};
ghost use Rattle.std.specs.Option.{option_copied};
ghost use Rattle.item_names.specs.ItemNames.{aggregate_names, call_name, first_column, is_binning, is_conversion, item_names, name_of_gathered, name_over, numbered, or_numbered, own_name, print_name, takes_number};

use crate::paths::{column_of, first_path, has_no_path, is_nameless_path, path_name};
use kql_bound::BExpr;
use kql_cells::{KText, Names};
use kql_functions::{Aggregate, ArithmeticFunc, Func};
use kql_items::Items;
use std::alloc::{AllocError, Global};

#[tactic(auto, unfolding(crate::specs::ItemNames::is_binning))]
fn is_binning(f: Func) -> bool
    ensures bins { result ≡ is_binning f }
{
    match f {
        Func::Arithmetic(ArithmeticFunc::Bin) => true,
        Func::Arithmetic(ArithmeticFunc::Floor) => true,
        Func::Arithmetic(ArithmeticFunc::BinAt) => true,
        _ => false,
    }
}

// The column that the first of these expressions is.
#[tactic(auto, unfolding(crate::specs::ItemNames::first_column))]
fn first_column(args: &[BExpr]) -> Option<&str>
    ensures column { option_copied result ≡ first_column args.now }
{
    match args {
        [] => None,
        [first, ..] => column_of(first),
    }
}

#[tactic(auto, unfolding(crate::specs::ItemNames::is_conversion))]
fn is_conversion(f: Func) -> bool
    ensures conversion { result ≡ is_conversion f }
{
    matches!(f, Func::Conversion(_))
}

// The name of the column that the first of these expressions is.
fn first_column_name(alloc: Global, args: &[BExpr]) -> Result<Option<KText>, AllocError>
    ensures name { IfOk result (λ o. o ≡ first_column args.now) }
{
    match first_column(args) {
        Some(name) => Ok(Some(KText::from_str(alloc, name)?)),
        None => Ok(None),
    }
}

// The name of a call.
#[tactic(auto, unfolding(crate::specs::ItemNames::call_name))]
fn call_name(alloc: Global, f: Func, args: &[BExpr]) -> Result<Option<KText>, AllocError>
    ensures name { IfOk result (λ o. o ≡ call_name f args.now) }
{
    if is_binning(f) {
        first_column_name(alloc, args)
    } else if is_conversion(f) {
        first_path(alloc, args)
    } else {
        Ok(None)
    }
}

// The name that an expression of one row has by itself.
#[tactic(auto, using(crate::proofs::NameSteps::own_steps))]
fn own_name(alloc: Global, e: &BExpr) -> Result<Option<KText>, AllocError>
    ensures name { IfOk result (λ o. o ≡ own_name e.now) }
{
    match e {
        BExpr::Literal(_) => Ok(None),
        BExpr::Column(name) => Ok(Some(name.copy(alloc)?)),
        BExpr::Step(_) => Ok(None),
        BExpr::Call(f, args) => call_name(alloc, *f, args.as_slice()),
        BExpr::Chain(_, _) => Ok(None),
        BExpr::Path(whole, steps) => path_name(alloc, whole.get(), steps.as_slice()),
        BExpr::Window(_, _) => Ok(None),
        BExpr::Aggregate(_, _) => Ok(None),
    }
}

// The name of a column that has none by itself.
#[tactic(auto, unfolding(crate::specs::ItemNames::numbered))]
fn numbered(alloc: Global, number: u64) -> Result<KText, AllocError>
    ensures name { IfOk result (λ n. n ≡ numbered number) }
{
    let text = format!(in alloc; "Column{number}")?;
    Ok(KText::from_string(text))
}

#[tactic(auto, unfolding(crate::specs::ItemNames::or_numbered))]
fn name_of(alloc: Global, e: &BExpr, number: u64) -> Result<KText, AllocError>
    ensures name { IfOk result (λ n. n ≡ or_numbered number (own_name e.now)) }
{
    match own_name(alloc, e)? {
        Some(name) => Ok(name),
        None => numbered(alloc, number),
    }
}

fn one(alloc: Global, name: KText) -> Result<Names, AllocError>
    ensures one { IfOk result (λ ns. ns ≡ name ∷ []) }
{
    let mut names = Items::with_capacity(alloc, 1)?;
    names.push(name)?;
    Ok(names)
}

// The aggregate's name, and behind it the column that it goes over.
#[tactic(auto, unfolding(crate::specs::ItemNames::name_over))]
fn name_over(alloc: Global, f: Aggregate, args: &[BExpr]) -> Result<KText, AllocError>
    ensures name { IfOk result (λ n. n ≡ name_over f args.now) }
{
    let column = first_column(args).unwrap_or("");
    let word = f.name();
    let text = format!(in alloc; "{word}_{column}")?;
    Ok(KText::from_string(text))
}

// A word, and behind it the column whose values are gathered.
#[tactic(auto, unfolding(crate::specs::ItemNames::name_of_gathered, crate::specs::ItemNames::or_numbered))]
fn name_of_gathered(
    alloc: Global,
    word: &str,
    args: &[BExpr],
    number: u64,
) -> Result<KText, AllocError>
    ensures name { IfOk result (λ n. n ≡ or_numbered number (name_of_gathered word.now args.now)) }
{
    match first_column(args) {
        Some(column) => {
            let mut name = KText::from_str(alloc, word)?;
            name.push_str(column)?;
            Ok(name)
        }
        None => numbered(alloc, number),
    }
}

// The names of these expressions, which an aggregate with several result columns takes.
fn names_of(alloc: Global, args: &[BExpr], number: u64) -> Result<Names, AllocError>
    ensures names { IfOk result (λ ns. ns ≡ map (or_numbered number) (map own_name args.now)) }
{
    let mut names = Items::with_capacity(alloc, args.len())?;
    for arg in args {
        let name = name_of(alloc, arg, number)?;
        names.push(name)?;
    }
    Ok(names)
}

#[tactic(auto, unfolding(crate::specs::ItemNames::aggregate_names, crate::specs::ItemNames::or_numbered))]
fn aggregate_names(
    alloc: Global,
    f: Aggregate,
    args: &[BExpr],
    number: u64,
) -> Result<Names, AllocError>
    ensures names { IfOk result (λ ns. ns ≡ map (or_numbered number) (aggregate_names f args.now)) }
{
    match f {
        Aggregate::Count => one(alloc, KText::from_str(alloc, "count_")?),
        Aggregate::CountIf => one(alloc, KText::from_str(alloc, "countif_")?),
        Aggregate::MakeList => one(alloc, name_of_gathered(alloc, "list_", args, number)?),
        Aggregate::MakeListIf => one(alloc, name_of_gathered(alloc, "list_", args, number)?),
        Aggregate::MakeSet => one(alloc, name_of_gathered(alloc, "set_", args, number)?),
        Aggregate::MakeSetIf => one(alloc, name_of_gathered(alloc, "set_", args, number)?),
        Aggregate::ArgMax => names_of(alloc, args, number),
        Aggregate::ArgMin => names_of(alloc, args, number),
        Aggregate::TakeAny => names_of(alloc, args, number),
        _ => one(alloc, name_over(alloc, f, args)?),
    }
}

/// The names of an item's columns, one for each result column of its expression.
///
/// `number` is one more than how many items before it in the operator took a number; `takes_number` says whether this one does.
#[tactic(auto, using(crate::proofs::NameSteps::item_steps))]
pub fn item_names(alloc: Global, e: &BExpr, number: u64) -> Result<Names, AllocError>
    ensures names { IfOk result (λ ns. ns ≡ item_names e.now number) }
{
    match e {
        BExpr::Literal(_) => one(alloc, name_of(alloc, e, number)?),
        BExpr::Column(_) => one(alloc, name_of(alloc, e, number)?),
        BExpr::Step(_) => one(alloc, name_of(alloc, e, number)?),
        BExpr::Call(_, _) => one(alloc, name_of(alloc, e, number)?),
        BExpr::Chain(_, _) => one(alloc, name_of(alloc, e, number)?),
        BExpr::Path(_, _) => one(alloc, name_of(alloc, e, number)?),
        BExpr::Window(_, _) => one(alloc, name_of(alloc, e, number)?),
        BExpr::Aggregate(f, args) => aggregate_names(alloc, *f, args.as_slice(), number),
    }
}

// Whether a call has no name.
#[tactic(auto, unfolding(crate::specs::ItemNames::call_name))]
fn is_nameless_call(f: Func, args: &[BExpr]) -> bool
    ensures none { result ≡ is_none (call_name f args.now) }
{
    if is_binning(f) {
        first_column(args).is_none()
    } else if is_conversion(f) {
        has_no_path(args)
    } else {
        true
    }
}

// Whether an expression has no name by itself.
#[tactic(auto, using(crate::proofs::NameSteps::own_steps))]
fn is_nameless(e: &BExpr) -> bool
    ensures none { result ≡ is_none (own_name e.now) }
{
    match e {
        BExpr::Literal(_) => true,
        BExpr::Column(_) => false,
        BExpr::Step(_) => true,
        BExpr::Call(f, args) => is_nameless_call(*f, args.as_slice()),
        BExpr::Chain(_, _) => true,
        BExpr::Path(whole, steps) => is_nameless_path(whole.get(), steps.as_slice()),
        BExpr::Window(_, _) => true,
        BExpr::Aggregate(_, _) => true,
    }
}

// Whether one of these expressions has no name by itself.
fn has_nameless(args: &[BExpr]) -> bool
    ensures some { result ≡ list_any is_none (map own_name args.now) }
{
    let mut left = args;
    'list: while let Some((arg, more)) = left.split_first() {
        if is_nameless(arg) {
            return true;
        }
        left = more;
    }
    false
}

#[tactic(auto, unfolding(crate::specs::ItemNames::aggregate_names, crate::specs::ItemNames::name_of_gathered))]
fn aggregate_takes_number(f: Aggregate, args: &[BExpr]) -> bool
    ensures number { result ≡ list_any is_none (aggregate_names f args.now) }
{
    match f {
        Aggregate::MakeList => first_column(args).is_none(),
        Aggregate::MakeListIf => first_column(args).is_none(),
        Aggregate::MakeSet => first_column(args).is_none(),
        Aggregate::MakeSetIf => first_column(args).is_none(),
        Aggregate::ArgMax => has_nameless(args),
        Aggregate::ArgMin => has_nameless(args),
        Aggregate::TakeAny => has_nameless(args),
        _ => false,
    }
}

/// Whether an item that is given no name takes a number, as `Column1`.
#[tactic(auto, using(crate::proofs::NameSteps::number_steps))]
pub fn takes_number(e: &BExpr) -> bool
    ensures number { result ≡ takes_number e.now }
{
    match e {
        BExpr::Literal(_) => is_nameless(e),
        BExpr::Column(_) => is_nameless(e),
        BExpr::Step(_) => is_nameless(e),
        BExpr::Call(_, _) => is_nameless(e),
        BExpr::Chain(_, _) => is_nameless(e),
        BExpr::Path(_, _) => is_nameless(e),
        BExpr::Window(_, _) => is_nameless(e),
        BExpr::Aggregate(f, args) => aggregate_takes_number(*f, args.as_slice()),
    }
}

/// The name of the item of `print` at a place, from 0, where it is given none.
#[tactic(auto, unfolding(crate::specs::ItemNames::print_name))]
pub fn print_name(alloc: Global, place: u64) -> Result<KText, AllocError>
    ensures name { IfOk result (λ n. n ≡ print_name place) }
{
    let text = format!(in alloc; "print_{place}")?;
    Ok(KText::from_string(text))
}
