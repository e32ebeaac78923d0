//! The types of expressions.
ghost use Rattle.std.specs.Prelude.{◌≡◌, ◌∷◌, [], IfOk};
ghost use Rattle.kql_bound.specs.Signs.{sign_func};
ghost use Rattle.kql_meaning.specs.Expressions.{aggregate_kind, all_known, call_kind, column_kind, first_kind, kind_along, kind_down, kind_of, kinds_in, window_kind};

use kql_bound::{BExpr, ChainSign, Link};
use kql_cells::{Column, Kind};
use kql_functions::{Aggregate, ArithmeticFunc, DynamicFunc, Func, Window, result_kind};
use kql_items::Items;
use std::alloc::{AllocError, Global};

/// The type of an expression over these columns, or none where it has none.
#[cycle(kind_of)]
#[tactic(auto, using(crate::proofs::KindLaws::kind_steps))]
pub fn kind_of(alloc: Global, e: &BExpr, columns: &[Column]) -> Result<Option<Kind>, AllocError>
    ensures kind { IfOk result (λ k. k ≡ kind_of e.now columns.now) }
{
    match e {
        BExpr::Literal(lit) => Ok(Some(lit.kind)),
        BExpr::Column(name) => Ok(column_kind(name.as_str(), columns)),
        BExpr::Step(column) => Ok(Some(column.default.kind)),
        BExpr::Call(f, args) => kind_of_call(alloc, *f, args.as_slice(), columns),
        BExpr::Chain(first, links) => {
            let kind = kind_of(alloc, first.get(), columns)?;
            kind_along(alloc, links.as_slice(), columns, kind)
        }
        BExpr::Path(whole, steps) => {
            let kind = kind_of(alloc, whole.get(), columns)?;
            kind_down(alloc, steps.as_slice(), columns, kind)
        }
        BExpr::Window(f, args) => kind_of_window(alloc, *f, args.as_slice(), columns),
        BExpr::Aggregate(f, args) => kind_of_aggregate(alloc, *f, args.as_slice(), columns),
    }
}

/// The type of a call of a function, or none where it does not take arguments of these types.
#[cycle(kind_of)]
#[tactic(auto, unfolding(crate::specs::Expressions::call_kind))]
pub fn kind_of_call(
    alloc: Global,
    f: Func,
    args: &[BExpr],
    columns: &[Column],
) -> Result<Option<Kind>, AllocError>
    ensures kind { IfOk result (λ k. k ≡ call_kind f (kinds_in args.now columns.now)) }
{
    match known_kinds(alloc, args, columns)? {
        None => Ok(None),
        Some(kinds) => Ok(result_kind(f, kinds.as_slice())),
    }
}

// The types of all arguments, where each has one.
#[cycle(kind_of)]
#[tactic(auto, using(crate::proofs::KindLaws::known_steps))]
fn known_kinds(
    alloc: Global,
    args: &[BExpr],
    columns: &[Column],
) -> Result<Option<Items<Kind>>, AllocError>
    ensures kinds { IfOk result (λ o. o ≡ all_known (kinds_in args.now columns.now)) }
{
    let mut kinds = Items::with_capacity(alloc, args.len())?;
    for arg in args {
        let Some(kind) = kind_of(alloc, arg, columns)? else {
            return Ok(None);
        };
        kinds.push(kind)?;
    }
    Ok(Some(kinds))
}

/// The type of a chain whose first part has this type.
#[cycle(kind_of)]
#[tactic(auto, using(crate::proofs::KindLaws::along_steps))]
pub fn kind_along(
    alloc: Global,
    links: &[Link],
    columns: &[Column],
    first: Option<Kind>,
) -> Result<Option<Kind>, AllocError>
    ensures kind { IfOk result (λ k. k ≡ kind_along links.now columns.now first) }
{
    let mut kind = first;
    for link in links {
        let next = kind_of(alloc, &link.1, columns)?;
        kind = kind_of_two(sign_func(link.0), kind, next);
    }
    Ok(kind)
}

/// The type of a path into a value of this type.
#[cycle(kind_of)]
#[tactic(auto, using(crate::proofs::KindLaws::down_steps))]
pub fn kind_down(
    alloc: Global,
    steps: &[BExpr],
    columns: &[Column],
    whole: Option<Kind>,
) -> Result<Option<Kind>, AllocError>
    ensures kind { IfOk result (λ k. k ≡ kind_down steps.now columns.now whole) }
{
    let mut kind = whole;
    for step in steps {
        let next = kind_of(alloc, step, columns)?;
        kind = kind_of_two(Func::Dynamic(DynamicFunc::At), kind, next);
    }
    Ok(kind)
}

#[cycle(kind_of)]
#[tactic(auto, unfolding(crate::specs::Expressions::window_kind))]
fn kind_of_window(
    alloc: Global,
    f: Window,
    args: &[BExpr],
    columns: &[Column],
) -> Result<Option<Kind>, AllocError>
    ensures kind { IfOk result (λ k. k ≡ window_kind f (kinds_in args.now columns.now)) }
{
    match f {
        Window::RowNumber => Ok(Some(Kind::Long)),
        _ => kind_of_first(alloc, args, columns),
    }
}

#[cycle(kind_of)]
#[tactic(auto, unfolding(crate::specs::Expressions::aggregate_kind))]
fn kind_of_aggregate(
    alloc: Global,
    f: Aggregate,
    args: &[BExpr],
    columns: &[Column],
) -> Result<Option<Kind>, AllocError>
    ensures kind { IfOk result (λ k. k ≡ aggregate_kind f (kinds_in args.now columns.now)) }
{
    match f {
        Aggregate::Count => Ok(Some(Kind::Long)),
        Aggregate::CountIf => Ok(Some(Kind::Long)),
        Aggregate::CountDistinct => Ok(Some(Kind::Long)),
        Aggregate::CountDistinctIf => Ok(Some(Kind::Long)),
        Aggregate::MakeList => Ok(Some(Kind::Dynamic)),
        Aggregate::MakeListIf => Ok(Some(Kind::Dynamic)),
        Aggregate::MakeSet => Ok(Some(Kind::Dynamic)),
        Aggregate::MakeSetIf => Ok(Some(Kind::Dynamic)),
        Aggregate::BinaryAllAnd => Ok(Some(Kind::Long)),
        Aggregate::BinaryAllOr => Ok(Some(Kind::Long)),
        Aggregate::BinaryAllXor => Ok(Some(Kind::Long)),
        _ => kind_of_first(alloc, args, columns),
    }
}

#[cycle(kind_of)]
#[tactic(auto, unfolding(crate::specs::Expressions::first_kind, crate::specs::Expressions::kinds_in))]
fn kind_of_first(
    alloc: Global,
    args: &[BExpr],
    columns: &[Column],
) -> Result<Option<Kind>, AllocError>
    ensures kind { IfOk result (λ k. k ≡ first_kind (kinds_in args.now columns.now)) }
{
    match args {
        [] => Ok(None),
        [first, ..] => kind_of(alloc, first, columns),
    }
}

// The type that a function gives for two arguments.
#[tactic(auto, unfolding(crate::specs::Expressions::call_kind, crate::specs::Expressions::all_known))]
fn kind_of_two(f: Func, a: Option<Kind>, b: Option<Kind>) -> Option<Kind>
    ensures kind { result ≡ call_kind f (a ∷ b ∷ []) }
{
    match (a, b) {
        (Some(a), Some(b)) => result_kind(f, &[a, b]),
        (None, _) => None,
        (_, None) => None,
    }
}

#[tactic(auto, unfolding(kql_bound::specs::Signs::sign_func))]
fn sign_func(sign: ChainSign) -> Func
    ensures func { result ≡ sign_func sign }
{
    match sign {
        ChainSign::Add => Func::Arithmetic(ArithmeticFunc::Add),
        ChainSign::Subtract => Func::Arithmetic(ArithmeticFunc::Subtract),
        ChainSign::Multiply => Func::Arithmetic(ArithmeticFunc::Multiply),
        ChainSign::Divide => Func::Arithmetic(ArithmeticFunc::Divide),
        ChainSign::Modulo => Func::Arithmetic(ArithmeticFunc::Modulo),
    }
}

/// The type of the column of a name, or none where there is no such column.
#[tactic(auto, unfolding(crate::specs::Expressions::column_kind))]
pub fn column_kind(name: &str, columns: &[Column]) -> Option<Kind>
    ensures kind { result ≡ column_kind name.now columns.now }
{
    let mut left = columns;
    'columns: while let Some((column, more)) = left.split_first() {
        if column.name.as_str() == name {
            return Some(column.kind);
        }
        left = more;
    }
    None
}
