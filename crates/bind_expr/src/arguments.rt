//! The arguments of a call.
ghost use Rattle.std.specs.Prelude.{◌≡◌, Ok, filter};
ghost use Rattle.bind_expr.specs.Outcome.{Answers};
ghost use Rattle.bind_expr.specs.Arguments.{aggregate_first, aggregate_next, arg_link, first_slot, is_among, is_open, is_other, next_slot, no_args, placed, plain_slot, constant_slot, scalar_first, column_link, columns_to, first_column, plain_arg, starred, taken, takes_part, window_first, window_next, with_arg, with_column, with_columns, aggregate_position};
ghost use Rattle.kql_meaning.specs.FittingExpressions.{is_of_series, takes_aggregate};

use crate::constants::settled;
use crate::fault::BindFault;
use crate::forms::column_of;
use crate::scope::Scope;
use crate::typed::{Typed, with_kind};
use kql_bound::{BExpr, Exprs};
use kql_cells::{Column, KText, Kind};
use kql_functions::{Aggregate, Found, Func, TimeFunc, Window};
use kql_items::Items;
use kql_meaning::Position;
use std::alloc::Global;

/// What a `*` among the arguments stands for.
#[derive(Clone, Copy, Debug, PartialEq, Eq)]
pub(crate) enum Star {
    /// It may not stand there.
    Stray,
    /// All columns that are no keys.
    Columns,
    /// Those of them that are not the first argument.
    Others,
}

/// What an argument may be.
#[derive(Clone, Copy, Debug, PartialEq, Eq)]
pub(crate) struct Slot {
    pub(crate) position: Position,
    /// Whether a constant is wanted, which then stands as its literal.
    pub(crate) is_constant: bool,
    pub(crate) star: Star,
}

/// The arguments of a call, from left to right.
#[derive(Debug, Drop)]
pub(crate) struct Args {
    pub(crate) exprs: Exprs,
    pub(crate) kinds: Items<Kind>,
    /// Whether a `*` stood where it may stand.
    pub(crate) has_star: bool,
    /// Whether one stood where it may not.
    pub(crate) has_stray: bool,
}

fn plain_slot(position: Position) -> Slot
    ensures { result ≡ plain_slot position }
{
    Slot {
        position,
        is_constant: false,
        star: Star::Stray,
    }
}

fn constant_slot(position: Position) -> Slot
    ensures { result ≡ constant_slot position }
{
    Slot {
        position,
        is_constant: true,
        star: Star::Stray,
    }
}

/// Whether a function takes the word of a part.
#[tactic(auto, unfolding(crate::specs::Arguments::takes_part))]
fn takes_part(f: Func) -> bool
    ensures { result ≡ takes_part f }
{
    match f {
        Func::Time(TimeFunc::DatetimeAdd) => true,
        Func::Time(TimeFunc::DatetimeDiff) => true,
        Func::Time(TimeFunc::DatetimePart) => true,
        _ => false,
    }
}

fn scalar_first(f: Func, at: Position) -> Slot
    ensures { result ≡ scalar_first at (takes_part f) }
{
    if takes_part(f) {
        constant_slot(at)
    } else {
        plain_slot(at)
    }
}

#[tactic(auto, unfolding(crate::specs::Arguments::window_first))]
fn window_first(f: Window) -> Slot
    ensures { result ≡ window_first f }
{
    match f {
        Window::Prev => plain_slot(Position::Plain),
        Window::Next => plain_slot(Position::Plain),
        Window::RowCumsum => plain_slot(Position::Term),
        Window::RowNumber => constant_slot(Position::Plain),
    }
}

#[tactic(auto, unfolding(crate::specs::Arguments::window_next))]
fn window_next(f: Window) -> Slot
    ensures { result ≡ window_next f }
{
    match f {
        Window::Prev => constant_slot(Position::Plain),
        Window::Next => constant_slot(Position::Plain),
        Window::RowCumsum => plain_slot(Position::Term),
        Window::RowNumber => plain_slot(Position::Term),
    }
}

#[tactic(auto, unfolding(kql_meaning::specs::FittingExpressions::is_of_series))]
fn is_of_series(f: Aggregate) -> bool
    ensures { result ≡ is_of_series f }
{
    match f {
        Aggregate::Count => true,
        Aggregate::CountIf => true,
        Aggregate::CountDistinct => true,
        Aggregate::CountDistinctIf => true,
        Aggregate::Sum => true,
        Aggregate::SumIf => true,
        Aggregate::Min => true,
        Aggregate::MinIf => true,
        Aggregate::Max => true,
        Aggregate::MaxIf => true,
        _ => false,
    }
}

/// Whether an aggregate may stand in a position.
#[tactic(auto, unfolding(kql_meaning::specs::FittingExpressions::takes_aggregate))]
pub(crate) fn takes_aggregate(at: Position, f: Aggregate) -> bool
    ensures { result ≡ takes_aggregate at f }
{
    match at {
        Position::Group => true,
        Position::Series => is_of_series(f),
        _ => false,
    }
}

#[tactic(auto, unfolding(crate::specs::Arguments::aggregate_position))]
fn aggregate_position(f: Aggregate, at: Position) -> Position
    ensures { result ≡ aggregate_position f at }
{
    if takes_aggregate(at, f) {
        Position::Plain
    } else {
        at
    }
}

#[tactic(auto, unfolding(crate::specs::Arguments::aggregate_first))]
fn aggregate_first(f: Aggregate, position: Position) -> Slot
    ensures { result ≡ aggregate_first f position }
{
    match f {
        Aggregate::TakeAny => Slot {
            position,
            is_constant: false,
            star: Star::Columns,
        },
        _ => plain_slot(position),
    }
}

#[tactic(auto, unfolding(crate::specs::Arguments::aggregate_next))]
fn aggregate_next(f: Aggregate, position: Position) -> Slot
    ensures { result ≡ aggregate_next f position }
{
    match f {
        Aggregate::TakeAny => Slot {
            position,
            is_constant: false,
            star: Star::Columns,
        },
        Aggregate::ArgMax => Slot {
            position,
            is_constant: false,
            star: Star::Others,
        },
        Aggregate::ArgMin => Slot {
            position,
            is_constant: false,
            star: Star::Others,
        },
        Aggregate::MakeList => constant_slot(position),
        Aggregate::MakeSet => constant_slot(position),
        _ => plain_slot(position),
    }
}

/// The slot of the first argument of a call.
#[tactic(auto, unfolding(crate::specs::Arguments::first_slot))]
pub(crate) fn first_slot(found: Found, at: Position) -> Slot
    ensures { result ≡ first_slot found at }
{
    match found {
        Found::Scalar(f) => scalar_first(f, at),
        Found::Window(f) => window_first(f),
        Found::Aggregate(f) => aggregate_first(f, aggregate_position(f, at)),
        Found::Pattern => plain_slot(at),
        Found::Refused => plain_slot(at),
        Found::Unknown => plain_slot(at),
    }
}

/// The slot of each further argument of a call.
#[tactic(auto, unfolding(crate::specs::Arguments::next_slot))]
pub(crate) fn next_slot(found: Found, at: Position) -> Slot
    ensures { result ≡ next_slot found at }
{
    match found {
        Found::Scalar(_) => plain_slot(at),
        Found::Window(f) => window_next(f),
        Found::Aggregate(f) => aggregate_next(f, aggregate_position(f, at)),
        Found::Pattern => plain_slot(at),
        Found::Refused => plain_slot(at),
        Found::Unknown => plain_slot(at),
    }
}

/// Whether a name is one of these.
#[tactic(auto, unfolding(crate::specs::Arguments::is_among))]
pub(crate) fn is_among(names: &[KText], name: &str) -> bool
    ensures { result ≡ is_among names.now name.now }
{
    let mut left = names;
    'names: while let [n, more @ ..] = left {
        if n.as_str() == name {
            return true;
        }
        left = more;
    }
    false
}

/// Whether a column has another name than this.
fn is_other(but: &Option<KText>, column: &Column) -> bool
    ensures { result ≡ is_other but.now column.now }
{
    match but {
        None => true,
        Some(name) => name.as_str() != column.name.as_str(),
    }
}

/// Whether a `*` stands for a column.
#[tactic(auto, unfolding(crate::specs::Arguments::is_open))]
fn is_open(keys: &[KText], but: &Option<KText>, column: &Column) -> bool
    ensures { result ≡ is_open keys.now but.now column.now }
{
    !is_among(keys, column.name.as_str()) && is_other(but, column)
}

/// No arguments.
#[tactic(auto, unfolding(crate::specs::Arguments::no_args))]
pub(crate) fn no_args(alloc: Global) -> Args
    ensures { result ≡ no_args }
{
    Args {
        exprs: Items::new(alloc),
        kinds: Items::new(alloc),
        has_star: false,
        has_stray: false,
    }
}

/// The arguments with one more.
#[tactic(auto, using(crate::proofs::AnswerFacts::answer_steps))]
pub(crate) fn with_arg(args: Args, t: Typed) -> Result<Args, BindFault>
    ensures exact { Answers result (Ok (with_arg args t)) }
{
    let Args {
        mut exprs,
        mut kinds,
        has_star,
        has_stray,
    } = args;
    let Typed { expr, kind } = t;
    match exprs.push(expr.into_inner()) {
        Ok(_) => match kinds.push(kind) {
            Ok(_) => Ok(Args {
                exprs,
                kinds,
                has_star,
                has_stray,
            }),
            Err(_) => Err(BindFault::OutOfMemory),
        },
        Err(_) => Err(BindFault::OutOfMemory),
    }
}

#[tactic(auto, using(crate::proofs::AnswerFacts::answer_steps))]
fn with_column(alloc: Global, args: Args, column: &Column) -> Result<Args, BindFault>
    ensures exact { Answers result (Ok (with_column args column.now)) }
{
    match column.name.copy(alloc) {
        Ok(name) => match with_kind(alloc, BExpr::Column(name), column.kind) {
            Ok(t) => with_arg(args, t),
            Err(fault) => {
                drop(args);
                Err(fault)
            }
        },
        Err(_) => {
            drop(args);
            Err(BindFault::OutOfMemory)
        }
    }
}

/// The arguments with a column more, where a `*` stands for it.
#[tactic(auto, using(crate::proofs::AnswerFacts::answer_steps))]
fn next_column(
    alloc: Global,
    before: Result<Args, BindFault>,
    column: &Column,
    keys: &[KText],
    but: &Option<KText>,
) -> Result<Args, BindFault>
    ensures exact { Answers result (column_link keys.now but.now before column.now) }
{
    match before {
        Ok(args) => {
            if is_open(keys, but, column) {
                with_column(alloc, args, column)
            } else {
                Ok(args)
            }
        }
        Err(fault) => Err(fault),
    }
}

#[tactic(auto, using(crate::proofs::ArgumentSteps::columns_steps))]
fn columns_to(
    alloc: Global,
    start: Result<Args, BindFault>,
    columns: &[Column],
    keys: &[KText],
    but: &Option<KText>,
) -> Result<Args, BindFault>
    ensures exact { Answers result (columns_to keys.now but.now start columns.now) }
{
    let mut taken = start;
    'columns: for column in columns {
        taken = next_column(alloc, taken, column, keys, but);
    }
    taken
}

/// The arguments with the columns behind them that a `*` stands for.
#[tactic(auto, using(crate::proofs::ArgumentSteps::star_steps))]
fn with_columns(
    alloc: Global,
    args: Args,
    columns: &[Column],
    keys: &[KText],
    but: &Option<KText>,
) -> Result<Args, BindFault>
    ensures exact { Answers result (Ok (with_columns args (filter (is_open keys.now but.now) columns.now))) }
{
    let Args {
        exprs,
        kinds,
        has_stray,
        ..
    } = args;
    let start = Ok(Args {
        exprs,
        kinds,
        has_star: true,
        has_stray,
    });
    columns_to(alloc, start, columns, keys, but)
}

/// The name of the column that the first argument is, where it is one.
#[tactic(auto, using(crate::proofs::AnswerFacts::answer_steps))]
fn first_column(alloc: Global, exprs: &[BExpr]) -> Result<Option<KText>, BindFault>
    ensures exact { Answers result (Ok (first_column exprs.now)) }
{
    match exprs {
        [] => Ok(None),
        [first, ..] => match column_of(first) {
            None => Ok(None),
            Some(name) => match KText::from_str(alloc, name) {
                Ok(name) => Ok(Some(name)),
                Err(_) => Err(BindFault::OutOfMemory),
            },
        },
    }
}

/// The arguments with what a `*` stands for.
#[tactic(auto, using(crate::proofs::AnswerFacts::answer_steps), unfolding(crate::specs::Arguments::starred))]
fn starred(alloc: Global, scope: &Scope, star: Star, args: Args) -> Result<Args, BindFault>
    ensures exact { Answers result (Ok (starred scope.now star args)) }
{
    let columns = scope.schema.columns();
    let keys = scope.keys.as_slice();
    match star {
        Star::Stray => {
            let Args {
                exprs,
                kinds,
                has_star,
                ..
            } = args;
            Ok(Args {
                exprs,
                kinds,
                has_star,
                has_stray: true,
            })
        }
        Star::Columns => with_columns(alloc, args, columns, keys, &None),
        Star::Others => match first_column(alloc, args.exprs.as_slice()) {
            Ok(but) => {
                let result = with_columns(alloc, args, columns, keys, &but);
                drop(but);
                result
            }
            Err(fault) => {
                drop(args);
                Err(fault)
            }
        },
    }
}

/// An argument as it stands: a constant as its literal where one is wanted.
#[tactic(auto, using(crate::proofs::AnswerFacts::answer_steps))]
fn placed(alloc: Global, is_constant: bool, t: Typed) -> Result<Typed, BindFault>
    ensures exact { Answers result (Ok (placed is_constant t)) }
{
    if is_constant {
        settled(alloc, t)
    } else {
        Ok(t)
    }
}

/// The arguments with one more; a star is none.
#[tactic(auto, using(crate::proofs::AnswerFacts::answer_steps), unfolding(crate::specs::Arguments::taken))]
fn taken(
    alloc: Global,
    scope: &Scope,
    slot: Slot,
    args: Args,
    arg: Option<Typed>,
) -> Result<Args, BindFault>
    ensures exact { Answers result (Ok (taken scope.now slot args arg)) }
{
    match arg {
        None => starred(alloc, scope, slot.star, args),
        Some(t) => match placed(alloc, slot.is_constant, t) {
            Ok(t) => with_arg(args, t),
            Err(fault) => {
                drop(args);
                Err(fault)
            }
        },
    }
}

/// The arguments with one more, or the first fault.
#[tactic(auto, using(crate::proofs::AnswerFacts::answer_steps))]
pub(crate) fn next_arg(
    alloc: Global,
    scope: &Scope,
    slot: Slot,
    before: Result<Args, BindFault>,
    next: Result<Option<Typed>, BindFault>,
) -> Result<Args, BindFault>
    ensures exact { Answers result (arg_link scope.now slot before next) }
{
    match before {
        Ok(args) => match next {
            Ok(arg) => taken(alloc, scope, slot, args, arg),
            Err(fault) => {
                drop(args);
                Err(fault)
            }
        },
        Err(fault) => {
            drop(next);
            Err(fault)
        }
    }
}

/// The first argument.
#[tactic(auto, using(crate::proofs::AnswerFacts::answer_steps))]
pub(crate) fn first_arg(
    alloc: Global,
    scope: &Scope,
    slot: Slot,
    next: Result<Option<Typed>, BindFault>,
) -> Result<Args, BindFault>
    ensures exact { Answers result (arg_link scope.now slot (Ok no_args) next) }
{
    next_arg(alloc, scope, slot, Ok(no_args(alloc)), next)
}

/// An argument that is an expression.
#[tactic(auto, unfolding(crate::specs::Arguments::plain_arg))]
pub(crate) fn plain_arg(t: Result<Typed, BindFault>) -> Result<Option<Typed>, BindFault>
    ensures exact { result ≡ plain_arg t }
{
    match t {
        Ok(t) => Ok(Some(t)),
        Err(fault) => Err(fault),
    }
}
