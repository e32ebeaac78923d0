//! The items of `make-series`.
ghost use Rattle.std.specs.Prelude.{◌≡◌, [], ◌∷◌, ◌++◌, IfOk};
ghost use Rattle.bind_expr.specs.Outcome.{Answers};
ghost use Rattle.kql_bound.specs.declared.literal.Lit.{Lit};
ghost use Rattle.bind_operators.specs.Items.{one_name};
ghost use Rattle.bind_groups.specs.MakeSeries.{default_bound, empty_bin, no_series, series_bound, series_call, series_link, series_part_bound, with_series};

use crate::part::{NamedSeries, SeriesPart};
use bind_expr::{BindFault, Scope, Typed, bind_expr};
use bind_operators::{
    Known, Shape, Wanted, bind_constant, given_name, item_start, names_or_own, number_behind,
    or_lost, scope_at,
};
use kql_bound::{Lit, SeriesItem};
use kql_cells::{KText, Kind, Value};
use kql_fits::is_aggregate_call;
use kql_items::Items;
use kql_lexer::Place;
use kql_meaning::Position;
use kql_syntax::{Expr, Item, Series};
use std::alloc::{AllocError, Global};

// What an empty bin gives without a default.
#[tactic(auto, unfolding(crate::specs::MakeSeries::empty_bin, kql_meaning::specs::Values::absent))]
fn empty_bin(alloc: Global, kind: Kind) -> Value
    ensures empty { result ≡ empty_bin kind }
{
    match kind {
        Kind::Long => Value::Long(0),
        Kind::Span => Value::Span(0),
        Kind::Text => Value::Text(KText::new(alloc)),
        _ => Value::Null,
    }
}

#[tactic(auto, using(bind_expr::proofs::AnswerFacts::answer_steps), unfolding(crate::specs::MakeSeries::default_bound))]
fn bind_default(
    alloc: Global,
    operator: Place,
    known: &Known,
    rows: &Shape,
    kind: Kind,
    given: &Option<Expr>,
) -> Result<Lit, BindFault>
    ensures exact { Answers result (default_bound operator known.now rows.now kind given.now) }
{
    match given {
        None => Ok(Lit {
            kind,
            value: empty_bin(alloc, kind),
        }),
        Some(e) => bind_constant(alloc, operator, Wanted::Is(kind), known, rows, e),
    }
}

// One call of an aggregate, or 403.
#[tactic(auto, using(crate::proofs::TwiceLaws::fault_steps), unfolding(crate::specs::MakeSeries::series_call))]
fn series_call(operator: Place, t: Typed) -> Result<Typed, BindFault>
    ensures exact { Answers result (series_call operator t) }
{
    if !is_aggregate_call(t.expr.get()) {
        drop(t);
        return Err(BindFault::Refused {
            code: 403,
            place: operator,
        });
    }
    Ok(t)
}

#[tactic(auto, using(bind_expr::proofs::AnswerFacts::answer_steps, bind_operators::proofs::AnswerSteps::bind_steps), unfolding(crate::specs::MakeSeries::series_part_bound))]
fn bind_part(
    alloc: Global,
    operator: Place,
    known: &Known,
    rows: &Shape,
    s: &Series,
) -> Result<SeriesPart, BindFault>
    ensures exact { Answers result (series_part_bound operator known.now rows.now s.now) }
{
    match scope_at(alloc, known, rows, Position::Series) {
        Ok(scope) => match bind_expr(alloc, &s.item.value, &scope) {
            Ok(t) => match series_call(operator, t) {
                Ok(call) => match bind_default(
                    alloc, operator, known, rows, call.kind, &s.default,
                ) {
                    Ok(default) => Ok(SeriesPart {
                        typed: call,
                        default,
                    }),
                    Err(fault) => {
                        drop(call);
                        Err(fault)
                    }
                },
                Err(fault) => Err(fault),
            },
            Err(fault) => Err(fault),
        },
        Err(_) => Err(BindFault::OutOfMemory),
    }
}

// The first of names.
fn one_name(alloc: Global, names: &[KText]) -> Result<KText, AllocError>
    ensures name { IfOk result (λ n. n ≡ one_name names.now) }
{
    match names {
        [] => Ok(KText::new(alloc)),
        [name, ..] => name.copy(alloc),
    }
}

// One item more under its name.
fn with_named(
    done: NamedSeries,
    place: Place,
    item: SeriesItem,
    next: u64,
) -> Result<NamedSeries, AllocError>
    ensures added { IfOk result (λ d. d ≡ record { items = done.items ++ item ∷ []; places = done.places ++ place ∷ []; next = next }) }
{
    let NamedSeries { items, places, .. } = done;
    let mut items = items;
    let mut places = places;
    items.push(item)?;
    places.push(place)?;
    Ok(NamedSeries {
        items,
        places,
        next,
    })
}

#[tactic(auto, unfolding(crate::specs::MakeSeries::with_series))]
fn with_series(
    alloc: Global,
    done: NamedSeries,
    item: &Item,
    s: SeriesPart,
) -> Result<NamedSeries, AllocError>
    ensures added { IfOk result (λ d. d ≡ with_series done item.now s) }
{
    let given = given_name(alloc, item)?;
    let next = number_behind(done.next, &given, s.typed.expr.get())?;
    let names = names_or_own(alloc, done.next, given, s.typed.expr.get())?;
    let name = one_name(alloc, names.as_slice())?;
    let made = SeriesItem {
        name,
        expr: s.typed.expr.into_inner(),
        default: s.default,
    };
    with_named(done, item_start(item), made, next)
}

// One item more, or the first fault.
#[tactic(auto, using(bind_expr::proofs::AnswerFacts::answer_steps))]
fn next_series(
    alloc: Global,
    before: Result<NamedSeries, BindFault>,
    item: &Item,
    next: Result<SeriesPart, BindFault>,
) -> Result<NamedSeries, BindFault>
    ensures exact { Answers result (series_link before item.now next) }
{
    match before {
        Ok(done) => match next {
            Ok(s) => or_lost(with_series(alloc, done, item, s)),
            Err(fault) => {
                drop(done);
                Err(fault)
            }
        },
        Err(fault) => {
            drop(next);
            Err(fault)
        }
    }
}

#[tactic(auto, unfolding(crate::specs::MakeSeries::no_series))]
fn no_series(alloc: Global) -> NamedSeries
    ensures none { result ≡ no_series }
{
    NamedSeries {
        items: Items::new(alloc),
        places: Items::new(alloc),
        next: 1,
    }
}

/// Items from left to right.
#[tactic(auto, using(crate::proofs::SeriesSteps::series_steps))]
pub(crate) fn bind_series(
    alloc: Global,
    operator: Place,
    known: &Known,
    rows: &Shape,
    items: &[Series],
) -> Result<NamedSeries, BindFault>
    ensures exact { Answers result (series_bound operator known.now rows.now items.now) }
{
    let mut done = Ok(no_series(alloc));
    'each: for s in items {
        let next = bind_part(alloc, operator, known, rows, s);
        done = next_series(alloc, done, &s.item, next);
    }
    done
}
