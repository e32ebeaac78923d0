//! What `summarize` asks of the form of its items.
ghost use Rattle.std.specs.Prelude.{◌≡◌};
ghost use Rattle.std.specs.List.{list_any};
ghost use Rattle.kql_bound.specs.declared.expr.ChainSign.{ChainSign};
ghost use Rattle.kql_bound.specs.declared.expr.BExpr.{BExpr};
ghost use Rattle.bind_expr.specs.GroupForms.{counts_badly, has_bad_count, has_bare_column, has_several_results, is_bad_count};

use kql_bound::{BExpr, Link};
use kql_fits::{has_one_result, is_count};
use kql_functions::Aggregate;

/// Whether a column stands outside the arguments of an aggregate.
#[cycle(bare)]
#[tactic(auto, using(bind_expr::proofs::GroupForms::bare_steps))]
pub(crate) fn has_bare_column(e: &BExpr) -> bool
    ensures bare { result ≡ has_bare_column e.now }
{
    match e {
        BExpr::Literal(_) => false,
        BExpr::Column(_) => true,
        BExpr::Step(_) => true,
        BExpr::Call(_, args) => any_bare(args.as_slice()),
        BExpr::Chain(first, links) => {
            has_bare_column(first.get()) || any_bare_link(links.as_slice())
        }
        BExpr::Path(whole, steps) => has_bare_column(whole.get()) || any_bare(steps.as_slice()),
        BExpr::Window(_, args) => any_bare(args.as_slice()),
        BExpr::Aggregate(_, _) => false,
    }
}

#[cycle(bare)]
fn any_bare(es: &[BExpr]) -> bool
    ensures any { result ≡ list_any has_bare_column es.now }
{
    for e in es {
        if has_bare_column(e) {
            return true;
        }
    }
    false
}

#[cycle(bare)]
fn any_bare_link(links: &[Link]) -> bool
    ensures any { result ≡ list_any (λ (l : ChainSign × BExpr). has_bare_column l.1) links.now }
{
    for link in links {
        if has_bare_column(&link.1) {
            return true;
        }
    }
    false
}

/// Whether an expression is a call with several result columns.
#[tactic(auto, using(bind_expr::proofs::GroupForms::several_steps))]
pub(crate) fn has_several_results(e: &BExpr) -> bool
    ensures several { result ≡ has_several_results e.now }
{
    match e {
        BExpr::Literal(_) => false,
        BExpr::Column(_) => false,
        BExpr::Step(_) => false,
        BExpr::Call(_, _) => false,
        BExpr::Chain(_, _) => false,
        BExpr::Path(_, _) => false,
        BExpr::Window(_, _) => false,
        BExpr::Aggregate(f, args) => !has_one_result(*f, args.as_slice()),
    }
}

fn is_bad_count(args: &[BExpr]) -> bool
    ensures bad { result ≡ is_bad_count args.now }
{
    match args {
        [_, n] => !is_count(n),
        _ => false,
    }
}

fn counts_badly(f: Aggregate, args: &[BExpr]) -> bool
    ensures badly { result ≡ counts_badly f args.now }
{
    match f {
        Aggregate::MakeList => is_bad_count(args),
        Aggregate::MakeSet => is_bad_count(args),
        _ => false,
    }
}

/// Whether the number of elements that `make_list` or `make_set` is given is null or negative.
#[cycle(bad)]
#[tactic(auto, using(bind_expr::proofs::GroupForms::count_steps))]
pub(crate) fn has_bad_count(e: &BExpr) -> bool
    ensures bad { result ≡ has_bad_count e.now }
{
    match e {
        BExpr::Literal(_) => false,
        BExpr::Column(_) => false,
        BExpr::Step(_) => false,
        BExpr::Call(_, args) => any_bad_count(args.as_slice()),
        BExpr::Chain(first, links) => {
            has_bad_count(first.get()) || any_bad_link(links.as_slice())
        }
        BExpr::Path(whole, steps) => has_bad_count(whole.get()) || any_bad_count(steps.as_slice()),
        BExpr::Window(_, args) => any_bad_count(args.as_slice()),
        BExpr::Aggregate(f, args) => counts_badly(*f, args.as_slice()),
    }
}

#[cycle(bad)]
fn any_bad_count(es: &[BExpr]) -> bool
    ensures any { result ≡ list_any has_bad_count es.now }
{
    for e in es {
        if has_bad_count(e) {
            return true;
        }
    }
    false
}

#[cycle(bad)]
fn any_bad_link(links: &[Link]) -> bool
    ensures any { result ≡ list_any (λ (l : ChainSign × BExpr). has_bad_count l.1) links.now }
{
    for link in links {
        if has_bad_count(&link.1) {
            return true;
        }
    }
    false
}
