//! Expressions without window functions and aggregates.
ghost use Rattle.std.specs.Prelude.{◌≡◌};
ghost use Rattle.std.specs.List.{list_all};
ghost use Rattle.kql_meaning.specs.RowByRow.{are_plain, is_plain};
ghost use Rattle.kql_meaning.proofs.PlainLaws.{links_plain};

use kql_bound::{BExpr, BItem, Link};

/// Whether neither a window function nor an aggregate stands anywhere in an expression.
#[cycle(is_plain)]
#[tactic(auto, using(kql_meaning::proofs::PlainLaws::plain_steps))]
pub fn is_plain(e: &BExpr) -> bool
    ensures plain { result ≡ is_plain e.now }
{
    match e {
        BExpr::Literal(_) => true,
        BExpr::Column(_) => true,
        BExpr::Step(_) => true,
        BExpr::Call(_, args) => all_plain(args.as_slice()),
        BExpr::Chain(first, links) => is_plain(first.get()) && links_plain(links.as_slice()),
        BExpr::Path(whole, steps) => is_plain(whole.get()) && all_plain(steps.as_slice()),
        BExpr::Window(_, _) => false,
        BExpr::Aggregate(_, _) => false,
    }
}

#[cycle(is_plain)]
fn all_plain(es: &[BExpr]) -> bool
    ensures plain { result ≡ list_all is_plain es.now }
{
    for e in es {
        if !is_plain(e) {
            return false;
        }
    }
    true
}

#[cycle(is_plain)]
fn links_plain(links: &[Link]) -> bool
    ensures plain { result ≡ links_plain links.now }
{
    for link in links {
        if !is_plain(&link.1) {
            return false;
        }
    }
    true
}

/// Whether all of these items are.
#[tactic(auto, unfolding(kql_meaning::specs::RowByRow::are_plain))]
pub fn are_plain(items: &[BItem]) -> bool
    ensures plain { result ≡ are_plain items.now }
{
    let mut left = items;
    'items: while let Some((item, more)) = left.split_first() {
        if !is_plain(&item.expr) {
            return false;
        }
        left = more;
    }
    true
}
