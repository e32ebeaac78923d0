//! Whether the pattern calls of an expression read columns that are lent to it.
ghost use Rattle.std.specs.Prelude.{◌≡◌};
ghost use Rattle.std.specs.List.{list_all};
ghost use Rattle.kql_bound.specs.declared.expr.BExpr.{BExpr};
ghost use Rattle.kql_bound.specs.declared.expr.ChainSign.{ChainSign};
ghost use Rattle.pattern_lift.specs.Calls.{call_of, calls_are_lent, is_call_of, reads_one};

use crate::pattern_calls::{column_name, literal_text};
use crate::prefixes::is_among;
use kql_bound::{BExpr, Link};
use kql_cells::KText;
use kql_functions::{Func, PatternFunc};

/// Whether each pattern call of an expression is one of a lent column and the text of a pattern.
#[cycle(lent)]
#[tactic(auto, using(crate::proofs::CallSteps::lent_steps))]
pub fn calls_are_lent(lent: &[KText], e: &BExpr) -> bool
    ensures lent { result ≡ calls_are_lent lent.now e.now }
{
    match e {
        BExpr::Literal(_) => true,
        BExpr::Column(_) => true,
        BExpr::Step(_) => true,
        BExpr::Call(f, args) => {
            is_call_of(lent, *f, args.as_slice()) && all_lent(lent, args.as_slice())
        }
        BExpr::Chain(first, links) => {
            calls_are_lent(lent, first.get()) && links_lent(lent, links.as_slice())
        }
        BExpr::Path(whole, steps) => {
            calls_are_lent(lent, whole.get()) && all_lent(lent, steps.as_slice())
        }
        BExpr::Window(_, args) => all_lent(lent, args.as_slice()),
        BExpr::Aggregate(_, args) => all_lent(lent, args.as_slice()),
    }
}

#[cycle(lent)]
fn all_lent(lent: &[KText], es: &[BExpr]) -> bool
    ensures lent { result ≡ list_all (calls_are_lent lent.now) es.now }
{
    for e in es {
        if !calls_are_lent(lent, e) {
            return false;
        }
    }
    true
}

#[cycle(lent)]
fn links_lent(lent: &[KText], links: &[Link]) -> bool
    ensures lent { result ≡ list_all (λ (l : ChainSign × BExpr). calls_are_lent lent.now l.1) links.now }
{
    for link in links {
        if !calls_are_lent(lent, &link.1) {
            return false;
        }
    }
    true
}

// Whether a node that is a pattern call is one.
#[tactic(auto, unfolding(crate::specs::Calls::is_call_of))]
fn is_call_of(lent: &[KText], f: Func, args: &[BExpr]) -> bool
    ensures call { result ≡ is_call_of lent.now f args.now }
{
    match f {
        Func::Pattern(func) => reads_one(lent, func, args),
        Func::Arithmetic(_) => true,
        Func::Comparison(_) => true,
        Func::Search(_) => true,
        Func::Logic(_) => true,
        Func::Choice(_) => true,
        Func::Conversion(_) => true,
        Func::Text(_) => true,
        Func::Time(_) => true,
        Func::Dynamic(_) => true,
    }
}

fn reads_one(lent: &[KText], func: PatternFunc, args: &[BExpr]) -> bool
    ensures reads { result ≡ reads_one lent.now (call_of func args.now) }
{
    if args.len() != 2 {
        return false;
    }
    match column_name(&args[0]) {
        None => false,
        Some(column) => match literal_text(&args[1]) {
            None => false,
            Some(_) => is_among(lent, column),
        },
    }
}
