//! The tests of what the calls ask for.
ghost use Rattle.std.specs.Prelude.{◌↔◌, IsTrue, IfSome};
ghost use Rattle.kql_scalar_fns.specs.Arguments.{AreWellFormed};
ghost use Rattle.kql_scalar.specs.Evaluated.{AreSound};
ghost use Rattle.kql_scalar.specs.Scalar.{AreLinksScalar, AreScalar, IsScalar};

use kql_bound::{BExpr, Link};
use kql_values::{Row, Value, is_well_formed};

/// Whether no aggregate stands in an expression, and each literal is well formed.
#[cycle(is_scalar)]
#[tactic(auto, using(crate::proofs::ScalarSteps::test_steps))]
pub fn is_scalar(e: &BExpr) -> bool
    ensures scalar { IsTrue result ↔ IsScalar e.now }
{
    match e {
        BExpr::Literal(lit) => is_well_formed(&lit.value),
        BExpr::Column(_) => true,
        BExpr::Step(column) => is_well_formed(&column.default.value),
        BExpr::Call(_, args) => are_scalar(args.as_slice()),
        BExpr::Chain(first, links) => is_scalar(first.get()) && are_links_scalar(links.as_slice()),
        BExpr::Path(whole, steps) => is_scalar(whole.get()) && are_scalar(steps.as_slice()),
        BExpr::Window(_, args) => are_scalar(args.as_slice()),
        BExpr::Aggregate(_, _) => false,
    }
}

#[cycle(is_scalar)]
#[tactic(auto, using(crate::proofs::ScalarSteps::list_steps))]
fn are_scalar(es: &[BExpr]) -> bool
    ensures scalar { IsTrue result ↔ AreScalar es.now }
{
    'parts: for e in es {
        if !is_scalar(e) {
            return false;
        }
    }
    true
}

#[cycle(is_scalar)]
#[tactic(auto, using(crate::proofs::ScalarSteps::list_steps))]
fn are_links_scalar(links: &[Link]) -> bool
    ensures scalar { IsTrue result ↔ AreLinksScalar links.now }
{
    'parts: for link in links {
        if !is_scalar(&link.1) {
            return false;
        }
    }
    true
}

/// Whether each value that a step holds is well formed.
#[tactic(auto, using(crate::proofs::ScalarSteps::sound_steps))]
pub fn are_sound(s: &[Option<Row>]) -> bool
    ensures sound { IsTrue result ↔ AreSound s.now }
{
    'steps: for held in s {
        if !is_sound(held) {
            return false;
        }
    }
    true
}

fn is_sound(held: &Option<Row>) -> bool
    ensures sound { IsTrue result ↔ IfSome held.now AreWellFormed }
{
    match held {
        None => true,
        Some(row) => have_form(row.as_slice()),
    }
}

#[tactic(auto, using(crate::proofs::ScalarSteps::form_steps))]
fn have_form(values: &[Value]) -> bool
    ensures form { IsTrue result ↔ AreWellFormed values.now }
{
    'values: for value in values {
        if !is_well_formed(value) {
            return false;
        }
    }
    true
}
