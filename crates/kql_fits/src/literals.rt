//! Literals: when they fit, and what they are as arguments.
ghost use Rattle.std.specs.Prelude.{◌≡◌};
ghost use Rattle.std.specs.Option.{option_copied};
ghost use Rattle.kql_meaning.specs.FittingExpressions.{first_word, is_constant_of, is_count, is_count_value, literal_of, word_in, word_of};
ghost use Rattle.kql_meaning.specs.Literals.{is_of_kind, is_well_formed, literal_fits};

use crate::kind_tests::is_kind;
use kql_bound::{BExpr, Lit};
use kql_cells::{Kind, Value};
use kql_functions::same_kind;

/// Whether a literal is well formed, and null or of the type beside it.
#[tactic(auto, unfolding(kql_meaning::specs::Literals::literal_fits))]
pub(crate) fn literal_fits(lit: &Lit) -> bool
    ensures fits { result ≡ literal_fits lit.now }
{
    is_of_kind(lit.kind, &lit.value) && is_well_formed(&lit.value)
}

fn is_of_kind(kind: Kind, value: &Value) -> bool
    ensures is { result ≡ is_of_kind kind value.now }
{
    value.is_of_kind(kind)
}

fn is_well_formed(value: &Value) -> bool
    ensures form { result ≡ is_well_formed value.now }
{
    kql_cells::is_well_formed(value)
}

// The literal that an expression is.
#[tactic(auto, using(kql_meaning::proofs::ExpressionFitLaws::literal_steps))]
fn literal_of(e: &BExpr) -> Option<&Lit>
    ensures literal { option_copied result ≡ literal_of e.now }
{
    match e {
        BExpr::Literal(lit) => Some(lit),
        BExpr::Column(_) => None,
        BExpr::Step(_) => None,
        BExpr::Call(_, _) => None,
        BExpr::Chain(_, _) => None,
        BExpr::Path(_, _) => None,
        BExpr::Window(_, _) => None,
        BExpr::Aggregate(_, _) => None,
    }
}

/// Whether an expression is a long of 0 or more, as a literal.
#[tactic(auto, unfolding(kql_meaning::specs::FittingExpressions::is_count, kql_meaning::specs::FittingExpressions::is_count_literal))]
pub fn is_count(e: &BExpr) -> bool
    ensures count { result ≡ is_count e.now }
{
    match literal_of(e) {
        None => false,
        Some(lit) => same_kind(lit.kind, Kind::Long) && is_count_value(&lit.value),
    }
}

#[tactic(auto, unfolding(kql_meaning::specs::FittingExpressions::is_count_value))]
fn is_count_value(value: &Value) -> bool
    ensures count { result ≡ is_count_value value.now }
{
    match value {
        Value::Long(n) => 0 <= *n,
        _ => false,
    }
}

/// Whether an expression is a literal of this type.
#[tactic(auto, unfolding(kql_meaning::specs::FittingExpressions::is_constant_of, kql_meaning::specs::FittingExpressions::is_typed_literal))]
pub(crate) fn is_constant_of(kind: Option<Kind>, e: &BExpr) -> bool
    ensures constant { result ≡ is_constant_of kind e.now }
{
    match literal_of(e) {
        None => false,
        Some(lit) => literal_fits(lit) && is_kind(lit.kind, kind),
    }
}

/// The text that the first argument is, as a literal.
#[tactic(auto, unfolding(kql_meaning::specs::FittingExpressions::first_word))]
pub(crate) fn first_word(args: &[BExpr]) -> Option<&str>
    ensures word { option_copied result ≡ first_word args.now }
{
    match args {
        [] => None,
        [first, ..] => word_in(first),
    }
}

#[tactic(auto, unfolding(kql_meaning::specs::FittingExpressions::word_in))]
fn word_in(e: &BExpr) -> Option<&str>
    ensures word { option_copied result ≡ word_in (literal_of e.now) }
{
    match literal_of(e) {
        None => None,
        Some(lit) => word_of(&lit.value),
    }
}

#[tactic(auto, unfolding(kql_meaning::specs::FittingExpressions::word_of))]
fn word_of(value: &Value) -> Option<&str>
    ensures word { option_copied result ≡ word_of value.now }
{
    match value {
        Value::Text(word) => Some(word.as_str()),
        _ => None,
    }
}
