//! Bound arguments that are to be literals or columns.
ghost use Rattle.std.specs.Prelude.{◌≡◌, is_some};
ghost use Rattle.std.specs.Option.{option_copied};
ghost use Rattle.std.specs.List.{list_all};
ghost use Rattle.bind_expr.specs.Forms.{is_column, is_literal};
ghost use Rattle.kql_meaning.specs.FittingExpressions.{column_of, literal_of};

use kql_bound::{BExpr, Lit};

/// The literal that an expression is.
#[tactic(auto, using(kql_meaning::proofs::ExpressionFitLaws::literal_steps))]
pub(crate) fn literal_of(e: &BExpr) -> Option<&Lit>
    ensures literal { option_copied result ≡ literal_of e.now }
{
    match e {
        BExpr::Literal(lit) => Some(lit),
        BExpr::Column(_) => None,
        BExpr::Step(_) => None,
        BExpr::Call(_, _) => None,
        BExpr::Chain(_, _) => None,
        BExpr::Path(_, _) => None,
        BExpr::Window(_, _) => None,
        BExpr::Aggregate(_, _) => None,
    }
}

/// Whether an expression is a literal.
#[tactic(auto, unfolding(crate::specs::Forms::is_literal))]
pub(crate) fn is_literal(e: &BExpr) -> bool
    ensures { result ≡ is_literal e.now }
{
    match literal_of(e) {
        None => false,
        Some(_) => true,
    }
}

/// The name of the column that an expression is.
#[tactic(auto, using(kql_meaning::proofs::ExpressionFitLaws::column_steps))]
pub(crate) fn column_of(e: &BExpr) -> Option<&str>
    ensures column { option_copied result ≡ column_of e.now }
{
    match e {
        BExpr::Literal(_) => None,
        BExpr::Column(name) => Some(name.as_str()),
        BExpr::Step(_) => None,
        BExpr::Call(_, _) => None,
        BExpr::Chain(_, _) => None,
        BExpr::Path(_, _) => None,
        BExpr::Window(_, _) => None,
        BExpr::Aggregate(_, _) => None,
    }
}

/// Whether an expression is a column.
#[tactic(auto, unfolding(crate::specs::Forms::is_column))]
pub(crate) fn is_column(e: &BExpr) -> bool
    ensures { result ≡ is_column e.now }
{
    match column_of(e) {
        None => false,
        Some(_) => true,
    }
}

/// Whether all these are columns.
pub(crate) fn are_columns(es: &[BExpr]) -> bool
    ensures { result ≡ list_all is_column es.now }
{
    let mut left = es;
    'parts: while let [e, more @ ..] = left {
        if !is_column(e) {
            return false;
        }
        left = more;
    }
    true
}
