use crate::literal::Lit;
use kql_cells::KText;
use kql_functions::{Aggregate, Func, Window};
use kql_items::{Boxed, Items};

/// A sign between the parts of a chain.
#[derive(Clone, Copy, Debug, PartialEq, Eq)]
pub enum ChainSign {
    Add,
    Subtract,
    Multiply,
    Divide,
    Modulo,
}

/// A column of the record that a step of a scan holds.
#[derive(Debug, Drop)]
pub struct StepColumn {
    pub step: KText,
    pub column: KText,
    /// The step's number, from 1.
    pub number: usize,
    /// The column's place in the extended record, from 0: the input's columns, and then the declared ones.
    pub place: usize,
    /// What an absent record gives.
    pub default: Lit,
}

/// Expressions, one after another.
pub type Exprs = Items<BExpr>;

/// A sign of a chain and the part behind it.
pub type Link = (ChainSign, BExpr);

/// The signs of a chain with the parts behind them.
pub type Links = Items<Link>;

/// An expression whose names are bound.
///
/// A chain of `+ - * / %` and a path are lists, so that an expression is as deep as its brackets; both mean what nesting to
/// the left means.
#[derive(Debug, Drop)]
pub enum BExpr {
    Literal(Lit),
    /// A column of the input, by its name.
    Column(KText),
    Step(StepColumn),
    Call(Func, Exprs),
    Chain(Boxed<BExpr>, Links),
    /// A look into a dynamic value, by a name or a number at each step.
    Path(Boxed<BExpr>, Exprs),
    Window(Window, Exprs),
    Aggregate(Aggregate, Exprs),
}

/// A call of `row_cumsum` or `row_number`.
#[derive(Debug, Drop)]
pub struct WinCall {
    pub name: KText,
    pub args: Exprs,
}
