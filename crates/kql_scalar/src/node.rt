use kql_bound::{ChainSign, Lit, StepColumn};
use kql_functions::{Func, Window};
use kql_items::{Boxed, Items};
use kql_values::{KText, Kind, Schema};
use std::marker::Model;

/// Parts, one after another.
pub(crate) type Nodes = Items<Node>;

/// A sign of a chain and the part behind it.
pub(crate) type NodeLink = (ChainSign, Node);

/// The signs of a chain with the parts behind them.
pub(crate) type NodeLinks = Items<NodeLink>;

/// A part of an expression, in which a column is known by its place.
///
/// The names stay, so that contracts see the expression that it was made of. No row reads them.
#[derive(Debug, Drop)]
pub(crate) enum Node {
    Literal(Lit),
    /// A column, and its place.
    Column(KText, usize),
    /// A name that no column has.
    Missing(KText),
    Step(StepColumn),
    Call(Func, Nodes),
    Chain(Boxed<Node>, NodeLinks),
    Path(Boxed<Node>, Nodes),
    /// A window function with the type of its first argument, where that has one.
    Window(Window, Nodes, Option<Kind>),
}

/// An expression over some columns, ready to be evaluated at rows of tables that have these columns.
///
/// Contracts see the expression and the columns.
#[derive(Debug, Drop)]
pub struct Located {
    pub(crate) node: Node,
    pub(crate) schema: Schema,
    /// The type of its values, for which a column of them is stored.
    pub(crate) kind: Kind,
}

impl Model for Located {
    ghost use Rattle.std.specs.Coded.{codes};
    ghost use Rattle.kql_bound.specs.contracts.expr.BExpr as bexpr;
    ghost use Rattle.kql_scalar.specs.Placed.{Placed};

    ghost Value = { Placed };

    ghost coded = { Prim.hlevel (codes, bexpr.the_row.coded) };

    ghost use Rattle.kql_scalar.specs.Means.{IsPlaced, means};

    ghost view = { λ l. record { expr = means l.node; columns = l.schema } };

    ghost invariant = { λ l. IsPlaced l.schema l.node };
}
