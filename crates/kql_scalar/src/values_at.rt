//! The values of a part at the rows of a range, as a vector.
ghost use Rattle.std.specs.Prelude.{◌≡◌, ◌<◌, ◌≤◌, ◌++◌, ◌∷◌, [], IfOk, IfSome, OnOk, OnErr, Some, is_some, length, map};
ghost use Rattle.kql_meaning.specs.Expressions.{val};
ghost use Rattle.kql_meaning.specs.FittingExpressions.{is_plain_column};
ghost use Rattle.kql_meaning.specs.Tables.{cell_in};
ghost use Rattle.kql_scalar.specs.Means.{IsPlaced, means};
ghost use Rattle.kql_scalar.specs.Rows.{rows};
ghost use Rattle.kql_scalar.specs.Shown.{shown};

use crate::chains::long_values;
use crate::lent::Lent;
use crate::node::Node;
use crate::parts::{link_parts, part};
use crate::values::value_of;
use kql_values::{Kind, Table, Vector};
use std::alloc::{AllocError, Global};

/// The values at the rows of a range, stored as values of a type: those of a column, of a literal and of a chain of
/// longs at once, all others row by row.
#[tactic(auto, using(crate::proofs::ColumnSteps::range_steps, crate::proofs::PartSteps::placed_parts))]
pub(crate) fn values_at(
    alloc: Global,
    node: &Node,
    kind: Kind,
    t: &Table,
    from: usize,
    to: usize,
) -> Result<Vector, AllocError>
    requires placed { IsPlaced t.now.columns node.now }
    requires order { from ≤ to }
    requires range { to ≤ length t.now.lines }
    ensures values { IfOk result (λ v. v ≡ map (λ i. val (means node.now) t.now i []) (rows from to)) }
{
    match node {
        Node::Column(_, place) => column_at(alloc, t, *place, from, to),
        Node::Literal(lit) => Vector::repeated(alloc, kind, lit.value.as_cell(), to - from),
        Node::Chain(first, links) => {
            let (first, links) = (part(first, t), link_parts(links, t));
            match long_values(alloc, first, links, t, from, to)? {
                Some(values) => Ok(values),
                None => values_by_row(alloc, node, kind, t, from, to),
            }
        }
        _ => values_by_row(alloc, node, kind, t, from, to),
    }
}

// Those of a column.
#[tactic(auto, using(crate::proofs::ColumnSteps::slice_steps))]
fn column_at(
    alloc: Global,
    t: &Table,
    place: usize,
    from: usize,
    to: usize,
) -> Result<Vector, AllocError>
    requires column { place < length t.now.columns }
    requires order { from ≤ to }
    requires range { to ≤ length t.now.lines }
    ensures values { IfOk result (λ v. v ≡ map (λ i. cell_in t.now i (Some place)) (rows from to)) }
{
    let _schema = t.schema();
    t.column(place).slice(alloc, from, to)
}

/// The vector of the table itself that has a part's values at all rows: just where the part is a column that is there.
#[tactic(auto, using(crate::proofs::ColumnSteps::range_steps, crate::proofs::LentSteps::lent_steps))]
pub(crate) fn lent_values<'a>(node: &Node, t: &'a Table) -> Option<&'a Vector>
    requires placed { IsPlaced t.now.columns node.now }
    ensures lent { is_some result ≡ is_plain_column t.now.columns (means node.now) }
    ensures values { IfSome result (λ v. v.now ≡ map (λ i. val (means node.now) t.now i []) (rows 0 (length t.now.lines))) }
    ensures count { IfSome result (λ v. length v.now ≡ length t.now.lines) }
{
    match node {
        Node::Column(_, place) => Some(whole_column(t, *place)),
        Node::Literal(_)
        | Node::Missing(_)
        | Node::Step(_)
        | Node::Call(..)
        | Node::Chain(..)
        | Node::Path(..)
        | Node::Window(..) => None,
    }
}

// The vector of a column.
#[tactic(auto, using(crate::proofs::WholeSteps::whole_steps))]
fn whole_column(t: &Table, place: usize) -> &Vector
    requires column { place < length t.now.columns }
    ensures values { result.now ≡ map (λ i. cell_in t.now i (Some place)) (rows 0 (length t.now.lines)) }
    ensures count { length result.now ≡ length t.now.lines }
{
    let _schema = t.schema();
    t.column(place)
}

// The same, evaluated row by row.
#[tactic(auto, using(crate::proofs::ColumnSteps::column_steps))]
fn values_by_row(
    alloc: Global,
    node: &Node,
    kind: Kind,
    t: &Table,
    from: usize,
    to: usize,
) -> Result<Vector, AllocError>
    requires placed { IsPlaced t.now.columns node.now }
    requires order { from ≤ to }
    requires range { to ≤ length t.now.lines }
    ensures values { IfOk result (λ v. v ≡ map (λ i. val (means node.now) t.now i []) (rows from to)) }
{
    let mut values = Vector::new(alloc, kind);
    'rows: for i in from..to {
        let value = value_of(alloc, node, t, i, &[])?;
        push_lent(&mut values, value)?;
    }
    Ok(values)
}

// Adds what a lent value shows.
fn push_lent(values: &mut Vector, value: Lent<'_>) -> Result<(), AllocError>
    ensures added { OnOk result (values.new ≡ values.old ++ shown value.entry ∷ []) }
    ensures kept { OnErr result (values.new ≡ values.old) }
{
    let result = values.push_cell(value.as_cell());
    drop(value);
    result
}
