//! The values of expressions at the rows of a range.
ghost use Rattle.std.specs.Prelude.{◌≡◌, ◌≤◌, true, IfOk, IsTrue, length, map, take};
ghost use Rattle.std.specs.List.{list_all};
ghost use Rattle.kql_meaning.specs.FittingExpressions.{expr_fits, scope_of};
ghost use Rattle.kql_meaning.specs.FittingOperators.{key_item_fits};
ghost use Rattle.kql_meaning.specs.declared.position.Position.TheVariants as position;
ghost use Rattle.summarize_op.specs.Passes.{AreArguments};
ghost use Rattle.summarize_pieces.specs.Pieces.{columns_along, values_along};

use kql_bound::{BExpr, BItem};
use kql_scalar::Located;
use kql_values::{Table, Vector};
use std::alloc::{AllocError, Global};

/// The values of each of these arguments at the rows from one on and before another.
#[tactic(auto, using(crate::proofs::ColumnSteps::argument_steps))]
pub(crate) fn columns_along(
    alloc: Global,
    t: &Table,
    args: &[BExpr],
    from: usize,
    to: usize,
) -> Result<Vec<Vector>, AllocError>
    requires plain { AreArguments t.now.columns args.now }
    requires order { from ≤ to }
    requires range { to ≤ length t.now.lines }
    ensures values { IfOk result (λ vs. vs.items ≡ columns_along args.now t.now from to) }
{
    let mut vectors = Vec::with_capacity(alloc, args.len())?;
    'arguments: for arg in args {
        let vector = values_along(alloc, t, arg, from, to)?;
        vectors.push(vector)?;
    }
    Ok(vectors)
}

/// The values of each key at these rows.
#[tactic(auto, using(crate::proofs::ColumnSteps::key_steps))]
pub(crate) fn keys_along(
    alloc: Global,
    t: &Table,
    keys: &[BItem],
    from: usize,
    to: usize,
) -> Result<Vec<Vector>, AllocError>
    requires fits { IsTrue (list_all (key_item_fits t.now.columns) keys.now) }
    requires order { from ≤ to }
    requires range { to ≤ length t.now.lines }
    ensures values { IfOk result (λ vs. vs.items ≡ columns_along (map (λ b. b.expr) keys.now) t.now from to) }
{
    let mut vectors = Vec::with_capacity(alloc, keys.len())?;
    'keys: for key in keys {
        let vector = values_along(alloc, t, &key.expr, from, to)?;
        vectors.push(vector)?;
    }
    Ok(vectors)
}

#[tactic(auto, using(crate::proofs::ColumnSteps::one_steps), unfolding(crate::specs::Pieces::values_along))]
fn values_along(
    alloc: Global,
    t: &Table,
    e: &BExpr,
    from: usize,
    to: usize,
) -> Result<Vector, AllocError>
    requires plain { expr_fits e.now (scope_of t.now.columns) position.Plain ≡ true }
    requires order { from ≤ to }
    requires range { to ≤ length t.now.lines }
    ensures values { IfOk result (λ v. v ≡ values_along e.now t.now from to) }
{
    let located = Located::new(alloc, e, t.schema())?;
    located.column_of(alloc, t, from, to)
}
