//! The values of arguments at all rows.
ghost use Rattle.std.specs.Prelude.{◌≡◌, true, IfOk, take};
ghost use Rattle.kql_meaning.specs.FittingExpressions.{expr_fits, scope_of};
ghost use Rattle.kql_meaning.specs.declared.position.Position.TheVariants as position;
ghost use Rattle.summarize_op.specs.Passes.{AreArguments, argument_column, argument_columns};

use kql_bound::BExpr;
use kql_scalar::Located;
use kql_values::{Table, Vector};
use std::alloc::{AllocError, Global};

/// The values of each of these arguments at all rows.
#[tactic(auto, using(crate::proofs::ArgumentSteps::argument_steps))]
pub(crate) fn argument_vectors(
    alloc: Global,
    t: &Table,
    args: &[BExpr],
) -> Result<Vec<Vector>, AllocError>
    requires plain { AreArguments t.now.columns args.now }
    ensures values { IfOk result (λ vs. vs.items ≡ argument_columns args.now t.now) }
{
    let mut vectors = Vec::new(alloc);
    'arguments: for arg in args {
        let vector = argument_vector(alloc, t, arg)?;
        vectors.push(vector)?;
    }
    Ok(vectors)
}

#[tactic(auto, using(crate::proofs::ArgumentSteps::one_steps))]
fn argument_vector(alloc: Global, t: &Table, arg: &BExpr) -> Result<Vector, AllocError>
    requires plain { expr_fits arg.now (scope_of t.now.columns) position.Plain ≡ true }
    ensures values { IfOk result (λ v. v ≡ argument_column arg.now t.now) }
{
    let located = Located::new(alloc, arg, t.schema())?;
    located.column_of(alloc, t, 0, t.len())
}

/// The first of these, up to a number.
#[tactic(auto, using(crate::proofs::ArgumentSteps::first_steps))]
pub(crate) fn first_args(args: &[BExpr], n: usize) -> &[BExpr]
    ensures first { result.now ≡ take n args.now }
{
    if n < args.len() { &args[..n] } else { args }
}
