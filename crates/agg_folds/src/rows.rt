//! What is taken of a row.
ghost use Rattle.std.specs.Prelude.{◌≡◌, IfSome, map, option_map};
ghost use Rattle.kql_cells.specs.Seen.{seen};
ghost use Rattle.kql_cells.specs.Values.{IsWellFormed};
ghost use Rattle.kql_scalar_fns.specs.Arguments.{AreWellFormed, argument};
ghost use Rattle.agg_folds.specs.Folds.{taken, where_true};

use crate::cells::{argument, holds};
use kql_cells::CellRef;
use kql_functions::Aggregate;

/// The value that is aggregated of a row, where the row counts.
#[tactic(auto, unfolding(crate::specs::Folds::taken))]
pub(crate) fn taken<'a>(aggregate: Aggregate, args: &[CellRef<'a>]) -> Option<CellRef<'a>>
    requires form { AreWellFormed (map seen args.now) }
    ensures value { option_map seen result ≡ taken aggregate (map seen args.now) }
    ensures form { IfSome result (λ c. IsWellFormed (seen c)) }
{
    match aggregate {
        Aggregate::CountIf => where_true(formed(args, 0), formed(args, 0)),
        Aggregate::CountDistinctIf => where_true(formed(args, 1), formed(args, 0)),
        Aggregate::SumIf => where_true(formed(args, 1), formed(args, 0)),
        Aggregate::MinIf => where_true(formed(args, 1), formed(args, 0)),
        Aggregate::MaxIf => where_true(formed(args, 1), formed(args, 0)),
        Aggregate::MakeListIf => where_true(formed(args, 1), formed(args, 0)),
        Aggregate::MakeSetIf => where_true(formed(args, 1), formed(args, 0)),
        _ => Some(formed(args, 0)),
    }
}

// An argument, which is well formed where all are.
#[tactic(auto, using(crate::proofs::FormFacts::argument_form))]
fn formed<'a>(args: &[CellRef<'a>], i: usize) -> CellRef<'a>
    requires form { AreWellFormed (map seen args.now) }
    ensures value { seen result ≡ argument (map seen args.now) i }
    ensures form { IsWellFormed (seen result) }
{
    argument(args, i)
}

// A cell, where a condition is true.
#[tactic(auto, unfolding(crate::specs::Folds::where_true))]
fn where_true<'a>(condition: CellRef<'a>, cell: CellRef<'a>) -> Option<CellRef<'a>>
    requires form { IsWellFormed (seen cell) }
    ensures value { option_map seen result ≡ where_true (seen condition.entry) (seen cell.entry) }
    ensures form { IfSome result (λ c. IsWellFormed (seen c)) }
{
    if holds(condition) { Some(cell) } else { None }
}
