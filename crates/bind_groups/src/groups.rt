//! Groups and their keys, as `summarize`, `distinct` and `make-series` have them.
ghost use Rattle.std.specs.Prelude.{◌≡◌, []};
ghost use Rattle.bind_expr.specs.Outcome.{Answers};
ghost use Rattle.kql_cells.specs.Named.{HasDistinctNames, column_name};
ghost use Rattle.kql_meaning.specs.Summarize.{group_columns};
ghost use Rattle.bind_operators.specs.Items.{items_from};
ghost use Rattle.bind_groups.specs.Summarize.{group_answer, group_key, group_keys_bound};

use bind_expr::{BindFault, Scope};
use bind_operators::{
    BoundOp, Known, NamedItems, Shape, Wanted, answered, bind_typed, next_item, no_items, scope_at,
};
use kql_bound::{GroupPlan, Op};
use kql_cells::Schema;
use kql_columns::group_columns;
use kql_lexer::Place;
use kql_meaning::Position;
use kql_syntax::Item;
use std::alloc::Global;

/// What is grouped, where no two columns have one name.
#[tactic(auto, using(bind_expr::proofs::AnswerFacts::answer_steps, crate::proofs::GroupNames::made_steps))]
pub(crate) fn grouped(
    alloc: Global,
    operator: Place,
    rows: Shape,
    plan: GroupPlan,
) -> Result<BoundOp, BindFault>
    requires distinct { HasDistinctNames column_name (group_columns plan rows.columns) }
    ensures exact { Answers result (group_answer operator rows [] plan) }
{
    match group_columns(alloc, &plan, rows.columns.columns()) {
        Ok(columns) => answered(
            alloc,
            operator,
            Op::Summarize(plan),
            Schema::from_items(columns),
            false,
        ),
        Err(_) => Err(BindFault::OutOfMemory),
    }
}

#[tactic(auto, using(bind_operators::proofs::AnswerSteps::items_steps))]
fn keys_from(
    alloc: Global,
    scope: &Scope,
    next: u64,
    keys: &[Item],
) -> Result<NamedItems, BindFault>
    ensures exact { Answers result (items_from (group_key scope.now) next keys.now) }
{
    let mut done = Ok(no_items(alloc, next));
    'each: for key in keys {
        let t = bind_typed(alloc, Wanted::Key, &key.value, scope);
        done = next_item(alloc, done, key, t);
    }
    done
}

/// Keys from left to right, behind a number.
#[tactic(auto, using(bind_expr::proofs::AnswerFacts::answer_steps), unfolding(crate::specs::Summarize::group_keys_bound))]
pub(crate) fn bind_group_keys(
    alloc: Global,
    known: &Known,
    rows: &Shape,
    next: u64,
    keys: &[Item],
) -> Result<NamedItems, BindFault>
    ensures exact { Answers result (group_keys_bound known.now rows.now next keys.now) }
{
    match scope_at(alloc, known, rows, Position::Plain) {
        Ok(scope) => keys_from(alloc, &scope, next, keys),
        Err(_) => Err(BindFault::OutOfMemory),
    }
}
