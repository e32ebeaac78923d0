//! The rule that carries a filter of right columns into the right plan of a join.
ghost use Rattle.std.specs.Prelude.{◌≡◌, ◌∷◌, ◌++◌, [], IfOk, Some, false};
ghost use Rattle.kql_bound.specs.declared.plan.Op.TheVariants as op;
ghost use Rattle.kql_meaning.specs.Fits.{known_of};
ghost use Rattle.kql_meaning.specs.FittingOperators.{are_distinct};
ghost use Rattle.kql_meaning.specs.Tables.{names_of};
ghost use Rattle.plan_rules.specs.Reads.{reads_only, with_names};
ghost use Rattle.plan_rules.specs.Rules.{is_right_name, join_then_right_filter, over_right, right_name, takes_right, when};

use crate::rules::one;
use kql_bound::{BExpr, JoinKind, JoinPlan, Op, Ops, Plan, clone_join, clone_ops, clone_source};
use kql_cells::{Column, NamedSchema};
use kql_columns::has_column;
use kql_items::Items;
use plan_columns::plan_makes;
use plan_swaps::filter_of;
use plan_terms::{is_plain, names_read, reads_none, right_names, with_names};
use std::alloc::{AllocError, Global};

fn takes_right(kind: JoinKind) -> bool
    ensures takes { result ≡ takes_right kind }
{
    match kind {
        JoinKind::InnerUnique => true,
        JoinKind::Inner => true,
        JoinKind::LeftOuter => false,
        JoinKind::RightOuter => true,
        JoinKind::FullOuter => false,
        JoinKind::LeftSemi => false,
        JoinKind::LeftAnti => false,
        JoinKind::RightSemi => true,
        JoinKind::RightAnti => true,
    }
}

// Whether no two columns have one name.
#[tactic(auto, unfolding(kql_meaning::specs::FittingOperators::are_distinct, kql_meaning::specs::Tables::names_of, kql_meaning::specs::Tables::has_column))]
fn are_distinct(columns: &[Column]) -> bool
    ensures distinct { result ≡ are_distinct (names_of columns.now) }
{
    let mut left = columns;
    'columns: while let Some((column, more)) = left.split_first() {
        if has_column(column.name.as_str(), more) {
            return false;
        }
        left = more;
    }
    true
}

// A filter of right columns alone, under the names that they have in the right table; none where it reads anything else.
#[tactic(auto, using(plan_terms::proofs::RightNames::right_steps))]
fn filter_right(
    alloc: Global,
    columns: &[Column],
    join: &JoinPlan,
    right: &[Column],
    q: &BExpr,
) -> Result<Option<Ops>, AllocError>
    requires { join.now.lookup ≡ false }
    ensures inside { IfOk result (λ o. o ≡ when (reads_only (is_right_name join.now columns.now right.now) q.now) (op.Where (with_names (right_name join.now columns.now right.now) q.now) ∷ [])) }
{
    if !is_plain(q) {
        return Ok(None);
    }
    let read = names_read(alloc, q)?;
    let Some(to) = right_names(alloc, join, columns, right, read.as_slice())? else {
        return Ok(None);
    };
    let below = with_names(alloc, q, read.as_slice(), to.as_slice())?;
    let ops = one(alloc, Op::Where(below))?;
    Ok(Some(ops))
}

// A join whose right plan has these operators at its end.
fn join_with(
    alloc: Global,
    join: &JoinPlan,
    right: &Plan,
    more: Ops,
) -> Result<Option<Ops>, AllocError>
    ensures joined { IfOk result (λ o. o ≡ Some (op.Join join.now (record { source = right.now.source; ops = right.now.ops ++ more }) ∷ [])) }
{
    let mut ops = clone_ops(alloc, &right.ops)?;
    ops.append(more)?;
    let source = clone_source(alloc, &right.source)?;
    let join = clone_join(alloc, join)?;
    let ops = one(alloc, Op::Join(join, Plan { source, ops }))?;
    Ok(Some(ops))
}

#[tactic(auto, unfolding(plan_rules::specs::Rules::over_right))]
fn over_right(
    alloc: Global,
    columns: &[Column],
    join: &JoinPlan,
    right: &Plan,
    q: &BExpr,
    made: &[Column],
) -> Result<Option<Ops>, AllocError>
    ensures rule { IfOk result (λ o. o ≡ over_right columns.now join.now right.now q.now made.now) }
{
    if !takes_right(join.kind) {
        return Ok(None);
    }
    if join.lookup {
        return Ok(None);
    }
    if !are_distinct(made) {
        return Ok(None);
    }
    let Some(filter) = filter_right(alloc, columns, join, made, q)? else {
        return Ok(None);
    };
    if reads_none(alloc, q)? {
        return Ok(None);
    }
    join_with(alloc, join, right, filter)
}

// `join` of kind inner, innerunique, rightouter, rightsemi or rightanti, `where q`, q reads right columns alone: `where` of q with the
// right names at the right plan's end.
#[tactic(auto, using(plan_swaps::proofs::FrontViewSteps::join_steps), unfolding(plan_rules::specs::Rules::join_then_right_filter))]
pub(crate) fn join_then_right_filter(
    alloc: Global,
    tables: &[NamedSchema],
    lets: &[Items<Column>],
    columns: &[Column],
    x: &Op,
    y: &Op,
) -> Result<Option<Ops>, AllocError>
    ensures rule { IfOk result (λ o. o ≡ join_then_right_filter (known_of tables.now lets.now) columns.now x.now y.now) }
{
    let Some(q) = filter_of(y) else {
        return Ok(None);
    };
    match x {
        Op::Where(_) => Ok(None),
        Op::Extend(_) => Ok(None),
        Op::Project(_) => Ok(None),
        Op::Take(_) => Ok(None),
        Op::Count => Ok(None),
        Op::Serialize => Ok(None),
        Op::Sort(_) => Ok(None),
        Op::Top(_, _) => Ok(None),
        Op::Summarize(_) => Ok(None),
        Op::MakeSeries(_) => Ok(None),
        Op::MvExpand(_) => Ok(None),
        Op::Parse(_) => Ok(None),
        Op::Join(join, right) => {
            let made = plan_makes(alloc, right, tables, lets)?;
            over_right(alloc, columns, join, right, q, made.as_slice())
        }
        Op::Union(_, _) => Ok(None),
        Op::Scan(_) => Ok(None),
        Op::Partition(_, _) => Ok(None),
    }
}
