//! Operators without tables in them.
ghost use Rattle.bind_expr.specs.Outcome.{Answers};
ghost use Rattle.bind_query.specs.Operators.{column_op_bound, group_op_bound, row_op_bound};

use bind_expr::BindFault;
use bind_groups::{bind_distinct, bind_make_series, bind_mv_expand, bind_parse, bind_summarize};
use bind_operators::{
    BoundOp, Known, Shape, apart, bind_count, bind_extend, bind_project, bind_project_away,
    bind_project_keep, bind_project_rename, bind_serialize, bind_sort, bind_take, bind_top,
    bind_where, or_lost,
};
use kql_syntax::{ColumnOp, GroupOp, RowOp};
use std::alloc::Global;

/// An operator over columns.
#[tactic(auto, unfolding(crate::specs::Operators::column_op_bound))]
pub(crate) fn bind_column_op(
    alloc: Global,
    op: &ColumnOp,
    known: &Known,
    rows: Shape,
) -> Result<BoundOp, BindFault>
    ensures exact { Answers result (column_op_bound op.now known.now rows) }
{
    match op {
        ColumnOp::Where(_, e) => bind_where(alloc, e, known, rows),
        ColumnOp::Extend(operator, items) => {
            bind_extend(alloc, *operator, items.as_slice(), known, rows)
        }
        ColumnOp::Project(operator, items) => {
            bind_project(
                alloc,
                *operator,
                items.as_slice(),
                known,
                apart(alloc, rows),
            )
        }
        ColumnOp::Serialize(operator, items) => {
            bind_serialize(alloc, *operator, items.as_slice(), known, rows)
        }
        ColumnOp::ProjectAway(operator, names) => {
            bind_project_away(alloc, *operator, names.as_slice(), known, rows)
        }
        ColumnOp::ProjectKeep(operator, names) => {
            bind_project_keep(alloc, *operator, names.as_slice(), known, rows)
        }
        ColumnOp::ProjectRename(operator, renames) => {
            bind_project_rename(alloc, *operator, renames.as_slice(), known, rows)
        }
    }
}

/// An operator that chooses or orders rows.
#[tactic(auto, unfolding(crate::specs::Operators::row_op_bound))]
pub(crate) fn bind_row_op(
    alloc: Global,
    op: &RowOp,
    known: &Known,
    rows: Shape,
) -> Result<BoundOp, BindFault>
    ensures exact { Answers result (row_op_bound op.now known.now rows) }
{
    match op {
        RowOp::Take(operator, e) => bind_take(alloc, *operator, e, known, rows),
        RowOp::Limit(operator, e) => bind_take(alloc, *operator, e, known, rows),
        RowOp::Count(_) => or_lost(bind_count(alloc)),
        RowOp::Sort(_, keys) => bind_sort(alloc, keys.as_slice(), known, rows),
        RowOp::Order(_, keys) => bind_sort(alloc, keys.as_slice(), known, rows),
        RowOp::Top(operator, top) => {
            bind_top(alloc, *operator, &top.get().0, &top.get().1, known, rows)
        }
        RowOp::Distinct(operator, columns) => bind_distinct(alloc, *operator, columns, known, rows),
    }
}

/// An operator over groups of rows, or over parts of cells.
#[tactic(auto, unfolding(crate::specs::Operators::group_op_bound))]
pub(crate) fn bind_group_op(
    alloc: Global,
    op: &GroupOp,
    known: &Known,
    rows: Shape,
) -> Result<BoundOp, BindFault>
    ensures exact { Answers result (group_op_bound op.now known.now rows) }
{
    match op {
        GroupOp::Summarize(operator, groups) => {
            bind_summarize(alloc, *operator, groups, known, rows)
        }
        GroupOp::MakeSeries(operator, series) => {
            bind_make_series(alloc, *operator, series.get(), known, rows)
        }
        GroupOp::MvExpand(operator, kind, items) => {
            bind_mv_expand(alloc, *operator, *kind, items.as_slice(), known, rows)
        }
        GroupOp::Parse(operator, kind, text, pattern) => {
            bind_parse(
                alloc,
                *operator,
                *kind,
                text,
                pattern.as_slice(),
                known,
                rows,
            )
        }
    }
}
