//! A table in two pieces, of which the groups of the first are kept.
ghost use Rattle.std.specs.Prelude.{◌≡◌, ◌≤◌, IfOk, IsTrue, is_some, length};
ghost use Rattle.kql_meaning.specs.FittingOperators.{answer_if, summarize_fits};
ghost use Rattle.kql_meaning.specs.Summarize.{group_columns, summarize_table};
ghost use Rattle.summarize_pieces.specs.Pieces.{AreGroupsOf, piece_of};

use kql_bound::GroupPlan;
use kql_values::Table;
use std::alloc::{AllocError, Global};
use summarize_pieces::{OwnGroups, PieceRows, finish_groups, group_piece, join_groups, piece_rows};

/// The table of the groups of a table that is cut before a row: what `summarize` gives for all rows.
pub(crate) fn in_two_pieces(
    alloc: Global,
    t: &Table,
    g: &GroupPlan,
    middle: usize,
) -> Result<Table, AllocError>
    requires fits { IsTrue (is_some (answer_if (summarize_fits g.now t.now.columns) (group_columns g.now t.now.columns))) }
    requires within { middle ≤ length t.now.lines }
    ensures whole { IfOk result (λ r. r ≡ summarize_table g.now t.now) }
{
    let count = t.len();
    let _columns = t.schema().columns();
    let kept = kept_groups(alloc, t, g, middle)?;
    let second = piece_rows(alloc, t, g, middle, count)?;
    finished(alloc, t, g, middle, &kept, &second)
}

// The groups of the first rows, kept when what was read of these is gone.
fn kept_groups(
    alloc: Global,
    t: &Table,
    g: &GroupPlan,
    middle: usize,
) -> Result<OwnGroups, AllocError>
    requires fits { IsTrue (is_some (answer_if (summarize_fits g.now t.now.columns) (group_columns g.now t.now.columns))) }
    requires within { middle ≤ length t.now.lines }
    ensures groups { IfOk result (AreGroupsOf g.now t.now 0 middle) }
{
    let first = piece_rows(alloc, t, g, 0, middle)?;
    let groups = group_piece(alloc, &first)?;
    let kept = groups.own(alloc)?;
    Ok(kept)
}

// The table of two pieces.
fn finished(
    alloc: Global,
    t: &Table,
    g: &GroupPlan,
    middle: usize,
    kept: &OwnGroups,
    second: &PieceRows,
) -> Result<Table, AllocError>
    requires fits { IsTrue (is_some (answer_if (summarize_fits g.now t.now.columns) (group_columns g.now t.now.columns))) }
    requires within { middle ≤ length t.now.lines }
    requires kept { AreGroupsOf g.now t.now 0 middle kept.now }
    requires second { second.now ≡ piece_of g.now t.now middle (length t.now.lines) }
    ensures whole { IfOk result (λ r. r ≡ summarize_table g.now t.now) }
{
    let _count = t.len();
    let _columns = t.schema().columns();
    let a = kept.lend(alloc)?;
    let b = group_piece(alloc, second)?;
    let both = join_groups(alloc, a, b)?;
    finish_groups(alloc, both, g, t.schema())
}
