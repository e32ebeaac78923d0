//! How many rows a piece of groups has.
ghost use Rattle.std.specs.Prelude.{◌≡◌, ◌<◌, ◌≤◌, IfOk, IfSome, IsTrue, is_some, max, min};
ghost use Rattle.kql_meaning.specs.FittingOperators.{answer_if, summarize_fits};
ghost use Rattle.kql_meaning.specs.Summarize.{group_columns};
ghost use Rattle.phase_groups.specs.Shares.{rows_wanted};

use kql_bound::GroupPlan;
use kql_values::Table;
use phase_pieces::Sizes;
use std::alloc::{AllocError, Global};
use summarize_op::summarize_rows;

// How many rows are looked at for it.
const FIRST: usize = 4_096;

/// How many rows a piece has: in a small table so many as a piece of other operators, and in a large one, where joining costs most, so many
/// that a worker has about four. None where the first rows of a large table show that keys hardly repeat: then the groups of pieces would be
/// nearly as many as rows, and joining them would take longer than grouping.
#[tactic(auto, using(crate::proofs::ShareSteps::wanted_steps))]
pub(crate) fn rows_of_piece(
    alloc: Global,
    plan: &GroupPlan,
    table: &Table,
    workers: u32,
    sizes: Sizes,
) -> Result<Option<u32>, AllocError>
    requires fits { IsTrue (is_some (answer_if (summarize_fits plan.now table.now.columns) (group_columns plan.now table.now.columns))) }
    requires workers { 0 < workers }
    requires sizes { 0 < sizes.piece_rows }
    ensures some { IfOk result (λ n. IfSome n (λ rows. 0 < rows)) }
    ensures wanted { IfOk result (λ n. n ≡ rows_wanted workers sizes.piece_rows plan.now table.now) }
{
    let count = table.len();
    if count <= 4 * FIRST {
        return Ok(Some(sizes.piece_rows));
    }
    let first = table.slice(alloc, 0, FIRST)?;
    let groups = summarize_rows(alloc, &first, plan)?;
    if groups.len() > FIRST / 2 {
        return Ok(None);
    }
    let share = count / 4 / workers as usize;
    Ok(Some(larger(sizes.piece_rows, share)))
}

// The larger of two numbers of rows, as far as it is a number of a piece.
fn larger(rows: u32, share: usize) -> u32
    ensures least { rows ≤ result }
    ensures larger { result ≡ max rows (min share 4294967295) }
{
    rows.max(share.min(u32::MAX as usize) as u32)
}
