//! Window functions by ranges of rows: the carry of a range, and its rows from the carries of the rows before it.
ghost use Rattle.std.specs.Prelude.{◌≡◌, ◌≤◌, IfOk, IsTrue, length, slice_range};
ghost use Rattle.kql_meaning.specs.declared.position.Position.TheVariants as position;
ghost use Rattle.kql_meaning.specs.FittingOperators.{items_fit};
ghost use Rattle.kql_meaning.specs.Project.{project_table};
ghost use Rattle.window_ops.specs.Calls.{calls_of_items, carries_of, carry_of};
ghost use Rattle.window_ops.specs.Fitting.{AllFitRows};

use crate::carries::{Carries, Carry};
use crate::items::values_of_items;
use crate::sums::{carry_of_call, push_carries};
use kql_bound::{BItem, WinCall};
use kql_values::{Rows, Table};
use std::alloc::{AllocError, Global};

/// The carry of the rows `from..to` for a call of `row_cumsum` or `row_number`: whether the restart is true at one of them, the sum of
/// the term over the rows from the last such one on, or over all of them where there is none, and how many rows these are. `row_number`
/// has no term, and its sum is 0.
#[tactic(auto, using(crate::proofs::PieceSteps::call_steps))]
pub fn sum_piece(
    alloc: Global,
    t: &Table,
    from: usize,
    to: usize,
    w: &WinCall,
) -> Result<Carry, AllocError>
    requires fits { AllFitRows t.now.columns w.now.args }
    requires order { from ≤ to }
    requires range { to ≤ length t.now.lines }
    ensures carry { IfOk result (λ c. c ≡ carry_of w.now t.now from to) }
{
    let made = carry_of_call(alloc, w.name.as_str(), w.args.as_slice(), t, from, to)?;
    Ok(made)
}

/// The same for each `row_cumsum` and `row_number` of the items, in the order in which they stand there from left to right.
#[tactic(auto, using(crate::proofs::ItemSteps::fitting_steps, crate::proofs::SumSteps::items_steps))]
pub fn sum_pieces(
    alloc: Global,
    t: &Table,
    from: usize,
    to: usize,
    items: &[BItem],
) -> Result<Carries, AllocError>
    requires fits { IsTrue (items_fit items.now t.now.columns position.Window) }
    requires order { from ≤ to }
    requires range { to ≤ length t.now.lines }
    ensures carries { IfOk result (λ cs. cs ≡ carries_of (calls_of_items items.now) t.now from to) }
{
    let mut carries = Carries::new(alloc);
    'items: for item in items {
        push_carries(alloc, &item.expr, t, from, to, &mut carries)?;
    }
    Ok(carries)
}

/// The rows `from..to` of what `window_rows` gives, from the carries of the rows before them: one for each `row_cumsum` and
/// `row_number` of the items, in the order in which they stand there from left to right. `prev` and `next` read the whole table.
#[tactic(auto, using(crate::proofs::FillSteps::fill_steps))]
pub fn fill_piece(
    alloc: Global,
    t: &Table,
    from: usize,
    to: usize,
    items: &[BItem],
    carries: &[Carry],
) -> Result<Rows, AllocError>
    requires fits { IsTrue (items_fit items.now t.now.columns position.Window) }
    requires order { from ≤ to }
    requires range { to ≤ length t.now.lines }
    requires carries { carries.now ≡ carries_of (calls_of_items items.now) t.now 0 from }
    ensures rows { IfOk result (λ r. r ≡ slice_range (project_table items.now t.now).lines from to) }
{
    let _rows = t.len();
    let count = to - from;
    let vectors = values_of_items(alloc, t, items, from, count, carries)?;
    let rows = Rows::from_columns(alloc, count, vectors);
    Ok(rows)
}
