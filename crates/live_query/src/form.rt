//! Which programs a view can keep.
ghost use Rattle.std.specs.Prelude.{◌≡◌};
ghost use Rattle.std.specs.Option.{option_copied};
ghost use Rattle.live_query.specs.ViewForm.{is_view, one_group, over_table, view_of};

use kql_bound::{GroupPlan, Op, Plan, Program, Source};
use plan_swaps::group_of_op;

/// Whether a view can keep a program: it is one `summarize` over a table, of which `distinct` is one, without a table let.
pub fn is_view(program: &Program) -> bool
    ensures view { result ≡ is_view program.now }
{
    view_of(program).is_some()
}

/// What the one `summarize` of such a program takes.
#[tactic(auto, unfolding(crate::specs::ViewForm::view_of))]
pub(crate) fn view_of(program: &Program) -> Option<&GroupPlan>
    ensures group { option_copied result ≡ view_of program.now }
{
    match program.lets.as_slice() {
        [] => over_table(&program.main),
        [_, ..] => None,
    }
}

fn over_table(plan: &Plan) -> Option<&GroupPlan>
    ensures group { option_copied result ≡ over_table plan.now.source (one_group plan.now.ops) }
{
    match &plan.source {
        Source::Table(_) => one_group(plan.ops.as_slice()),
        Source::Let(_) => None,
        Source::Range { .. } => None,
        Source::Print(_) => None,
    }
}

fn one_group(ops: &[Op]) -> Option<&GroupPlan>
    ensures group { option_copied result ≡ one_group ops.now }
{
    match ops {
        [] => None,
        [op] => group_of_op(op),
        [_, _, ..] => None,
    }
}
