//! Which operators hold a plan.
ghost use Rattle.std.specs.Prelude.{◌≡◌};
ghost use Rattle.phase_forms.specs.Held.{holds_plan};

use kql_bound::Op;

/// Whether an operator holds a plan.
#[tactic(auto, using(crate::proofs::HeldLaws::held_steps))]
pub fn holds_plan(op: &Op) -> bool
    ensures holds { result ≡ holds_plan op.now }
{
    match op {
        Op::Where(_) => false,
        Op::Extend(_) => false,
        Op::Project(_) => false,
        Op::Take(_) => false,
        Op::Count => false,
        Op::Serialize => false,
        Op::Sort(_) => false,
        Op::Top(_, _) => false,
        Op::Summarize(_) => false,
        Op::MakeSeries(_) => false,
        Op::MvExpand(_) => false,
        Op::Parse(_) => false,
        Op::Join(_, _) => true,
        Op::Union(_, _) => true,
        Op::Scan(_) => false,
        Op::Partition(_, _) => false,
    }
}
