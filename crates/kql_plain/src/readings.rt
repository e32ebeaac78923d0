//! Which lets plans name, and where a let is read for the last time.
ghost use Rattle.std.specs.Prelude.{◌≡◌, ◌==◌, ◌||◌, ◌∷◌, ◌++◌, ℕ, [], length, not, reverse, IfOk};
ghost use Rattle.kql_plain.specs.Marks.{is_marked};
ghost use Rattle.kql_plain.specs.Readings.{is_let_not, last_readings, op_names, ops_name, plan_names, plans_name, source_names};

use kql_bound::{Op, Plan, Source};
use kql_items::Items;
use std::alloc::{AllocError, Global};

/// Of each plan of a program, its lets and then its main plan, whether its source is the last reading of a let: neither its own operators nor the
/// plans behind it name that let. The last plan comes first, so that `pop` tells of one plan after another. It takes one pass over the program.
pub fn last_readings(alloc: Global, lets: &[Plan], main: &Plan) -> Result<Items<bool>, AllocError>
    ensures last { IfOk result (λ flags. reverse flags ≡ last_readings (length lets.now) (lets.now ++ main.now ∷ [])) }
{
    let mut named = vec![in alloc; false; lets.len()]?;
    let mut last = Items::new(alloc);
    let is_last = mark_plan(main, &mut named);
    last.push(is_last)?;
    let mut left = lets.len();
    'lets: while left > 0 {
        left -= 1;
        let is_last = mark_plan(&lets[left], &mut named);
        last.push(is_last)?;
    }
    Ok(last)
}

// Marks the lets that a plan names. Whether its source is a let that was not marked before, and that its operators do not name.
#[cycle(mark_plan)]
fn mark_plan(plan: &Plan, named: &mut [bool]) -> bool
    ensures marked { (i : ℕ) → is_marked named.new i ≡ (is_marked named.old i || plan_names i plan.now) }
    ensures last { result ≡ is_let_not (λ i. is_marked named.old i || ops_name i plan.now.ops) plan.now.source }
{
    mark_ops(plan.ops.as_slice(), named);
    mark_source(&plan.source, named)
}

// Marks the lets that plans name.
#[cycle(mark_plan)]
fn mark_plans(plans: &[Plan], named: &mut [bool])
    ensures marked { (i : ℕ) → is_marked named.new i ≡ (is_marked named.old i || plans_name i plans.now) }
{
    for plan in plans {
        mark_plan(plan, named);
    }
}

// Marks the lets that operators name.
#[cycle(mark_plan)]
fn mark_ops(ops: &[Op], named: &mut [bool])
    ensures marked { (i : ℕ) → is_marked named.new i ≡ (is_marked named.old i || ops_name i ops.now) }
{
    for op in ops {
        mark_op(op, named);
    }
}

// Marks the lets that an operator names: those of the plans and operators in it.
#[cycle(mark_plan)]
#[tactic(auto, using(crate::proofs::ReadingSteps::op_steps))]
fn mark_op(op: &Op, named: &mut [bool])
    ensures marked { (i : ℕ) → is_marked named.new i ≡ (is_marked named.old i || op_names i op.now) }
{
    match op {
        Op::Where(_) => {}
        Op::Extend(_) => {}
        Op::Project(_) => {}
        Op::Take(_) => {}
        Op::Count => {}
        Op::Serialize => {}
        Op::Sort(_) => {}
        Op::Top(_, _) => {}
        Op::Summarize(_) => {}
        Op::MakeSeries(_) => {}
        Op::MvExpand(_) => {}
        Op::Parse(_) => {}
        Op::Join(_, right) => {
            mark_plan(right, named);
        }
        Op::Union(_, others) => mark_plans(others.as_slice(), named),
        Op::Scan(_) => {}
        Op::Partition(_, ops) => mark_ops(ops.as_slice(), named),
    }
}

// Marks the let that a source is, if it is one. Whether it is, and was not marked before.
#[tactic(auto, using(crate::proofs::ReadingSteps::mark_steps), unfolding(crate::specs::Readings::source_names, crate::specs::Readings::is_let_not))]
fn mark_source(source: &Source, named: &mut [bool]) -> bool
    ensures marked { (i : ℕ) → is_marked named.new i ≡ (is_marked named.old i || source_names i source.now) }
    ensures last { result ≡ is_let_not (is_marked named.old) source.now }
{
    match source {
        Source::Table(_) => false,
        Source::Let(at) => mark(*at, named),
        Source::Range { .. } => false,
        Source::Print(_) => false,
    }
}

// Marks the let of a number. Whether it is one of those that can be marked, and was not.
#[tactic(auto, using(crate::proofs::ReadingSteps::mark_steps))]
fn mark(at: usize, named: &mut [bool]) -> bool
    ensures marked { (i : ℕ) → is_marked named.new i ≡ (is_marked named.old i || at == i) }
    ensures last { result ≡ not (is_marked named.old at) }
{
    if at < named.len() {
        let is_new = !named[at];
        named[at] = true;
        is_new
    } else {
        false
    }
}
