//! Plans and programs as text.
ghost use Rattle.std.specs.Prelude.{◌≡◌, ◌∷◌, ◌++◌, [], codes, map, IfOk, OnOk};
ghost use Rattle.std.specs.List.{flat_map, join_by};
ghost use Rattle.kql_plan_text.specs.Operators.{line_text, scan_step_text, source_text};
ghost use Rattle.kql_plan_text.specs.Plans.{between_brackets, in_brackets, let_line, let_lines, lets_lines, op_lines, plan_lines, plan_text, text_of, within_lines};

use crate::write_operators::{write_let, write_line, write_source};
use crate::write_parts::write_scan_step;
use kql_bound::{Op, Plan, Program, ScanStep, Source};
use kql_cells::KText;
use std::alloc::{AllocError, Global};

/// The text of a program: a line for the source and one for each operator, which begins with `| `, of each table let
/// and then of the plan of the answer. What an operator has within brackets stands two spaces further in.
///
/// Each line ends with a line feed.
#[tactic(auto, using(crate::proofs::PlanSteps::lines_of_program), unfolding(crate::specs::Plans::plan_text))]
pub fn plan_text(alloc: Global, p: &Program) -> Result<KText, AllocError>
    ensures text { IfOk result (λ t. t ≡ plan_text p.now) }
{
    let mut text = KText::new(alloc);
    write_lets(alloc, &mut text, p.lets.as_slice())?;
    write_plan(alloc, &mut text, "", &p.main)?;
    Ok(text)
}

// Lets, numbered from 0.
fn write_lets(alloc: Global, text: &mut KText, lets: &[Plan]) -> Result<(), AllocError>
    ensures added { OnOk result (text.new ≡ text.old ++ text_of [] (lets_lines 0 lets.now)) }
{
    for number in 0..lets.len() {
        write_let_plan(alloc, text, number, &lets[number])?;
    }
    Ok(())
}

#[tactic(auto, using(crate::proofs::PlanSteps::lines_of_let))]
fn write_let_plan(
    alloc: Global,
    text: &mut KText,
    number: usize,
    plan: &Plan,
) -> Result<(), AllocError>
    ensures added { OnOk result (text.new ≡ text.old ++ text_of [] (let_lines number plan.now)) }
{
    write_let_line(text, number)?;
    write_inner_plan(alloc, text, "", plan)
}

#[tactic(auto, unfolding(crate::specs::Plans::let_line, crate::specs::Plans::text_of))]
fn write_let_line(text: &mut KText, number: usize) -> Result<(), AllocError>
    ensures added { OnOk result (text.new ≡ text.old ++ text_of [] (let_line number ∷ [])) }
{
    write_let(text, number)?;
    text.push_str(" = (\n")
}

// The lines of a plan behind a margin.
#[cycle(write_plan)]
#[tactic(auto, using(crate::proofs::PlanSteps::lines_of_plan))]
fn write_plan(alloc: Global, text: &mut KText, margin: &str, plan: &Plan) -> Result<(), AllocError>
    ensures added { OnOk result (text.new ≡ text.old ++ text_of margin.now (plan_lines plan.now)) }
{
    write_source_line(alloc, text, margin, &plan.source)?;
    write_ops(alloc, text, margin, plan.ops.as_slice())
}

#[cycle(write_plan)]
fn write_ops(alloc: Global, text: &mut KText, margin: &str, ops: &[Op]) -> Result<(), AllocError>
    ensures added { OnOk result (text.new ≡ text.old ++ text_of margin.now (flat_map op_lines ops.now)) }
{
    for op in ops {
        write_op(alloc, text, margin, op)?;
    }
    Ok(())
}

#[cycle(write_plan)]
#[tactic(auto, using(crate::proofs::PlanSteps::lines_of_op))]
fn write_op(alloc: Global, text: &mut KText, margin: &str, op: &Op) -> Result<(), AllocError>
    ensures added { OnOk result (text.new ≡ text.old ++ text_of margin.now (op_lines op.now)) }
{
    write_op_line(alloc, text, margin, op)?;
    write_within(alloc, text, margin, op)
}

// What follows the line of an operator.
#[cycle(write_plan)]
#[tactic(auto, using(crate::proofs::PlanSteps::no_lines))]
fn write_within(alloc: Global, text: &mut KText, margin: &str, op: &Op) -> Result<(), AllocError>
    ensures added { OnOk result (text.new ≡ text.old ++ text_of margin.now (within_lines op.now)) }
{
    match op {
        Op::Where(_) => Ok(()),
        Op::Extend(_) => Ok(()),
        Op::Project(_) => Ok(()),
        Op::Take(_) => Ok(()),
        Op::Count => Ok(()),
        Op::Serialize => Ok(()),
        Op::Sort(_) => Ok(()),
        Op::Top(_, _) => Ok(()),
        Op::Summarize(_) => Ok(()),
        Op::MakeSeries(_) => Ok(()),
        Op::MvExpand(_) => Ok(()),
        Op::Parse(_) => Ok(()),
        Op::Join(_, right) => write_inner_plan(alloc, text, margin, right),
        Op::Union(_, others) => write_inner_plans(alloc, text, margin, others.as_slice()),
        Op::Scan(scan) => write_inner_steps(alloc, text, margin, scan.steps.as_slice()),
        Op::Partition(_, ops) => write_inner_ops(alloc, text, margin, ops.as_slice()),
    }
}

#[cycle(write_plan)]
#[tactic(auto, using(crate::proofs::PlanSteps::lines_in_brackets))]
fn write_inner_plan(
    alloc: Global,
    text: &mut KText,
    margin: &str,
    plan: &Plan,
) -> Result<(), AllocError>
    ensures added { OnOk result (text.new ≡ text.old ++ text_of margin.now (in_brackets (plan_lines plan.now))) }
{
    let further = further(alloc, margin)?;
    write_plan(alloc, text, further.as_str(), plan)?;
    write_bracket(text, margin, ")")
}

#[cycle(write_plan)]
#[tactic(auto, using(crate::proofs::PlanSteps::lines_in_brackets))]
fn write_inner_ops(
    alloc: Global,
    text: &mut KText,
    margin: &str,
    ops: &[Op],
) -> Result<(), AllocError>
    ensures added { OnOk result (text.new ≡ text.old ++ text_of margin.now (in_brackets (flat_map op_lines ops.now))) }
{
    let further = further(alloc, margin)?;
    write_ops(alloc, text, further.as_str(), ops)?;
    write_bracket(text, margin, ")")
}

#[cycle(write_plan)]
#[tactic(auto, using(crate::proofs::PlanSteps::lines_between_brackets))]
fn write_inner_plans(
    alloc: Global,
    text: &mut KText,
    margin: &str,
    plans: &[Plan],
) -> Result<(), AllocError>
    ensures added { OnOk result (text.new ≡ text.old ++ text_of margin.now (between_brackets plan_lines plans.now)) }
{
    let further = further(alloc, margin)?;
    write_plans(alloc, text, margin, further.as_str(), plans)?;
    write_bracket(text, margin, ")")
}

// Plans with a line of brackets between each two.
#[cycle(write_plan)]
fn write_plans(
    alloc: Global,
    text: &mut KText,
    margin: &str,
    further: &str,
    plans: &[Plan],
) -> Result<(), AllocError>
    ensures added { OnOk result (text.new ≡ text.old ++ join_by (λ p. text_of further.now (plan_lines p)) (text_of margin.now (codes ") (" ∷ [])) plans.now) }
{
    match plans {
        [] => Ok(()),
        [first, others @ ..] => {
            write_plan(alloc, text, further, first)?;
            for plan in others {
                write_bracket(text, margin, ") (")?;
                write_plan(alloc, text, further, plan)?;
            }
            Ok(())
        }
    }
}

#[tactic(auto, using(crate::proofs::PlanSteps::lines_in_brackets))]
fn write_inner_steps(
    alloc: Global,
    text: &mut KText,
    margin: &str,
    steps: &[ScanStep],
) -> Result<(), AllocError>
    ensures added { OnOk result (text.new ≡ text.old ++ text_of margin.now (in_brackets (map scan_step_text steps.now))) }
{
    let further = further(alloc, margin)?;
    write_steps(alloc, text, further.as_str(), steps)?;
    write_bracket(text, margin, ")")
}

fn write_steps(
    alloc: Global,
    text: &mut KText,
    margin: &str,
    steps: &[ScanStep],
) -> Result<(), AllocError>
    ensures added { OnOk result (text.new ≡ text.old ++ text_of margin.now (map scan_step_text steps.now)) }
{
    for step in steps {
        write_step_line(alloc, text, margin, step)?;
    }
    Ok(())
}

#[tactic(auto, unfolding(crate::specs::Plans::text_of))]
fn write_step_line(
    alloc: Global,
    text: &mut KText,
    margin: &str,
    step: &ScanStep,
) -> Result<(), AllocError>
    ensures added { OnOk result (text.new ≡ text.old ++ text_of margin.now (scan_step_text step.now ∷ [])) }
{
    text.push_str(margin)?;
    write_scan_step(alloc, text, step)?;
    text.push_str("\n")
}

#[tactic(auto, unfolding(crate::specs::Plans::text_of))]
fn write_source_line(
    alloc: Global,
    text: &mut KText,
    margin: &str,
    source: &Source,
) -> Result<(), AllocError>
    ensures added { OnOk result (text.new ≡ text.old ++ text_of margin.now (source_text source.now ∷ [])) }
{
    text.push_str(margin)?;
    write_source(alloc, text, source)?;
    text.push_str("\n")
}

#[tactic(auto, unfolding(crate::specs::Plans::text_of))]
fn write_op_line(alloc: Global, text: &mut KText, margin: &str, op: &Op) -> Result<(), AllocError>
    ensures added { OnOk result (text.new ≡ text.old ++ text_of margin.now ((codes "| " ++ line_text op.now) ∷ [])) }
{
    text.push_str(margin)?;
    text.push_str("| ")?;
    write_line(alloc, text, op)?;
    text.push_str("\n")
}

// A line that is a bracket.
#[tactic(auto, unfolding(crate::specs::Plans::text_of))]
fn write_bracket(text: &mut KText, margin: &str, bracket: &str) -> Result<(), AllocError>
    ensures added { OnOk result (text.new ≡ text.old ++ text_of margin.now (bracket.now ∷ [])) }
{
    text.push_str(margin)?;
    text.push_str(bracket)?;
    text.push_str("\n")
}

// The margin two spaces further in.
fn further(alloc: Global, margin: &str) -> Result<KText, AllocError>
    ensures two { IfOk result (λ t. t ≡ margin.now ++ codes "  ") }
{
    let mut further = KText::from_str(alloc, margin)?;
    further.push_str("  ")?;
    Ok(further)
}
