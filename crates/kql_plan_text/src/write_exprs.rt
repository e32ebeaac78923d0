//! Expressions as text.
ghost use Rattle.std.specs.Prelude.{◌≡◌, ◌++◌, OnOk};
ghost use Rattle.kql_plan_text.specs.Exprs.{call_text, chain_end, chain_front, expr_text, path_end, path_front, step_text, with_commas};

use crate::write_literals::{write_lit, write_name};
use kql_bound::{BExpr, Link, StepColumn};
use kql_cells::KText;
use std::alloc::{AllocError, Global};

/// Adds an expression.
#[cycle(write_expr)]
#[tactic(auto, using(crate::proofs::ExprSteps::expr_steps))]
pub(crate) fn write_expr(alloc: Global, text: &mut KText, e: &BExpr) -> Result<(), AllocError>
    ensures added { OnOk result (text.new ≡ text.old ++ expr_text e.now) }
{
    match e {
        BExpr::Literal(lit) => write_lit(alloc, text, lit),
        BExpr::Column(name) => write_name(alloc, text, name.as_str()),
        BExpr::Step(column) => write_step_column(alloc, text, column),
        BExpr::Call(f, args) => write_call(alloc, text, f.name(), args.as_slice()),
        BExpr::Chain(first, links) => {
            write_chain_front(text, links.as_slice())?;
            write_expr(alloc, text, first.get())?;
            write_chain_end(alloc, text, links.as_slice())
        }
        BExpr::Path(whole, steps) => {
            write_path_front(text, steps.as_slice())?;
            write_expr(alloc, text, whole.get())?;
            write_path_end(alloc, text, steps.as_slice())
        }
        BExpr::Window(f, args) => write_call(alloc, text, f.name(), args.as_slice()),
        BExpr::Aggregate(f, args) => write_call(alloc, text, f.name(), args.as_slice()),
    }
}

#[cycle(write_expr)]
#[tactic(auto, unfolding(crate::specs::Exprs::call_text))]
fn write_call(alloc: Global, text: &mut KText, name: &str, args: &[BExpr]) -> Result<(), AllocError>
    ensures added { OnOk result (text.new ≡ text.old ++ call_text name.now (with_commas expr_text args.now)) }
{
    text.push_str(name)?;
    text.push_str("(")?;
    write_args(alloc, text, args)?;
    text.push_str(")")
}

#[cycle(write_expr)]
fn write_args(alloc: Global, text: &mut KText, args: &[BExpr]) -> Result<(), AllocError>
    ensures added { OnOk result (text.new ≡ text.old ++ with_commas expr_text args.now) }
{
    match args {
        [] => Ok(()),
        [first, others @ ..] => {
            write_expr(alloc, text, first)?;
            for e in others {
                text.push_str(",")?;
                write_expr(alloc, text, e)?;
            }
            Ok(())
        }
    }
}

#[cycle(write_expr)]
fn write_chain_end(alloc: Global, text: &mut KText, links: &[Link]) -> Result<(), AllocError>
    ensures added { OnOk result (text.new ≡ text.old ++ chain_end links.now) }
{
    for link in links {
        text.push_str(",")?;
        write_expr(alloc, text, &link.1)?;
        text.push_str(")")?;
    }
    Ok(())
}

#[cycle(write_expr)]
fn write_path_end(alloc: Global, text: &mut KText, steps: &[BExpr]) -> Result<(), AllocError>
    ensures added { OnOk result (text.new ≡ text.old ++ path_end steps.now) }
{
    for step in steps {
        text.push_str(",")?;
        write_expr(alloc, text, step)?;
        text.push_str(")")?;
    }
    Ok(())
}

// The last sign of a chain comes first.
fn write_chain_front(text: &mut KText, links: &[Link]) -> Result<(), AllocError>
    ensures added { OnOk result (text.new ≡ text.old ++ chain_front links.now) }
{
    let mut left = links.len();
    while left > 0 {
        left -= 1;
        text.push_str(links[left].0.func().name())?;
        text.push_str("(")?;
    }
    Ok(())
}

fn write_path_front(text: &mut KText, steps: &[BExpr]) -> Result<(), AllocError>
    ensures added { OnOk result (text.new ≡ text.old ++ path_front steps.now) }
{
    for _step in steps {
        text.push_str("at(")?;
    }
    Ok(())
}

#[tactic(auto, unfolding(crate::specs::Exprs::step_text))]
fn write_step_column(alloc: Global, text: &mut KText, column: &StepColumn) -> Result<(), AllocError>
    ensures added { OnOk result (text.new ≡ text.old ++ step_text column.now) }
{
    write_name(alloc, text, column.step.as_str())?;
    text.push_str(".")?;
    write_name(alloc, text, column.column.as_str())
}
