//! The line of an operator and of a source as text.
ghost use Rattle.std.specs.Prelude.{◌≡◌, ◌++◌, codes, OnOk};
ghost use Rattle.std.specs.Fmt.{decimal};
ghost use Rattle.kql_plan_text.specs.Exprs.{expr_text};
ghost use Rattle.kql_plan_text.specs.Operators.{items_text, keys_text, line_text, partition_text, range_text, source_text, top_text};

use crate::write_exprs::write_expr;
use crate::write_literals::{write_count, write_lit, write_name};
use crate::write_parts::{
    write_expand, write_group, write_items, write_join, write_keys, write_parse, write_scan,
    write_series,
};
use kql_bound::{BExpr, BItem, BKey, Lit, Op, Source};
use kql_cells::KText;
use std::alloc::{AllocError, Global};

/// Adds the line of an operator, without the `| ` before it.
pub(crate) fn write_line(alloc: Global, text: &mut KText, op: &Op) -> Result<(), AllocError>
    ensures added { OnOk result (text.new ≡ text.old ++ line_text op.now) }
{
    match op {
        Op::Where(e) => write_where(alloc, text, e),
        Op::Extend(items) => write_worded_items(alloc, text, "extend ", items.as_slice()),
        Op::Project(items) => write_worded_items(alloc, text, "project ", items.as_slice()),
        Op::Take(n) => write_take(text, *n),
        Op::Count => text.push_str("count"),
        Op::Serialize => text.push_str("serialize"),
        Op::Sort(keys) => write_sort(alloc, text, keys.as_slice()),
        Op::Top(n, keys) => write_top(alloc, text, *n, keys.as_slice()),
        Op::Summarize(group) => write_group(alloc, text, group),
        Op::MakeSeries(series) => write_series(alloc, text, series),
        Op::MvExpand(expand) => write_expand(alloc, text, expand),
        Op::Parse(parse) => write_parse(alloc, text, parse),
        Op::Join(join, _) => write_join(alloc, text, join),
        Op::Union(true, _) => text.push_str("union inner ("),
        Op::Union(false, _) => text.push_str("union outer ("),
        Op::Scan(scan) => write_scan(alloc, text, scan),
        Op::Partition(column, _) => write_partition(alloc, text, column.as_str()),
    }
}

/// Adds the line of a source.
pub(crate) fn write_source(
    alloc: Global,
    text: &mut KText,
    source: &Source,
) -> Result<(), AllocError>
    ensures added { OnOk result (text.new ≡ text.old ++ source_text source.now) }
{
    match source {
        Source::Table(name) => write_name(alloc, text, name.as_str()),
        Source::Let(number) => write_let(text, *number),
        Source::Range {
            column,
            from,
            to,
            step,
        } => write_range(alloc, text, column.as_str(), from, to, step),
        Source::Print(items) => write_worded_items(alloc, text, "print ", items.as_slice()),
    }
}

fn write_where(alloc: Global, text: &mut KText, e: &BExpr) -> Result<(), AllocError>
    ensures added { OnOk result (text.new ≡ text.old ++ (codes "where " ++ expr_text e.now)) }
{
    text.push_str("where ")?;
    write_expr(alloc, text, e)
}

// A word with the space behind it, and items.
fn write_worded_items(
    alloc: Global,
    text: &mut KText,
    word: &str,
    items: &[BItem],
) -> Result<(), AllocError>
    ensures added { OnOk result (text.new ≡ text.old ++ (word.now ++ items_text items.now)) }
{
    text.push_str(word)?;
    write_items(alloc, text, items)
}

fn write_take(text: &mut KText, n: u64) -> Result<(), AllocError>
    ensures added { OnOk result (text.new ≡ text.old ++ (codes "take " ++ decimal n)) }
{
    text.push_str("take ")?;
    write_count(text, n)
}

fn write_sort(alloc: Global, text: &mut KText, keys: &[BKey]) -> Result<(), AllocError>
    ensures added { OnOk result (text.new ≡ text.old ++ (codes "sort by " ++ keys_text keys.now)) }
{
    text.push_str("sort by ")?;
    write_keys(alloc, text, keys)
}

#[tactic(auto, unfolding(crate::specs::Operators::top_text))]
fn write_top(alloc: Global, text: &mut KText, n: u64, keys: &[BKey]) -> Result<(), AllocError>
    ensures added { OnOk result (text.new ≡ text.old ++ top_text n keys.now) }
{
    text.push_str("top ")?;
    write_count(text, n)?;
    text.push_str(" by ")?;
    write_keys(alloc, text, keys)
}

#[tactic(auto, unfolding(crate::specs::Operators::partition_text))]
fn write_partition(alloc: Global, text: &mut KText, column: &str) -> Result<(), AllocError>
    ensures added { OnOk result (text.new ≡ text.old ++ partition_text column.now) }
{
    text.push_str("partition by ")?;
    write_name(alloc, text, column)?;
    text.push_str(" (")
}

/// Adds `let#I`.
pub(crate) fn write_let(text: &mut KText, number: usize) -> Result<(), AllocError>
    ensures added { OnOk result (text.new ≡ text.old ++ (codes "let#" ++ decimal number)) }
{
    text.push_str("let#")?;
    write_count(text, number as u64)
}

#[tactic(auto, unfolding(crate::specs::Operators::range_text))]
fn write_range(
    alloc: Global,
    text: &mut KText,
    column: &str,
    from: &Lit,
    to: &Lit,
    step: &Lit,
) -> Result<(), AllocError>
    ensures added { OnOk result (text.new ≡ text.old ++ range_text column.now from.now to.now step.now) }
{
    text.push_str("range ")?;
    write_name(alloc, text, column)?;
    text.push_str(" from ")?;
    write_lit(alloc, text, from)?;
    text.push_str(" to ")?;
    write_lit(alloc, text, to)?;
    text.push_str(" step ")?;
    write_lit(alloc, text, step)
}
