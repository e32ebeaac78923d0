//! The parts of operators as text.
ghost use Rattle.std.specs.Prelude.{◌≡◌, ◌++◌, codes, OnOk};
ghost use Rattle.std.specs.List.{join_by};
ghost use Rattle.kql_plan_text.specs.Exprs.{with_commas};
ghost use Rattle.kql_plan_text.specs.Literals.{name_text};
ghost use Rattle.kql_plan_text.specs.Operators.{bins_text, by_text, decl_text, declare_text, direction_text, expand_item_text, expand_text, expand_word, group_text, item_text, join_text, key_text, match_text, nulls_text, on_text, parse_text, parse_word, pattern_text, scan_step_text, scan_text, series_item_text, series_text, sets_text, spaced_items};

use crate::words::{join_word, kind_word, output_word};
use crate::write_exprs::write_expr;
use crate::write_literals::{write_lit, write_name, write_string};
use kql_bound::{
    BItem, BKey, Decl, Expand, ExpandItem, GroupPlan, JoinPlan, OnPair, ParsePlan, PatItem,
    ScanPlan, ScanStep, SeriesItem, SeriesPlan,
};
use kql_cells::KText;
use std::alloc::{AllocError, Global};

#[tactic(auto, unfolding(crate::specs::Operators::item_text))]
fn write_item(alloc: Global, text: &mut KText, item: &BItem) -> Result<(), AllocError>
    ensures added { OnOk result (text.new ≡ text.old ++ item_text item.now) }
{
    write_names(alloc, text, item.names.as_slice())?;
    text.push_str("=")?;
    write_expr(alloc, text, &item.expr)
}

fn write_names(alloc: Global, text: &mut KText, names: &[KText]) -> Result<(), AllocError>
    ensures added { OnOk result (text.new ≡ text.old ++ join_by name_text (codes ";") names.now) }
{
    match names {
        [] => Ok(()),
        [first, others @ ..] => {
            write_name(alloc, text, first.as_str())?;
            for name in others {
                text.push_str(";")?;
                write_name(alloc, text, name.as_str())?;
            }
            Ok(())
        }
    }
}

/// Adds items with commas between them.
pub(crate) fn write_items(
    alloc: Global,
    text: &mut KText,
    items: &[BItem],
) -> Result<(), AllocError>
    ensures added { OnOk result (text.new ≡ text.old ++ with_commas item_text items.now) }
{
    match items {
        [] => Ok(()),
        [first, others @ ..] => {
            write_item(alloc, text, first)?;
            for item in others {
                text.push_str(",")?;
                write_item(alloc, text, item)?;
            }
            Ok(())
        }
    }
}

#[tactic(auto, unfolding(crate::specs::Operators::spaced_items))]
fn write_spaced_items(alloc: Global, text: &mut KText, items: &[BItem]) -> Result<(), AllocError>
    ensures added { OnOk result (text.new ≡ text.old ++ spaced_items items.now) }
{
    match items {
        [] => Ok(()),
        _ => {
            text.push_str(" ")?;
            write_items(alloc, text, items)
        }
    }
}

#[tactic(auto, unfolding(crate::specs::Operators::by_text))]
fn write_by(alloc: Global, text: &mut KText, keys: &[BItem]) -> Result<(), AllocError>
    ensures added { OnOk result (text.new ≡ text.old ++ by_text keys.now) }
{
    match keys {
        [] => Ok(()),
        _ => {
            text.push_str(" by ")?;
            write_items(alloc, text, keys)
        }
    }
}

#[tactic(auto, unfolding(crate::specs::Operators::key_text))]
fn write_key(alloc: Global, text: &mut KText, key: &BKey) -> Result<(), AllocError>
    ensures added { OnOk result (text.new ≡ text.old ++ key_text key.now) }
{
    write_expr(alloc, text, &key.expr)?;
    text.push_str(direction(key.asc))?;
    text.push_str(nulls(key.nulls_first))
}

fn direction(asc: bool) -> &'static str
    ensures word { result.now ≡ direction_text asc }
{
    if asc { " asc" } else { " desc" }
}

fn nulls(first: bool) -> &'static str
    ensures word { result.now ≡ nulls_text first }
{
    if first { " nulls first" } else { " nulls last" }
}

/// Adds the keys of an order.
pub(crate) fn write_keys(alloc: Global, text: &mut KText, keys: &[BKey]) -> Result<(), AllocError>
    ensures added { OnOk result (text.new ≡ text.old ++ with_commas key_text keys.now) }
{
    match keys {
        [] => Ok(()),
        [first, others @ ..] => {
            write_key(alloc, text, first)?;
            for key in others {
                text.push_str(",")?;
                write_key(alloc, text, key)?;
            }
            Ok(())
        }
    }
}

/// Adds the line of `summarize`.
#[tactic(auto, unfolding(crate::specs::Operators::group_text))]
pub(crate) fn write_group(
    alloc: Global,
    text: &mut KText,
    group: &GroupPlan,
) -> Result<(), AllocError>
    ensures added { OnOk result (text.new ≡ text.old ++ group_text group.now) }
{
    text.push_str("summarize")?;
    write_spaced_items(alloc, text, group.items.as_slice())?;
    write_by(alloc, text, group.keys.as_slice())
}

#[tactic(auto, unfolding(crate::specs::Operators::series_item_text))]
fn write_series_item(alloc: Global, text: &mut KText, item: &SeriesItem) -> Result<(), AllocError>
    ensures added { OnOk result (text.new ≡ text.old ++ series_item_text item.now) }
{
    write_name(alloc, text, item.name.as_str())?;
    text.push_str("=")?;
    write_expr(alloc, text, &item.expr)?;
    text.push_str(" default ")?;
    write_lit(alloc, text, &item.default)
}

fn write_series_items(
    alloc: Global,
    text: &mut KText,
    items: &[SeriesItem],
) -> Result<(), AllocError>
    ensures added { OnOk result (text.new ≡ text.old ++ with_commas series_item_text items.now) }
{
    match items {
        [] => Ok(()),
        [first, others @ ..] => {
            write_series_item(alloc, text, first)?;
            for item in others {
                text.push_str(",")?;
                write_series_item(alloc, text, item)?;
            }
            Ok(())
        }
    }
}

#[tactic(auto, unfolding(crate::specs::Operators::bins_text))]
fn write_bins(alloc: Global, text: &mut KText, series: &SeriesPlan) -> Result<(), AllocError>
    ensures added { OnOk result (text.new ≡ text.old ++ bins_text series.now) }
{
    text.push_str(" on ")?;
    write_name(alloc, text, series.axis.as_str())?;
    text.push_str(" from ")?;
    write_lit(alloc, text, &series.from)?;
    text.push_str(" to ")?;
    write_lit(alloc, text, &series.to)?;
    text.push_str(" step ")?;
    write_lit(alloc, text, &series.step)
}

/// Adds the line of `make-series`.
#[tactic(auto, unfolding(crate::specs::Operators::series_text))]
pub(crate) fn write_series(
    alloc: Global,
    text: &mut KText,
    series: &SeriesPlan,
) -> Result<(), AllocError>
    ensures added { OnOk result (text.new ≡ text.old ++ series_text series.now) }
{
    text.push_str("make-series ")?;
    write_series_items(alloc, text, series.items.as_slice())?;
    write_bins(alloc, text, series)?;
    write_by(alloc, text, series.keys.as_slice())
}

#[tactic(auto, unfolding(crate::specs::Operators::expand_item_text))]
fn write_expand_item(alloc: Global, text: &mut KText, item: &ExpandItem) -> Result<(), AllocError>
    ensures added { OnOk result (text.new ≡ text.old ++ expand_item_text item.now) }
{
    write_name(alloc, text, item.name.as_str())?;
    text.push_str("=")?;
    write_expr(alloc, text, &item.expr)?;
    text.push_str(":")?;
    text.push_str(kind_word(item.to))
}

fn write_expand_items(
    alloc: Global,
    text: &mut KText,
    items: &[ExpandItem],
) -> Result<(), AllocError>
    ensures added { OnOk result (text.new ≡ text.old ++ with_commas expand_item_text items.now) }
{
    match items {
        [] => Ok(()),
        [first, others @ ..] => {
            write_expand_item(alloc, text, first)?;
            for item in others {
                text.push_str(",")?;
                write_expand_item(alloc, text, item)?;
            }
            Ok(())
        }
    }
}

/// Adds the line of `mv-expand`.
#[tactic(auto, unfolding(crate::specs::Operators::expand_text))]
pub(crate) fn write_expand(
    alloc: Global,
    text: &mut KText,
    expand: &Expand,
) -> Result<(), AllocError>
    ensures added { OnOk result (text.new ≡ text.old ++ expand_text expand.now) }
{
    text.push_str(expand_word(expand.array))?;
    write_expand_items(alloc, text, expand.items.as_slice())
}

#[tactic(auto, unfolding(crate::specs::Operators::expand_word))]
fn expand_word(array: bool) -> &'static str
    ensures word { result.now ≡ expand_word array }
{
    if array {
        "mv-expand array "
    } else {
        "mv-expand bag "
    }
}

#[tactic(auto, unfolding(crate::specs::Operators::pattern_text))]
fn write_pattern_item(alloc: Global, text: &mut KText, item: &PatItem) -> Result<(), AllocError>
    ensures added { OnOk result (text.new ≡ text.old ++ pattern_text item.now) }
{
    match item {
        PatItem::Star => text.push_str("*"),
        PatItem::Literal(literal) => write_string(alloc, text, literal.as_str()),
        PatItem::Column { name, kind } => {
            write_name(alloc, text, name.as_str())?;
            text.push_str(":")?;
            text.push_str(kind_word(*kind))
        }
    }
}

fn write_pattern(alloc: Global, text: &mut KText, pattern: &[PatItem]) -> Result<(), AllocError>
    ensures added { OnOk result (text.new ≡ text.old ++ join_by pattern_text (codes " ") pattern.now) }
{
    match pattern {
        [] => Ok(()),
        [first, others @ ..] => {
            write_pattern_item(alloc, text, first)?;
            for item in others {
                text.push_str(" ")?;
                write_pattern_item(alloc, text, item)?;
            }
            Ok(())
        }
    }
}

/// Adds the line of `parse`.
#[tactic(auto, unfolding(crate::specs::Operators::parse_text))]
pub(crate) fn write_parse(
    alloc: Global,
    text: &mut KText,
    parse: &ParsePlan,
) -> Result<(), AllocError>
    ensures added { OnOk result (text.new ≡ text.old ++ parse_text parse.now) }
{
    text.push_str(parse_word(parse.relaxed))?;
    write_expr(alloc, text, &parse.text)?;
    text.push_str(" with ")?;
    write_pattern(alloc, text, parse.pattern.as_slice())
}

#[tactic(auto, unfolding(crate::specs::Operators::parse_word))]
fn parse_word(relaxed: bool) -> &'static str
    ensures word { result.now ≡ parse_word relaxed }
{
    if relaxed {
        "parse relaxed "
    } else {
        "parse simple "
    }
}

#[tactic(auto, unfolding(crate::specs::Operators::on_text))]
fn write_on_pair(alloc: Global, text: &mut KText, pair: &OnPair) -> Result<(), AllocError>
    ensures added { OnOk result (text.new ≡ text.old ++ on_text pair.now) }
{
    write_name(alloc, text, pair.left.as_str())?;
    text.push_str("==")?;
    write_name(alloc, text, pair.right.as_str())
}

fn write_on(alloc: Global, text: &mut KText, pairs: &[OnPair]) -> Result<(), AllocError>
    ensures added { OnOk result (text.new ≡ text.old ++ with_commas on_text pairs.now) }
{
    match pairs {
        [] => Ok(()),
        [first, others @ ..] => {
            write_on_pair(alloc, text, first)?;
            for pair in others {
                text.push_str(",")?;
                write_on_pair(alloc, text, pair)?;
            }
            Ok(())
        }
    }
}

/// Adds the line of a join or a lookup.
#[tactic(auto, unfolding(crate::specs::Operators::join_text))]
pub(crate) fn write_join(alloc: Global, text: &mut KText, join: &JoinPlan) -> Result<(), AllocError>
    ensures added { OnOk result (text.new ≡ text.old ++ join_text join.now) }
{
    text.push_str(if join.lookup { "lookup " } else { "join " })?;
    text.push_str(join_word(join.kind))?;
    text.push_str(" on ")?;
    write_on(alloc, text, join.on.as_slice())?;
    text.push_str(" (")
}

#[tactic(auto, unfolding(crate::specs::Operators::match_text))]
fn write_match_id(alloc: Global, text: &mut KText, name: &Option<KText>) -> Result<(), AllocError>
    ensures added { OnOk result (text.new ≡ text.old ++ match_text name.now) }
{
    match name {
        None => Ok(()),
        Some(name) => {
            text.push_str(" ")?;
            write_name(alloc, text, name.as_str())
        }
    }
}

#[tactic(auto, unfolding(crate::specs::Operators::decl_text))]
fn write_decl(alloc: Global, text: &mut KText, decl: &Decl) -> Result<(), AllocError>
    ensures added { OnOk result (text.new ≡ text.old ++ decl_text decl.now) }
{
    write_name(alloc, text, decl.name.as_str())?;
    text.push_str(":")?;
    text.push_str(kind_word(decl.default.kind))?;
    text.push_str("=")?;
    write_lit(alloc, text, &decl.default)
}

fn write_decls(alloc: Global, text: &mut KText, decls: &[Decl]) -> Result<(), AllocError>
    ensures added { OnOk result (text.new ≡ text.old ++ with_commas decl_text decls.now) }
{
    match decls {
        [] => Ok(()),
        [first, others @ ..] => {
            write_decl(alloc, text, first)?;
            for decl in others {
                text.push_str(",")?;
                write_decl(alloc, text, decl)?;
            }
            Ok(())
        }
    }
}

#[tactic(auto, unfolding(crate::specs::Operators::declare_text))]
fn write_declared(alloc: Global, text: &mut KText, decls: &[Decl]) -> Result<(), AllocError>
    ensures added { OnOk result (text.new ≡ text.old ++ declare_text decls.now) }
{
    match decls {
        [] => Ok(()),
        _ => {
            text.push_str(" declare ")?;
            write_decls(alloc, text, decls)
        }
    }
}

/// Adds the line of `scan` before its steps.
#[tactic(auto, unfolding(crate::specs::Operators::scan_text))]
pub(crate) fn write_scan(alloc: Global, text: &mut KText, scan: &ScanPlan) -> Result<(), AllocError>
    ensures added { OnOk result (text.new ≡ text.old ++ scan_text scan.now) }
{
    text.push_str("scan")?;
    write_match_id(alloc, text, &scan.match_id)?;
    write_declared(alloc, text, scan.declared.as_slice())?;
    text.push_str(" (")
}

#[tactic(auto, unfolding(crate::specs::Operators::sets_text))]
fn write_sets(alloc: Global, text: &mut KText, sets: &[BItem]) -> Result<(), AllocError>
    ensures added { OnOk result (text.new ≡ text.old ++ sets_text sets.now) }
{
    match sets {
        [] => Ok(()),
        _ => {
            text.push_str(" => ")?;
            write_items(alloc, text, sets)
        }
    }
}

/// Adds the line of a step of a scan.
#[tactic(auto, unfolding(crate::specs::Operators::scan_step_text))]
pub(crate) fn write_scan_step(
    alloc: Global,
    text: &mut KText,
    step: &ScanStep,
) -> Result<(), AllocError>
    ensures added { OnOk result (text.new ≡ text.old ++ scan_step_text step.now) }
{
    text.push_str("step ")?;
    write_name(alloc, text, step.name.as_str())?;
    text.push_str(" ")?;
    text.push_str(output_word(step.output))?;
    text.push_str(": ")?;
    write_expr(alloc, text, &step.condition)?;
    write_sets(alloc, text, step.sets.as_slice())
}
