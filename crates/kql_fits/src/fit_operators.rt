//! Whether an operator fits the columns of the table before it.
ghost use Rattle.std.specs.Prelude.{◌≡◌, ◌∷◌, ◌-ℤ◌, ◌≤ℤ◌, IfOk, nat_le, pos, true, unsigned_abs};
ghost use Rattle.std.specs.List.{list_all};
ghost use Rattle.kql_meaning.specs.FittingExpressions.{scope_of};
ghost use Rattle.kql_meaning.specs.FittingOperators.{answer_if, are_distinct, bins_fit, ends_fit, expand_fits, expand_item_fits, expand_names, group_item_fits, has_at_most, has_its_names, is_empty, is_given, is_lookup_kind, is_of_type_in, is_step_of, item_fits, items_fit, join_fits, key_item_fits, pair_fits, parse_fits, range_fits, series_fits, series_item_fits, sort_fits, sort_key_fits, summarize_fits, union_fits, where_fits};
ghost use Rattle.kql_meaning.specs.Numbers.{count_of_terms};
ghost use Rattle.kql_meaning.specs.Sources.{number_in};

use crate::fit_expressions::{call_or_expr_fits, expr_fits, fits_as, is_aggregate_call};
use crate::kind_tests::{KindTest, has_kind, is_kind, same_known};
use crate::literals::literal_fits;
use crate::scope::scope_of;
use kql_bound::{
    BExpr, BItem, BKey, Expand, ExpandItem, GroupPlan, JoinKind, JoinPlan, Lit, OnPair, ParsePlan,
    PatItem, SeriesItem, SeriesPlan,
};
use kql_cells::{Column, KText, Kind, Names, Value};
use kql_columns::{has_column, is_name_among, names_of, result_kinds};
use kql_functions::same_kind;
use kql_items::Items;
use kql_meaning::{Position, column_kind, kind_of};
use std::alloc::{AllocError, Global};

// Columns of an answer.

/// Whether no two names are the same.
#[tactic(auto, unfolding(kql_meaning::specs::FittingOperators::are_distinct))]
pub fn are_distinct(names: &[KText]) -> bool
    ensures distinct { result ≡ are_distinct names.now }
{
    let mut left = names;
    'names: while let Some((name, more)) = left.split_first() {
        if is_name_among(more, name.as_str()) {
            return false;
        }
        left = more;
    }
    true
}

/// Whether there is none of these.
#[tactic(auto, unfolding(kql_meaning::specs::FittingOperators::is_empty))]
pub(crate) fn is_empty<T>(xs: &[T]) -> bool
    ensures empty { result ≡ is_empty xs.now }
{
    match xs {
        [] => true,
        [_, ..] => false,
    }
}

/// The columns that an operator makes, where it fits: there is one, and no two have one name.
#[tactic(auto, unfolding(kql_meaning::specs::FittingOperators::answer_if, kql_meaning::specs::FittingOperators::columns_if))]
pub(crate) fn answer_if(
    alloc: Global,
    fits: bool,
    columns: Items<Column>,
) -> Result<Option<Items<Column>>, AllocError>
    ensures columns { IfOk result (λ o. o ≡ answer_if fits columns) }
{
    if !fits {
        return Ok(None);
    }
    if is_empty(columns.as_slice()) {
        return Ok(None);
    }
    let names = names_of(alloc, columns.as_slice())?;
    if are_distinct(names.as_slice()) {
        Ok(Some(columns))
    } else {
        Ok(None)
    }
}

// Items.

#[tactic(auto, unfolding(kql_meaning::specs::FittingOperators::has_its_names))]
fn has_its_names(alloc: Global, item: &BItem, columns: &[Column]) -> Result<bool, AllocError>
    ensures names { IfOk result (λ b. b ≡ has_its_names item.now columns.now) }
{
    let kinds = result_kinds(alloc, &item.expr, columns)?;
    Ok(item.names.len() == kinds.len())
}

#[tactic(auto, unfolding(kql_meaning::specs::FittingOperators::item_fits))]
fn item_fits(
    alloc: Global,
    item: &BItem,
    columns: &[Column],
    at: Position,
) -> Result<bool, AllocError>
    ensures fits { IfOk result (λ b. b ≡ item_fits (scope_of columns.now) at item.now) }
{
    let scope = scope_of(columns);
    if !expr_fits(alloc, &item.expr, &scope, at)? {
        return Ok(false);
    }
    has_its_names(alloc, item, columns)
}

/// Whether items of one result column each fit in a position.
#[tactic(auto, unfolding(kql_meaning::specs::FittingOperators::items_fit))]
pub fn items_fit(
    alloc: Global,
    items: &[BItem],
    columns: &[Column],
    at: Position,
) -> Result<bool, AllocError>
    ensures fit { IfOk result (λ b. b ≡ items_fit items.now columns.now at) }
{
    let mut left = items;
    'items: while let Some((item, more)) = left.split_first() {
        if !item_fits(alloc, item, columns, at)? {
            return Ok(false);
        }
        left = more;
    }
    Ok(true)
}

#[tactic(auto, unfolding(kql_meaning::specs::FittingOperators::group_item_fits))]
fn group_item_fits(alloc: Global, item: &BItem, columns: &[Column]) -> Result<bool, AllocError>
    ensures fits { IfOk result (λ b. b ≡ group_item_fits columns.now item.now) }
{
    let scope = scope_of(columns);
    if !call_or_expr_fits(alloc, &item.expr, &scope, Position::Group)? {
        return Ok(false);
    }
    has_its_names(alloc, item, columns)
}

fn group_items_fit(alloc: Global, items: &[BItem], columns: &[Column]) -> Result<bool, AllocError>
    ensures fit { IfOk result (λ b. b ≡ list_all (group_item_fits columns.now) items.now) }
{
    let mut left = items;
    'items: while let Some((item, more)) = left.split_first() {
        if !group_item_fits(alloc, item, columns)? {
            return Ok(false);
        }
        left = more;
    }
    Ok(true)
}

#[tactic(auto, unfolding(kql_meaning::specs::FittingOperators::key_item_fits))]
fn key_item_fits(alloc: Global, item: &BItem, columns: &[Column]) -> Result<bool, AllocError>
    ensures fits { IfOk result (λ b. b ≡ key_item_fits columns.now item.now) }
{
    let scope = scope_of(columns);
    if !fits_as(alloc, KindTest::Key, &item.expr, &scope, Position::Plain)? {
        return Ok(false);
    }
    has_its_names(alloc, item, columns)
}

fn key_items_fit(alloc: Global, items: &[BItem], columns: &[Column]) -> Result<bool, AllocError>
    ensures fit { IfOk result (λ b. b ≡ list_all (key_item_fits columns.now) items.now) }
{
    let mut left = items;
    'items: while let Some((item, more)) = left.split_first() {
        if !key_item_fits(alloc, item, columns)? {
            return Ok(false);
        }
        left = more;
    }
    Ok(true)
}

// Where, sort, top and summarize.

/// Whether a condition is a bool.
#[tactic(auto, unfolding(kql_meaning::specs::FittingOperators::where_fits))]
pub fn where_fits(alloc: Global, e: &BExpr, columns: &[Column]) -> Result<bool, AllocError>
    ensures fits { IfOk result (λ b. b ≡ where_fits e.now columns.now) }
{
    let scope = scope_of(columns);
    fits_as(
        alloc,
        KindTest::This(Kind::Bool),
        e,
        &scope,
        Position::Window,
    )
}

#[tactic(auto, unfolding(kql_meaning::specs::FittingOperators::sort_key_fits))]
fn sort_key_fits(alloc: Global, key: &BKey, columns: &[Column]) -> Result<bool, AllocError>
    ensures fits { IfOk result (λ b. b ≡ sort_key_fits columns.now key.now) }
{
    let scope = scope_of(columns);
    fits_as(alloc, KindTest::Key, &key.expr, &scope, Position::Plain)
}

/// Whether keys of an order fit.
#[tactic(auto, unfolding(kql_meaning::specs::FittingOperators::sort_fits))]
pub fn sort_fits(alloc: Global, keys: &[BKey], columns: &[Column]) -> Result<bool, AllocError>
    ensures fits { IfOk result (λ b. b ≡ sort_fits keys.now columns.now) }
{
    let mut left = keys;
    'keys: while let Some((key, more)) = left.split_first() {
        if !sort_key_fits(alloc, key, columns)? {
            return Ok(false);
        }
        left = more;
    }
    Ok(true)
}

/// Whether the items and keys of `summarize` fit.
#[tactic(auto, unfolding(kql_meaning::specs::FittingOperators::summarize_fits))]
pub(crate) fn summarize_fits(
    alloc: Global,
    group: &GroupPlan,
    columns: &[Column],
) -> Result<bool, AllocError>
    ensures fits { IfOk result (λ b. b ≡ summarize_fits group.now columns.now) }
{
    if !group_items_fit(alloc, group.items.as_slice(), columns)? {
        return Ok(false);
    }
    key_items_fit(alloc, group.keys.as_slice(), columns)
}

// Ranges and series.

/// Whether values of a type lead from one of another to the next.
#[tactic(auto, unfolding(kql_meaning::specs::FittingOperators::is_step_of))]
pub fn is_step_of(kind: Kind, step: Kind) -> bool
    ensures step { result ≡ is_step_of kind step }
{
    match kind {
        Kind::Long => same_kind(step, Kind::Long),
        Kind::Moment => same_kind(step, Kind::Span),
        Kind::Span => same_kind(step, Kind::Span),
        _ => false,
    }
}

// The number that a literal is, or 0.
#[tactic(auto, unfolding(kql_meaning::specs::Sources::number_in, kql_meaning::specs::Values::number_of, kql_meaning::specs::Numbers::added))]
fn number_in(lit: &Lit) -> i64
    ensures number { result ≡ number_in lit.now }
{
    match &lit.value {
        Value::Long(n) => *n,
        Value::Moment(n) => *n,
        Value::Span(n) => *n,
        _ => 0,
    }
}

#[tactic(auto, unfolding(kql_meaning::specs::FittingOperators::is_given, kql_meaning::specs::Values::number_of))]
fn is_given(lit: &Lit) -> bool
    ensures given { result ≡ is_given lit.now }
{
    if !literal_fits(lit) {
        return false;
    }
    match &lit.value {
        Value::Long(_) => true,
        Value::Moment(_) => true,
        Value::Span(_) => true,
        _ => false,
    }
}

#[tactic(auto, unfolding(kql_meaning::specs::FittingOperators::ends_fit))]
fn ends_fit(from: &Lit, to: &Lit, step: &Lit) -> bool
    ensures fit { result ≡ ends_fit from.now to.now step.now }
{
    is_given(from)
        && is_given(to)
        && is_given(step)
        && same_kind(from.kind, to.kind)
        && is_step_of(from.kind, step.kind)
}

// How far a number is behind another.
fn gap(from: i64, to: i64) -> u128
    ensures gap { result ≡ unsigned_abs (to -ℤ from) }
{
    (to as i128 - from as i128).unsigned_abs()
}

// Whether there are at most so many terms.
#[tactic(auto, using(crate::proofs::RangeSteps::terms_steps))]
fn are_at_most(from: i64, to: i64, step: i64, top: u64) -> bool
    requires positive { pos 1 ≤ℤ step }
    ensures terms { result ≡ nat_le (count_of_terms from to step) top }
{
    if to < from {
        return true;
    }
    gap(from, to) / (step.unsigned_abs() as u128) < top as u128
}

// Whether there are at most so many terms below an end.
#[tactic(auto, using(crate::proofs::RangeSteps::terms_steps))]
fn below_are_at_most(from: i64, to: i64, step: i64, top: u64) -> bool
    requires positive { pos 1 ≤ℤ step }
    ensures terms { result ≡ nat_le (count_of_terms from (to -ℤ pos 1) step) top }
{
    if to <= from {
        return true;
    }
    are_at_most(from, to - 1, step, top)
}

#[tactic(auto, unfolding(kql_meaning::specs::FittingOperators::has_at_most))]
fn has_at_most(from: i64, to: i64, step: i64, top: u64) -> bool
    ensures terms { result ≡ has_at_most from to step top }
{
    step > 0 && are_at_most(from, to, step, top)
}

#[tactic(auto, unfolding(kql_meaning::specs::FittingOperators::has_at_most))]
fn has_at_most_below(from: i64, to: i64, step: i64, top: u64) -> bool
    ensures terms { result ≡ has_at_most from (to -ℤ pos 1) step top }
{
    step > 0 && below_are_at_most(from, to, step, top)
}

/// Whether two ends and a step make a range of at most 1,000,000 rows.
#[tactic(auto, unfolding(kql_meaning::specs::FittingOperators::range_fits))]
pub fn range_fits(from: &Lit, to: &Lit, step: &Lit) -> bool
    ensures fits { result ≡ range_fits from.now to.now step.now }
{
    if !ends_fit(from, to, step) {
        return false;
    }
    has_at_most(number_in(from), number_in(to), number_in(step), 1_000_000)
}

#[tactic(auto, unfolding(kql_meaning::specs::FittingOperators::series_item_fits))]
fn series_item_fits(
    alloc: Global,
    item: &SeriesItem,
    columns: &[Column],
) -> Result<bool, AllocError>
    ensures fits { IfOk result (λ b. b ≡ series_item_fits columns.now item.now) }
{
    if !is_aggregate_call(&item.expr) {
        return Ok(false);
    }
    let scope = scope_of(columns);
    if !expr_fits(alloc, &item.expr, &scope, Position::Series)? {
        return Ok(false);
    }
    let kind = kind_of(alloc, &item.expr, columns)?;
    Ok(literal_fits(&item.default) && is_kind(item.default.kind, kind))
}

fn series_items_fit(
    alloc: Global,
    items: &[SeriesItem],
    columns: &[Column],
) -> Result<bool, AllocError>
    ensures fit { IfOk result (λ b. b ≡ list_all (series_item_fits columns.now) items.now) }
{
    let mut left = items;
    'items: while let Some((item, more)) = left.split_first() {
        if !series_item_fits(alloc, item, columns)? {
            return Ok(false);
        }
        left = more;
    }
    Ok(true)
}

/// Whether the axis of `make-series` has at most 100,000 bins, of its type.
#[tactic(auto, unfolding(kql_meaning::specs::FittingOperators::bins_fit))]
pub fn bins_fit(series: &SeriesPlan, columns: &[Column]) -> bool
    ensures fit { result ≡ bins_fit series.now columns.now }
{
    if !ends_fit(&series.from, &series.to, &series.step) {
        return false;
    }
    has_at_most_below(
        number_in(&series.from),
        number_in(&series.to),
        number_in(&series.step),
        100_000,
    ) && is_kind(series.from.kind, column_kind(series.axis.as_str(), columns))
}

/// Whether `make-series` fits.
#[tactic(auto, unfolding(kql_meaning::specs::FittingOperators::series_fits))]
pub(crate) fn series_fits(
    alloc: Global,
    series: &SeriesPlan,
    columns: &[Column],
) -> Result<bool, AllocError>
    ensures fits { IfOk result (λ b. b ≡ series_fits series.now columns.now) }
{
    if !bins_fit(series, columns) {
        return Ok(false);
    }
    if !series_items_fit(alloc, series.items.as_slice(), columns)? {
        return Ok(false);
    }
    key_items_fit(alloc, series.keys.as_slice(), columns)
}

// Mv-expand and parse.

#[tactic(auto, unfolding(kql_meaning::specs::FittingOperators::expand_item_fits))]
fn expand_item_fits(
    alloc: Global,
    item: &ExpandItem,
    columns: &[Column],
) -> Result<bool, AllocError>
    ensures fits { IfOk result (λ b. b ≡ expand_item_fits columns.now item.now) }
{
    let scope = scope_of(columns);
    fits_as(
        alloc,
        KindTest::This(Kind::Dynamic),
        &item.expr,
        &scope,
        Position::Plain,
    )
}

fn expand_items_fit(
    alloc: Global,
    items: &[ExpandItem],
    columns: &[Column],
) -> Result<bool, AllocError>
    ensures fit { IfOk result (λ b. b ≡ list_all (expand_item_fits columns.now) items.now) }
{
    let mut left = items;
    'items: while let Some((item, more)) = left.split_first() {
        if !expand_item_fits(alloc, item, columns)? {
            return Ok(false);
        }
        left = more;
    }
    Ok(true)
}

#[tactic(auto, unfolding(kql_meaning::specs::FittingOperators::expand_names))]
fn expand_names(alloc: Global, items: &[ExpandItem]) -> Result<Names, AllocError>
    ensures names { IfOk result (λ ns. ns ≡ expand_names items.now) }
{
    let mut names = Items::with_capacity(alloc, items.len())?;
    for item in items {
        let name = item.name.copy(alloc)?;
        names.push(name)?;
    }
    Ok(names)
}

/// Whether `mv-expand` fits.
#[tactic(auto, unfolding(kql_meaning::specs::FittingOperators::expand_fits))]
pub(crate) fn expand_fits(
    alloc: Global,
    expand: &Expand,
    columns: &[Column],
) -> Result<bool, AllocError>
    ensures fits { IfOk result (λ b. b ≡ expand_fits expand.now columns.now) }
{
    if !expand_items_fit(alloc, expand.items.as_slice(), columns)? {
        return Ok(false);
    }
    let names = expand_names(alloc, expand.items.as_slice())?;
    Ok(are_distinct(names.as_slice()))
}

/// Whether `parse` fits.
#[tactic(auto, unfolding(kql_meaning::specs::FittingOperators::parse_fits))]
pub(crate) fn parse_fits(
    alloc: Global,
    parse: &ParsePlan,
    columns: &[Column],
) -> Result<bool, AllocError>
    ensures fits { IfOk result (λ b. b ≡ parse_fits parse.now columns.now) }
{
    let scope = scope_of(columns);
    if !fits_as(
        alloc,
        KindTest::This(Kind::Text),
        &parse.text,
        &scope,
        Position::Plain,
    )? {
        return Ok(false);
    }
    Ok(!is_empty(parse.pattern.as_slice()))
}

// Join and union.

/// Whether the two columns of a key of `join` stand, and have one type.
#[tactic(auto, unfolding(kql_meaning::specs::FittingOperators::pair_fits))]
pub fn pair_fits(pair: &OnPair, left: &[Column], right: &[Column]) -> bool
    ensures fits { result ≡ pair_fits left.now right.now pair.now }
{
    let key = column_kind(pair.left.as_str(), left);
    same_known(key, column_kind(pair.right.as_str(), right)) && has_kind(KindTest::Key, key)
}

fn pairs_fit(on: &[OnPair], left: &[Column], right: &[Column]) -> bool
    ensures fit { result ≡ list_all (pair_fits left.now right.now) on.now }
{
    let mut rest = on;
    'pairs: while let Some((pair, more)) = rest.split_first() {
        if !pair_fits(pair, left, right) {
            return false;
        }
        rest = more;
    }
    true
}

#[tactic(auto, unfolding(kql_meaning::specs::FittingOperators::is_lookup_kind))]
fn is_lookup_kind(kind: JoinKind) -> bool
    ensures lookup { result ≡ is_lookup_kind kind }
{
    match kind {
        JoinKind::LeftOuter => true,
        JoinKind::Inner => true,
        _ => false,
    }
}

/// Whether a join or a lookup fits the columns of its two sides.
#[tactic(auto, unfolding(kql_meaning::specs::FittingOperators::join_fits))]
pub(crate) fn join_fits(join: &JoinPlan, left: &[Column], right: &[Column]) -> bool
    ensures fits { result ≡ join_fits join.now left.now right.now }
{
    pairs_fit(join.on.as_slice(), left, right) && (!join.lookup || is_lookup_kind(join.kind))
}

/// Whether a column has the same type among others, where one there has its name.
#[tactic(auto, unfolding(kql_meaning::specs::FittingOperators::is_of_type_in))]
pub fn is_of_type_in(column: &Column, columns: &[Column]) -> bool
    ensures is { result ≡ is_of_type_in column.now columns.now }
{
    let name = column.name.as_str();
    !has_column(name, columns) || is_kind(column.kind, column_kind(name, columns))
}

fn is_of_type_in_all(column: &Column, tables: &[Items<Column>]) -> bool
    ensures is { result ≡ list_all (is_of_type_in column.now) tables.now }
{
    let mut left = tables;
    'tables: while let Some((columns, more)) = left.split_first() {
        if !is_of_type_in(column, columns.as_slice()) {
            return false;
        }
        left = more;
    }
    true
}

/// Whether each column of a union has one type in all tables that have it.
#[tactic(auto, unfolding(kql_meaning::specs::FittingOperators::union_fits))]
pub(crate) fn union_fits(columns: &[Column], first: &[Column], others: &[Items<Column>]) -> bool
    ensures fits { result ≡ union_fits columns.now (first.now ∷ others.now) }
{
    let mut left = columns;
    'columns: while let Some((column, more)) = left.split_first() {
        if !is_of_type_in(column, first) {
            return false;
        }
        if !is_of_type_in_all(column, others) {
            return false;
        }
        left = more;
    }
    true
}
