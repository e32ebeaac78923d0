//! The rules by which two neighbours change places: for each a function that tells whether it fires, in the order of the table.
ghost use Rattle.std.specs.Prelude.{◌≡◌, ◌&&◌, ◌||◌, IfOk, is_some, not};
ghost use Rattle.kql_meaning.specs.FittingOperators.{expand_names};
ghost use Rattle.kql_meaning.specs.Parse.{pattern_names};
ghost use Rattle.kql_meaning.specs.Items.{items_names};
ghost use Rattle.kql_meaning.specs.Tables.{has_column, is_name_among};
ghost use Rattle.plan_rules.specs.Reads.{reads_only};
ghost use Rattle.plan_rules.specs.Rules.{expand_then_filter, extend_then_filter, extend_then_take, goes_by_left, is_left_key, is_unique, join_then_filter, parse_then_filter, parse_then_take, project_then_take, reads_some, sort_then_filter, unique_then_filter};
ghost use Rattle.plan_rules.specs.Views.{join_of, project_of};
ghost use Rattle.plan_swaps.specs.Swaps.{filter_rule, swap_rule, take_rule};

use crate::views::{expand_of, extend_of, filter_of, parse_of, project_of, sort_of, take_of};
use kql_bound::{BExpr, BItems, Expand, ExpandItem, JoinKind, JoinPlan, Op, ParsePlan, Pattern};
use kql_cells::{Column, Names};
use kql_columns::{items_names, names_of, pattern_columns};
use kql_items::Items;
use plan_terms::{are_plain, is_plain, reads_among, reads_left_keys, reads_none, reads_others};
use std::alloc::{AllocError, Global};

// In front of `extend`, `project` and `sort`; a `take` in front of `parse`.

fn reads_unset(alloc: Global, items: &BItems, q: &BExpr) -> Result<bool, AllocError>
    ensures unset { IfOk result (λ b. b ≡ reads_only (λ n. not (is_name_among (items_names items.now) n)) q.now) }
{
    let names = items_names(alloc, items.as_slice())?;
    reads_others(alloc, q, names.as_slice())
}

// Plain `extend I`, `where q`, q reads nothing that I sets: `where q`, `extend I`.
#[tactic(auto, using(crate::proofs::FireSteps::fire_steps), unfolding(plan_rules::specs::Rules::extend_then_filter))]
fn extend_then_filter(alloc: Global, x: &Op, y: &Op) -> Result<bool, AllocError>
    ensures fires { IfOk result (λ b. b ≡ is_some (extend_then_filter x.now y.now)) }
{
    let (Some(items), Some(q)) = (extend_of(x), filter_of(y)) else {
        return Ok(false);
    };
    if !are_plain(items.as_slice()) {
        return Ok(false);
    }
    reads_unset(alloc, items, q)
}

// `sort K`, `where q`: `where q`, `sort K`.
#[tactic(auto, using(crate::proofs::FireSteps::fire_steps), unfolding(plan_rules::specs::Rules::sort_then_filter))]
fn sort_then_filter(x: &Op, y: &Op) -> bool
    ensures fires { result ≡ is_some (sort_then_filter x.now y.now) }
{
    let (Some(_keys), Some(q)) = (sort_of(x), filter_of(y)) else {
        return false;
    };
    is_plain(q)
}

// Plain `extend I`, `take n`: `take n`, `extend I`.
#[tactic(auto, using(crate::proofs::FireSteps::fire_steps), unfolding(plan_rules::specs::Rules::extend_then_take))]
fn extend_then_take(x: &Op, y: &Op) -> bool
    ensures fires { result ≡ is_some (extend_then_take x.now y.now) }
{
    let (Some(items), Some(_n)) = (extend_of(x), take_of(y)) else {
        return false;
    };
    are_plain(items.as_slice())
}

// Plain `project I`, `take n`: `take n`, `project I`.
#[tactic(auto, using(crate::proofs::FireSteps::fire_steps), unfolding(plan_rules::specs::Rules::project_then_take))]
fn project_then_take(x: &Op, y: &Op) -> bool
    ensures fires { result ≡ is_some (project_then_take x.now y.now) }
{
    let (Some(items), Some(_n)) = (project_of(x), take_of(y)) else {
        return false;
    };
    are_plain(items.as_slice())
}

// `parse X`, `take n`: swapped.
#[tactic(auto, unfolding(plan_rules::specs::Rules::parse_then_take))]
fn parse_then_take(x: &Op, y: &Op) -> bool
    ensures fires { result ≡ is_some (parse_then_take x.now y.now) }
{
    let (Some(_parse), Some(_n)) = (parse_of(x), take_of(y)) else {
        return false;
    };
    true
}

// In front of `mv-expand` and `parse`.

#[tactic(auto, unfolding(kql_meaning::specs::FittingOperators::expand_names))]
fn expand_names(alloc: Global, items: &[ExpandItem]) -> Result<Names, AllocError>
    ensures names { IfOk result (λ ns. ns ≡ expand_names items.now) }
{
    let mut names = Items::with_capacity(alloc, items.len())?;
    for item in items {
        let name = item.name.copy(alloc)?;
        names.push(name)?;
    }
    Ok(names)
}

fn reads_unexpanded(alloc: Global, expand: &Expand, q: &BExpr) -> Result<bool, AllocError>
    ensures unset { IfOk result (λ b. b ≡ reads_only (λ n. not (is_name_among (expand_names expand.now.items) n)) q.now) }
{
    let names = expand_names(alloc, expand.items.as_slice())?;
    reads_others(alloc, q, names.as_slice())
}

// `mv-expand X`, `where q`, q reads nothing that X sets: swapped.
#[tactic(auto, using(crate::proofs::FireSteps::fire_steps), unfolding(plan_rules::specs::Rules::expand_then_filter))]
fn expand_then_filter(alloc: Global, x: &Op, y: &Op) -> Result<bool, AllocError>
    ensures fires { IfOk result (λ b. b ≡ is_some (expand_then_filter x.now y.now)) }
{
    let (Some(expand), Some(q)) = (expand_of(x), filter_of(y)) else {
        return Ok(false);
    };
    reads_unexpanded(alloc, expand, q)
}

#[tactic(auto, unfolding(kql_meaning::specs::Parse::pattern_names))]
fn pattern_names(alloc: Global, pattern: &Pattern) -> Result<Names, AllocError>
    ensures names { IfOk result (λ ns. ns ≡ pattern_names pattern.now) }
{
    let columns = pattern_columns(alloc, pattern.as_slice())?;
    names_of(alloc, columns.as_slice())
}

fn reads_unparsed(alloc: Global, parse: &ParsePlan, q: &BExpr) -> Result<bool, AllocError>
    ensures unset { IfOk result (λ b. b ≡ reads_only (λ n. not (is_name_among (pattern_names parse.now.pattern) n)) q.now) }
{
    let names = pattern_names(alloc, &parse.pattern)?;
    reads_others(alloc, q, names.as_slice())
}

// `parse X`, `where q`, q reads nothing that X sets: swapped.
#[tactic(auto, using(crate::proofs::FireSteps::fire_steps), unfolding(plan_rules::specs::Rules::parse_then_filter))]
fn parse_then_filter(alloc: Global, x: &Op, y: &Op) -> Result<bool, AllocError>
    ensures fires { IfOk result (λ b. b ≡ is_some (parse_then_filter x.now y.now)) }
{
    let (Some(parse), Some(q)) = (parse_of(x), filter_of(y)) else {
        return Ok(false);
    };
    reads_unparsed(alloc, parse, q)
}

// In front of a join.

fn goes_by_left(kind: JoinKind) -> bool
    ensures left { result ≡ goes_by_left kind }
{
    match kind {
        JoinKind::InnerUnique => false,
        JoinKind::Inner => true,
        JoinKind::LeftOuter => true,
        JoinKind::RightOuter => false,
        JoinKind::FullOuter => false,
        JoinKind::LeftSemi => true,
        JoinKind::LeftAnti => true,
        JoinKind::RightSemi => false,
        JoinKind::RightAnti => false,
    }
}

fn is_unique(kind: JoinKind) -> bool
    ensures unique { result ≡ is_unique kind }
{
    match kind {
        JoinKind::InnerUnique => true,
        JoinKind::Inner => false,
        JoinKind::LeftOuter => false,
        JoinKind::RightOuter => false,
        JoinKind::FullOuter => false,
        JoinKind::LeftSemi => false,
        JoinKind::LeftAnti => false,
        JoinKind::RightSemi => false,
        JoinKind::RightAnti => false,
    }
}

fn by_left(
    alloc: Global,
    columns: &[Column],
    join: &JoinPlan,
    q: &BExpr,
) -> Result<bool, AllocError>
    ensures fires { IfOk result (λ b. b ≡ (goes_by_left join.now.kind && (reads_only (λ n. has_column n columns.now) q.now && reads_some q.now))) }
{
    if !goes_by_left(join.kind) {
        return Ok(false);
    }
    if !reads_among(alloc, q, columns)? {
        return Ok(false);
    }
    let none = reads_none(alloc, q)?;
    Ok(!none)
}

fn by_firsts(
    alloc: Global,
    columns: &[Column],
    join: &JoinPlan,
    q: &BExpr,
) -> Result<bool, AllocError>
    ensures fires { IfOk result (λ b. b ≡ (is_unique join.now.kind && (reads_only (is_left_key join.now.on columns.now) q.now && reads_some q.now))) }
{
    if !is_unique(join.kind) {
        return Ok(false);
    }
    if !reads_left_keys(alloc, q, join.on.as_slice(), columns)? {
        return Ok(false);
    }
    let none = reads_none(alloc, q)?;
    Ok(!none)
}

// A join by left rows, `where q`, q reads left columns alone: `where q` before it.
#[tactic(auto, using(crate::proofs::FrontViewSteps::join_steps, crate::proofs::FireSteps::fire_steps), unfolding(plan_rules::specs::Rules::join_then_filter))]
fn join_then_filter(alloc: Global, columns: &[Column], x: &Op, y: &Op) -> Result<bool, AllocError>
    ensures fires { IfOk result (λ b. b ≡ is_some (join_then_filter columns.now x.now y.now)) }
{
    let Some(q) = filter_of(y) else {
        return Ok(false);
    };
    match x {
        Op::Where(_) => Ok(false),
        Op::Extend(_) => Ok(false),
        Op::Project(_) => Ok(false),
        Op::Take(_) => Ok(false),
        Op::Count => Ok(false),
        Op::Serialize => Ok(false),
        Op::Sort(_) => Ok(false),
        Op::Top(_, _) => Ok(false),
        Op::Summarize(_) => Ok(false),
        Op::MakeSeries(_) => Ok(false),
        Op::MvExpand(_) => Ok(false),
        Op::Parse(_) => Ok(false),
        Op::Join(join, _) => by_left(alloc, columns, join, q),
        Op::Union(_, _) => Ok(false),
        Op::Scan(_) => Ok(false),
        Op::Partition(_, _) => Ok(false),
    }
}

// `join` innerunique, `where q`, q reads left key columns alone: `where q` before it.
#[tactic(auto, using(crate::proofs::FrontViewSteps::join_steps, crate::proofs::FireSteps::fire_steps), unfolding(plan_rules::specs::Rules::unique_then_filter))]
fn unique_then_filter(alloc: Global, columns: &[Column], x: &Op, y: &Op) -> Result<bool, AllocError>
    ensures fires { IfOk result (λ b. b ≡ is_some (unique_then_filter columns.now x.now y.now)) }
{
    let Some(q) = filter_of(y) else {
        return Ok(false);
    };
    match x {
        Op::Where(_) => Ok(false),
        Op::Extend(_) => Ok(false),
        Op::Project(_) => Ok(false),
        Op::Take(_) => Ok(false),
        Op::Count => Ok(false),
        Op::Serialize => Ok(false),
        Op::Sort(_) => Ok(false),
        Op::Top(_, _) => Ok(false),
        Op::Summarize(_) => Ok(false),
        Op::MakeSeries(_) => Ok(false),
        Op::MvExpand(_) => Ok(false),
        Op::Parse(_) => Ok(false),
        Op::Join(join, _) => by_firsts(alloc, columns, join, q),
        Op::Union(_, _) => Ok(false),
        Op::Scan(_) => Ok(false),
        Op::Partition(_, _) => Ok(false),
    }
}

// The table.

/// Whether the rules on an operator and the one behind it ask for the columns before it.
#[tactic(auto, using(crate::proofs::FrontViewSteps::project_steps, crate::proofs::FrontViewSteps::join_steps))]
pub fn asks_columns(x: &Op) -> bool
    ensures asks { result ≡ (is_some (project_of x.now) || is_some (join_of x.now)) }
{
    match x {
        Op::Where(_) => false,
        Op::Extend(_) => false,
        Op::Project(_) => true,
        Op::Take(_) => false,
        Op::Count => false,
        Op::Serialize => false,
        Op::Sort(_) => false,
        Op::Top(_, _) => false,
        Op::Summarize(_) => false,
        Op::MakeSeries(_) => false,
        Op::MvExpand(_) => false,
        Op::Parse(_) => false,
        Op::Join(_, _) => true,
        Op::Union(_, _) => false,
        Op::Scan(_) => false,
        Op::Partition(_, _) => false,
    }
}

// A filter that goes in front of its neighbour as it is.
#[tactic(auto, using(crate::proofs::FireSteps::fire_steps), unfolding(crate::specs::Swaps::filter_rule))]
fn filter_swaps(alloc: Global, columns: &[Column], x: &Op, y: &Op) -> Result<bool, AllocError>
    ensures fires { IfOk result (λ b. b ≡ is_some (filter_rule columns.now x.now y.now)) }
{
    if extend_then_filter(alloc, x, y)? {
        return Ok(true);
    }
    if sort_then_filter(x, y) {
        return Ok(true);
    }
    if expand_then_filter(alloc, x, y)? {
        return Ok(true);
    }
    if parse_then_filter(alloc, x, y)? {
        return Ok(true);
    }
    if join_then_filter(alloc, columns, x, y)? {
        return Ok(true);
    }
    unique_then_filter(alloc, columns, x, y)
}

// A `take` that goes in front of its neighbour.
#[tactic(auto, using(crate::proofs::FireSteps::fire_steps), unfolding(crate::specs::Swaps::take_rule))]
fn take_swaps(x: &Op, y: &Op) -> bool
    ensures fires { result ≡ is_some (take_rule x.now y.now) }
{
    if extend_then_take(x, y) {
        return true;
    }
    if project_then_take(x, y) {
        return true;
    }
    parse_then_take(x, y)
}

/// Whether a rule fires by which two neighbours change places.
#[tactic(auto, using(crate::proofs::FireSteps::fire_steps), unfolding(crate::specs::Swaps::swap_rule))]
pub fn swaps(alloc: Global, columns: &[Column], x: &Op, y: &Op) -> Result<bool, AllocError>
    ensures fires { IfOk result (λ b. b ≡ is_some (swap_rule columns.now x.now y.now)) }
{
    if take_swaps(x, y) {
        return Ok(true);
    }
    filter_swaps(alloc, columns, x, y)
}
