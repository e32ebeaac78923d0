//! What an operator is, where a rule asks for one of a kind.
ghost use Rattle.std.specs.Prelude.{◌≡◌};
ghost use Rattle.std.specs.Option.{option_copied};
ghost use Rattle.plan_rules.specs.Views.{expand_of, extend_of, filter_of, group_of_op, is_count, is_serialize, keeps_count, parse_of, project_of, sort_of, take_of};

use kql_bound::{BExpr, BItems, Expand, GroupPlan, Keys, Op, ParsePlan};

/// The predicate of a filter.
#[tactic(auto, using(crate::proofs::ViewSteps::filter_steps))]
pub fn filter_of(op: &Op) -> Option<&BExpr>
    ensures view { option_copied result ≡ filter_of op.now }
{
    match op {
        Op::Where(e) => Some(e),
        Op::Extend(_) => None,
        Op::Project(_) => None,
        Op::Take(_) => None,
        Op::Count => None,
        Op::Serialize => None,
        Op::Sort(_) => None,
        Op::Top(_, _) => None,
        Op::Summarize(_) => None,
        Op::MakeSeries(_) => None,
        Op::MvExpand(_) => None,
        Op::Parse(_) => None,
        Op::Join(_, _) => None,
        Op::Union(_, _) => None,
        Op::Scan(_) => None,
        Op::Partition(_, _) => None,
    }
}

/// The number of a `take`.
#[tactic(auto, using(crate::proofs::ViewSteps::take_steps))]
pub fn take_of(op: &Op) -> Option<u64>
    ensures view { result ≡ take_of op.now }
{
    match op {
        Op::Where(_) => None,
        Op::Extend(_) => None,
        Op::Project(_) => None,
        Op::Take(n) => Some(*n),
        Op::Count => None,
        Op::Serialize => None,
        Op::Sort(_) => None,
        Op::Top(_, _) => None,
        Op::Summarize(_) => None,
        Op::MakeSeries(_) => None,
        Op::MvExpand(_) => None,
        Op::Parse(_) => None,
        Op::Join(_, _) => None,
        Op::Union(_, _) => None,
        Op::Scan(_) => None,
        Op::Partition(_, _) => None,
    }
}

/// The keys of a `sort`.
#[tactic(auto, using(crate::proofs::ViewSteps::sort_steps))]
pub fn sort_of(op: &Op) -> Option<&Keys>
    ensures view { option_copied result ≡ sort_of op.now }
{
    match op {
        Op::Where(_) => None,
        Op::Extend(_) => None,
        Op::Project(_) => None,
        Op::Take(_) => None,
        Op::Count => None,
        Op::Serialize => None,
        Op::Sort(keys) => Some(keys),
        Op::Top(_, _) => None,
        Op::Summarize(_) => None,
        Op::MakeSeries(_) => None,
        Op::MvExpand(_) => None,
        Op::Parse(_) => None,
        Op::Join(_, _) => None,
        Op::Union(_, _) => None,
        Op::Scan(_) => None,
        Op::Partition(_, _) => None,
    }
}

/// What a `parse` takes.
#[tactic(auto, using(crate::proofs::ViewSteps::parse_steps))]
pub fn parse_of(op: &Op) -> Option<&ParsePlan>
    ensures view { option_copied result ≡ parse_of op.now }
{
    match op {
        Op::Where(_) => None,
        Op::Extend(_) => None,
        Op::Project(_) => None,
        Op::Take(_) => None,
        Op::Count => None,
        Op::Serialize => None,
        Op::Sort(_) => None,
        Op::Top(_, _) => None,
        Op::Summarize(_) => None,
        Op::MakeSeries(_) => None,
        Op::MvExpand(_) => None,
        Op::Parse(parse) => Some(parse),
        Op::Join(_, _) => None,
        Op::Union(_, _) => None,
        Op::Scan(_) => None,
        Op::Partition(_, _) => None,
    }
}

/// Whether this is a `count`.
#[tactic(auto, using(crate::proofs::ViewSteps::count_steps))]
pub fn is_count(op: &Op) -> bool
    ensures view { result ≡ is_count op.now }
{
    match op {
        Op::Where(_) => false,
        Op::Extend(_) => false,
        Op::Project(_) => false,
        Op::Take(_) => false,
        Op::Count => true,
        Op::Serialize => false,
        Op::Sort(_) => false,
        Op::Top(_, _) => false,
        Op::Summarize(_) => false,
        Op::MakeSeries(_) => false,
        Op::MvExpand(_) => false,
        Op::Parse(_) => false,
        Op::Join(_, _) => false,
        Op::Union(_, _) => false,
        Op::Scan(_) => false,
        Op::Partition(_, _) => false,
    }
}

/// Whether this is a bare `serialize`.
#[tactic(auto, using(crate::proofs::ViewSteps::serialize_steps))]
pub fn is_serialize(op: &Op) -> bool
    ensures view { result ≡ is_serialize op.now }
{
    match op {
        Op::Where(_) => false,
        Op::Extend(_) => false,
        Op::Project(_) => false,
        Op::Take(_) => false,
        Op::Count => false,
        Op::Serialize => true,
        Op::Sort(_) => false,
        Op::Top(_, _) => false,
        Op::Summarize(_) => false,
        Op::MakeSeries(_) => false,
        Op::MvExpand(_) => false,
        Op::Parse(_) => false,
        Op::Join(_, _) => false,
        Op::Union(_, _) => false,
        Op::Scan(_) => false,
        Op::Partition(_, _) => false,
    }
}

/// Whether a count does not see it.
#[tactic(auto, using(crate::proofs::ViewSteps::keeps_steps))]
pub fn keeps_count(op: &Op) -> bool
    ensures view { result ≡ keeps_count op.now }
{
    match op {
        Op::Where(_) => false,
        Op::Extend(_) => true,
        Op::Project(_) => true,
        Op::Take(_) => false,
        Op::Count => false,
        Op::Serialize => false,
        Op::Sort(_) => true,
        Op::Top(_, _) => false,
        Op::Summarize(_) => false,
        Op::MakeSeries(_) => false,
        Op::MvExpand(_) => false,
        Op::Parse(_) => false,
        Op::Join(_, _) => false,
        Op::Union(_, _) => false,
        Op::Scan(_) => false,
        Op::Partition(_, _) => false,
    }
}

/// The items of an `extend`.
#[tactic(auto, using(crate::proofs::FrontViewSteps::extend_steps))]
pub fn extend_of(op: &Op) -> Option<&BItems>
    ensures view { option_copied result ≡ extend_of op.now }
{
    match op {
        Op::Where(_) => None,
        Op::Extend(items) => Some(items),
        Op::Project(_) => None,
        Op::Take(_) => None,
        Op::Count => None,
        Op::Serialize => None,
        Op::Sort(_) => None,
        Op::Top(_, _) => None,
        Op::Summarize(_) => None,
        Op::MakeSeries(_) => None,
        Op::MvExpand(_) => None,
        Op::Parse(_) => None,
        Op::Join(_, _) => None,
        Op::Union(_, _) => None,
        Op::Scan(_) => None,
        Op::Partition(_, _) => None,
    }
}

/// The items of a `project`.
#[tactic(auto, using(crate::proofs::FrontViewSteps::project_steps))]
pub fn project_of(op: &Op) -> Option<&BItems>
    ensures view { option_copied result ≡ project_of op.now }
{
    match op {
        Op::Where(_) => None,
        Op::Extend(_) => None,
        Op::Project(items) => Some(items),
        Op::Take(_) => None,
        Op::Count => None,
        Op::Serialize => None,
        Op::Sort(_) => None,
        Op::Top(_, _) => None,
        Op::Summarize(_) => None,
        Op::MakeSeries(_) => None,
        Op::MvExpand(_) => None,
        Op::Parse(_) => None,
        Op::Join(_, _) => None,
        Op::Union(_, _) => None,
        Op::Scan(_) => None,
        Op::Partition(_, _) => None,
    }
}

/// What an `mv-expand` takes.
#[tactic(auto, using(crate::proofs::FrontViewSteps::expand_steps))]
pub fn expand_of(op: &Op) -> Option<&Expand>
    ensures view { option_copied result ≡ expand_of op.now }
{
    match op {
        Op::Where(_) => None,
        Op::Extend(_) => None,
        Op::Project(_) => None,
        Op::Take(_) => None,
        Op::Count => None,
        Op::Serialize => None,
        Op::Sort(_) => None,
        Op::Top(_, _) => None,
        Op::Summarize(_) => None,
        Op::MakeSeries(_) => None,
        Op::MvExpand(expand) => Some(expand),
        Op::Parse(_) => None,
        Op::Join(_, _) => None,
        Op::Union(_, _) => None,
        Op::Scan(_) => None,
        Op::Partition(_, _) => None,
    }
}

/// What a `summarize` takes.
#[tactic(auto, using(crate::proofs::FrontViewSteps::group_steps))]
pub fn group_of_op(op: &Op) -> Option<&GroupPlan>
    ensures view { option_copied result ≡ group_of_op op.now }
{
    match op {
        Op::Where(_) => None,
        Op::Extend(_) => None,
        Op::Project(_) => None,
        Op::Take(_) => None,
        Op::Count => None,
        Op::Serialize => None,
        Op::Sort(_) => None,
        Op::Top(_, _) => None,
        Op::Summarize(group) => Some(group),
        Op::MakeSeries(_) => None,
        Op::MvExpand(_) => None,
        Op::Parse(_) => None,
        Op::Join(_, _) => None,
        Op::Union(_, _) => None,
        Op::Scan(_) => None,
        Op::Partition(_, _) => None,
    }
}
