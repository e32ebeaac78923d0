//! The forms that the types of arguments take: rows of a table, one type throughout, and what belongs in turn.
ghost use Rattle.std.specs.Prelude.{◌≡◌, map};
ghost use Rattle.kql_functions.specs.Kinds.{all_listed, all_same, are_pairs, behind_text, beside_dynamic, cases_of, has_order, is_dynamic, is_listed, one_among, one_of_any, one_of_cases, one_of_pairs, one_of_two, read_row, row, rows, same_kind, same_kinds, several, several_of, text_among, two_equal, two_or_more, two_or_more_ordered, two_ordered};

use kql_cells::Kind;

/// Whether two types are the same.
pub fn same_kind(a: Kind, b: Kind) -> bool
    ensures same { result ≡ same_kind a b }
{
    match (a, b) {
        (Kind::Bool, Kind::Bool) => true,
        (Kind::Long, Kind::Long) => true,
        (Kind::Text, Kind::Text) => true,
        (Kind::Moment, Kind::Moment) => true,
        (Kind::Span, Kind::Span) => true,
        (Kind::Dynamic, Kind::Dynamic) => true,
        _ => false,
    }
}

#[tactic(auto, unfolding(crate::specs::Kinds::same_kinds))]
fn same_kinds(kinds: &[Kind], taken: &[Kind]) -> bool
    ensures { result ≡ same_kinds kinds.now taken.now }
{
    let mut left = kinds;
    let mut wanted = taken;
    'kinds: while let [kind, more @ ..] = left {
        let [first, others @ ..] = wanted else {
            return false;
        };
        if !same_kind(*kind, *first) {
            return false;
        }
        left = more;
        wanted = others;
    }
    wanted.is_empty()
}

// A row of a table: the type given where these are the types taken.
#[tactic(auto, unfolding(crate::specs::Kinds::row))]
pub(crate) fn row(kinds: &[Kind], taken: &[Kind], given: Kind) -> Option<Kind>
    ensures { result ≡ row kinds.now taken.now given }
{
    if same_kinds(kinds, taken) {
        Some(given)
    } else {
        None
    }
}

// The first row of a table that fits.
#[tactic(auto, using(crate::proofs::RowFacts::row_facts))]
pub(crate) fn rows(kinds: &[Kind], table: &[(&[Kind], Kind)]) -> Option<Kind>
    ensures { result ≡ rows kinds.now (map read_row table.now) }
{
    let mut left = table;
    'rows: while let [first, more @ ..] = left {
        if let Some(given) = row(kinds, first.0, first.1) {
            return Some(given);
        }
        left = more;
    }
    None
}

// One type throughout.
#[tactic(auto, unfolding(crate::specs::Kinds::all_same))]
fn all_same(kind: Kind, kinds: &[Kind]) -> bool
    ensures { result ≡ all_same kind kinds.now }
{
    let mut left = kinds;
    'kinds: while let [next, more @ ..] = left {
        if !same_kind(kind, *next) {
            return false;
        }
        left = more;
    }
    true
}

// Of this type, or dynamic.
fn is_listed(kind: Kind, other: Kind) -> bool
    ensures { result ≡ is_listed kind other }
{
    match other {
        Kind::Dynamic => true,
        _ => same_kind(kind, other),
    }
}

#[tactic(auto, unfolding(crate::specs::Kinds::all_listed))]
fn all_listed(kind: Kind, kinds: &[Kind]) -> bool
    ensures { result ≡ all_listed kind kinds.now }
{
    let mut left = kinds;
    'kinds: while let [next, more @ ..] = left {
        if !is_listed(kind, *next) {
            return false;
        }
        left = more;
    }
    true
}

fn is_dynamic(kind: Kind) -> bool
    ensures { result ≡ is_dynamic kind }
{
    match kind {
        Kind::Dynamic => true,
        _ => false,
    }
}

/// Whether a type has an order: longs, datetimes and timespans have one.
pub fn has_order(kind: Kind) -> bool
    ensures order { result ≡ has_order kind }
{
    match kind {
        Kind::Long => true,
        Kind::Moment => true,
        Kind::Span => true,
        _ => false,
    }
}

#[tactic(auto, unfolding(crate::specs::Kinds::one_of_any))]
pub(crate) fn one_of_any(given: Kind, kinds: &[Kind]) -> Option<Kind>
    ensures { result ≡ one_of_any given kinds.now }
{
    match kinds {
        [_] => Some(given),
        _ => None,
    }
}

#[tactic(auto, unfolding(crate::specs::Kinds::two_equal))]
pub(crate) fn two_equal(kinds: &[Kind]) -> Option<Kind>
    ensures { result ≡ two_equal kinds.now }
{
    match kinds {
        [a, b] => {
            if same_kind(*a, *b) && !is_dynamic(*a) {
                Some(Kind::Bool)
            } else {
                None
            }
        }
        _ => None,
    }
}

#[tactic(auto, unfolding(crate::specs::Kinds::two_ordered))]
pub(crate) fn two_ordered(kinds: &[Kind]) -> Option<Kind>
    ensures { result ≡ two_ordered kinds.now }
{
    match kinds {
        [a, b] => {
            if same_kind(*a, *b) && has_order(*a) {
                Some(Kind::Bool)
            } else {
                None
            }
        }
        _ => None,
    }
}

#[tactic(auto, unfolding(crate::specs::Kinds::one_among))]
pub(crate) fn one_among(kinds: &[Kind]) -> Option<Kind>
    ensures { result ≡ one_among kinds.now }
{
    if kinds.len() >= 2 && all_listed(kinds[0], &kinds[1..]) && !is_dynamic(kinds[0]) {
        Some(Kind::Bool)
    } else {
        None
    }
}

#[tactic(auto, unfolding(crate::specs::Kinds::text_among))]
pub(crate) fn text_among(kinds: &[Kind]) -> Option<Kind>
    ensures { result ≡ text_among kinds.now }
{
    if kinds.len() >= 2 && all_listed(Kind::Text, &kinds[1..]) && same_kind(kinds[0], Kind::Text) {
        Some(Kind::Bool)
    } else {
        None
    }
}

#[tactic(auto, unfolding(crate::specs::Kinds::several_of))]
pub(crate) fn several_of(least: usize, taken: Kind, given: Kind, kinds: &[Kind]) -> Option<Kind>
    ensures { result ≡ several_of least taken given kinds.now }
{
    if kinds.len() >= least && all_same(taken, kinds) {
        Some(given)
    } else {
        None
    }
}

#[tactic(auto, unfolding(crate::specs::Kinds::several))]
pub(crate) fn several(least: usize, given: Kind, kinds: &[Kind]) -> Option<Kind>
    ensures { result ≡ several least given kinds.now }
{
    if kinds.len() >= least {
        Some(given)
    } else {
        None
    }
}

#[tactic(auto, unfolding(crate::specs::Kinds::two_or_more))]
pub(crate) fn two_or_more(kinds: &[Kind]) -> Option<Kind>
    ensures { result ≡ two_or_more kinds.now }
{
    if kinds.len() >= 2 && all_same(kinds[0], &kinds[1..]) {
        Some(kinds[0])
    } else {
        None
    }
}

#[tactic(auto, unfolding(crate::specs::Kinds::two_or_more_ordered))]
pub(crate) fn two_or_more_ordered(kinds: &[Kind]) -> Option<Kind>
    ensures { result ≡ two_or_more_ordered kinds.now }
{
    if kinds.len() >= 2 && all_same(kinds[0], &kinds[1..]) && has_order(kinds[0]) {
        Some(kinds[0])
    } else {
        None
    }
}

// Conditions and values in turn, of the type of the last.
#[tactic(auto, unfolding(crate::specs::Kinds::cases_of))]
fn cases_of(last: Kind, kinds: &[Kind]) -> bool
    ensures { result ≡ cases_of last kinds.now }
{
    let mut left = kinds;
    'cases: while let [condition, more @ ..] = left {
        let [value, rest @ ..] = more else {
            return same_kind(*condition, last);
        };
        if !same_kind(*condition, Kind::Bool) || !same_kind(*value, last) {
            return false;
        }
        left = rest;
    }
    false
}

#[tactic(auto, unfolding(crate::specs::Kinds::one_of_two))]
pub(crate) fn one_of_two(kinds: &[Kind]) -> Option<Kind>
    ensures { result ≡ one_of_two kinds.now }
{
    match kinds {
        [condition, a, b] => {
            if same_kind(*condition, Kind::Bool) && same_kind(*b, *a) {
                Some(*a)
            } else {
                None
            }
        }
        _ => None,
    }
}

#[tactic(auto, unfolding(crate::specs::Kinds::one_of_cases))]
pub(crate) fn one_of_cases(kinds: &[Kind]) -> Option<Kind>
    ensures { result ≡ one_of_cases kinds.now }
{
    if kinds.len() >= 2 && same_kind(kinds[0], Kind::Bool) && cases_of(kinds[1], &kinds[2..]) {
        Some(kinds[1])
    } else {
        None
    }
}

#[tactic(auto, unfolding(crate::specs::Kinds::behind_text))]
pub(crate) fn behind_text(kinds: &[Kind]) -> Option<Kind>
    ensures { result ≡ behind_text kinds.now }
{
    if kinds.len() >= 2 && same_kind(kinds[0], Kind::Text) {
        Some(Kind::Text)
    } else {
        None
    }
}

#[tactic(auto, unfolding(crate::specs::Kinds::beside_dynamic))]
pub(crate) fn beside_dynamic(given: Kind, kinds: &[Kind]) -> Option<Kind>
    ensures { result ≡ beside_dynamic given kinds.now }
{
    if kinds.len() == 2 && same_kind(kinds[0], Kind::Dynamic) {
        Some(given)
    } else {
        None
    }
}

// Texts and values in turn.
#[tactic(auto, unfolding(crate::specs::Kinds::are_pairs))]
fn are_pairs(kinds: &[Kind]) -> bool
    ensures { result ≡ are_pairs kinds.now }
{
    let mut left = kinds;
    'pairs: while let [key, more @ ..] = left {
        let [_, rest @ ..] = more else {
            return false;
        };
        if !same_kind(*key, Kind::Text) {
            return false;
        }
        left = rest;
    }
    true
}

#[tactic(auto, unfolding(crate::specs::Kinds::one_of_pairs))]
pub(crate) fn one_of_pairs(kinds: &[Kind]) -> Option<Kind>
    ensures { result ≡ one_of_pairs kinds.now }
{
    if kinds.len() >= 1 && are_pairs(kinds) {
        Some(Kind::Dynamic)
    } else {
        None
    }
}
