//! The rows of a join as pairs of places.
ghost use Rattle.std.specs.Prelude.{◌≡◌, ◌<◌, ◌≤◌, ◌++◌, ◌∷◌, [], All, IfOk, IsTrue, None, OnOk, Some, length, map};
ghost use Rattle.std.specs.List.{range_with_len};
ghost use Rattle.kql_keys.specs.Matches.{matches_in};
ghost use Rattle.kql_values.specs.Grids.{row_of};
ghost use Rattle.join_op.specs.Pairs.{given, has_lead, join_pairs, pairs_by, row_rule, rows_led, shows_both};
ghost use Rattle.join_op.specs.Sides.{have_keys, lead_side, opposite};

use crate::keys::key_columns;
use crate::sides::{lead_side, opposite};
use kql_bound::{JoinKind, OnPair};
use kql_cells::Places;
use kql_items::Items;
use kql_keys::{Numbered, Probe, number_keys};
use kql_values::{Table, Vector};
use std::alloc::{AllocError, Global};

/// What a row of the side that leads gives.
#[derive(Clone, Copy, Debug, PartialEq, Eq)]
pub enum RowRule {
    /// A row with each of its matches.
    EachMatch,
    /// The same, and where it has none a row alone.
    EachMatchOrAlone,
    /// One row alone, where it has a match.
    OnceIfMatched,
    /// One row alone, where it has none.
    OnceIfUnmatched,
}

/// Places that may be none.
pub(crate) type PlacesOrNone = Items<Option<usize>>;

/// For each row of a join, the place of the row that leads it, and that of its match, or none.
#[derive(Drop)]
pub(crate) struct Pairs {
    pub(crate) leads: Places,
    pub(crate) others: PlacesOrNone,
}

/// Whether one side leads all rows of a kind of join: in `FullOuter` none does.
#[tactic(auto, unfolding(crate::specs::Pairs::has_lead))]
pub fn has_lead(kind: JoinKind) -> bool
    ensures lead { result ≡ has_lead kind }
{
    match kind {
        JoinKind::FullOuter => false,
        _ => true,
    }
}

/// Whether a kind of join shows the columns of both sides.
#[tactic(auto, unfolding(crate::specs::Pairs::shows_both))]
pub fn shows_both(kind: JoinKind) -> bool
    ensures both { result ≡ shows_both kind }
{
    match kind {
        JoinKind::LeftSemi => false,
        JoinKind::LeftAnti => false,
        JoinKind::RightSemi => false,
        JoinKind::RightAnti => false,
        _ => true,
    }
}

/// What a row of the side that leads gives in a kind of join.
#[tactic(auto, unfolding(crate::specs::Pairs::row_rule))]
pub(crate) fn row_rule(kind: JoinKind) -> RowRule
    ensures rule { result ≡ row_rule kind }
{
    match kind {
        JoinKind::InnerUnique => RowRule::EachMatch,
        JoinKind::Inner => RowRule::EachMatch,
        JoinKind::LeftOuter => RowRule::EachMatchOrAlone,
        JoinKind::RightOuter => RowRule::EachMatchOrAlone,
        JoinKind::FullOuter => RowRule::EachMatchOrAlone,
        JoinKind::LeftSemi => RowRule::OnceIfMatched,
        JoinKind::RightSemi => RowRule::OnceIfMatched,
        JoinKind::LeftAnti => RowRule::OnceIfUnmatched,
        JoinKind::RightAnti => RowRule::OnceIfUnmatched,
    }
}

/// The pairs of a kind of join, over the table that leads and the other.
#[tactic(auto, using(crate::proofs::MatchSteps::match_steps))]
pub(crate) fn join_pairs(
    alloc: Global,
    kind: JoinKind,
    on: &[OnPair],
    lead: &Table,
    other: &Table,
) -> Result<Pairs, AllocError>
    requires lead_keys { IsTrue (have_keys (lead_side kind) on.now lead.now.columns) }
    requires other_keys { IsTrue (have_keys (opposite (lead_side kind)) on.now other.now.columns) }
    ensures leads { IfOk result (λ p. p.leads ≡ map (λ q. q.0) (join_pairs kind on.now lead.now other.now)) }
    ensures others { IfOk result (λ p. p.others ≡ map (λ q. q.1) (join_pairs kind on.now lead.now other.now)) }
{
    let side = lead_side(kind);
    let keys = key_columns(alloc, side, on, lead)?;
    let other_keys = key_columns(alloc, opposite(side), on, other)?;
    let leads = rows_led(alloc, kind, keys.as_slice(), lead.len())?;
    let probe = Probe::new(alloc, other_keys.as_slice(), other.len())?;
    let pairs = pairs_found(
        alloc,
        row_rule(kind),
        &probe,
        keys.as_slice(),
        leads.as_slice(),
    )?;
    Ok(pairs)
}

/// The rows of the side that leads which are joined.
#[tactic(auto, unfolding(crate::specs::Pairs::rows_led))]
pub(crate) fn rows_led(
    alloc: Global,
    kind: JoinKind,
    columns: &[&Vector],
    count: usize,
) -> Result<Places, AllocError>
    requires long { All (λ c. count ≤ length c.now) columns.now }
    ensures rows { IfOk result (λ ps. ps ≡ rows_led kind (map (λ c. c.now) columns.now) count) }
{
    match kind {
        JoinKind::InnerUnique => {
            let Numbered { numbers: _, firsts } = number_keys(alloc, columns, count)?;
            Ok(firsts)
        }
        _ => all_rows(alloc, count),
    }
}

// The places below a count.
#[tactic(auto, using(crate::proofs::PairSteps::row_steps))]
fn all_rows(alloc: Global, count: usize) -> Result<Places, AllocError>
    ensures rows { IfOk result (λ ps. ps ≡ range_with_len 0 count) }
{
    let mut places = Items::with_capacity(alloc, count)?;
    for i in 0..count {
        places.push(i)?;
    }
    Ok(places)
}

/// The pairs that these rows give, with the rows that the probe finds for them.
pub(crate) fn pairs_found(
    alloc: Global,
    rule: RowRule,
    probe: &Probe<'_>,
    columns: &[&Vector],
    leads: &[usize],
) -> Result<Pairs, AllocError>
    requires within { All (λ i. All (λ c. i < length c.now) columns.now) leads.now }
    ensures leads { IfOk result (λ p. p.leads ≡ map (λ q. q.0) (pairs_by rule (λ i. matches_in probe.now (row_of (map (λ c. c.now) columns.now) i)) leads.now)) }
    ensures others { IfOk result (λ p. p.others ≡ map (λ q. q.1) (pairs_by rule (λ i. matches_in probe.now (row_of (map (λ c. c.now) columns.now) i)) leads.now)) }
{
    let mut made = Items::new(alloc);
    let mut others = Items::new(alloc);
    for k in 0..leads.len() {
        let lead = leads[k];
        let found = probe.matches_of(columns, lead);
        push_given(&mut made, &mut others, rule, lead, found)?;
    }
    Ok(Pairs {
        leads: made,
        others,
    })
}

// Adds the pairs that a row gives with its matches.
#[tactic(auto, unfolding(crate::specs::Pairs::given))]
fn push_given(
    leads: &mut Places,
    others: &mut PlacesOrNone,
    rule: RowRule,
    lead: usize,
    found: &[usize],
) -> Result<(), AllocError>
    ensures leads { OnOk result (leads.new ≡ leads.old ++ map (λ o. lead) (given rule found.now)) }
    ensures others { OnOk result (others.new ≡ others.old ++ given rule found.now) }
{
    match (rule, found) {
        (RowRule::EachMatch, _) => push_matches(leads, others, lead, found),
        (RowRule::EachMatchOrAlone, []) => push_alone(leads, others, lead),
        (RowRule::EachMatchOrAlone, _) => push_matches(leads, others, lead, found),
        (RowRule::OnceIfMatched, []) => Ok(()),
        (RowRule::OnceIfMatched, _) => push_alone(leads, others, lead),
        (RowRule::OnceIfUnmatched, []) => push_alone(leads, others, lead),
        (RowRule::OnceIfUnmatched, _) => Ok(()),
    }
}

// Adds a pair of a row and none.
fn push_alone(leads: &mut Places, others: &mut PlacesOrNone, lead: usize) -> Result<(), AllocError>
    ensures leads { OnOk result (leads.new ≡ leads.old ++ lead ∷ []) }
    ensures others { OnOk result (others.new ≡ others.old ++ None ∷ []) }
{
    leads.push(lead)?;
    others.push(None)?;
    Ok(())
}

// Adds the pairs of a row with each of these.
fn push_matches(
    leads: &mut Places,
    others: &mut PlacesOrNone,
    lead: usize,
    found: &[usize],
) -> Result<(), AllocError>
    ensures leads { OnOk result (leads.new ≡ leads.old ++ map (λ j. lead) found.now) }
    ensures others { OnOk result (others.new ≡ others.old ++ map (λ j. Some j) found.now) }
{
    for j in 0..found.len() {
        leads.push(lead)?;
        others.push(Some(found[j]))?;
    }
    Ok(())
}

/// These places, none of which is none.
pub(crate) fn some_places(alloc: Global, places: &[usize]) -> Result<PlacesOrNone, AllocError>
    ensures places { IfOk result (λ ps. ps ≡ map (λ i. Some i) places.now) }
{
    let mut made = Items::with_capacity(alloc, places.len())?;
    for k in 0..places.len() {
        made.push(Some(places[k]))?;
    }
    Ok(made)
}
