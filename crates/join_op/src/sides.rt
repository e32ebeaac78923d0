//! The sides of a join.
ghost use Rattle.std.specs.Prelude.{◌≡◌};
ghost use Rattle.join_op.specs.Sides.{key_name, lead_side, opposite};

use kql_bound::{JoinKind, OnPair};

/// A side of a join.
#[derive(Clone, Copy, Debug, PartialEq, Eq)]
pub enum Side {
    Left,
    Right,
}

/// The side whose rows come in their order.
#[tactic(auto, unfolding(crate::specs::Sides::lead_side))]
pub fn lead_side(kind: JoinKind) -> Side
    ensures side { result ≡ lead_side kind }
{
    match kind {
        JoinKind::RightOuter => Side::Right,
        JoinKind::RightSemi => Side::Right,
        JoinKind::RightAnti => Side::Right,
        _ => Side::Left,
    }
}

/// The other side.
#[tactic(auto, unfolding(crate::specs::Sides::opposite))]
pub fn opposite(side: Side) -> Side
    ensures side { result ≡ opposite side }
{
    match side {
        Side::Left => Side::Right,
        Side::Right => Side::Left,
    }
}

/// The name of a key's column on a side.
#[tactic(auto, unfolding(crate::specs::Sides::key_name))]
pub(crate) fn key_name(side: Side, pair: &OnPair) -> &str
    ensures name { result.now ≡ key_name side pair.now }
{
    match side {
        Side::Left => pair.left.as_str(),
        Side::Right => pair.right.as_str(),
    }
}
