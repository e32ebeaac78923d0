//! What is asked of types.
ghost use Rattle.std.specs.Prelude.{◌≡◌};
ghost use Rattle.bind_expr.specs.KindTests.{kind_if, meets};
ghost use Rattle.kql_meaning.specs.FittingExpressions.{is_addable, is_key};

use kql_cells::Kind;
use kql_functions::{has_order, same_kind};

/// What is asked of a type.
#[derive(Clone, Copy, Debug, PartialEq, Eq)]
pub(crate) enum KindTest {
    /// It is this one.
    This(Kind),
    /// Keys are of it: any but dynamic.
    Key,
    /// It has an order.
    Ordered,
    /// It is added up.
    Addable,
    /// Nothing.
    Any,
}

/// Whether a type is as asked.
#[tactic(auto, unfolding(crate::specs::KindTests::meets))]
pub(crate) fn meets(test: KindTest, kind: Kind) -> bool
    ensures { result ≡ meets test kind }
{
    match test {
        KindTest::This(other) => same_kind(kind, other),
        KindTest::Key => is_key(kind),
        KindTest::Ordered => has_order(kind),
        KindTest::Addable => is_addable(kind),
        KindTest::Any => true,
    }
}

#[tactic(auto, unfolding(kql_meaning::specs::FittingExpressions::is_key))]
fn is_key(kind: Kind) -> bool
    ensures { result ≡ is_key kind }
{
    match kind {
        Kind::Dynamic => false,
        _ => true,
    }
}

#[tactic(auto, unfolding(kql_meaning::specs::FittingExpressions::is_addable))]
pub(crate) fn is_addable(kind: Kind) -> bool
    ensures { result ≡ is_addable kind }
{
    match kind {
        Kind::Long => true,
        Kind::Span => true,
        _ => false,
    }
}

/// A type where something holds, else none.
pub(crate) fn kind_if(holds: bool, kind: Kind) -> Option<Kind>
    ensures { result ≡ kind_if holds kind }
{
    if holds { Some(kind) } else { None }
}
