ghost use Rattle.std.specs.Prelude.{◌≡◌};
ghost use Rattle.kql_meaning.specs.FittingExpressions.{has_kind, is_addable, is_key, is_kind, same_known};
ghost use Rattle.kql_fits.specs.KindTests.{meets};

use kql_cells::Kind;
use kql_functions::{has_order, same_kind};

/// What is asked of a type.
#[derive(Clone, Copy, Debug, PartialEq, Eq)]
pub(crate) enum KindTest {
    /// It is this one.
    This(Kind),
    /// Keys are of it: any but dynamic.
    Key,
    /// It has an order.
    Ordered,
    /// It is added up.
    Addable,
    /// Nothing.
    Any,
}

/// Whether a type is as asked.
#[tactic(auto, unfolding(kql_meaning::specs::FittingExpressions::is_any))]
pub(crate) fn meets(test: KindTest, k: Kind) -> bool
    ensures meets { result ≡ meets test k }
{
    match test {
        KindTest::This(other) => same_kind(other, k),
        KindTest::Key => is_key(k),
        KindTest::Ordered => has_order(k),
        KindTest::Addable => is_addable(k),
        KindTest::Any => true,
    }
}

/// Whether there is a type, and it is as asked.
#[tactic(auto, unfolding(kql_meaning::specs::FittingExpressions::has_kind))]
pub(crate) fn has_kind(test: KindTest, k: Option<Kind>) -> bool
    ensures has { result ≡ has_kind (meets test) k }
{
    match k {
        None => false,
        Some(kind) => meets(test, kind),
    }
}

/// Whether there is a type, and it is this one.
#[tactic(auto, unfolding(kql_meaning::specs::FittingExpressions::has_kind, kql_meaning::specs::FittingExpressions::is_kind))]
pub(crate) fn is_kind(k: Kind, l: Option<Kind>) -> bool
    ensures is { result ≡ is_kind k l }
{
    match l {
        None => false,
        Some(other) => same_kind(k, other),
    }
}

/// Whether there are two types, and they are one.
#[tactic(auto, unfolding(kql_meaning::specs::FittingExpressions::same_known))]
pub(crate) fn same_known(k: Option<Kind>, l: Option<Kind>) -> bool
    ensures same { result ≡ same_known k l }
{
    match k {
        None => false,
        Some(kind) => is_kind(kind, l),
    }
}

/// Whether keys are of a type: of any but dynamic.
#[tactic(auto, unfolding(kql_meaning::specs::FittingExpressions::is_key))]
pub(crate) fn is_key(k: Kind) -> bool
    ensures key { result ≡ is_key k }
{
    match k {
        Kind::Dynamic => false,
        _ => true,
    }
}

#[tactic(auto, unfolding(kql_meaning::specs::FittingExpressions::is_addable))]
fn is_addable(k: Kind) -> bool
    ensures addable { result ≡ is_addable k }
{
    match k {
        Kind::Long => true,
        Kind::Span => true,
        _ => false,
    }
}
