//! What expressions and items read.
ghost use Rattle.std.specs.Prelude.{◌≡◌, ◌&&◌, []};
ghost use Rattle.std.specs.List.{list_all};
ghost use Rattle.pattern_lift.specs.Calls.{calls_are_lent};
ghost use Rattle.kql_bound.specs.declared.parts.BItem.{BItem};
ghost use Rattle.pattern_laws.specs.Liftable.{is_readable, item_is_liftable};
ghost use Rattle.pattern_laws.proofs.ToldSteps.{links_readable};

use crate::marks::{begins_with, is_own_name};
use kql_bound::{BExpr, BItem, Link};
use kql_cells::KText;
use pattern_lift::calls_are_lent;

/// Whether no column that an expression reads begins with the marks, and no aggregate stands in it.
#[cycle(is_readable)]
#[tactic(auto, using(crate::proofs::PlaceSteps::readable_steps))]
pub(crate) fn is_readable(marks: &str, e: &BExpr) -> bool
    ensures readable { result ≡ is_readable marks.now e.now }
{
    match e {
        BExpr::Literal(_) => true,
        BExpr::Column(name) => !begins_with(marks, name.as_str()),
        BExpr::Step(_) => true,
        BExpr::Call(_, args) => all_readable(marks, args.as_slice()),
        BExpr::Chain(first, links) => {
            is_readable(marks, first.get()) && links_readable(marks, links.as_slice())
        }
        BExpr::Path(whole, steps) => {
            is_readable(marks, whole.get()) && all_readable(marks, steps.as_slice())
        }
        BExpr::Window(_, args) => all_readable(marks, args.as_slice()),
        BExpr::Aggregate(_, _) => false,
    }
}

#[cycle(is_readable)]
fn all_readable(marks: &str, es: &[BExpr]) -> bool
    ensures readable { result ≡ list_all (is_readable marks.now) es.now }
{
    for e in es {
        if !is_readable(marks, e) {
            return false;
        }
    }
    true
}

#[cycle(is_readable)]
fn links_readable(marks: &str, links: &[Link]) -> bool
    ensures readable { result ≡ links_readable marks.now links.now }
{
    for link in links {
        if !is_readable(marks, &link.1) {
            return false;
        }
    }
    true
}

/// Whether an expression of a prefix can be lifted, where these columns are lent to its calls.
pub(crate) fn is_liftable(marks: &str, lent: &[KText], e: &BExpr) -> bool
    ensures liftable { result ≡ (calls_are_lent lent.now e.now && is_readable marks.now e.now) }
{
    calls_are_lent(lent, e) && is_readable(marks, e)
}

#[tactic(auto, unfolding(pattern_laws::specs::Liftable::item_is_liftable))]
fn item_is_liftable(marks: &str, lent: &[KText], item: &BItem) -> bool
    ensures liftable { result ≡ item_is_liftable marks.now lent.now item.now }
{
    is_own_name(marks, item.names.as_slice()) && is_liftable(marks, lent, &item.expr)
}

/// Whether the items of an `extend` of a prefix can be lifted.
pub(crate) fn items_are_liftable(marks: &str, lent: &[KText], items: &[BItem]) -> bool
    ensures liftable { result ≡ list_all (item_is_liftable marks.now lent.now) items.now }
{
    let mut left = items;
    'items: while let Some((item, more)) = left.split_first() {
        if !item_is_liftable(marks, lent, item) {
            return false;
        }
        left = more;
    }
    true
}

/// Whether items hold no calls.
pub(crate) fn items_have_no_calls(items: &[BItem]) -> bool
    ensures none { result ≡ list_all (λ (b : BItem). calls_are_lent [] b.expr) items.now }
{
    let mut left = items;
    'items: while let Some((item, more)) = left.split_first() {
        if !calls_are_lent(&[], &item.expr) {
            return false;
        }
        left = more;
    }
    true
}
