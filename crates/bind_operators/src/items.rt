//! Items, and the names of their columns.
ghost use Rattle.std.specs.Prelude.{◌≡◌, [], ◌∷◌, ◌++◌, ◌+◌, IfOk, Ok};
ghost use Rattle.bind_expr.specs.Outcome.{Answers};
ghost use Rattle.std.specs.List.{list_any};
ghost use Rattle.kql_meaning.specs.Tables.{is_name_among};
ghost use Rattle.bind_operators.specs.Faults.{unless};
ghost use Rattle.bind_operators.specs.Items.{clash, given_name, item_in, item_link, items_bound, names_of_items, names_or_own, no_items, number_behind, twice, twice_items, with_item, with_names};

use crate::answers::or_lost;
use crate::places::{item_start, text_of};
use bind_expr::{BindFault, Scope, Typed, bind_expr};
use item_names::{item_names, takes_number};
use kql_bound::{BExpr, BItem, BItems};
use kql_cells::{KText, Names, copy_names};
use kql_columns::is_name_among;
use kql_fits::are_distinct;
use kql_items::Items;
use kql_lexer::Place;
use kql_syntax::Item;
use std::alloc::{AllocError, Global};

/// Items bound so far.
#[derive(Debug, Drop)]
pub struct NamedItems {
    /// Under their names.
    pub items: BItems,
    /// The places of their first tokens.
    pub places: Items<Place>,
    /// The number of the next column that has no name by itself, as `Column1`.
    pub next: u64,
}

/// The name that an item is given.
#[tactic(auto, unfolding(crate::specs::Items::given_name))]
pub fn given_name(alloc: Global, item: &Item) -> Result<Option<KText>, AllocError>
    ensures name { IfOk result (λ n. n ≡ given_name item.now) }
{
    match &item.name {
        None => Ok(None),
        Some(n) => Ok(Some(text_of(n).copy(alloc)?)),
    }
}

/// The names of an item with one.
pub fn one(alloc: Global, name: KText) -> Result<Names, AllocError>
    ensures one { IfOk result (λ ns. ns ≡ name ∷ []) }
{
    let mut names = Items::with_capacity(alloc, 1)?;
    names.push(name)?;
    Ok(names)
}

/// The names of an item's columns.
#[tactic(auto, unfolding(crate::specs::Items::names_or_own))]
pub fn names_or_own(
    alloc: Global,
    next: u64,
    given: Option<KText>,
    e: &BExpr,
) -> Result<Names, AllocError>
    ensures names { IfOk result (λ ns. ns ≡ names_or_own next given e.now) }
{
    match given {
        None => item_names(alloc, e, next),
        Some(name) => one(alloc, name),
    }
}

/// The number behind this one. Where it is no number of the machine there is no memory for so many items.
pub(crate) fn number_after(next: u64) -> Result<u64, AllocError>
    ensures number { IfOk result (λ n. n ≡ next + 1) }
{
    match next.checked_add(1) {
        Some(next) => Ok(next),
        None => Err(AllocError),
    }
}

/// The number behind an item.
#[tactic(auto, unfolding(crate::specs::Items::number_behind, item_names::specs::ItemNames::next_number))]
pub fn number_behind(next: u64, given: &Option<KText>, e: &BExpr) -> Result<u64, AllocError>
    ensures number { IfOk result (λ n. n ≡ number_behind next given.now e.now) }
{
    if given.is_some() || !takes_number(e) {
        return Ok(next);
    }
    number_after(next)
}

/// One item more under its names.
pub fn with_names(
    done: NamedItems,
    place: Place,
    names: Names,
    expr: BExpr,
    next: u64,
) -> Result<NamedItems, AllocError>
    ensures added { IfOk result (λ d. d ≡ with_names done place names expr next) }
{
    let NamedItems { items, places, .. } = done;
    let mut items = items;
    let mut places = places;
    items.push(BItem { names, expr })?;
    places.push(place)?;
    Ok(NamedItems {
        items,
        places,
        next,
    })
}

#[tactic(auto, unfolding(crate::specs::Items::with_item))]
fn with_item(
    alloc: Global,
    done: NamedItems,
    item: &Item,
    t: Typed,
) -> Result<NamedItems, AllocError>
    ensures added { IfOk result (λ d. d ≡ with_item done item.now t) }
{
    let given = given_name(alloc, item)?;
    let next = number_behind(done.next, &given, t.expr.get())?;
    let names = names_or_own(alloc, done.next, given, t.expr.get())?;
    with_names(done, item_start(item), names, t.expr.into_inner(), next)
}

/// One item more, or the first fault.
#[tactic(auto, using(bind_expr::proofs::AnswerFacts::answer_steps))]
pub fn next_item(
    alloc: Global,
    before: Result<NamedItems, BindFault>,
    item: &Item,
    next: Result<Typed, BindFault>,
) -> Result<NamedItems, BindFault>
    ensures exact { Answers result (item_link before item.now next) }
{
    match before {
        Ok(done) => match next {
            Ok(t) => or_lost(with_item(alloc, done, item, t)),
            Err(fault) => {
                drop(done);
                Err(fault)
            }
        },
        Err(fault) => {
            drop(next);
            Err(fault)
        }
    }
}

/// An item's expression.
#[tactic(auto, unfolding(crate::specs::Items::item_in))]
pub fn bind_item(alloc: Global, scope: &Scope, item: &Item) -> Result<Typed, BindFault>
    ensures exact { Answers result (item_in scope.now item.now) }
{
    bind_expr(alloc, &item.value, scope)
}

/// No items behind a number.
#[tactic(auto, unfolding(crate::specs::Items::no_items))]
pub fn no_items(alloc: Global, next: u64) -> NamedItems
    ensures none { result ≡ no_items next }
{
    NamedItems {
        items: Items::new(alloc),
        places: Items::new(alloc),
        next,
    }
}

/// Items from left to right.
#[tactic(auto, using(crate::proofs::AnswerSteps::items_steps), unfolding(crate::specs::Items::items_bound))]
pub fn bind_items(alloc: Global, scope: &Scope, items: &[Item]) -> Result<NamedItems, BindFault>
    ensures exact { Answers result (items_bound scope.now items.now) }
{
    let mut done = Ok(no_items(alloc, 1));
    'each: for item in items {
        let t = bind_item(alloc, scope, item);
        done = next_item(alloc, done, item, t);
    }
    done
}

// Columns of one name.

// Whether one of these names is among others.
fn any_among(before: &[KText], names: &[KText]) -> bool
    ensures any { result ≡ list_any (is_name_among before.now) names.now }
{
    let mut left = names;
    'each: while let Some((name, more)) = left.split_first() {
        if is_name_among(before, name.as_str()) {
            return true;
        }
        left = more;
    }
    false
}

// Whether one of these names stands before them, or twice among them.
#[tactic(auto, unfolding(crate::specs::Items::clash))]
fn clash(before: &[KText], names: &[KText]) -> bool
    ensures clash { result ≡ clash before.now names.now }
{
    any_among(before, names) || !are_distinct(names)
}

fn with_more(alloc: Global, names: Names, more: &[KText]) -> Result<Names, AllocError>
    ensures more { IfOk result (λ ns. ns ≡ names ++ more.now) }
{
    let mut names = names;
    names.append(copy_names(alloc, more)?)?;
    Ok(names)
}

/// The first item that gives a column of a name that stands already: before the items, or in an item before it.
#[tactic(auto, using(bind_expr::proofs::AnswerFacts::answer_steps), unfolding(crate::specs::Items::twice, crate::specs::Faults::unless, crate::specs::Faults::fault_if))]
pub fn first_twice(
    alloc: Global,
    before: Names,
    places: &[Place],
    items: &[BItem],
) -> Result<(), BindFault>
    ensures exact { Answers result (unless (twice before places.now (names_of_items items.now)) tt) }
{
    let mut taken = before;
    let mut places = places;
    let mut items = items;
    'each: while let Some((place, behind)) = places.split_first() {
        let Some((item, more)) = items.split_first() else {
            return Ok(());
        };
        if clash(taken.as_slice(), item.names.as_slice()) {
            return Err(BindFault::Refused {
                code: 411,
                place: *place,
            });
        }
        match with_more(alloc, taken, item.names.as_slice()) {
            Ok(more_taken) => taken = more_taken,
            Err(_) => return Err(BindFault::OutOfMemory),
        }
        places = behind;
        items = more;
    }
    Ok(())
}

/// The first item that gives a column of a name that an item before it gives.
#[tactic(auto, unfolding(crate::specs::Items::twice_items))]
pub fn twice_items(alloc: Global, done: &NamedItems) -> Result<(), BindFault>
    ensures exact { Answers result (unless (twice_items done.now) tt) }
{
    first_twice(
        alloc,
        Items::new(alloc),
        done.places.as_slice(),
        done.items.as_slice(),
    )
}
