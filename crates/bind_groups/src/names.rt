//! Names of parts, and the first that stands twice.
ghost use Rattle.std.specs.Prelude.{◌≡◌, [], ◌++◌, IfOk, length};
ghost use Rattle.bind_expr.specs.Outcome.{Answers};
ghost use Rattle.bind_operators.specs.Faults.{unless};
ghost use Rattle.bind_operators.specs.Items.{names_of_items, names_twice, twice};
ghost use Rattle.bind_groups.specs.Names.{written};

use crate::written_names::{WrittenNames, first_written_twice, none_written, with_written};
use bind_expr::BindFault;
use bind_operators::{NamedItems, first_twice, twice_items};
use kql_columns::items_names;
use kql_items::Items;
use kql_syntax::Name;
use std::alloc::{AllocError, Global};

#[tactic(auto, using(crate::proofs::NameSteps::more_steps))]
fn all_written(alloc: Global, names: &[Name]) -> Result<WrittenNames, AllocError>
    ensures names { IfOk result (λ w. w ≡ written names.now) }
{
    let mut all = none_written(alloc);
    for n in names {
        all = with_written(alloc, all, n)?;
    }
    Ok(all)
}

/// The first of these names that stands before it already.
#[tactic(auto, using(bind_expr::proofs::AnswerFacts::answer_steps, crate::proofs::NameSteps::written_steps))]
pub(crate) fn names_twice(alloc: Global, names: &[Name]) -> Result<(), BindFault>
    ensures exact { Answers result (unless (names_twice [] names.now) tt) }
{
    match all_written(alloc, names) {
        Ok(names) => first_written_twice(
            alloc,
            Items::new(alloc),
            names.places.as_slice(),
            names.texts.as_slice(),
        ),
        Err(_) => Err(BindFault::OutOfMemory),
    }
}

/// The first item that gives a column of a name that stands already, in items and then in others behind them.
#[tactic(auto, using(bind_expr::proofs::AnswerFacts::answer_steps, crate::proofs::TwiceLaws::beside_steps))]
pub(crate) fn twice_beside(
    alloc: Global,
    first: &NamedItems,
    then: &NamedItems,
) -> Result<(), BindFault>
    requires even { length first.now.places ≡ length first.now.items }
    ensures exact { Answers result (unless (twice [] (first.now.places ++ then.now.places) (names_of_items first.now.items ++ names_of_items then.now.items)) tt) }
{
    match twice_items(alloc, first) {
        Ok(()) => match items_names(alloc, first.items.as_slice()) {
            Ok(names) => first_twice(alloc, names, then.places.as_slice(), then.items.as_slice()),
            Err(_) => Err(BindFault::OutOfMemory),
        },
        Err(fault) => Err(fault),
    }
}
