//! Names that a query gives to new columns.
ghost use Rattle.std.specs.Prelude.{◌≡◌, [], ◌∷◌, ◌++◌, IfOk};
ghost use Rattle.bind_expr.specs.Outcome.{Answers};
ghost use Rattle.bind_operators.specs.Faults.{unless};
ghost use Rattle.bind_operators.specs.Items.{twice};
ghost use Rattle.bind_groups.specs.Names.{singles, with_written, written};

use bind_expr::BindFault;
use bind_operators::{name_place, text_of};
use kql_cells::{KText, Names};
use kql_columns::is_name_among;
use kql_items::Items;
use kql_lexer::Place;
use kql_syntax::Name;
use std::alloc::{AllocError, Global};

/// Names with the places where they are written.
#[derive(Debug, Drop)]
pub struct WrittenNames {
    pub texts: Names,
    /// As many as there are texts.
    pub places: Items<Place>,
}

/// No names.
#[tactic(auto, unfolding(crate::specs::Names::written))]
pub fn none_written(alloc: Global) -> WrittenNames
    ensures none { result ≡ written [] }
{
    WrittenNames {
        texts: Items::new(alloc),
        places: Items::new(alloc),
    }
}

/// One name more.
pub fn with_written(
    alloc: Global,
    before: WrittenNames,
    n: &Name,
) -> Result<WrittenNames, AllocError>
    ensures added { IfOk result (λ w. w ≡ with_written before n.now) }
{
    let WrittenNames { texts, places } = before;
    let mut texts = texts;
    let mut places = places;
    texts.push(text_of(n).copy(alloc)?)?;
    places.push(name_place(n))?;
    Ok(WrittenNames { texts, places })
}

/// One text more.
pub fn with_text(alloc: Global, texts: Names, text: &KText) -> Result<Names, AllocError>
    ensures added { IfOk result (λ ts. ts ≡ texts ++ text.now ∷ []) }
{
    let mut texts = texts;
    texts.push(text.copy(alloc)?)?;
    Ok(texts)
}

/// The first name that stands already: among those before it.
#[tactic(auto, using(bind_expr::proofs::AnswerFacts::answer_steps, crate::proofs::NameSteps::single_steps), unfolding(bind_operators::specs::Items::twice, bind_operators::specs::Faults::unless, bind_operators::specs::Faults::fault_if))]
pub fn first_written_twice(
    alloc: Global,
    before: Names,
    places: &[Place],
    texts: &[KText],
) -> Result<(), BindFault>
    ensures exact { Answers result (unless (twice before places.now (singles texts.now)) tt) }
{
    let mut taken = before;
    let mut places = places;
    let mut texts = texts;
    'each: while let Some((place, behind)) = places.split_first() {
        let Some((text, more)) = texts.split_first() else {
            return Ok(());
        };
        if is_name_among(taken.as_slice(), text.as_str()) {
            return Err(BindFault::Refused {
                code: 411,
                place: *place,
            });
        }
        match with_text(alloc, taken, text) {
            Ok(more_taken) => taken = more_taken,
            Err(_) => return Err(BindFault::OutOfMemory),
        }
        places = behind;
        texts = more;
    }
    Ok(())
}
