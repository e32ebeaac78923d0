//! Types that a query names by words.
ghost use Rattle.std.specs.Prelude.{◌≡◌};
ghost use Rattle.bind_expr.specs.Outcome.{Answers};
ghost use Rattle.bind_operators.specs.Wanted.{kind_bound, kind_of_word, kind_or};

use bind_expr::BindFault;
use kql_cells::Kind;
use kql_syntax::Word;

// The type that a word names.
#[tactic(auto, unfolding(bind_operators::specs::Wanted::kind_of_word))]
fn kind_of_word(word: &str) -> Option<Kind>
    ensures kind { result ≡ kind_of_word word.now }
{
    if word == "bool" {
        Some(Kind::Bool)
    } else if word == "long" {
        Some(Kind::Long)
    } else if word == "string" {
        Some(Kind::Text)
    } else if word == "datetime" {
        Some(Kind::Moment)
    } else if word == "timespan" {
        Some(Kind::Span)
    } else if word == "dynamic" {
        Some(Kind::Dynamic)
    } else {
        None
    }
}

/// The type that a word names, or 405 at the word.
#[tactic(auto, using(bind_expr::proofs::AnswerFacts::answer_steps), unfolding(bind_operators::specs::Wanted::kind_bound))]
pub fn bind_kind(word: &Word) -> Result<Kind, BindFault>
    ensures exact { Answers result (kind_bound word.now) }
{
    match kind_of_word(word.text.as_str()) {
        Some(kind) => Ok(kind),
        None => Err(BindFault::Refused {
            code: 405,
            place: word.place,
        }),
    }
}

/// The type that a word names where there is one, else the one that is given.
#[tactic(auto, using(bind_expr::proofs::AnswerFacts::answer_steps))]
pub fn bind_kind_or(kind: Kind, word: &Option<Word>) -> Result<Kind, BindFault>
    ensures exact { Answers result (kind_or kind word.now) }
{
    match word {
        None => Ok(kind),
        Some(word) => bind_kind(word),
    }
}
