//! The topic that a word may have meant.

ghost use Rattle.std.specs.Prelude.{◌≡◌, ◌++◌, IfOk, IfSome, IfNone, IsSome, OnOk, map};
ghost use Rattle.kql_near.specs.Nearest.{texts, IsNearest, NoneIsNear};
ghost use Rattle.kql_help.specs.Index.{named, topics};
ghost use Rattle.kql_help.specs.Topics.{names_in, seen, text_of};

use crate::families::{functions, operators, overview, queries, rows, shell, values};
use crate::topic::Topic;
use kql_near::nearest_name;
use std::alloc::{AllocError, Global};

/// The name of a topic, but of a code, that is nearest to a word.
#[tactic(auto, using(crate::proofs::NamedLaws::named_has_text))]
pub fn nearest_topic(alloc: Global, word: &str) -> Result<Option<&'static str>, AllocError>
    ensures near { IfOk result (λ found. IfSome found (λ name. IsNearest word.now named name.now)) }
    ensures none { IfOk result (λ found. IfNone found (NoneIsNear word.now named)) }

    // The name leads to a text.
    ensures topic { IfOk result (λ found. IfSome found (λ name. IsSome (text_of topics name.now))) }
{
    let names = topic_names(alloc)?;
    nearest_name(alloc, word, &names)
}

// The names of all topics but the codes.
#[tactic(auto, unfolding(crate::specs::Index::named))]
fn topic_names(alloc: Global) -> Result<Vec<&'static str>, AllocError>
    ensures { IfOk result (λ names. texts names.items ≡ named) }
{
    let mut names: Vec<&'static str> = Vec::new(alloc);
    push_names(&mut names, overview())?;
    push_names(&mut names, shell())?;
    push_names(&mut names, queries())?;
    push_names(&mut names, operators())?;
    push_names(&mut names, functions())?;
    push_names(&mut names, values())?;
    push_names(&mut names, rows())?;
    Ok(names)
}

// Adds the names of some topics.
fn push_names(names: &mut Vec<&'static str>, topics: &[Topic]) -> Result<(), AllocError>
    ensures { OnOk result (texts names.new.items ≡ texts names.old.items ++ names_in (map seen topics.now)) }
{
    let mut left = topics;
    while let [topic, others @ ..] = left {
        names.extend_from_slice(topic.names)?;
        left = others;
    }
    Ok(())
}
