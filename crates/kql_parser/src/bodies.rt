//! What the body of a let statement is.

ghost use Rattle.std.specs.Prelude.{◌≡◌, IfOk};
ghost use Rattle.kql_parser.specs.Alone.{name_of_post, name_of_sum, name_alone};
ghost use Rattle.kql_parser.specs.Query.{table_body, table_or, body_of};

use kql_items::Items;
use kql_syntax::{Cmp, Expr, LetBody, Name, Pipe, Post, Sign, Source, Sum, Term, Word};
use std::alloc::{AllocError, Global};

/// A copy of a name.
fn copy_name(alloc: Global, name: &Name) -> Result<Name, AllocError>
    ensures same { IfOk result (λ n. n ≡ name.now) }
{
    Ok(match name {
        Name::Bare(word) => {
            let text = word.text.copy(alloc)?;
            Name::Bare(Word {
                place: word.place,
                text,
            })
        }
        Name::Quoted(place, text) => Name::Quoted(*place, text.copy(alloc)?),
    })
}

/// The name that a term is, with nothing behind it.
fn name_of_post(alloc: Global, post: &Post) -> Result<Option<Name>, AllocError>
    ensures name { IfOk result (λ n. n ≡ name_of_post post.now) }
{
    if !post.more.is_empty() {
        return Ok(None);
    }
    match &post.first {
        Term::Literal(_) => Ok(None),
        Term::Name(name) => Ok(Some(copy_name(alloc, name)?)),
        Term::Call(_, _) => Ok(None),
        Term::Group(_, _) => Ok(None),
    }
}

/// The name that a sum of one term without a sign is.
fn name_of_sum(alloc: Global, sum: &Sum) -> Result<Option<Name>, AllocError>
    ensures name { IfOk result (λ n. n ≡ name_of_sum sum.now) }
{
    if !sum.more.is_empty() || !sum.first.more.is_empty() {
        return Ok(None);
    }
    match &sum.first.first {
        Sign::Plain(post) => name_of_post(alloc, post),
        Sign::Minus(_, _) => Ok(None),
    }
}

/// The name that an expression is, if it is a name alone.
#[tactic(auto, unfolding(crate::specs::Alone::name_alone))]
fn name_alone(alloc: Global, value: &Expr) -> Result<Option<Name>, AllocError>
    ensures name { IfOk result (λ n. n ≡ name_alone value.now) }
{
    if !value.more.is_empty() || !value.first.more.is_empty() {
        return Ok(None);
    }
    match &value.first.first {
        Cmp::Plain(sum) => name_of_sum(alloc, sum),
        Cmp::Compared(_, _, _) => Ok(None),
        Cmp::In(_, _, _) => Ok(None),
        Cmp::Between(_, _, _) => Ok(None),
    }
}

/// The table of a name, as the body of a let statement.
fn table_body(alloc: Global, name: Name) -> LetBody
    ensures body { result ≡ table_body name }
{
    let source = Source::Table(name);
    let ops = Items::new(alloc);
    LetBody::Pipe(Pipe { source, ops })
}

/// The table of this name, or else the expression, as the body of a let statement.
fn table_or(alloc: Global, value: Expr, name: Option<Name>) -> LetBody
    ensures body { result ≡ table_or value name }
{
    match name {
        Some(name) => {
            drop(value);
            table_body(alloc, name)
        }
        None => LetBody::Expr(value),
    }
}

/// An expression as the body of a let statement: a name alone is a pipe.
pub(crate) fn body_of(alloc: Global, value: Expr) -> Result<LetBody, AllocError>
    ensures body { IfOk result (λ b. b ≡ body_of value) }
{
    match name_alone(alloc, &value) {
        Ok(name) => Ok(table_or(alloc, value, name)),
        Err(error) => {
            drop(value);
            Err(error)
        }
    }
}
