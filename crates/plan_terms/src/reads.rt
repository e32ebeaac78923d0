//! The columns that expressions read.
ghost use Rattle.std.specs.Prelude.{◌≡◌, ◌∷◌, [], IfOk, false, map, not};
ghost use Rattle.std.specs.List.{list_all};
ghost use Rattle.kql_bound.specs.declared.parts.OnPair.{OnPair};
ghost use Rattle.kql_meaning.specs.Tables.{has_column, is_name_among};
ghost use Rattle.plan_rules.specs.Reads.{reads_only};
ghost use Rattle.plan_rules.specs.Rules.{is_left_key};
ghost use Rattle.plan_terms.specs.NamesRead.{names_in, names_in_links, names_read};

use crate::plain::is_plain;
use kql_bound::{BExpr, Link, OnPair};
use kql_cells::{Column, KText, Names};
use kql_columns::{has_column, is_name_among};
use kql_items::Items;
use std::alloc::{AllocError, Global};

fn one_name(alloc: Global, name: &KText) -> Result<Names, AllocError>
    ensures one { IfOk result (λ ns. ns ≡ name.now ∷ []) }
{
    let copy = name.copy(alloc)?;
    let mut names = Items::new(alloc);
    names.push(copy)?;
    Ok(names)
}

/// The names of the columns that a plain expression reads, in order.
#[cycle(names_read)]
#[tactic(auto, using(crate::proofs::NameSteps::names_steps))]
pub fn names_read(alloc: Global, e: &BExpr) -> Result<Names, AllocError>
    ensures names { IfOk result (λ ns. ns ≡ names_read e.now) }
{
    match e {
        BExpr::Literal(_) => Ok(Items::new(alloc)),
        BExpr::Column(name) => one_name(alloc, name),
        BExpr::Step(_) => Ok(Items::new(alloc)),
        BExpr::Call(_, args) => names_in(alloc, args.as_slice()),
        BExpr::Chain(first, links) => {
            let mut names = names_read(alloc, first.get())?;
            let more = names_in_links(alloc, links.as_slice())?;
            names.append(more)?;
            Ok(names)
        }
        BExpr::Path(whole, steps) => {
            let mut names = names_read(alloc, whole.get())?;
            let more = names_in(alloc, steps.as_slice())?;
            names.append(more)?;
            Ok(names)
        }
        BExpr::Window(_, _) => Ok(Items::new(alloc)),
        BExpr::Aggregate(_, _) => Ok(Items::new(alloc)),
    }
}

#[cycle(names_read)]
#[tactic(auto, unfolding(crate::specs::NamesRead::names_in))]
fn names_in(alloc: Global, es: &[BExpr]) -> Result<Names, AllocError>
    ensures names { IfOk result (λ ns. ns ≡ names_in es.now) }
{
    let mut names = Items::new(alloc);
    for e in es {
        let more = names_read(alloc, e)?;
        names.append(more)?;
    }
    Ok(names)
}

#[cycle(names_read)]
#[tactic(auto, unfolding(crate::specs::NamesRead::names_in_links))]
fn names_in_links(alloc: Global, links: &[Link]) -> Result<Names, AllocError>
    ensures names { IfOk result (λ ns. ns ≡ names_in_links links.now) }
{
    let mut names = Items::new(alloc);
    for link in links {
        let more = names_read(alloc, &link.1)?;
        names.append(more)?;
    }
    Ok(names)
}

// Tests of names.

fn are_others(read: &[KText], names: &[KText]) -> bool
    ensures others { result ≡ list_all (λ n. not (is_name_among names.now n)) read.now }
{
    let mut left = read;
    'names: while let Some((name, more)) = left.split_first() {
        if is_name_among(names, name.as_str()) {
            return false;
        }
        left = more;
    }
    true
}

fn are_columns(read: &[KText], columns: &[Column]) -> bool
    ensures columns { result ≡ list_all (λ n. has_column n columns.now) read.now }
{
    let mut left = read;
    'names: while let Some((name, more)) = left.split_first() {
        if !has_column(name.as_str(), columns) {
            return false;
        }
        left = more;
    }
    true
}

// Whether a left column of this name is compared.
#[tactic(auto, unfolding(kql_meaning::specs::Tables::is_name_among))]
fn is_compared(on: &[OnPair], name: &str) -> bool
    ensures compared { result ≡ is_name_among (map (λ (pair : OnPair). pair.left) on.now) name.now }
{
    let mut left = on;
    'pairs: while let Some((pair, more)) = left.split_first() {
        if pair.left.as_str() == name {
            return true;
        }
        left = more;
    }
    false
}

fn is_left_key(on: &[OnPair], columns: &[Column], name: &str) -> bool
    ensures key { result ≡ is_left_key on.now columns.now name.now }
{
    has_column(name, columns) && is_compared(on, name)
}

fn are_left_keys(read: &[KText], on: &[OnPair], columns: &[Column]) -> bool
    ensures keys { result ≡ list_all (λ n. is_left_key on.now columns.now n) read.now }
{
    let mut left = read;
    'names: while let Some((name, more)) = left.split_first() {
        if !is_left_key(on, columns, name.as_str()) {
            return false;
        }
        left = more;
    }
    true
}

fn are_none(read: &[KText]) -> bool
    ensures none { result ≡ list_all (λ n. false) read.now }
{
    let Some((_name, _more)) = read.split_first() else {
        return true;
    };
    false
}

// Tests of expressions.

/// Whether an expression is plain and reads none of these names.
#[tactic(auto, using(crate::proofs::NameSteps::reads_steps))]
pub fn reads_others(alloc: Global, e: &BExpr, names: &[KText]) -> Result<bool, AllocError>
    ensures reads { IfOk result (λ b. b ≡ reads_only (λ n. not (is_name_among names.now n)) e.now) }
{
    if !is_plain(e) {
        return Ok(false);
    }
    let read = names_read(alloc, e)?;
    Ok(are_others(read.as_slice(), names))
}

/// Whether it is plain and reads only these columns.
#[tactic(auto, using(crate::proofs::NameSteps::reads_steps))]
pub fn reads_among(alloc: Global, e: &BExpr, columns: &[Column]) -> Result<bool, AllocError>
    ensures reads { IfOk result (λ b. b ≡ reads_only (λ n. has_column n columns.now) e.now) }
{
    if !is_plain(e) {
        return Ok(false);
    }
    let read = names_read(alloc, e)?;
    Ok(are_columns(read.as_slice(), columns))
}

/// Whether it is plain and reads only left keys among these columns.
#[tactic(auto, using(crate::proofs::NameSteps::reads_steps))]
pub fn reads_left_keys(
    alloc: Global,
    e: &BExpr,
    on: &[OnPair],
    columns: &[Column],
) -> Result<bool, AllocError>
    ensures reads { IfOk result (λ b. b ≡ reads_only (λ n. is_left_key on.now columns.now n) e.now) }
{
    if !is_plain(e) {
        return Ok(false);
    }
    let read = names_read(alloc, e)?;
    Ok(are_left_keys(read.as_slice(), on, columns))
}

/// Whether it is plain and reads no column.
#[tactic(auto, using(crate::proofs::NameSteps::reads_steps))]
pub fn reads_none(alloc: Global, e: &BExpr) -> Result<bool, AllocError>
    ensures reads { IfOk result (λ b. b ≡ reads_only (λ n. false) e.now) }
{
    if !is_plain(e) {
        return Ok(false);
    }
    let read = names_read(alloc, e)?;
    Ok(are_none(read.as_slice()))
}
