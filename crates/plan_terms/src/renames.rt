//! Expressions under other names.
ghost use Rattle.std.specs.Prelude.{◌≡◌, IfOk, map};
ghost use Rattle.std.specs.Option.{option_copied};
ghost use Rattle.kql_meaning.specs.FittingExpressions.{column_of};
ghost use Rattle.plan_rules.specs.OwnNames.{inner_name};
ghost use Rattle.plan_rules.specs.Reads.{with_names};
ghost use Rattle.plan_rules.proofs.ReadSteps.{link_names};
ghost use Rattle.plan_terms.specs.Renames.{inner_names, renamed_by};

use kql_bound::{BExpr, BItem, Exprs, Link, Links, clone_expr};
use kql_cells::{KText, Names};
use kql_columns::is_name_among;
use kql_items::{Boxed, Items};
use std::alloc::{AllocError, Global};

#[tactic(auto, unfolding(crate::specs::Renames::renamed_by))]
fn renamed_by(
    alloc: Global,
    from: &[KText],
    to: &[KText],
    name: &KText,
) -> Result<KText, AllocError>
    ensures renamed { IfOk result (λ n. n ≡ renamed_by from.now to.now name.now) }
{
    let mut from_left = from;
    let mut to_left = to;
    'names: while let Some((one, more)) = from_left.split_first() {
        let Some((other, others)) = to_left.split_first() else {
            return name.copy(alloc);
        };
        if one.as_str() == name.as_str() {
            return other.copy(alloc);
        }
        from_left = more;
        to_left = others;
    }
    name.copy(alloc)
}

/// An expression in which each column of one of these names has the name at its place among others.
#[cycle(with_names)]
#[tactic(auto, using(plan_rules::proofs::ReadSteps::renaming_steps))]
pub fn with_names(
    alloc: Global,
    e: &BExpr,
    from: &[KText],
    to: &[KText],
) -> Result<BExpr, AllocError>
    ensures renamed { IfOk result (λ x. x ≡ with_names (renamed_by from.now to.now) e.now) }
{
    match e {
        BExpr::Literal(_) => clone_expr(alloc, e),
        BExpr::Column(name) => Ok(BExpr::Column(renamed_by(alloc, from, to, name)?)),
        BExpr::Step(_) => clone_expr(alloc, e),
        BExpr::Call(f, args) => Ok(BExpr::Call(
            *f,
            exprs_with_names(alloc, args.as_slice(), from, to)?,
        )),
        BExpr::Chain(first, links) => Ok(BExpr::Chain(
            boxed_with_names(alloc, first.get(), from, to)?,
            links_with_names(alloc, links.as_slice(), from, to)?,
        )),
        BExpr::Path(whole, steps) => Ok(BExpr::Path(
            boxed_with_names(alloc, whole.get(), from, to)?,
            exprs_with_names(alloc, steps.as_slice(), from, to)?,
        )),
        BExpr::Window(f, args) => Ok(BExpr::Window(
            *f,
            exprs_with_names(alloc, args.as_slice(), from, to)?,
        )),
        BExpr::Aggregate(f, args) => Ok(BExpr::Aggregate(
            *f,
            exprs_with_names(alloc, args.as_slice(), from, to)?,
        )),
    }
}

#[cycle(with_names)]
fn boxed_with_names(
    alloc: Global,
    e: &BExpr,
    from: &[KText],
    to: &[KText],
) -> Result<Boxed<BExpr>, AllocError>
    ensures renamed { IfOk result (λ x. x ≡ with_names (renamed_by from.now to.now) e.now) }
{
    let made = with_names(alloc, e, from, to)?;
    Boxed::new(alloc, made)
}

#[cycle(with_names)]
fn exprs_with_names(
    alloc: Global,
    es: &[BExpr],
    from: &[KText],
    to: &[KText],
) -> Result<Exprs, AllocError>
    ensures renamed { IfOk result (λ xs. xs ≡ map (with_names (renamed_by from.now to.now)) es.now) }
{
    let mut all = Items::with_capacity(alloc, es.len())?;
    for e in es {
        let made = with_names(alloc, e, from, to)?;
        all.push(made)?;
    }
    Ok(all)
}

#[cycle(with_names)]
fn links_with_names(
    alloc: Global,
    links: &[Link],
    from: &[KText],
    to: &[KText],
) -> Result<Links, AllocError>
    ensures renamed { IfOk result (λ xs. xs ≡ map (link_names (renamed_by from.now to.now)) links.now) }
{
    let mut all = Items::with_capacity(alloc, links.len())?;
    for link in links {
        let made = with_names(alloc, &link.1, from, to)?;
        all.push((link.0, made))?;
    }
    Ok(all)
}

/// The name of the column that an expression is, where it is one.
#[tactic(auto, using(kql_meaning::proofs::ExpressionFitLaws::column_steps))]
pub fn column_of(e: &BExpr) -> Option<&str>
    ensures column { option_copied result ≡ column_of e.now }
{
    match e {
        BExpr::Literal(_) => None,
        BExpr::Column(name) => Some(name.as_str()),
        BExpr::Step(_) => None,
        BExpr::Call(_, _) => None,
        BExpr::Chain(_, _) => None,
        BExpr::Path(_, _) => None,
        BExpr::Window(_, _) => None,
        BExpr::Aggregate(_, _) => None,
    }
}

// The column that an item of this name is, where it is a column.
#[tactic(auto, unfolding(plan_rules::specs::OwnNames::inner_name))]
fn inner_name<'a>(items: &'a [BItem], name: &str) -> Option<&'a str>
    ensures inner { option_copied result ≡ inner_name items.now name.now }
{
    let mut left = items;
    'items: while let Some((item, more)) = left.split_first() {
        if is_name_among(item.names.as_slice(), name) {
            return column_of(&item.expr);
        }
        left = more;
    }
    None
}

/// The columns that items of these names are, where each of them is a column.
#[tactic(auto, unfolding(crate::specs::Renames::inner_names))]
pub fn inner_names(
    alloc: Global,
    items: &[BItem],
    read: &[KText],
) -> Result<Option<Names>, AllocError>
    ensures names { IfOk result (λ o. o ≡ inner_names items.now read.now) }
{
    let mut names = Items::with_capacity(alloc, read.len())?;
    let mut left = read;
    'names: while let Some((name, more)) = left.split_first() {
        let Some(inner) = inner_name(items, name.as_str()) else {
            return Ok(None);
        };
        let copy = KText::from_str(alloc, inner)?;
        names.push(copy)?;
        left = more;
    }
    Ok(Some(names))
}
