//! The names that right columns of a join have in its right table.
ghost use Rattle.std.specs.Prelude.{◌≡◌, IfOk, false};
ghost use Rattle.kql_meaning.specs.Tables.{names_of};
ghost use Rattle.plan_rules.specs.Rules.{shows_right};
ghost use Rattle.plan_terms.specs.Renames.{one_right, own_in, right_names};

use kql_bound::{JoinKind, JoinPlan};
use kql_cells::{Column, KText, Names, copy_columns};
use kql_columns::{free_name, has_column};
use kql_items::Items;
use std::alloc::{AllocError, Global};

fn shows_right(kind: JoinKind) -> bool
    ensures shows { result ≡ shows_right kind }
{
    match kind {
        JoinKind::InnerUnique => false,
        JoinKind::Inner => false,
        JoinKind::LeftOuter => false,
        JoinKind::RightOuter => false,
        JoinKind::FullOuter => false,
        JoinKind::LeftSemi => false,
        JoinKind::LeftAnti => false,
        JoinKind::RightSemi => true,
        JoinKind::RightAnti => true,
    }
}

// The name in the right table of the right column that has this name behind left columns.
#[tactic(auto, using(crate::proofs::RightNames::own_steps), unfolding(crate::specs::Renames::own_in))]
fn own_in(
    alloc: Global,
    columns: &[Column],
    right: &[Column],
    name: &str,
) -> Result<Option<KText>, AllocError>
    ensures own { IfOk result (λ o. o ≡ own_in (names_of columns.now) right.now name.now) }
{
    let mut taken = copy_columns(alloc, columns)?;
    let mut left = right;
    'columns: while let Some((column, more)) = left.split_first() {
        let free = free_name(alloc, taken.as_slice(), column.name.as_str())?;
        if free.as_str() == name {
            let own = column.name.copy(alloc)?;
            return Ok(Some(own));
        }
        taken.push(Column {
            name: free,
            kind: column.kind,
        })?;
        left = more;
    }
    Ok(None)
}

#[tactic(auto, unfolding(crate::specs::Renames::one_right))]
fn one_right(
    alloc: Global,
    join: &JoinPlan,
    columns: &[Column],
    right: &[Column],
    name: &KText,
) -> Result<Option<KText>, AllocError>
    ensures right { IfOk result (λ o. o ≡ one_right join.now columns.now right.now name.now) }
{
    if shows_right(join.kind) {
        if has_column(name.as_str(), right) {
            let own = name.copy(alloc)?;
            return Ok(Some(own));
        }
        return Ok(None);
    }
    if has_column(name.as_str(), columns) {
        return Ok(None);
    }
    own_in(alloc, columns, right, name.as_str())
}

/// The names that right columns of these names in a join that is no lookup have in the right table; none where one of them is no name of
/// a right column alone.
#[tactic(auto, using(crate::proofs::RightNames::more_steps), unfolding(crate::specs::Renames::right_names))]
pub fn right_names(
    alloc: Global,
    join: &JoinPlan,
    columns: &[Column],
    right: &[Column],
    read: &[KText],
) -> Result<Option<Names>, AllocError>
    ensures names { IfOk result (λ o. o ≡ right_names join.now columns.now right.now read.now) }
{
    let mut names = Items::with_capacity(alloc, read.len())?;
    let mut left = read;
    'names: while let Some((name, more)) = left.split_first() {
        let Some(own) = one_right(alloc, join, columns, right, name)? else {
            return Ok(None);
        };
        names.push(own)?;
        left = more;
    }
    Ok(Some(names))
}
