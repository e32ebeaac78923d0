//! The columns of keys, lent.
ghost use Rattle.std.specs.Prelude.{◌≡◌, length, map, is_some, IfOk, IsTrue};
ghost use Rattle.kql_cells.specs.Named.{column_name, place_of};
ghost use Rattle.join_op.specs.Sides.{column_cells, have_keys, key_cells};

use crate::sides::{Side, key_name};
use kql_bound::OnPair;
use kql_values::{Table, Vector};
use std::alloc::{AllocError, Global};

/// The column of each key on a side.
#[tactic(auto, using(crate::proofs::KeySteps::keys_steps))]
pub fn key_columns<'a>(
    alloc: Global,
    side: Side,
    on: &[OnPair],
    t: &'a Table,
) -> Result<Vec<&'a Vector>, AllocError>
    requires keys { IsTrue (have_keys side on.now t.now.columns) }
    ensures cells { IfOk result (λ v. map (λ c. c.now) v.items ≡ key_cells side on.now t.now) }
{
    let mut columns = Vec::with_capacity(alloc, on.len())?;
    for pair in on {
        columns.push(key_column(t, key_name(side, pair)))?;
    }
    Ok(columns)
}

/// The column of a name, as its cells at all rows.
#[tactic(auto, using(crate::proofs::KeySteps::column_steps))]
pub fn key_column<'a>(t: &'a Table, name: &str) -> &'a Vector
    requires stands { IsTrue (is_some (place_of column_name name.now t.now.columns)) }
    ensures cells { result.now ≡ column_cells t.now name.now }
    ensures count { length result.now ≡ length t.now.lines }
{
    match t.schema().find(name) {
        Some(place) => t.column(place),
        None => unreachable!(),
    }
}
