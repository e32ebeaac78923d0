//! Which columns stay.
ghost use Rattle.std.specs.Prelude.{◌≡◌, IfOk};
ghost use Rattle.parse_op.specs.Filled.{places_without};

use kql_cells::{Column, Places};
use kql_columns::has_column;
use kql_items::Items;
use std::alloc::{AllocError, Global};

/// The places of the columns that have the name of none of these, rising.
#[tactic(auto, unfolding(crate::specs::Filled::places_without, kql_meaning::specs::Tables::places_below))]
pub(crate) fn places_without(
    alloc: Global,
    made: &[Column],
    columns: &[Column],
) -> Result<Places, AllocError>
    ensures places { IfOk result (λ ps. ps ≡ places_without made.now columns.now) }
{
    let mut places = Items::new(alloc);
    'columns: for j in 0..columns.len() {
        if !has_column(columns[j].name.as_str(), made) {
            places.push(j)?;
        }
    }
    Ok(places)
}
