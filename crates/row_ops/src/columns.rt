//! Which columns stay.
ghost use Rattle.std.specs.Prelude.{◌≡◌, IfOk};
ghost use Rattle.row_ops.specs.ItemColumns.{places_without};

use kql_cells::{Column, KText, Places};
use kql_columns::is_name_among;
use kql_items::Items;
use std::alloc::{AllocError, Global};

/// The places of the columns that have none of these names, rising.
#[tactic(auto, unfolding(crate::specs::ItemColumns::places_without, kql_meaning::specs::Tables::places_below))]
pub fn places_without(
    alloc: Global,
    names: &[KText],
    columns: &[Column],
) -> Result<Places, AllocError>
    ensures places { IfOk result (λ ps. ps ≡ places_without names.now columns.now) }
{
    let mut places = Items::new(alloc);
    'columns: for j in 0..columns.len() {
        if !is_name_among(names, columns[j].name.as_str()) {
            places.push(j)?;
        }
    }
    Ok(places)
}
