//! Whole programs.
ghost use Rattle.std.specs.Prelude.{◌≡◌, All, IfOk, IsTrue};
ghost use Rattle.kql_cells.specs.Catalogues.{Named as Seen, schemas_of};
ghost use Rattle.kql_values.specs.Kept.{all_named};
ghost use Rattle.kql_fit_laws.specs.LawsOfRows.{IsTable};
ghost use Rattle.kql_meaning.specs.Fits.{fits};
ghost use Rattle.kql_meaning.specs.Plans.{means};

use crate::lets::table_behind;
use kql_bound::Program;
use kql_values::{Catalogue, Named, Table};
use std::alloc::{AllocError, Global};

/// The table of a program that fits the schemas of a catalogue: its lets one after another, and then its plan. Want of memory alone stands in
/// its place.
pub fn plain(alloc: Global, p: &Program, catalogue: &Catalogue) -> Result<Table, AllocError>
    requires fits { IsTrue (fits p.now (schemas_of catalogue.now)) }
    ensures table { IfOk result (λ t. t ≡ means p.now catalogue.now) }
{
    know_tables(catalogue.tables());
    let table = table_behind(alloc, p.lets.as_slice(), &p.main, catalogue)?;
    Ok(table)
}

/// Each table's rows fit its columns, and no two of these have one name: so tables are made.
pub fn know_tables(tables: &[Named])
    ensures tables { All (λ (n : Seen). IsTable n.table) (all_named tables.now) }
{
    let mut left = tables;
    'tables: while let Some((named, more)) = left.split_first() {
        named.table.schema().columns();
        left = more;
    }
}
