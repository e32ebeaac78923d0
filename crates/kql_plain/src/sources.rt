//! Sources.
ghost use Rattle.std.specs.Prelude.{◌≡◌, bytes_eq, find, is_some, IfOk, IsTrue};
ghost use Rattle.kql_cells.specs.Catalogues.{table_name};
ghost use Rattle.kql_values.specs.Kept.{all_named};
ghost use Rattle.kql_meaning.specs.Plans.{source_table};
ghost use Rattle.kql_meaning.specs.Sources.{named_table};
ghost use Rattle.kql_plain.specs.AtHand.{SourceFits, world_of};
ghost use Rattle.kql_plain.specs.Inputs.{input_table};

use crate::input::Input;
use kql_bound::Source;
use kql_values::{Catalogue, Named, Table};
use row_ops::{print_rows, range_rows};
use std::alloc::{AllocError, Global};

/// The table of a source: one of the catalogue or of a let is read where it stands.
#[tactic(auto, using(crate::proofs::SourceSteps::source_steps))]
pub fn source_table<'a>(
    alloc: Global,
    source: &Source,
    catalogue: &'a Catalogue,
    lets: &'a [Table],
) -> Result<Input<'a>, AllocError>
    requires fits { SourceFits source.now (world_of catalogue.now lets.now) }
    ensures table { IfOk result (λ t. input_table t ≡ source_table source.now (world_of catalogue.now lets.now)) }
{
    match source {
        Source::Table(name) => {
            let table = table_named(catalogue.tables(), name.as_str());
            Ok(Input::Lent(table))
        }
        Source::Let(at) => Ok(Input::Lent(&lets[*at])),
        Source::Range {
            column,
            from,
            to,
            step,
        } => {
            let table = range_rows(alloc, column, from, to, step)?;
            Ok(Input::Owned(table))
        }
        Source::Print(items) => {
            let table = print_rows(alloc, items.as_slice())?;
            Ok(Input::Owned(table))
        }
    }
}

#[tactic(auto, unfolding(kql_meaning::specs::Sources::named_table, kql_meaning::specs::Sources::table_of))]
fn table_named<'a>(tables: &'a [Named], name: &str) -> &'a Table
    requires there { IsTrue (is_some (find (λ n. bytes_eq (table_name n) name.now) (all_named tables.now))) }
    ensures table { result.now ≡ named_table (all_named tables.now) name.now }
{
    let mut left = tables;
    'tables: while let Some((named, more)) = left.split_first() {
        if named.name.as_str() == name {
            return &named.table;
        }
        left = more;
    }
    unreachable!()
}
