ghost use Rattle.live_query.specs.LiveMeaning.{FitsColumns, live_means};

use kql_bound::Program;
use kql_cells::KText;
use kql_items::Boxed;
use kql_plain::plain;
use kql_values::{Catalogue, Named, Table};
use live_run::Query;
use std::alloc::{AllocError, Global};

/// A program over the one table of a name.
#[derive(Drop)]
pub struct LiveQuery {
    pub name: KText,
    pub program: Boxed<Program>,
}

impl Query for LiveQuery {
    ghost takes = { FitsColumns };

    ghost answer = { live_means };

    fn ask(&self, alloc: Global, table: Table) -> Result<Table, AllocError> {
        let name = self.name.copy(alloc)?;
        let mut catalogue = Catalogue::new(alloc);
        catalogue.push(Named { name, table })?;
        let rows = plain(alloc, self.program.get(), &catalogue)?;
        Ok(rows)
    }
}
