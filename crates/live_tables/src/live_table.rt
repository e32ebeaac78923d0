ghost use Rattle.std.specs.Prelude.{◌≡◌};

use crate::columns::have_equal_columns;
use kql_values::Table;
use live_catalogue::Grows;
use std::alloc::{AllocError, Global};
use std::marker::Model;

/// A table that grows by tables of its own columns, and where its copies take memory. Contracts see the table.
#[derive(Drop)]
pub struct LiveTable {
    alloc: Global,
    table: Table,
}

impl Model for LiveTable {
    ghost use Rattle.std.specs.Coded.{codes};
    ghost use Rattle.kql_cells.specs.Table.{Grid};
    ghost use Rattle.kql_cells.specs.contracts.dynamic.Dyn as dynamic;

    ghost Value = { Grid };

    ghost coded = { Prim.hlevel (codes, dynamic.the_row.coded) };

    ghost view = { λ t. t.table };
}

impl LiveTable {
    /// The table, from which it grows.
    pub fn new(alloc: Global, table: Table) -> LiveTable
        ensures table { result ≡ table }
    {
        LiveTable { alloc, table }
    }

    /// The table as it is now.
    pub fn table(&self) -> &Table
        ensures table { result.now ≡ self.now }
    {
        &self.table
    }

    /// The table, moved out.
    pub fn into_table(self) -> Table
        ensures table { result ≡ self }
    {
        let LiveTable { alloc: _, table } = self;
        table
    }
}

impl Grows for LiveTable {
    ghost use Rattle.std.proofs.Common.{length-append};
    ghost use Rattle.live_tables.specs.Growing.{has_columns_of, row_count, with_rows};

    ghost can_take = { has_columns_of };

    ghost row_count = { row_count };

    ghost grown = { with_rows };

    fn takes(&self, batch: &Table) -> bool {
        have_equal_columns(self.table.schema().columns(), batch.schema().columns())
    }

    fn rows(&self) -> u64 {
        self.table.len() as u64
    }

    fn grow(&mut self, batch: &Table) -> Result<(), AllocError> {
        self.table.append(batch.copy(self.alloc)?)
    }

    fn copy(&self) -> Result<LiveTable, AllocError> {
        Ok(LiveTable {
            alloc: self.alloc,
            table: self.table.copy(self.alloc)?,
        })
    }

    ghost takes_alike = { λ _ _ _ _. (λ x. x, λ x. x) };

    ghost rows_add = { λ table batch _. length-append table.lines batch.lines };
}
