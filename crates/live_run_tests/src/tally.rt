//! A value that keeps how many rows there are, and nothing of them: what is asked of it is asked of every table of so many rows.
ghost use Rattle.std.specs.Prelude.{◌≡◌, ◌<◌, ◌^◌, length};

use kql_cells::Schema;
use kql_values::Table;
use live_catalogue::Grows;
use live_run::Question;
use std::alloc::{AllocError, Global};

// No table has as many rows.
const LIMIT: u64 = 1 << 63;

/// How many rows there are.
#[derive(Drop)]
pub struct Tally {
    rows: u64,
}

impl Tally {
    /// As many as the table has.
    pub fn of(table: &Table) -> Tally
        ensures rows { result.rows ≡ length table.now.lines }
        ensures small { result.rows < 2 ^ 63 }
    {
        Tally {
            rows: table.len() as u64,
        }
    }
}

impl Grows for Tally {
    ghost use Rattle.std.specs.Prelude.{◌+◌, length};
    ghost use Rattle.std.proofs.Common.{refl};

    ghost can_take = { λ _ _. Unit {0} };

    ghost row_count = { λ tally. tally.rows };

    ghost grown = { λ tally batch. record { rows = tally.rows + length batch.lines } };

    fn takes(&self, _batch: &Table) -> bool {
        true
    }

    fn rows(&self) -> u64 {
        self.rows
    }

    fn grow(&mut self, batch: &Table) -> Result<(), AllocError> {
        self.rows += batch.len() as u64;
        Ok(())
    }

    fn copy(&self) -> Result<Tally, AllocError> {
        Ok(Tally { rows: self.rows })
    }

    ghost takes_alike = { λ _ _ _ _. (λ x. x, λ x. x) };

    ghost rows_add = { λ _ _ _. refl };
}

/// Asks for the rows without their columns.
pub struct Bare;

impl Question<Tally> for Bare {
    ghost use Rattle.std.specs.Prelude.{◌≡◌, ◌+◌, [], length};
    ghost use Rattle.std.proofs.Common.{ap, sym, ◌∙◌, length-append};
    ghost use Rattle.kql_values.specs.Grids.{rows_of};

    ghost stands = { λ _ table tally. tally.rows ≡ length table.lines };

    ghost follows = { λ _ _ _. Unit {0} };

    ghost answer = { λ _ table. record { columns = []; lines = rows_of (length table.lines) [] } };

    fn ask_value(&self, alloc: Global, value: Tally) -> Result<Table, AllocError> {
        if value.rows >= LIMIT {
            return Err(AllocError);
        }
        let schema = Schema::new(alloc);
        Ok(Table::from_columns(alloc, schema, value.rows as usize, Vec::new(alloc)))
    }

    ghost grows = { λ _ table batch _ counts _. ap (λ n. n + length batch.lines) counts ∙ sym (length-append table.lines batch.lines) };

    ghost follows_on = { λ _ _ _ _ _. tt };
}
