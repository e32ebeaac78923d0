ghost use Rattle.std.specs.Prelude.{◌≡◌, IfOk};

use crate::view::View;
use kql_bound::clone_group;
use kql_values::Table;
use live_catalogue::Grows;
use live_tables::have_equal_columns;
use std::alloc::{AllocError, Global};
use summarize_pieces::OwnGroups;

impl Grows for View {
    ghost use Rattle.view_ops.specs.Views.{can_take, grown, row_count};
    ghost use Rattle.view_ops.specs.Taking.{rows-add, takes-alike};

    ghost can_take = { can_take };

    ghost row_count = { row_count };

    ghost grown = { grown };

    fn takes(&self, batch: &Table) -> bool {
        have_equal_columns(batch.schema().columns(), self.schema.columns())
    }

    fn rows(&self) -> u64 {
        self.fed
    }

    fn grow(&mut self, batch: &Table) -> Result<(), AllocError> {
        self.append(batch)
    }

    fn copy(&self) -> Result<View, AllocError> {
        let alloc = self.alloc;
        Ok(View {
            alloc,
            plan: clone_group(alloc, &self.plan)?,
            schema: self.schema.copy(alloc)?,
            groups: copied(alloc, &self.groups)?,
            fed: self.fed,
        })
    }

    ghost takes_alike = { takes-alike };

    ghost rows_add = { rows-add };
}

// Equal groups.
fn copied(alloc: Global, groups: &OwnGroups) -> Result<OwnGroups, AllocError>
    ensures same { IfOk result (λ x. x ≡ groups.now) }
{
    let lent = groups.lend(alloc)?;
    let own = lent.own(alloc)?;
    Ok(own)
}
