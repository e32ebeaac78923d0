//! A table once more.
ghost use Rattle.std.specs.Prelude.{◌≡◌, ◌<◌, ◌≤◌, IfOk};

use kql_outside::Gate;
use kql_values::{Table, Vector};
use std::alloc::{AllocError, Global};
use std::marker::Model;
use std::thread::Threads;
use worker_board::{Outcome, Work, run_pieces};

// The columns of a table, each of which is a piece.
#[derive(Drop)]
struct CopyRun<'a> {
    alloc: Global,
    columns: &'a [Vector],
    count: u32,
}

impl<'a> Model for CopyRun<'a> {
    ghost use Rattle.std.specs.Coded.{codes};
    ghost use Rattle.kql_cells.specs.contracts.dynamic.Dyn as dynamic;
    ghost use Rattle.phase_copies.specs.Works.{CopiesSeen, IsCopyRun};

    ghost Value = { CopiesSeen };

    ghost coded = { Prim.hlevel (codes, dynamic.the_row.coded) };

    ghost view = { λ r. record { columns = r.columns.now; count = r.count } };

    ghost invariant = { λ r. IsCopyRun (record { columns = r.columns.now; count = r.count }) };
}

impl<'a> Work<Vector> for CopyRun<'a> {
    ghost use Rattle.phase_copies.specs.Works.{column_in};

    ghost count = { λ r. r.count };

    ghost answer = { λ r piece. column_in r.columns piece };

    fn pieces(&self) -> u32 {
        self.count
    }

    #[tactic(auto, using(crate::proofs::CopySteps::piece_steps))]
    fn run(&self, piece: u32) -> Result<Vector, AllocError> {
        let copied = self.columns[piece as usize].copy(self.alloc)?;
        Ok(copied)
    }
}

/// The same table once more, each column copied by one of so many workers. They enter the gate as those of the phase do that takes the
/// copy.
#[tactic(auto, using(crate::proofs::CopySteps::copy_steps))]
pub fn run_copy<R: Threads + Sync, G: Gate + Sync>(
    rt: &R,
    gate: &G,
    alloc: Global,
    workers: u32,
    phase: u32,
    table: &Table,
) -> Result<Table, AllocError>
    requires workers { (0 < workers) × (workers ≤ 64) }
    ensures same { IfOk result (λ t. t ≡ table.now) }
{
    let columns = table.columns();
    if columns.len() > u32::MAX as usize {
        let copied = table.copy(alloc)?;
        return Ok(copied);
    }
    let work = CopyRun {
        alloc,
        columns,
        count: columns.len() as u32,
    };
    let Outcome { results, gathered } = run_pieces(rt, alloc, workers, phase, &work, gate)?;
    drop(gathered);
    let schema = table.schema().copy(alloc)?;
    let copied = Table::from_columns(alloc, schema, table.len(), results.into_vec());
    Ok(copied)
}
