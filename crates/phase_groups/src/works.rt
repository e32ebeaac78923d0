//! The works of `summarize`: by ranges what is read of each piece, and the groups of what was read; and all rows as one piece.
use crate::ranges::RangeGroups;
use kql_bound::GroupPlan;
use kql_values::Table;
use phase_pieces::{Cut, bounds_of};
use std::alloc::{AllocError, Global};
use std::marker::Model;
use summarize_op::summarize_rows;
use summarize_pieces::{PieceRows, group_piece, piece_rows};
use worker_board::Work;

/// What is read of each piece.
#[derive(Drop)]
pub(crate) struct ReadRun<'a> {
    pub(crate) alloc: Global,
    pub(crate) table: &'a Table,
    pub(crate) plan: &'a GroupPlan,
    pub(crate) cut: Cut,
}

impl<'a> Model for ReadRun<'a> {
    ghost use Rattle.std.specs.Coded.{codes};
    ghost use Rattle.kql_cells.specs.contracts.dynamic.Dyn as dynamic;
    ghost use Rattle.kql_bound.specs.contracts.expr.BExpr as bexpr;
    ghost use Rattle.phase_groups.specs.Works.{GroupsSeen, IsGroupRun, run_over};

    ghost Value = { GroupsSeen };

    ghost coded = { Prim.hlevel (codes, bexpr.the_row.coded, dynamic.the_row.coded) };

    ghost view = { λ r. run_over r.plan.now r.table.now r.cut };

    ghost invariant = { λ r. IsGroupRun (run_over r.plan.now r.table.now r.cut) };
}

impl<'a> Work<PieceRows> for ReadRun<'a> {
    ghost use Rattle.phase_groups.specs.Works.{read_at};

    ghost count = { λ r. r.cut.pieces };

    ghost answer = { read_at };

    fn pieces(&self) -> u32 {
        self.cut.pieces
    }

    #[tactic(auto, using(crate::proofs::ReadSteps::read_steps))]
    fn run(&self, piece: u32) -> Result<PieceRows, AllocError> {
        let bounds = bounds_of(self.table.len(), self.cut.rows, piece);
        let read = piece_rows(self.alloc, self.table, self.plan, bounds.from, bounds.to)?;
        Ok(read)
    }
}

/// The groups of each piece that was read.
#[derive(Drop)]
pub(crate) struct GroupRun<'a> {
    pub(crate) alloc: Global,
    pub(crate) table: &'a Table,
    pub(crate) plan: &'a GroupPlan,
    pub(crate) cut: Cut,
    pub(crate) read: &'a [PieceRows],
}

impl<'a> Model for GroupRun<'a> {
    ghost use Rattle.std.specs.Coded.{codes};
    ghost use Rattle.kql_cells.specs.contracts.dynamic.Dyn as dynamic;
    ghost use Rattle.kql_bound.specs.contracts.expr.BExpr as bexpr;
    ghost use Rattle.phase_groups.specs.Works.{IsReadRun, ReadSeen, run_over};

    ghost Value = { ReadSeen };

    ghost coded = { Prim.hlevel (codes, bexpr.the_row.coded, dynamic.the_row.coded) };

    ghost view = { λ r. record { run = run_over r.plan.now r.table.now r.cut; read = r.read.now } };

    ghost invariant = { λ r. IsReadRun (record { run = run_over r.plan.now r.table.now r.cut; read = r.read.now }) };
}

impl<'a> Work<RangeGroups<'a>> for GroupRun<'a> {
    ghost use Rattle.phase_groups.specs.Works.{seen_at};

    ghost count = { λ r. r.run.cut.pieces };

    ghost answer = { λ r piece. seen_at r.run piece };

    fn pieces(&self) -> u32 {
        self.cut.pieces
    }

    #[tactic(auto, using(crate::proofs::ReadSteps::group_steps))]
    fn run(&self, piece: u32) -> Result<RangeGroups<'a>, AllocError> {
        let bounds = bounds_of(self.table.len(), self.cut.rows, piece);
        let groups = group_piece(self.alloc, &self.read[piece as usize])?;
        Ok(RangeGroups {
            groups,
            table: self.table,
            plan: self.plan,
            from: bounds.from,
            to: bounds.to,
        })
    }
}

/// All rows as one piece.
#[derive(Drop)]
pub(crate) struct WholeRun<'a> {
    pub(crate) alloc: Global,
    pub(crate) table: &'a Table,
    pub(crate) plan: &'a GroupPlan,
}

impl<'a> Model for WholeRun<'a> {
    ghost use Rattle.std.specs.Coded.{codes};
    ghost use Rattle.kql_cells.specs.contracts.dynamic.Dyn as dynamic;
    ghost use Rattle.kql_bound.specs.contracts.expr.BExpr as bexpr;
    ghost use Rattle.phase_groups.specs.Works.{IsWholeRun, WholeSeen};

    ghost Value = { WholeSeen };

    ghost coded = { Prim.hlevel (codes, bexpr.the_row.coded, dynamic.the_row.coded) };

    ghost view = { λ r. record { plan = r.plan.now; table = r.table.now } };

    ghost invariant = { λ r. IsWholeRun (record { plan = r.plan.now; table = r.table.now }) };
}

impl<'a> Work<Table> for WholeRun<'a> {
    ghost use Rattle.kql_meaning.specs.Summarize.{summarize_table};

    ghost count = { λ r. 1 };

    ghost answer = { λ r piece. summarize_table r.plan r.table };

    fn pieces(&self) -> u32 {
        1
    }

    fn run(&self, piece: u32) -> Result<Table, AllocError> {
        let _piece = piece;
        summarize_rows(self.alloc, self.table, self.plan)
    }
}
