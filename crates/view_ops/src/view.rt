ghost use Rattle.std.specs.Prelude.{◌≡◌, ◌<◌, ◌+◌, ◌^◌, ◌++◌, [], All, IfOk, List, OnErr, OnOk, fold, length, true};
ghost use Rattle.kql_cells.specs.Table.{Grid};
ghost use Rattle.kql_cells.specs.declared.value.Value.{Value as Cell};
ghost use Rattle.kql_meaning.specs.Summarize.{summarize_table};
ghost use Rattle.summarize_pieces.specs.Joined.{joined_groups};
ghost use Rattle.summarize_pieces.specs.Pieces.{AreGroupsOf, AreStored, groups_in, piece_of};
ghost use Rattle.live_tables.specs.Growing.{with_rows};
ghost use Rattle.view_ops.specs.Views.{PlanFits, StandsFor, Viewed, can_take, grown, table_of};

use kql_bound::GroupPlan;
use kql_cells::Schema;
use kql_values::Table;
use std::alloc::{AllocError, Global};
use std::marker::Model;
use summarize_pieces::{OwnGroups, PieceRows, finish_groups, group_piece, join_groups, piece_rows};

/// A `summarize` over rows that come table by table: it keeps the groups of the rows that it took, and none of these rows. So the time that a
/// table takes depends on its own rows and on what is kept of the groups.
#[derive(Drop)]
pub struct View {
    pub(crate) alloc: Global,
    pub(crate) plan: GroupPlan,
    pub(crate) schema: Schema,
    pub(crate) groups: OwnGroups,
    pub(crate) fed: u64,
}

impl Model for View {
    ghost use Rattle.std.specs.Prelude.{true};
    ghost use Rattle.std.specs.Coded.{codes};
    ghost use Rattle.kql_cells.specs.contracts.dynamic.Dyn as dynamic;
    ghost use Rattle.kql_bound.specs.contracts.expr.BExpr as bexpr;
    ghost use Rattle.view_ops.specs.Views.{IsView, Viewed};

    ghost Value = { Viewed };

    ghost coded = { Prim.hlevel (codes, bexpr.the_row.coded, dynamic.the_row.coded) };

    ghost view = { λ v. record { plan = v.plan; columns = v.schema; groups = v.groups; fed = v.fed; stored = true } };

    ghost invariant = { λ v. IsView (record { plan = v.plan; columns = v.schema; groups = v.groups; fed = v.fed; stored = true }) };
}

// The groups of all rows of a table.
fn groups_of(alloc: Global, plan: &GroupPlan, t: &Table) -> Result<OwnGroups, AllocError>
    requires fits { PlanFits plan.now t.now.columns }
    ensures groups { IfOk result (AreGroupsOf plan.now t.now 0 (length t.now.lines)) }
{
    let read = piece_rows(alloc, t, plan, 0, t.len())?;
    let groups = group_piece(alloc, &read)?;
    let own = groups.own(alloc)?;
    Ok(own)
}

impl View {
    /// A view of no rows, which takes tables of these columns.
    pub fn new(alloc: Global, plan: GroupPlan, schema: Schema) -> Result<View, AllocError>
        requires fits { PlanFits plan schema }
        ensures plan { IfOk result (λ v. (v.plan ≡ plan) × (v.columns ≡ schema)) }
        ensures none { IfOk result (λ v. StandsFor v []) }
    {
        let none = Table::empty(alloc, schema.copy(alloc)?)?;
        let groups = groups_of(alloc, &plan, &none)?;
        Ok(View {
            alloc,
            plan,
            schema,
            groups,
            fed: 0,
        })
    }

    /// Takes the rows of a table of its columns, behind those that it took before.
    pub fn append(&mut self, t: &Table) -> Result<(), AllocError>
        requires columns { t.now.columns ≡ self.old.columns }
        requires rows { self.old.fed + length t.now.lines < 2 ^ 63 }
        ensures grown { OnOk result (self.new ≡ grown self.old t.now) }
        ensures stands { OnOk result ((lines : List (List Cell)) → StandsFor self.old lines → StandsFor self.new (lines ++ t.now.lines)) }
        ensures refused { OnErr result (self.new ≡ self.old) }
    {
        let groups = self.joined(t)?;
        self.groups = groups;
        self.fed += t.len() as u64;
        Ok(())
    }

    // The groups, with those of a table's rows joined to them.
    fn joined(&self, t: &Table) -> Result<OwnGroups, AllocError>
        requires columns { t.now.columns ≡ self.now.columns }
        requires rows { self.now.fed + length t.now.lines < 2 ^ 63 }
        ensures takes { can_take self.now t.now }
        ensures joined { IfOk result (λ x. x ≡ joined_groups self.now.groups (groups_in self.now.plan t.now 0 (length t.now.lines))) }
        ensures stored { OnOk result (AreStored self.now.plan t.now 0 (length t.now.lines)) }
    {
        let _columns = t.schema().columns();
        let read = piece_rows(self.alloc, t, &self.plan, 0, t.len())?;
        let own = self.joined_with(t, &read)?;
        Ok(own)
    }

    // The same, where the table's rows are read.
    fn joined_with(&self, _t: &Table, read: &PieceRows) -> Result<OwnGroups, AllocError>
        requires takes { can_take self.now _t.now }
        requires rows { self.now.fed + length _t.now.lines < 2 ^ 63 }
        requires read { read.now ≡ piece_of self.now.plan _t.now 0 (length _t.now.lines) }
        ensures joined { IfOk result (λ x. x ≡ joined_groups self.now.groups (groups_in self.now.plan _t.now 0 (length _t.now.lines))) }
        ensures stored { OnOk result (AreStored self.now.plan _t.now 0 (length _t.now.lines)) }
    {
        let kept = self.groups.lend(self.alloc)?;
        let more = group_piece(self.alloc, read)?;
        let all = join_groups(self.alloc, kept, more)?;
        let own = all.own(self.alloc)?;
        Ok(own)
    }

    /// The table of the `summarize` over all rows that it took.
    pub fn table(&self) -> Result<Table, AllocError>
        ensures table { (lines : List (List Cell)) → StandsFor self.now lines → IfOk result (λ r. r ≡ summarize_table self.now.plan (table_of self.now.columns lines)) }
        ensures grown { (v : Viewed) (t : Grid) (batches : List Grid) → t.columns ≡ v.columns → StandsFor v t.lines → All (can_take v) batches → self.now ≡ fold grown v batches → IfOk result (λ r. r ≡ summarize_table v.plan (fold with_rows t batches)) }
    {
        let lent = self.groups.lend(self.alloc)?;
        let made = finish_groups(self.alloc, lent, &self.plan, &self.schema)?;
        Ok(made)
    }

    /// How many rows it took.
    pub fn fed(&self) -> u64
        ensures fed { result ≡ self.now.fed }
        ensures count { (lines : List (List Cell)) → StandsFor self.now lines → result ≡ length lines }
        ensures few { result < 2 ^ 63 }
        ensures stored { self.now.stored ≡ true }
    {
        self.fed
    }

    /// The columns of the tables that it takes.
    pub fn schema(&self) -> &Schema
        ensures columns { result.now ≡ self.now.columns }
    {
        &self.schema
    }
}
