//! Groups that know which rows they are of.
use kql_bound::GroupPlan;
use kql_values::Table;
use std::marker::Model;
use summarize_pieces::Groups;

/// The groups of a range of rows of a table, and which range that is: so what holds of them goes with them from the worker that made them to
/// the one that joins them.
#[derive(Drop)]
pub(crate) struct RangeGroups<'a> {
    pub(crate) groups: Groups<'a>,
    pub(crate) table: &'a Table,
    pub(crate) plan: &'a GroupPlan,
    pub(crate) from: usize,
    pub(crate) to: usize,
}

impl<'a> Model for RangeGroups<'a> {
    ghost use Rattle.std.specs.Coded.{codes};
    ghost use Rattle.kql_cells.specs.contracts.dynamic.Dyn as dynamic;
    ghost use Rattle.kql_bound.specs.contracts.expr.BExpr as bexpr;
    ghost use Rattle.summarize_pieces.specs.Pieces.{AreGroupsOf};
    ghost use Rattle.phase_groups.specs.Works.{RangeSeen};

    ghost Value = { RangeSeen };

    ghost coded = { Prim.hlevel (codes, bexpr.the_row.coded, dynamic.the_row.coded) };

    ghost view = { λ r. record { groups = r.groups; plan = r.plan.now; table = r.table.now; from = r.from; to = r.to } };

    ghost invariant = { λ r. AreGroupsOf r.plan.now r.table.now r.from r.to r.groups };
}

impl<'a> RangeGroups<'a> {
    ghost use Rattle.summarize_pieces.specs.Pieces.{AreGroupsOf};

    /// The groups alone.
    pub(crate) fn into_groups(self) -> Groups<'a>
        ensures groups { AreGroupsOf self.entry.plan self.entry.table self.entry.from self.entry.to result }
    {
        let RangeGroups {
            groups,
            table: _,
            plan: _,
            from: _,
            to: _,
        } = self;
        groups
    }
}
