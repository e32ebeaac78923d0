//! The law of views.
ghost use Rattle.std.specs.Prelude.{◌≡◌, All, IsTrue, List, fold};
ghost use Rattle.kql_cells.specs.Table.{Grid};
ghost use Rattle.live_tables.specs.Growing.{with_rows};
ghost use Rattle.view_ops.specs.Views.{StandsFor, Viewed, can_take, grown};

/// A view that stands for the rows of a table stands, once it took other tables, for the rows of the table that grew by them. The numbers that
/// its calls read are stored in every view that a program holds, as `View::fed` tells.
#[tactic(auto)]
pub fn views_stand_for_what_they_took()
    ensures grown { (v : Viewed) (t : Grid) (batches : List Grid) → t.columns ≡ v.columns → StandsFor v t.lines → All (can_take v) batches → IsTrue (fold grown v batches).stored → StandsFor (fold grown v batches) (fold with_rows t batches).lines }
{}
