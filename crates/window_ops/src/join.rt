//! The carries of two ranges.
ghost use Rattle.std.specs.Prelude.{◌≡◌, ◌<◌, ◌≤◌, ◌+◌, ◌^◌, ℕ};
ghost use Rattle.kql_cells.specs.Table.{Grid};
ghost use Rattle.kql_bound.specs.declared.expr.WinCall.{WinCall as Call};
ghost use Rattle.window_ops.specs.Calls.{carry_of};
ghost use Rattle.window_ops.specs.Carries.{joined};

use crate::carries::{Carry, both_of};

/// The carry of a range joined with that of the range behind it, which is the carry of both. Together they have fewer than 2^63 rows.
pub fn carry(a: &Carry, b: &Carry) -> Carry
    requires few { a.now.count + b.now.count < 2 ^ 63 }
    ensures joined { result ≡ joined a.now b.now }
    ensures both { (w : Call) (t : Grid) (i j k : ℕ) → i ≤ j → j ≤ k → a.now ≡ carry_of w t i j → b.now ≡ carry_of w t j k → result ≡ carry_of w t i k }
{
    both_of(a, b)
}
