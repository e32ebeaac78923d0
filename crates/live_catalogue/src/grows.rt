ghost use Rattle.std.specs.Prelude.{◌≡◌, ℕ, ◌+◌, ◌^◌, ◌<◌, ◌↔◌, length, IsTrue, IfOk, OnOk, OnErr};
ghost use Rattle.kql_cells.specs.Table.{Grid};

use kql_values::Table;
use std::alloc::AllocError;

/// A value that grows by batches.
pub trait Grows: Drop {
    ghost can_take: { Self → Grid → Type 0 };

    ghost row_count: { Self → ℕ };

    // The value with the batch's rows at its end.
    ghost grown: { Self → Grid → Self };

    fn takes(&self, batch: &Table) -> bool
        ensures takes { IsTrue result ↔ can_take self.now batch.now };

    fn rows(&self) -> u64
        ensures rows { result ≡ row_count self.now };

    fn grow(&mut self, batch: &Table) -> Result<(), AllocError>
        requires takes { can_take self.old batch.now }
        requires rows { row_count self.old + length batch.now.lines < 2 ^ 63 }
        ensures grown { OnOk result (self.new ≡ grown self.old batch.now) }
        ensures unchanged { OnErr result (self.new ≡ self.old) };

    fn copy(&self) -> Result<Self, AllocError>
        ensures equal { IfOk result (λ c. c ≡ self.now) };

    // It takes the same batches afterwards, and has the batch's rows more.
    ghost takes_alike: { (v : Self) (b c : Grid) → can_take v b → can_take (grown v b) c ↔ can_take v c };

    ghost rows_add: { (v : Self) (b : Grid) → can_take v b → row_count (grown v b) ≡ row_count v + length b.lines };
}
