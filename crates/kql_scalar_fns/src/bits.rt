ghost use Rattle.std.specs.Prelude.{◌≡◌};
ghost use Rattle.std.specs.Int.{int_bit_and, int_bit_or, int_bit_xor, w64};
ghost use Rattle.kql_cells.specs.Seen.{seen};
ghost use Rattle.kql_cells.specs.Values.{IsWellFormed};
ghost use Rattle.kql_scalar_fns.specs.Arithmetic.{bits_of_both, bits_turned};

use kql_cells::{CellRef, Value};

#[tactic(auto, unfolding(crate::specs::Arithmetic::bits_of_both))]
pub(crate) fn bits_and(a: CellRef<'_>, b: CellRef<'_>) -> Value
    ensures value { result ≡ bits_of_both (int_bit_and w64) (seen a.entry) (seen b.entry) }
    ensures form { IsWellFormed result }
{
    match (a, b) {
        (CellRef::Long(a), CellRef::Long(b)) => Value::Long(a & b),
        _ => Value::Null,
    }
}

#[tactic(auto, unfolding(crate::specs::Arithmetic::bits_of_both))]
pub(crate) fn bits_or(a: CellRef<'_>, b: CellRef<'_>) -> Value
    ensures value { result ≡ bits_of_both (int_bit_or w64) (seen a.entry) (seen b.entry) }
    ensures form { IsWellFormed result }
{
    match (a, b) {
        (CellRef::Long(a), CellRef::Long(b)) => Value::Long(a | b),
        _ => Value::Null,
    }
}

#[tactic(auto, unfolding(crate::specs::Arithmetic::bits_of_both))]
pub(crate) fn bits_xor(a: CellRef<'_>, b: CellRef<'_>) -> Value
    ensures value { result ≡ bits_of_both (int_bit_xor w64) (seen a.entry) (seen b.entry) }
    ensures form { IsWellFormed result }
{
    match (a, b) {
        (CellRef::Long(a), CellRef::Long(b)) => Value::Long(a ^ b),
        _ => Value::Null,
    }
}

#[tactic(auto, unfolding(crate::specs::Arithmetic::bits_turned))]
pub(crate) fn bits_turned(a: CellRef<'_>) -> Value
    ensures value { result ≡ bits_turned (seen a.entry) }
    ensures form { IsWellFormed result }
{
    match a {
        CellRef::Long(a) => Value::Long(!a),
        _ => Value::Null,
    }
}
