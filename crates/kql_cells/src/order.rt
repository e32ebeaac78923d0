ghost use Rattle.std.specs.Prelude.{◌≡◌, ◌↔◌, ℤ, ℕ};
ghost use Rattle.std.specs.declared.cmp.Ordering.TheVariants.{Equal};
ghost use Rattle.std.specs.Cmp.{IsTotalOrder};
ghost use Rattle.std.specs.Ordering.{ordering_reverse};
ghost use Rattle.kql_cells.specs.Seen.{seen};
ghost use Rattle.kql_cells.specs.Ordered.{HaveOrder, number_in, rank, text_in, value_cmp};

use crate::cell::CellRef;
use crate::value::Value;
use std::cmp::Ordering;

/// The order of two values of one type that is not dynamic: null first, false before true, numbers by size,
/// texts by bytes. Two values of two types are ordered by their types, and any two dynamic values are alike.
pub fn order_of(a: &Value, b: &Value) -> Ordering
    ensures order { result ≡ value_cmp a.now b.now }
    ensures same { HaveOrder a.now b.now → ((result ≡ Equal) ↔ (a.now ≡ b.now)) }
    ensures turned { value_cmp b.now a.now ≡ ordering_reverse result }
    ensures total { IsTotalOrder value_cmp }
{
    order_cells(a.as_cell(), b.as_cell())
}

/// The order of two cells, which is that of the values that they show.
pub fn order_cells(a: CellRef<'_>, b: CellRef<'_>) -> Ordering
    ensures order { result ≡ value_cmp (seen a.entry) (seen b.entry) }
{
    rank_of(a)
        .cmp(&rank_of(b))
        .then(number_of(a).cmp(&number_of(b)))
        .then(text_of(a).cmp(text_of(b)))
}

fn rank_of(cell: CellRef<'_>) -> u8
    ensures { result ≡ rank (seen cell.entry) }
{
    match cell {
        CellRef::Null => 0,
        CellRef::Bool(_) => 1,
        CellRef::Long(_) => 2,
        CellRef::Text(_) => 3,
        CellRef::Moment(_) => 4,
        CellRef::Span(_) => 5,
        CellRef::Dynamic(_) => 6,
    }
}

fn number_of(cell: CellRef<'_>) -> i64
    ensures { result ≡ number_in (seen cell.entry) }
{
    match cell {
        CellRef::Bool(true) => 1,
        CellRef::Long(n) => n,
        CellRef::Moment(n) => n,
        CellRef::Span(n) => n,
        _ => 0,
    }
}

fn text_of(cell: CellRef<'_>) -> &str
    ensures { result.now ≡ text_in (seen cell.entry) }
{
    match cell {
        CellRef::Text(t) => t,
        _ => "",
    }
}
