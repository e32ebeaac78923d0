ghost use Rattle.std.specs.Prelude.{◌≡◌, ◌≢◌, IfSome, option_map};
ghost use Rattle.kql_cells.specs.Seen.{seen};
ghost use Rattle.csv_io.specs.Cells.{FitsKind, read_filled};

use crate::days::Day;
use kql_cells::{CellRef, Kind, read_bool, read_long};
use kql_ticks::read_span;

// What a field that is not empty shows in a column of this type, or none where it is of another form. In a column of
// dynamic values it would be a value of its own.
pub(crate) fn filled_cell<'a>(kind: Kind, text: &'a str, day: &mut Day) -> Option<CellRef<'a>>
    requires { kind ≢ Kind.Dynamic }
    ensures value { option_map seen result ≡ read_filled kind text.now }
    ensures fits { IfSome result (λ c. FitsKind kind (seen c)) }
{
    match kind {
        Kind::Text => Some(CellRef::Text(text)),
        Kind::Bool => bool_cell(text),
        Kind::Long => long_cell(text),
        Kind::Moment => moment_cell(text, day),
        Kind::Span => span_cell(text),
        Kind::Dynamic => None,
    }
}

fn bool_cell<'a>(text: &str) -> Option<CellRef<'a>>
    ensures value { option_map seen result ≡ read_filled Kind.Bool text.now }
    ensures fits { IfSome result (λ c. FitsKind Kind.Bool (seen c)) }
{
    match read_bool(text) {
        Some(holds) => Some(CellRef::Bool(holds)),
        None => None,
    }
}

fn long_cell<'a>(text: &str) -> Option<CellRef<'a>>
    ensures value { option_map seen result ≡ read_filled Kind.Long text.now }
    ensures fits { IfSome result (λ c. FitsKind Kind.Long (seen c)) }
{
    match read_long(text) {
        Some(number) => Some(CellRef::Long(number)),
        None => None,
    }
}

fn moment_cell<'a>(text: &str, day: &mut Day) -> Option<CellRef<'a>>
    ensures value { option_map seen result ≡ read_filled Kind.Moment text.now }
    ensures fits { IfSome result (λ c. FitsKind Kind.Moment (seen c)) }
{
    match day.read(text) {
        Some(ticks) => Some(CellRef::Moment(ticks)),
        None => None,
    }
}

fn span_cell<'a>(text: &str) -> Option<CellRef<'a>>
    ensures value { option_map seen result ≡ read_filled Kind.Span text.now }
    ensures fits { IfSome result (λ c. FitsKind Kind.Span (seen c)) }
{
    match read_span(text) {
        Some(ticks) => Some(CellRef::Span(ticks)),
        None => None,
    }
}
