ghost use Rattle.std.specs.Prelude.{◌≡◌, Ok, IfErr, IfOk};
ghost use Rattle.csv_io.specs.Faults.{IsFaultOf};
ghost use Rattle.csv_io.specs.Load.{loaded};

use crate::fault::{DataFault, NOT_UTF8, refused};
use crate::head::Head;
use kql_items::Items;
use kql_values::Table;
use simdutf8::compat::from_utf8;
use std::alloc::Global;

/// The table of a file of CSV (RFC 4180), or the first fault in it.
///
/// The first record is the header. A field `Name:type` of it, where the text after the last colon is one of the words
/// bool, long, string, datetime, timespan and dynamic, names a column of that type; any other field is wholly a name,
/// of type string. The other records are the rows. An empty cell is null, and the empty string in a column of strings.
/// Spaces and tabs round a cell are passed over, but for those of strings and JSON. A bool is `true` or `false` in any
/// case of ASCII; a long is digits with a minus before them or none; datetimes, timespans and JSON are read by
/// `read_moment`, `read_span` and `parse_json`.
///
/// The refusals, in the order in which they are looked for: 301 the file is not UTF-8 (the column is the number of bytes
/// before the first that is not); 302 there is no record; then of the header, column by column, 303 no name, a type that
/// the language leaves out, or the 257th column, 304 a name that stood before; then row by row 305 another number of
/// fields (which is the column), and 306 a cell that does not read as its type, which no cell of a dynamic column is.
pub fn load(alloc: Global, bytes: &[u8]) -> Result<Table, DataFault>
    ensures table { IfOk result (λ t. loaded bytes.now ≡ Ok t) }
    ensures fault { IfErr result (IsFaultOf (loaded bytes.now)) }
{
    match from_utf8(bytes) {
        Ok(text) => Head::read(alloc, text)?.join(alloc, Items::new(alloc)),
        Err(e) => Err(refused(NOT_UTF8, 0, e.valid_up_to())),
    }
}
