//! A field of a record.
ghost use Rattle.std.specs.Prelude.{◌≡◌, ◌<◌, [], length, slice_index_or};
ghost use Rattle.csv.specs.Records.{fields_of};

use csv::ByteRecord;

/// The field at a place.
pub(crate) fn field(row: &ByteRecord, j: usize) -> &[u8]
    requires { j < length (fields_of row.now) }
    ensures { result.now ≡ slice_index_or (fields_of row.now) j [] }
{
    row.get(j).unwrap()
}
