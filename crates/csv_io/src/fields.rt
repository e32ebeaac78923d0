ghost use Rattle.std.specs.Prelude.{◌≡◌, ◌<◌, [], length, slice_index_or};
ghost use Rattle.csv.specs.Records.{AllText};

use crate::line::Line;
use std::str;

// A field of a record, which is text. It was tested with the whole file, so it is not tested again.
pub(crate) fn field<'a>(line: &'a Line<'_>, j: usize) -> &'a str
    requires within { j < length line.now }
    requires text { AllText line.now }
    ensures { result.now ≡ slice_index_or line.now j [] }
{
    unsafe { str::from_utf8_unchecked(line.bytes(j)) }
}
