//! Which columns of a header are dynamic.
ghost use Rattle.std.specs.Prelude.{◌≡◌, IfOk, codes, map};
ghost use Rattle.std.specs.Str.{bytes_eq};
ghost use Rattle.csv.specs.Records.{fields_of};
ghost use Rattle.json_losses.specs.Losses.{names_dynamic};

use crate::fields::field;
use csv::ByteRecord;
use std::alloc::{AllocError, Global};

/// Whether each column that a header names is dynamic.
pub(crate) fn dynamic_columns(alloc: Global, header: &ByteRecord) -> Result<Vec<bool>, AllocError>
    ensures columns { IfOk result (λ bs. bs.items ≡ map names_dynamic (fields_of header.now)) }
{
    let mut columns = Vec::with_capacity(alloc, header.len())?;
    for j in 0..header.len() {
        columns.push(names_dynamic(field(header, j)))?;
    }
    Ok(columns)
}

// Whether a field of a header names a dynamic column: what stands behind its last colon is that word.
fn names_dynamic(field: &[u8]) -> bool
    ensures { result ≡ names_dynamic field.now }
{
    let mut end = field.len();
    'back: while end > 0 {
        end -= 1;
        if field[end] == b':' {
            return is_dynamic_word(&field[end + 1..]);
        }
    }
    false
}

fn is_dynamic_word(word: &[u8]) -> bool
    ensures { result ≡ bytes_eq word.now (codes "dynamic") }
{
    word == b"dynamic".as_slice()
}
