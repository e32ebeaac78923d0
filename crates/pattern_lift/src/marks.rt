//! The marks that added names begin with.
ghost use Rattle.std.specs.Prelude.{◌≡◌, IfOk};
ghost use Rattle.pattern_lift.specs.Marks.{larger, marks_beyond, marks_of, most_marks};

use kql_cells::KText;
use std::alloc::{AllocError, Global};

// How many `#` a name begins with.
#[tactic(auto, unfolding(crate::specs::Marks::marks_of))]
fn marks_of(name: &[u8]) -> usize
    ensures count { result ≡ marks_of name.now }
{
    let mut count = 0;
    let mut left = name;
    'bytes: while let Some((first, more)) = left.split_first() {
        if *first != b'#' {
            return count;
        }
        count += 1;
        left = more;
    }
    count
}

fn larger(a: usize, b: usize) -> usize
    ensures larger { result ≡ larger a b }
{
    if a < b { b } else { a }
}

// The most that one of these names begins with.
#[tactic(auto, unfolding(crate::specs::Marks::most_marks))]
fn most_marks(names: &[KText]) -> usize
    ensures most { result ≡ most_marks names.now }
{
    let mut most = 0;
    for name in names {
        most = larger(most, marks_of(name.as_str().as_bytes()));
    }
    most
}

/// So many `#` that none of these names begins with them.
#[tactic(auto, unfolding(crate::specs::Marks::marks_beyond))]
pub fn marks_beyond(alloc: Global, names: &[KText]) -> Result<KText, AllocError>
    ensures marks { IfOk result (λ m. m ≡ marks_beyond names.now) }
{
    let most = most_marks(names);
    let more = "#".repeat(alloc, most)?;
    let mut marks = KText::from_str(alloc, "#")?;
    marks.push_str(more.as_str())?;
    Ok(marks)
}
