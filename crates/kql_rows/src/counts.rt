//! How many rows were checked.
use std::io;

/// How many rows were checked, and how many were wrong.
#[derive(Clone, Copy, Drop)]
pub(crate) struct Counts {
    pub(crate) rows: u32,
    pub(crate) wrong: u32,
}

impl Counts {
    pub(crate) fn new() -> Counts {
        Counts { rows: 0, wrong: 0 }
    }

    /// One row more, and one more that is wrong where it is.
    pub(crate) fn with_row(self, is_wrong: bool) -> Counts {
        Counts {
            rows: self.rows.saturating_add(1),
            wrong: self.wrong.saturating_add(u32::from(is_wrong)),
        }
    }

    /// The same rows, and one more that is wrong.
    pub(crate) fn with_wrong(self) -> Counts {
        Counts {
            rows: self.rows,
            wrong: self.wrong.saturating_add(1),
        }
    }
}

/// Tells of a row what was found and not what it says.
pub(crate) fn tell<R: Print>(rt: &R, asked: &str, found: &str, wanted: &str) -> io::Result<()> {
    println!(rt; "{asked}: {found}, not {wanted}")
}

/// Tells a line that is no row.
pub(crate) fn tell_no_row<R: Print>(rt: &R, line: &str) -> io::Result<()> {
    println!(rt; "no row: {line}")
}
