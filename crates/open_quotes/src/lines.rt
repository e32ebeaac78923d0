//! The line that tells of an open quote.
ghost use Rattle.std.specs.Prelude.{◌≡◌, IfOk, string_bytes};
ghost use Rattle.open_quotes.specs.Lines.{quote_line};

use std::alloc::{AllocError, Global};

/// The line, without its line feed, that tells of a quote which is open at the end of the file of a path, and was opened in this line.
pub fn quote_line(alloc: Global, line: usize, path: &str) -> Result<String, AllocError>
    ensures line { IfOk result (λ t. string_bytes t ≡ quote_line line path.now) }
{
    format!(in alloc;
        "kql: {path}, line {line}: the double quote that begins a cell here is not closed, so that the file is read to its end as this one cell"
    )
}
