ghost use Rattle.std.specs.Prelude.{◌≡◌, OnOk};
ghost use Rattle.kql_shell.specs.Parts.{is_in_line, with_part};

use std::alloc::AllocError;

/// Adds a part to the text of a query. It begins a line of its own.
pub fn add_part(query: &mut Vec<u8>, part: &[u8]) -> Result<(), AllocError>
    ensures { OnOk result (query.new.items ≡ with_part query.old.items part.now) }
{
    if is_in_line(query) {
        query.push(b'\n')?;
    }
    query.extend_from_slice(part)
}

// Whether a text ends within a line.
fn is_in_line(text: &[u8]) -> bool
    ensures { result ≡ is_in_line text.now }
{
    !text.is_empty() && text[text.len() - 1] != b'\n'
}
