//! The line that tells of the numbers of a file.
ghost use Rattle.std.specs.Prelude.{◌≡◌, IfOk, option_map, string_bytes};
ghost use Rattle.json_losses.specs.Lines.{losses_line};

use std::alloc::{AllocError, Global};

/// The line, without its line feed, that tells of a count of numbers in the file of a path; none where there are none.
#[tactic(auto, unfolding(crate::specs::Lines::losses_line))]
pub fn losses_line(alloc: Global, count: u64, path: &str) -> Result<Option<String>, AllocError>
    ensures line { IfOk result (λ o. option_map string_bytes o ≡ losses_line count path.now) }
{
    if count == 0 {
        return Ok(None);
    }
    if count == 1 {
        let line = format!(in alloc;
            "kql: 1 number of JSON in {path} is not written as a whole number of 64 bits, and read as null"
        )?;
        return Ok(Some(line));
    }
    let line = format!(in alloc;
        "kql: {count} numbers of JSON in {path} are not written as whole numbers of 64 bits, and read as null"
    )?;
    Ok(Some(line))
}
