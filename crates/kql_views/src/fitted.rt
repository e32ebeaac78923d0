ghost use Rattle.std.specs.Prelude.{◌≡◌, ◌<◌, ◌≤◌, IfOk, chars, false, string_bytes};
ghost use Rattle.kql_views.specs.Cut.{EndsCut, IsCut};
ghost use Rattle.unicode_width.specs.Width.{str_width};

use std::alloc::{AllocError, Global};
use unicode_width::UnicodeWidthStr;

// What stands for the rest of a text that is cut.
const REST: &str = "…";

/// A text that takes at most so many columns of a terminal: itself where it does, else its front and an ellipsis;
/// nothing where the ellipsis alone takes more.
#[tactic(auto, using(crate::proofs::EmptyText::empty_within))]
pub(crate) fn fitted(alloc: Global, text: &str, width: usize) -> Result<String, AllocError>
    ensures within { IfOk result (λ made. str_width false (chars (string_bytes made)) ≤ width) }
    ensures cut { width < str_width false (chars text.now) → IfOk result (λ made. IsCut width (string_bytes made)) }
    ensures whole { str_width false (chars text.now) ≤ width → IfOk result (λ made. string_bytes made ≡ text.now) }
{
    if text.width() <= width {
        return String::from_str(alloc, text);
    }
    for left in 0..width {
        let made = front(alloc, text, width - left)?;
        if made.as_str().width() <= width {
            return Ok(made);
        }
    }
    if REST.width() <= width {
        return String::from_str(alloc, REST);
    }
    Ok(String::new(alloc))
}

// The first characters of a text, one less than these, and an ellipsis.
fn front(alloc: Global, text: &str, count: usize) -> Result<String, AllocError>
    ensures { IfOk result (λ made. EndsCut (string_bytes made)) }
{
    let mut made = String::new(alloc);
    for c in text.chars().take(count.saturating_sub(1)) {
        made.push(c)?;
    }
    made.push_str(REST)?;
    Ok(made)
}
