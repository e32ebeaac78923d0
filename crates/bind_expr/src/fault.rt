//! Why an expression is not bound.

use kql_lexer::Place;
use thiserror::Error;

/// Why an expression is not bound.
#[derive(Clone, Copy, Debug, PartialEq, Eq, Error)]
pub enum BindFault {
    /// 401 to 409, 418 and 420 at the place of the name, function, sign or literal that is refused.
    #[error("{code} at line {}, column {}", .place.line, .place.column)]
    Refused { code: u32, place: Place },
    #[error("out of memory")]
    OutOfMemory,
}
