//! `where`, `extend` and `project` with the window functions, in one pass over the rows for each `row_cumsum` and `row_number`.
//!
//! An expression in which neither of these two stands is evaluated by `kql_scalar`. Of any other one each part is computed as a column
//! first, and what stands over the parts then reads these columns row by row, so that no row looks at all rows before it.
//!
//! By ranges of rows: what the rows behind a range need to know of it is its carry, and carries are joined.
#![tactic(auto)]

mod applied;
mod calls;
mod carries;
mod cells;
mod columns;
mod items;
mod join;
mod kept;
mod operators;
mod parts;
mod pieces;
mod running;
mod sums;
mod windows;

pub use carries::{Carries, Carry};
pub use join::carry;
pub use operators::{extend_rows, project_rows, where_rows, window_rows};
pub use pieces::{fill_piece, sum_piece, sum_pieces};
