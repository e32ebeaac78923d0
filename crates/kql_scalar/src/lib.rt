//! Values of bound expressions at the rows of a table.
//!
//! A `Located` is an expression whose columns are places, made once for an operator; contracts see it as the expression and the
//! columns. `specs/Means.antt` says what it stands for, and the values are those of `kql_meaning`.
#![tactic(auto)]

mod calls;
mod cells;
mod chains;
mod columns;
mod laws;
mod lent;
mod lent_column;
mod list_keys;
mod lists;
mod locate;
mod node;
mod opposites;
mod pairs;
mod parts;
mod places;
mod rows;
mod scalar;
mod stores;
mod sums;
mod truths;
mod values;
mod values_at;

pub use columns::eval;
pub use laws::law_of_scalars;
pub use lent::Lent;
pub use lent_column::LentColumn;
pub use node::Located;
pub use scalar::{are_sound, is_scalar};
