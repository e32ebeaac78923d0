//! The aggregates as folds: each takes the rows of a group one by one, two of them are joined, and one gives the value that the
//! aggregate has over the rows.
//!
//! What a fold keeps is small: a number, one value, or a set or list of values that are lent and not copied. `specs/Folds.antt` says
//! what it gives, and `law_of_folds` that this is what `kql_meaning` says of the aggregate.
#![tactic(auto)]

mod best;
mod bits;
mod call;
mod cells;
mod elements;
mod fold;
mod held;
mod kept;
mod laws;
mod lists;
mod own;
mod pieces;
mod rows;
mod state;
mod totals;

pub use call::{FoldCall, fold_call, needs};
pub use fold::Fold;
pub use kept::OwnFold;
pub use laws::law_of_folds;
pub use pieces::PieceFold;
