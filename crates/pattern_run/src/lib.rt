//! Pattern calls of a bound program: their patterns are made, what they answer is put into derived tables, and the program is lifted.
#![tactic(auto)]

mod answers;
mod calls;
mod fault;
mod grids;
mod laws;
mod lift;
mod lifted;
mod making;
mod names;
mod run;

pub use calls::first_call;
pub use fault::PatternFault;
pub use laws::law_of_answered_calls;
pub use lifted::Lifted;
pub use run::run_patterns;
