//! Binding of expressions: from a tree and a scope to an expression whose names are bound and whose type is known, or to the first
//! fault with its place.
//!
//! `specs/Bound.antt` says what each form is bound to; the other files there say it of one kind of node each.
#![tactic(auto)]

mod aggregates;
mod alone;
mod arguments;
mod bind;
mod calls;
mod chain;
mod compare;
mod constants;
mod counts;
mod fault;
mod forms;
mod kinds;
mod laws;
mod literals;
mod logic;
mod names;
mod operands;
mod path;
mod patterns;
mod scope;
mod steps;
mod typed;
mod windows;

pub use bind::bind_expr;
pub use constants::constant_of;
pub use fault::BindFault;
pub use laws::law_of_codes;
pub use names::bind_name;
pub use scope::{Const, Consts, Scope, StepNames};
pub use typed::Typed;
