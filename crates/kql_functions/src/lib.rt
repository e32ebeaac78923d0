//! The functions of the language: scalar functions and operators with the types that they take and give, window functions and
//! aggregates, each by its name.
#![tactic(auto)]

mod aggregate;
mod func;
mod kinds;
mod names;
mod shapes;
mod tables;
mod window;

pub use aggregate::{Aggregate, aggregates};
pub use func::{
    ArithmeticFunc, ChoiceFunc, ComparisonFunc, ConversionFunc, DynamicFunc, Func, LogicFunc,
    PatternFunc, SearchFunc, SearchPlace, TextFunc, TimeFunc,
};
pub use kinds::result_kind;
pub use names::{Found, find};
pub use shapes::{has_order, same_kind};
pub use tables::{functions, operators};
pub use window::{Window, windows};
