//! What the scalar functions and operators of the language give for their arguments.
#![tactic(auto)]

mod arguments;
mod arithmetic;
mod bits;
mod calls;
mod choice;
mod comparison;
mod conversion;
mod dynamic;
mod laws;
mod logic;
mod membership;
mod readings;
mod search;
mod text;
mod time;
mod well_formed;
mod whole;

pub use calls::{apply, apply_cells};
pub use kql_functions::{
    Aggregate, ArithmeticFunc, ChoiceFunc, ComparisonFunc, ConversionFunc, DynamicFunc, Found,
    Func, LogicFunc, SearchFunc, SearchPlace, TextFunc, TimeFunc, Window, aggregates, find,
    functions, operators, result_kind, windows,
};
pub use laws::{
    first_that_is_given, least_and_greatest, lists_by_keys, remainders, three_valued_logic,
};
pub use membership::values_in;
pub use time::{field_named, period_named};
pub use well_formed::are_well_formed;
