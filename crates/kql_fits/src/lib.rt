//! When a bound program fits the schemas of the tables that it reads.
//!
//! The definitions are those of `kql_meaning`: `Fits.antt`, `FittingOperators.antt` and `FittingExpressions.antt` in its specs.
#![tactic(auto)]

mod fit_aggregates;
mod fit_calls;
mod fit_expressions;
mod fit_operators;
mod fit_plans;
mod fit_programs;
mod fit_scan;
mod kind_tests;
mod literals;
mod scope;

pub use fit_aggregates::has_one_result;
pub use fit_expressions::is_aggregate_call;
pub use fit_operators::{
    are_distinct, bins_fit, is_of_type_in, is_step_of, items_fit, pair_fits, range_fits, sort_fits,
    where_fits,
};
pub use fit_programs::fits;
pub use literals::is_count;
