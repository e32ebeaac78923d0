//! Datetimes and timespans, in ticks of 100 ns.
//!
//! A datetime counts ticks from 0001-01-01T00:00:00, in the proleptic Gregorian calendar and with no time zone, up to
//! 9999-12-31T23:59:59.9999999. A timespan is a signed count of ticks.
#![tactic(auto)]

mod bins;
mod days;
mod moments;
mod moves;
mod numbers;
mod part;
mod periods;
mod printing;
mod ranges;
mod spans;

pub use bins::bin_at;
pub use moments::{make_moment, read_moment};
pub use moves::add_part;
pub use part::Part;
pub use periods::{borders, day_of_week, end_of, part_of, start_of};
pub use printing::{print_moment, print_span, push_moment, push_span};
pub use spans::read_span;
