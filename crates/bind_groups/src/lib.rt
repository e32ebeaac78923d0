//! Operators that group or take rows apart, bound to the columns of the rows before them: `summarize`, `distinct`, `make-series`,
//! `mv-expand` and `parse`.
//!
//! The definitions are in `specs/`, one file for each operator, named as in `kql_meaning`.
#![tactic(auto)]

mod distinct;
mod forms;
mod groups;
mod kinds;
mod make_series;
mod mv_expand;
mod names;
mod parse;
mod part;
mod series_items;
mod summarize;
mod written_names;

pub use distinct::{bind_distinct, distinct_column};
pub use kinds::{bind_kind, bind_kind_or};
pub use make_series::bind_make_series;
pub use mv_expand::bind_mv_expand;
pub use parse::bind_parse;
pub use part::{ExpandPart, NamedExpands, NamedSeries, SeriesPart};
pub use summarize::bind_summarize;
pub use written_names::{WrittenNames, first_written_twice, none_written, with_text, with_written};
