//! Tables from CSV and back: RFC 4180 as the crate `csv` reads and writes it, under a header that types its columns.
//!
//! A text may be read, and a table printed, in ranges that are put together afterwards: `Head` and `Printed`.
#![tactic(auto)]

mod blanks;
mod cells;
mod cut;
mod days;
mod fault;
mod fields;
mod first;
mod head;
mod header;
mod joined;
mod lanes;
mod lent;
mod line;
mod loading;
mod output;
mod piece;
mod print;
mod printed;
mod printed_day;
mod quoted;
mod rows;
mod stack;
mod typed_load;

pub use fault::DataFault;
pub use head::Head;
pub use loading::load;
pub use piece::Piece;
pub use print::{table_text, typed_text};
pub use printed::{Printed, join_text, join_typed_text};
pub use stack::{Parts, Stack, table_of};
pub use typed_load::load_typed;
