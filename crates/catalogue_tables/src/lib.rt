//! The tables of a catalogue file, read from a shelf.
#![tactic(auto)]

mod entries;
mod files;
mod rows;
mod stop;
mod tables;

pub use stop::CatalogueStop;
pub use tables::catalogue_tables;
