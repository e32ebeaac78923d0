//! Catalogue files: the tables that a JSON text names, each with its columns and the files of its rows.
#![tactic(auto)]

mod catalogue;
mod columns;
mod entry;
mod fault;
mod json;

pub use catalogue::{CatalogueFile, read_catalogue};
pub use entry::Entry;
pub use fault::CatalogueFault;
