//! Columns, rows and tables: what a query is evaluated over.
//!
//! A table is a schema and rows that fit it, stored by columns; a catalogue is tables under their names. What a cell and a
//! column hold is in `kql_cells`, which this crate passes on whole.
#![tactic(auto)]

mod builder;
mod byte_pieces;
mod catalogue;
mod fitting;
mod number_column;
mod rows;
mod store;
mod table;
mod text_column;
mod vector;
mod vectors;

pub use builder::TableBuilder;
pub use catalogue::{Catalogue, Named};
pub use fitting::{cell_fits, cells_fit, columns_fit, have_same_kinds};
pub use kql_cells::{
    Bytes, CellRef, Column, Dyn, DynBag, DynList, KText, KeyList, Kind, LEVELS_TOP, MOMENT_TOP,
    NamedSchema, Names, Ordinals, Paths, Places, Row, Schema, Schemas, Value, Values, clone_dyn,
    clone_value, copy_columns, copy_names, has_form, has_levels_within, hash_cell, hash_dyn,
    is_well_formed, order_cells, order_of, read_bool, read_long, row_fits, same_dyn, same_key,
};
use kql_items::Items;
pub use number_column::NumberColumn;
pub use rows::Rows;
pub use store::{NumberKind, Numbers};
pub use table::Table;
pub use text_column::TextColumn;
pub use vector::Vector;

/// Tables, one after another.
pub type Tables = Items<Table>;
