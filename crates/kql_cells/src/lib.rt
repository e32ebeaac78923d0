//! Values and columns: what a cell of a table holds, and what a schema says of it.
//!
//! A value is of one of six types or null; a row fits columns where it has one value of each. Every text is UTF-8.
#![tactic(auto)]

mod cell;
mod dynamic;
mod hash;
mod order;
mod readings;
mod row;
mod schema;
mod schemas;
mod text;
mod value;

pub use cell::CellRef;
pub use dynamic::{
    Dyn, DynBag, DynList, LEVELS_TOP, clone_dyn, has_form, has_levels_within, same_dyn,
};
pub use hash::{hash_cell, hash_dyn};
use kql_items::Items;
pub use order::{order_cells, order_of};
pub use readings::{read_bool, read_long};
pub use row::row_fits;
pub use schema::{Column, Schema, copy_columns};
pub use schemas::{NamedSchema, Schemas};
pub use text::{KText, copy_names};
pub use value::{Kind, MOMENT_TOP, Row, Value, clone_value, is_well_formed, same_key};

/// Single values, one after another.
pub type Values = Items<Value>;

/// The keys of a column in some order.
pub type KeyList = Items<Value>;

/// Names, one after another.
pub type Names = Items<KText>;

/// Paths of files, one after another.
pub type Paths = Items<KText>;

/// Numbers that rows carry to be put back into their order.
pub type Ordinals = Items<u64>;

/// Places of rows or columns, from 0: what a table is gathered at.
pub type Places = Items<usize>;

/// Bytes, as a file holds them.
pub type Bytes = Items<u8>;
