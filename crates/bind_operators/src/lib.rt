//! Operators on rows bound to the columns of the rows before them, and what all operators share: the scopes in which their expressions
//! stand, the types and constants that they ask for, the names of their items and the faults of their answers.
//!
//! The definitions are in `specs/`, one file for each operator, named as in `kql_meaning`.
#![tactic(auto)]

mod answers;
mod bound;
mod extend;
mod items;
mod known;
mod places;
mod print;
mod project;
mod project_rename;
mod range;
mod scopes;
mod shape;
mod sort;
mod tables;
mod take_and_count;
mod wanted;
mod where_op;

pub use answers::{answered, apart, or_lost, over, serialised, with_next};
pub use bound::{BoundOp, BoundPlan};
pub use extend::{bind_extend, bind_serialize};
pub use items::{
    NamedItems, bind_item, bind_items, first_twice, given_name, names_or_own, next_item, no_items,
    number_behind, one, twice_items, with_names,
};
pub use known::{Known, LetTable, LetTables};
pub use places::{expr_inside, expr_start, item_start, name_place, text_of};
pub use print::bind_print;
pub use project::{bind_project, bind_project_away, bind_project_keep, column_as, column_items};
pub use project_rename::bind_project_rename;
pub use range::bind_range;
pub use scopes::{no_rows, scope_at};
pub use shape::Shape;
pub use sort::{bind_sort, bind_top};
pub use tables::{
    bind_table, column_wanted, is_constant_name, let_numbered, straight_from, table_named,
};
pub use take_and_count::{bind_count, bind_take};
pub use wanted::{
    Wanted, bind_constant, bind_row_count, bind_typed, constant_wanted, count_in, is_no_count,
};
pub use where_op::bind_where;
