//! The trees of the query language, its grammar, and the reader of expressions.
#![tactic(auto)]

mod choices;
mod class;
mod laws;
mod leaf;
mod parse;
mod query;
pub mod reader;
mod tree;

pub use choices::choices_are_spelled;
pub use class::{Class, EXPR_STARTS, is_name, is_of};
pub use laws::trees_are_one;
pub use leaf::text_in;
pub use parse::{SyntaxFault, parse_expr, place_of, too_deep};
pub use query::{
    ColumnOp, Decl, Distinct, Expand, ExpandKind, GroupOp, Groups, Hint, HintValue, Item, Join,
    JoinKind, JoinSign, Key, Let, LetBody, MakeSeries, NullsEnd, On, OnPair, Op, Output, ParseKind,
    Partition, Pat, Pipe, Query, Range, RowOp, Scan, Series, SortOrder, Source, Step, Summarize,
    TableArg, TableOp, Union, UnionKind,
};
pub use tree::{
    Access, And, Arg, BetweenOp, BetweenSign, Cmp, CompareOp, CompareSign, Expr, InOp, InSign,
    Literal, Name, Post, Prod, ProdOp, ProdSign, Sign, Sum, SumOp, SumSign, Term, Word,
};
