//! Bound programs: a query whose names are looked up and whose types are known, and equal copies of its parts.
#![tactic(auto)]

mod expr;
mod expr_clones;
mod literal;
mod part_clones;
mod parts;
mod plan;
mod plan_clones;
mod signs;

pub use expr::{BExpr, ChainSign, Exprs, Link, Links, StepColumn, WinCall};
pub use expr_clones::{clone_expr, clone_exprs, clone_lit};
pub use literal::Lit;
pub use part_clones::{
    clone_expand, clone_group, clone_items, clone_join, clone_keys, clone_parse, clone_scan,
    clone_series,
};
pub use parts::{
    BItem, BItems, BKey, Decl, Decls, Expand, ExpandItem, ExpandItems, GroupPlan, JoinKind,
    JoinPlan, Keys, OnPair, OnPairs, Output, ParsePlan, PatItem, Pattern, ScanPlan, ScanStep,
    ScanSteps, SeriesItem, SeriesItems, SeriesPlan,
};
pub use plan::{Op, Ops, Plan, Plans, Program, Source};
pub use plan_clones::{clone_op, clone_ops, clone_plan, clone_plans, clone_program, clone_source};
