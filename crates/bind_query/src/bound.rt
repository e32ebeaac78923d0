use bind_operators::{Known, Shape};
use kql_bound::{Ops, Plans};

/// The let statements up to one: what the next may name, and the plans of their tables.
#[derive(Debug, Drop)]
pub struct BoundStatements {
    pub known: Known,
    pub lets: Plans,
}

/// Bound operators, one after another, and what stands behind the last.
#[derive(Debug, Drop)]
pub struct BoundOps {
    pub ops: Ops,
    pub after: Shape,
}
