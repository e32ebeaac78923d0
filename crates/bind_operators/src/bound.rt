use crate::shape::Shape;
use kql_bound::{Op, Plan};
use kql_items::Boxed;

/// A bound operator, and what stands behind it.
#[derive(Debug, Drop)]
pub struct BoundOp {
    pub op: Boxed<Op>,
    pub after: Shape,
}

/// A bound pipe, and what it gives.
#[derive(Debug, Drop)]
pub struct BoundPlan {
    pub plan: Boxed<Plan>,
    pub after: Shape,
}
