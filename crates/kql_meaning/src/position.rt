/// Where an expression stands, which decides on the functions that may stand in it.
#[derive(Clone, Copy, Debug, PartialEq, Eq)]
pub enum Position {
    /// Neither window functions nor aggregates.
    Plain,
    /// Window functions, as in `where`, `extend` and `project`.
    Window,
    /// The term and the restarts of `row_cumsum` and `row_number`: `prev` and `next`.
    Term,
    /// An item of `summarize`: aggregates, and no column outside their arguments.
    Group,
    /// An item of `make-series`: one of the aggregates that it takes.
    Series,
    /// No column, no window function and no aggregate.
    Constant,
}
