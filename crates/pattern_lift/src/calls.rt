use kql_cells::KText;
use kql_functions::PatternFunc;
use kql_items::Items;

/// A pattern call: its function, the column that it reads, and the text of its pattern.
#[derive(Debug, Drop)]
pub struct PatternCall {
    pub func: PatternFunc,
    pub column: KText,
    pub pattern: KText,
}

pub type PatternCalls = Items<PatternCall>;

/// A prefix with pattern calls: the name of the table that stands in its place, the table that it reads, and its calls, each
/// of which is an added column of the derived table.
#[derive(Debug, Drop)]
pub struct Derived {
    pub name: KText,
    pub table: KText,
    pub calls: PatternCalls,
}

pub type DerivedTables = Items<Derived>;
