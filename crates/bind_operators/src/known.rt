use bind_expr::Consts;
use kql_cells::{KText, Schema, Schemas};
use kql_items::Items;

/// A table of a let, by its name.
#[derive(Debug, Drop)]
pub struct LetTable {
    pub name: KText,
    pub columns: Schema,
}

/// Tables of lets, in the order of their statements.
pub type LetTables = Items<LetTable>;

/// What a statement may name: the tables that are handed in, the tables and constants of the lets before it, and the moment.
#[derive(Debug, Drop)]
pub struct Known {
    pub tables: Schemas,
    pub lets: LetTables,
    pub consts: Consts,
    /// In the range of a datetime.
    pub moment: Option<i64>,
}
