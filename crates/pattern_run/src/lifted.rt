use kql_bound::Program;
use kql_items::Boxed;
use kql_values::Catalogue;

/// A program without pattern calls, and the tables that it reads: the derived ones stand behind the others.
#[derive(Drop)]
pub struct Lifted {
    pub program: Boxed<Program>,
    pub catalogue: Catalogue,
}
