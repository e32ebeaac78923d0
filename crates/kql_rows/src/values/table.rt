//! The table that the rows are evaluated over, and the records of the steps.

use crate::values::scopes::At;
use csv_io::{DataFault, load};
use kql_cells::Schema;
use kql_values::{Row, Table};
use std::alloc::{AllocError, Global};

/// A column of each type and more, with a null in each, the texts excepted.
const LINES: &str =
    r#"x:long,y:long,s:string,u:string,b:bool,t:datetime,p:timespan,d:dynamic,e:dynamic
7,2,Abc,b,true,2024-03-01T10:04:05.5Z,01:30:00,"[1,""a"",[2]]",5
,5,,,,,,,"""x"""
-3,,b,Error-42,false,2024-01-31,-00:00:01,"{""a"":5,""b"":{""c"":[7]}}",
2,0,abc,abc,true,2023-12-31T23:59:59.9999999Z,1.00:00:00,"""x""",true
0,-4,héllo,hé,false,,00:00:00,[2],"""2024-01-02"""
7,7,Abc,ABC,,2024-03-01T10:04:05.5Z,,,"{""x"":1}"
"#;

/// The table, of no rows and columns where the lines are written wrongly.
pub(crate) fn table(alloc: Global) -> Result<Table, AllocError> {
    match load(alloc, LINES.as_bytes()) {
        Ok(table) => Ok(table),
        Err(DataFault::Refused { .. }) => Table::empty(alloc, Schema::new(alloc)),
        Err(DataFault::OutOfMemory) => Err(AllocError),
    }
}

/// What the steps of a scan hold: the first the first row, the second nothing.
pub(crate) fn records(alloc: Global, at: At, t: &Table) -> Result<Vec<Option<Row>>, AllocError> {
    let mut records = Vec::new(alloc);
    if matches!(at, At::Scan) && t.len() > 0 {
        let row = t.copy_row(alloc, 0)?;
        records.push(Some(row))?;
        records.push(None)?;
    }
    Ok(records)
}
