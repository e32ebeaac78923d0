//! The program of a query.

use crate::tables::Made;
use bind_expr::BindFault;
use bind_query::bind;
use kql_bound::Program;
use kql_cells::Schemas;
use kql_items::Boxed;
use kql_lexer::{LexFault, lex};
use kql_parser::parse;
use kql_syntax::{Query, SyntaxFault};
use kql_values::Catalogue;
use std::alloc::{AllocError, Global};

fn parsed(alloc: Global, text: &str) -> Result<Query, SyntaxFault> {
    match lex(alloc, text.as_bytes()) {
        Ok(tokens) => parse(alloc, &tokens),
        Err(LexFault::Refused { code, place }) => Err(SyntaxFault::Refused { code, place }),
        Err(LexFault::OutOfMemory) => Err(SyntaxFault::OutOfMemory),
    }
}

fn bound(alloc: Global, query: &Query, schemas: Schemas) -> Made<Option<Boxed<Program>>> {
    match bind(alloc, query, schemas, None) {
        Ok(program) => Ok(Some(program)),
        Err(BindFault::Refused { .. }) => Ok(None),
        Err(BindFault::OutOfMemory) => Err(AllocError),
    }
}

/// The program of a query over the tables of a catalogue; none where it is refused.
pub(crate) fn program_of(
    alloc: Global,
    text: &str,
    catalogue: &Catalogue,
) -> Made<Option<Boxed<Program>>> {
    let schemas = catalogue.schemas(alloc)?;
    match parsed(alloc, text) {
        Ok(query) => {
            let program = bound(alloc, &query, schemas);
            drop(query);
            program
        }
        Err(SyntaxFault::Refused { .. }) => Ok(None),
        Err(SyntaxFault::OutOfMemory) => Err(AllocError),
    }
}
