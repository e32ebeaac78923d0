//! What a query is bound to, as a text: its plan text, or the code of its first fault and the place.
use crate::queries::tables::{At, moment, schemas};
use bind_expr::BindFault;
use bind_query::bind;
use kql_bound::{Program, clone_program};
use kql_cells::KText;
use kql_fits::fits;
use kql_lexer::{LexFault, Place, lex};
use kql_parser::parse;
use kql_plan_text::plan_text;
use kql_syntax::{Query, SyntaxFault};
use std::alloc::{AllocError, Global};

fn refused(alloc: Global, code: u32, place: Place) -> Result<String, AllocError> {
    let line = place.line;
    let column = place.column;
    format!(in alloc; "{code} {line}:{column}")
}

/// The plan text of a program's copy.
fn copied_text(alloc: Global, program: &Program) -> Result<KText, AllocError> {
    let copy = clone_program(alloc, program)?;
    let text = plan_text(alloc, &copy);
    drop(copy);
    text
}

/// The same on one line.
fn program_text(alloc: Global, program: &Program) -> Result<String, AllocError> {
    let whole = copied_text(alloc, program)?;
    let text = whole.as_str().strip_suffix("\n").unwrap_or("?");
    text.replace(alloc, "\n", "⏎")
}

/// Whether a program fits these tables.
fn fits_at(alloc: Global, program: &Program, at: At) -> Result<bool, AllocError> {
    let schemas = schemas(alloc, at)?;
    fits(alloc, program, &schemas)
}

/// The same, where the program fits the tables over which it was bound, and no tables at all only where it names none.
fn fitting_text(alloc: Global, program: &Program, at: At) -> Result<String, AllocError> {
    let names_none = program.tables.schemas().is_empty();
    if fits_at(alloc, program, at)? && fits_at(alloc, program, At::Bare)? == names_none {
        return program_text(alloc, program);
    }
    format!(in alloc; "it fits other tables than these")
}

/// What a query is bound to over these tables.
fn bound_text(alloc: Global, query: &Query, at: At) -> Result<String, AllocError> {
    let schemas = schemas(alloc, at)?;
    match bind(alloc, query, schemas, moment(at)) {
        Ok(program) => {
            let text = fitting_text(alloc, program.get(), at);
            drop(program);
            text
        }
        Err(BindFault::Refused { code, place }) => refused(alloc, code, place),
        Err(BindFault::OutOfMemory) => Err(AllocError),
    }
}

/// The query that a text is.
pub(crate) fn parsed(alloc: Global, text: &str) -> Result<Query, SyntaxFault> {
    match lex(alloc, text.as_bytes()) {
        Ok(tokens) => parse(alloc, &tokens),
        Err(LexFault::Refused { code, place }) => Err(SyntaxFault::Refused { code, place }),
        Err(LexFault::OutOfMemory) => Err(SyntaxFault::OutOfMemory),
    }
}

/// What a text is bound to over these tables.
pub(crate) fn shown(alloc: Global, text: &str, at: At) -> Result<String, AllocError> {
    match parsed(alloc, text) {
        Ok(query) => {
            let shown = bound_text(alloc, &query, at);
            drop(query);
            shown
        }
        Err(SyntaxFault::Refused { code, place }) => refused(alloc, code, place),
        Err(SyntaxFault::OutOfMemory) => Err(AllocError),
    }
}
