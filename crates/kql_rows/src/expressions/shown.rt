//! What an expression is bound to, as a text: its type and its plan text, or the code of its first fault and the place.
use crate::trees::parsed;
use bind_expr::{BindFault, Scope, Typed, bind_expr};
use kql_bound::{Op, Plan, Program, Source};
use kql_cells::{KText, Kind, Schemas};
use kql_items::Items;
use kql_plan_text::plan_text;
use kql_syntax::{Expr, SyntaxFault};
use std::alloc::{AllocError, Global};

fn kind_word(kind: Kind) -> &'static str {
    match kind {
        Kind::Bool => "bool",
        Kind::Long => "long",
        Kind::Text => "string",
        Kind::Moment => "datetime",
        Kind::Span => "timespan",
        Kind::Dynamic => "dynamic",
    }
}

/// `T | where` an expression.
fn program_of(alloc: Global, typed: Typed) -> Result<Program, AllocError> {
    let source = KText::from_str(alloc, "T")?;
    let mut ops = Items::new(alloc);
    ops.push(Op::Where(typed.expr.into_inner()))?;
    let tables = Schemas::new(alloc);
    let lets = Items::new(alloc);
    let main = Plan {
        source: Source::Table(source),
        ops,
    };
    Ok(Program { tables, lets, main })
}

/// The plan text of that program.
fn program_text(alloc: Global, typed: Typed) -> Result<KText, AllocError> {
    let program = program_of(alloc, typed)?;
    let text = plan_text(alloc, &program);
    drop(program);
    text
}

/// The type of an expression and its plan text.
fn typed_text(alloc: Global, typed: Typed) -> Result<String, AllocError> {
    let kind = kind_word(typed.kind);
    let whole = program_text(alloc, typed)?;
    let behind = whole.as_str().strip_prefix("T\n| where ").unwrap_or("?");
    let text = behind.strip_suffix("\n").unwrap_or("?");
    format!(in alloc; "{kind} {text}")
}

fn fault_text(alloc: Global, fault: BindFault) -> Result<String, AllocError> {
    match fault {
        BindFault::Refused { code, place } => {
            let line = place.line;
            let column = place.column;
            format!(in alloc; "{code} {line}:{column}")
        }
        BindFault::OutOfMemory => Err(AllocError),
    }
}

/// What a tree is bound to.
fn bound_text(alloc: Global, e: &Expr, scope: &Scope) -> Result<String, AllocError> {
    match bind_expr(alloc, e, scope) {
        Ok(typed) => typed_text(alloc, typed),
        Err(fault) => fault_text(alloc, fault),
    }
}

/// What a text is bound to.
pub(crate) fn shown(alloc: Global, text: &str, scope: &Scope) -> Result<String, AllocError> {
    match parsed(alloc, text) {
        Ok((tree, _end)) => {
            let shown = bound_text(alloc, &tree, scope);
            drop(tree);
            shown
        }
        Err(SyntaxFault::Refused { .. }) => String::from_str(alloc, "no expression"),
        Err(SyntaxFault::OutOfMemory) => Err(AllocError),
    }
}
