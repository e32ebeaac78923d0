//! The tree and the bound expression of a text.
use bind_expr::{BindFault, Scope, Typed, bind_expr};
use kql_lexer::{LexFault, lex};
use kql_syntax::{Expr, SyntaxFault, parse_expr};
use std::alloc::{AllocError, Global};

/// The tree of the expression that a text begins with.
pub(crate) fn parsed(alloc: Global, text: &str) -> Result<(Expr, usize), SyntaxFault> {
    match lex(alloc, text.as_bytes()) {
        Ok(tokens) => {
            if tokens.is_empty() {
                return Err(SyntaxFault::OutOfMemory);
            }
            parse_expr(alloc, &tokens, 0)
        }
        Err(LexFault::Refused { code, place }) => Err(SyntaxFault::Refused { code, place }),
        Err(LexFault::OutOfMemory) => Err(SyntaxFault::OutOfMemory),
    }
}

/// What a text is bound to, if it is an expression that is not refused.
pub(crate) fn bound(alloc: Global, text: &str, scope: &Scope) -> Result<Option<Typed>, AllocError> {
    match parsed(alloc, text) {
        Ok((tree, _end)) => {
            let bound = bind_expr(alloc, &tree, scope);
            drop(tree);
            match bound {
                Ok(typed) => Ok(Some(typed)),
                Err(BindFault::Refused { .. }) => Ok(None),
                Err(BindFault::OutOfMemory) => Err(AllocError),
            }
        }
        Err(SyntaxFault::Refused { .. }) => Ok(None),
        Err(SyntaxFault::OutOfMemory) => Err(AllocError),
    }
}
