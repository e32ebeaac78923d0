//! Where the operands of a sign begin and end.

use crate::pieces::{Piece, Sort};
use crate::seen::Seen;
use crate::words::{COMPARISONS, is_operator, one_of};

/// Pieces of a query: from one place among them up to another.
#[derive(Clone, Copy)]
pub(crate) struct Part {
    pub(crate) from: usize,
    pub(crate) to: usize,
}

/// How tightly a sign or word binds what stands at its sides, 5 the most. With 0 it parts expressions, and else it is a piece of a value.
pub(crate) fn rank_of(piece: Piece<'_>) -> Option<u32> {
    if piece.sort == Sort::Text || piece.sort == Sort::Typed {
        return None;
    }
    match piece.text {
        "*" | "/" | "%" => Some(5),
        "+" | "-" => Some(4),
        "<" | "<=" | ">" | ">=" => Some(3),
        "in" | "!in" | "in~" | "!in~" | "between" | "!between" => Some(3),
        "and" => Some(2),
        "or" => Some(1),
        "true" | "false" => None,
        "|" | "," | ";" | "=" | ":" | ".." => Some(0),
        text if one_of(COMPARISONS, text).is_some() => Some(3),
        _ if piece.reserved || piece.sort == Sort::End => Some(0),
        _ => None,
    }
}

fn opens(piece: Piece<'_>) -> bool {
    piece.text == "(" || piece.text == "["
}

fn closes(piece: Piece<'_>) -> bool {
    piece.text == ")" || piece.text == "]"
}

// Whether a piece, outside of brackets, ends an operand of a sign that binds so tightly.
fn parts_from(piece: Piece<'_>, own: u32) -> bool {
    match rank_of(piece) {
        Some(rank) => rank < own,
        None => false,
    }
}

/// What stands before the place and belongs to a sign there that binds so tightly.
pub(crate) fn left_of(seen: &Seen<'_>, own: u32) -> Part {
    let at = seen.at();
    let mut inside = 0usize;
    for count in 1..at.saturating_add(1) {
        let piece = seen.before(count);
        let is_outside = inside == 0;
        let is_name = is_operator(piece.text) && seen.before(count.saturating_add(1)).text == "|";
        if is_outside && (opens(piece) || is_name || parts_from(piece, own)) {
            return Part {
                from: at.saturating_sub(count - 1),
                to: at,
            };
        }
        if closes(piece) {
            inside = inside.saturating_add(1);
        } else if opens(piece) {
            inside = inside.saturating_sub(1);
        }
    }
    Part { from: 0, to: at }
}

/// What begins at a place and belongs to a sign before it that binds so tightly. A sign at its beginning is its own.
pub(crate) fn right_from(seen: &Seen<'_>, from: usize, own: u32) -> Part {
    let mut inside = 0usize;
    for to in from..seen.count() {
        let piece = seen.piece(to);
        let is_behind = to > from
            && match rank_of(piece) {
                Some(rank) => rank <= own,
                None => false,
            };
        if inside == 0 && (closes(piece) || parts_from(piece, 1) || is_behind) {
            return Part { from, to };
        }
        if opens(piece) {
            inside = inside.saturating_add(1);
        } else if closes(piece) {
            inside = inside.saturating_sub(1);
        }
    }
    Part {
        from,
        to: seen.count().max(from),
    }
}
