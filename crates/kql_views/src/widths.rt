//! How wide the columns of a table are shown.

use std::alloc::{AllocError, Global};

// How many blanks stand between two columns.
pub(crate) const GAP: usize = 2;

// How wide a column is at least, if it has to be cut.
const LEAST: usize = 4;

/// The widest cell of a column, and whether it is cut before others.
#[derive(Clone, Copy, Debug)]
pub(crate) struct Need {
    pub width: usize,
    pub gives: bool,
}

/// The widths of columns in so many columns of a terminal. Where they do not fit, those that give are cut to one width, the
/// greatest that serves, and if that is not enough all are; none is cut below four.
pub(crate) fn widths_within(
    alloc: Global,
    needs: &[Need],
    room: usize,
) -> Result<Vec<usize>, AllocError> {
    let gaps = needs.len().saturating_sub(1).saturating_mul(GAP);
    let room = room.saturating_sub(gaps);
    let some = cap_within(needs, room, false);
    let all = match some {
        Some(_) => None,
        None => Some(cap_within(needs, room, true).unwrap_or(LEAST)),
    };
    let mut widths = Vec::with_capacity(alloc, needs.len())?;
    for need in needs {
        let width = match all {
            Some(cap) => need.width.min(cap),
            None => capped(*need, some.unwrap_or(LEAST), false),
        };
        widths.push(width)?;
    }
    Ok(widths)
}

// The greatest width to which columns are cut so that they fit, from the room down to the least.
fn cap_within(needs: &[Need], room: usize, all: bool) -> Option<usize> {
    for less in 0..room {
        let cap = room - less;
        if cap < LEAST {
            return None;
        }
        if sum_of(needs, cap, all) <= room {
            return Some(cap);
        }
    }
    None
}

// How wide the columns are together.
fn sum_of(needs: &[Need], cap: usize, all: bool) -> usize {
    let mut sum = 0usize;
    for need in needs {
        sum = sum.saturating_add(capped(*need, cap, all));
    }
    sum
}

// The width of a column that is cut to another if it gives.
fn capped(need: Need, cap: usize, all: bool) -> usize {
    if all || need.gives {
        need.width.min(cap)
    } else {
        need.width
    }
}
