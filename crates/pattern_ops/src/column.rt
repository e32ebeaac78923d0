ghost use Rattle.std.specs.Prelude.{◌≡◌, ◌≤◌, length, slice_range, IfOk, IfSome};
ghost use Rattle.kql_cells.specs.Seen.{seen};
ghost use Rattle.kql_cells.specs.Values.{IsOfKind};
ghost use Rattle.pattern_ops.specs.Answers.{text_of, answer, answer_kind, AreAnswers, FitAnswers};

use kql_values::{CellRef, Kind, Vector};
use pattern_search::Search;
use std::alloc::{AllocError, Global};

/// What a search answers to each cell of a column, from a place to another: whether the pattern is found, or the text of a group.
pub fn answers_by<S: Search>(
    alloc: Global,
    cells: &Vector,
    from: usize,
    to: usize,
    group: Option<u32>,
    search: &mut S,
) -> Result<Vector, AllocError>
    requires order { from ≤ to }
    requires within { to ≤ length cells.now }
    ensures same { S.finds search.new ≡ S.finds search.old }
    ensures values { IfOk result (AreAnswers (S.finds search.old) group (slice_range cells.now from to)) }
    ensures fits { IfOk result (FitAnswers group (slice_range cells.now from to)) }
{
    let mut answers = Vector::new(alloc, answer_kind(group));
    for i in from..to {
        answers.push_cell(answer(search, text_of(cells.cell(i)), group))?;
    }
    Ok(answers)
}

/// The type of what a call answers.
pub fn answer_kind(group: Option<u32>) -> Kind
    ensures kind { result ≡ answer_kind group }
{
    match group {
        None => Kind::Bool,
        Some(_) => Kind::Text,
    }
}

// The text that a cell shows, which is empty where it shows none.
fn text_of<'a>(cell: CellRef<'a>) -> &'a str
    ensures text { result.now ≡ text_of (seen cell.entry) }
{
    match cell {
        CellRef::Text(text) => text,
        CellRef::Null => "",
        CellRef::Bool(_) => "",
        CellRef::Long(_) => "",
        CellRef::Moment(_) => "",
        CellRef::Span(_) => "",
        CellRef::Dynamic(_) => "",
    }
}

// What a search answers to a text.
fn answer<'t, S: Search>(search: &mut S, text: &'t str, group: Option<u32>) -> CellRef<'t>
    ensures same { S.finds search.new ≡ S.finds search.old }
    ensures value { IfSome (S.finds search.old) (λ find. seen result ≡ answer find group text.now) }
    ensures kind { IsOfKind (answer_kind group) (seen result) }
{
    match group {
        None => CellRef::Bool(search.is_found(text)),
        Some(number) => match search.group(text, number as usize) {
            Some(span) => CellRef::Text(&text[span.from..span.to]),
            None => CellRef::Text(""),
        },
    }
}
