//! The calls of a program, and which of them may not stand.
ghost use Rattle.std.specs.Prelude.{◌≡◌, IfOk, option_map, slice_get};
ghost use Rattle.std.specs.List.{flat_map};
ghost use Rattle.pattern_lift.specs.Derived.{derived};
ghost use Rattle.pattern_lift.specs.declared.calls.Derived.{Derived};
ghost use Rattle.pattern_run.specs.Patterned.{calls_of_program, first_call, refused_call, word_of};

use kql_bound::Program;
use kql_cells::NamedSchema;
use kql_items::Items;
use kql_lexer::Place;
use pattern_lift::{Derived, PatternCalls, copy_calls, derived_tables};
use pattern_places::{can_lift, tables_are_unmarked};
use std::alloc::{AllocError, Global};

/// How many calls a query may have.
const MOST_CALLS: usize = 256;

fn calls_in(alloc: Global, prefixes: &[Derived]) -> Result<PatternCalls, AllocError>
    ensures calls { IfOk result (λ cs. cs ≡ flat_map (λ (d : Derived). d.calls) prefixes.now) }
{
    let mut all = Items::new(alloc);
    for prefix in prefixes {
        let more = copy_calls(alloc, prefix.calls.as_slice())?;
        all.append(more)?;
    }
    Ok(all)
}

/// The calls of a program, in the order of its text.
#[tactic(auto, unfolding(crate::specs::Patterned::calls_of_program, pattern_lift::specs::Derived::uses))]
pub(crate) fn calls_of_program(alloc: Global, program: &Program) -> Result<PatternCalls, AllocError>
    ensures calls { IfOk result (λ cs. cs ≡ calls_of_program program.now) }
{
    let prefixes = derived_tables(alloc, "", program)?;
    calls_in(alloc, prefixes.as_slice())
}

fn word_at(calls: &PatternCalls, at: usize) -> Option<Place>
    ensures word { result ≡ option_map word_of (slice_get calls.now at) }
{
    match calls.get(at) {
        None => None,
        Some(call) => Some(call.func.word),
    }
}

/// The place of the word of a program's first pattern call, where it has one.
#[tactic(auto, unfolding(crate::specs::Patterned::first_call))]
pub fn first_call(alloc: Global, program: &Program) -> Result<Option<Place>, AllocError>
    ensures first { IfOk result (λ place. place ≡ first_call program.now) }
{
    let calls = calls_of_program(alloc, program)?;
    Ok(word_at(&calls, 0))
}

/// The place of the word of a call that may not stand, where these are the calls of a program and its prefixes with calls.
#[tactic(auto, unfolding(crate::specs::Patterned::refused_call, crate::specs::Patterned::first_call))]
pub(crate) fn refused_call(
    alloc: Global,
    marks: &str,
    program: &Program,
    schemas: &[NamedSchema],
    calls: &PatternCalls,
    prefixes: &[Derived],
) -> Result<Option<Place>, AllocError>
    requires calls { calls.now ≡ calls_of_program program.now }
    requires prefixes { prefixes.now ≡ derived marks.now program.now }
    ensures refused { IfOk result (λ place. place ≡ refused_call marks.now program.now schemas.now) }
{
    if let Some(place) = word_at(calls, MOST_CALLS) {
        return Ok(Some(place));
    }
    if can_lift(alloc, marks, program, prefixes)? && tables_are_unmarked(marks, schemas) {
        return Ok(None);
    }
    Ok(word_at(calls, 0))
}
