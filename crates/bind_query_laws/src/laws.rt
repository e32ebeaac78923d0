//! The laws.
ghost use Rattle.bind_query_laws.specs.Laws.{BoundFits};
ghost use Rattle.bind_query_laws.specs.QueryPlaces.{RefusedIsPlaced};

/// A query that is bound to schemas becomes a program that fits them, where each schema has columns of different names, the moment is in
/// range, and each `parse` has a pattern, as each that is read from a text has.
#[tactic(auto, using(crate::proofs::QueryLaws::query_laws))]
pub fn law_of_binding_queries()
    ensures fits { BoundFits }
{}

/// A query that is refused is refused at a place that stands in it: that of a statement, an operator, a name, a word of a type or a part of an
/// expression.
#[tactic(auto, using(crate::proofs::QueryPlaceLaws::query_place_laws))]
pub fn law_of_places_of_queries()
    ensures refusals { RefusedIsPlaced }
{}
