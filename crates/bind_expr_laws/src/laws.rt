//! The laws.
ghost use Rattle.bind_expr_laws.specs.Laws.{BoundIsSound, NameIsSound};
ghost use Rattle.bind_expr_laws.specs.Places.{BoundIsPlaced, NameIsPlaced};

/// An expression that is bound in a sound scope has its type over the scope's columns, and fits where it stands: that of its own, and but for
/// what `summarize` refuses afterwards. So does a name alone. The literal that a constant is fits its type.
#[tactic(auto, using(crate::proofs::BoundLaws::bound_laws))]
pub fn law_of_binding()
    ensures expressions { BoundIsSound }
    ensures names { NameIsSound }
{}

/// An expression that is refused is refused at a place that stands in it: that of a name, a literal, a word or a sign. A name alone is
/// refused at its own place.
#[tactic(auto, using(crate::proofs::PlaceLaws::place_laws))]
pub fn law_of_places()
    ensures expressions { BoundIsPlaced }
    ensures names { NameIsPlaced }
{}
