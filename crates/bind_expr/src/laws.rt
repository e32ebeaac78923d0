//! What the definitions promise.
ghost use Rattle.bind_expr.specs.Laws.{EachIsTold};

/// An expression in a scope is bound, or refused with one of the codes of binding.
#[tactic(auto, using(crate::proofs::CodeLaws::told_laws))]
pub fn law_of_codes()
    ensures told { EachIsTold }
{}
