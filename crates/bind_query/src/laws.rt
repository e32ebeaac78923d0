//! What the definitions promise.
ghost use Rattle.bind_query.specs.Laws.{EachIsTold};

/// A query over schemas is bound to a program, or refused with one of the codes 401 to 419.
#[tactic(auto, using(crate::proofs::CodeLaws::told_laws))]
pub fn law_of_codes()
    ensures told { EachIsTold }
{}
