//! The words of which operators have a choice.

ghost use Rattle.kql_syntax.specs.Grammar.{orders, nulls_ends, expand_kinds, parse_kinds, union_kinds, outputs, hint_values, join_kinds};
ghost use Rattle.kql_syntax.specs.Leaves.{sort_order_at, nulls_end_at, expand_kind_at, parse_kind_at, union_kind_at, output_at, hint_value_at, join_kind_at, join_kind_of, sort_order_of, nulls_end_of, expand_kind_of, parse_kind_of, union_kind_of, output_of, hint_value_of};
ghost use Rattle.kql_syntax.specs.Spelled.{IsSpelled};

/// Each word of a choice, as `asc` and `desc` of an order, says what its token spells, and none falls to a default.
#[tactic(auto, using(crate::proofs::WordFacts::sort_order_spelled, crate::proofs::WordFacts::nulls_end_spelled, crate::proofs::WordFacts::expand_kind_spelled, crate::proofs::WordFacts::parse_kind_spelled, crate::proofs::WordFacts::union_kind_spelled, crate::proofs::WordFacts::output_spelled, crate::proofs::WordFacts::hint_value_spelled, crate::proofs::WordFacts::join_spelled))]
pub fn choices_are_spelled()
    ensures sort_order { IsSpelled orders sort_order_at sort_order_of }
    ensures nulls_end { IsSpelled nulls_ends nulls_end_at nulls_end_of }
    ensures expand_kind { IsSpelled expand_kinds expand_kind_at expand_kind_of }
    ensures parse_kind { IsSpelled parse_kinds parse_kind_at parse_kind_of }
    ensures union_kind { IsSpelled union_kinds union_kind_at union_kind_of }
    ensures output { IsSpelled outputs output_at output_of }
    ensures hint_value { IsSpelled hint_values hint_value_at hint_value_of }
    ensures join_kind { IsSpelled join_kinds (λ _ f. join_kind_at f) (λ t. join_kind_of t.form) }
{}
