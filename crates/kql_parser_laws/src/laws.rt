//! The laws, each as the contract of a function that does nothing.

ghost use Rattle.std.specs.Prelude.{ℕ, ◌+◌, ◌≤◌, ◌≡◌, true, List, length, take, Some, slice_get};
ghost use Rattle.kql_lexer.specs.declared.token.Token.{Token};
ghost use Rattle.kql_syntax.specs.Derives.{IsForm};
ghost use Rattle.kql_syntax.specs.Parsing.{place_of};
ghost use Rattle.kql_syntax.specs.declared.query.Query.{Query};
ghost use Rattle.kql_parser.specs.Operators.{NamesTooMany};
ghost use Rattle.kql_parser.specs.Parsing.{Parsed};
ghost use Rattle.kql_parser.specs.Query.{query};
ghost use Rattle.kql_parser_laws.specs.Counted.{operators_named};
ghost use Rattle.kql_parser_laws.specs.OfTree.{operator_count, operators};
ghost use Rattle.kql_parser_laws.specs.Patterns.{has_patterns};

/// Where tokens are a query, those that are told to be operators' names are the names of the operators of its tree, in their
/// order. So a query that is parsed has at most 256 operators, and a name that is one too many is that of the 257th operator of
/// each query whose tokens begin so.
pub fn counted_operators_are_those_of_the_tree()
    ensures named { (s : List Token) (q : Query) → IsForm s query 0 (length s) q → operators_named s ≡ operators q }
    ensures parsed { (s : List Token) (q : Query) → Parsed s q → operator_count q ≤ 256 }
    ensures refused { (s t : List Token) (q : Query) (w : ℕ) → NamesTooMany s w → take (w + 1) t ≡ take (w + 1) s → IsForm t query 0 (length t) q → slice_get (operators q) 256 ≡ Some (place_of s w) }
{}

/// Each `parse` of a query that tokens are has a pattern that is not empty.
#[tactic(auto, using(crate::proofs::PatternLaws::pattern_laws))]
pub fn law_of_patterns()
    ensures patterns { (s : List Token) (q : Query) → Parsed s q → has_patterns q ≡ true }
{}
