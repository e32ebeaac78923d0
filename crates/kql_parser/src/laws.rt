//! Laws of queries that callers may cite.

ghost use Rattle.std.specs.Prelude.{ℕ, ◌≡◌, List};
ghost use Rattle.kql_lexer.specs.declared.token.Token.{Token};
ghost use Rattle.kql_syntax.specs.Derives.{IsForm};
ghost use Rattle.kql_syntax.specs.declared.query.Query.{Query};
ghost use Rattle.kql_parser.specs.Parsing.{Parsed};
ghost use Rattle.kql_parser.specs.Query.{query};

/// Tokens are at most one query: two derivations of the same tokens give the same tree, and so does `parse`.
pub fn queries_are_one()
    ensures query { (s : List Token) (i j : ℕ) (q r : Query) → IsForm s query i j q → IsForm s query i j r → q ≡ r }
    ensures parsed { (s : List Token) (q r : Query) → Parsed s q → Parsed s r → q ≡ r }
{}
