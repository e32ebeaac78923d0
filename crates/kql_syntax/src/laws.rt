//! Laws of the grammar that callers may cite.

ghost use Rattle.std.specs.Prelude.{ℕ, ◌≡◌, List};
ghost use Rattle.kql_lexer.specs.declared.token.Token.{Token};
ghost use Rattle.kql_syntax.specs.Derives.{Derives};
ghost use Rattle.kql_syntax.specs.Levels.{Level};
ghost use Rattle.kql_syntax.specs.Trees.{Tree};

/// Tokens are at most one tree: two derivations of the same tokens from one level of the grammar, as an expression or a pipe,
/// give the same tree.
pub fn trees_are_one()
    ensures tree { (s : List Token) (l : Level) (i j : ℕ) (t u : Tree l) → Derives s l i j t → Derives s l i j u → t ≡ u }
{}
