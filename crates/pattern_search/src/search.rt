ghost use Rattle.std.specs.Prelude.{◌≡◌, ℕ, List, Option, is_some, IfSome};
ghost use Rattle.pattern_search.specs.declared.span.Span.{Span};
ghost use Rattle.pattern_search.specs.Found.{group_in, IsSpanOf};

use crate::span::Span;

/// Searches one text after another for a pattern.
///
/// No search fails: where it wants memory for what it keeps, it goes a slower way.
pub trait Search {
    // What the pattern finds in a text, told or not: no match, or the span of each group, that of the match first.
    ghost finds: { Self → Option (List ℕ → Option (List (Option Span))) };

    /// Whether the pattern is found anywhere in the text.
    fn is_found(&mut self, text: &str) -> bool
        ensures same { finds self.new ≡ finds self.old }
        ensures found { IfSome (finds self.old) (λ find. result ≡ is_some (find text.now)) };

    /// The span of a group of the first match, where group 0 is the match: none without a match, without such a group,
    /// and where the group took no part.
    fn group(&mut self, text: &str, number: usize) -> Option<Span>
        ensures same { finds self.new ≡ finds self.old }
        ensures found { IfSome (finds self.old) (λ find. result ≡ group_in (find text.now) number) }
        ensures within { IfSome result (IsSpanOf text.now) };
}
