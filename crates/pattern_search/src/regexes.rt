ghost use Rattle.std.specs.Prelude.{◌≡◌, ◌<◌, ◌≤◌, None, length, option_map, is_some, IfErr, IfOk, IfSome};
ghost use Rattle.pattern_search.specs.Failures.{IsOfGrammar};
ghost use Rattle.regex.specs.Strings.{match_span, match_haystack, captures_names, captures_span, captures_haystack, IsDefaultFailure};
ghost use Rattle.pattern_search.specs.Found.{group_in, IsSpanOf};
ghost use Rattle.pattern_search.specs.Regexes.{IsExpression, regex_found, span_of};

use crate::search::Search;
use crate::span::Span;
use regex::{Captures, Error, Match, Matcher, Regex};
use std::alloc::{AllocError, Global};
use std::marker::Model;

/// A regular expression, ready to search. Contracts see it as its text.
///
/// It does not change, and threads may share it: each takes a search of its own.
#[derive(Drop)]
pub struct RegexPattern {
    regex: Regex,
}

impl Model for RegexPattern {
    ghost use Rattle.std.specs.Prelude.{◌≡◌, List, ℕ};
    ghost use Rattle.regex.specs.Patterns.{default_config};
    ghost use Rattle.regex.specs.Strings.{regex_source, regex_config, IsReadFromSource};

    ghost Value = { List ℕ };

    ghost view = { λ p. regex_source p.regex };

    ghost invariant = { λ p. (regex_config p.regex ≡ default_config) × IsReadFromSource p.regex };
}

impl RegexPattern {
    /// The expression of a text, read under the default options of `regex`, or what `regex` says against it.
    pub fn new(alloc: Global, text: &str) -> Result<RegexPattern, Error>
        ensures pattern { IfOk result (λ p. p ≡ text.now) }
        ensures expression { IfOk result (λ _. IsExpression text.now) }
        ensures refused { IfErr result (IsDefaultFailure text.now) }
        ensures grammar { IfErr result (IsOfGrammar text.now) }
    {
        match Regex::new(alloc, text) {
            Ok(regex) => Ok(RegexPattern { regex }),
            Err(error) => Err(error),
        }
    }

    /// A search for it. Making one costs as much as searching some fifty texts, so keep it for many.
    pub fn search(&self, alloc: Global) -> Result<RegexSearch<'_>, AllocError>
        ensures pattern { IfOk result (λ s. s ≡ self.now) }
    {
        Ok(RegexSearch {
            regex: &self.regex,
            matcher: self.regex.matcher(alloc)?,
        })
    }
}

/// A search for a regular expression. Contracts see it as the text of the expression.
#[derive(Drop)]
pub struct RegexSearch<'r> {
    regex: &'r Regex,
    matcher: Matcher<'r>,
}

impl<'r> Model for RegexSearch<'r> {
    ghost use Rattle.std.specs.Prelude.{◌≡◌, List, ℕ};
    ghost use Rattle.regex.specs.Patterns.{default_config};
    ghost use Rattle.regex.specs.Strings.{regex_source, regex_config, regex_pattern, regex_names, IsReadFromSource, matcher_pattern, matcher_names};

    ghost Value = { List ℕ };

    ghost view = { λ s. regex_source s.regex.now };

    ghost invariant = { λ s. ((regex_config s.regex.now ≡ default_config) × IsReadFromSource s.regex.now)
        × (matcher_pattern s.matcher ≡ regex_pattern s.regex.now)
        × (matcher_names s.matcher ≡ regex_names s.regex.now) };
}

impl<'r> Search for RegexSearch<'r> {
    ghost use Rattle.std.specs.Prelude.{Some};

    ghost finds = { λ s. Some (regex_found s) };

    fn is_found(&mut self, text: &str) -> bool
        ensures same { self.new ≡ self.old }
        ensures found { result ≡ is_some (regex_found self.old text.now) }
    {
        self.matcher.is_match(text)
    }

    fn group(&mut self, text: &str, number: usize) -> Option<Span>
        ensures same { self.new ≡ self.old }
        ensures found { result ≡ group_in (regex_found self.old text.now) number }
        ensures within { IfSome result (IsSpanOf text.now) }
    {
        if number == 0 {
            return match self.matcher.find(text) {
                Some(found) => Some(place_of(&found)),
                None => None,
            };
        }
        match self.matcher.captures(text) {
            Some(captures) => captured(&captures, number),
            None => None,
        }
    }
}

// Where a match stands.
fn place_of(found: &Match<'_>) -> Span
    ensures place { result ≡ span_of (match_span found.now) }
    ensures within { IsSpanOf (match_haystack found.now) result }
{
    Span {
        from: found.start(),
        to: found.end(),
    }
}

// Where a group of a match stands.
fn captured(captures: &Captures<'_, '_>, number: usize) -> Option<Span>
    ensures group { number < length (captures_names captures.now)
        → result ≡ option_map span_of (captures_span captures.now number) }
    ensures past { length (captures_names captures.now) ≤ number → result ≡ None }
    ensures within { IfSome result (IsSpanOf (captures_haystack captures.now)) }
{
    if number >= captures.len() {
        return None;
    }
    match captures.get(number) {
        Some(found) => Some(place_of(&found)),
        None => None,
    }
}
