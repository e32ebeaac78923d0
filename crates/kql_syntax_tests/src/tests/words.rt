//! Words and signs, each once.

use crate::tests::{form_of, outcome, push_form, push_pieces};
use kql_cells::KText;
use kql_items::Items;
use kql_lexer::{KEYWORDS, Keyword, TokenForm, Tokens};
use kql_syntax::{Class, is_name, is_of};
use std::alloc::{AllocError, Global};
use std::test::Fail;

/// The words that are no names.
const RESERVED: &str =
    "and or in in~ between contains contains_cs startswith startswith_cs endswith endswith_cs has \
    has_cs matches true false by on asc desc nulls from to step with kind hint default typeof let range print union $left \
    $right mv-expand make-series project-away project-keep project-rename";

/// Whether a word is reserved.
fn is_reserved(word: &str) -> bool {
    for other in RESERVED.split(' ') {
        if other == word {
            return true;
        }
    }
    false
}

/// The tokens of three texts, one after another.
fn joined(alloc: Global, before: &str, piece: &str, after: &str) -> Result<Tokens, AllocError> {
    let mut all = Items::new(alloc);
    push_pieces(alloc, &mut all, before)?;
    push_pieces(alloc, &mut all, piece)?;
    push_pieces(alloc, &mut all, after)?;
    push_form(&mut all, TokenForm::End)?;
    Ok(all)
}

/// What is answered on three texts, one after another.
fn answer_on(alloc: Global, before: &str, piece: &str, after: &str) -> (u32, usize) {
    match joined(alloc, before, piece, after) {
        Ok(ts) => outcome(alloc, &ts, 0),
        Err(_) => (1, 0),
    }
}

/// What is answered on a word alone, behind `a.`, and as a function's name.
fn answers_on(alloc: Global, word: &str) -> [(u32, usize); 3] {
    [
        answer_on(alloc, "", word, ""),
        answer_on(alloc, "a .", word, ""),
        answer_on(alloc, "", word, "( )"),
    ]
}

/// What is to be answered on it: `true` and `false` are literals, other reserved words are refused.
fn wanted_on(word: &str) -> [(u32, usize); 3] {
    if word == "true" || word == "false" {
        return [(0, 1), (0, 3), (0, 1)];
    }
    if is_reserved(word) {
        return [(201, 1), (0, 3), (201, 1)];
    }
    [(0, 1), (0, 3), (0, 3)]
}

#[test]
fn keywords(rt: HostRuntime) -> Result<(), Fail> {
    let alloc = rt.alloc();
    for keyword in &KEYWORDS {
        let word = keyword.text();
        assert_eq!(rt; answers_on(alloc, word), wanted_on(word), "at {word}");
        let form = form_of(alloc, word)?;
        assert_eq!(rt; is_name(&form), !is_reserved(word), "at {word}");
    }
    Ok(())
}

#[test]
fn classes(rt: HostRuntime) {
    let word = TokenForm::Word(Keyword::Or, KText::new(rt.alloc()));
    let rows = [
        (Class::Key(Keyword::Or), true),
        (Class::Key(Keyword::And), false),
        (Class::Not(Keyword::Or), false),
        (Class::Word, true),
        (Class::Name, false),
        (Class::Open, false),
    ];
    for (class, want) in rows {
        assert_eq!(rt; is_of(&word, class), want);
    }
    assert!(rt; is_of(&TokenForm::Negated(Keyword::Has), Class::Not(Keyword::Has)));
    assert!(rt; is_name(&TokenForm::Word(Keyword::Other, KText::new(rt.alloc()))));
    assert!(rt; !is_name(&TokenForm::Text(KText::new(rt.alloc()))));
}
