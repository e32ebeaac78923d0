use kql_cells::{Dyn, DynList};
use kql_texts::*;
use std::alloc::{AllocError, Global};
use std::cmp::Ordering;
use std::test::Fail;

// A text, what is sought in it, how it is compared, and whether it is found.
type Sought = (&'static str, &'static str, Fold, bool);

// `text contains part`.
const HOLDS: &[Sought] = &[
    ("ÉCOLE", "école", Fold::Caseless, true),
    ("ÉCOLE", "école", Fold::Exact, false),
    ("une école", "école", Fold::Exact, true),
    ("eﬃcient", "FFI", Fold::Caseless, true),
    ("aé€😀", "é€", Fold::Exact, true),
    ("ab", "abc", Fold::Exact, false),
    ("abc", "", Fold::Exact, true),
    ("", "", Fold::Caseless, true),
    ("", "a", Fold::Caseless, false),
];

// `text startswith part`.
const BEGINS: &[Sought] = &[
    ("ΣΑΣ", "σας", Fold::Caseless, true),
    ("ΣΑΣ", "σας", Fold::Exact, false),
    ("😀bc", "😀", Fold::Exact, true),
    ("abc", "", Fold::Exact, true),
    ("ab", "abc", Fold::Caseless, false),
    ("abc", "bc", Fold::Exact, false),
];

// `text endswith part`.
const ENDS: &[Sought] = &[
    ("Straße", "SSE", Fold::Caseless, true),
    ("Straße", "SSE", Fold::Exact, false),
    ("ab€", "€", Fold::Exact, true),
    ("abc", "", Fold::Caseless, true),
    ("bc", "abc", Fold::Exact, false),
    ("abc", "ab", Fold::Exact, false),
];

// `text =~ other` and `text == other`.
const SAME: &[Sought] = &[
    ("STRASSE", "straße", Fold::Caseless, true),
    ("STRASSE", "straße", Fold::Exact, false),
    ("é", "e\u{301}", Fold::Caseless, false),
    ("abc", "abc", Fold::Exact, true),
    ("abc", "ab", Fold::Caseless, false),
    ("ab", "abc", Fold::Exact, false),
    ("abc", "", Fold::Exact, false),
    ("", "a", Fold::Caseless, false),
    ("", "", Fold::Exact, true),
];

// `text has part`.
const TERMS: &[Sought] = &[
    ("Error-42", "error", Fold::Caseless, true),
    ("Error42", "error", Fold::Caseless, false),
    ("Error-42", "error", Fold::Exact, false),
    ("weißer", "ss", Fold::Caseless, false),
    ("weißer", "WEISSER", Fold::Caseless, true),
    ("terrors error", "error", Fold::Exact, true),
    ("terror errors", "error", Fold::Exact, false),
    ("éa", "a", Fold::Exact, true),
    ("a€b", "€", Fold::Exact, true),
    ("€a", "a", Fold::Exact, true),
    ("😀a", "a", Fold::Exact, true),
    ("aé", "a", Fold::Exact, true),
    ("a€", "a", Fold::Exact, true),
    ("a😀", "a", Fold::Exact, true),
    ("xa€a😀", "a", Fold::Exact, true),
    ("xaéab", "a", Fold::Exact, false),
    ("ab", "-", Fold::Exact, false),
    ("a-b", "-", Fold::Exact, true),
    ("-ab-ab-ab-a", "-ab-ab-a", Fold::Exact, true),
    ("-ab-ab-ab-ab", "-ab-ab-a", Fold::Exact, false),
    ("abc", "", Fold::Exact, true),
    ("é", "", Fold::Exact, true),
    ("", "", Fold::Caseless, true),
    ("", "a", Fold::Caseless, false),
    ("ab", "abc", Fold::Caseless, false),
];

// `indexof(text, part)`.
const PLACES: &[(&'static str, &'static str, i64)] = &[
    ("aé€😀", "a", 0),
    ("aé€😀", "é", 1),
    ("aé€😀", "€", 2),
    ("aé€😀", "😀", 3),
    ("aé€😀", "b", -1),
    ("banana", "ana", 1),
    ("abc", "", 0),
    ("", "", 0),
    ("ab", "abc", -1),
];

// `substring(text, start, count)`.
const PARTS: &[(&'static str, i64, i64, &'static str)] = &[
    ("héllo", 1, 3, "éll"),
    ("123456", -2, 2, "56"),
    ("aé€😀", 0, 1, "a"),
    ("aé€😀", 1, 1, "é"),
    ("aé€😀", 2, 1, "€"),
    ("aé€😀", 3, 1, "😀"),
    ("aé€😀", -1, 9, "😀"),
    ("aé€😀", -9, 2, "aé"),
    ("aé€😀", 2, -1, ""),
    ("aé€😀", 4, 1, ""),
    ("aé€😀", i64::MIN, i64::MAX, "aé€😀"),
    ("aé€😀", i64::MAX, i64::MAX, ""),
    ("", 0, 1, ""),
];

// `split(text, separator)`, a bar behind each piece.
const SPLITS: &[(&'static str, &'static str, &'static str)] = &[
    ("a,b,,c", ",", "a|b||c|"),
    (",", ",", "||"),
    ("aaa", "aa", "|a|"),
    ("a€😀€é", "€", "a|😀|é|"),
    ("abc", "", "abc|"),
    ("abc", "abcd", "abc|"),
    ("", ",", "|"),
    ("", "", "|"),
];

// `replace_string(text, from, to)`.
const REPLACED: &[(&'static str, &'static str, &'static str, &'static str)] = &[
    ("aaa", "aa", "b", "ba"),
    ("a-b-c", "-", "", "abc"),
    ("a€b", "€", "😀é", "a😀éb"),
    ("abab", "ab", "aba", "abaaba"),
    ("abc", "", "x", "abc"),
    ("abc", "abcd", "x", "abc"),
    ("", "", "x", ""),
];

// `strcmp(text, other)`.
const ORDERS: &[(&'static str, &'static str, Ordering)] = &[
    ("a", "b", Ordering::Less),
    ("", "a", Ordering::Less),
    ("ab", "ab", Ordering::Equal),
    ("é", "z", Ordering::Greater),
    ("😀", "€", Ordering::Greater),
];

// What a text is asked.
#[derive(Clone, Copy)]
enum Search {
    Holds,
    Begins,
    Ends,
    Same,
    Term,
}

fn found(alloc: Global, search: Search, row: &Sought) -> Result<bool, AllocError> {
    match search {
        Search::Holds => holds(alloc, row.0, row.1, row.2),
        Search::Begins => begins(alloc, row.0, row.1, row.2),
        Search::Ends => ends(alloc, row.0, row.1, row.2),
        Search::Same => same(alloc, row.0, row.1, row.2),
        Search::Term => has_term(alloc, row.0, row.1, row.2),
    }
}

// The first row whose answer is another.
fn first_other(
    alloc: Global,
    search: Search,
    rows: &[Sought],
) -> Result<Option<usize>, AllocError> {
    for i in 0..rows.len() {
        if found(alloc, search, &rows[i])? != rows[i].3 {
            return Ok(Some(i));
        }
    }
    Ok(None)
}

#[test]
fn searches_answer_as_the_language_says(rt: HostRuntime) -> Result<(), Fail> {
    let alloc = rt.alloc();
    assert_eq!(rt; first_other(alloc, Search::Holds, HOLDS)?, None);
    assert_eq!(rt; first_other(alloc, Search::Begins, BEGINS)?, None);
    assert_eq!(rt; first_other(alloc, Search::Ends, ENDS)?, None);
    assert_eq!(rt; first_other(alloc, Search::Same, SAME)?, None);
    Ok(())
}

#[test]
fn terms_have_borders(rt: HostRuntime) -> Result<(), Fail> {
    assert_eq!(rt; first_other(rt.alloc(), Search::Term, TERMS)?, None);
    Ok(())
}

fn first_other_part(
    alloc: Global,
    rows: &[(&'static str, i64, i64, &'static str)],
) -> Result<Option<usize>, AllocError> {
    for i in 0..rows.len() {
        let part = sub_text(alloc, rows[i].0, rows[i].1, rows[i].2)?;
        if part.as_str() != rows[i].3 {
            return Ok(Some(i));
        }
    }
    Ok(None)
}

#[test]
fn places_are_counted_in_characters(rt: HostRuntime) -> Result<(), Fail> {
    let other = PLACES
        .iter()
        .position(|row| index_of(row.0, row.1) != row.2);
    assert_eq!(rt; other, None);
    assert_eq!(rt; first_other_part(rt.alloc(), PARTS)?, None);
    assert_eq!(rt; char_count("aé€😀"), 4);
    assert_eq!(rt; char_count(""), 0);
    assert_eq!(rt; char_count("e\u{301}"), 2);
    Ok(())
}

fn first_other_split(
    alloc: Global,
    rows: &[(&'static str, &'static str, &'static str)],
) -> Result<Option<usize>, AllocError> {
    for i in 0..rows.len() {
        let pieces = split_by(alloc, rows[i].0, rows[i].1)?;
        if shown(alloc, &pieces)?.as_str() != rows[i].2 {
            return Ok(Some(i));
        }
    }
    Ok(None)
}

fn first_other_replaced(
    alloc: Global,
    rows: &[(&'static str, &'static str, &'static str, &'static str)],
) -> Result<Option<usize>, AllocError> {
    for i in 0..rows.len() {
        let replaced = replace(alloc, rows[i].0, rows[i].1, rows[i].2)?;
        if replaced.as_str() != rows[i].3 {
            return Ok(Some(i));
        }
    }
    Ok(None)
}

#[test]
fn pieces_lie_between_separators(rt: HostRuntime) -> Result<(), Fail> {
    assert_eq!(rt; first_other_split(rt.alloc(), SPLITS)?, None);
    assert_eq!(rt; first_other_replaced(rt.alloc(), REPLACED)?, None);
    Ok(())
}

#[test]
fn letters_and_order(rt: HostRuntime) -> Result<(), Fail> {
    let alloc = rt.alloc();
    assert_eq!(rt; to_upper(alloc, "azé1ß")?.as_str(), "AZé1ß");
    assert_eq!(rt; to_lower(alloc, "AZÉ1ẞ")?.as_str(), "azÉ1ẞ");
    assert_eq!(rt; reverse_chars(alloc, "aé€😀")?.as_str(), "😀€éa");
    assert_eq!(rt; reverse_chars(alloc, "")?.as_str(), "");
    let other = ORDERS.iter().position(|row| compare(row.0, row.1) != row.2);
    assert_eq!(rt; other, None);
    Ok(())
}

// The texts with a bar behind each.
fn shown(alloc: Global, pieces: &DynList) -> Result<String, AllocError> {
    let mut shown = String::new(alloc);
    for piece in pieces.as_slice() {
        match piece {
            Dyn::Text(text) => shown.push_str(text.as_str())?,
            _ => shown.push('?')?,
        }
        shown.push('|')?;
    }
    Ok(shown)
}
