//! First cuts of texts. What is expected is worked out by hand from the KQL reference.
use kql_bound::PatItem;
use kql_cells::{KText, Kind, Places};
use kql_items::Items;
use parse_op::cut;
use std::alloc::{AllocError, Global};
use std::test::Fail;

type Made<T> = Result<T, AllocError>;

/// A pattern, whether it is of kind relaxed, a text, and the ends of its first cut, in bytes: there is none where no end stands.
///
/// The items of a pattern are parted by `|`. They are `*`, a literal behind `=`, or the letter of a column's type.
type Case = (&'static str, bool, &'static str, &'static [usize]);

const CASES: &[Case] = &[
    (
        "*|=id=|l|= |s",
        false,
        "id=x id=42 end",
        &[5, 8, 10, 11, 14],
    ),
    ("*|=id=|l|= |s", true, "id=x id=42 end", &[0, 3, 4, 5, 14]),
    ("*|=id=|l|= |s", false, "id=-7 -", &[0, 3, 5, 6, 7]),
    ("=id=|l|*", false, "id=-5x", &[3, 5, 6]),
    ("=id=|l|*", true, "id=-5x", &[3, 5, 6]),
    ("=id=|l|*", false, "id=-x", &[]),
    ("=id=|l|*", true, "id=-x", &[3, 3, 5]),
    ("*|l|*", false, "ab12c", &[2, 4, 5]),
    ("*|l|*", true, "ab12c", &[0, 0, 5]),
    ("*|l|*", false, "é-7-", &[2, 4, 5]),
    ("*|l|*", false, "99999999999999999999", &[2, 20, 20]),
    ("l|*|=;", false, "12;", &[2, 2, 3]),
    ("l|l", false, "12", &[1, 2]),
    ("l|l", false, "-12", &[2, 3]),
    ("l|l", false, "1", &[]),
    ("l|l", true, "x", &[0, 1]),
    ("s|=€|s", false, "é€😀x", &[2, 5, 10]),
    ("s|s", false, "€é", &[0, 5]),
    ("s|=€|s", false, "éx", &[]),
    ("y|y", false, "€é", &[3, 5]),
    ("y|y", false, "é", &[]),
    ("y|y", true, "é", &[0, 2]),
    ("y|=,|s", false, "[1,2],x", &[2, 3, 7]),
    ("=a|s|=b", false, "ab", &[1, 1, 2]),
    ("=a|l|=b", false, "ab", &[]),
    ("=a|l|=b", true, "ab", &[1, 1, 2]),
    ("b|=;|*", false, "TRUE;x", &[4, 5, 6]),
    ("b|=;|*", false, "yes;true;", &[]),
    ("b|=;|l", true, "yes;x", &[3, 4, 5]),
    ("t|= |*", false, "2024-01-02 03:04 z", &[10, 11, 18]),
    ("t|= |*", false, "2024-13-02 z", &[]),
    ("*|d|=/", false, "in=1.5h/", &[3, 7, 8]),
    ("d|=/|d|=/", false, "-1d/00:00:01/", &[3, 4, 12, 13]),
    ("s|=aa|=b|s", false, "aaab", &[1, 3, 4, 4]),
    ("*|=aba", false, "ababa", &[2, 5]),
    ("=aba|=ba", false, "ababa", &[3, 5]),
    ("=a|s|=a", false, "a", &[]),
    ("=ID=|*", false, "id=5", &[]),
    ("=|s", false, "a", &[0, 1]),
    ("*", false, "", &[0]),
    ("*", true, "abc", &[3]),
    ("*|*", false, "ab", &[0, 2]),
    ("=x", false, "y", &[]),
    ("=x|*", true, "", &[]),
];

fn kind_of(word: &str) -> Option<Kind> {
    match word {
        "s" => Some(Kind::Text),
        "l" => Some(Kind::Long),
        "b" => Some(Kind::Bool),
        "t" => Some(Kind::Moment),
        "d" => Some(Kind::Span),
        "y" => Some(Kind::Dynamic),
        _ => None,
    }
}

fn item(alloc: Global, word: &str) -> Made<PatItem> {
    if let Some(text) = word.strip_prefix("=") {
        let literal = KText::from_str(alloc, text)?;
        return Ok(PatItem::Literal(literal));
    }
    match kind_of(word) {
        Some(kind) => Ok(PatItem::Column {
            name: KText::new(alloc),
            kind,
        }),
        None => Ok(PatItem::Star),
    }
}

// Adds items to a pattern.
fn push_all(alloc: Global, items: &mut Items<PatItem>, words: &str) -> Made<()> {
    for word in words.split("|") {
        let item = item(alloc, word)?;
        items.push(item)?;
    }
    Ok(())
}

// Items so many times, and others behind them.
fn pattern(alloc: Global, words: &str, count: usize, last: &str) -> Made<Items<PatItem>> {
    let mut items = Items::new(alloc);
    for _k in 0..count {
        push_all(alloc, &mut items, words)?;
    }
    push_all(alloc, &mut items, last)?;
    Ok(items)
}

fn are(found: &Option<Places>, ends: &[usize]) -> bool {
    match found {
        Some(places) => places.as_slice() == ends,
        None => ends.is_empty(),
    }
}

fn holds(alloc: Global, case: &Case) -> Made<bool> {
    let (words, relaxed, text, ends) = *case;
    let items = pattern(alloc, "", 0, words)?;
    let found = cut(alloc, items.as_slice(), relaxed, text)?;
    Ok(are(&found, ends))
}

// The first case that does not hold.
fn first_wrong(alloc: Global, cases: &[Case]) -> Made<Option<usize>> {
    for i in 0..cases.len() {
        let right = holds(alloc, &cases[i])?;
        if !right {
            return Ok(Some(i));
        }
    }
    Ok(None)
}

#[test]
fn first_cuts_are_found(rt: HostRuntime) -> Result<(), Fail> {
    let alloc = rt.alloc();
    assert_eq!(rt; first_wrong(alloc, CASES)?, None);
    Ok(())
}

// A letter so many times.
fn repeated(alloc: Global, letter: &str, count: usize) -> Made<String> {
    let mut text = String::new(alloc);
    for _k in 0..count {
        text.push_str(letter)?;
    }
    Ok(text)
}

// How many ends the first cut has, and the first and last of them.
fn shape(found: &Option<Places>) -> Option<(usize, usize, usize)> {
    match found {
        Some(places) => {
            let ends = places.as_slice();
            let first = ends.first().copied().unwrap_or(0);
            let last = ends.last().copied().unwrap_or(0);
            Some((ends.len(), first, last))
        }
        None => None,
    }
}

// The shape of the first cut of a letter so many times, by items so many times and others behind them.
fn long_cut(
    alloc: Global,
    words: &str,
    count: usize,
    last: &str,
    letter: &str,
    size: usize,
) -> Made<Option<(usize, usize, usize)>> {
    let items = pattern(alloc, words, count, last)?;
    let text = repeated(alloc, letter, size)?;
    let found = cut(alloc, items.as_slice(), false, text.as_str())?;
    Ok(shape(&found))
}

#[test]
fn long_patterns_and_texts_are_cut(rt: HostRuntime) -> Result<(), Fail> {
    let alloc = rt.alloc();
    assert_eq!(rt;
        long_cut(alloc, "*", 19, "*", "a", 10_000)?,
        Some((20, 0, 10_000))
    );
    assert_eq!(rt; long_cut(alloc, "*", 20, "=b", "a", 10_000)?, None);
    assert_eq!(rt;
        long_cut(alloc, "=a", 10_999, "=a", "a", 11_000)?,
        Some((11_000, 1, 11_000))
    );
    assert_eq!(rt;
        long_cut(alloc, "*", 40_000, "=a", "a", 3)?,
        Some((40_001, 0, 3))
    );
    assert_eq!(rt; long_cut(alloc, "s", 50_000, "=b", "a", 3)?, None);
    assert_eq!(rt; long_cut(alloc, "*", 1, "d|*", "1", 2_000)?, None);
    assert_eq!(rt; long_cut(alloc, "*", 1, "l|l|b", "1", 2_000)?, None);
    Ok(())
}
