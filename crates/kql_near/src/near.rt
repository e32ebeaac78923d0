//! The nearest of some names.

ghost use Rattle.std.specs.Prelude.{◌≡◌, ◌≤◌, ◌<◌, All, IfOk, IfSome, IfNone, length, map, slice_index};
ghost use Rattle.std.specs.Str.{chars};
ghost use Rattle.kql_near.specs.Nearest.{edits, few, texts, IsFirstLeast, IsNearest, NoneIsNear};

use std::alloc::{AllocError, Global};
use strsim::osa_distance;

/// The place of the name to which fewest edits lead from a word, by characters and without regard to the case of ASCII letters, if they are few: a
/// third of the word's characters, or one of a word of two to five. Two neighbours that change places are one edit. Of several names the first.
pub fn nearest(alloc: Global, word: &str, names: &[&str]) -> Result<Option<usize>, AllocError>
    ensures nearest { IfOk result (λ found. IfSome found (λ at. IsFirstLeast (map (λ n. edits word.now n.now) names.now) at)) }
    ensures few { IfOk result (λ found. IfSome found (λ at. slice_index (map (λ n. edits word.now n.now) names.now) at ≤ few word.now)) }
    ensures none { IfOk result (λ found. IfNone found (All (λ e. few word.now < e) (map (λ n. edits word.now n.now) names.now))) }
{
    let asked = word.to_ascii_lowercase(alloc)?;
    let mut limit = few(word) + 1;
    let mut found = None;
    for i in 0..names.len() {
        let name = names[i].to_ascii_lowercase(alloc)?;
        let edits = osa_distance(alloc, asked.as_str(), name.as_str())?;
        if edits < limit {
            limit = edits;
            found = Some(i);
        }
    }
    Ok(found)
}

// How many characters a word has.
fn char_count(word: &str) -> usize
    ensures count { result ≡ length (chars word.now) }
    ensures few { result ≤ length word.now }
{
    word.chars().count()
}

// How many edits are few for a word.
fn few(word: &str) -> usize
    ensures value { result ≡ few word.now }
    ensures bound { result ≤ length word.now }
{
    match char_count(word) {
        0 | 1 => 0,
        2..=5 => 1,
        length => length / 3,
    }
}

/// The nearest of some names itself.
#[tactic(auto, using(crate::proofs::Named::none_near))]
pub fn nearest_name<'a>(
    alloc: Global,
    word: &str,
    names: &[&'a str],
) -> Result<Option<&'a str>, AllocError>
    ensures near { IfOk result (λ found. IfSome found (λ name. IsNearest word.now (texts names.now) name.now)) }
    ensures none { IfOk result (λ found. IfNone found (NoneIsNear word.now (texts names.now))) }
{
    match nearest(alloc, word, names)? {
        Some(at) => Ok(Some(names[at])),
        None => Ok(None),
    }
}
