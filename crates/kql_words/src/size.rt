//! SIZE: how many bytes a word writes.
ghost use Rattle.std.specs.Prelude.{◌≡◌, ◌≤◌, true, false, eqb, IfSome, MatchOption};
ghost use Rattle.std.specs.List.{ends_with};
ghost use Rattle.kql_words.specs.Sizes.{before_letters, size_at, size_in, size_of, size_top};

use crate::trial::count_in;

/// How many bytes table files may have together at the most: 1 TiB.
const SIZE_TOP: u64 = 1 << 40;

/// The number of bytes that a word writes: digits, or digits directly followed by `KiB`, `MiB` or `GiB`; from 1 byte to 1 TiB.
#[tactic(auto, unfolding(crate::specs::Sizes::size_in))]
pub(crate) fn size_in(word: &str) -> Option<u64>
    ensures size { result ≡ size_in word.now }
    ensures top { IfSome result (λ n. n ≤ size_top) }
{
    if let Some(digits) = before_letters(word, "KiB") {
        size_of(1 << 10, digits)
    } else if let Some(digits) = before_letters(word, "MiB") {
        size_of(1 << 20, digits)
    } else if let Some(digits) = before_letters(word, "GiB") {
        size_of(1 << 30, digits)
    } else {
        size_of(1, word)
    }
}

// What stands before these letters at the end of a word; none where it does not end with them.
fn before_letters<'a>(word: &'a str, letters: &str) -> Option<&'a str>
    ensures before { MatchOption result (ends_with eqb word.now letters.now ≡ false)
        (λ digits. (ends_with eqb word.now letters.now ≡ true) × (digits.now ≡ before_letters letters.now word.now)) }
{
    word.strip_suffix(letters)
}

// What digits write, in units of so many bytes.
fn size_of(unit: u64, digits: &str) -> Option<u64>
    requires unit { 1 ≤ unit }
    ensures size { result ≡ size_of unit digits.now }
    ensures top { IfSome result (λ n. n ≤ size_top) }
{
    size_at(unit, count_in(digits)?)
}

// So many units.
fn size_at(unit: u64, n: u64) -> Option<u64>
    requires unit { 1 ≤ unit }
    ensures size { result ≡ size_at unit n }
    ensures top { IfSome result (λ n. n ≤ size_top) }
{
    match n.checked_mul(unit) {
        Some(size) if n >= 1 && size <= SIZE_TOP => Some(size),
        _ => None,
    }
}
