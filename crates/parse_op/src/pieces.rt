//! Which pieces an item allows.
ghost use Rattle.std.specs.Prelude.{◌≡◌, ◌≤◌, ◌+◌, ◌==◌, false, length, is_some, slice_get, IfSome, IsTrue};
ghost use Rattle.kql_meaning.specs.Cuts.{digits_length, is_allowed, is_number_before_star, number_length, piece_read};
ghost use Rattle.std.specs.List.{prefix_len};
ghost use Rattle.kql_ticks.specs.Forms.{is_of_number};
ghost use Rattle.kql_cells.specs.declared.value.Kind.TheVariants.{Long};
ghost use Rattle.parse_op.specs.Search.{HasNoCut, LimitsPieces, NoneBefore, NoneBehind, TakesAny, NoPieceBelow, first_fits, is_place, is_zero, long_limit, span_number};

use kql_bound::PatItem;
use kql_cells::{Kind, read_bool, read_long};
use kql_ticks::{read_moment, read_span};

/// Whether an item allows a piece, where these items follow it and `rest` is the text from the start of the piece on.
#[tactic(auto, unfolding(kql_meaning::specs::Cuts::is_allowed))]
pub(crate) fn allows(
    relaxed: bool,
    item: &PatItem,
    later: &[PatItem],
    piece: &str,
    rest: &str,
) -> bool
    ensures { result ≡ is_allowed relaxed item.now later.now piece.now rest.now }
{
    match item {
        PatItem::Star => true,
        PatItem::Literal(literal) => piece == literal.as_str(),
        PatItem::Column { name: _, kind } => {
            (relaxed || reads(*kind, piece))
                && (!is_number_before_star(*kind, later)
                    || piece.len() == number_length(rest.as_bytes()))
        }
    }
}

/// Two places such that an item's piece ends at none before the first, and at none from the second on.
#[tactic(auto, using(crate::proofs::BoundSteps::bound_steps))]
pub(crate) fn ends_between(
    relaxed: bool,
    item: &PatItem,
    later: &[PatItem],
    text: &str,
    start: usize,
) -> (usize, usize)
    requires place { IsTrue (is_place text.now start) }
    ensures order { start ≤ result.0 }
    ensures before { NoneBefore relaxed item.now later.now text.now start result.0 }
    ensures behind { NoneBehind relaxed item.now later.now text.now start result.1 }
{
    match item {
        PatItem::Star => (start, text.len() + 1),
        PatItem::Literal(literal) => {
            let size = literal.as_str().len();
            (start + size, start + size + 1)
        }
        PatItem::Column { name: _, kind } => {
            let rest = &text.as_bytes()[start..];
            if is_number_before_star(*kind, later) {
                let size = number_length(rest);
                return (start + size, start + size + 1);
            }
            if relaxed {
                return (start, text.len() + 1);
            }
            let (least, most) = piece_sizes(*kind, rest);
            let size = most.min(rest.len());
            (start + least, start + size + 1)
        }
    }
}

/// Whether items may have a cut from a place on, as far as the first byte tells.
#[tactic(auto, using(crate::proofs::BoundSteps::begin_steps))]
pub(crate) fn may_begin(items: &[PatItem], text: &str, place: usize) -> bool
    ensures never { result ≡ false → HasNoCut items.now text.now place }
    ensures end { length items.now ≡ 0 → result ≡ (place == length text.now) }
{
    let Some((item, _)) = items.split_first() else {
        return place == text.len();
    };
    match item {
        PatItem::Literal(literal) => {
            has_first(literal.as_str().as_bytes(), text.as_bytes(), place)
        }
        PatItem::Star => true,
        PatItem::Column { .. } => true,
    }
}

// Whether the first byte of a part, where it has one, stands at a place of a text.
#[tactic(auto, unfolding(crate::specs::Search::first_fits))]
fn has_first(part: &[u8], text: &[u8], place: usize) -> bool
    ensures { result ≡ first_fits part.now (slice_get text.now place) }
{
    let Some((first, _)) = part.split_first() else {
        return true;
    };
    match text.get(place) {
        Some(byte) => *first == *byte,
        None => false,
    }
}

/// A place from which on every end of an item's piece is allowed, where its type and the items behind it restrict nothing.
#[tactic(auto, using(crate::proofs::PieceSteps::piece_steps))]
pub(crate) fn takes_any_from(
    relaxed: bool,
    item: &PatItem,
    later: &[PatItem],
    text: &str,
    start: usize,
) -> Option<usize>
    requires place { IsTrue (is_place text.now start) }
    ensures any { IfSome result (TakesAny relaxed item.now later.now text.now start) }
{
    match item {
        PatItem::Star => Some(start),
        PatItem::Literal(_) => None,
        PatItem::Column { name: _, kind } => {
            if is_number_before_star(*kind, later) {
                return None;
            }
            if relaxed {
                return Some(start);
            }
            match kind {
                Kind::Text => Some(start),
                Kind::Dynamic => Some(start + 1),
                Kind::Bool | Kind::Long | Kind::Moment | Kind::Span => None,
            }
        }
    }
}

/// Whether a piece reads as a value of a type.
#[tactic(auto, unfolding(kql_meaning::specs::Cuts::piece_read, kql_meaning::specs::Cuts::filled_piece_read, kql_scalar_fns::specs::Conversion::moment_written))]
fn reads(kind: Kind, piece: &str) -> bool
    ensures { result ≡ is_some (piece_read kind piece.now) }
{
    match kind {
        Kind::Text => true,
        Kind::Bool => !piece.is_empty() && read_bool(piece).is_some(),
        Kind::Long => !piece.is_empty() && read_long(piece).is_some(),
        Kind::Moment => !piece.is_empty() && read_moment(piece).is_some(),
        Kind::Span => !piece.is_empty() && read_span(piece).is_some(),
        Kind::Dynamic => !piece.is_empty(),
    }
}

/// Whether a column is a long directly before `*`.
#[tactic(auto, unfolding(kql_meaning::specs::Cuts::is_number_before_star, kql_meaning::specs::Cuts::star_follows))]
fn is_number_before_star(kind: Kind, later: &[PatItem]) -> bool
    ensures { result ≡ is_number_before_star kind later.now }
{
    match kind {
        Kind::Long => matches!(later.first(), Some(PatItem::Star)),
        _ => false,
    }
}

/// Two sizes such that no shorter piece at the start of a text reads as a value of a type, and no longer one.
#[tactic(auto, using(crate::proofs::LimitSteps::limit_steps))]
fn piece_sizes(kind: Kind, text: &[u8]) -> (usize, usize)
    ensures least { NoPieceBelow kind text.now result.0 }
    ensures within { result.0 ≤ length text.now + 1 }
    ensures most { LimitsPieces kind text.now result.1 }
{
    match kind {
        Kind::Bool => (0, 5),
        Kind::Long => (0, longest_long(text)),
        Kind::Moment => (0, 35),
        Kind::Span => {
            let size = span_number(text);
            (size + 1, size + 17)
        }
        Kind::Text => (0, text.len()),
        Kind::Dynamic => (0, text.len()),
    }
}

// No longer piece at the start of a text reads as a long.
#[tactic(auto, using(crate::proofs::LimitSteps::long_steps))]
fn longest_long(text: &[u8]) -> usize
    ensures { LimitsPieces Long text.now result }
{
    let limit = long_limit(text).min(text.len());
    number_length(&text[..limit])
}

// The same by the zeros alone that the text begins with.
#[tactic(auto, using(crate::proofs::LimitSteps::span_steps), unfolding(crate::specs::Search::long_limit))]
fn long_limit(text: &[u8]) -> usize
    ensures { result ≡ long_limit text.now }
{
    let Some((first, behind)) = text.split_first() else {
        return 0;
    };
    if *first == b'-' {
        zero_bytes(behind) + 20
    } else {
        zero_bytes(text) + 19
    }
}

// How many zeros a text begins with.
fn zero_bytes(text: &[u8]) -> usize
    ensures { result ≡ prefix_len is_zero text.now }
{
    text.iter().take_while(|b| **b == b'0').count()
}

// The sign and the bytes of a number that a text begins with.
#[tactic(auto, using(crate::proofs::LimitSteps::span_steps), unfolding(crate::specs::Search::span_number))]
fn span_number(text: &[u8]) -> usize
    ensures { result ≡ span_number text.now }
{
    let Some((first, behind)) = text.split_first() else {
        return 0;
    };
    if *first == b'-' {
        number_bytes(behind) + 1
    } else {
        number_bytes(text)
    }
}

// How many bytes of a number a text begins with.
fn number_bytes(text: &[u8]) -> usize
    ensures { result ≡ prefix_len is_of_number text.now }
{
    text.iter().take_while(|b| is_of_number(**b)).count()
}

fn is_of_number(byte: u8) -> bool
    ensures { result ≡ is_of_number byte }
{
    byte.is_ascii_digit() || byte == b'.'
}

/// The length of the longest number that a text begins with.
#[tactic(auto, using(crate::proofs::PieceSteps::number_steps), unfolding(kql_meaning::specs::Cuts::number_length, kql_meaning::specs::Cuts::behind_dash))]
fn number_length(text: &[u8]) -> usize
    ensures { result ≡ number_length text.now }
{
    let Some((first, behind)) = text.split_first() else {
        return 0;
    };
    if *first != b'-' {
        return digits_length(text);
    }
    let digits = digits_length(behind);
    if digits == 0 { 0 } else { digits + 1 }
}

#[tactic(auto, unfolding(kql_meaning::specs::Cuts::digits_length))]
fn digits_length(text: &[u8]) -> usize
    ensures { result ≡ digits_length text.now }
{
    text.iter().take_while(|b| b.is_ascii_digit()).count()
}
