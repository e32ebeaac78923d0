ghost use Rattle.std.specs.Prelude.{◌≡◌, ◌==◌, slice_index};
ghost use Rattle.kql_cells.specs.Readings.{bool_written, long_written};

/// The long that a text writes: digits with a minus before them or none, in the range of a long.
#[tactic(auto, using(crate::proofs::NumberLaws::number_facts))]
pub fn read_long(text: &str) -> Option<i64>
    ensures value { result ≡ long_written text.now }
{
    if begins_with_plus(text) {
        return None;
    }
    text.parse::<i64>().ok()
}

fn begins_with_plus(text: &str) -> bool
    ensures { result ≡ (slice_index text.now 0 == 43) }
{
    match text.as_bytes().first() {
        Some(byte) => *byte == b'+',
        None => false,
    }
}

/// The truth value that a text writes: `true` or `false` in any case.
#[tactic(auto, unfolding(crate::specs::Readings::bool_written))]
pub fn read_bool(text: &str) -> Option<bool>
    ensures value { result ≡ bool_written text.now }
{
    if text.eq_ignore_ascii_case("true") {
        Some(true)
    } else if text.eq_ignore_ascii_case("false") {
        Some(false)
    } else {
        None
    }
}
