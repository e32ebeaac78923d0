ghost use Rattle.std.specs.Prelude.{◌≡◌, reverse};
ghost use Rattle.csv_io.specs.Blanks.{bare, begins_blank, behind_blanks, is_blank, trimmed};

use kql_cells::Kind;

// What of a field is read in a column of this type: but for strings and JSON it is the field without the blanks round it.
#[tactic(auto, unfolding(crate::specs::Blanks::bare))]
pub(crate) fn bare(kind: Kind, text: &str) -> &str
    ensures { result.now ≡ bare kind text.now }
{
    match kind {
        Kind::Text | Kind::Dynamic => text,
        Kind::Bool | Kind::Long | Kind::Moment | Kind::Span => trimmed(text),
    }
}

// A text without the spaces and tabs at its ends.
#[tactic(auto, unfolding(crate::specs::Blanks::trimmed))]
fn trimmed(text: &str) -> &str
    ensures { result.now ≡ trimmed text.now }
{
    before_blanks(behind_blanks(text))
}

#[tactic(auto, using(crate::proofs::BlankFacts::front_steps))]
fn behind_blanks(text: &str) -> &str
    ensures { result.now ≡ behind_blanks text.now }
{
    let mut left = text;
    'blanks: while begins_blank(left) {
        left = &left[1..];
    }
    left
}

#[tactic(auto, using(crate::proofs::BlankFacts::back_steps))]
fn before_blanks(text: &str) -> &str
    ensures { result.now ≡ reverse (behind_blanks (reverse text.now)) }
{
    let mut left = text;
    'blanks: while ends_blank(left) {
        left = &left[..left.len() - 1];
    }
    left
}

#[inline(always)]
#[tactic(auto, unfolding(crate::specs::Blanks::begins_blank))]
fn begins_blank(text: &str) -> bool
    ensures { result ≡ begins_blank text.now }
{
    match text.as_bytes() {
        [] => false,
        [byte, ..] => is_blank(*byte),
    }
}

#[inline(always)]
#[tactic(auto, using(crate::proofs::BlankFacts::last_steps))]
fn ends_blank(text: &str) -> bool
    ensures { result ≡ begins_blank (reverse text.now) }
{
    match text.as_bytes() {
        [] => false,
        [.., byte] => is_blank(*byte),
    }
}

fn is_blank(byte: u8) -> bool
    ensures { result ≡ is_blank byte }
{
    byte == b' ' || byte == b'\t'
}
