//! The classes of bytes that the tokens are made of.

ghost use Rattle.std.specs.Prelude.{◌≡◌};
ghost use Rattle.std.specs.List.{list_all, prefix_len};
ghost use Rattle.kql_lexer.specs.Bytes.{class_of, is_blank, is_digit, is_inline, is_quote, is_word_start, is_word_char};

/// What a byte may begin.
#[derive(Clone, Copy, Debug, PartialEq, Eq)]
pub(crate) enum Class {
    /// Blanks.
    Blank,
    /// A word or a typed literal.
    Letter,
    /// A number or a span.
    Digit,
    /// A string.
    Quote,
    /// A verbatim string.
    At,
    /// `$left` or `$right`.
    Dollar,
    /// `!=`, `!~` or a negated word.
    Bang,
    /// `/` or a comment.
    Slash,
    /// Another sign, or nothing.
    Other,
}

#[tactic(auto, unfolding(crate::specs::Bytes::is_blank))]
pub(crate) fn is_blank(byte: u8) -> bool
    ensures { result ≡ is_blank byte }
{
    byte == b' ' || byte == b'\t' || byte == b'\r' || byte == b'\n'
}

#[tactic(auto, unfolding(crate::specs::Bytes::is_digit))]
pub(crate) fn is_digit(byte: u8) -> bool
    ensures { result ≡ is_digit byte }
{
    b'0' <= byte && byte <= b'9'
}

#[tactic(auto, unfolding(crate::specs::Bytes::is_word_start))]
pub(crate) fn is_word_start(byte: u8) -> bool
    ensures { result ≡ is_word_start byte }
{
    (b'A' <= byte && byte <= b'Z') || (b'a' <= byte && byte <= b'z') || byte == b'_'
}

#[tactic(auto, unfolding(crate::specs::Bytes::is_word_char))]
pub(crate) fn is_word_char(byte: u8) -> bool
    ensures { result ≡ is_word_char byte }
{
    is_word_start(byte) || is_digit(byte)
}

/// Whether all bytes are word characters.
pub(crate) fn all_word_chars(bytes: &[u8]) -> bool
    ensures { result ≡ list_all is_word_char bytes.now }
{
    for byte in bytes {
        if !is_word_char(*byte) {
            return false;
        }
    }
    true
}

#[tactic(auto, unfolding(crate::specs::Bytes::is_quote))]
pub(crate) fn is_quote(byte: u8) -> bool
    ensures { result ≡ is_quote byte }
{
    byte == b'"' || byte == b'\''
}

#[tactic(auto, unfolding(crate::specs::Bytes::class_of))]
pub(crate) fn class_of(byte: u8) -> Class
    ensures { result ≡ class_of byte }
{
    if is_blank(byte) {
        Class::Blank
    } else if is_word_start(byte) {
        Class::Letter
    } else if is_digit(byte) {
        Class::Digit
    } else if is_quote(byte) {
        Class::Quote
    } else {
        match byte {
            b'@' => Class::At,
            b'$' => Class::Dollar,
            b'!' => Class::Bang,
            b'/' => Class::Slash,
            _ => Class::Other,
        }
    }
}

/// How many blanks the bytes begin with.
pub(crate) fn blank_len(bytes: &[u8]) -> usize
    ensures { result ≡ prefix_len is_blank bytes.now }
{
    for (i, byte) in bytes.iter().enumerate() {
        if !is_blank(*byte) {
            return i;
        }
    }
    bytes.len()
}

/// How many word characters the bytes begin with.
pub(crate) fn word_len(bytes: &[u8]) -> usize
    ensures { result ≡ prefix_len is_word_char bytes.now }
{
    for (i, byte) in bytes.iter().enumerate() {
        if !is_word_char(*byte) {
            return i;
        }
    }
    bytes.len()
}

/// How many digits the bytes begin with.
pub(crate) fn digit_len(bytes: &[u8]) -> usize
    ensures { result ≡ prefix_len is_digit bytes.now }
{
    for (i, byte) in bytes.iter().enumerate() {
        if !is_digit(*byte) {
            return i;
        }
    }
    bytes.len()
}

/// How many bytes stand before the first line feed.
#[tactic(auto, unfolding(crate::specs::Bytes::is_inline))]
pub(crate) fn line_len(bytes: &[u8]) -> usize
    ensures { result ≡ prefix_len is_inline bytes.now }
{
    for (i, byte) in bytes.iter().enumerate() {
        if *byte == b'\n' {
            return i;
        }
    }
    bytes.len()
}
