ghost use Rattle.std.specs.Prelude.{◌≡◌, ◌+◌, ◌<◌, ◌≤◌, ◌^◌, length, slice_index};
ghost use Rattle.kql_lexer.specs.Places.{place_at, place_after};

/// Where something begins in a text.
#[derive(Clone, Copy, Debug, PartialEq, Eq)]
pub struct Place {
    /// The line, from 1. A line ends at a line feed alone.
    pub line: u32,
    /// The column in characters, from 1.
    pub column: u32,
    /// The byte, from 0.
    pub byte: u32,
}

/// The longest text that has tokens, in bytes.
pub const MAX_BYTES: usize = 262_144;

impl Place {
    /// The place of the text's first byte.
    #[tactic(auto, using(crate::proofs::PlaceFacts::place_steps))]
    pub(crate) fn start(text: &[u8]) -> Place
        ensures { result ≡ place_at text.now 0 }
    {
        let _ = text;
        Place {
            line: 1,
            column: 1,
            byte: 0,
        }
    }

    /// The place behind one more byte.
    #[tactic(auto, unfolding(crate::specs::Places::place_after))]
    fn after(self, byte: u8) -> Place
        requires line { self.line + 1 < 2 ^ 32 }
        requires column { self.column + 1 < 2 ^ 32 }
        requires byte { self.byte + 1 < 2 ^ 32 }
        ensures { result ≡ place_after self byte }
    {
        if byte == b'\n' {
            Place {
                line: self.line + 1,
                column: 1,
                byte: self.byte + 1,
            }
        } else if byte < 128 || 192 <= byte {
            Place {
                line: self.line,
                column: self.column + 1,
                byte: self.byte + 1,
            }
        } else {
            Place {
                line: self.line,
                column: self.column,
                byte: self.byte + 1,
            }
        }
    }

    /// The place behind `size` more bytes of the text.
    #[tactic(auto, using(crate::proofs::PlaceFacts::place_steps))]
    pub(crate) fn past(self, text: &[u8], at: usize, size: usize) -> Place
        requires short { length text.now ≤ MAX_BYTES }
        requires within { at + size ≤ length text.now }
        requires place { self ≡ place_at text.now at }
        ensures { result ≡ place_at text.now (at + size) }
    {
        let mut place = self;
        for i in at..at + size {
            place = place.after(text[i]);
        }
        place
    }
}
