use crate::keyword::Keyword;
use crate::place::Place;
use kql_cells::KText;
use kql_items::Items;

/// A token with the place of its first byte.
#[derive(Debug, Drop)]
pub struct Token {
    pub place: Place,
    pub form: TokenForm,
}

/// The tokens of a text in order, the end mark last.
pub type Tokens = Items<Token>;

/// What a token is.
#[derive(Debug, Drop)]
pub enum TokenForm {
    /// The end mark; its place is the end of the text.
    End,
    /// A word with its text, the dashed words, `in~`, `$left` and `$right` too; the keyword tells which words
    /// are reserved.
    Word(Keyword, KText),
    /// `!` and the word of this keyword.
    Negated(Keyword),
    /// A whole number, from 0 to 9223372036854775807.
    Number(i64),
    /// A timespan in ticks of 100 ns, not below 0.
    Span(i64),
    /// A string without its signs, its escapes resolved.
    Text(KText),
    /// A typed literal: the keyword of its word, and the raw text between its brackets.
    Typed(Keyword, KText),
    /// `|`
    Bar,
    /// `(`
    Open,
    /// `)`
    Close,
    /// `[`
    OpenSquare,
    /// `]`
    CloseSquare,
    /// `,`
    Comma,
    /// `;`
    Semicolon,
    /// `:`
    Colon,
    /// `.`
    Dot,
    /// `..`
    DotDot,
    /// `=`
    Assign,
    /// `==`
    Equal,
    /// `!=`
    NotEqual,
    /// `=~`
    Alike,
    /// `!~`
    NotAlike,
    /// `<`
    Less,
    /// `<=`
    LessEqual,
    /// `>`
    Greater,
    /// `>=`
    GreaterEqual,
    /// `=>`
    Arrow,
    /// `+`
    Plus,
    /// `-`
    Minus,
    /// `*`
    Star,
    /// `/`
    Slash,
    /// `%`
    Percent,
}

/// What the longest piece of a text is, before any text is copied.
#[derive(Debug, Drop)]
pub(crate) enum Shape {
    /// Blanks or a comment.
    Gap,
    /// Something that is no token, with the code of its refusal.
    Flaw(u32),
    /// A token that holds no text.
    Plain(TokenForm),
    /// A word.
    Word(Keyword),
    /// A string with escapes.
    Quoted,
    /// A verbatim string.
    Verbatim,
    /// A typed literal: its keyword, and how many bytes stand before its `(`.
    Typed(Keyword, usize),
}

/// The longest piece that some bytes begin with.
#[derive(Debug, Drop)]
pub(crate) struct Front {
    pub size: usize,
    pub shape: Shape,
}
