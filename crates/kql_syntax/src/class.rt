//! Classes of tokens: what the grammar sees of a token.

ghost use Rattle.std.specs.Prelude.{◌≡◌, ◌<◌, ◌↔◌, [], ◌∷◌, IsTrue};
ghost use Rattle.kql_syntax.specs.Classes.{word_number, number, low, high, has, is_name, IsOf};

use kql_lexer::{Keyword, TokenForm};

/// A class of tokens. Each token has a number, and a class has the tokens from one number to another.
#[derive(Clone, Copy, Debug, PartialEq, Eq)]
pub enum Class {
    /// The end mark.
    End,
    /// A whole number.
    Number,
    /// A timespan.
    Span,
    /// A string.
    Text,
    /// A typed literal.
    Typed,
    /// `(`
    Open,
    /// `[`
    OpenSquare,
    /// `.`
    Dot,
    /// `==`
    Equal,
    /// `!=`
    NotEqual,
    /// `=~`
    Alike,
    /// `!~`
    NotAlike,
    /// `<`
    Less,
    /// `<=`
    LessEqual,
    /// `>`
    Greater,
    /// `>=`
    GreaterEqual,
    /// `+`
    Plus,
    /// `-`
    Minus,
    /// `*`
    Star,
    /// `/`
    Slash,
    /// `%`
    Percent,
    /// `|`
    Bar,
    /// `)`
    Close,
    /// `]`
    CloseSquare,
    /// `,`
    Comma,
    /// `;`
    Semicolon,
    /// `:`
    Colon,
    /// `..`
    DotDot,
    /// `=`
    Assign,
    /// `=>`
    Arrow,
    /// A word that is not reserved.
    Name,
    /// Any word.
    Word,
    /// The word of this keyword.
    Key(Keyword),
    /// `!` and the word of this keyword.
    Not(Keyword),
    /// A sign that can go on an expression: `(`, `[`, `.`, or one of comparison or arithmetic.
    ExprSign,
    /// A word that compares: `in`, `between`, `has` and their like.
    CompareWord,
    /// `!` and any word.
    Negated,
}

/// How an expression starts.
pub const EXPR_STARTS: [Class; 10] = [
    Class::Minus,
    Class::Number,
    Class::Span,
    Class::Text,
    Class::Typed,
    Class::Key(Keyword::True),
    Class::Key(Keyword::False),
    Class::Open,
    Class::Name,
    Class::OpenSquare,
];

/// The number of a word: from 200 on the reserved ones, those that compare first.
fn word_number(keyword: Keyword) -> u16
    ensures number { result ≡ word_number keyword }
    ensures small { result < 300 }
{
    match keyword {
        Keyword::Other => 100,
        Keyword::Bag => 101,
        Keyword::All => 102,
        Keyword::Int => 103,
        Keyword::Top => 104,
        Keyword::Take => 105,
        Keyword::Sort => 106,
        Keyword::Scan => 107,
        Keyword::Join => 108,
        Keyword::Last => 109,
        Keyword::None => 110,
        Keyword::Long => 111,
        Keyword::Time => 112,
        Keyword::Bool => 113,
        Keyword::Real => 114,
        Keyword::Guid => 115,
        Keyword::Where => 116,
        Keyword::Limit => 117,
        Keyword::Count => 118,
        Keyword::Order => 119,
        Keyword::Parse => 120,
        Keyword::Array => 121,
        Keyword::First => 122,
        Keyword::Outer => 123,
        Keyword::Inner => 124,
        Keyword::Regex => 125,
        Keyword::Extend => 126,
        Keyword::Lookup => 127,
        Keyword::Simple => 128,
        Keyword::Output => 129,
        Keyword::Double => 130,
        Keyword::String => 131,
        Keyword::Project => 132,
        Keyword::Relaxed => 133,
        Keyword::Declare => 134,
        Keyword::Decimal => 135,
        Keyword::Dynamic => 136,
        Keyword::Distinct => 137,
        Keyword::Datetime => 138,
        Keyword::Timespan => 139,
        Keyword::Leftsemi => 140,
        Keyword::Leftanti => 141,
        Keyword::Serialize => 142,
        Keyword::Summarize => 143,
        Keyword::Partition => 144,
        Keyword::Leftouter => 145,
        Keyword::Fullouter => 146,
        Keyword::Rightsemi => 147,
        Keyword::Rightanti => 148,
        Keyword::Rightouter => 149,
        Keyword::Innerunique => 150,
        Keyword::WithMatchId => 151,
        Keyword::In => 200,
        Keyword::InTilde => 201,
        Keyword::Between => 202,
        Keyword::Contains => 203,
        Keyword::ContainsCs => 204,
        Keyword::Startswith => 205,
        Keyword::StartswithCs => 206,
        Keyword::Endswith => 207,
        Keyword::EndswithCs => 208,
        Keyword::Has => 209,
        Keyword::HasCs => 210,
        Keyword::And => 211,
        Keyword::Or => 212,
        Keyword::Matches => 213,
        Keyword::True => 214,
        Keyword::False => 215,
        Keyword::By => 216,
        Keyword::On => 217,
        Keyword::Asc => 218,
        Keyword::Desc => 219,
        Keyword::Nulls => 220,
        Keyword::From => 221,
        Keyword::To => 222,
        Keyword::Step => 223,
        Keyword::With => 224,
        Keyword::Kind => 225,
        Keyword::Hint => 226,
        Keyword::Default => 227,
        Keyword::Typeof => 228,
        Keyword::Let => 229,
        Keyword::Range => 230,
        Keyword::Print => 231,
        Keyword::Union => 232,
        Keyword::DollarLeft => 233,
        Keyword::DollarRight => 234,
        Keyword::MvExpand => 235,
        Keyword::MakeSeries => 236,
        Keyword::ProjectAway => 237,
        Keyword::ProjectKeep => 238,
        Keyword::ProjectRename => 239,
    }
}

/// The number of a token, one for each kind and each keyword.
pub(crate) fn number(form: &TokenForm) -> u16
    ensures { result ≡ number form.now }
{
    match form {
        TokenForm::End => 0,
        TokenForm::Number(_) => 1,
        TokenForm::Span(_) => 2,
        TokenForm::Text(_) => 3,
        TokenForm::Typed(_, _) => 4,
        TokenForm::Open => 10,
        TokenForm::OpenSquare => 11,
        TokenForm::Dot => 12,
        TokenForm::Equal => 13,
        TokenForm::NotEqual => 14,
        TokenForm::Alike => 15,
        TokenForm::NotAlike => 16,
        TokenForm::Less => 17,
        TokenForm::LessEqual => 18,
        TokenForm::Greater => 19,
        TokenForm::GreaterEqual => 20,
        TokenForm::Plus => 21,
        TokenForm::Minus => 22,
        TokenForm::Star => 23,
        TokenForm::Slash => 24,
        TokenForm::Percent => 25,
        TokenForm::Bar => 30,
        TokenForm::Close => 31,
        TokenForm::CloseSquare => 32,
        TokenForm::Comma => 33,
        TokenForm::Semicolon => 34,
        TokenForm::Colon => 35,
        TokenForm::DotDot => 36,
        TokenForm::Assign => 37,
        TokenForm::Arrow => 38,
        TokenForm::Word(keyword, _) => word_number(*keyword),
        TokenForm::Negated(keyword) => 1000 + word_number(*keyword),
    }
}

impl Class {
    /// The least number of the class.
    fn low(self) -> u16
        ensures { result ≡ low self }
    {
        match self {
            Class::End => 0,
            Class::Number => 1,
            Class::Span => 2,
            Class::Text => 3,
            Class::Typed => 4,
            Class::Open => 10,
            Class::OpenSquare => 11,
            Class::Dot => 12,
            Class::Equal => 13,
            Class::NotEqual => 14,
            Class::Alike => 15,
            Class::NotAlike => 16,
            Class::Less => 17,
            Class::LessEqual => 18,
            Class::Greater => 19,
            Class::GreaterEqual => 20,
            Class::Plus => 21,
            Class::Minus => 22,
            Class::Star => 23,
            Class::Slash => 24,
            Class::Percent => 25,
            Class::Bar => 30,
            Class::Close => 31,
            Class::CloseSquare => 32,
            Class::Comma => 33,
            Class::Semicolon => 34,
            Class::Colon => 35,
            Class::DotDot => 36,
            Class::Assign => 37,
            Class::Arrow => 38,
            Class::Name => 100,
            Class::Word => 100,
            Class::Key(keyword) => word_number(keyword),
            Class::Not(keyword) => 1000 + word_number(keyword),
            Class::ExprSign => 10,
            Class::CompareWord => 200,
            Class::Negated => 1000,
        }
    }

    /// The greatest number of the class.
    fn high(self) -> u16
        ensures { result ≡ high self }
    {
        match self {
            Class::Name => 199,
            Class::Word => 299,
            Class::ExprSign => 29,
            Class::CompareWord => 210,
            Class::Negated => 1299,
            _ => self.low(),
        }
    }
}

/// Whether a token is of one of these classes.
pub(crate) fn has(classes: &[Class], form: &TokenForm) -> bool
    ensures { result ≡ has classes.now form.now }
{
    let wanted = number(form);
    let mut left = classes;
    'left: while let Some((class, rest)) = left.split_first() {
        if class.low() <= wanted && wanted <= class.high() {
            return true;
        }
        left = rest;
    }
    false
}

/// Whether a token is of a class.
pub fn is_of(form: &TokenForm, class: Class) -> bool
    ensures meaning { IsTrue result ↔ IsOf class form.now }
    ensures class { result ≡ has (class ∷ []) form.now }
{
    has(&[class], form)
}

/// Whether a token is a word that is not reserved.
#[tactic(auto, unfolding(crate::specs::Classes::is_name))]
pub fn is_name(form: &TokenForm) -> bool
    ensures reserved { result ≡ is_name form.now }
    ensures class { result ≡ has (Class.Name ∷ []) form.now }
{
    match form {
        TokenForm::Word(keyword, _) => !keyword.is_reserved(),
        _ => false,
    }
}
