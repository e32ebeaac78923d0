ghost use Rattle.std.specs.Prelude.{◌≡◌, true};
ghost use Rattle.kql_lexer.specs.Words.{keyword_text, keyword_of, keyword_among, is_literal_keyword, is_reserved_keyword, is_word, is_reserved, rises, word_before};

use crate::classes::{all_word_chars, is_word_start};

/// A word that the language gives a meaning, or `Other` for any other word.
#[derive(Clone, Copy, Debug, PartialEq, Eq)]
pub enum Keyword {
    Other,
    Or,
    In,
    By,
    On,
    To,
    And,
    Has,
    Asc,
    Let,
    InTilde,
    Bag,
    All,
    Int,
    Top,
    True,
    From,
    Step,
    With,
    Kind,
    Hint,
    Desc,
    Take,
    Sort,
    Scan,
    Join,
    Last,
    None,
    Long,
    Time,
    Bool,
    Real,
    Guid,
    False,
    Nulls,
    Range,
    Print,
    Union,
    Where,
    Limit,
    Count,
    Order,
    Parse,
    Array,
    First,
    Outer,
    Inner,
    DollarLeft,
    Regex,
    Typeof,
    DollarRight,
    Extend,
    Lookup,
    Simple,
    Output,
    Double,
    String,
    HasCs,
    Between,
    Matches,
    Default,
    Project,
    Relaxed,
    Declare,
    Decimal,
    Dynamic,
    Contains,
    Endswith,
    Distinct,
    Datetime,
    Timespan,
    Leftsemi,
    Leftanti,
    Serialize,
    Summarize,
    Partition,
    MvExpand,
    Leftouter,
    Fullouter,
    Rightsemi,
    Rightanti,
    Startswith,
    Rightouter,
    ContainsCs,
    EndswithCs,
    MakeSeries,
    Innerunique,
    ProjectAway,
    ProjectKeep,
    StartswithCs,
    WithMatchId,
    ProjectRename,
}

/// Every keyword, the shorter ones first.
pub const KEYWORDS: [Keyword; 91] = [
    Keyword::Or,
    Keyword::In,
    Keyword::By,
    Keyword::On,
    Keyword::To,
    Keyword::And,
    Keyword::Has,
    Keyword::Asc,
    Keyword::Let,
    Keyword::InTilde,
    Keyword::Bag,
    Keyword::All,
    Keyword::Int,
    Keyword::Top,
    Keyword::True,
    Keyword::From,
    Keyword::Step,
    Keyword::With,
    Keyword::Kind,
    Keyword::Hint,
    Keyword::Desc,
    Keyword::Take,
    Keyword::Sort,
    Keyword::Scan,
    Keyword::Join,
    Keyword::Last,
    Keyword::None,
    Keyword::Long,
    Keyword::Time,
    Keyword::Bool,
    Keyword::Real,
    Keyword::Guid,
    Keyword::False,
    Keyword::Nulls,
    Keyword::Range,
    Keyword::Print,
    Keyword::Union,
    Keyword::Where,
    Keyword::Limit,
    Keyword::Count,
    Keyword::Order,
    Keyword::Parse,
    Keyword::Array,
    Keyword::First,
    Keyword::Outer,
    Keyword::Inner,
    Keyword::DollarLeft,
    Keyword::Regex,
    Keyword::Typeof,
    Keyword::DollarRight,
    Keyword::Extend,
    Keyword::Lookup,
    Keyword::Simple,
    Keyword::Output,
    Keyword::Double,
    Keyword::String,
    Keyword::HasCs,
    Keyword::Between,
    Keyword::Matches,
    Keyword::Default,
    Keyword::Project,
    Keyword::Relaxed,
    Keyword::Declare,
    Keyword::Decimal,
    Keyword::Dynamic,
    Keyword::Contains,
    Keyword::Endswith,
    Keyword::Distinct,
    Keyword::Datetime,
    Keyword::Timespan,
    Keyword::Leftsemi,
    Keyword::Leftanti,
    Keyword::Serialize,
    Keyword::Summarize,
    Keyword::Partition,
    Keyword::MvExpand,
    Keyword::Leftouter,
    Keyword::Fullouter,
    Keyword::Rightsemi,
    Keyword::Rightanti,
    Keyword::Startswith,
    Keyword::Rightouter,
    Keyword::ContainsCs,
    Keyword::EndswithCs,
    Keyword::MakeSeries,
    Keyword::Innerunique,
    Keyword::ProjectAway,
    Keyword::ProjectKeep,
    Keyword::StartswithCs,
    Keyword::WithMatchId,
    Keyword::ProjectRename,
];

impl Keyword {
    /// The word's text; that of `Other` is empty.
    #[tactic(auto, unfolding(crate::specs::Words::keyword_text))]
    pub fn text(self) -> &'static str
        ensures text { result.now ≡ keyword_text self }
    {
        match self {
            Keyword::Other => "",
            Keyword::Or => "or",
            Keyword::In => "in",
            Keyword::By => "by",
            Keyword::On => "on",
            Keyword::To => "to",
            Keyword::And => "and",
            Keyword::Has => "has",
            Keyword::Asc => "asc",
            Keyword::Let => "let",
            Keyword::InTilde => "in~",
            Keyword::Bag => "bag",
            Keyword::All => "all",
            Keyword::Int => "int",
            Keyword::Top => "top",
            Keyword::True => "true",
            Keyword::From => "from",
            Keyword::Step => "step",
            Keyword::With => "with",
            Keyword::Kind => "kind",
            Keyword::Hint => "hint",
            Keyword::Desc => "desc",
            Keyword::Take => "take",
            Keyword::Sort => "sort",
            Keyword::Scan => "scan",
            Keyword::Join => "join",
            Keyword::Last => "last",
            Keyword::None => "none",
            Keyword::Long => "long",
            Keyword::Time => "time",
            Keyword::Bool => "bool",
            Keyword::Real => "real",
            Keyword::Guid => "guid",
            Keyword::False => "false",
            Keyword::Nulls => "nulls",
            Keyword::Range => "range",
            Keyword::Print => "print",
            Keyword::Union => "union",
            Keyword::Where => "where",
            Keyword::Limit => "limit",
            Keyword::Count => "count",
            Keyword::Order => "order",
            Keyword::Parse => "parse",
            Keyword::Array => "array",
            Keyword::First => "first",
            Keyword::Outer => "outer",
            Keyword::Inner => "inner",
            Keyword::DollarLeft => "$left",
            Keyword::Regex => "regex",
            Keyword::Typeof => "typeof",
            Keyword::DollarRight => "$right",
            Keyword::Extend => "extend",
            Keyword::Lookup => "lookup",
            Keyword::Simple => "simple",
            Keyword::Output => "output",
            Keyword::Double => "double",
            Keyword::String => "string",
            Keyword::HasCs => "has_cs",
            Keyword::Between => "between",
            Keyword::Matches => "matches",
            Keyword::Default => "default",
            Keyword::Project => "project",
            Keyword::Relaxed => "relaxed",
            Keyword::Declare => "declare",
            Keyword::Decimal => "decimal",
            Keyword::Dynamic => "dynamic",
            Keyword::Contains => "contains",
            Keyword::Endswith => "endswith",
            Keyword::Distinct => "distinct",
            Keyword::Datetime => "datetime",
            Keyword::Timespan => "timespan",
            Keyword::Leftsemi => "leftsemi",
            Keyword::Leftanti => "leftanti",
            Keyword::Serialize => "serialize",
            Keyword::Summarize => "summarize",
            Keyword::Partition => "partition",
            Keyword::MvExpand => "mv-expand",
            Keyword::Leftouter => "leftouter",
            Keyword::Fullouter => "fullouter",
            Keyword::Rightsemi => "rightsemi",
            Keyword::Rightanti => "rightanti",
            Keyword::Startswith => "startswith",
            Keyword::Rightouter => "rightouter",
            Keyword::ContainsCs => "contains_cs",
            Keyword::EndswithCs => "endswith_cs",
            Keyword::MakeSeries => "make-series",
            Keyword::Innerunique => "innerunique",
            Keyword::ProjectAway => "project-away",
            Keyword::ProjectKeep => "project-keep",
            Keyword::StartswithCs => "startswith_cs",
            Keyword::WithMatchId => "with_match_id",
            Keyword::ProjectRename => "project-rename",
        }
    }

    /// Whether the word is no name, but in `['word']`.
    #[tactic(auto, unfolding(crate::specs::Words::is_reserved_keyword))]
    pub fn is_reserved(self) -> bool
        ensures reserved { result ≡ is_reserved_keyword self }
    {
        match self {
            Keyword::In
            | Keyword::InTilde
            | Keyword::Between
            | Keyword::Contains
            | Keyword::ContainsCs
            | Keyword::Startswith
            | Keyword::StartswithCs
            | Keyword::Endswith
            | Keyword::EndswithCs
            | Keyword::Has
            | Keyword::HasCs => true,
            Keyword::And
            | Keyword::Or
            | Keyword::Matches
            | Keyword::True
            | Keyword::False
            | Keyword::By
            | Keyword::On
            | Keyword::Asc
            | Keyword::Desc
            | Keyword::Nulls => true,
            Keyword::From
            | Keyword::To
            | Keyword::Step
            | Keyword::With
            | Keyword::Kind
            | Keyword::Hint
            | Keyword::Default
            | Keyword::Typeof
            | Keyword::Let => true,
            Keyword::Range
            | Keyword::Print
            | Keyword::Union
            | Keyword::DollarLeft
            | Keyword::DollarRight
            | Keyword::MvExpand
            | Keyword::MakeSeries
            | Keyword::ProjectAway
            | Keyword::ProjectKeep
            | Keyword::ProjectRename => true,
            _ => false,
        }
    }

    /// Whether a typed literal may begin with the word.
    #[tactic(auto, unfolding(crate::specs::Words::is_literal_keyword))]
    pub fn is_literal(self) -> bool
        ensures literal { result ≡ is_literal_keyword self }
    {
        match self {
            Keyword::Bool
            | Keyword::Long
            | Keyword::Datetime
            | Keyword::Timespan
            | Keyword::Time
            | Keyword::Dynamic
            | Keyword::Int
            | Keyword::Real
            | Keyword::Double
            | Keyword::Decimal
            | Keyword::Guid => true,
            _ => false,
        }
    }
}

/// The keyword with this text, or `Other`.
#[tactic(auto, unfolding(crate::specs::Words::keyword_of, crate::specs::Words::keywords))]
pub fn keyword_of(text: &str) -> Keyword
    ensures keyword { result ≡ keyword_of text.now }
{
    keyword_among(&KEYWORDS, text)
}

/// The first of some keywords that has this text, or `Other`. The shorter ones stand first, so the search ends at the
/// first that is longer than the text.
#[tactic(auto, using(crate::proofs::WordFacts::among_end))]
fn keyword_among(keywords: &[Keyword], word: &str) -> Keyword
    requires rises { rises 0 keywords.now ≡ true }
    ensures { result ≡ keyword_among keywords.now word.now }
{
    for keyword in keywords {
        let text = keyword.text();
        if text.len() > word.len() {
            return Keyword::Other;
        }
        if text == word {
            return *keyword;
        }
    }
    Keyword::Other
}

/// Whether a text is an ASCII letter or `_`, and then letters, digits and `_`.
#[tactic(auto, using(crate::proofs::WordFacts::word_tests))]
pub fn is_word(text: &str) -> bool
    ensures word { result ≡ is_word text.now }
{
    let bytes = text.as_bytes();
    if bytes.is_empty() || !is_word_start(bytes[0]) {
        return false;
    }
    all_word_chars(bytes)
}

/// Whether a text is a reserved word: no name, but in `['word']`.
#[tactic(auto, unfolding(crate::specs::Words::is_reserved))]
pub fn is_reserved(text: &str) -> bool
    ensures reserved { result ≡ is_reserved text.now }
{
    keyword_of(text).is_reserved()
}

/// The words that begin with a letter and have another sign in them, the longer ones first.
pub(crate) const JOINED_WORDS: [Keyword; 6] = [
    Keyword::ProjectRename,
    Keyword::ProjectAway,
    Keyword::ProjectKeep,
    Keyword::MakeSeries,
    Keyword::MvExpand,
    Keyword::InTilde,
];

/// The words that begin with `$`.
pub(crate) const SIDE_WORDS: [Keyword; 2] = [Keyword::DollarRight, Keyword::DollarLeft];

/// The words that may stand directly behind `!`, the longer ones first.
pub(crate) const NEGATED_WORDS: [Keyword; 11] = [
    Keyword::StartswithCs,
    Keyword::ContainsCs,
    Keyword::EndswithCs,
    Keyword::Startswith,
    Keyword::Contains,
    Keyword::Endswith,
    Keyword::Between,
    Keyword::HasCs,
    Keyword::InTilde,
    Keyword::Has,
    Keyword::In,
];

/// The first of some keywords that the bytes begin with.
#[tactic(auto, using(crate::proofs::WordFacts::before_end))]
pub(crate) fn word_before(keywords: &[Keyword], bytes: &[u8]) -> Option<Keyword>
    ensures { result ≡ word_before keywords.now bytes.now }
{
    for keyword in keywords {
        if bytes.starts_with(keyword.text().as_bytes()) {
            return Some(*keyword);
        }
    }
    None
}
