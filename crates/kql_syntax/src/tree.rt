//! The trees of expressions. A chain of one level is a list, so depth is bounded by brackets.
//!
//! Each place is that of the first byte of a token: of the name, literal, word or sign that it stands beside.

use kql_cells::KText;
use kql_items::{Boxed, Items};
use kql_lexer::{Keyword, Place};

/// A word as it is written, reserved or not.
#[derive(Drop)]
pub struct Word {
    pub place: Place,
    pub text: KText,
}

/// A name of a column or table.
#[derive(Drop)]
pub enum Name {
    /// A word that is not reserved.
    Bare(Word),
    /// A string in square brackets, at the place of the `[`.
    Quoted(Place, KText),
}

/// A literal at its place.
#[derive(Drop)]
pub enum Literal {
    /// A whole number, not below 0.
    Number(Place, i64),
    /// A timespan in ticks of 100 ns, not below 0.
    Span(Place, i64),
    /// A string without its signs, its escapes resolved.
    Text(Place, KText),
    True(Place),
    False(Place),
    /// At the place of its type word: the keyword of that word, and the raw text between its brackets.
    Typed(Place, Keyword, KText),
}

/// An expression: terms joined by `or`, each after the first with the place of its word.
#[cycle(syntax)]
#[derive(Drop)]
pub struct Expr {
    pub first: And,
    pub more: Items<(Place, And)>,
}

/// Terms joined by `and`, each after the first with the place of its word.
#[cycle(syntax)]
#[derive(Drop)]
pub struct And {
    pub first: Cmp,
    pub more: Items<(Place, Cmp)>,
}

/// A sum, compared or not.
#[cycle(syntax)]
#[derive(Drop)]
pub enum Cmp {
    Plain(Sum),
    /// The left side and the right one.
    Compared(Sum, CompareSign, Boxed<Sum>),
    /// What is looked for, and the list, which is not empty.
    In(Sum, InSign, Items<Expr>),
    /// What is compared, and the lower and the upper bound.
    Between(Sum, BetweenSign, Boxed<(Sum, Sum)>),
}

/// Products, each after the first with its sign.
#[cycle(syntax)]
#[derive(Drop)]
pub struct Sum {
    pub first: Prod,
    pub more: Items<(SumSign, Prod)>,
}

/// Signed terms, each after the first with its sign.
#[cycle(syntax)]
#[derive(Drop)]
pub struct Prod {
    pub first: Sign,
    pub more: Items<(ProdSign, Sign)>,
}

/// A term without a minus, or with one and its place.
#[cycle(syntax)]
#[derive(Drop)]
pub enum Sign {
    Plain(Post),
    Minus(Place, Post),
}

/// A term, with what stands after it.
#[cycle(syntax)]
#[derive(Drop)]
pub struct Post {
    pub first: Term,
    pub more: Items<Access>,
}

/// An entry by name, with the place of the `.`, or an element, with the place of the `[`.
#[cycle(syntax)]
#[derive(Drop)]
pub enum Access {
    Entry(Place, Word),
    Element(Place, Boxed<Expr>),
}

/// A term.
#[cycle(syntax)]
#[derive(Drop)]
pub enum Term {
    Literal(Literal),
    Name(Name),
    /// A function's name and its arguments, of which there may be none.
    Call(Word, Items<Arg>),
    /// An expression in brackets, with the place of the `(`.
    Group(Place, Boxed<Expr>),
}

/// An argument of a call: an expression, or a `*` with its place.
#[cycle(syntax)]
#[derive(Drop)]
pub enum Arg {
    Plain(Expr),
    Star(Place),
}

/// A sign or word of comparison with its place; that of a negated word is its `!`.
#[derive(Clone, Copy)]
pub struct CompareSign {
    pub place: Place,
    pub op: CompareOp,
}

/// How two sums are compared. The words are those of their names, those with `Not` after a `!`.
#[derive(Clone, Copy, PartialEq, Eq)]
pub enum CompareOp {
    Equal,
    NotEqual,
    /// `=~`
    Alike,
    /// `!~`
    NotAlike,
    Less,
    LessEqual,
    Greater,
    GreaterEqual,
    Contains,
    ContainsCs,
    Startswith,
    StartswithCs,
    Endswith,
    EndswithCs,
    Has,
    HasCs,
    NotContains,
    NotContainsCs,
    NotStartswith,
    NotStartswithCs,
    NotEndswith,
    NotEndswithCs,
    NotHas,
    NotHasCs,
    /// `matches regex`, at the place of `matches`.
    MatchesRegex,
}

/// `in`, `in~`, `!in` or `!in~` with its place; that of a negated word is its `!`.
#[derive(Clone, Copy)]
pub struct InSign {
    pub place: Place,
    pub op: InOp,
}

/// How a value is looked for in a list; `~` is without regard to case.
#[derive(Clone, Copy, PartialEq, Eq)]
pub enum InOp {
    In,
    InTilde,
    NotIn,
    NotInTilde,
}

/// `between` or `!between` with its place; that of a negated word is its `!`.
#[derive(Clone, Copy)]
pub struct BetweenSign {
    pub place: Place,
    pub op: BetweenOp,
}

/// Whether a value lies within its bounds, or not.
#[derive(Clone, Copy, PartialEq, Eq)]
pub enum BetweenOp {
    Between,
    NotBetween,
}

/// `+` or `-` between two products, with its place.
#[derive(Clone, Copy)]
pub struct SumSign {
    pub place: Place,
    pub op: SumOp,
}

/// What is done with a product of a sum.
#[derive(Clone, Copy, PartialEq, Eq)]
pub enum SumOp {
    Plus,
    Minus,
}

/// `*`, `/` or `%` with its place.
#[derive(Clone, Copy)]
pub struct ProdSign {
    pub place: Place,
    pub op: ProdOp,
}

/// What is done with a factor of a product.
#[derive(Clone, Copy, PartialEq, Eq)]
pub enum ProdOp {
    Times,
    Over,
    Modulo,
}
