//! The readers of expressions: plain recursive descent, one function for each level of the grammar.
//!
//! A reader tells the tree of the longest tokens that begin its form and the index after them, or the index of the token
//! at which they are refused. They recur with each open bracket: look for one that opens too deep first, as `parse_expr` does.
//!
//! A reader that holds a part of an expression by itself while it reads on names the fault and lets go of the part by `drop`, which is
//! proved once for all types. With `?` the part's own drop would stand in the reader, and in its proof.

ghost use Rattle.std.specs.Prelude.{◌≡◌, ◌+◌, ◌<◌, ◌≤◌, ℕ, [], ◌∷◌, length, IfOk, IfSome, IfNone, OnSome};
ghost use Rattle.kql_syntax.specs.Leaves.{word_of};
ghost use Rattle.kql_syntax.specs.Levels.{Level, comparisons, memberships, betweens};
ghost use Rattle.kql_syntax.specs.Forms.{token, level, many, makes, mark};
ghost use Rattle.kql_syntax.specs.Derives.{Found, Missing};
ghost use Rattle.kql_syntax.specs.Grammar.{or_more, and_more, sum_more, prod_more, comparison, membership, betweenness, plus_or_minus, times_or_over, low_sum, two_sums, bounds, regex_sum, arguments, commas, round, string};
ghost use Rattle.kql_syntax.specs.Reading.{Reads};

use crate::class::{Class, has};
use crate::leaf::{
    between_sign, compare_sign, in_sign, literal_of, prod_sign, sum_sign, text_in, word_of,
};
use crate::tree::{
    Access, And, Arg, BetweenSign, Cmp, CompareOp, CompareSign, Expr, InSign, Name, Post, Prod,
    ProdSign, Sign, Sum, SumSign, Term, Word,
};
use kql_cells::KText;
use kql_items::{Boxed, Items};
use kql_lexer::{Keyword, Place, Token};
use std::alloc::{AllocError, Global};

/// Literals.
const LITERALS: [Class; 6] = [
    Class::Number,
    Class::Span,
    Class::Text,
    Class::Typed,
    Class::Key(Keyword::True),
    Class::Key(Keyword::False),
];

/// What compares two sums.
const COMPARISONS: [Class; 24] = [
    Class::Equal,
    Class::NotEqual,
    Class::Alike,
    Class::NotAlike,
    Class::Less,
    Class::LessEqual,
    Class::Greater,
    Class::GreaterEqual,
    Class::Key(Keyword::Contains),
    Class::Key(Keyword::ContainsCs),
    Class::Key(Keyword::Startswith),
    Class::Key(Keyword::StartswithCs),
    Class::Key(Keyword::Endswith),
    Class::Key(Keyword::EndswithCs),
    Class::Key(Keyword::Has),
    Class::Key(Keyword::HasCs),
    Class::Not(Keyword::Contains),
    Class::Not(Keyword::ContainsCs),
    Class::Not(Keyword::Startswith),
    Class::Not(Keyword::StartswithCs),
    Class::Not(Keyword::Endswith),
    Class::Not(Keyword::EndswithCs),
    Class::Not(Keyword::Has),
    Class::Not(Keyword::HasCs),
];

/// What asks whether a value is in a list.
const MEMBERSHIPS: [Class; 4] = [
    Class::Key(Keyword::In),
    Class::Key(Keyword::InTilde),
    Class::Not(Keyword::In),
    Class::Not(Keyword::InTilde),
];

/// What asks whether a value is between bounds.
const BETWEENS: [Class; 2] = [Class::Key(Keyword::Between), Class::Not(Keyword::Between)];

/// Why nothing was read: the token that follows the longest tokens that begin what was to be read, or want of memory.
#[derive(Clone, Copy, Debug, PartialEq, Eq)]
pub enum Fault {
    /// The index of that token, or how many tokens there are where they end before it.
    Refused(usize),
    OutOfMemory,
}

impl From<AllocError> for Fault {
    ghost use Rattle.std.specs.Prelude.{◌≡◌};
    ghost use Rattle.kql_syntax.specs.declared.reader.Fault.TheVariants.{OutOfMemory};

    ghost from_gives = { λ _ f. f ≡ OutOfMemory };

    fn from(_error: AllocError) -> Fault {
        Fault::OutOfMemory
    }
}

/// The token that stands here, where it is of one of these classes.
pub fn token_at<'a>(ts: &'a [Token], at: usize, classes: &[Class]) -> Option<&'a Token>
    ensures some { IfSome result (λ t. Found (token classes.now) ts.now at (at + 1) t.now) }
    ensures none { IfNone result (Missing ts.now at classes.now) }
    ensures within { OnSome result (at < length ts.now) }
{
    let token = ts.get(at)?;
    if has(classes, &token.form) {
        return Some(token);
    }
    None
}

/// The place of the token that stands here, where it is of one of these classes.
pub fn take(ts: &[Token], at: usize, classes: &[Class]) -> Option<Place>
    ensures some { IfSome result (λ p. Found (mark classes.now) ts.now at (at + 1) p) }
    ensures none { IfNone result (Missing ts.now at classes.now) }
    ensures within { OnSome result (at < length ts.now) }
{
    let token = token_at(ts, at, classes)?;
    Some(token.place)
}

/// The place of the token that stands here, which is to be of one of these classes, and the index after it.
pub fn expect(ts: &[Token], at: usize, classes: &[Class]) -> Result<(Place, usize), Fault>
    ensures within { IfOk result (λ r. (at < r.1) × (r.1 ≤ length ts.now)) }
    ensures read { Reads (mark classes.now) ts.now at result }
{
    match take(ts, at, classes) {
        Some(place) => Ok((place, at + 1)),
        None => Err(Fault::Refused(at)),
    }
}

/// Reads a word of one of these classes.
pub fn word(
    alloc: Global,
    ts: &[Token],
    at: usize,
    classes: &[Class],
) -> Result<(Word, usize), Fault>
    ensures within { IfOk result (λ r. (at < r.1) × (r.1 ≤ length ts.now)) }
    ensures read { Reads (makes word_of (token classes.now)) ts.now at result }
{
    match token_at(ts, at, classes) {
        Some(token) => Ok((word_of(alloc, token)?, at + 1)),
        None => Err(Fault::Refused(at)),
    }
}

/// Reads a string.
pub fn string(alloc: Global, ts: &[Token], at: usize) -> Result<(KText, usize), Fault>
    ensures within { IfOk result (λ r. (at < r.1) × (r.1 ≤ length ts.now)) }
    ensures read { Reads string ts.now at result }
{
    match token_at(ts, at, &[Class::Text]) {
        Some(token) => Ok((text_in(alloc, token)?, at + 1)),
        None => Err(Fault::Refused(at)),
    }
}

/// The comparison that stands here.
fn comparison(ts: &[Token], at: usize) -> Option<CompareSign>
    ensures some { IfSome result (λ x. Found comparison ts.now at (at + 1) x) }
    ensures none { IfNone result (Missing ts.now at comparisons) }
    ensures within { OnSome result (at < length ts.now) }
{
    let token = token_at(ts, at, &COMPARISONS)?;
    Some(compare_sign(token))
}

/// The `in` or its like that stands here.
fn membership(ts: &[Token], at: usize) -> Option<InSign>
    ensures some { IfSome result (λ x. Found membership ts.now at (at + 1) x) }
    ensures none { IfNone result (Missing ts.now at memberships) }
    ensures within { OnSome result (at < length ts.now) }
{
    let token = token_at(ts, at, &MEMBERSHIPS)?;
    Some(in_sign(token))
}

/// The `between` or `!between` that stands here.
fn betweenness(ts: &[Token], at: usize) -> Option<BetweenSign>
    ensures some { IfSome result (λ x. Found betweenness ts.now at (at + 1) x) }
    ensures none { IfNone result (Missing ts.now at betweens) }
    ensures within { OnSome result (at < length ts.now) }
{
    let token = token_at(ts, at, &BETWEENS)?;
    Some(between_sign(token))
}

/// The `+` or `-` that stands here.
fn plus_or_minus(ts: &[Token], at: usize) -> Option<SumSign>
    ensures some { IfSome result (λ x. Found plus_or_minus ts.now at (at + 1) x) }
    ensures none { IfNone result (Missing ts.now at (Class.Plus ∷ Class.Minus ∷ [])) }
    ensures within { OnSome result (at < length ts.now) }
{
    let token = token_at(ts, at, &[Class::Plus, Class::Minus])?;
    Some(sum_sign(token))
}

/// The `*`, `/` or `%` that stands here.
fn times_or_over(ts: &[Token], at: usize) -> Option<ProdSign>
    ensures some { IfSome result (λ x. Found times_or_over ts.now at (at + 1) x) }
    ensures none { IfNone result (Missing ts.now at (Class.Star ∷ Class.Slash ∷ Class.Percent ∷ [])) }
    ensures within { OnSome result (at < length ts.now) }
{
    let token = token_at(ts, at, &[Class::Star, Class::Slash, Class::Percent])?;
    Some(prod_sign(token))
}

/// Reads an expression.
#[cycle(read)]
pub fn expr(alloc: Global, ts: &[Token], at: usize) -> Result<(Expr, usize), Fault>
    requires { at ≤ length ts.now }
    ensures within { IfOk result (λ r. (at < r.1) × (r.1 ≤ length ts.now)) }
    ensures read { Reads (level Level.Expr) ts.now at result }
{
    let (first, start) = and(alloc, ts, at)?;
    match or_more(alloc, ts, start) {
        Ok((more, end)) => Ok((Expr { first, more }, end)),
        Err(fault) => {
            drop(first);
            Err(fault)
        }
    }
}

/// Reads an expression into a box.
#[cycle(read)]
fn boxed_expr(alloc: Global, ts: &[Token], at: usize) -> Result<(Boxed<Expr>, usize), Fault>
    requires { at ≤ length ts.now }
    ensures within { IfOk result (λ r. (at < r.1) × (r.1 ≤ length ts.now)) }
    ensures read { Reads (level Level.Expr) ts.now at result }
{
    let (tree, end) = expr(alloc, ts, at)?;
    Ok((Boxed::new(alloc, tree)?, end))
}

/// Reads further terms of an `or`.
#[cycle(read)]
fn or_more(alloc: Global, ts: &[Token], at: usize) -> Result<(Items<(Place, And)>, usize), Fault>
    requires { at ≤ length ts.now }
    ensures within { IfOk result (λ r. (at ≤ r.1) × (r.1 ≤ length ts.now)) }
    ensures read { Reads (many or_more) ts.now at result }
{
    let mut more = Items::new(alloc);
    let mut end = at;
    'chain: while let Some(word) = take(ts, end, &[Class::Key(Keyword::Or)]) {
        let (term, next) = and(alloc, ts, end + 1)?;
        more.push((word, term))?;
        end = next;
    }
    Ok((more, end))
}

/// Reads terms joined by `and`.
#[cycle(read)]
fn and(alloc: Global, ts: &[Token], at: usize) -> Result<(And, usize), Fault>
    requires { at ≤ length ts.now }
    ensures within { IfOk result (λ r. (at < r.1) × (r.1 ≤ length ts.now)) }
    ensures read { Reads (level Level.And) ts.now at result }
{
    let (first, start) = cmp(alloc, ts, at)?;
    match and_more(alloc, ts, start) {
        Ok((more, end)) => Ok((And { first, more }, end)),
        Err(fault) => {
            drop(first);
            Err(fault)
        }
    }
}

/// Reads further terms of an `and`.
#[cycle(read)]
fn and_more(alloc: Global, ts: &[Token], at: usize) -> Result<(Items<(Place, Cmp)>, usize), Fault>
    requires { at ≤ length ts.now }
    ensures within { IfOk result (λ r. (at ≤ r.1) × (r.1 ≤ length ts.now)) }
    ensures read { Reads (many and_more) ts.now at result }
{
    let mut more = Items::new(alloc);
    let mut end = at;
    'chain: while let Some(word) = take(ts, end, &[Class::Key(Keyword::And)]) {
        let (term, next) = cmp(alloc, ts, end + 1)?;
        more.push((word, term))?;
        end = next;
    }
    Ok((more, end))
}

/// Reads a sum, compared or not.
#[cycle(read)]
fn cmp(alloc: Global, ts: &[Token], at: usize) -> Result<(Cmp, usize), Fault>
    requires { at ≤ length ts.now }
    ensures within { IfOk result (λ r. (at < r.1) × (r.1 ≤ length ts.now)) }
    ensures read { Reads (level Level.Cmp) ts.now at result }
{
    let (left, start) = sum(alloc, ts, at)?;
    if let Some(sign) = comparison(ts, start) {
        return match boxed_sum(alloc, ts, start + 1) {
            Ok((right, end)) => Ok((Cmp::Compared(left, sign, right), end)),
            Err(fault) => {
                drop(left);
                Err(fault)
            }
        };
    }
    if let Some(place) = take(ts, start, &[Class::Key(Keyword::Matches)]) {
        let op = CompareOp::MatchesRegex;
        return match regex_sum(alloc, ts, start + 1) {
            Ok((pattern, end)) => Ok((
                Cmp::Compared(left, CompareSign { place, op }, pattern),
                end,
            )),
            Err(fault) => {
                drop(left);
                Err(fault)
            }
        };
    }
    if let Some(sign) = membership(ts, start) {
        return match round_exprs(alloc, ts, start + 1) {
            Ok((list, end)) => Ok((Cmp::In(left, sign, list), end)),
            Err(fault) => {
                drop(left);
                Err(fault)
            }
        };
    }
    if let Some(sign) = betweenness(ts, start) {
        return match bounds(alloc, ts, start + 1) {
            Ok((both, end)) => Ok((Cmp::Between(left, sign, both), end)),
            Err(fault) => {
                drop(left);
                Err(fault)
            }
        };
    }
    Ok((Cmp::Plain(left), start))
}

/// Reads `regex` and a sum.
#[cycle(read)]
fn regex_sum(alloc: Global, ts: &[Token], at: usize) -> Result<(Boxed<Sum>, usize), Fault>
    requires { at ≤ length ts.now }
    ensures within { IfOk result (λ r. (at < r.1) × (r.1 ≤ length ts.now)) }
    ensures read { Reads regex_sum ts.now at result }
{
    let (_regex, start) = expect(ts, at, &[Class::Key(Keyword::Regex)])?;
    let (pattern, end) = boxed_sum(alloc, ts, start)?;
    Ok((pattern, end))
}

/// Reads a list of expressions in brackets.
#[cycle(read)]
fn round_exprs(alloc: Global, ts: &[Token], at: usize) -> Result<(Items<Expr>, usize), Fault>
    requires { at ≤ length ts.now }
    ensures within { IfOk result (λ r. (at < r.1) × (r.1 ≤ length ts.now)) }
    ensures read { Reads (round (commas (level Level.Expr))) ts.now at result }
{
    let (_open, start) = expect(ts, at, &[Class::Open])?;
    let (list, k) = exprs(alloc, ts, start)?;
    let (_close, end) = expect(ts, k, &[Class::Close])?;
    Ok((list, end))
}

/// Reads a list of expressions.
#[cycle(read)]
fn exprs(alloc: Global, ts: &[Token], at: usize) -> Result<(Items<Expr>, usize), Fault>
    requires { at ≤ length ts.now }
    ensures within { IfOk result (λ r. (at < r.1) × (r.1 ≤ length ts.now)) }
    ensures read { Reads (commas (level Level.Expr)) ts.now at result }
{
    let mut items = Items::new(alloc);
    let (first, start) = expr(alloc, ts, at)?;
    items.push(first)?;
    let mut end = start;
    'list: while let Some(_between) = take(ts, end, &[Class::Comma]) {
        let (item, next) = expr(alloc, ts, end + 1)?;
        items.push(item)?;
        end = next;
    }
    Ok((items, end))
}

/// Reads two sums in brackets.
#[cycle(read)]
fn bounds(alloc: Global, ts: &[Token], at: usize) -> Result<(Boxed<(Sum, Sum)>, usize), Fault>
    requires { at ≤ length ts.now }
    ensures within { IfOk result (λ r. (at < r.1) × (r.1 ≤ length ts.now)) }
    ensures read { Reads (bounds) ts.now at result }
{
    let (_open, start) = expect(ts, at, &[Class::Open])?;
    let (both, k) = two_sums(alloc, ts, start)?;
    let (_close, end) = expect(ts, k, &[Class::Close])?;
    Ok((both, end))
}

/// Reads two sums with `..` between them.
#[cycle(read)]
fn two_sums(alloc: Global, ts: &[Token], at: usize) -> Result<(Boxed<(Sum, Sum)>, usize), Fault>
    requires { at ≤ length ts.now }
    ensures within { IfOk result (λ r. (at < r.1) × (r.1 ≤ length ts.now)) }
    ensures read { Reads (two_sums) ts.now at result }
{
    let (low, start) = low_sum(alloc, ts, at)?;
    match sum(alloc, ts, start) {
        Ok((high, end)) => Ok((Boxed::new(alloc, (low, high))?, end)),
        Err(fault) => {
            drop(low);
            Err(fault)
        }
    }
}

/// Reads a sum and a `..`.
#[cycle(read)]
fn low_sum(alloc: Global, ts: &[Token], at: usize) -> Result<(Sum, usize), Fault>
    requires { at ≤ length ts.now }
    ensures within { IfOk result (λ r. (at < r.1) × (r.1 ≤ length ts.now)) }
    ensures read { Reads (low_sum) ts.now at result }
{
    let (low, k) = sum(alloc, ts, at)?;
    match expect(ts, k, &[Class::DotDot]) {
        Ok((_dots, end)) => Ok((low, end)),
        Err(fault) => {
            drop(low);
            Err(fault)
        }
    }
}

/// Reads a sum.
#[cycle(read)]
fn sum(alloc: Global, ts: &[Token], at: usize) -> Result<(Sum, usize), Fault>
    requires { at ≤ length ts.now }
    ensures within { IfOk result (λ r. (at < r.1) × (r.1 ≤ length ts.now)) }
    ensures read { Reads (level Level.Sum) ts.now at result }
{
    let (first, start) = prod(alloc, ts, at)?;
    match sum_more(alloc, ts, start) {
        Ok((more, end)) => Ok((Sum { first, more }, end)),
        Err(fault) => {
            drop(first);
            Err(fault)
        }
    }
}

/// Reads a sum into a box.
#[cycle(read)]
fn boxed_sum(alloc: Global, ts: &[Token], at: usize) -> Result<(Boxed<Sum>, usize), Fault>
    requires { at ≤ length ts.now }
    ensures within { IfOk result (λ r. (at < r.1) × (r.1 ≤ length ts.now)) }
    ensures read { Reads (level Level.Sum) ts.now at result }
{
    let (tree, end) = sum(alloc, ts, at)?;
    Ok((Boxed::new(alloc, tree)?, end))
}

/// Reads further terms of a sum.
#[cycle(read)]
fn sum_more(
    alloc: Global,
    ts: &[Token],
    at: usize,
) -> Result<(Items<(SumSign, Prod)>, usize), Fault>
    requires { at ≤ length ts.now }
    ensures within { IfOk result (λ r. (at ≤ r.1) × (r.1 ≤ length ts.now)) }
    ensures read { Reads (many sum_more) ts.now at result }
{
    let mut more = Items::new(alloc);
    let mut end = at;
    'chain: while let Some(sign) = plus_or_minus(ts, end) {
        let (term, next) = prod(alloc, ts, end + 1)?;
        more.push((sign, term))?;
        end = next;
    }
    Ok((more, end))
}

/// Reads a product.
#[cycle(read)]
fn prod(alloc: Global, ts: &[Token], at: usize) -> Result<(Prod, usize), Fault>
    requires { at ≤ length ts.now }
    ensures within { IfOk result (λ r. (at < r.1) × (r.1 ≤ length ts.now)) }
    ensures read { Reads (level Level.Prod) ts.now at result }
{
    let (first, start) = sign(alloc, ts, at)?;
    match prod_more(alloc, ts, start) {
        Ok((more, end)) => Ok((Prod { first, more }, end)),
        Err(fault) => {
            drop(first);
            Err(fault)
        }
    }
}

/// Reads further factors.
#[cycle(read)]
fn prod_more(
    alloc: Global,
    ts: &[Token],
    at: usize,
) -> Result<(Items<(ProdSign, Sign)>, usize), Fault>
    requires { at ≤ length ts.now }
    ensures within { IfOk result (λ r. (at ≤ r.1) × (r.1 ≤ length ts.now)) }
    ensures read { Reads (many prod_more) ts.now at result }
{
    let mut more = Items::new(alloc);
    let mut end = at;
    'chain: while let Some(symbol) = times_or_over(ts, end) {
        let (term, next) = sign(alloc, ts, end + 1)?;
        more.push((symbol, term))?;
        end = next;
    }
    Ok((more, end))
}

/// Reads a signed term.
#[cycle(read)]
fn sign(alloc: Global, ts: &[Token], at: usize) -> Result<(Sign, usize), Fault>
    requires { at ≤ length ts.now }
    ensures within { IfOk result (λ r. (at < r.1) × (r.1 ≤ length ts.now)) }
    ensures read { Reads (level Level.Sign) ts.now at result }
{
    if let Some(minus) = take(ts, at, &[Class::Minus]) {
        let (term, end) = post(alloc, ts, at + 1)?;
        return Ok((Sign::Minus(minus, term), end));
    }
    let (term, end) = post(alloc, ts, at)?;
    Ok((Sign::Plain(term), end))
}

/// Reads a term with what stands after it.
#[cycle(read)]
fn post(alloc: Global, ts: &[Token], at: usize) -> Result<(Post, usize), Fault>
    requires { at ≤ length ts.now }
    ensures within { IfOk result (λ r. (at < r.1) × (r.1 ≤ length ts.now)) }
    ensures read { Reads (level Level.Post) ts.now at result }
{
    let (first, start) = term(alloc, ts, at)?;
    let (more, end) = accesses(alloc, ts, start)?;
    Ok((Post { first, more }, end))
}

/// Reads entries and elements.
#[cycle(read)]
fn accesses(alloc: Global, ts: &[Token], at: usize) -> Result<(Items<Access>, usize), Fault>
    requires { at ≤ length ts.now }
    ensures within { IfOk result (λ r. (at ≤ r.1) × (r.1 ≤ length ts.now)) }
    ensures read { Reads (many (level Level.Access)) ts.now at result }
{
    let mut more = Items::new(alloc);
    let mut end = at;
    'chain: while let Some(_start) = take(ts, end, &[Class::Dot, Class::OpenSquare]) {
        let (term, next) = access(alloc, ts, end)?;
        more.push(term)?;
        end = next;
    }
    Ok((more, end))
}

/// Reads an entry or an element.
#[cycle(read)]
fn access(alloc: Global, ts: &[Token], at: usize) -> Result<(Access, usize), Fault>
    requires { at ≤ length ts.now }
    ensures within { IfOk result (λ r. (at < r.1) × (r.1 ≤ length ts.now)) }
    ensures read { Reads (level Level.Access) ts.now at result }
{
    if let Some(dot) = take(ts, at, &[Class::Dot]) {
        let (entry, end) = word(alloc, ts, at + 1, &[Class::Word])?;
        return Ok((Access::Entry(dot, entry), end));
    }
    let (open, start) = expect(ts, at, &[Class::OpenSquare])?;
    let (index, k) = boxed_expr(alloc, ts, start)?;
    let (_close, end) = expect(ts, k, &[Class::CloseSquare])?;
    Ok((Access::Element(open, index), end))
}

/// Reads a term.
#[cycle(read)]
fn term(alloc: Global, ts: &[Token], at: usize) -> Result<(Term, usize), Fault>
    requires { at ≤ length ts.now }
    ensures within { IfOk result (λ r. (at < r.1) × (r.1 ≤ length ts.now)) }
    ensures read { Reads (level Level.Term) ts.now at result }
{
    if let Some(token) = token_at(ts, at, &LITERALS) {
        return Ok((Term::Literal(literal_of(alloc, token)?), at + 1));
    }
    if let Some(token) = token_at(ts, at, &[Class::Name]) {
        let word = word_of(alloc, token)?;
        if let Some(_open) = take(ts, at + 1, &[Class::Open]) {
            let (args, end) = arguments(alloc, ts, at + 1)?;
            return Ok((Term::Call(word, args), end));
        }
        return Ok((Term::Name(Name::Bare(word)), at + 1));
    }
    if let Some(_quote) = take(ts, at, &[Class::OpenSquare]) {
        let (name, end) = name(alloc, ts, at)?;
        return Ok((Term::Name(name), end));
    }
    let (open, start) = expect(ts, at, &[Class::Open])?;
    let (inner, k) = boxed_expr(alloc, ts, start)?;
    let (_close, end) = expect(ts, k, &[Class::Close])?;
    Ok((Term::Group(open, inner), end))
}

/// Reads arguments in brackets.
#[cycle(read)]
fn arguments(alloc: Global, ts: &[Token], at: usize) -> Result<(Items<Arg>, usize), Fault>
    requires { at ≤ length ts.now }
    ensures within { IfOk result (λ r. (at < r.1) × (r.1 ≤ length ts.now)) }
    ensures read { Reads (arguments) ts.now at result }
{
    let (_open, start) = expect(ts, at, &[Class::Open])?;
    if let Some(_close) = take(ts, start, &[Class::Close]) {
        return Ok((Items::new(alloc), start + 1));
    }
    let (args, k) = args(alloc, ts, start)?;
    let (_close, end) = expect(ts, k, &[Class::Close])?;
    Ok((args, end))
}

/// Reads arguments.
#[cycle(read)]
fn args(alloc: Global, ts: &[Token], at: usize) -> Result<(Items<Arg>, usize), Fault>
    requires { at ≤ length ts.now }
    ensures within { IfOk result (λ r. (at < r.1) × (r.1 ≤ length ts.now)) }
    ensures read { Reads (commas (level Level.Arg)) ts.now at result }
{
    let mut items = Items::new(alloc);
    let (first, start) = arg(alloc, ts, at)?;
    items.push(first)?;
    let mut end = start;
    'list: while let Some(_between) = take(ts, end, &[Class::Comma]) {
        let (item, next) = arg(alloc, ts, end + 1)?;
        items.push(item)?;
        end = next;
    }
    Ok((items, end))
}

/// Reads an argument.
#[cycle(read)]
fn arg(alloc: Global, ts: &[Token], at: usize) -> Result<(Arg, usize), Fault>
    requires { at ≤ length ts.now }
    ensures within { IfOk result (λ r. (at < r.1) × (r.1 ≤ length ts.now)) }
    ensures read { Reads (level Level.Arg) ts.now at result }
{
    if let Some(star) = take(ts, at, &[Class::Star]) {
        return Ok((Arg::Star(star), at + 1));
    }
    let (value, end) = expr(alloc, ts, at)?;
    Ok((Arg::Plain(value), end))
}

/// Reads a name.
pub fn name(alloc: Global, ts: &[Token], at: usize) -> Result<(Name, usize), Fault>
    requires { at ≤ length ts.now }
    ensures within { IfOk result (λ r. (at < r.1) × (r.1 ≤ length ts.now)) }
    ensures read { Reads (level Level.Name) ts.now at result }
{
    if let Some(token) = token_at(ts, at, &[Class::Name]) {
        return Ok((Name::Bare(word_of(alloc, token)?), at + 1));
    }
    let (open, start) = expect(ts, at, &[Class::OpenSquare])?;
    let (text, k) = string(alloc, ts, start)?;
    let (_close, end) = expect(ts, k, &[Class::CloseSquare])?;
    Ok((Name::Quoted(open, text), end))
}
