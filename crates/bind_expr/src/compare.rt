//! Comparisons of two operands, of a value and a list, and of a value and its bounds.
ghost use Rattle.std.specs.Prelude.{◌≡◌, ◌∷◌, [], Ok};
ghost use Rattle.bind_expr.specs.Outcome.{Answers};
ghost use Rattle.bind_expr.specs.Bound.{minus_node, negated, operand_link};
ghost use Rattle.bind_expr.specs.Comparisons.{among_func, among_kind, between_func, between_node, bounded, common_among, compare_func, compare_node, compared, in_node, is_of_any_type, listed, search};
ghost use Rattle.bind_expr.specs.Operands.{beside, kinds_of, operands_call};

use crate::arguments::Args;
use crate::fault::BindFault;
use crate::operands::{
    args_beside, beside, common_of, common_of_three, one_call, three_call, two_call, typed_call,
};
use crate::typed::{Operands, Typed};
use kql_cells::Kind;
use kql_functions::{ArithmeticFunc, ComparisonFunc, Func, SearchFunc, SearchPlace};
use kql_items::Items;
use kql_lexer::Place;
use kql_syntax::{BetweenOp, BetweenSign, CompareOp, CompareSign, InOp, InSign};
use kql_texts::Fold;
use std::alloc::Global;

fn search(place: SearchPlace, fold: Fold, negated: bool) -> Func
    ensures { result ≡ search place fold negated }
{
    Func::Search(SearchFunc {
        place,
        fold,
        negated,
    })
}

/// The function of a sign or word; none where a pattern is called.
#[tactic(auto, unfolding(crate::specs::Comparisons::compare_func))]
pub(crate) fn compare_func(op: CompareOp) -> Option<Func>
    ensures { result ≡ compare_func op }
{
    match op {
        CompareOp::Equal => Some(Func::Comparison(ComparisonFunc::Equal)),
        CompareOp::NotEqual => Some(Func::Comparison(ComparisonFunc::NotEqual)),
        CompareOp::Alike => Some(Func::Comparison(ComparisonFunc::EqualText)),
        CompareOp::NotAlike => Some(Func::Comparison(ComparisonFunc::NotEqualText)),
        CompareOp::Less => Some(Func::Comparison(ComparisonFunc::Less)),
        CompareOp::LessEqual => Some(Func::Comparison(ComparisonFunc::AtMost)),
        CompareOp::Greater => Some(Func::Comparison(ComparisonFunc::Greater)),
        CompareOp::GreaterEqual => Some(Func::Comparison(ComparisonFunc::AtLeast)),
        CompareOp::Contains => Some(search(SearchPlace::Anywhere, Fold::Caseless, false)),
        CompareOp::ContainsCs => Some(search(SearchPlace::Anywhere, Fold::Exact, false)),
        CompareOp::Startswith => Some(search(SearchPlace::Start, Fold::Caseless, false)),
        CompareOp::StartswithCs => Some(search(SearchPlace::Start, Fold::Exact, false)),
        CompareOp::Endswith => Some(search(SearchPlace::End, Fold::Caseless, false)),
        CompareOp::EndswithCs => Some(search(SearchPlace::End, Fold::Exact, false)),
        CompareOp::Has => Some(search(SearchPlace::Term, Fold::Caseless, false)),
        CompareOp::HasCs => Some(search(SearchPlace::Term, Fold::Exact, false)),
        CompareOp::NotContains => Some(search(SearchPlace::Anywhere, Fold::Caseless, true)),
        CompareOp::NotContainsCs => Some(search(SearchPlace::Anywhere, Fold::Exact, true)),
        CompareOp::NotStartswith => Some(search(SearchPlace::Start, Fold::Caseless, true)),
        CompareOp::NotStartswithCs => Some(search(SearchPlace::Start, Fold::Exact, true)),
        CompareOp::NotEndswith => Some(search(SearchPlace::End, Fold::Caseless, true)),
        CompareOp::NotEndswithCs => Some(search(SearchPlace::End, Fold::Exact, true)),
        CompareOp::NotHas => Some(search(SearchPlace::Term, Fold::Caseless, true)),
        CompareOp::NotHasCs => Some(search(SearchPlace::Term, Fold::Exact, true)),
        CompareOp::MatchesRegex => None,
    }
}

#[tactic(auto, unfolding(crate::specs::Comparisons::is_of_any_type))]
fn is_of_any_type(op: CompareOp) -> bool
    ensures { result ≡ is_of_any_type op }
{
    match op {
        CompareOp::Equal => true,
        CompareOp::NotEqual => true,
        CompareOp::Less => true,
        CompareOp::LessEqual => true,
        CompareOp::Greater => true,
        CompareOp::GreaterEqual => true,
        _ => false,
    }
}

/// Two operands of which each is converted to a type where it is dynamic.
#[tactic(auto, using(crate::proofs::AnswerFacts::answer_steps))]
fn two_beside(
    alloc: Global,
    place: Place,
    f: Func,
    left: (Typed, Kind),
    right: (Typed, Kind),
) -> Result<Typed, BindFault>
    ensures exact { Answers result (operands_call place f (beside left.0 left.1 ∷ beside right.0 right.1 ∷ [])) }
{
    let (left, left_kind) = left;
    let (right, right_kind) = right;
    match beside(alloc, left, left_kind) {
        Ok(l) => match beside(alloc, right, right_kind) {
            Ok(r) => two_call(alloc, place, f, l, r),
            Err(fault) => {
                drop(l);
                Err(fault)
            }
        },
        Err(fault) => {
            drop(right);
            Err(fault)
        }
    }
}

#[tactic(auto, using(crate::proofs::AnswerFacts::answer_steps), unfolding(crate::specs::Comparisons::compared))]
fn compared(
    alloc: Global,
    f: Func,
    sign: CompareSign,
    left: Typed,
    right: Typed,
) -> Result<Typed, BindFault>
    ensures exact { Answers result (compared f sign left right) }
{
    if is_of_any_type(sign.op) {
        let left_kind = left.kind;
        let right_kind = right.kind;
        two_beside(alloc, sign.place, f, (left, right_kind), (right, left_kind))
    } else {
        two_beside(
            alloc,
            sign.place,
            f,
            (left, Kind::Text),
            (right, Kind::Text),
        )
    }
}

/// A comparison, or the first fault of its two sides.
#[tactic(auto, using(crate::proofs::AnswerFacts::answer_steps))]
pub(crate) fn compare_node(
    alloc: Global,
    f: Func,
    sign: CompareSign,
    left: Result<Typed, BindFault>,
    right: Result<Typed, BindFault>,
) -> Result<Typed, BindFault>
    ensures exact { Answers result (compare_node f sign left right) }
{
    match left {
        Ok(left) => match right {
            Ok(right) => compared(alloc, f, sign, left, right),
            Err(fault) => {
                drop(left);
                Err(fault)
            }
        },
        Err(fault) => {
            drop(right);
            Err(fault)
        }
    }
}

#[tactic(auto, unfolding(crate::specs::Comparisons::among_func))]
fn among_func(op: InOp) -> Func
    ensures { result ≡ among_func op }
{
    match op {
        InOp::In => Func::Comparison(ComparisonFunc::In),
        InOp::NotIn => Func::Comparison(ComparisonFunc::NotIn),
        InOp::InTilde => Func::Comparison(ComparisonFunc::InTexts),
        InOp::NotInTilde => Func::Comparison(ComparisonFunc::NotInTexts),
    }
}

#[tactic(auto, unfolding(crate::specs::Comparisons::among_kind))]
fn among_kind(op: InOp, operands: &[Typed]) -> Kind
    ensures { result ≡ among_kind op (kinds_of operands.now) }
{
    match operands {
        [] => Kind::Dynamic,
        [looked_for, ..] => match looked_for.kind {
            Kind::Dynamic => common_among(op, operands),
            _ => Kind::Dynamic,
        },
    }
}

#[tactic(auto, unfolding(crate::specs::Comparisons::common_among))]
fn common_among(op: InOp, operands: &[Typed]) -> Kind
    ensures { result ≡ common_among op (kinds_of operands.now) }
{
    match op {
        InOp::In => common_of(operands),
        InOp::NotIn => common_of(operands),
        InOp::InTilde => Kind::Text,
        InOp::NotInTilde => Kind::Text,
    }
}

/// The operands with one more, or the first fault.
#[tactic(auto, using(crate::proofs::AnswerFacts::answer_steps))]
pub(crate) fn next_operand(
    before: Result<Operands, BindFault>,
    next: Result<Typed, BindFault>,
) -> Result<Operands, BindFault>
    ensures exact { Answers result (operand_link before next) }
{
    match before {
        Ok(mut operands) => match next {
            Ok(t) => match operands.push(t) {
                Ok(_) => Ok(operands),
                Err(_) => Err(BindFault::OutOfMemory),
            },
            Err(fault) => {
                drop(operands);
                Err(fault)
            }
        },
        Err(fault) => {
            drop(next);
            Err(fault)
        }
    }
}

/// The first operand.
#[tactic(auto, using(crate::proofs::AnswerFacts::answer_steps))]
pub(crate) fn first_operand(
    alloc: Global,
    first: Result<Typed, BindFault>,
) -> Result<Operands, BindFault>
    ensures exact { Answers result (operand_link (Ok []) first) }
{
    next_operand(Ok(Items::new(alloc)), first)
}

#[tactic(auto, using(crate::proofs::OperandSteps::listed_steps, crate::proofs::AnswerFacts::answer_steps))]
fn listed(alloc: Global, sign: InSign, operands: Operands) -> Result<Typed, BindFault>
    ensures exact { Answers result (listed sign operands) }
{
    let kind = among_kind(sign.op, operands.as_slice());
    match args_beside(alloc, operands, kind) {
        Ok(args) => {
            let Args { exprs, kinds, .. } = args;
            typed_call(
                alloc,
                sign.place,
                among_func(sign.op),
                exprs,
                kinds.as_slice(),
            )
        }
        Err(fault) => Err(fault),
    }
}

/// A value looked for in a list, or the first fault of its operands.
#[tactic(auto, using(crate::proofs::AnswerFacts::answer_steps))]
pub(crate) fn in_node(
    alloc: Global,
    sign: InSign,
    operands: Result<Operands, BindFault>,
) -> Result<Typed, BindFault>
    ensures exact { Answers result (in_node sign operands) }
{
    match operands {
        Ok(operands) => listed(alloc, sign, operands),
        Err(fault) => Err(fault),
    }
}

#[tactic(auto, unfolding(crate::specs::Comparisons::between_func))]
fn between_func(op: BetweenOp) -> Func
    ensures { result ≡ between_func op }
{
    match op {
        BetweenOp::Between => Func::Comparison(ComparisonFunc::Between),
        BetweenOp::NotBetween => Func::Comparison(ComparisonFunc::NotBetween),
    }
}

#[tactic(auto, using(crate::proofs::AnswerFacts::answer_steps), unfolding(crate::specs::Comparisons::bounded))]
fn bounded(
    alloc: Global,
    sign: BetweenSign,
    value: Typed,
    low: Typed,
    high: Typed,
) -> Result<Typed, BindFault>
    ensures exact { Answers result (bounded sign value low high) }
{
    let kind = common_of_three(value.kind, low.kind, high.kind);
    match beside(alloc, value, kind) {
        Ok(value) => match beside(alloc, low, kind) {
            Ok(low) => match beside(alloc, high, kind) {
                Ok(high) => three_call(alloc, sign.place, between_func(sign.op), value, low, high),
                Err(fault) => {
                    drop(value);
                    drop(low);
                    Err(fault)
                }
            },
            Err(fault) => {
                drop(value);
                drop(high);
                Err(fault)
            }
        },
        Err(fault) => {
            drop(low);
            drop(high);
            Err(fault)
        }
    }
}

/// A value between two bounds, or the first fault of the three.
#[tactic(auto, using(crate::proofs::AnswerFacts::answer_steps))]
pub(crate) fn between_node(
    alloc: Global,
    sign: BetweenSign,
    value: Result<Typed, BindFault>,
    low: Result<Typed, BindFault>,
    high: Result<Typed, BindFault>,
) -> Result<Typed, BindFault>
    ensures exact { Answers result (between_node sign value low high) }
{
    match value {
        Ok(value) => match low {
            Ok(low) => match high {
                Ok(high) => bounded(alloc, sign, value, low, high),
                Err(fault) => {
                    drop(value);
                    drop(low);
                    Err(fault)
                }
            },
            Err(fault) => {
                drop(value);
                drop(high);
                Err(fault)
            }
        },
        Err(fault) => {
            drop(low);
            drop(high);
            Err(fault)
        }
    }
}

#[tactic(auto, using(crate::proofs::AnswerFacts::answer_steps), unfolding(crate::specs::Bound::negated))]
fn negated(alloc: Global, place: Place, t: Typed) -> Result<Typed, BindFault>
    ensures exact { Answers result (negated place t) }
{
    one_call(alloc, place, Func::Arithmetic(ArithmeticFunc::Negate), t)
}

/// A minus before a term, or the term's fault.
#[tactic(auto, using(crate::proofs::AnswerFacts::answer_steps))]
pub(crate) fn minus_node(
    alloc: Global,
    place: Place,
    next: Result<Typed, BindFault>,
) -> Result<Typed, BindFault>
    ensures exact { Answers result (minus_node place next) }
{
    match next {
        Ok(t) => negated(alloc, place, t),
        Err(fault) => Err(fault),
    }
}
