ghost use Rattle.std.specs.Prelude.{◌≡◌, [], IfOk, map};
ghost use Rattle.bind_expr.specs.Names.{text_of};
ghost use Rattle.bind_expr.specs.Outcome.{Answers};
ghost use Rattle.kql_bound.specs.declared.plan.Op.TheVariants as Op;
ghost use Rattle.kql_meaning.specs.Parse.{parse_columns, pattern_columns};
ghost use Rattle.kql_meaning.specs.Tables.{names_of};
ghost use Rattle.bind_operators.specs.Answers.{answer};
ghost use Rattle.bind_operators.specs.Faults.{each_bound, unless};
ghost use Rattle.bind_operators.specs.Items.{names_twice};
ghost use Rattle.bind_groups.specs.Names.{written};
ghost use Rattle.bind_groups.specs.Parse.{is_relaxed, parse_bound, parse_plan, parsed, pat_bound, pattern_names};

use crate::kinds::bind_kind_or;
use crate::written_names::{WrittenNames, first_written_twice, none_written, with_written};
use bind_expr::{BindFault, Typed};
use bind_operators::{
    BoundOp, Known, Shape, Wanted, answered, bind_typed, scope_at, text_of, with_next,
};
use kql_bound::{Op, ParsePlan, PatItem, Pattern};
use kql_cells::{Kind, Schema};
use kql_columns::parse_columns;
use kql_items::Items;
use kql_lexer::Place;
use kql_meaning::Position;
use kql_syntax::{Expr, ParseKind, Pat};
use std::alloc::{AllocError, Global};

#[tactic(auto, unfolding(crate::specs::Parse::is_relaxed))]
fn is_relaxed(form: Option<ParseKind>) -> bool
    ensures relaxed { result ≡ is_relaxed form }
{
    match form {
        None => false,
        Some(ParseKind::Simple(_)) => false,
        Some(ParseKind::Relaxed(_)) => true,
    }
}

// Patterns.

#[tactic(auto, using(bind_expr::proofs::AnswerFacts::answer_steps, bind_operators::proofs::AnswerSteps::bind_steps), unfolding(crate::specs::Parse::pat_bound))]
fn bind_pat(alloc: Global, p: &Pat) -> Result<PatItem, BindFault>
    ensures exact { Answers result (pat_bound p.now) }
{
    match p {
        Pat::Star(_) => Ok(PatItem::Star),
        Pat::Text(_, text) => match text.copy(alloc) {
            Ok(text) => Ok(PatItem::Literal(text)),
            Err(_) => Err(BindFault::OutOfMemory),
        },
        Pat::Column(n, word) => match bind_kind_or(Kind::Text, word) {
            Ok(kind) => match text_of(n).copy(alloc) {
                Ok(name) => Ok(PatItem::Column { name, kind }),
                Err(_) => Err(BindFault::OutOfMemory),
            },
            Err(fault) => Err(fault),
        },
    }
}

#[tactic(auto, using(bind_operators::proofs::AnswerSteps::each_steps))]
fn bind_pattern(alloc: Global, pattern: &[Pat]) -> Result<Pattern, BindFault>
    ensures exact { Answers result (each_bound pat_bound pattern.now) }
{
    let mut bound = Ok(Items::new(alloc));
    'each: for p in pattern {
        let item = bind_pat(alloc, p);
        bound = with_next(bound, item);
    }
    bound
}

// The names of a pattern's columns.
#[tactic(auto, unfolding(crate::specs::Parse::pattern_names, crate::specs::Names::written))]
fn names_in(alloc: Global, pattern: &[Pat]) -> Result<WrittenNames, AllocError>
    ensures names { IfOk result (λ w. w ≡ written (pattern_names pattern.now)) }
{
    let mut names = none_written(alloc);
    let mut left = pattern;
    'each: while let Some((p, more)) = left.split_first() {
        match p {
            Pat::Star(_) => {}
            Pat::Text(_, _) => {}
            Pat::Column(n, _) => names = with_written(alloc, names, n)?,
        }
        left = more;
    }
    Ok(names)
}

#[tactic(auto, using(bind_expr::proofs::AnswerFacts::answer_steps, crate::proofs::NameSteps::written_steps))]
fn pattern_once(alloc: Global, pattern: &[Pat]) -> Result<(), BindFault>
    ensures exact { Answers result (unless (names_twice [] (pattern_names pattern.now)) tt) }
{
    match names_in(alloc, pattern) {
        Ok(names) => first_written_twice(
            alloc,
            Items::new(alloc),
            names.places.as_slice(),
            names.texts.as_slice(),
        ),
        Err(_) => Err(BindFault::OutOfMemory),
    }
}

// The operator.

#[tactic(auto, unfolding(crate::specs::Parse::parse_plan))]
fn parse_plan(form: Option<ParseKind>, text: Typed, pattern: Pattern) -> ParsePlan
    ensures plan { result ≡ parse_plan form text pattern }
{
    ParsePlan {
        relaxed: is_relaxed(form),
        text: text.expr.into_inner(),
        pattern,
    }
}

// What is parsed, where no two columns of the pattern have one name.
#[tactic(auto, using(bind_expr::proofs::AnswerFacts::answer_steps, crate::proofs::ParseLaws::column_steps))]
fn parse_made(
    alloc: Global,
    operator: Place,
    rows: Shape,
    pattern: &[Pat],
    plan: ParsePlan,
) -> Result<BoundOp, BindFault>
    requires names { names_of (pattern_columns plan.pattern) ≡ map text_of (pattern_names pattern.now) }
    requires once { names_twice [] (pattern_names pattern.now) ≡ [] }
    ensures exact { Answers result (answer operator [] (Op.Parse plan) (parse_columns plan rows.columns) rows.serial) }
{
    match parse_columns(alloc, &plan, rows.columns.columns()) {
        Ok(columns) => answered(
            alloc,
            operator,
            Op::Parse(plan),
            Schema::from_items(columns),
            rows.serial,
        ),
        Err(_) => {
            drop(plan);
            Err(BindFault::OutOfMemory)
        }
    }
}

#[tactic(auto, using(bind_operators::proofs::AnswerSteps::after_steps), unfolding(crate::specs::Parse::parsed))]
fn parsed(
    alloc: Global,
    operator: Place,
    rows: Shape,
    pattern: &[Pat],
    plan: ParsePlan,
) -> Result<BoundOp, BindFault>
    requires names { names_of (pattern_columns plan.pattern) ≡ map text_of (pattern_names pattern.now) }
    ensures exact { Answers result (parsed operator rows pattern.now plan) }
{
    match pattern_once(alloc, pattern) {
        Ok(()) => parse_made(alloc, operator, rows, pattern, plan),
        Err(fault) => {
            drop(plan);
            drop(rows);
            Err(fault)
        }
    }
}

/// `parse`.
#[tactic(auto, using(bind_expr::proofs::AnswerFacts::answer_steps, bind_operators::proofs::AnswerSteps::bind_steps, crate::proofs::ParseLaws::pattern_steps), unfolding(crate::specs::Parse::parse_bound))]
pub fn bind_parse(
    alloc: Global,
    operator: Place,
    form: Option<ParseKind>,
    e: &Expr,
    pattern: &[Pat],
    known: &Known,
    rows: Shape,
) -> Result<BoundOp, BindFault>
    ensures exact { Answers result (parse_bound operator form e.now pattern.now known.now rows) }
{
    match scope_at(alloc, known, &rows, Position::Plain) {
        Ok(scope) => match bind_typed(alloc, Wanted::Is(Kind::Text), e, &scope) {
            Ok(text) => match bind_pattern(alloc, pattern) {
                Ok(items) => parsed(
                    alloc,
                    operator,
                    rows,
                    pattern,
                    parse_plan(form, text, items),
                ),
                Err(fault) => {
                    drop(text);
                    Err(fault)
                }
            },
            Err(fault) => Err(fault),
        },
        Err(_) => Err(BindFault::OutOfMemory),
    }
}
