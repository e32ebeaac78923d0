//! Let statements: each names a table or a constant for those behind it.
ghost use Rattle.std.specs.Prelude.{◌≡◌, IfOk, option_copied};
ghost use Rattle.bind_expr.specs.Names.{text_of};
ghost use Rattle.bind_expr.specs.Outcome.{Answers};
ghost use Rattle.bind_operators.specs.Known.{table_named};
ghost use Rattle.bind_query.specs.Bound.{lets_bound, next_let, no_statements};
ghost use Rattle.bind_query.specs.Lets.{body_bound, constant_let, constant_named, is_let_name, let_bound, name_alone, name_let, named_constant, pipe_let, source_name, table_let, with_constant, with_table};

use crate::bound::BoundStatements;
use crate::pipes::bind_pipe;
use bind_expr::{BindFault, Const, bind_name};
use bind_operators::{
    BoundPlan, Known, LetTable, Wanted, bind_constant, constant_wanted, is_constant_name,
    let_numbered, name_place, no_rows, or_lost, scope_at, table_named, text_of,
};
use kql_bound::Lit;
use kql_cells::KText;
use kql_items::Items;
use kql_lexer::Place;
use kql_meaning::Position;
use kql_syntax::{Let, LetBody, Name, Pipe, Source};
use std::alloc::{AllocError, Global};

// The name that a pipe is, where it is one alone.

#[tactic(auto, using(crate::proofs::LetSteps::source_steps))]
fn name_of_source(source: &Source) -> Option<&Name>
    ensures name { option_copied result ≡ source_name source.now }
{
    match source {
        Source::Table(n) => Some(n),
        Source::Range(_, _) => None,
        Source::Print(_, _) => None,
        Source::Union(_, _) => None,
    }
}

#[tactic(auto, using(crate::proofs::LetSteps::alone_steps))]
fn name_alone(p: &Pipe) -> Option<&Name>
    ensures name { option_copied result ≡ name_alone p.now }
{
    match p.ops.as_slice() {
        [] => name_of_source(&p.source),
        [_, ..] => None,
    }
}

// More statements.

#[tactic(auto, unfolding(crate::specs::Lets::with_table))]
fn with_table(
    alloc: Global,
    n: &KText,
    p: BoundPlan,
    done: BoundStatements,
) -> Result<BoundStatements, AllocError>
    ensures added { IfOk result (λ d. d ≡ with_table n.now p done) }
{
    let BoundPlan { plan, after } = p;
    let BoundStatements { known, lets } = done;
    let mut known = known;
    let mut lets = lets;
    let name = n.copy(alloc)?;
    known.lets.push(LetTable {
        name,
        columns: after.columns,
    })?;
    lets.push(plan.into_inner())?;
    Ok(BoundStatements { known, lets })
}

fn named_constant(alloc: Global, n: &KText, l: Lit) -> Result<Const, AllocError>
    ensures named { IfOk result (λ c. c ≡ named_constant n.now l) }
{
    match n.copy(alloc) {
        Ok(name) => Ok(Const {
            name,
            kind: l.kind,
            value: l.value,
        }),
        Err(e) => {
            drop(l);
            Err(e)
        }
    }
}

#[tactic(auto, unfolding(crate::specs::Lets::with_constant))]
fn with_constant(
    alloc: Global,
    n: &KText,
    l: Lit,
    done: BoundStatements,
) -> Result<BoundStatements, AllocError>
    ensures added { IfOk result (λ d. d ≡ with_constant n.now l done) }
{
    let constant = named_constant(alloc, n, l)?;
    let BoundStatements { known, lets } = done;
    let mut known = known;
    known.consts.push(constant)?;
    Ok(BoundStatements { known, lets })
}

// A table under a name, which may be refused.
#[tactic(auto, using(bind_expr::proofs::AnswerFacts::answer_steps), unfolding(crate::specs::Lets::table_let))]
fn table_let(
    alloc: Global,
    n: &KText,
    done: BoundStatements,
    p: Result<BoundPlan, BindFault>,
) -> Result<BoundStatements, BindFault>
    ensures exact { Answers result (table_let n.now done p) }
{
    match p {
        Ok(p) => or_lost(with_table(alloc, n, p, done)),
        Err(fault) => {
            drop(done);
            Err(fault)
        }
    }
}

// And a constant.
#[tactic(auto, using(bind_expr::proofs::AnswerFacts::answer_steps), unfolding(crate::specs::Lets::constant_let))]
fn constant_let(
    alloc: Global,
    n: &KText,
    done: BoundStatements,
    l: Result<Lit, BindFault>,
) -> Result<BoundStatements, BindFault>
    ensures exact { Answers result (constant_let n.now done l) }
{
    match l {
        Ok(l) => or_lost(with_constant(alloc, n, l, done)),
        Err(fault) => {
            drop(done);
            Err(fault)
        }
    }
}

// What a statement names.

// The constant of a name, as a literal.
#[tactic(auto, using(bind_expr::proofs::AnswerFacts::answer_steps, bind_operators::proofs::AnswerSteps::bind_steps), unfolding(crate::specs::Lets::constant_named))]
fn constant_named(
    alloc: Global,
    statement: Place,
    known: &Known,
    n: &Name,
) -> Result<Lit, BindFault>
    ensures exact { Answers result (constant_named statement known.now n.now) }
{
    match scope_at(alloc, known, &no_rows(alloc), Position::Constant) {
        Ok(scope) => match bind_name(alloc, n, &scope) {
            Ok(t) => constant_wanted(alloc, statement, Wanted::Any, name_place(n), &t),
            Err(fault) => Err(fault),
        },
        Err(_) => Err(BindFault::OutOfMemory),
    }
}

// A name alone is a table where there is one of that name, and else a constant.
#[tactic(auto, using(bind_expr::proofs::AnswerFacts::answer_steps))]
fn name_let(
    alloc: Global,
    statement: Place,
    n: &KText,
    done: BoundStatements,
    other: &Name,
) -> Result<BoundStatements, BindFault>
    ensures exact { Answers result (name_let statement n.now done other.now (table_named done.known (text_of other.now))) }
{
    match table_named(alloc, &done.known, text_of(other)) {
        Ok(Some(p)) => table_let(alloc, n, done, Ok(p)),
        Ok(None) => {
            let l = constant_named(alloc, statement, &done.known, other);
            constant_let(alloc, n, done, l)
        }
        Err(_) => {
            drop(done);
            Err(BindFault::OutOfMemory)
        }
    }
}

#[tactic(auto, using(crate::proofs::LetSteps::pipe_steps))]
fn pipe_let(
    alloc: Global,
    statement: Place,
    n: &KText,
    done: BoundStatements,
    p: &Pipe,
) -> Result<BoundStatements, BindFault>
    ensures exact { Answers result (pipe_let statement n.now done p.now (name_alone p.now)) }
{
    match name_alone(p) {
        None => {
            let bound = bind_pipe(alloc, p, &done.known, false);
            table_let(alloc, n, done, bound)
        }
        Some(other) => name_let(alloc, statement, n, done, other),
    }
}

#[tactic(auto, using(crate::proofs::LetSteps::body_steps))]
fn bind_body(
    alloc: Global,
    statement: Place,
    n: &KText,
    body: &LetBody,
    done: BoundStatements,
) -> Result<BoundStatements, BindFault>
    ensures exact { Answers result (body_bound statement n.now body.now done) }
{
    match body {
        LetBody::Pipe(p) => pipe_let(alloc, statement, n, done, p),
        LetBody::Expr(e) => {
            let rows = no_rows(alloc);
            let l = bind_constant(alloc, statement, Wanted::Any, &done.known, &rows, e);
            constant_let(alloc, n, done, l)
        }
    }
}

// Whether a let before has this name.
#[tactic(auto, unfolding(crate::specs::Lets::is_let_name))]
fn is_let_name(known: &Known, n: &str) -> bool
    ensures is { result ≡ is_let_name known.now n.now }
{
    let_numbered(known, n).is_some() || is_constant_name(known.consts.as_slice(), n)
}

#[tactic(auto, using(bind_expr::proofs::AnswerFacts::answer_steps), unfolding(crate::specs::Lets::let_bound, crate::specs::Lets::let_faults, bind_operators::specs::Faults::unless, bind_operators::specs::Faults::fault_if))]
fn bind_let(alloc: Global, l: &Let, done: BoundStatements) -> Result<BoundStatements, BindFault>
    ensures exact { Answers result (let_bound l.now done) }
{
    let n = text_of(&l.name);
    if is_let_name(&done.known, n.as_str()) {
        drop(done);
        return Err(BindFault::Refused {
            code: 417,
            place: name_place(&l.name),
        });
    }
    bind_body(alloc, l.place, n, &l.body, done)
}

// Statements one after another.

#[tactic(auto, using(bind_expr::proofs::AnswerFacts::answer_steps), unfolding(crate::specs::Bound::next_let))]
fn next_let(
    alloc: Global,
    l: &Let,
    before: Result<BoundStatements, BindFault>,
) -> Result<BoundStatements, BindFault>
    ensures exact { Answers result (next_let l.now before) }
{
    match before {
        Ok(done) => bind_let(alloc, l, done),
        Err(fault) => Err(fault),
    }
}

#[tactic(auto, unfolding(crate::specs::Bound::no_statements))]
fn no_statements(alloc: Global, known: Known) -> BoundStatements
    ensures none { result ≡ no_statements known }
{
    BoundStatements {
        known,
        lets: Items::new(alloc),
    }
}

/// Let statements, each under those before it.
#[tactic(auto, using(crate::proofs::LetSteps::lets_steps))]
pub(crate) fn bind_lets(
    alloc: Global,
    lets: &[Let],
    known: Known,
) -> Result<BoundStatements, BindFault>
    ensures exact { Answers result (lets_bound lets.now known) }
{
    let mut done = Ok(no_statements(alloc, known));
    'each: for l in lets {
        done = next_let(alloc, l, done);
    }
    done
}
