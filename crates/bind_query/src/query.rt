//! Whole queries.
ghost use Rattle.std.specs.Prelude.{◌≡◌, ℕ, Err, IfOk, true};
ghost use Rattle.kql_lexer.specs.declared.place.Place.{Place};
ghost use Rattle.bind_expr.specs.Outcome.{Answers};
ghost use Rattle.bind_expr.specs.declared.fault.BindFault.TheVariants as fault;
ghost use Rattle.bind_query.specs.Bound.{bound, known_at_first, program_of};
ghost use Rattle.bind_query.specs.Laws.{is_query_code};

use crate::bound::BoundStatements;
use crate::lets::bind_lets;
use crate::pipes::bind_pipe;
use crate::tables_read::tables_read;
use bind_expr::BindFault;
use bind_operators::{BoundPlan, Known, or_lost};
use kql_bound::Program;
use kql_cells::Schemas;
use kql_items::{Boxed, Items};
use kql_syntax::Query;
use std::alloc::{AllocError, Global};

#[tactic(auto, unfolding(crate::specs::Bound::known_at_first))]
fn known_at_first(alloc: Global, schemas: Schemas, moment: Option<i64>) -> Known
    ensures known { result ≡ known_at_first schemas moment }
{
    Known {
        tables: schemas,
        lets: Items::new(alloc),
        consts: Items::new(alloc),
        moment,
    }
}

// The program of the lets and the last pipe.
#[tactic(auto, unfolding(crate::specs::Bound::program_of))]
fn program_of(
    alloc: Global,
    done: BoundStatements,
    main: BoundPlan,
) -> Result<Boxed<Program>, AllocError>
    ensures program { IfOk result (λ p. p ≡ program_of done.known.tables done main) }
{
    let BoundPlan { plan, .. } = main;
    let tables = tables_read(alloc, &done.known.tables, done.lets.as_slice(), plan.get())?;
    let BoundStatements { lets, .. } = done;
    Boxed::new(
        alloc,
        Program {
            tables,
            lets,
            main: plan.into_inner(),
        },
    )
}

#[tactic(auto, using(crate::proofs::BindSteps::bind_steps))]
fn bind_whole(
    alloc: Global,
    q: &Query,
    schemas: Schemas,
    moment: Option<i64>,
) -> Result<Boxed<Program>, BindFault>
    ensures exact { Answers result (bound q.now schemas moment) }
{
    let known = known_at_first(alloc, schemas, moment);
    match bind_lets(alloc, q.lets.as_slice(), known) {
        Ok(done) => match bind_pipe(alloc, &q.main, &done.known, false) {
            Ok(main) => or_lost(program_of(alloc, done, main)),
            Err(fault) => {
                drop(done);
                Err(fault)
            }
        },
        Err(fault) => Err(fault),
    }
}

/// The program of a query over the tables of these schemas, or its first fault with its place.
///
/// `now` stands for the moment, in ticks in the range of datetimes; without one a query that names it is refused. An answer may be want
/// of memory in place of any other.
#[tactic(auto, using(crate::proofs::CodeLaws::code_laws))]
pub fn bind(
    alloc: Global,
    q: &Query,
    schemas: Schemas,
    moment: Option<i64>,
) -> Result<Boxed<Program>, BindFault>
    ensures exact { Answers result (bound q.now schemas moment) }
    ensures codes { (code : ℕ) (place : Place) → result ≡ Err (fault.Refused code place) → is_query_code code ≡ true }
{
    bind_whole(alloc, q, schemas, moment)
}
