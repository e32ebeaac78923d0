//! `range`.
ghost use Rattle.std.specs.Prelude.{◌≡◌, IfOk};
ghost use Rattle.bind_expr.specs.Outcome.{Answers};
ghost use Rattle.kql_meaning.specs.Sources.{range_columns};
ghost use Rattle.bind_operators.specs.Sources.{range_bound, ranged};

use crate::answers::or_lost;
use crate::bound::BoundPlan;
use crate::known::Known;
use crate::places::text_of;
use crate::scopes::no_rows;
use crate::tables::straight_from;
use crate::wanted::{Wanted, bind_constant};
use bind_expr::BindFault;
use kql_bound::{Lit, Source};
use kql_cells::{KText, Schema};
use kql_columns::range_columns;
use kql_fits::range_fits;
use kql_lexer::Place;
use kql_syntax::Range;
use std::alloc::{AllocError, Global};

// The column of a range, as a schema.
#[tactic(auto, using(crate::proofs::NameLaws::kept_steps))]
fn range_schema(alloc: Global, column: &KText, from: &Lit) -> Result<Schema, AllocError>
    ensures columns { IfOk result (λ s. s ≡ range_columns column.now from.now) }
{
    let columns = range_columns(alloc, column, from)?;
    Ok(Schema::from_items(columns))
}

// The name of a range's column, and the column.
fn range_parts(alloc: Global, column: &KText, from: &Lit) -> Result<(KText, Schema), AllocError>
    ensures parts { IfOk result (λ p. p ≡ (column.now, range_columns column.now from.now)) }
{
    let name = column.copy(alloc)?;
    let columns = range_schema(alloc, column, from)?;
    Ok((name, columns))
}

#[tactic(auto, using(bind_expr::proofs::AnswerFacts::answer_steps, crate::proofs::AnswerSteps::fault_steps), unfolding(crate::specs::Sources::ranged, crate::specs::Known::serial_rows_of))]
fn ranged(
    alloc: Global,
    operator: Place,
    column: &KText,
    from: Lit,
    to: Lit,
    step: Lit,
) -> Result<BoundPlan, BindFault>
    ensures exact { Answers result (ranged operator column.now from to step) }
{
    if !range_fits(&from, &to, &step) {
        drop(from);
        drop(to);
        drop(step);
        return Err(BindFault::Refused {
            code: 414,
            place: operator,
        });
    }
    match range_parts(alloc, column, &from) {
        Ok((column, columns)) => {
            let source = Source::Range {
                column,
                from,
                to,
                step,
            };
            or_lost(straight_from(alloc, true, source, columns))
        }
        Err(_) => {
            drop(from);
            drop(to);
            drop(step);
            Err(BindFault::OutOfMemory)
        }
    }
}

/// `range`.
#[tactic(auto, using(bind_expr::proofs::AnswerFacts::answer_steps, crate::proofs::AnswerSteps::bind_steps), unfolding(crate::specs::Sources::range_bound))]
pub fn bind_range(
    alloc: Global,
    operator: Place,
    r: &Range,
    known: &Known,
) -> Result<BoundPlan, BindFault>
    ensures exact { Answers result (range_bound operator r.now known.now) }
{
    let rows = no_rows(alloc);
    match bind_constant(alloc, operator, Wanted::Ordered, known, &rows, &r.from) {
        Ok(from) => {
            let same = Wanted::Is(from.kind);
            match bind_constant(alloc, operator, same, known, &rows, &r.to) {
                Ok(to) => {
                    let steps = Wanted::StepOf(from.kind);
                    match bind_constant(alloc, operator, steps, known, &rows, &r.step) {
                        Ok(step) => ranged(alloc, operator, text_of(&r.column), from, to, step),
                        Err(fault) => {
                            drop(from);
                            drop(to);
                            Err(fault)
                        }
                    }
                }
                Err(fault) => {
                    drop(from);
                    Err(fault)
                }
            }
        }
        Err(fault) => Err(fault),
    }
}
