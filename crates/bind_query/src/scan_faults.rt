//! What a scan asks of itself, once its parts are bound: its faults in their order.
ghost use Rattle.std.specs.Prelude.{◌≡◌, [], IfOk, fold, option_to_list};
ghost use Rattle.bind_expr.specs.Names.{text_of};
ghost use Rattle.bind_expr.specs.Outcome.{Answers};
ghost use Rattle.kql_meaning.specs.Tables.{names_of};
ghost use Rattle.bind_operators.specs.Faults.{unless};
ghost use Rattle.bind_operators.specs.Items.{names_twice};
ghost use Rattle.kql_syntax.specs.declared.query.Decl.{Decl};
ghost use Rattle.bind_groups.specs.Names.{with_written, written};
ghost use Rattle.bind_query.specs.Scan.{assignment_faults, declared_names, new_names, scan_faults, step_faults, step_name_faults};

use bind_expr::BindFault;
use bind_groups::{WrittenNames, first_written_twice, none_written, with_text, with_written};
use bind_operators::{Shape, name_place, text_of};
use kql_cells::{KText, Names};
use kql_columns::{is_name_among, names_of};
use kql_items::Items;
use kql_lexer::Place;
use kql_syntax::{Decl, Expr, Name, Scan, Step};
use std::alloc::{AllocError, Global};

// New columns.

#[tactic(auto, unfolding(bind_groups::specs::Names::written))]
fn id_written(alloc: Global, id: &Option<Name>) -> Result<WrittenNames, AllocError>
    ensures names { IfOk result (λ w. w ≡ written (option_to_list id.now)) }
{
    let names = none_written(alloc);
    match id {
        None => Ok(names),
        Some(n) => Ok(with_written(alloc, names, n)?),
    }
}

fn with_declared(
    alloc: Global,
    start: WrittenNames,
    declared: &[Decl],
) -> Result<WrittenNames, AllocError>
    ensures names { IfOk result (λ w. w ≡ fold (λ w (d : Decl). with_written w d.name) start declared.now) }
{
    let mut names = start;
    for d in declared {
        names = with_written(alloc, names, &d.name)?;
    }
    Ok(names)
}

// The names of the new columns, in the order of the text.
#[tactic(auto, using(crate::proofs::ScanLaws::written_steps))]
fn new_names(
    alloc: Global,
    id: &Option<Name>,
    declared: &[Decl],
) -> Result<WrittenNames, AllocError>
    ensures names { IfOk result (λ w. w ≡ written (new_names id.now declared.now)) }
{
    let names = id_written(alloc, id)?;
    let names = with_declared(alloc, names, declared)?;
    Ok(names)
}

#[tactic(auto, using(bind_expr::proofs::AnswerFacts::answer_steps, bind_groups::proofs::NameSteps::written_steps))]
fn new_names_once(alloc: Global, s: &Scan, rows: &Shape) -> Result<(), BindFault>
    ensures exact { Answers result (unless (names_twice (names_of rows.now.columns) (new_names s.now.match_id s.now.declared)) tt) }
{
    match new_names(alloc, &s.match_id, s.declared.as_slice()) {
        Ok(names) => match names_of(alloc, rows.columns.columns()) {
            Ok(before) => first_written_twice(
                alloc,
                before,
                names.places.as_slice(),
                names.texts.as_slice(),
            ),
            Err(_) => Err(BindFault::OutOfMemory),
        },
        Err(_) => Err(BindFault::OutOfMemory),
    }
}

// Steps.

// 417 at the first step of a name that a step before it has.
#[tactic(auto, using(bind_expr::proofs::AnswerFacts::answer_steps), unfolding(crate::specs::Scan::step_name_faults, bind_operators::specs::Faults::unless, bind_operators::specs::Faults::fault_if))]
fn step_names_once(alloc: Global, s: &Scan) -> Result<(), BindFault>
    ensures exact { Answers result (unless (step_name_faults [] s.now.steps) tt) }
{
    let mut before = Items::new(alloc);
    let mut left = s.steps.as_slice();
    'each: while let Some((step, more)) = left.split_first() {
        let name = text_of(&step.name);
        if is_name_among(before.as_slice(), name.as_str()) {
            return Err(BindFault::Refused {
                code: 417,
                place: name_place(&step.name),
            });
        }
        match with_text(alloc, before, name) {
            Ok(more_before) => before = more_before,
            Err(_) => return Err(BindFault::OutOfMemory),
        }
        left = more;
    }
    Ok(())
}

// 413 at the first assignment to a column that is not declared, or that is assigned already.
#[tactic(auto, using(bind_expr::proofs::AnswerFacts::answer_steps), unfolding(crate::specs::Scan::assignment_faults, bind_operators::specs::Faults::unless, bind_operators::specs::Faults::fault_if))]
fn assignments_once(
    alloc: Global,
    declared: &[KText],
    sets: &[(Name, Expr)],
) -> Result<(), BindFault>
    ensures exact { Answers result (unless (assignment_faults declared.now [] sets.now) tt) }
{
    let mut done = Items::new(alloc);
    let mut left = sets;
    'each: while let Some((a, more)) = left.split_first() {
        let name = text_of(&a.0);
        if !is_name_among(declared, name.as_str())
            || is_name_among(done.as_slice(), name.as_str())
        {
            return Err(BindFault::Refused {
                code: 413,
                place: name_place(&a.0),
            });
        }
        match with_text(alloc, done, name) {
            Ok(more_done) => done = more_done,
            Err(_) => return Err(BindFault::OutOfMemory),
        }
        left = more;
    }
    Ok(())
}

// The same of steps, and 413 at the 65th.
#[tactic(auto, using(crate::proofs::ScanLaws::step_steps))]
fn steps_assign_once(alloc: Global, declared: &[KText], steps: &[Step]) -> Result<(), BindFault>
    ensures exact { Answers result (unless (step_faults declared.now 0 steps.now) tt) }
{
    let mut before = 0u64;
    let mut left = steps;
    'each: while let Some((s, more)) = left.split_first() {
        if 64 <= before {
            return Err(BindFault::Refused {
                code: 413,
                place: name_place(&s.name),
            });
        }
        match assignments_once(alloc, declared, s.sets.as_slice()) {
            Ok(()) => {}
            Err(fault) => return Err(fault),
        }
        before += 1;
        left = more;
    }
    Ok(())
}

fn declared_names(alloc: Global, declared: &[Decl]) -> Result<Names, AllocError>
    ensures names { IfOk result (λ ns. ns ≡ declared_names declared.now) }
{
    let mut names = Items::with_capacity(alloc, declared.len())?;
    for d in declared {
        let name = text_of(&d.name).copy(alloc)?;
        names.push(name)?;
    }
    Ok(names)
}

#[tactic(auto, using(bind_expr::proofs::AnswerFacts::answer_steps))]
fn steps_once(alloc: Global, s: &Scan) -> Result<(), BindFault>
    ensures exact { Answers result (unless (step_faults (declared_names s.now.declared) 0 s.now.steps) tt) }
{
    match declared_names(alloc, s.declared.as_slice()) {
        Ok(names) => steps_assign_once(alloc, names.as_slice(), s.steps.as_slice()),
        Err(_) => Err(BindFault::OutOfMemory),
    }
}

/// The first of a scan's own faults.
#[tactic(auto, using(crate::proofs::ScanLaws::fault_steps), unfolding(crate::specs::Scan::scan_faults))]
pub fn first_scan_fault(
    alloc: Global,
    operator: Place,
    s: &Scan,
    rows: &Shape,
) -> Result<(), BindFault>
    ensures exact { Answers result (unless (scan_faults operator s.now rows.now) tt) }
{
    if !rows.serial {
        return Err(BindFault::Refused {
            code: 407,
            place: operator,
        });
    }
    match new_names_once(alloc, s, rows) {
        Ok(()) => match step_names_once(alloc, s) {
            Ok(()) => steps_once(alloc, s),
            Err(fault) => Err(fault),
        },
        Err(fault) => Err(fault),
    }
}
