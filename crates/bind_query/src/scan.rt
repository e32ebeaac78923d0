ghost use Rattle.std.specs.Prelude.{◌≡◌, [], ◌∷◌, IfOk, map, option_map, true};
ghost use Rattle.bind_expr.specs.Names.{text_of};
ghost use Rattle.bind_expr.specs.Outcome.{Answers};
ghost use Rattle.kql_bound.specs.declared.parts.Decl.{Decl as BoundDecl};
ghost use Rattle.kql_bound.specs.declared.plan.Op.TheVariants as Op;
ghost use Rattle.kql_meaning.specs.Scan.{scan_columns};
ghost use Rattle.kql_meaning.specs.Tables.{names_of};
ghost use Rattle.bind_operators.specs.Answers.{answer};
ghost use Rattle.bind_operators.specs.Faults.{each_bound};
ghost use Rattle.bind_operators.specs.Items.{names_twice};
ghost use Rattle.bind_query.specs.Scan.{assignment_bound, bound_output, decl_bound, declared_default, declared_kind, declared_names, new_names, scan_bound, scan_plan, scan_step, scanned, step_bound, wanted_of};

use crate::scan_faults::first_scan_fault;
use crate::scan_records::step_scope;
use bind_expr::{BindFault, Scope, Typed};
use bind_groups::bind_kind;
use bind_operators::{
    BoundOp, Known, Shape, Wanted, answered, bind_constant, bind_typed, one, or_lost, text_of,
    with_next,
};
use kql_bound::{
    BItem, BItems, Decl as BoundDecl, Decls, Lit, Op, Output as BoundOutput, ScanPlan, ScanStep,
    ScanSteps,
};
use kql_cells::{KText, Kind, Schema};
use kql_columns::scan_columns;
use kql_items::Items;
use kql_lexer::Place;
use kql_syntax::{Decl, Expr, Name, Output, Scan, Step};
use std::alloc::{AllocError, Global};

// Declared columns.

#[tactic(auto, using(bind_expr::proofs::AnswerFacts::answer_steps), unfolding(crate::specs::Scan::declared_default))]
fn declared_default(
    alloc: Global,
    operator: Place,
    known: &Known,
    rows: &Shape,
    kind: Kind,
    e: &Option<Expr>,
) -> Result<Lit, BindFault>
    ensures exact { Answers result (declared_default operator known.now rows.now kind e.now) }
{
    match e {
        None => match kind.absent().to_value(alloc) {
            Ok(value) => Ok(Lit { kind, value }),
            Err(_) => Err(BindFault::OutOfMemory),
        },
        Some(e) => bind_constant(alloc, operator, Wanted::Is(kind), known, rows, e),
    }
}

#[tactic(auto, using(bind_expr::proofs::AnswerFacts::answer_steps, bind_operators::proofs::AnswerSteps::bind_steps), unfolding(crate::specs::Scan::decl_bound))]
fn bind_decl(
    alloc: Global,
    operator: Place,
    known: &Known,
    rows: &Shape,
    d: &Decl,
) -> Result<BoundDecl, BindFault>
    ensures exact { Answers result (decl_bound operator known.now rows.now d.now) }
{
    match bind_kind(&d.kind) {
        Ok(kind) => match declared_default(alloc, operator, known, rows, kind, &d.default) {
            Ok(default) => match text_of(&d.name).copy(alloc) {
                Ok(name) => Ok(BoundDecl { name, default }),
                Err(_) => {
                    drop(default);
                    Err(BindFault::OutOfMemory)
                }
            },
            Err(fault) => Err(fault),
        },
        Err(fault) => Err(fault),
    }
}

#[tactic(auto, using(bind_operators::proofs::AnswerSteps::each_steps))]
fn bind_decls(
    alloc: Global,
    operator: Place,
    known: &Known,
    rows: &Shape,
    declared: &[Decl],
) -> Result<Decls, BindFault>
    ensures exact { Answers result (each_bound (decl_bound operator known.now rows.now) declared.now) }
{
    let mut bound = Ok(Items::new(alloc));
    'each: for d in declared {
        let decl = bind_decl(alloc, operator, known, rows, d);
        bound = with_next(bound, decl);
    }
    bound
}

// Steps.

#[tactic(auto, unfolding(crate::specs::Scan::bound_output))]
fn bound_output(output: Option<Output>) -> BoundOutput
    ensures output { result ≡ bound_output output }
{
    match output {
        None => BoundOutput::All,
        Some(Output::All(_)) => BoundOutput::All,
        Some(Output::Last(_)) => BoundOutput::Last,
        Some(Output::Nothing(_)) => BoundOutput::Nothing,
    }
}

// The type of the declared column of a name.
#[tactic(auto, unfolding(crate::specs::Scan::declared_kind))]
fn declared_kind(declared: &[BoundDecl], name: &str) -> Option<Kind>
    ensures kind { result ≡ declared_kind declared.now name.now }
{
    let mut left = declared;
    'each: while let Some((d, more)) = left.split_first() {
        if d.name.as_str() == name {
            return Some(d.default.kind);
        }
        left = more;
    }
    None
}

#[tactic(auto, unfolding(crate::specs::Scan::wanted_of))]
fn wanted_of(kind: Option<Kind>) -> Wanted
    ensures want { result ≡ wanted_of kind }
{
    match kind {
        None => Wanted::Any,
        Some(kind) => Wanted::Is(kind),
    }
}

fn assignment_item(alloc: Global, name: &KText, t: Typed) -> Result<BItem, AllocError>
    ensures item { IfOk result (λ b. b ≡ record { names = name.now ∷ []; expr = t.expr }) }
{
    let names = one(alloc, name.copy(alloc)?)?;
    Ok(BItem {
        names,
        expr: t.expr.into_inner(),
    })
}

#[tactic(auto, using(bind_expr::proofs::AnswerFacts::answer_steps, bind_operators::proofs::AnswerSteps::bind_steps), unfolding(crate::specs::Scan::assignment_bound))]
fn bind_assignment(
    alloc: Global,
    scope: &Scope,
    declared: &[BoundDecl],
    a: &(Name, Expr),
) -> Result<BItem, BindFault>
    ensures exact { Answers result (assignment_bound scope.now declared.now a.now) }
{
    let name = text_of(&a.0);
    let want = wanted_of(declared_kind(declared, name.as_str()));
    match bind_typed(alloc, want, &a.1, scope) {
        Ok(t) => or_lost(assignment_item(alloc, name, t)),
        Err(fault) => Err(fault),
    }
}

#[tactic(auto, using(bind_operators::proofs::AnswerSteps::each_steps))]
fn bind_assignments(
    alloc: Global,
    scope: &Scope,
    declared: &[BoundDecl],
    sets: &[(Name, Expr)],
) -> Result<BItems, BindFault>
    ensures exact { Answers result (each_bound (assignment_bound scope.now declared.now) sets.now) }
{
    let mut bound = Ok(Items::new(alloc));
    'each: for a in sets {
        let item = bind_assignment(alloc, scope, declared, a);
        bound = with_next(bound, item);
    }
    bound
}

fn scan_step(
    alloc: Global,
    s: &Step,
    condition: Typed,
    sets: BItems,
) -> Result<ScanStep, AllocError>
    ensures step { IfOk result (λ t. t ≡ scan_step s.now condition sets) }
{
    let name = text_of(&s.name).copy(alloc)?;
    Ok(ScanStep {
        name,
        output: bound_output(s.output),
        condition: condition.expr.into_inner(),
        sets,
    })
}

#[tactic(auto, using(bind_expr::proofs::AnswerFacts::answer_steps, bind_operators::proofs::AnswerSteps::bind_steps), unfolding(crate::specs::Scan::step_bound))]
fn bind_step(
    alloc: Global,
    scope: &Scope,
    declared: &[BoundDecl],
    s: &Step,
) -> Result<ScanStep, BindFault>
    ensures exact { Answers result (step_bound scope.now declared.now s.now) }
{
    match bind_typed(alloc, Wanted::Is(Kind::Bool), &s.condition, scope) {
        Ok(condition) => match bind_assignments(alloc, scope, declared, s.sets.as_slice()) {
            Ok(sets) => or_lost(scan_step(alloc, s, condition, sets)),
            Err(fault) => {
                drop(condition);
                Err(fault)
            }
        },
        Err(fault) => Err(fault),
    }
}

#[tactic(auto, using(bind_operators::proofs::AnswerSteps::each_steps))]
fn bind_steps(
    alloc: Global,
    scope: &Scope,
    declared: &[BoundDecl],
    steps: &[Step],
) -> Result<ScanSteps, BindFault>
    ensures exact { Answers result (each_bound (step_bound scope.now declared.now) steps.now) }
{
    let mut bound = Ok(Items::new(alloc));
    'each: for s in steps {
        let step = bind_step(alloc, scope, declared, s);
        bound = with_next(bound, step);
    }
    bound
}

// The operator.

fn id_text(alloc: Global, id: &Option<Name>) -> Result<Option<KText>, AllocError>
    ensures text { IfOk result (λ t. t ≡ option_map text_of id.now) }
{
    match id {
        None => Ok(None),
        Some(n) => Ok(Some(text_of(n).copy(alloc)?)),
    }
}

#[tactic(auto, unfolding(crate::specs::Scan::scan_plan))]
fn scan_plan(
    alloc: Global,
    s: &Scan,
    declared: Decls,
    steps: ScanSteps,
) -> Result<ScanPlan, AllocError>
    ensures plan { IfOk result (λ p. p ≡ scan_plan s.now declared steps) }
{
    let match_id = id_text(alloc, &s.match_id)?;
    Ok(ScanPlan {
        match_id,
        declared,
        steps,
    })
}

// What is scanned, where no two columns have one name.
#[tactic(auto, using(bind_expr::proofs::AnswerFacts::answer_steps, crate::proofs::ScanLaws::column_steps))]
fn scan_made(
    alloc: Global,
    operator: Place,
    s: &Scan,
    rows: Shape,
    plan: ScanPlan,
) -> Result<BoundOp, BindFault>
    requires id { plan.match_id ≡ option_map text_of s.now.match_id }
    requires declared { map (λ (d : BoundDecl). d.name) plan.declared ≡ declared_names s.now.declared }
    requires once { names_twice (names_of rows.columns) (new_names s.now.match_id s.now.declared) ≡ [] }
    ensures exact { Answers result (answer operator [] (Op.Scan plan) (scan_columns plan rows.columns) true) }
{
    match scan_columns(alloc, &plan, rows.columns.columns()) {
        Ok(columns) => answered(
            alloc,
            operator,
            Op::Scan(plan),
            Schema::from_items(columns),
            true,
        ),
        Err(_) => {
            drop(plan);
            Err(BindFault::OutOfMemory)
        }
    }
}

#[tactic(auto, using(bind_operators::proofs::AnswerSteps::after_steps, crate::proofs::ScanLaws::once_steps), unfolding(crate::specs::Scan::scanned))]
fn scanned(
    alloc: Global,
    operator: Place,
    s: &Scan,
    rows: Shape,
    plan: ScanPlan,
) -> Result<BoundOp, BindFault>
    requires id { plan.match_id ≡ option_map text_of s.now.match_id }
    requires declared { map (λ (d : BoundDecl). d.name) plan.declared ≡ declared_names s.now.declared }
    ensures exact { Answers result (scanned operator s.now rows plan) }
{
    match first_scan_fault(alloc, operator, s, &rows) {
        Ok(()) => scan_made(alloc, operator, s, rows, plan),
        Err(fault) => {
            drop(plan);
            drop(rows);
            Err(fault)
        }
    }
}

/// `scan`.
#[tactic(auto, using(bind_expr::proofs::AnswerFacts::answer_steps, bind_operators::proofs::AnswerSteps::bind_steps, crate::proofs::ScanLaws::plan_steps), unfolding(crate::specs::Scan::scan_bound))]
pub fn bind_scan(
    alloc: Global,
    operator: Place,
    s: &Scan,
    known: &Known,
    rows: Shape,
) -> Result<BoundOp, BindFault>
    ensures exact { Answers result (scan_bound operator s.now known.now rows) }
{
    match bind_decls(alloc, operator, known, &rows, s.declared.as_slice()) {
        Ok(declared) => match step_scope(
            alloc,
            known,
            &rows,
            s.steps.as_slice(),
            declared.as_slice(),
        ) {
            Ok(scope) => match bind_steps(alloc, &scope, declared.as_slice(), s.steps.as_slice()) {
                Ok(steps) => match scan_plan(alloc, s, declared, steps) {
                    Ok(plan) => scanned(alloc, operator, s, rows, plan),
                    Err(_) => Err(BindFault::OutOfMemory),
                },
                Err(fault) => Err(fault),
            },
            Err(_) => Err(BindFault::OutOfMemory),
        },
        Err(fault) => Err(fault),
    }
}
