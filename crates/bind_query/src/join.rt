//! `join` and `lookup`.
ghost use Rattle.std.specs.Prelude.{◌≡◌, ◌++◌, [], ◌||◌, IfOk, false};
ghost use Rattle.bind_expr.specs.Outcome.{Answers};
ghost use Rattle.kql_bound.specs.declared.plan.Op.TheVariants as Op;
ghost use Rattle.kql_cells.specs.Named.{HasDistinctNames, column_name};
ghost use Rattle.kql_functions.specs.Kinds.{is_dynamic};
ghost use Rattle.kql_meaning.specs.Join.{join_columns};
ghost use Rattle.bind_operators.specs.Answers.{answer};
ghost use Rattle.bind_operators.specs.Faults.{each_bound, fault_if, unless};
ghost use Rattle.bind_query.specs.Join.{join_bound, join_kind, join_plan, joined, key_bound, key_clashes, key_place, kind_of_join, lookup_kind, pair_of, pair_wanted};

use bind_expr::BindFault;
use bind_operators::{
    BoundOp, BoundPlan, Known, Shape, answered, column_wanted, name_place, with_next,
};
use kql_bound::{JoinKind, JoinPlan, OnPair, OnPairs, Op};
use kql_cells::{Column, Kind, Schema};
use kql_columns::join_columns;
use kql_fits::pair_fits;
use kql_items::Items;
use kql_lexer::Place;
use kql_meaning::law_of_join_names;
use kql_syntax::{Hint, JoinKind as WrittenKind, JoinSign, On};
use std::alloc::{AllocError, Global};

// Kinds.

#[tactic(auto, unfolding(crate::specs::Join::join_kind))]
fn join_kind(kind: WrittenKind) -> JoinKind
    ensures kind { result ≡ join_kind kind }
{
    match kind {
        WrittenKind::InnerUnique => JoinKind::InnerUnique,
        WrittenKind::Inner => JoinKind::Inner,
        WrittenKind::LeftOuter => JoinKind::LeftOuter,
        WrittenKind::RightOuter => JoinKind::RightOuter,
        WrittenKind::FullOuter => JoinKind::FullOuter,
        WrittenKind::LeftSemi => JoinKind::LeftSemi,
        WrittenKind::RightSemi => JoinKind::RightSemi,
        WrittenKind::LeftAnti => JoinKind::LeftAnti,
        WrittenKind::RightAnti => JoinKind::RightAnti,
    }
}

#[tactic(auto, unfolding(crate::specs::Join::lookup_kind))]
fn lookup_kind(kind: WrittenKind) -> JoinKind
    ensures kind { result ≡ lookup_kind kind }
{
    match kind {
        WrittenKind::Inner => JoinKind::Inner,
        _ => JoinKind::LeftOuter,
    }
}

#[tactic(auto, unfolding(crate::specs::Join::kind_of_join))]
fn kind_of_join(lookup: bool, kind: &Option<(JoinSign, Items<Hint>)>) -> JoinKind
    ensures kind { result ≡ kind_of_join lookup kind.now }
{
    match kind {
        None => {
            if lookup {
                JoinKind::LeftOuter
            } else {
                JoinKind::InnerUnique
            }
        }
        Some((sign, _)) => {
            if lookup {
                lookup_kind(sign.kind)
            } else {
                join_kind(sign.kind)
            }
        }
    }
}

// Keys.

fn is_dynamic(kind: Kind) -> bool
    ensures dynamic { result ≡ is_dynamic kind }
{
    match kind {
        Kind::Dynamic => true,
        _ => false,
    }
}

fn is_any_dynamic(left: Kind, right: Kind) -> bool
    ensures any { result ≡ (is_dynamic left || is_dynamic right) }
{
    is_dynamic(left) || is_dynamic(right)
}

// Two key columns, of which none is dynamic.
#[tactic(auto, using(bind_expr::proofs::AnswerFacts::answer_steps), unfolding(crate::specs::Join::pair_wanted, bind_operators::specs::Faults::unless, bind_operators::specs::Faults::fault_if))]
fn pair_wanted(place: Place, left: Column, right: Column) -> Result<OnPair, BindFault>
    ensures exact { Answers result (pair_wanted place left right) }
{
    if is_any_dynamic(left.kind, right.kind) {
        drop(left);
        drop(right);
        return Err(BindFault::Refused { code: 404, place });
    }
    Ok(OnPair {
        left: left.name,
        right: right.name,
    })
}

// The same of columns that may be refused.
#[tactic(auto, using(bind_expr::proofs::AnswerFacts::answer_steps), unfolding(crate::specs::Join::pair_of))]
fn pair_of(
    place: Place,
    left: Result<Column, BindFault>,
    right: Result<Column, BindFault>,
) -> Result<OnPair, BindFault>
    ensures exact { Answers result (pair_of place left right) }
{
    match left {
        Ok(left) => match right {
            Ok(right) => pair_wanted(place, left, right),
            Err(fault) => {
                drop(left);
                Err(fault)
            }
        },
        Err(fault) => {
            drop(right);
            Err(fault)
        }
    }
}

#[tactic(auto, using(crate::proofs::JoinSteps::key_steps))]
fn bind_key(
    alloc: Global,
    operator: Place,
    known: &Known,
    left: &[Column],
    right: &[Column],
    key: &On,
) -> Result<OnPair, BindFault>
    ensures exact { Answers result (key_bound operator known.now left.now right.now key.now) }
{
    match key {
        On::Column(n) => {
            let l = column_wanted(alloc, operator, known, left, n);
            let r = column_wanted(alloc, operator, known, right, n);
            pair_of(name_place(n), l, r)
        }
        On::Pair(p) => {
            let l = column_wanted(alloc, operator, known, left, &p.left);
            let r = column_wanted(alloc, operator, known, right, &p.right);
            pair_of(p.left_place, l, r)
        }
    }
}

#[tactic(auto, using(bind_operators::proofs::AnswerSteps::each_steps))]
fn bind_keys(
    alloc: Global,
    operator: Place,
    known: &Known,
    left: &[Column],
    right: &[Column],
    keys: &[On],
) -> Result<OnPairs, BindFault>
    ensures exact { Answers result (each_bound (key_bound operator known.now left.now right.now) keys.now) }
{
    let mut pairs = Ok(Items::new(alloc));
    'each: for key in keys {
        let next = bind_key(alloc, operator, known, left, right, key);
        pairs = with_next(pairs, next);
    }
    pairs
}

// The place of a key: its name, or its `$left`.
#[tactic(auto, unfolding(crate::specs::Join::key_place))]
fn key_place(key: &On) -> Place
    ensures place { result ≡ key_place key.now }
{
    match key {
        On::Column(n) => name_place(n),
        On::Pair(p) => p.left_place,
    }
}

// The first key whose columns differ in type.
#[tactic(auto, using(bind_expr::proofs::AnswerFacts::answer_steps), unfolding(crate::specs::Join::key_clashes, bind_operators::specs::Faults::unless, bind_operators::specs::Faults::fault_if))]
fn first_clash(
    left: &[Column],
    right: &[Column],
    keys: &[On],
    pairs: &[OnPair],
) -> Result<(), BindFault>
    ensures exact { Answers result (unless (key_clashes left.now right.now keys.now pairs.now) tt) }
{
    let mut keys = keys;
    let mut pairs = pairs;
    'each: while let Some((key, more)) = keys.split_first() {
        let Some((pair, behind)) = pairs.split_first() else {
            return Ok(());
        };
        if !pair_fits(pair, left, right) {
            return Err(BindFault::Refused {
                code: 415,
                place: key_place(key),
            });
        }
        keys = more;
        pairs = behind;
    }
    Ok(())
}

// 416 in a subquery, and then 415 at a key.
#[tactic(auto, using(bind_expr::proofs::AnswerFacts::answer_steps), unfolding(bind_operators::specs::Faults::unless, bind_operators::specs::Faults::fault_if))]
fn first_fault(
    operator: Place,
    inside: bool,
    left: &[Column],
    right: &[Column],
    keys: &[On],
    pairs: &[OnPair],
) -> Result<(), BindFault>
    ensures exact { Answers result (unless (fault_if inside 416 operator ++ key_clashes left.now right.now keys.now pairs.now) tt) }
{
    if inside {
        return Err(BindFault::Refused {
            code: 416,
            place: operator,
        });
    }
    first_clash(left, right, keys, pairs)
}

// The operator.

// The columns of the join, where they can be counted.
fn joined_schema(
    alloc: Global,
    plan: &JoinPlan,
    left: &[Column],
    right: &[Column],
) -> Result<Schema, AllocError>
    requires left { HasDistinctNames column_name left.now }
    requires right { HasDistinctNames column_name right.now }
    ensures columns { IfOk result (λ cs. cs ≡ join_columns plan.now.kind plan.now left.now right.now) }
{
    law_of_join_names();
    let count = left.len() + right.len();
    if count >= 0x8000_0000_0000_0000 {
        return Err(AllocError);
    }
    let columns = join_columns(alloc, plan, left, right)?;
    Ok(Schema::from_items(columns))
}

#[tactic(auto, using(bind_expr::proofs::AnswerFacts::answer_steps))]
fn join_made(
    alloc: Global,
    operator: Place,
    rows: Shape,
    right: BoundPlan,
    plan: JoinPlan,
) -> Result<BoundOp, BindFault>
    ensures exact { Answers result (answer operator [] (Op.Join plan right.plan) (join_columns plan.kind plan rows.columns right.after.columns) false) }
{
    let BoundPlan {
        plan: source,
        after,
    } = right;
    match joined_schema(
        alloc,
        &plan,
        rows.columns.columns(),
        after.columns.columns(),
    ) {
        Ok(columns) => answered(
            alloc,
            operator,
            Op::Join(plan, source.into_inner()),
            columns,
            false,
        ),
        Err(_) => Err(BindFault::OutOfMemory),
    }
}

#[tactic(auto, using(bind_operators::proofs::AnswerSteps::after_steps), unfolding(crate::specs::Join::joined))]
fn joined(
    alloc: Global,
    operator: Place,
    inside: bool,
    rows: Shape,
    right: BoundPlan,
    keys: &[On],
    plan: JoinPlan,
) -> Result<BoundOp, BindFault>
    ensures exact { Answers result (joined operator inside rows right keys.now plan) }
{
    match first_fault(
        operator,
        inside,
        rows.columns.columns(),
        right.after.columns.columns(),
        keys,
        plan.on.as_slice(),
    ) {
        Ok(()) => join_made(alloc, operator, rows, right, plan),
        Err(fault) => {
            drop(right);
            drop(plan);
            Err(fault)
        }
    }
}

#[tactic(auto, unfolding(crate::specs::Join::join_plan))]
fn join_plan(lookup: bool, kind: &Option<(JoinSign, Items<Hint>)>, on: OnPairs) -> JoinPlan
    ensures plan { result ≡ join_plan lookup kind.now on }
{
    JoinPlan {
        kind: kind_of_join(lookup, kind),
        lookup,
        on,
    }
}

/// A join, or a lookup, with a right table, which is bound before its keys. `inside` tells whether it stands in a subquery.
#[tactic(auto, using(bind_expr::proofs::AnswerFacts::answer_steps, bind_operators::proofs::AnswerSteps::bind_steps), unfolding(crate::specs::Join::join_bound))]
pub(crate) fn join_bound(
    alloc: Global,
    operator: Place,
    lookup: bool,
    kind: &Option<(JoinSign, Items<Hint>)>,
    keys: &[On],
    known: &Known,
    inside: bool,
    rows: Shape,
    right: Result<BoundPlan, BindFault>,
) -> Result<BoundOp, BindFault>
    ensures exact { Answers result (join_bound operator lookup kind.now keys.now known.now inside rows right) }
{
    match right {
        Ok(right) => {
            match bind_keys(
                alloc,
                operator,
                known,
                rows.columns.columns(),
                right.after.columns.columns(),
                keys,
            ) {
                Ok(pairs) => {
                    let plan = join_plan(lookup, kind, pairs);
                    joined(alloc, operator, inside, rows, right, keys, plan)
                }
                Err(fault) => {
                    drop(right);
                    Err(fault)
                }
            }
        }
        Err(fault) => Err(fault),
    }
}
