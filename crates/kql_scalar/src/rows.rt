//! The places at which a part is true.
ghost use Rattle.std.specs.Prelude.{◌≡◌, ◌<◌, ◌≤◌, ◌++◌, ◌∷◌, [], All, IfOk, IfSome, IsTrue, OnOk, cond, filter, length};
ghost use Rattle.kql_cells.specs.Seen.{seen};
ghost use Rattle.kql_cells.specs.Values.{IsWellFormed};
ghost use Rattle.kql_functions.specs.declared.func.Func.TheVariants as func;
ghost use Rattle.kql_functions.specs.declared.func.LogicFunc.TheVariants as logic_func;
ghost use Rattle.kql_meaning.specs.Readings.{Records};
ghost use Rattle.kql_scalar.specs.Evaluated.{AreSound};
ghost use Rattle.kql_scalar.specs.Joins.{fails};
ghost use Rattle.kql_scalar.specs.Means.{ArePlaced, IsPlaced, means};
ghost use Rattle.kql_scalar.specs.Rows.{AreBelow, IsColumnTest, call_passes, cell_compares, compares, passes, passes_with, passing_all, rows};

use crate::calls::truth_of_value;
use crate::cells::cell_in;
use crate::lists::kept_by_list;
use crate::node::Node;
use crate::opposites::opposite_test;
use crate::pairs::apply_pair;
use crate::parts::parts;
use crate::places::without;
use crate::stores::kept_by_store;
use crate::truths::is_true;
use crate::values::{truth_of, truth_of_call};
use kql_functions::{ComparisonFunc, Func, LogicFunc};
use kql_values::{CellRef, Row, Table, Value};
use std::alloc::{AllocError, Global};

/// Whether a part is true at a row, with step records.
#[tactic(auto, unfolding(crate::specs::Rows::passes_with, kql_meaning::specs::Values::holds))]
pub(crate) fn passes_with(
    alloc: Global,
    node: &Node,
    t: &Table,
    i: usize,
    s: &[Option<Row>],
) -> Result<bool, AllocError>
    requires placed { IsPlaced t.now.columns node.now }
    requires row { i < length t.now.lines }
    requires sound { AreSound s.now }
    ensures truth { IfOk result (λ b. b ≡ passes_with (means node.now) t.now i s.now) }
{
    let truth = truth_of(alloc, node, t, i, s)?;
    Ok(is_true(truth))
}

// Whether a part is true at a row.
#[tactic(auto, using(crate::proofs::RowSteps::sound_none), unfolding(crate::specs::Rows::passes, kql_meaning::specs::Values::holds))]
fn passes(alloc: Global, node: &Node, t: &Table, i: usize) -> Result<bool, AllocError>
    requires placed { IsPlaced t.now.columns node.now }
    requires row { i < length t.now.lines }
    ensures truth { IfOk result (λ b. b ≡ passes (means node.now) t.now i) }
{
    let known = truth_of(alloc, node, t, i, &[])?;
    Ok(is_true(known))
}

// Whether a call is true at a row.
#[tactic(auto, using(crate::proofs::RowSteps::sound_none), unfolding(crate::specs::Rows::call_passes, kql_meaning::specs::Values::holds))]
pub(crate) fn call_passes(
    alloc: Global,
    f: Func,
    args: &[Node],
    t: &Table,
    i: usize,
) -> Result<bool, AllocError>
    requires placed { ArePlaced t.now.columns args.now }
    requires row { i < length t.now.lines }
    ensures truth { IfOk result (λ b. b ≡ call_passes f args.now t.now i) }
{
    let truth = truth_of_call(alloc, f, args, t, i, &[])?;
    Ok(is_true(truth))
}

/// Adds a place where a test is true.
pub(crate) fn push_if(places: &mut Vec<usize>, place: usize, test: bool) -> Result<(), AllocError>
    ensures added { OnOk result (places.new.items ≡ places.old.items ++ cond test (place ∷ []) []) }
{
    if test {
        places.push(place)?;
    }
    Ok(())
}

/// The places of a range at which a part is true, rising.
#[tactic(auto, using(crate::proofs::RowSteps::within_steps))]
pub(crate) fn places_in(
    alloc: Global,
    node: &Node,
    t: &Table,
    from: usize,
    to: usize,
) -> Result<Vec<usize>, AllocError>
    requires placed { IsPlaced t.now.columns node.now }
    requires order { from ≤ to }
    requires range { to ≤ length t.now.lines }
    ensures places { IfOk result (λ ps. ps.items ≡ filter (passes (means node.now) t.now) (rows from to)) }
    ensures within { IfOk result (λ ps. All (λ i. i < length t.now.lines) ps.items) }
{
    let places = all_places(alloc, t, from, to)?;
    let left = kept(alloc, node, t, places)?;
    Ok(left)
}

// The places of a range.
#[tactic(auto, using(crate::proofs::RowSteps::row_steps))]
fn all_places(alloc: Global, _t: &Table, from: usize, to: usize) -> Result<Vec<usize>, AllocError>
    requires order { from ≤ to }
    requires range { to ≤ length _t.now.lines }
    ensures places { IfOk result (λ ps. ps.items ≡ rows from to) }
    ensures within { IfOk result (λ ps. AreBelow (length _t.now.lines) ps.items) }
{
    let mut places = Vec::with_capacity(alloc, to - from)?;
    'rows: for i in from..to {
        places.push(i)?;
    }
    Ok(places)
}

/// Those of these places at which a part is true.
#[cycle(kept)]
#[tactic(auto, using(crate::proofs::RowSteps::place_steps, crate::proofs::PartSteps::placed_parts))]
fn kept(alloc: Global, node: &Node, t: &Table, places: Vec<usize>) -> Result<Vec<usize>, AllocError>
    requires placed { IsPlaced t.now.columns node.now }
    requires within { AreBelow (length t.now.lines) places.items }
    ensures places { IfOk result (λ ps. ps.items ≡ filter (passes (means node.now) t.now) places.items) }
{
    match node {
        Node::Call(f, args) => kept_by_call(alloc, *f, parts(args, t), t, places),
        _ => kept_by_row(alloc, node, t, places.as_slice()),
    }
}

// Those at which a call is true: a conjunction narrows part by part, a disjunction tries each part at what the parts before it
// left, and a comparison of a column with a constant, or its opposite, reads the column alone.
#[cycle(kept)]
#[tactic(auto, using(crate::proofs::RowSteps::call_steps))]
fn kept_by_call(
    alloc: Global,
    f: Func,
    args: &[Node],
    t: &Table,
    places: Vec<usize>,
) -> Result<Vec<usize>, AllocError>
    requires placed { ArePlaced t.now.columns args.now }
    requires within { AreBelow (length t.now.lines) places.items }
    ensures places { IfOk result (λ ps. ps.items ≡ filter (call_passes f args.now t.now) places.items) }
{
    match f {
        Func::Logic(LogicFunc::And) => kept_by_all(alloc, args, t, places),
        Func::Logic(LogicFunc::Or) => kept_by_any(alloc, args, t, places.as_slice()),
        Func::Logic(LogicFunc::Not) => kept_by_opposite(alloc, args, t, places.as_slice()),
        Func::Comparison(f) => kept_by_comparison(alloc, f, args, t, places.as_slice()),
        _ => kept_by_call_rows(alloc, f, args, t, places.as_slice()),
    }
}

// Those at which all parts are true.
#[cycle(kept)]
#[tactic(auto, using(crate::proofs::RowSteps::narrow_steps, crate::proofs::MeansSteps::item_steps))]
fn kept_by_all(
    alloc: Global,
    args: &[Node],
    t: &Table,
    places: Vec<usize>,
) -> Result<Vec<usize>, AllocError>
    requires placed { ArePlaced t.now.columns args.now }
    requires within { AreBelow (length t.now.lines) places.items }
    ensures places { IfOk result (λ ps. ps.items ≡ passing_all args.now t.now places.items) }
{
    let mut left = places;
    'parts: for arg in args {
        let narrowed = kept(alloc, arg, t, left)?;
        left = narrowed;
    }
    Ok(left)
}

// Those at which one of the parts is true: each part is tried at what the parts before it left.
#[cycle(kept)]
#[tactic(auto, using(crate::proofs::JoinSteps::join_steps, crate::proofs::MeansSteps::item_steps))]
fn kept_by_any(
    alloc: Global,
    args: &[Node],
    t: &Table,
    places: &[usize],
) -> Result<Vec<usize>, AllocError>
    requires placed { ArePlaced t.now.columns args.now }
    requires within { AreBelow (length t.now.lines) places.now }
    ensures places { IfOk result (λ ps. ps.items ≡ filter (call_passes (func.Logic logic_func.Or) args.now t.now) places.now) }
{
    let mut left = Vec::from_slice(alloc, places)?;
    'parts: for arg in args {
        let untaken = left_by(alloc, arg, t, left)?;
        left = untaken;
    }
    let found = without(alloc, places, left.as_slice())?;
    Ok(found)
}

// Those of these places at which a part is not true.
#[cycle(kept)]
#[tactic(auto, using(crate::proofs::JoinSteps::left_steps))]
fn left_by(
    alloc: Global,
    node: &Node,
    t: &Table,
    places: Vec<usize>,
) -> Result<Vec<usize>, AllocError>
    requires placed { IsPlaced t.now.columns node.now }
    requires within { AreBelow (length t.now.lines) places.items }
    ensures places { IfOk result (λ ps. ps.items ≡ filter (fails (means node.now) t.now) places.items) }
{
    let tried = Vec::from_slice(alloc, places.as_slice())?;
    let taken = kept(alloc, node, t, tried)?;
    let left = without(alloc, places.as_slice(), taken.as_slice())?;
    Ok(left)
}

// Those at which the opposite of a part is true: over the column where it is one of a comparison of a column with a constant.
#[tactic(auto, using(crate::proofs::OppositeSteps::not_steps))]
fn kept_by_opposite(
    alloc: Global,
    args: &[Node],
    t: &Table,
    places: &[usize],
) -> Result<Vec<usize>, AllocError>
    requires placed { ArePlaced t.now.columns args.now }
    requires within { AreBelow (length t.now.lines) places.now }
    ensures places { IfOk result (λ ps. ps.items ≡ filter (call_passes (func.Logic logic_func.Not) args.now t.now) places.now) }
{
    match opposite_test(args, t) {
        Some((f, parts)) => kept_by_comparison(alloc, f, parts, t, places),
        None => kept_by_call_rows(alloc, Func::Logic(LogicFunc::Not), args, t, places),
    }
}

// Those at which a part is true, evaluated row by row.
#[tactic(auto, using(crate::proofs::RowSteps::kept_steps))]
fn kept_by_row(
    alloc: Global,
    node: &Node,
    t: &Table,
    places: &[usize],
) -> Result<Vec<usize>, AllocError>
    requires placed { IsPlaced t.now.columns node.now }
    requires within { AreBelow (length t.now.lines) places.now }
    ensures places { IfOk result (λ ps. ps.items ≡ filter (passes (means node.now) t.now) places.now) }
{
    let mut kept = Vec::new(alloc);
    'places: for place in places {
        let test = passes(alloc, node, t, *place)?;
        push_if(&mut kept, *place, test)?;
    }
    Ok(kept)
}

// Those at which a call is true, evaluated row by row.
#[tactic(auto, using(crate::proofs::RowSteps::kept_steps))]
fn kept_by_call_rows(
    alloc: Global,
    f: Func,
    args: &[Node],
    t: &Table,
    places: &[usize],
) -> Result<Vec<usize>, AllocError>
    requires placed { ArePlaced t.now.columns args.now }
    requires within { AreBelow (length t.now.lines) places.now }
    ensures places { IfOk result (λ ps. ps.items ≡ filter (call_passes f args.now t.now) places.now) }
{
    let mut kept = Vec::new(alloc);
    'places: for place in places {
        let test = call_passes(alloc, f, args, t, *place)?;
        push_if(&mut kept, *place, test)?;
    }
    Ok(kept)
}

// Those at which a comparison is true: by the keys of a long list of constants, or over the column where it is one of a column with a
// constant.
#[tactic(auto, using(crate::proofs::RowSteps::comparison_steps))]
fn kept_by_comparison(
    alloc: Global,
    f: ComparisonFunc,
    args: &[Node],
    t: &Table,
    places: &[usize],
) -> Result<Vec<usize>, AllocError>
    requires placed { ArePlaced t.now.columns args.now }
    requires within { AreBelow (length t.now.lines) places.now }
    ensures places { IfOk result (λ ps. ps.items ≡ filter (call_passes (func.Comparison f) args.now t.now) places.now) }
{
    if let Some(kept) = kept_by_list(alloc, f, args, t, places)? {
        return Ok(kept);
    }
    match column_test(args, t) {
        Some((place, value)) => kept_by_cells(alloc, f, t, place, value, places),
        None => kept_by_call_rows(alloc, Func::Comparison(f), args, t, places),
    }
}

// A column and a constant, if the arguments are these two.
#[tactic(auto, using(crate::proofs::RowSteps::test_steps))]
fn column_test<'a>(args: &'a [Node], t: &Table) -> Option<(usize, &'a Value)>
    requires { ArePlaced t.now.columns args.now }
    ensures test { IfSome result (λ p. IsColumnTest args.now t.now p.0 p.1.now) }
{
    if let [a, b] = args {
        if let Node::Column(_, place) = a {
            if let Node::Literal(lit) = b {
                return Some((*place, &lit.value));
            }
        }
    }
    None
}

// Those at which a comparison of a column with a constant is true: over the column's store where it is one of numbers or texts.
fn kept_by_cells(
    alloc: Global,
    f: ComparisonFunc,
    t: &Table,
    column: usize,
    value: &Value,
    places: &[usize],
) -> Result<Vec<usize>, AllocError>
    requires column { column < length t.now.columns }
    requires form { IsWellFormed value.now }
    requires within { AreBelow (length t.now.lines) places.now }
    ensures places { IfOk result (λ ps. ps.items ≡ filter (cell_compares f t.now column value.now) places.now) }
{
    match kept_by_store(alloc, f, t, column, value, places) {
        Some(kept) => kept,
        None => kept_by_cell(alloc, f, t, column, value, places),
    }
}

// The same by a test of two cells a row.
#[tactic(auto, using(crate::proofs::RowSteps::cell_steps))]
fn kept_by_cell(
    alloc: Global,
    f: ComparisonFunc,
    t: &Table,
    column: usize,
    value: &Value,
    places: &[usize],
) -> Result<Vec<usize>, AllocError>
    requires column { column < length t.now.columns }
    requires form { IsWellFormed value.now }
    requires within { AreBelow (length t.now.lines) places.now }
    ensures places { IfOk result (λ ps. ps.items ≡ filter (cell_compares f t.now column value.now) places.now) }
{
    let mut kept = Vec::new(alloc);
    'places: for place in places {
        let test = compares(alloc, f, cell_in(t, *place, column), value.as_cell())?;
        push_if(&mut kept, *place, test)?;
    }
    Ok(kept)
}

// Whether a comparison of two cells is true.
#[tactic(auto, unfolding(crate::specs::Rows::compares, kql_meaning::specs::Values::holds))]
fn compares<'a>(
    alloc: Global,
    f: ComparisonFunc,
    cell: CellRef<'a>,
    constant: CellRef<'a>,
) -> Result<bool, AllocError>
    requires first { IsWellFormed (seen cell) }
    requires second { IsWellFormed (seen constant) }
    ensures truth { IfOk result (λ b. b ≡ compares f (seen cell.entry) (seen constant.entry)) }
{
    let value = apply_pair(alloc, Func::Comparison(f), cell, constant)?;
    Ok(is_true(truth_of_value(value)))
}
