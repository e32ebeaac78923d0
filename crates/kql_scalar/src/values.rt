//! The value of an expression at a row.
ghost use Rattle.std.specs.Prelude.{◌≡◌, ◌<◌, ◌≤◌, ◌+◌, ◌-◌, ◌∷◌, [], ℕ, IfOk, IfSome, length, map, slice_get};
ghost use Rattle.std.specs.List.{range_with_len};
ghost use Rattle.kql_cells.specs.Seen.{seen};
ghost use Rattle.kql_cells.specs.Values.{IsWellFormed};
ghost use Rattle.kql_scalar_fns.specs.Applied.{applied};
ghost use Rattle.kql_scalar_fns.specs.Arguments.{AreWellFormed};
ghost use Rattle.kql_scalar_fns.specs.Choice.{choice, first_case, first_given};
ghost use Rattle.kql_scalar_fns.specs.Logic.{conjunction, disjunction, logic, truth};
ghost use Rattle.kql_functions.specs.declared.func.Func.TheVariants as func;
ghost use Rattle.kql_functions.specs.declared.func.ChoiceFunc.TheVariants as choice_func;
ghost use Rattle.kql_meaning.specs.Expressions.{look, val};
ghost use Rattle.kql_meaning.specs.Readings.{Records};
ghost use Rattle.kql_meaning.specs.Windows.{last_where, run_start};
ghost use Rattle.kql_functions.specs.declared.window.Window.TheVariants as window_func;
ghost use Rattle.kql_scalar.specs.Choices.{given_at};
ghost use Rattle.kql_scalar.specs.Evaluated.{AreSound, along, distance, down, is_restart, looked_at, readings_of, sum_over, values_of, window_of};
ghost use Rattle.kql_scalar.specs.Means.{AreLinksPlaced, ArePlaced, IsOfFirst, IsPlaced, means};
ghost use Rattle.kql_scalar.specs.Shown.{shown};

use crate::calls::{
    apply_all, apply_one, apply_two, count_in, is_empty, number_in, truth_in, truth_of_value,
};
use crate::cells::{
    absent_as, cell_in, row_after, row_back, row_before, row_end, row_up_to, rows_between,
    step_cell,
};
use crate::lent::Lent;
use crate::node::{Node, NodeLink};
use crate::pairs::apply_pair;
use crate::parts::{link_parts, part, part_at, parts, window_parts};
use crate::sums::{fitted, with_number};
use crate::truths::{bool_cell, both, either, is_decided, is_true, opposite};
use kql_functions::{ArithmeticFunc, ChoiceFunc, DynamicFunc, Func, LogicFunc, Window};
use kql_values::{CellRef, Kind, Row, Table, Value};
use std::alloc::{AllocError, Global};

/// The value of a part of an expression.
#[cycle(value)]
#[tactic(auto, using(crate::proofs::NodeSteps::node_steps, crate::proofs::PartSteps::placed_parts, crate::proofs::FormFacts::part_forms))]
pub(crate) fn value_of<'a>(
    alloc: Global,
    node: &'a Node,
    t: &'a Table,
    i: usize,
    s: &'a [Option<Row>],
) -> Result<Lent<'a>, AllocError>
    requires placed { IsPlaced t.now.columns node.now }
    requires row { i < length t.now.lines }
    requires sound { AreSound s.now }
    ensures value { IfOk result (λ l. shown l ≡ val (means node.now) t.now i s.now) }
    ensures form { IfOk result (λ l. IsWellFormed (shown l)) }
{
    match node {
        Node::Literal(lit) => Ok(Lent::Cell(lit.value.as_cell())),
        Node::Column(_, place) => Ok(Lent::Cell(cell_in(t, i, *place))),
        Node::Missing(_) => Ok(Lent::Cell(CellRef::Null)),
        Node::Step(column) => Ok(Lent::Cell(step_cell(column, s))),
        Node::Call(f, args) => call(alloc, *f, parts(args, t), t, i, s),
        Node::Chain(first, links) => {
            let left = value_of(alloc, part(first, t), t, i, s)?;
            value_along(alloc, link_parts(links, t), left, t, i, s)
        }
        Node::Path(whole, steps) => {
            let left = value_of(alloc, part(whole, t), t, i, s)?;
            value_down(alloc, parts(steps, t), left, t, i, s)
        }
        Node::Window(f, args, kind) => {
            window(alloc, *f, window_parts(args, *kind, t), *kind, t, i, s)
        }
    }
}

/// The cell that a part lends, where it is a literal or a column.
#[tactic(auto, using(crate::proofs::NodeSteps::leaf_steps, crate::proofs::FormFacts::part_forms))]
fn leaf<'a>(node: &'a Node, t: &'a Table, i: usize) -> Option<CellRef<'a>>
    requires placed { IsPlaced t.now.columns node.now }
    requires row { i < length t.now.lines }
    ensures value { IfSome result (λ c. (s : Records) → seen c ≡ val (means node.now) t.now i s) }
    ensures form { IfSome result (λ c. IsWellFormed (seen c)) }
{
    match node {
        Node::Literal(lit) => Some(lit.value.as_cell()),
        Node::Column(_, place) => Some(cell_in(t, i, *place)),
        _ => None,
    }
}

/// The value of a call. The operators on bools stop early, and a choice evaluates what it chooses alone.
#[cycle(value)]
#[tactic(auto, using(crate::proofs::NodeSteps::logic_steps, crate::proofs::ChoiceSteps::choice_calls, crate::proofs::FormFacts::value_forms), unfolding(kql_scalar_fns::specs::Applied::applied))]
fn call<'a>(
    alloc: Global,
    f: Func,
    args: &'a [Node],
    t: &'a Table,
    i: usize,
    s: &'a [Option<Row>],
) -> Result<Lent<'a>, AllocError>
    requires placed { ArePlaced t.now.columns args.now }
    requires row { i < length t.now.lines }
    requires sound { AreSound s.now }
    ensures value { IfOk result (λ l. shown l ≡ applied f (values_of args.now t.now i s.now)) }
    ensures form { IfOk result (λ l. IsWellFormed (shown l)) }
{
    match f {
        Func::Logic(f) => Ok(Lent::Cell(bool_cell(logic(alloc, f, args, t, i, s)?))),
        Func::Choice(ChoiceFunc::Iff) => chosen(alloc, args, t, i, s),
        Func::Choice(ChoiceFunc::Case) => case_value(alloc, args, t, i, s),
        Func::Choice(ChoiceFunc::Coalesce) => first_given(alloc, args, t, i, s),
        _ => {
            let value = computed(alloc, f, args, t, i, s)?;
            Lent::of(alloc, value)
        }
    }
}

/// The value that a function makes of the values of its arguments.
#[cycle(value)]
#[tactic(auto, using(crate::proofs::NodeSteps::argument_steps))]
fn computed(
    alloc: Global,
    f: Func,
    args: &[Node],
    t: &Table,
    i: usize,
    s: &[Option<Row>],
) -> Result<Value, AllocError>
    requires placed { ArePlaced t.now.columns args.now }
    requires row { i < length t.now.lines }
    requires sound { AreSound s.now }
    ensures value { IfOk result (λ v. v ≡ applied f (values_of args.now t.now i s.now)) }
    ensures form { IfOk result IsWellFormed }
{
    match args {
        [a] => {
            let a = value_of(alloc, a, t, i, s)?;
            apply_one(alloc, f, a)
        }
        [a, b] => {
            if let Some(left) = leaf(a, t, i) {
                if let Some(right) = leaf(b, t, i) {
                    return apply_pair(alloc, f, left, right);
                }
            }
            let a = value_of(alloc, a, t, i, s)?;
            match value_of(alloc, b, t, i, s) {
                Ok(b) => apply_two(alloc, f, a, b),
                Err(e) => {
                    drop(a);
                    Err(e)
                }
            }
        }
        _ => {
            let values = values_of(alloc, args, t, i, s)?;
            apply_all(alloc, f, values)
        }
    }
}

/// The values of several arguments.
#[cycle(value)]
#[tactic(auto, using(crate::proofs::NodeSteps::values_steps, crate::proofs::FormFacts::form_facts, crate::proofs::MeansSteps::item_steps))]
fn values_of<'a>(
    alloc: Global,
    args: &'a [Node],
    t: &'a Table,
    i: usize,
    s: &'a [Option<Row>],
) -> Result<Vec<Lent<'a>>, AllocError>
    requires placed { ArePlaced t.now.columns args.now }
    requires row { i < length t.now.lines }
    requires sound { AreSound s.now }
    ensures value { IfOk result (λ ls. map shown ls.items ≡ values_of args.now t.now i s.now) }
    ensures form { IfOk result (λ ls. AreWellFormed (map shown ls.items)) }
{
    let mut values = Vec::with_capacity(alloc, args.len())?;
    'arguments: for arg in args {
        let value = value_of(alloc, arg, t, i, s)?;
        values.push(value)?;
    }
    Ok(values)
}

/// The value of a chain behind a first value.
#[cycle(value)]
#[tactic(auto, using(crate::proofs::NodeSteps::along_steps, crate::proofs::MeansSteps::item_steps, crate::proofs::FormFacts::value_forms))]
fn value_along<'a>(
    alloc: Global,
    links: &'a [NodeLink],
    first: Lent<'a>,
    t: &'a Table,
    i: usize,
    s: &'a [Option<Row>],
) -> Result<Lent<'a>, AllocError>
    requires placed { AreLinksPlaced t.now.columns links.now }
    requires row { i < length t.now.lines }
    requires sound { AreSound s.now }
    requires form { IsWellFormed (shown first) }
    ensures value { IfOk result (λ l. shown l ≡ along links.now t.now i s.now (shown first.entry)) }
    ensures form { IfOk result (λ l. IsWellFormed (shown l)) }
{
    let mut left = first;
    'links: for link in links {
        let value = linked(alloc, link.0.func(), left, &link.1, t, i, s)?;
        left = Lent::of(alloc, value)?;
    }
    Ok(left)
}

/// The value of one sign of a chain: what stands on the left, and the part on the right.
#[cycle(value)]
fn linked(
    alloc: Global,
    f: Func,
    left: Lent<'_>,
    right: &Node,
    t: &Table,
    i: usize,
    s: &[Option<Row>],
) -> Result<Value, AllocError>
    requires placed { IsPlaced t.now.columns right.now }
    requires row { i < length t.now.lines }
    requires sound { AreSound s.now }
    requires form { IsWellFormed (shown left) }
    ensures value { IfOk result (λ v. v ≡ applied f (shown left.entry ∷ val (means right.now) t.now i s.now ∷ [])) }
    ensures form { IfOk result IsWellFormed }
{
    if let Some(right) = leaf(right, t, i) {
        let result = apply_pair(alloc, f, left.as_cell(), right);
        drop(left);
        return result;
    }
    match value_of(alloc, right, t, i, s) {
        Ok(right) => apply_two(alloc, f, left, right),
        Err(e) => {
            drop(left);
            Err(e)
        }
    }
}

/// The value at the end of a path into a value.
#[cycle(value)]
#[tactic(auto, using(crate::proofs::NodeSteps::down_steps, crate::proofs::MeansSteps::item_steps, crate::proofs::FormFacts::value_forms))]
fn value_down<'a>(
    alloc: Global,
    steps: &'a [Node],
    whole: Lent<'a>,
    t: &'a Table,
    i: usize,
    s: &'a [Option<Row>],
) -> Result<Lent<'a>, AllocError>
    requires placed { ArePlaced t.now.columns steps.now }
    requires row { i < length t.now.lines }
    requires sound { AreSound s.now }
    requires form { IsWellFormed (shown whole) }
    ensures value { IfOk result (λ l. shown l ≡ down steps.now t.now i s.now (shown whole.entry)) }
    ensures form { IfOk result (λ l. IsWellFormed (shown l)) }
{
    let mut left = whole;
    'steps: for step in steps {
        match value_of(alloc, step, t, i, s) {
            Ok(right) => {
                let value = apply_two(alloc, Func::Dynamic(DynamicFunc::At), left, right)?;
                left = Lent::of(alloc, value)?;
            }
            Err(e) => {
                drop(left);
                return Err(e);
            }
        }
    }
    Ok(left)
}

/// The bool that a part of an expression is, if it is one.
#[cycle(value)]
#[tactic(auto, using(crate::proofs::NodeSteps::node_steps, crate::proofs::PartSteps::placed_parts))]
pub(crate) fn truth_of(
    alloc: Global,
    node: &Node,
    t: &Table,
    i: usize,
    s: &[Option<Row>],
) -> Result<Option<bool>, AllocError>
    requires placed { IsPlaced t.now.columns node.now }
    requires row { i < length t.now.lines }
    requires sound { AreSound s.now }
    ensures truth { IfOk result (λ b. b ≡ truth (val (means node.now) t.now i s.now)) }
{
    match node {
        Node::Call(f, args) => truth_of_call(alloc, *f, parts(args, t), t, i, s),
        _ => {
            let value = value_of(alloc, node, t, i, s)?;
            Ok(truth_in(value))
        }
    }
}

/// The bool that a call gives, if it gives one.
#[cycle(value)]
#[tactic(auto, using(crate::proofs::NodeSteps::applied_steps))]
pub(crate) fn truth_of_call(
    alloc: Global,
    f: Func,
    args: &[Node],
    t: &Table,
    i: usize,
    s: &[Option<Row>],
) -> Result<Option<bool>, AllocError>
    requires placed { ArePlaced t.now.columns args.now }
    requires row { i < length t.now.lines }
    requires sound { AreSound s.now }
    ensures truth { IfOk result (λ b. b ≡ truth (applied f (values_of args.now t.now i s.now))) }
{
    match f {
        Func::Logic(f) => logic(alloc, f, args, t, i, s),
        Func::Choice(f) => {
            let value = call(alloc, Func::Choice(f), args, t, i, s)?;
            Ok(truth_in(value))
        }
        _ => {
            let value = computed(alloc, f, args, t, i, s)?;
            Ok(truth_of_value(value))
        }
    }
}

/// What an operator on bools gives.
#[cycle(value)]
#[tactic(auto, using(crate::proofs::NodeSteps::truth_steps))]
fn logic(
    alloc: Global,
    f: LogicFunc,
    args: &[Node],
    t: &Table,
    i: usize,
    s: &[Option<Row>],
) -> Result<Option<bool>, AllocError>
    requires placed { ArePlaced t.now.columns args.now }
    requires row { i < length t.now.lines }
    requires sound { AreSound s.now }
    ensures truth { IfOk result (λ b. b ≡ truth (logic f (values_of args.now t.now i s.now))) }
{
    match f {
        LogicFunc::And => conjunction(alloc, args, t, i, s),
        LogicFunc::Or => disjunction(alloc, args, t, i, s),
        LogicFunc::Not => match args {
            [] => Ok(None),
            [first, ..] => Ok(opposite(truth_of(alloc, first, t, i, s)?)),
        },
    }
}

/// False where an argument is, at the first such one; else not known where one is not known.
#[cycle(value)]
#[tactic(auto, using(crate::proofs::NodeSteps::and_steps, crate::proofs::MeansSteps::item_steps))]
fn conjunction(
    alloc: Global,
    args: &[Node],
    t: &Table,
    i: usize,
    s: &[Option<Row>],
) -> Result<Option<bool>, AllocError>
    requires placed { ArePlaced t.now.columns args.now }
    requires row { i < length t.now.lines }
    requires sound { AreSound s.now }
    ensures truth { IfOk result (λ b. b ≡ conjunction (values_of args.now t.now i s.now)) }
{
    let mut known = Some(true);
    'terms: for arg in args {
        let truth = truth_of(alloc, arg, t, i, s)?;
        let next = both(known, truth);
        if is_decided(next, false) {
            return Ok(next);
        }
        known = next;
    }
    Ok(known)
}

/// True where an argument is, at the first such one; else not known where one is not known.
#[cycle(value)]
#[tactic(auto, using(crate::proofs::NodeSteps::or_steps, crate::proofs::MeansSteps::item_steps))]
fn disjunction(
    alloc: Global,
    args: &[Node],
    t: &Table,
    i: usize,
    s: &[Option<Row>],
) -> Result<Option<bool>, AllocError>
    requires placed { ArePlaced t.now.columns args.now }
    requires row { i < length t.now.lines }
    requires sound { AreSound s.now }
    ensures truth { IfOk result (λ b. b ≡ disjunction (values_of args.now t.now i s.now)) }
{
    let mut known = Some(false);
    'terms: for arg in args {
        let truth = truth_of(alloc, arg, t, i, s)?;
        let next = either(known, truth);
        if is_decided(next, true) {
            return Ok(next);
        }
        known = next;
    }
    Ok(known)
}

/// The value that a condition chooses.
#[cycle(value)]
#[tactic(auto, using(crate::proofs::NodeSteps::choice_steps, crate::proofs::FormFacts::value_forms), unfolding(kql_scalar_fns::specs::Choice::choice, kql_scalar_fns::specs::Choice::chosen, kql_scalar_fns::specs::Applied::applied))]
fn chosen<'a>(
    alloc: Global,
    args: &'a [Node],
    t: &'a Table,
    i: usize,
    s: &'a [Option<Row>],
) -> Result<Lent<'a>, AllocError>
    requires placed { ArePlaced t.now.columns args.now }
    requires row { i < length t.now.lines }
    requires sound { AreSound s.now }
    ensures value { IfOk result (λ l. shown l ≡ choice choice_func.Iff (values_of args.now t.now i s.now)) }
    ensures form { IfOk result (λ l. IsWellFormed (shown l)) }
{
    match args {
        [condition, a, b, ..] => {
            if is_true(truth_of(alloc, condition, t, i, s)?) {
                value_of(alloc, a, t, i, s)
            } else {
                value_of(alloc, b, t, i, s)
            }
        }
        _ => {
            let value = computed(alloc, Func::Choice(ChoiceFunc::Iff), args, t, i, s)?;
            Lent::of(alloc, value)
        }
    }
}

/// The value behind the first condition that is true, and else the last value. What stands behind it is not evaluated.
#[cycle(value)]
#[tactic(auto, using(crate::proofs::ChoiceSteps::case_steps, crate::proofs::FormFacts::value_forms))]
fn case_value<'a>(
    alloc: Global,
    args: &'a [Node],
    t: &'a Table,
    i: usize,
    s: &'a [Option<Row>],
) -> Result<Lent<'a>, AllocError>
    requires placed { ArePlaced t.now.columns args.now }
    requires row { i < length t.now.lines }
    requires sound { AreSound s.now }
    ensures value { IfOk result (λ l. shown l ≡ first_case (values_of args.now t.now i s.now)) }
    ensures form { IfOk result (λ l. IsWellFormed (shown l)) }
{
    let found = case_place(alloc, args, t, i, s)?;
    match found {
        Some(place) => value_of(alloc, part_at(args, place, t), t, i, s),
        None => Ok(Lent::Cell(CellRef::Null)),
    }
}

/// The place of the argument that `case` gives, if it gives one.
#[cycle(value)]
#[tactic(auto, using(crate::proofs::ChoiceSteps::place_steps))]
fn case_place(
    alloc: Global,
    args: &[Node],
    t: &Table,
    i: usize,
    s: &[Option<Row>],
) -> Result<Option<usize>, AllocError>
    requires placed { ArePlaced t.now.columns args.now }
    requires row { i < length t.now.lines }
    requires sound { AreSound s.now }
    ensures place { IfOk result (λ p. given_at p (values_of args.now t.now i s.now) ≡ first_case (values_of args.now t.now i s.now)) }
    ensures within { IfOk result (λ p. IfSome p (λ k. k < length args.now)) }
{
    let pairs = args.len() / 2;
    'conditions: for k in 0..pairs {
        let condition = part_at(args, 2 * k, t);
        let truth = truth_of(alloc, condition, t, i, s)?;
        if is_true(truth) {
            return Ok(Some(2 * k + 1));
        }
    }
    let odd = args.len() % 2 == 1;
    if odd {
        return Ok(Some(2 * pairs));
    }
    Ok(None)
}

/// The first value that is not empty, and else the last. What stands behind it is not evaluated.
#[cycle(value)]
#[tactic(auto, using(crate::proofs::ChoiceSteps::given_steps, crate::proofs::FormFacts::value_forms))]
fn first_given<'a>(
    alloc: Global,
    args: &'a [Node],
    t: &'a Table,
    i: usize,
    s: &'a [Option<Row>],
) -> Result<Lent<'a>, AllocError>
    requires placed { ArePlaced t.now.columns args.now }
    requires row { i < length t.now.lines }
    requires sound { AreSound s.now }
    ensures value { IfOk result (λ l. shown l ≡ first_given (values_of args.now t.now i s.now)) }
    ensures form { IfOk result (λ l. IsWellFormed (shown l)) }
{
    'arguments: for k in 0..args.len() {
        let value = value_of(alloc, part_at(args, k, t), t, i, s)?;
        let given = !is_empty(&value);
        if given {
            return Ok(value);
        }
        let last = k + 1 == args.len();
        if last {
            return Ok(value);
        }
        drop(value);
    }
    Ok(Lent::Cell(CellRef::Null))
}

/// What a window function gives at a row.
#[cycle(value)]
#[tactic(auto, using(crate::proofs::WindowSteps::window_steps))]
fn window<'a>(
    alloc: Global,
    f: Window,
    args: &'a [Node],
    kind: Option<Kind>,
    t: &'a Table,
    i: usize,
    s: &'a [Option<Row>],
) -> Result<Lent<'a>, AllocError>
    requires placed { ArePlaced t.now.columns args.now }
    requires kind { IsOfFirst t.now.columns args.now kind }
    requires row { i < length t.now.lines }
    requires sound { AreSound s.now }
    ensures value { IfOk result (λ l. shown l ≡ window_of f args.now t.now i s.now) }
    ensures form { IfOk result (λ l. IsWellFormed (shown l)) }
{
    match f {
        Window::Prev => {
            let away = distance(alloc, args, t, i, s)?;
            looked_at(alloc, args, row_before(t, i, away), kind, t, i, s)
        }
        Window::Next => {
            let away = distance(alloc, args, t, i, s)?;
            looked_at(alloc, args, row_after(t, i, away), kind, t, i, s)
        }
        Window::RowCumsum => {
            let sum = running_sum(alloc, args, kind, t, i, s)?;
            Lent::of(alloc, sum)
        }
        Window::RowNumber => {
            let number = row_number(alloc, args, t, i, s)?;
            Lent::of(alloc, number)
        }
    }
}

/// How many rows `prev` and `next` look away.
#[cycle(value)]
#[tactic(auto, using(crate::proofs::WindowSteps::distance_steps))]
fn distance(
    alloc: Global,
    args: &[Node],
    t: &Table,
    i: usize,
    s: &[Option<Row>],
) -> Result<usize, AllocError>
    requires placed { ArePlaced t.now.columns args.now }
    requires row { i < length t.now.lines }
    requires sound { AreSound s.now }
    ensures value { IfOk result (λ k. k ≡ distance args.now t.now i s.now) }
{
    match args {
        [_, away, ..] => {
            let value = value_of(alloc, away, t, i, s)?;
            Ok(count_in(value))
        }
        _ => Ok(1),
    }
}

/// The first argument at a row, where there is one, and else the third at this row.
#[cycle(value)]
#[tactic(auto, using(crate::proofs::WindowSteps::look_steps, crate::proofs::FormFacts::value_forms))]
fn looked_at<'a>(
    alloc: Global,
    args: &'a [Node],
    row: Option<usize>,
    kind: Option<Kind>,
    t: &'a Table,
    i: usize,
    s: &'a [Option<Row>],
) -> Result<Lent<'a>, AllocError>
    requires placed { ArePlaced t.now.columns args.now }
    requires kind { IsOfFirst t.now.columns args.now kind }
    requires row { i < length t.now.lines }
    requires looked { IfSome row (λ j. j < length t.now.lines) }
    requires sound { AreSound s.now }
    ensures value { IfOk result (λ l. shown l ≡ looked_at args.now row t.now i s.now) }
    ensures form { IfOk result (λ l. IsWellFormed (shown l)) }
{
    match row {
        Some(j) => match args {
            [] => Ok(Lent::Cell(CellRef::Null)),
            [looked, ..] => value_of(alloc, looked, t, j, s),
        },
        None => match args {
            [_, _, instead, ..] => value_of(alloc, instead, t, i, s),
            _ => Ok(Lent::Cell(absent_as(kind))),
        },
    }
}

/// The row from which `row_cumsum` and `row_number` count.
#[cycle(value)]
#[tactic(auto, using(crate::proofs::WindowSteps::start_steps))]
fn run_start(
    alloc: Global,
    args: &[Node],
    t: &Table,
    i: usize,
    s: &[Option<Row>],
) -> Result<usize, AllocError>
    requires placed { ArePlaced t.now.columns args.now }
    requires row { i < length t.now.lines }
    requires sound { AreSound s.now }
    ensures start { IfOk result (λ b. b ≡ run_start (slice_get (readings_of args.now) 1) t.now i s.now) }
    ensures order { IfOk result (λ b. b ≤ i) }
{
    match args {
        [_, restart, ..] => last_restart(alloc, restart, t, i, s),
        _ => Ok(0),
    }
}

/// The last row not after a row at which a restart is true, and else the first row.
#[cycle(value)]
#[tactic(auto, using(crate::proofs::WindowSteps::restart_steps))]
fn last_restart(
    alloc: Global,
    restart: &Node,
    t: &Table,
    i: usize,
    s: &[Option<Row>],
) -> Result<usize, AllocError>
    requires placed { IsPlaced t.now.columns restart.now }
    requires row { i < length t.now.lines }
    requires sound { AreSound s.now }
    ensures start { IfOk result (λ b. b ≡ last_where (is_restart restart.now t.now s.now) i) }
    ensures order { IfOk result (λ b. b ≤ i) }
{
    'rows: for k in 0..i {
        let row = row_back(t, i, k);
        let truth = truth_of(alloc, restart, t, row, s)?;
        if is_true(truth) {
            return Ok(row);
        }
    }
    Ok(0)
}

/// What `row_cumsum` gives.
#[cycle(value)]
#[tactic(auto, using(crate::proofs::WindowSteps::sum_steps))]
fn running_sum(
    alloc: Global,
    args: &[Node],
    kind: Option<Kind>,
    t: &Table,
    i: usize,
    s: &[Option<Row>],
) -> Result<Value, AllocError>
    requires placed { ArePlaced t.now.columns args.now }
    requires kind { IsOfFirst t.now.columns args.now kind }
    requires row { i < length t.now.lines }
    requires sound { AreSound s.now }
    ensures value { IfOk result (λ v. v ≡ window_of window_func.RowCumsum args.now t.now i s.now) }
    ensures form { IfOk result IsWellFormed }
{
    match args {
        [] => Ok(Value::Long(0)),
        [term, ..] => {
            let from = run_start(alloc, args, t, i, s)?;
            let sum = sum_between(alloc, term, t, from, i, s)?;
            Ok(fitted(kind, sum))
        }
    }
}

/// The sum of a term over the rows from one to another, nulls left out.
#[cycle(value)]
#[tactic(auto, using(crate::proofs::WindowSteps::between_steps))]
fn sum_between(
    alloc: Global,
    term: &Node,
    t: &Table,
    from: usize,
    i: usize,
    s: &[Option<Row>],
) -> Result<i128, AllocError>
    requires placed { IsPlaced t.now.columns term.now }
    requires row { i < length t.now.lines }
    requires order { from ≤ i }
    requires sound { AreSound s.now }
    ensures sum { IfOk result (λ n. n ≡ sum_over term.now t.now s.now from (i + 1)) }
{
    let mut sum = 0;
    'rows: for j in from..row_end(t, i) {
        let value = value_of(alloc, term, t, row_up_to(t, i, j), s)?;
        sum = with_number(sum, number_in(value), j - from);
    }
    Ok(sum)
}

/// What `row_number` gives.
#[cycle(value)]
#[tactic(auto, using(crate::proofs::WindowSteps::number_steps))]
fn row_number(
    alloc: Global,
    args: &[Node],
    t: &Table,
    i: usize,
    s: &[Option<Row>],
) -> Result<Value, AllocError>
    requires placed { ArePlaced t.now.columns args.now }
    requires row { i < length t.now.lines }
    requires sound { AreSound s.now }
    ensures value { IfOk result (λ v. v ≡ window_of window_func.RowNumber args.now t.now i s.now) }
    ensures form { IfOk result IsWellFormed }
{
    let from = run_start(alloc, args, t, i, s)?;
    let count = Lent::Cell(CellRef::Long(rows_between(t, from, i)));
    let add = Func::Arithmetic(ArithmeticFunc::Add);
    match args {
        [] => apply_two(alloc, add, Lent::Cell(CellRef::Long(1)), count),
        [start, ..] => {
            let first = value_of(alloc, start, t, i, s)?;
            apply_two(alloc, add, first, count)
        }
    }
}
