//! A column looked for in a list of constants: a long list is made to a set once, and each cell is found by its hash.
ghost use Rattle.std.specs.Prelude.{◌≡◌, ◌<◌, IfOk, IfSome, List, Some, false, filter, length, map};
ghost use Rattle.std.specs.HashSet.{contains};
ghost use Rattle.std.specs.List.{list_any};
ghost use Rattle.kql_cells.specs.Keys.{same_key};
ghost use Rattle.kql_cells.specs.Seen.{seen};
ghost use Rattle.kql_cells.specs.declared.value.Value.{Value as Cell};
ghost use Rattle.kql_functions.specs.Kinds.{is_dynamic};
ghost use Rattle.kql_functions.specs.declared.func.Func.TheVariants as func;
ghost use Rattle.kql_scalar_fns.specs.Comparison.{values_in};
ghost use Rattle.kql_scalar.specs.Lists.{AreConstants, IsListTest, list_sign, turned};
ghost use Rattle.kql_scalar.specs.Means.{ArePlaced};
ghost use Rattle.kql_scalar.specs.Rows.{AreBelow, call_passes};

use crate::cells::cell_in;
use crate::list_keys::{CellKey, key_set};
use crate::node::Node;
use crate::rows::{call_passes, push_if};
use kql_cells::CellRef;
use kql_functions::{ComparisonFunc, Func};
use kql_scalar_fns::values_in;
use kql_values::{Kind, Table};
use std::alloc::{AllocError, Global};
use std::collections::HashSet;

/// How many values make a set worth while.
const LONG: usize = 8;

/// The constants of a list as keys in one type.
#[derive(Drop)]
struct ListTest<'a> {
    negated: bool,
    column: usize,
    kind: Kind,
    keys: HashSet<CellKey<'a>>,
}

/// Those of these places at which a comparison is true, where it looks for a column in a long list of constants.
#[tactic(auto, using(crate::proofs::ListSteps::form_steps))]
pub(crate) fn kept_by_list(
    alloc: Global,
    f: ComparisonFunc,
    args: &[Node],
    t: &Table,
    places: &[usize],
) -> Result<Option<Vec<usize>>, AllocError>
    requires placed { ArePlaced t.now.columns args.now }
    requires within { AreBelow (length t.now.lines) places.now }
    ensures places { IfOk result (λ o. IfSome o (λ ps. ps.items ≡ filter (call_passes (func.Comparison f) args.now t.now) places.now)) }
{
    let Some(negated) = list_sign(f) else {
        return Ok(None);
    };
    let Some((column, parts)) = column_and_parts(args, t) else {
        return Ok(None);
    };
    let Some(kind) = list_kind(t, column) else {
        return Ok(None);
    };
    let Some(cells) = constants(alloc, parts, t)? else {
        return Ok(None);
    };
    let values = values_in(alloc, kind, &cells)?;
    if values.len() < LONG {
        return Ok(None);
    }
    let keys = key_set(alloc, &values)?;
    let list = ListTest {
        negated,
        column,
        kind,
        keys,
    };
    let kept = kept_by_keys(alloc, f, args, t, &cells, &list, places)?;
    Ok(Some(kept))
}

// Whether a comparison looks into a list by case, and then whether its answer is turned round.
#[tactic(auto, unfolding(crate::specs::Lists::list_sign))]
fn list_sign(f: ComparisonFunc) -> Option<bool>
    ensures { result ≡ list_sign f }
{
    match f {
        ComparisonFunc::In => Some(false),
        ComparisonFunc::NotIn => Some(true),
        _ => None,
    }
}

// A column, and the parts behind it.
fn column_and_parts<'a>(args: &'a [Node], _t: &Table) -> Option<(usize, &'a [Node])>
    requires { ArePlaced _t.now.columns args.now }
    ensures within { IfSome result (λ p. p.0 < length _t.now.columns) }
    ensures placed { IfSome result (λ p. ArePlaced _t.now.columns p.1.now) }
    ensures test { IfSome result (λ p. (vs : List Cell) → AreConstants p.1.now _t.now vs → IsListTest args.now _t.now p.0 vs) }
{
    if let [first, parts @ ..] = args {
        if let Node::Column(_, place) = first {
            return Some((*place, parts));
        }
    }
    None
}

// The type of a column that is not dynamic.
fn list_kind(t: &Table, column: usize) -> Option<Kind>
    requires within { column < length t.now.columns }
    ensures kind { IfSome result (λ k. is_dynamic k ≡ false) }
{
    match t.schema().columns()[column].kind {
        Kind::Dynamic => None,
        kind => Some(kind),
    }
}

// The values of parts that are constants.
fn constants<'a>(
    alloc: Global,
    parts: &'a [Node],
    _t: &Table,
) -> Result<Option<Vec<CellRef<'a>>>, AllocError>
    requires { ArePlaced _t.now.columns parts.now }
    ensures constants { IfOk result (λ o. IfSome o (λ cs. AreConstants parts.now _t.now (map seen cs.items))) }
{
    let mut cells = Vec::with_capacity(alloc, parts.len())?;
    'parts: for part in parts {
        match part {
            Node::Literal(lit) => cells.push(lit.value.as_cell())?,
            _ => return Ok(None),
        }
    }
    Ok(Some(cells))
}

#[tactic(auto, using(crate::proofs::RowSteps::kept_steps))]
fn kept_by_keys(
    alloc: Global,
    f: ComparisonFunc,
    args: &[Node],
    t: &Table,
    cells: &[CellRef<'_>],
    list: &ListTest<'_>,
    places: &[usize],
) -> Result<Vec<usize>, AllocError>
    requires placed { ArePlaced t.now.columns args.now }
    requires within { AreBelow (length t.now.lines) places.now }
    requires test { IsListTest args.now t.now list.now.column (map seen cells.now) }
    requires sign { list_sign f ≡ Some list.now.negated }
    requires kind { is_dynamic list.now.kind ≡ false }
    requires keys { (v : Cell) → contains same_key list.now.keys v ≡ list_any (same_key v) (values_in list.now.kind (map seen cells.now)) }
    ensures places { IfOk result (λ ps. ps.items ≡ filter (call_passes (func.Comparison f) args.now t.now) places.now) }
{
    let mut kept = Vec::new(alloc);
    'places: for place in places {
        let test = is_kept(alloc, f, args, t, *place, cells, list)?;
        push_if(&mut kept, *place, test)?;
    }
    Ok(kept)
}

// Whether the comparison is true at a row. A cell of another type than its column's is compared with each value.
fn is_kept(
    alloc: Global,
    f: ComparisonFunc,
    args: &[Node],
    t: &Table,
    i: usize,
    _cells: &[CellRef<'_>],
    list: &ListTest<'_>,
) -> Result<bool, AllocError>
    requires placed { ArePlaced t.now.columns args.now }
    requires row { i < length t.now.lines }
    requires test { IsListTest args.now t.now list.now.column (map seen _cells.now) }
    requires sign { list_sign f ≡ Some list.now.negated }
    requires kind { is_dynamic list.now.kind ≡ false }
    requires keys { (v : Cell) → contains same_key list.now.keys v ≡ list_any (same_key v) (values_in list.now.kind (map seen _cells.now)) }
    ensures truth { IfOk result (λ b. b ≡ call_passes (func.Comparison f) args.now t.now i) }
{
    let cell = cell_in(t, i, list.column);
    if cell.is_null() {
        return Ok(list.negated);
    }
    if cell.is_of_kind(list.kind) {
        let found = list.keys.contains(&CellKey::new(cell));
        return Ok(turned(list.negated, found));
    }
    call_passes(alloc, Func::Comparison(f), args, t, i)
}

#[tactic(auto, unfolding(crate::specs::Lists::turned))]
fn turned(negated: bool, b: bool) -> bool
    ensures { result ≡ turned negated b }
{
    if negated { !b } else { b }
}
