ghost use Rattle.std.specs.Prelude.{◌≡◌, IfOk, IsTrue, length, map};
ghost use Rattle.std.specs.List.{list_all};
ghost use Rattle.kql_cells.specs.Dynamic.{is_well_formed_dynamic};
ghost use Rattle.kql_cells.specs.Seen.{seen};
ghost use Rattle.kql_cells.specs.Values.{IsWellFormed};
ghost use Rattle.kql_scalar_fns.specs.Arguments.{AreWellFormed};
ghost use Rattle.kql_scalar_fns.specs.Dynamic.{at, call_of_elements, call_of_one, dynamic_call, element, held, read};

use crate::arguments::argument;
use crate::readings::text_in;
use kql_cells::{CellRef, Dyn, KText, Value, clone_dyn};
use kql_dynamic::{
    array_concat, array_index_of, array_length, array_reverse, array_slice, at_index, at_name,
    bag_has_key, bag_keys, bag_merge, bag_pack, pack_array, parse_json, set_difference,
    set_has_element, set_intersect, set_union,
};
use kql_functions::DynamicFunc;
use kql_ticks::{print_moment, print_span};
use std::alloc::{AllocError, Global};

#[tactic(auto, unfolding(crate::specs::Dynamic::dynamic_call))]
pub(crate) fn apply_dynamic(
    alloc: Global,
    f: DynamicFunc,
    args: &[CellRef<'_>],
) -> Result<Value, AllocError>
    requires { AreWellFormed (map seen args.now) }
    ensures value { IfOk result (λ v. v ≡ dynamic_call f (map seen args.now)) }
    ensures form { IfOk result IsWellFormed }
{
    match f {
        DynamicFunc::At => at(alloc, argument(args, 0), argument(args, 1)),
        DynamicFunc::ParseJson | DynamicFunc::ToDynamic => read(alloc, argument(args, 0)),
        DynamicFunc::ArrayLength | DynamicFunc::ArrayReverse | DynamicFunc::BagKeys => {
            call_of_one(alloc, f, argument(args, 0))
        }
        _ => call_of_elements(alloc, f, args),
    }
}

// An argument as an element: a dynamic value is lent, and another is made.
#[derive(Drop)]
pub(crate) enum Operand<'a> {
    Lent(&'a Dyn),
    Made(Dyn),
}

impl<'a> Operand<'a> {
    fn value(&self) -> &Dyn
        ensures { result.now ≡ held self.now }
    {
        match self {
            Operand::Lent(d) => d,
            Operand::Made(d) => d,
        }
    }
}

// A value as an element: a datetime or timespan is its printed text.
#[tactic(auto, using(crate::proofs::ElementLaws::element_facts), unfolding(crate::specs::Dynamic::element))]
fn element(alloc: Global, a: CellRef<'_>) -> Result<Operand<'_>, AllocError>
    requires { IsWellFormed (seen a) }
    ensures value { IfOk result (λ e. held e ≡ element (seen a.entry)) }
    ensures form { IfOk result (λ e. IsTrue (is_well_formed_dynamic (held e))) }
{
    match a {
        CellRef::Null => Ok(Operand::Made(Dyn::Null)),
        CellRef::Bool(b) => Ok(Operand::Made(Dyn::Bool(b))),
        CellRef::Long(n) => Ok(Operand::Made(Dyn::Long(n))),
        CellRef::Text(t) => Ok(Operand::Made(Dyn::Text(KText::from_str(alloc, t)?))),
        CellRef::Moment(n) => Ok(Operand::Made(Dyn::Text(print_moment(alloc, n)?))),
        CellRef::Span(n) => Ok(Operand::Made(Dyn::Text(print_span(alloc, n)?))),
        CellRef::Dynamic(d) => Ok(Operand::Lent(d)),
    }
}

// The arguments as elements. No dynamic value is copied.
#[tactic(auto, using(crate::proofs::ArgumentFacts::argument_facts, crate::proofs::ElementLaws::element_facts))]
fn elements<'a>(alloc: Global, args: &[CellRef<'a>]) -> Result<Vec<Operand<'a>>, AllocError>
    requires { AreWellFormed (map seen args.now) }
    ensures value { IfOk result (λ v. map held v.items ≡ map element (map seen args.now)) }
    ensures form { IfOk result (λ v. IsTrue (list_all is_well_formed_dynamic (map held v.items))) }
    ensures count { IfOk result (λ v. length v.items ≡ length args.now) }
{
    let mut elements = Vec::with_capacity(alloc, args.len())?;
    'arguments: for arg in args {
        elements.push(element(alloc, *arg)?)?;
    }
    Ok(elements)
}

// These, lent.
fn lent<'a>(alloc: Global, elements: &'a [Operand<'a>]) -> Result<Vec<&'a Dyn>, AllocError>
    ensures value { IfOk result (λ v. map (λ d. d.now) v.items ≡ map held elements.now) }
    ensures count { IfOk result (λ v. length v.items ≡ length elements.now) }
{
    let mut values = Vec::with_capacity(alloc, elements.len())?;
    'elements: for element in elements {
        values.push(element.value())?;
    }
    Ok(values)
}

#[tactic(auto, unfolding(crate::specs::Dynamic::at))]
fn at(alloc: Global, a: CellRef<'_>, place: CellRef<'_>) -> Result<Value, AllocError>
    requires { IsWellFormed (seen a) }
    ensures value { IfOk result (λ v. v ≡ at (seen a.entry) (seen place.entry)) }
    ensures form { IfOk result IsWellFormed }
{
    match (a, place) {
        (CellRef::Dynamic(d), CellRef::Text(n)) => at_name(alloc, d, n),
        (CellRef::Dynamic(d), CellRef::Long(i)) => at_index(alloc, d, i),
        _ => Ok(Value::Null),
    }
}

// What a text reads as; a dynamic that is no text is itself.
#[tactic(auto, unfolding(crate::specs::Dynamic::read))]
fn read(alloc: Global, a: CellRef<'_>) -> Result<Value, AllocError>
    requires { IsWellFormed (seen a) }
    ensures value { IfOk result (λ v. v ≡ read (seen a.entry)) }
    ensures form { IfOk result IsWellFormed }
{
    match a {
        CellRef::Text(t) => parse_json(alloc, t),
        CellRef::Dynamic(d) => match text_in(d) {
            Some(t) => parse_json(alloc, t),
            None => Ok(Value::Dynamic(clone_dyn(alloc, d)?)),
        },
        _ => Ok(Value::Null),
    }
}

// A call on one dynamic value.
#[tactic(auto, unfolding(crate::specs::Dynamic::of_one))]
fn call_of_one(alloc: Global, f: DynamicFunc, a: CellRef<'_>) -> Result<Value, AllocError>
    requires { IsWellFormed (seen a) }
    ensures value { IfOk result (λ v. v ≡ call_of_one f (seen a.entry)) }
    ensures form { IfOk result IsWellFormed }
{
    let CellRef::Dynamic(d) = a else {
        return Ok(Value::Null);
    };
    match f {
        DynamicFunc::ArrayLength => array_length(alloc, &[d]),
        DynamicFunc::ArrayReverse => array_reverse(alloc, &[d]),
        DynamicFunc::BagKeys => bag_keys(alloc, &[d]),
        _ => Ok(Value::Null),
    }
}

// A call on the arguments as elements.
#[tactic(auto, unfolding(crate::specs::Dynamic::of_all, crate::specs::Dynamic::of_count))]
fn call_of_elements(
    alloc: Global,
    f: DynamicFunc,
    args: &[CellRef<'_>],
) -> Result<Value, AllocError>
    requires { AreWellFormed (map seen args.now) }
    ensures value { IfOk result (λ v. v ≡ call_of_elements f (map seen args.now)) }
    ensures form { IfOk result IsWellFormed }
{
    let elements = elements(alloc, args)?;
    let values = lent(alloc, &elements)?;
    let count = values.len();
    match f {
        DynamicFunc::ArrayConcat => array_concat(alloc, &values),
        DynamicFunc::BagMerge => bag_merge(alloc, &values),
        DynamicFunc::PackArray => pack_array(alloc, &values),
        DynamicFunc::BagPack => bag_pack(alloc, &values),
        DynamicFunc::ArraySlice if count == 3 => array_slice(alloc, &values),
        DynamicFunc::ArrayIndexOf if count == 2 => array_index_of(alloc, &values),
        DynamicFunc::BagHasKey if count == 2 => bag_has_key(alloc, &values),
        DynamicFunc::SetUnion if count == 2 => set_union(alloc, &values),
        DynamicFunc::SetIntersect if count == 2 => set_intersect(alloc, &values),
        DynamicFunc::SetDifference if count == 2 => set_difference(alloc, &values),
        DynamicFunc::SetHasElement if count == 2 => set_has_element(alloc, &values),
        _ => Ok(Value::Null),
    }
}
