ghost use Rattle.std.specs.Prelude.{◌≡◌, ◌≤◌, true, IfOk, IfSome, map, option_map};
ghost use Rattle.serde_json.specs.Data.{depth as nesting};
ghost use Rattle.serde_json.specs.Read.{max_depth, read as read_text};
ghost use Rattle.serde_json.specs.View.{number_view, view};
ghost use Rattle.kql_cells.specs.Dynamic.{ascends, has_form};
ghost use Rattle.kql_cells.specs.Values.{IsOfKind, IsWellFormed};
ghost use Rattle.kql_cells.specs.declared.value.Kind.TheVariants.{Dynamic};
ghost use Rattle.std.specs.List.{list_all};
ghost use Rattle.kql_dynamic.specs.Json.{dyn_of, entry_of, number_dyn, parsed, part_of};

use crate::parts::value_of;
use kql_cells::{Dyn, DynBag, DynList, KText, Value};
use kql_items::Items;
use serde_json::{Map, Number, Value as Json};
use std::alloc::{AllocError, Global};

/// The value of a JSON text (RFC 8259).
///
/// A whole number in the range of an `i64` is a long, another number null; of a repeated key the last value
/// stays; a `null` at the top is the null value. A text that is no JSON, or nests deeper than 127 levels, is a
/// dynamic value holding that text.
#[tactic(auto, using(crate::proofs::JsonFormLaws::json_forms), unfolding(crate::specs::Json::parsed))]
pub fn parse_json(alloc: Global, t: &str) -> Result<Value, AllocError>
    ensures value { IfOk result (λ v. v ≡ parsed t.now) }
    ensures kind { IfOk result (IsOfKind Dynamic) }
    ensures form { IfOk result IsWellFormed }
{
    match read(alloc, t)? {
        Some(json) => Ok(value_of(dyn_of(alloc, &json)?)),
        None => Ok(Value::Dynamic(Dyn::Text(KText::from_str(alloc, t)?))),
    }
}

// What `serde_json` reads, none where it reads nothing.
fn read(alloc: Global, t: &str) -> Result<Option<Json>, AllocError>
    ensures data { IfOk result (λ o. option_map view o ≡ read_text t.now) }
    ensures nests { IfOk result (λ o. IfSome o (λ v. nesting (view v) ≤ max_depth)) }
{
    match Json::from_str(alloc, t) {
        Ok(json) => Ok(Some(json)),
        Err(e) => {
            if e.is_memory() {
                Err(AllocError)
            } else {
                Ok(None)
            }
        }
    }
}

#[cycle(dyn_of)]
#[tactic(auto, using(crate::proofs::JsonFormLaws::json_forms))]
fn dyn_of(alloc: Global, json: &Json) -> Result<Dyn, AllocError>
    ensures value { IfOk result (λ d. d ≡ dyn_of (view json.now)) }
    ensures form { IfOk result (λ d. has_form d ≡ true) }
{
    match json {
        Json::Null => Ok(Dyn::Null),
        Json::Bool(b) => Ok(Dyn::Bool(*b)),
        Json::Number(n) => Ok(number_dyn(n)),
        Json::String(s) => Ok(Dyn::Text(KText::from_str(alloc, s.as_str())?)),
        Json::Array(items) => Ok(Dyn::Array(parts_of(alloc, items)?)),
        Json::Object(members) => Ok(Dyn::Bag(entries_of(alloc, members)?)),
    }
}

#[cycle(dyn_of)]
fn parts_of(alloc: Global, items: &Vec<Json>) -> Result<DynList, AllocError>
    ensures value { IfOk result (λ ds. ds ≡ map part_of items.now.items) }
    ensures form { IfOk result (λ ds. list_all has_form ds ≡ true) }
{
    let mut parts = Items::with_capacity(alloc, items.len())?;
    for item in items {
        parts.push(dyn_of(alloc, item)?)?;
    }
    Ok(parts)
}

#[cycle(dyn_of)]
fn entries_of(alloc: Global, members: &Map<String, Json>) -> Result<DynBag, AllocError>
    ensures value { IfOk result (λ es. es ≡ map entry_of members.now.entries) }
    ensures form { IfOk result (λ es. list_all (λ e. has_form e.1) es ≡ true) }
    ensures ascend { IfOk result (λ es. ascends es ≡ true) }
{
    let mut entries = Items::with_capacity(alloc, members.len())?;
    for (key, member) in members.iter() {
        let name = KText::from_str(alloc, key.as_str())?;
        entries.push((name, dyn_of(alloc, member)?))?;
    }
    Ok(entries)
}

// A long where it is one, and else null.
#[tactic(auto, using(crate::proofs::JsonFormLaws::json_forms))]
fn number_dyn(n: &Number) -> Dyn
    ensures value { result ≡ number_dyn (number_view n.now) }
    ensures form { has_form result ≡ true }
{
    match n.as_i64() {
        Some(x) => Dyn::Long(x),
        None => Dyn::Null,
    }
}
