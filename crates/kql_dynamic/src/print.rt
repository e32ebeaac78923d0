ghost use Rattle.std.specs.Prelude.{◌≡◌, ◌≢◌, [], false, true, ◌&&◌, IfOk, IsTrue, map, string_bytes};
ghost use Rattle.std.specs.List.{list_all, list_any};
ghost use Rattle.serde_json.specs.Data.{no_members};
ghost use Rattle.serde_json.specs.View.{members_view, view};
ghost use Rattle.serde_json.specs.Written.{has_float, members_have_float};
ghost use Rattle.kql_cells.specs.Dynamic.{ascends, has_form, is_well_formed_dynamic};
ghost use Rattle.kql_dynamic.specs.Json.{dyn_of, entry_of, parsed, part_of};
ghost use Rattle.kql_dynamic.specs.Parts.{value_of};
ghost use Rattle.kql_dynamic.specs.Printed.{data_of, entry_data, is_float_value, printed, puts};

use kql_cells::{Dyn, KText};
use serde_json::{Map, Value as Json};
use std::alloc::{AllocError, Global};

/// The compact JSON text of a dynamic value, as `serde_json` writes it: no space, keys ascending by bytes.
///
/// Reading it gives the value back.
pub fn print_json(alloc: Global, d: &Dyn) -> Result<KText, AllocError>
    requires { IsTrue (is_well_formed_dynamic d.now) }
    ensures text { IfOk result (λ t. t ≡ printed d.now) }
    ensures reads_back { IfOk result (λ t. parsed t ≡ value_of d.now) }
    ensures not_empty { IfOk result (λ t. t ≢ []) }
{
    let json = json_of(alloc, d)?;
    Ok(KText::from_string(json.to_string(alloc)?))
}

#[cycle(json_of)]
#[tactic(auto, using(crate::proofs::PrintFacts::data_steps))]
fn json_of(alloc: Global, d: &Dyn) -> Result<Json, AllocError>
    ensures data { IfOk result (λ v. view v ≡ data_of d.now) }
    ensures whole { IfOk result (λ v. is_float_value v ≡ false) }
    ensures back { IfOk result (λ v. has_form d.now ≡ true → part_of v ≡ d.now) }
{
    match d {
        Dyn::Null => Ok(Json::Null),
        Dyn::Bool(b) => Ok(Json::Bool(*b)),
        Dyn::Long(n) => Ok(Json::from(*n)),
        Dyn::Text(t) => Ok(Json::String(String::from_str(alloc, t.as_str())?)),
        Dyn::Array(parts) => Ok(Json::Array(items_of(alloc, parts.as_slice())?)),
        Dyn::Bag(entries) => Ok(Json::Object(members_of(alloc, entries.as_slice())?)),
    }
}

#[cycle(json_of)]
fn items_of(alloc: Global, parts: &[Dyn]) -> Result<Vec<Json>, AllocError>
    ensures data { IfOk result (λ v. map view v.items ≡ map data_of parts.now) }
    ensures whole { IfOk result (λ v. list_any is_float_value v.items ≡ false) }
    ensures back { IfOk result (λ v. list_all has_form parts.now ≡ true → map part_of v.items ≡ parts.now) }
{
    let mut items = Vec::with_capacity(alloc, parts.len())?;
    for part in parts {
        items.push(json_of(alloc, part)?)?;
    }
    Ok(items)
}

#[cycle(json_of)]
#[tactic(auto, using(crate::proofs::PrintFacts::data_steps))]
fn members_of(alloc: Global, entries: &[(KText, Dyn)]) -> Result<Map<String, Json>, AllocError>
    ensures data { IfOk result (λ m. members_view m.entries ≡ puts no_members (map entry_data entries.now)) }
    ensures whole { IfOk result (λ m. members_have_float (members_view m.entries) ≡ false) }
    ensures back { IfOk result (λ m. (ascends entries.now && list_all (λ e. has_form e.1) entries.now) ≡ true
        → map entry_of m.entries ≡ entries.now) }
{
    let mut members = Map::new(alloc);
    for entry in entries {
        let name = String::from_str(alloc, entry.0.as_str())?;
        let value = json_of(alloc, &entry.1)?;
        drop(members.insert(name, value)?);
    }
    Ok(members)
}
