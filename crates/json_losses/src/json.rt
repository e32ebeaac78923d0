//! The numbers of a JSON text.
ghost use Rattle.std.specs.Prelude.{◌≡◌, IfOk, IfErr, option_map};
ghost use Rattle.std.specs.List.{sum_by};
ghost use Rattle.serde_json.specs.Read.{read as read_text};
ghost use Rattle.serde_json.specs.View.{number_view, view};
ghost use Rattle.json_losses.specs.Losses.{data_losses, held, number_losses, read_losses};
ghost use Rattle.json_losses.specs.Views.{entry_losses, part_losses};

use serde_json::{Map, Number, Value as Json};
use std::alloc::{AllocError, Global};

/// How many numbers of a text are read as null: none where it is no JSON.
pub(crate) fn read_losses(alloc: Global, t: &str) -> Result<u64, AllocError>
    ensures count { IfOk result (λ n. n ≡ held (read_losses (read_text t.now))) }
{
    match Json::from_str(alloc, t) {
        Ok(json) => Ok(value_losses(&json)),
        Err(e) => {
            if e.is_memory() {
                Err(AllocError)
            } else {
                Ok(0)
            }
        }
    }
}

#[cycle(value_losses)]
#[tactic(auto, using(crate::proofs::LossFacts::value_steps))]
fn value_losses(json: &Json) -> u64
    ensures { result ≡ held (data_losses (view json.now)) }
{
    match json {
        Json::Null => 0,
        Json::Bool(_) => 0,
        Json::Number(n) => number_losses(n),
        Json::String(_) => 0,
        Json::Array(items) => item_losses(items),
        Json::Object(members) => member_losses(members),
    }
}

#[cycle(value_losses)]
fn item_losses(items: &Vec<Json>) -> u64
    ensures { result ≡ held (sum_by part_losses items.now.items) }
{
    let mut count: u64 = 0;
    for item in items {
        count = count.saturating_add(value_losses(item));
    }
    count
}

#[cycle(value_losses)]
fn member_losses(members: &Map<String, Json>) -> u64
    ensures { result ≡ held (sum_by entry_losses members.now.entries) }
{
    let mut count: u64 = 0;
    for (_, member) in members.iter() {
        count = count.saturating_add(value_losses(member));
    }
    count
}

// One where a number is no whole number in 64 bits.
fn number_losses(n: &Number) -> u64
    ensures { result ≡ number_losses (number_view n.now) }
{
    match n.as_i64() {
        Some(_) => 0,
        None => 1,
    }
}
