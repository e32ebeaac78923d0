//! Looking into JSON.
ghost use Rattle.std.specs.Prelude.{◌≡◌, IfOk, option_and_then, option_map};
ghost use Rattle.serde_json.specs.Find.{as_array, get};
ghost use Rattle.serde_json.specs.Read.{read as read_text};
ghost use Rattle.serde_json.specs.View.{items_view, view};
ghost use Rattle.catalogue_file.specs.Json.{has_keys, list_at, nonempty, some_text, text_at};

use serde_json::Value as Json;
use std::alloc::{AllocError, Global};

/// What `serde_json` reads, none where it reads nothing.
pub(crate) fn read_json(alloc: Global, text: &str) -> Result<Option<Json>, AllocError>
    ensures data { IfOk result (λ o. option_map view o ≡ read_text text.now) }
{
    match Json::from_str(alloc, text) {
        Ok(json) => Ok(Some(json)),
        Err(e) => {
            if e.is_memory() {
                Err(AllocError)
            } else {
                Ok(None)
            }
        }
    }
}

/// Whether it is an object of so many keys.
pub(crate) fn has_keys(json: &Json, count: usize) -> bool
    ensures keys { result ≡ has_keys count (view json.now) }
{
    match json.as_object() {
        Some(members) => members.len() == count,
        None => false,
    }
}

/// The array at a key of an object.
pub(crate) fn list_at<'a>(json: &'a Json, key: &str) -> Option<&'a [Json]>
    ensures list { option_map (λ items. items_view items.now) result ≡ list_at key.now (view json.now) }
{
    let value = json.get(key)?;
    let items = value.as_array()?;
    Some(items.as_slice())
}

/// The text at a key of an object.
pub(crate) fn text_at<'a>(json: &'a Json, key: &str) -> Option<&'a str>
    ensures text { option_map (λ text. text.now) result ≡ text_at key.now (view json.now) }
{
    let value = json.get(key)?;
    value.as_str()
}

/// A text that is not empty.
pub(crate) fn some_text(json: &Json) -> Option<&str>
    ensures text { option_map (λ text. text.now) result ≡ some_text (view json.now) }
{
    nonempty(json.as_str()?)
}

/// The text, where it is not empty.
pub(crate) fn nonempty(text: &str) -> Option<&str>
    ensures text { option_map (λ text. text.now) result ≡ nonempty text.now }
{
    if text.is_empty() { None } else { Some(text) }
}
