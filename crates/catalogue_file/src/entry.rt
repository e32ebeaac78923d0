ghost use Rattle.std.specs.Prelude.{◌≡◌, ◌++◌, ◌∷◌, [], IfOk, Some, option_and_then, option_map};
ghost use Rattle.serde_json.specs.View.{items_view, view};
ghost use Rattle.catalogue_file.specs.Entries.{entry_of, files_behind, files_of};

use crate::columns::read_columns;
use crate::json::{has_keys, list_at, some_text, text_at};
use kql_cells::{KText, Schema};
use kql_items::Items;
use serde_json::Value as Json;
use std::alloc::{AllocError, Global};

/// A table of a catalogue: its name, which any text may be, its columns, and the paths of the files whose rows are its rows, one file's
/// after another.
#[derive(Debug, Drop)]
pub struct Entry {
    pub name: KText,
    pub schema: Schema,
    pub files: Items<KText>,
}

/// The table that an object names, or none where it is of another form.
#[tactic(auto, unfolding(crate::specs::Entries::entry_of))]
pub(crate) fn read_entry(alloc: Global, json: &Json) -> Result<Option<Entry>, AllocError>
    ensures entry { IfOk result (λ o. o ≡ entry_of (view json.now)) }
{
    if !has_keys(json, 3) {
        return Ok(None);
    }
    let Some(name) = text_at(json, "name") else {
        return Ok(None);
    };
    let Some(columns) = list_at(json, "columns") else {
        return Ok(None);
    };
    let Some(files) = list_at(json, "files") else {
        return Ok(None);
    };
    let Some(schema) = read_columns(alloc, columns)? else {
        return Ok(None);
    };
    let Some(files) = read_files(alloc, files)? else {
        return Ok(None);
    };
    let name = KText::from_str(alloc, name)?;
    Ok(Some(Entry {
        name,
        schema,
        files,
    }))
}

// One path or more, none where one is no text or empty.
#[tactic(auto, using(crate::proofs::JsonFacts::files_counted))]
fn read_files(alloc: Global, items: &[Json]) -> Result<Option<Items<KText>>, AllocError>
    ensures files { IfOk result (λ o. o ≡ files_of (items_view items.now)) }
{
    if items.len() == 0 {
        Ok(None)
    } else {
        push_files(alloc, items)
    }
}

// The paths, however many.
#[tactic(auto, unfolding(crate::specs::Entries::files_behind))]
fn push_files(alloc: Global, items: &[Json]) -> Result<Option<Items<KText>>, AllocError>
    ensures files { IfOk result (λ o. o ≡ files_behind [] (items_view items.now)) }
{
    let mut files = Items::new(alloc);
    let mut left = items;
    'files: while let Some((item, more)) = left.split_first() {
        let Some(path) = some_text(item) else {
            return Ok(None);
        };
        files.push(KText::from_str(alloc, path)?)?;
        left = more;
    }
    Ok(Some(files))
}
