ghost use Rattle.std.specs.Prelude.{◌≡◌, ◌++◌, ◌∷◌, [], Ok, IfErr, IfOk, option_and_then, option_map};
ghost use Rattle.serde_json.specs.Read.{read as read_text};
ghost use Rattle.serde_json.specs.View.{items_view, view};
ghost use Rattle.catalogue_file.specs.Catalogue.{IsFaultOf, Reads, catalogue_of, data_tables, entries_behind, has_mark, has_version, is_catalogue, is_version, tables_of, text_tables, without_mark};

use crate::entry::{Entry, read_entry};
use crate::fault::{BAD_CATALOGUE, CatalogueFault, NOT_JSON, NOT_UTF8, refused};
use crate::json::{has_keys, list_at, read_json};
use kql_items::Items;
use serde_json::Value as Json;
use std::alloc::Global;
use std::str;

// The version of a catalogue.
const VERSION: u64 = 2;

/// What a catalogue file says.
#[derive(Debug, Drop)]
pub struct CatalogueFile {
    pub tables: Items<Entry>,
}

/// The tables that a catalogue file names, or the first fault in it.
///
/// The file is JSON (RFC 8259) as `serde_json` reads it, after one byte order mark or none:
/// `{"version":2,"tables":[{"name":"L","columns":[{"name":"x","type":"long"}],"files":["a.csv","b.csv"]}]}`. Each object has exactly the keys
/// that are shown, in any order. There are any number of tables, from one column to 256 of distinct names, and one file or more; the
/// names of columns and the paths are not empty. Of a key that stands twice the last value counts.
///
/// The refusals, in the order in which they are looked for: 301 the file is not UTF-8 (the column is the number of bytes before the first that
/// is not); 309 it is not JSON; 310 the whole is of another form (row 0), or the table of a number (the row) is.
pub fn read_catalogue(alloc: Global, bytes: &[u8]) -> Result<CatalogueFile, CatalogueFault>
    ensures tables { IfOk result (λ c. catalogue_of bytes.now ≡ Ok c.tables) }
    ensures fault { IfErr result (IsFaultOf (catalogue_of bytes.now)) }
{
    let tables = read_bytes(alloc, bytes)?;
    Ok(CatalogueFile { tables })
}

// The tables of a file.
fn read_bytes(alloc: Global, bytes: &[u8]) -> Result<Items<Entry>, CatalogueFault>
    ensures { Reads (catalogue_of bytes.now) result }
{
    match str::from_utf8(bytes) {
        Ok(text) => read_text(alloc, without_mark(text)),
        Err(e) => Err(refused(NOT_UTF8, 0, e.valid_up_to())),
    }
}

// A text without one byte order mark at its start.
#[tactic(auto, unfolding(crate::specs::Catalogue::without_mark))]
fn without_mark(text: &str) -> &str
    ensures rest { result.now ≡ without_mark text.now }
{
    if has_mark(text.as_bytes()) {
        &text[3..]
    } else {
        text
    }
}

// Whether bytes begin with a byte order mark.
fn has_mark(text: &[u8]) -> bool
    ensures mark { result ≡ has_mark text.now }
{
    match text {
        [a, b, c, ..] => *a == 0xef && *b == 0xbb && *c == 0xbf,
        _ => false,
    }
}

// The tables of a text.
fn read_text(alloc: Global, text: &str) -> Result<Items<Entry>, CatalogueFault>
    ensures { Reads (text_tables text.now) result }
{
    match read_json(alloc, text)? {
        Some(json) => read_data(alloc, &json),
        None => Err(refused(NOT_JSON, 0, 0)),
    }
}

// The tables of JSON.
fn read_data(alloc: Global, json: &Json) -> Result<Items<Entry>, CatalogueFault>
    ensures { Reads (data_tables (tables_of (view json.now))) result }
{
    match tables_of(json) {
        Some(tables) => read_entries(alloc, tables),
        None => Err(refused(BAD_CATALOGUE, 0, 0)),
    }
}

// The tables of a catalogue of this version.
#[tactic(auto, unfolding(crate::specs::Catalogue::tables_of))]
fn tables_of(json: &Json) -> Option<&[Json]>
    ensures tables { option_map (λ items. items_view items.now) result ≡ tables_of (view json.now) }
{
    if is_catalogue(json) {
        list_at(json, "tables")
    } else {
        None
    }
}

fn is_catalogue(json: &Json) -> bool
    ensures form { result ≡ is_catalogue (view json.now) }
{
    has_keys(json, 2) && has_version(json)
}

fn has_version(json: &Json) -> bool
    ensures version { result ≡ has_version (view json.now) }
{
    match json.get("version") {
        Some(version) => is_version(version),
        None => false,
    }
}

fn is_version(json: &Json) -> bool
    ensures version { result ≡ is_version (view json.now) }
{
    match json.as_u64() {
        Some(n) => n == VERSION,
        None => false,
    }
}

// The tables, one after another.
#[tactic(auto, unfolding(crate::specs::Catalogue::entries_behind))]
fn read_entries(alloc: Global, items: &[Json]) -> Result<Items<Entry>, CatalogueFault>
    ensures { Reads (entries_behind [] (items_view items.now)) result }
{
    let mut entries = Items::new(alloc);
    let mut left = items;
    'tables: while let Some((item, more)) = left.split_first() {
        let Some(entry) = read_entry(alloc, item)? else {
            return Err(refused(BAD_CATALOGUE, entries.len() + 1, 0));
        };
        entries.push(entry)?;
        left = more;
    }
    Ok(entries)
}
