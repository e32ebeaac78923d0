ghost use Rattle.std.specs.Prelude.{◌≡◌, ◌++◌, ◌∷◌, [], IfOk, IfSome, Some, option_and_then, option_map};
ghost use Rattle.serde_json.specs.View.{items_view, view};
ghost use Rattle.kql_cells.specs.Named.{IsAbsent, column_name};
ghost use Rattle.catalogue_file.specs.Columns.{column_behind, column_of, columns_behind, columns_of, is_count, kind_of, kind_of_word, name_of};

use crate::json::{has_keys, nonempty, text_at};
use kql_cells::{Column, KText, Kind, Schema};
use serde_json::Value as Json;
use std::alloc::{AllocError, Global};

// How many columns a table may have.
const COLUMN_LIMIT: usize = 256;

/// The columns of a table: from one to 256, of distinct names; none where they are of another form.
#[tactic(auto, using(crate::proofs::JsonFacts::columns_counted))]
pub(crate) fn read_columns(alloc: Global, items: &[Json]) -> Result<Option<Schema>, AllocError>
    ensures columns { IfOk result (λ o. o ≡ columns_of (items_view items.now)) }
{
    if is_count(items.len()) {
        push_columns(alloc, items)
    } else {
        Ok(None)
    }
}

// Whether a table may have so many columns.
fn is_count(count: usize) -> bool
    ensures count { result ≡ is_count count }
{
    1 <= count && count <= COLUMN_LIMIT
}

// The columns, however many.
#[tactic(auto, unfolding(crate::specs::Columns::columns_behind))]
fn push_columns(alloc: Global, items: &[Json]) -> Result<Option<Schema>, AllocError>
    ensures columns { IfOk result (λ o. o ≡ columns_behind [] (items_view items.now)) }
{
    let mut schema = Schema::new(alloc);
    let mut left = items;
    'columns: while let Some((item, more)) = left.split_first() {
        let Some(column) = column_behind(alloc, &schema, item)? else {
            return Ok(None);
        };
        schema.push(column)?;
        left = more;
    }
    Ok(Some(schema))
}

// A column of another name than those before it.
fn column_behind(alloc: Global, before: &Schema, item: &Json) -> Result<Option<Column>, AllocError>
    ensures column { IfOk result (λ o. o ≡ column_behind before.now (view item.now)) }
    ensures fresh { IfOk result (λ o. IfSome o (λ c. IsAbsent column_name c.name before.now)) }
{
    let Some(column) = column_of(alloc, item)? else {
        return Ok(None);
    };
    if before.find(column.name.as_str()).is_some() {
        return Ok(None);
    }
    Ok(Some(column))
}

// The column of a name and a type.
#[tactic(auto, unfolding(crate::specs::Columns::column_of))]
fn column_of(alloc: Global, item: &Json) -> Result<Option<Column>, AllocError>
    ensures column { IfOk result (λ o. o ≡ column_of (view item.now)) }
{
    if !has_keys(item, 2) {
        return Ok(None);
    }
    let Some(name) = name_of(item) else {
        return Ok(None);
    };
    let Some(kind) = kind_of(item) else {
        return Ok(None);
    };
    let name = KText::from_str(alloc, name)?;
    Ok(Some(Column { name, kind }))
}

fn name_of(item: &Json) -> Option<&str>
    ensures name { option_map (λ name. name.now) result ≡ name_of (view item.now) }
{
    nonempty(text_at(item, "name")?)
}

fn kind_of(item: &Json) -> Option<Kind>
    ensures kind { result ≡ kind_of (view item.now) }
{
    kind_of_word(text_at(item, "type")?)
}

// The type of a word.
fn kind_of_word(word: &str) -> Option<Kind>
    ensures kind { result ≡ kind_of_word word.now }
{
    if word == "bool" {
        Some(Kind::Bool)
    } else if word == "long" {
        Some(Kind::Long)
    } else if word == "string" {
        Some(Kind::Text)
    } else if word == "datetime" {
        Some(Kind::Moment)
    } else if word == "timespan" {
        Some(Kind::Span)
    } else if word == "dynamic" {
        Some(Kind::Dynamic)
    } else {
        None
    }
}
