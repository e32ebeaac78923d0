//! The names of a query and its tables, and the marks that none of them begins with.
ghost use Rattle.std.specs.Prelude.{◌≡◌, ◌++◌, IfOk, OnOk};
ghost use Rattle.pattern_run.specs.Patterned.{marks_for, name_in, names_in, names_of_schema};

use kql_cells::{KText, NamedSchema, Names};
use kql_items::Items;
use kql_lexer::{Token, TokenForm};
use pattern_lift::marks_beyond;
use std::alloc::{AllocError, Global};

// Adds the text of a token that may be a name.
fn add_name(alloc: Global, names: &mut Names, form: &TokenForm) -> Result<(), AllocError>
    ensures added { OnOk result (names.new ≡ names.old ++ name_in form.now) }
{
    match form {
        TokenForm::Word(_, text) => names.push(text.copy(alloc)?),
        TokenForm::Text(text) => names.push(text.copy(alloc)?),
        _ => Ok(()),
    }
}

fn names_in(alloc: Global, tokens: &[Token]) -> Result<Names, AllocError>
    ensures names { IfOk result (λ ns. ns ≡ names_in tokens.now) }
{
    let mut names = Items::new(alloc);
    for token in tokens {
        add_name(alloc, &mut names, &token.form)?;
    }
    Ok(names)
}

// Adds the names of a table and of its columns.
fn add_schema(alloc: Global, names: &mut Names, table: &NamedSchema) -> Result<(), AllocError>
    ensures added { OnOk result (names.new ≡ names.old ++ names_of_schema table.now) }
{
    names.push(table.name.copy(alloc)?)?;
    for column in table.schema.columns() {
        names.push(column.name.copy(alloc)?)?;
    }
    Ok(())
}

/// The marks of the names that are added to a query and its tables.
#[tactic(auto, unfolding(crate::specs::Patterned::marks_for))]
pub(crate) fn marks_for(
    alloc: Global,
    tokens: &[Token],
    schemas: &[NamedSchema],
) -> Result<KText, AllocError>
    ensures marks { IfOk result (λ m. m ≡ marks_for tokens.now schemas.now) }
{
    let mut names = names_in(alloc, tokens)?;
    for schema in schemas {
        add_schema(alloc, &mut names, schema)?;
    }
    marks_beyond(alloc, names.as_slice())
}
