//! The lifted program, and the tables that it reads.
ghost use Rattle.std.specs.Prelude.{◌≡◌, ◌++◌, IfOk, IsTrue, map};
ghost use Rattle.kql_cells.specs.Catalogues.{schema_name, schemas_of, table_name};
ghost use Rattle.kql_cells.specs.Named.{HasDistinctNames};
ghost use Rattle.kql_meaning.specs.Fits.{fits};
ghost use Rattle.kql_values.specs.Kept.{all_named};
ghost use Rattle.pattern_lift.specs.Derived.{derived, derived_schema};
ghost use Rattle.pattern_lift.specs.Lifted.{lifted_program};
ghost use Rattle.pattern_laws.specs.LawsOfFitting.{FitsUnlifted};

use crate::lifted::Lifted;
use kql_bound::Program;
use kql_cells::{KText, NamedSchema, Schema, Schemas};
use kql_items::{Boxed, Items};
use kql_values::{Catalogue, Named};
use pattern_lift::lifted_program;
use std::alloc::{AllocError, Global};

fn copied_schema(alloc: Global, name: &KText, schema: &Schema) -> Result<NamedSchema, AllocError>
    ensures same { IfOk result (λ s. s ≡ record { name = name.now; schema = schema.now }) }
{
    let name = name.copy(alloc)?;
    let schema = schema.copy(alloc)?;
    Ok(NamedSchema { name, schema })
}

// Schemas, and those of further tables behind them.
fn schemas_behind(
    alloc: Global,
    schemas: &[NamedSchema],
    tables: &[Named],
) -> Result<Items<NamedSchema>, AllocError>
    ensures schemas { IfOk result (λ all. all ≡ schemas.now ++ schemas_of (all_named tables.now)) }
{
    let mut all = Items::with_capacity(alloc, schemas.len())?;
    for known in schemas {
        let schema = copied_schema(alloc, &known.name, &known.schema)?;
        all.push(schema)?;
    }
    for named in tables {
        let schema = copied_schema(alloc, &named.name, named.table.schema())?;
        all.push(schema)?;
    }
    Ok(all)
}

// A catalogue, and further tables behind it.
fn with_tables(catalogue: Catalogue, tables: Items<Named>) -> Result<Catalogue, AllocError>
    requires distinct { HasDistinctNames table_name (catalogue ++ all_named tables) }
    ensures tables { IfOk result (λ c. c ≡ catalogue ++ all_named tables) }
{
    let mut all = catalogue;
    let mut left = tables;
    left.reverse();
    'tables: while let Some(named) = left.pop() {
        all.push(named)?;
    }
    Ok(all)
}

/// A program that can be lifted over a catalogue, lifted, where these are its derived tables.
pub(crate) fn lift(
    alloc: Global,
    marks: &str,
    program: &Program,
    catalogue: Catalogue,
    tables: Items<Named>,
) -> Result<Lifted, AllocError>
    requires names { HasDistinctNames table_name catalogue }
    requires ready { FitsUnlifted marks.now program.now (schemas_of catalogue) }
    requires tables { schemas_of (all_named tables) ≡ map (derived_schema marks.now program.now.tables) (derived marks.now program.now) }
    ensures lifted { IfOk result (λ l. l ≡ record { program = lifted_program marks.now program.now; catalogue = catalogue ++ all_named tables }) }
    ensures fits { IfOk result (λ l. IsTrue (fits l.program (schemas_of l.catalogue))) }
{
    let schemas = schemas_behind(alloc, program.tables.schemas(), tables.as_slice())?;
    let schemas = Schemas::from_items(schemas);
    let program = Boxed::new(alloc, lifted_program(alloc, marks, program, schemas)?)?;
    let catalogue = with_tables(catalogue, tables)?;
    Ok(Lifted { program, catalogue })
}
