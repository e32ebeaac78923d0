ghost use Rattle.std.specs.Prelude.{◌≡◌, ◌↔◌, ◌++◌, ◌∷◌, [], length, None, OnErr, OnOk};
ghost use Rattle.kql_cells.specs.Named.{HasDistinctNames, IsAbsent, place_of};

use crate::schema::Schema;
use crate::text::KText;
use kql_items::Items;
use std::alloc::{AllocError, Global};
use std::marker::Model;

/// A schema and the name of its table.
#[derive(Debug, Drop)]
pub struct NamedSchema {
    pub name: KText,
    pub schema: Schema,
}

/// Schemas of distinct names, which contracts see as the list of them.
#[derive(Debug, Drop)]
pub struct Schemas {
    schemas: Items<NamedSchema>,
}

impl Model for Schemas {
    ghost use Rattle.std.specs.Prelude.{List};
    ghost use Rattle.kql_cells.specs.declared.schemas.NamedSchema.{NamedSchema};

    ghost Value = { List NamedSchema };

    ghost use Rattle.kql_cells.specs.Named.{HasDistinctNames};
    ghost use Rattle.kql_cells.specs.Catalogues.{schema_name};

    ghost view = { λ c. c.schemas };

    ghost invariant = { λ c. HasDistinctNames schema_name c.schemas };
}

impl Schemas {
    ghost use Rattle.kql_cells.specs.Catalogues.{schema_name};

    /// No schemas, which takes no memory.
    pub fn new(alloc: Global) -> Schemas
        ensures empty { result ≡ [] }
    {
        Schemas {
            schemas: Items::new(alloc),
        }
    }

    /// Schemas of distinct names, in order.
    pub fn from_items(schemas: Items<NamedSchema>) -> Schemas
        requires { HasDistinctNames schema_name schemas }
        ensures schemas { result ≡ schemas }
    {
        Schemas { schemas }
    }

    /// The schemas, in order.
    pub fn schemas(&self) -> &[NamedSchema]
        ensures schemas { result.now ≡ self.now }
        ensures distinct { HasDistinctNames schema_name self.now }
    {
        self.schemas.as_slice()
    }

    /// The place of the schema of a name, from 0, or none.
    pub fn find(&self, name: &str) -> Option<usize>
        ensures place { result ≡ place_of schema_name name.now self.now }
        ensures absent { (result ≡ None) ↔ IsAbsent schema_name name.now self.now }
    {
        self.schemas
            .as_slice()
            .iter()
            .position(|named| named.name.as_str() == name)
    }

    /// Adds a schema of another name at the end. Without memory it is dropped.
    pub fn push(&mut self, named: NamedSchema) -> Result<(), AllocError>
        requires { IsAbsent schema_name named.name self.old }
        ensures added { OnOk result (self.new ≡ self.old ++ named ∷ []) }
        ensures kept { OnErr result (self.new ≡ self.old) }
    {
        self.schemas.push(named)
    }
}
