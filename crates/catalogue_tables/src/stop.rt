use kql_outside::{Failed, ReadError};
use std::alloc::AllocError;

/// Why there are no tables.
#[derive(Clone, Copy, Debug, PartialEq, Eq)]
pub enum CatalogueStop {
    /// A file is refused: the catalogue file for what it says, or one of its entries' files. Files have their numbers in the command.
    Refused {
        file: u32,
        code: u32,
        row: u64,
        column: u64,
    },
    /// A call of the shelf failed.
    ReadFault,
    /// There was no memory.
    OutOfMemory,
}

impl From<AllocError> for CatalogueStop {
    ghost use Rattle.std.specs.Prelude.{◌≡◌};
    ghost use Rattle.catalogue_tables.specs.declared.stop.CatalogueStop.TheVariants as stop;

    ghost from_gives = { λ _ e. e ≡ stop.OutOfMemory };

    fn from(_error: AllocError) -> CatalogueStop {
        CatalogueStop::OutOfMemory
    }
}

impl From<Failed> for CatalogueStop {
    ghost use Rattle.std.specs.Prelude.{◌≡◌};
    ghost use Rattle.catalogue_tables.specs.declared.stop.CatalogueStop.TheVariants as stop;

    ghost from_gives = { λ _ e. e ≡ stop.ReadFault };

    fn from(_error: Failed) -> CatalogueStop {
        CatalogueStop::ReadFault
    }
}

impl From<ReadError> for CatalogueStop {
    ghost use Rattle.std.specs.Prelude.{◌≡◌};
    ghost use Rattle.catalogue_tables.specs.Computes.{read_stop};

    ghost from_gives = { λ error e. e ≡ read_stop error };

    fn from(error: ReadError) -> CatalogueStop {
        match error {
            ReadError::Failed => CatalogueStop::ReadFault,
            ReadError::OutOfMemory => CatalogueStop::OutOfMemory,
        }
    }
}
