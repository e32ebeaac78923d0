ghost use Rattle.std.specs.Prelude.{◌≡◌};
ghost use Rattle.catalogue_file.specs.declared.fault.CatalogueFault.TheVariants.{OutOfMemory, Refused};

use std::alloc::AllocError;

/// Why a file is no catalogue.
#[derive(Clone, Copy, Debug, PartialEq, Eq)]
pub enum CatalogueFault {
    /// The file is refused: 301 for what stands behind so many of its bytes (`column`), 309 and 310 as a whole, or 310 for its table of
    /// a number (`row`, from 1).
    Refused { code: u32, row: u64, column: u64 },
    /// There was no memory for the catalogue.
    OutOfMemory,
}

impl From<AllocError> for CatalogueFault {
    ghost from_gives = { λ _ e. e ≡ OutOfMemory };

    fn from(_: AllocError) -> CatalogueFault {
        CatalogueFault::OutOfMemory
    }
}

// The codes of refusals.
pub(crate) const NOT_UTF8: u32 = 301;

pub(crate) const NOT_JSON: u32 = 309;

pub(crate) const BAD_CATALOGUE: u32 = 310;

pub(crate) fn refused(code: u32, row: usize, column: usize) -> CatalogueFault
    ensures { result ≡ Refused code row column }
{
    CatalogueFault::Refused {
        code,
        row: row as u64,
        column: column as u64,
    }
}
