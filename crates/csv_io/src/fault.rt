ghost use Rattle.std.specs.Prelude.{◌≡◌};
ghost use Rattle.csv_io.specs.declared.fault.DataFault.TheVariants.{OutOfMemory, Refused};

use std::alloc::AllocError;
use thiserror::Error;

/// Why a file is no table.
#[derive(Clone, Copy, Debug, PartialEq, Eq, Error)]
pub enum DataFault {
    /// The file is refused for what stands at this place. Data rows and columns count from 1, and the header is row 0.
    #[error("{code} at {row}:{column}")]
    Refused { code: u32, row: u64, column: u64 },
    /// There was no memory for the table.
    #[error("out of memory")]
    OutOfMemory,
}

impl From<AllocError> for DataFault {
    ghost from_gives = { λ _ e. e ≡ OutOfMemory };

    fn from(_: AllocError) -> DataFault {
        DataFault::OutOfMemory
    }
}

// The codes of refusals.
pub(crate) const NOT_UTF8: u32 = 301;

pub(crate) const NO_HEADER: u32 = 302;

pub(crate) const BAD_COLUMN: u32 = 303;

pub(crate) const COLUMN_TWICE: u32 = 304;

pub(crate) const BAD_LENGTH: u32 = 305;

pub(crate) const BAD_CELL: u32 = 306;

pub(crate) const HEADER_DIFFERS: u32 = 312;

pub(crate) fn refused(code: u32, row: u64, column: usize) -> DataFault
    ensures { result ≡ Refused code row column }
{
    DataFault::Refused {
        code,
        row,
        column: column as u64,
    }
}
