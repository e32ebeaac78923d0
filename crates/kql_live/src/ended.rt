ghost use Rattle.std.specs.Prelude.{◌≡◌};
ghost use Rattle.kql_live.specs.LiveEndings.{live_refused_as, live_status_of};

use kql_lexer::Place;
use kql_words::Refusal;
use live_run::SeenLists;

/// How a call of `kql_live` ended.
#[derive(Drop)]
pub enum LiveEnded {
    /// The text was written, and this is what each reader saw.
    Table {
        seen: SeenLists,
    },
    /// The query is refused at a place of its text.
    QueryRefused {
        code: u32,
        place: Place,
    },
    /// A word of the command is refused. Words are numbered from 0.
    Usage {
        word: u32,
        code: u32,
    },
    /// A file is refused: 0 is the query file, and k that of the k-th path. The row 0 is the header.
    DataRefused {
        file: u32,
        code: u32,
        row: u64,
        column: u64,
    },
    /// A file could not be read.
    ReadFault,
    /// The text, or the line of a refusal, could not be written to its end.
    WriteFault,
    /// There was no memory.
    OutOfMemory,
}

/// The ending of a refusal.
pub(crate) fn ending_of(refusal: Refusal) -> LiveEnded
    ensures { result ≡ live_refused_as refusal }
{
    match refusal {
        Refusal::Query { code, place } => LiveEnded::QueryRefused { code, place },
        Refusal::Usage { word, code } => LiveEnded::Usage { word, code },
        Refusal::Data {
            file,
            code,
            row,
            column,
        } => LiveEnded::DataRefused {
            file,
            code,
            row,
            column,
        },
    }
}

/// The exit status of an ending: 0 for a text, 1 for a refused query, 2 for a refused word, 3 for a refused file, 4 for a read fault, 5 for a
/// write fault and 6 for want of memory.
pub fn live_status(ended: &LiveEnded) -> u8
    ensures status { result ≡ live_status_of ended.now }
{
    match ended {
        LiveEnded::Table { .. } => 0,
        LiveEnded::QueryRefused { .. } => 1,
        LiveEnded::Usage { .. } => 2,
        LiveEnded::DataRefused { .. } => 3,
        LiveEnded::ReadFault => 4,
        LiveEnded::WriteFault => 5,
        LiveEnded::OutOfMemory => 6,
    }
}
