ghost use Rattle.std.specs.Prelude.{◌≡◌};
ghost use Rattle.kql_program.specs.Endings.{refused_as, status_of};

use kql_bound::Program;
use kql_items::{Boxed, Items};
use kql_lexer::Place;
use kql_words::Refusal;
use phase_run::Report;

/// The phases of some queries, one after another.
pub type Reports = Items<Report>;

/// How a call of `kql` ended.
#[derive(Debug, Drop)]
pub enum Ended {
    /// The table's text was written, as `run` asks. The query was answered by this plan, in these phases.
    Table {
        plan: Boxed<Program>,
        report: Report,
    },
    /// The table's text was written, as `plain` asks.
    PlainTable,
    /// The text of this plan of the query was written, as `explain` asks.
    Explained {
        plan: Boxed<Program>,
    },
    /// The lines of the stored queries were written, as `trial` asks. Each was answered in these phases.
    Trial {
        reports: Reports,
    },
    /// The query is refused at a place of its text.
    QueryRefused {
        code: u32,
        place: Place,
    },
    /// A word of the command is refused. Words are numbered from 0.
    Usage {
        word: u32,
        code: u32,
    },
    /// A file is refused: 0 is the query file, and k the file of the k-th table. The row 0 is the header.
    DataRefused {
        file: u32,
        code: u32,
        row: u64,
        column: u64,
    },
    /// A file could not be read.
    ReadFault,
    /// The text, or the line of a refusal, could not be written to its end.
    WriteFault,
    /// There was no memory.
    OutOfMemory,
}

/// The ending of a refusal.
pub(crate) fn ending_of(refusal: Refusal) -> Ended
    ensures { result ≡ refused_as refusal }
{
    match refusal {
        Refusal::Query { code, place } => Ended::QueryRefused { code, place },
        Refusal::Usage { word, code } => Ended::Usage { word, code },
        Refusal::Data {
            file,
            code,
            row,
            column,
        } => Ended::DataRefused {
            file,
            code,
            row,
            column,
        },
    }
}

/// The exit status of an ending: 0 for a text, 1 for a refused query, 2 for a refused word, 3 for a refused file,
/// 4 for a read fault, 5 for a write fault and 6 for want of memory.
pub fn status(ended: &Ended) -> u8
    ensures status { result ≡ status_of ended.now }
{
    match ended {
        Ended::Table { .. } => 0,
        Ended::PlainTable => 0,
        Ended::Explained { .. } => 0,
        Ended::Trial { .. } => 0,
        Ended::QueryRefused { .. } => 1,
        Ended::Usage { .. } => 2,
        Ended::DataRefused { .. } => 3,
        Ended::ReadFault => 4,
        Ended::WriteFault => 5,
        Ended::OutOfMemory => 6,
    }
}
