use kql_lexer::Place;

/// Why there is no answer: a numbered refusal, with its place.
#[derive(Clone, Copy, Debug, PartialEq, Eq)]
pub enum Refusal {
    /// The query is refused at a place of its text.
    Query {
        code: u32,
        place: Place,
    },
    /// A word of the command is refused. Words are numbered from 0.
    Usage {
        word: u32,
        code: u32,
    },
    /// A file is refused: 0 is the query file, and k the file of the k-th table. The row 0 is the header.
    Data {
        file: u32,
        code: u32,
        row: u64,
        column: u64,
    },
}
