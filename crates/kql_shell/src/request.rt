use kql_items::Items;
use kql_words::Refusal;

/// Which command of the shell the words are.
#[derive(Clone, Copy, Debug, PartialEq, Eq)]
pub enum Verb {
    /// Options and files alone: the answer of a query, as the output takes it.
    Answer,
    /// `show`: the answer as a table to look at.
    Show,
    /// `schema`: the columns of tables.
    Schema,
    /// `types`: the header with types that a file's cells call for.
    Types,
}

/// In which form an answer is written.
#[derive(Clone, Copy, Debug, PartialEq, Eq)]
pub enum Form {
    /// As `run` writes it.
    Csv,
    /// Aligned, to look at.
    Table,
    /// An array of objects.
    Json,
    /// An object a line.
    JsonLines,
}

/// A part of the query, by the number of its word.
#[derive(Clone, Copy, Debug)]
pub enum Part {
    /// The word is the text.
    Text(usize),
    /// The word is the path of its file.
    File(usize),
}

/// What the words ask for. Words are numbered from 0.
#[derive(Debug, Drop)]
pub struct Request {
    /// The parts of the query, one behind another.
    pub parts: Items<Part>,
    /// The words of the files.
    pub files: Items<usize>,
    pub form: Option<Form>,
    /// The word behind `--now`.
    pub moment: Option<usize>,
    /// The word behind `--workers`.
    pub workers: Option<usize>,
    /// The word behind `--limit`.
    pub limit: Option<usize>,
    /// The word behind `--catalogue`.
    pub catalogue: Option<usize>,
    /// The word `--types`.
    pub types: Option<usize>,
    /// Whether all rows are shown.
    pub shows_all: bool,
    /// Whether the file is written.
    pub writes: bool,
}

/// Why words are not read.
#[derive(Clone, Copy, Debug, PartialEq, Eq)]
pub enum Stop {
    /// A word is refused.
    Refused(Refusal),
    /// There was no memory.
    OutOfMemory,
}
