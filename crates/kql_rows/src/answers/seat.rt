//! Where rows stand: the words in front of the query's, and the tables.
use std::alloc::{AllocError, Global};

/// A table: its name, which is its path too, and its text.
#[derive(Drop)]
pub(crate) struct NamedText {
    pub(crate) name: String,
    pub(crate) text: String,
}

#[derive(Drop)]
pub(crate) struct Seat {
    pub(crate) words: Vec<String>,
    pub(crate) tables: Vec<NamedText>,
}

// A text of several lines, each of which ends.
fn lines_of(alloc: Global, text: &str) -> Result<String, AllocError> {
    let mut lines = text.replace(alloc, "⏎", "\n")?;
    lines.push_str("\n")?;
    Ok(lines)
}

/// The words of a text, which blanks part.
pub(crate) fn words_in(alloc: Global, text: &str) -> Result<Vec<String>, AllocError> {
    let mut words = Vec::new(alloc);
    for word in text.split_whitespace() {
        words.push(String::from_str(alloc, word)?)?;
    }
    Ok(words)
}

impl Seat {
    pub(crate) fn new(alloc: Global) -> Seat {
        Seat {
            words: Vec::new(alloc),
            tables: Vec::new(alloc),
        }
    }

    /// Sets the words in front of the query's.
    pub(crate) fn set_words(&mut self, alloc: Global, text: &str) -> Result<(), AllocError> {
        self.words = words_in(alloc, text)?;
        Ok(())
    }

    /// Whether its words tell how many workers there are.
    pub(crate) fn tells_workers(&self) -> bool {
        self.words.iter().any(|word| word.as_str() == "--workers")
    }

    pub(crate) fn add_table(
        &mut self,
        alloc: Global,
        name: &str,
        text: &str,
    ) -> Result<(), AllocError> {
        let name = String::from_str(alloc, name)?;
        let text = lines_of(alloc, text)?;
        self.tables.push(NamedText { name, text })?;
        Ok(())
    }
}
