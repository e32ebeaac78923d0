//! Sentences with words in them.

use std::alloc::AllocError;
use std::fmt::Write;

/// A word of a sentence.
#[derive(Clone, Copy)]
pub(crate) enum Word<'a> {
    Text(&'a str),
    Number(u64),
}

/// A sentence: a form, in which each `{}` stands for the next of the words.
#[derive(Clone, Copy)]
pub(crate) struct Sentence<'a> {
    pub(crate) form: &'static str,
    pub(crate) words: [Word<'a>; 6],
}

/// No word.
pub(crate) const NONE: Word<'static> = Word::Text("");

/// At most two sentences.
#[derive(Clone, Copy)]
pub(crate) struct Advice<'a> {
    pub(crate) first: Option<Sentence<'a>>,
    pub(crate) second: Option<Sentence<'a>>,
}

impl Word<'_> {
    /// Adds the word to a text, a control character as a blank.
    pub(crate) fn write(&self, out: &mut String) -> Result<(), AllocError> {
        match self {
            Word::Text(text) => {
                for c in text.chars() {
                    out.push(if c.is_control() { ' ' } else { c })?;
                }
                Ok(())
            }
            Word::Number(number) => write!(out, "{number}"),
        }
    }
}

impl<'a> Sentence<'a> {
    /// A sentence without words.
    pub(crate) fn plain(form: &'static str) -> Sentence<'a> {
        Sentence::with(form, "")
    }

    /// A sentence with a word.
    pub(crate) fn with(form: &'static str, word: &'a str) -> Sentence<'a> {
        Sentence::with_two(form, word, "")
    }

    /// A sentence with two words.
    pub(crate) fn with_two(form: &'static str, first: &'a str, second: &'a str) -> Sentence<'a> {
        Sentence::with_three(form, first, second, "")
    }

    /// A sentence with three words.
    pub(crate) fn with_three(
        form: &'static str,
        first: &'a str,
        second: &'a str,
        third: &'a str,
    ) -> Sentence<'a> {
        Sentence::with_four(form, first, second, third, "")
    }

    /// A sentence with four words.
    pub(crate) fn with_four(
        form: &'static str,
        first: &'a str,
        second: &'a str,
        third: &'a str,
        fourth: &'a str,
    ) -> Sentence<'a> {
        Sentence {
            form,
            words: [
                Word::Text(first),
                Word::Text(second),
                Word::Text(third),
                Word::Text(fourth),
                NONE,
                NONE,
            ],
        }
    }

    /// Adds the sentence to a text, as a line of its own.
    pub(crate) fn write(&self, out: &mut String) -> Result<(), AllocError> {
        if !out.is_empty() {
            out.push('\n')?;
        }
        for (at, part) in self.form.split("{}").enumerate() {
            if at > 0 {
                if let Some(word) = self.words.get(at - 1) {
                    word.write(out)?;
                }
            }
            out.push_str(part)?;
        }
        Ok(())
    }
}

impl<'a> Advice<'a> {
    /// One sentence, or none.
    pub(crate) fn of(first: Option<Sentence<'a>>) -> Advice<'a> {
        Advice {
            first,
            second: None,
        }
    }

    /// Adds the sentences to a text.
    pub(crate) fn write(&self, out: &mut String) -> Result<(), AllocError> {
        if let Some(sentence) = &self.first {
            sentence.write(out)?;
        }
        if let Some(sentence) = &self.second {
            sentence.write(out)?;
        }
        Ok(())
    }
}
