//! A topic.

/// A topic of the help: the words that name it, and its text.
pub(crate) struct Topic {
    pub(crate) names: &'static [&'static str],
    pub(crate) text: &'static str,
}
