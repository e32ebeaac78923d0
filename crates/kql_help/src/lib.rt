//! What `kql help TOPIC` prints: a text for each operator, function, aggregate and code of a refusal, and for families of them.
#![tactic(auto)]

mod families;
mod find;
mod near;
mod texts;
mod topic;

ghost use Rattle.std.specs.Prelude.{◌≡◌, option_map};
ghost use Rattle.kql_help.specs.Index.{topics};
ghost use Rattle.kql_help.specs.Topics.{text_of};

use crate::families::{
    file_codes, functions, name_codes, operators, overview, queries, query_codes, rows, shell,
    values, word_codes,
};
use crate::find::text_in;
pub use crate::near::nearest_topic;

/// The text of the topic that has this name, as `where`, `strlen` or `404`. A text is some lines of at most about 80 characters, and its
/// second part, between its first two empty lines, says what the topic is.
pub fn topic_text(name: &str) -> Option<&'static str>
    ensures text { option_map (λ t. t.now) result ≡ text_of topics name.now }
{
    text_in(overview(), name)
        .or(text_in(shell(), name))
        .or(text_in(queries(), name))
        .or(text_in(operators(), name))
        .or(text_in(functions(), name))
        .or(text_in(values(), name))
        .or(text_in(rows(), name))
        .or(text_in(word_codes(), name))
        .or(text_in(query_codes(), name))
        .or(text_in(name_codes(), name))
        .or(text_in(file_codes(), name))
}
