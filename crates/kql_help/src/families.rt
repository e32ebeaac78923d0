//! The topics of each family of texts.

ghost use Rattle.std.specs.Prelude.{◌≡◌, map};
ghost use Rattle.kql_help.specs.Index.{of_overview, of_shell, of_queries, of_operators, of_functions, of_values, of_rows, of_word_codes, of_query_codes, of_name_codes, of_file_codes};
ghost use Rattle.kql_help.specs.Topics.{seen};

use crate::texts;
use crate::topic::Topic;

/// What tells which topics or codes there are.
#[tactic(auto, unfolding(crate::specs::Index::of_overview))]
pub(crate) fn overview() -> &'static [Topic]
    ensures { map seen result.now ≡ of_overview }
{
    texts::overview::TOPICS
}

/// Commands around the top call, and what a newcomer asks for.
#[tactic(auto, unfolding(crate::specs::Index::of_shell))]
pub(crate) fn shell() -> &'static [Topic]
    ensures { map seen result.now ≡ of_shell }
{
    texts::shell::TOPICS
}

/// Commands, queries, sources, tables, and what Kusto has.
#[tactic(auto, unfolding(crate::specs::Index::of_queries))]
pub(crate) fn queries() -> &'static [Topic]
    ensures { map seen result.now ≡ of_queries }
{
    texts::queries::TOPICS
}

/// Operators of tables.
#[tactic(auto, unfolding(crate::specs::Index::of_operators))]
pub(crate) fn operators() -> &'static [Topic]
    ensures { map seen result.now ≡ of_operators }
{
    texts::operators::TOPICS
}

/// Functions, and families of them.
#[tactic(auto, unfolding(crate::specs::Index::of_functions))]
pub(crate) fn functions() -> &'static [Topic]
    ensures { map seen result.now ≡ of_functions }
{
    texts::functions::TOPICS
}

/// Signs, searches, and functions of datetimes and dynamic values.
#[tactic(auto, unfolding(crate::specs::Index::of_values))]
pub(crate) fn values() -> &'static [Topic]
    ensures { map seen result.now ≡ of_values }
{
    texts::values::TOPICS
}

/// Window functions and aggregates.
#[tactic(auto, unfolding(crate::specs::Index::of_rows))]
pub(crate) fn rows() -> &'static [Topic]
    ensures { map seen result.now ≡ of_rows }
{
    texts::rows::TOPICS
}

/// Codes of the words of the command.
#[tactic(auto, unfolding(crate::specs::Index::of_word_codes))]
pub(crate) fn word_codes() -> &'static [Topic]
    ensures { map seen result.now ≡ of_word_codes }
{
    texts::word_codes::TOPICS
}

/// Codes of a query that is refused for its text.
#[tactic(auto, unfolding(crate::specs::Index::of_query_codes))]
pub(crate) fn query_codes() -> &'static [Topic]
    ensures { map seen result.now ≡ of_query_codes }
{
    texts::query_codes::TOPICS
}

/// Codes of a query that is refused for its names and types.
#[tactic(auto, unfolding(crate::specs::Index::of_name_codes))]
pub(crate) fn name_codes() -> &'static [Topic]
    ensures { map seen result.now ≡ of_name_codes }
{
    texts::name_codes::TOPICS
}

/// Codes of files.
#[tactic(auto, unfolding(crate::specs::Index::of_file_codes))]
pub(crate) fn file_codes() -> &'static [Topic]
    ensures { map seen result.now ≡ of_file_codes }
{
    texts::file_codes::TOPICS
}
