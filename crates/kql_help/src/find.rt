//! The search through the topics.

ghost use Rattle.std.specs.Prelude.{◌≡◌, map, option_map};
ghost use Rattle.kql_help.specs.Topics.{has_name, seen, text_of};

use crate::topic::Topic;

// Whether a name is among these.
fn is_among(names: &[&str], name: &str) -> bool
    ensures { result ≡ has_name name.now (map (λ n. n.now) names.now) }
{
    let mut left = names;
    while let [first, others @ ..] = left {
        if *first == name {
            return true;
        }
        left = others;
    }
    false
}

/// The text of the first of these topics that has a name.
#[tactic(auto, unfolding(crate::specs::Topics::text_of))]
pub(crate) fn text_in(topics: &[Topic], name: &str) -> Option<&'static str>
    ensures { option_map (λ t. t.now) result ≡ text_of (map seen topics.now) name.now }
{
    let mut left = topics;
    while let [topic, others @ ..] = left {
        if is_among(topic.names, name) {
            return Some(topic.text);
        }
        left = others;
    }
    None
}
