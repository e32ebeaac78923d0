//! Names and the marks.
ghost use Rattle.std.specs.Prelude.{◌≡◌, not};
ghost use Rattle.std.specs.List.{list_all};
ghost use Rattle.pattern_lift.specs.Marks.{begins_with};
ghost use Rattle.pattern_laws.specs.Liftable.{is_own_name};
ghost use Rattle.pattern_laws.specs.Tested.{tables_are_unmarked};

use kql_cells::{KText, NamedSchema};

// Whether bytes begin with the marks.
#[tactic(auto, using(crate::proofs::MarkSteps::mark_steps), unfolding(pattern_lift::specs::Marks::begins_with))]
fn bytes_begin(marks: &[u8], name: &[u8]) -> bool
    ensures begins { result ≡ begins_with marks.now name.now }
{
    name.starts_with(marks)
}

/// Whether a name begins with the marks.
pub(crate) fn begins_with(marks: &str, name: &str) -> bool
    ensures begins { result ≡ begins_with marks.now name.now }
{
    bytes_begin(marks.as_bytes(), name.as_bytes())
}

/// Whether none of these names does.
pub(crate) fn are_unmarked(marks: &str, names: &[KText]) -> bool
    ensures unmarked { result ≡ list_all (λ n. not (begins_with marks.now n)) names.now }
{
    let mut left = names;
    'names: while let Some((name, more)) = left.split_first() {
        if begins_with(marks, name.as_str()) {
            return false;
        }
        left = more;
    }
    true
}

/// Whether these are one name, which does not begin with the marks.
#[tactic(auto, unfolding(pattern_laws::specs::Liftable::is_own_name))]
pub(crate) fn is_own_name(marks: &str, names: &[KText]) -> bool
    ensures own { result ≡ is_own_name marks.now names.now }
{
    match names {
        [] => false,
        [name] => !begins_with(marks, name.as_str()),
        [_, _, ..] => false,
    }
}

/// Whether no table's name begins with the marks.
#[tactic(auto, unfolding(pattern_laws::specs::Tested::tables_are_unmarked))]
pub fn tables_are_unmarked(marks: &str, tables: &[NamedSchema]) -> bool
    ensures unmarked { result ≡ tables_are_unmarked marks.now tables.now }
{
    let mut left = tables;
    'tables: while let Some((table, more)) = left.split_first() {
        if begins_with(marks, table.name.as_str()) {
            return false;
        }
        left = more;
    }
    true
}
