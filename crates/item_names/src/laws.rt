//! Laws of the names of items.
ghost use Rattle.item_names.specs.LawsOfItemNames.{EachColumnHasItsName};

/// An item has as many names as its expression has result columns.
#[tactic(auto, using(crate::proofs::NameSteps::each_column_has_its_name))]
pub fn law_of_item_names()
    ensures each { EachColumnHasItsName }
{}
