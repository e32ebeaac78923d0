ghost use Rattle.kql_dynamic.specs.Laws.{DifferenceHolds, DifferenceInOrder, FirstBagWins, FirstIsSliced, FirstsComeFirst, IntersectHolds, IntersectInOrder, LastPairWins, SecondIsSliced, SlicesJoin, UnionHolds, UnionInOrder};

/// `array_slice` takes an array apart, and `array_concat` puts the parts together; of two arrays that were put
/// together, `array_slice` gives each back.
pub fn slices_and_joins()
    ensures joined { SlicesJoin }
    ensures first { FirstIsSliced }
    ensures second { SecondIsSliced }
{}

/// In `bag_merge` the first bag that has a key gives its value, and in `bag_pack` the last of equal keys.
pub fn keys_of_several_bags()
    ensures first { FirstBagWins }
    ensures last { LastPairWins }
{}

/// The sets hold what set theory says, each value once, where it occurs first.
pub fn elements_of_sets()
    ensures union { UnionHolds }
    ensures intersect { IntersectHolds }
    ensures difference { DifferenceHolds }
    ensures first { FirstsComeFirst }
{}

/// The values of a union come in the order in which they occur first in the two arrays, one after the other. Those
/// of an intersection and of a difference come in the order in which they occur first in the first array.
pub fn order_of_sets()
    ensures union { UnionInOrder }
    ensures intersect { IntersectInOrder }
    ensures difference { DifferenceInOrder }
{}
