ghost use Rattle.kql_scalar_fns.specs.Laws.{AndIsThreeValued, FirstIsTaken, GreatestIsTaken, LastIsTaken, LeastIsTaken, ListHasKeys, NullIsInNoList, OrIsThreeValued, RemainderIsTaken, ZeroHasNoRemainder};

/// `and` is false where one of its arguments is false, true where all are true, and else null; `or` is true where one is
/// true, false where all are false, and else null. So the order of the arguments does not matter.
pub fn three_valued_logic()
    ensures conjunction { AndIsThreeValued }
    ensures disjunction { OrIsThreeValued }
{}

/// `coalesce` gives the first argument that is neither null nor the empty text, else the last.
pub fn first_that_is_given()
    ensures first { FirstIsTaken }
    ensures last { LastIsTaken }
{}

/// `min_of` gives an argument that no other is below, `max_of` one that no other is above; null only where all are null.
pub fn least_and_greatest()
    ensures least { LeastIsTaken }
    ensures greatest { GreatestIsTaken }
{}

/// The remainder of `%` is not negative, is below the size of the divisor, and differs from the dividend by a multiple of
/// the divisor; for the divisor 0 there is none.
pub fn remainders()
    ensures remainder { RemainderIsTaken }
    ensures zero { ZeroHasNoRemainder }
{}

/// `in` by keys: a value of a type is in a list where it is one of the values that the list has in that type, as `values_in` gives
/// them, and a null is in no list.
pub fn lists_by_keys()
    ensures keys { ListHasKeys }
    ensures null { NullIsInNoList }
{}
