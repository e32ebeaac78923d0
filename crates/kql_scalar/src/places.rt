//! Lists of places.
ghost use Rattle.std.specs.Prelude.{◌≡◌, IfOk};
ghost use Rattle.kql_scalar.specs.Places.{behind, is_first, without};

use crate::rows::push_if;
use std::alloc::{AllocError, Global};

/// Places without those of a list that is a part of them, in their order.
#[tactic(auto, using(crate::proofs::PlaceSteps::without_steps))]
pub(crate) fn without(
    alloc: Global,
    places: &[usize],
    taken: &[usize],
) -> Result<Vec<usize>, AllocError>
    ensures places { IfOk result (λ ps. ps.items ≡ without places.now taken.now) }
{
    let mut left = Vec::new(alloc);
    let mut rest = taken;
    'places: for place in places {
        let test = !is_first(*place, rest);
        push_if(&mut left, *place, test)?;
        rest = behind(*place, rest);
    }
    Ok(left)
}

// Whether a place is the first of these.
#[tactic(auto, using(crate::proofs::PlaceSteps::first_steps))]
fn is_first(place: usize, places: &[usize]) -> bool
    ensures first { result ≡ is_first place places.now }
{
    match places {
        [] => false,
        [first, ..] => *first == place,
    }
}

// These without the first, where that is the place.
#[tactic(auto, using(crate::proofs::PlaceSteps::behind_steps))]
fn behind(place: usize, places: &[usize]) -> &[usize]
    ensures places { result.now ≡ behind place places.now }
{
    match places {
        [] => places,
        [first, more @ ..] => { if *first == place { more } else { places } }
    }
}
