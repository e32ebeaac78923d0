//! The places at which a column is true.
ghost use Rattle.std.specs.Prelude.{◌≡◌, ◌<◌, ◌++◌, ◌∷◌, [], All, IfOk, OnOk, cond, length};
ghost use Rattle.window_ops.specs.Kept.{places_true};

use crate::cells::holds;
use kql_values::Vector;
use std::alloc::{AllocError, Global};

/// The places at which a column is true, rising.
#[tactic(auto, using(crate::proofs::KeptSteps::kept_steps))]
pub(crate) fn places_true(alloc: Global, values: &Vector) -> Result<Vec<usize>, AllocError>
    ensures places { IfOk result (λ ps. ps.items ≡ places_true values.now (length values.now)) }
    ensures within { IfOk result (λ ps. All (λ i. i < length values.now) ps.items) }
{
    let mut places = Vec::new(alloc);
    'rows: for i in 0..values.len() {
        push_if(&mut places, i, holds(values.cell(i)))?;
    }
    Ok(places)
}

// Adds a place where a test is true.
fn push_if(places: &mut Vec<usize>, place: usize, test: bool) -> Result<(), AllocError>
    ensures added { OnOk result (places.new.items ≡ places.old.items ++ cond test (place ∷ []) []) }
{
    if test {
        places.push(place)?;
    }
    Ok(())
}
