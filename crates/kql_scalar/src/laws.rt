//! Which expressions of a bound program are evaluated here.
ghost use Rattle.kql_scalar.specs.Scalar.{ScalarWhereFits};

/// An expression that fits where no aggregate may stand is scalar, so that it has a value at a row by itself.
#[tactic(auto, using(crate::proofs::ScalarFitLaws::scalar_fit_laws))]
pub fn law_of_scalars()
    ensures fitting { ScalarWhereFits }
{}
