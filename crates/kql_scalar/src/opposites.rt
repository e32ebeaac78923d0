//! Comparisons whose opposite is a comparison, so that it reads the same stores.
ghost use Rattle.std.specs.Prelude.{◌≡◌, IfSome};
ghost use Rattle.kql_scalar.specs.Means.{ArePlaced};
ghost use Rattle.kql_scalar.specs.Opposites.{IsOpposite, opposite_of};

use crate::node::Node;
use kql_functions::{ComparisonFunc, Func};
use kql_values::Table;

/// The comparison that the opposite of an argument is, and its arguments, if the argument is a comparison.
#[tactic(auto, using(crate::proofs::OppositeSteps::opposite_steps))]
pub(crate) fn opposite_test<'a>(
    args: &'a [Node],
    _t: &Table,
) -> Option<(ComparisonFunc, &'a [Node])>
    requires { ArePlaced _t.now.columns args.now }
    ensures test { IfSome result (λ p. IsOpposite args.now _t.now p.0 p.1.now) }
{
    if let [a] = args {
        if let Node::Call(f, parts) = a {
            if let Func::Comparison(f) = f {
                return Some((opposite_of(*f), parts.as_slice()));
            }
        }
    }
    None
}

#[tactic(auto, unfolding(crate::specs::Opposites::opposite_of))]
fn opposite_of(f: ComparisonFunc) -> ComparisonFunc
    ensures { result ≡ opposite_of f }
{
    match f {
        ComparisonFunc::Equal => ComparisonFunc::NotEqual,
        ComparisonFunc::NotEqual => ComparisonFunc::Equal,
        ComparisonFunc::Less => ComparisonFunc::AtLeast,
        ComparisonFunc::AtMost => ComparisonFunc::Greater,
        ComparisonFunc::Greater => ComparisonFunc::AtMost,
        ComparisonFunc::AtLeast => ComparisonFunc::Less,
        ComparisonFunc::EqualText => ComparisonFunc::NotEqualText,
        ComparisonFunc::NotEqualText => ComparisonFunc::EqualText,
        ComparisonFunc::In => ComparisonFunc::NotIn,
        ComparisonFunc::NotIn => ComparisonFunc::In,
        ComparisonFunc::InTexts => ComparisonFunc::NotInTexts,
        ComparisonFunc::NotInTexts => ComparisonFunc::InTexts,
        ComparisonFunc::Between => ComparisonFunc::NotBetween,
        ComparisonFunc::NotBetween => ComparisonFunc::Between,
    }
}
