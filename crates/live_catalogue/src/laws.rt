ghost use Rattle.live_catalogue.specs.declared.known.Known.{Known};
ghost use Rattle.live_catalogue.specs.Rule.{Kept};
ghost use Rattle.live_catalogue.specs.Laws.{IsLawful};
ghost use Rattle.std.specs.Prelude.{List};

use crate::grows::Grows;
use crate::rule::Promise;
use crate::value::Live;

/// What the rule says of all seats between any two steps, whoever publishes, enters or is told, and when.
pub fn every_live_value_is_lawful<V: Grows, K: Promise<V>>()
    ensures lawful { (x : Live V) (views : List (Known V)) → Kept V.grown K.promised x views → IsLawful V.grown K.promised x views }
{}
