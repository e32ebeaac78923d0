//! The patterns of calls, made one after another.
ghost use Rattle.std.specs.Prelude.{◌≡◌, ◌∷◌, [], IfErr, IfOk, map};
ghost use Rattle.pattern_run.specs.Patterned.{AreJudged, IsCallJudged, IsRefusalIn, faults_after, finds_of};

use crate::fault::PatternFault;
use kql_items::Items;
use pattern_lift::PatternCall;
use pattern_ops::{MakeFault, PatternMaker};
use std::alloc::Global;

fn make_one<P: PatternMaker>(patterns: &mut P, call: &PatternCall) -> Result<P::Made, PatternFault>
    ensures found { P.found patterns.new ≡ P.found patterns.old }
    ensures counted { P.faults patterns.new ≡ faults_after result (P.faults patterns.old) }
    ensures made { IfOk result (λ made. P.Made.finds made ≡ finds_of (P.found patterns.old) call.now) }
    ensures refused { IfErr result (λ e. IsRefusalIn (call.now ∷ []) e) }
    ensures judged { IsCallJudged P.makes P.refuses call.now result }
{
    match patterns.make(call.pattern.as_str()) {
        Ok(pattern) => Ok(pattern),
        Err(MakeFault::Failed) => Err(PatternFault::BadPattern(call.func.literal)),
        Err(MakeFault::OutOfMemory) => Err(PatternFault::OutOfMemory),
    }
}

/// The patterns of these calls, in their order. The first that the maker refuses ends it.
pub(crate) fn make_patterns<P: PatternMaker>(
    alloc: Global,
    patterns: &mut P,
    calls: &[PatternCall],
) -> Result<Items<P::Made>, PatternFault>
    ensures found { P.found patterns.new ≡ P.found patterns.old }
    ensures counted { P.faults patterns.new ≡ faults_after result (P.faults patterns.old) }
    ensures made { IfOk result (λ made. map P.Made.finds made ≡ map (finds_of (P.found patterns.old)) calls.now) }
    ensures refused { IfErr result (λ e. IsRefusalIn calls.now e) }
    ensures judged { AreJudged P.makes P.refuses calls.now result }
{
    let mut made = Items::with_capacity(alloc, calls.len())?;
    for call in calls {
        let pattern = make_one(patterns, call)?;
        made.push(pattern)?;
    }
    Ok(made)
}
