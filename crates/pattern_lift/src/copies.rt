//! Equal copies of calls.
ghost use Rattle.std.specs.Prelude.{◌≡◌, IfOk};

use crate::calls::{PatternCall, PatternCalls};
use kql_items::Items;
use std::alloc::{AllocError, Global};

fn copy_call(alloc: Global, call: &PatternCall) -> Result<PatternCall, AllocError>
    ensures same { IfOk result (λ c. c ≡ call.now) }
{
    let column = call.column.copy(alloc)?;
    let pattern = call.pattern.copy(alloc)?;
    Ok(PatternCall {
        func: call.func,
        column,
        pattern,
    })
}

/// Equal calls.
pub fn copy_calls(alloc: Global, calls: &[PatternCall]) -> Result<PatternCalls, AllocError>
    ensures same { IfOk result (λ cs. cs ≡ calls.now) }
{
    let mut all = Items::with_capacity(alloc, calls.len())?;
    for call in calls {
        let copy = copy_call(alloc, call)?;
        all.push(copy)?;
    }
    Ok(all)
}
