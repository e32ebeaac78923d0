ghost use Rattle.std.specs.Prelude.{◌≡◌, ◌∷◌, ◌++◌, [], All, OnOk};
ghost use Rattle.live_catalogue.specs.Rule.{StartsWith};
ghost use Rattle.live_run.specs.Runs.{IsOpen};

use crate::script::{Script, Scripted};
use kql_values::Table;
use live_catalogue::{Appender, Grows};
use std::alloc::{AllocError, Global};
use std::sync::Wait;

/// Rows and batches stay below it.
pub(crate) const LIMIT: u64 = 1 << 63;

pub(crate) type ScriptAppender<V, B> = Appender<V, Scripted<B>>;

// Publishes a batch.
fn append_one<V: Grows, B: Script, R: Wait>(
    rt: &R,
    alloc: Global,
    appender: &mut ScriptAppender<V, B>,
    batch: &Table,
) -> Result<(), AllocError>
    requires open { IsOpen appender.old }
    requires takes { V.can_take appender.old.value batch.now }
    requires script { StartsWith B.batches (appender.old.published ++ batch.now ∷ []) }
    ensures open { OnOk result (IsOpen appender.new) }
    ensures published { OnOk result (appender.new.published ≡ appender.old.published ++ batch.now ∷ []) }
    ensures value { OnOk result (appender.new.value ≡ V.grown appender.old.value batch.now) }
    ensures opening { OnOk result (appender.new.opening ≡ appender.old.opening) }
{
    let rows = batch.len() as u64;
    if appender.rows() >= LIMIT - rows || appender.staged() >= LIMIT {
        return Err(AllocError);
    }
    let Ok(()) = appender.stage(batch.copy(alloc)?) else {
        return Err(AllocError);
    };
    appender.publish(rt)?;
    Ok(())
}

/// Publishes each batch of the script, one after another.
pub(crate) fn append_each<V: Grows, B: Script, R: Wait>(
    rt: &R,
    alloc: Global,
    batches: &[Table],
    appender: &mut ScriptAppender<V, B>,
) -> Result<(), AllocError>
    requires open { IsOpen appender.old }
    requires none { appender.old.published ≡ [] }
    requires script { batches.now ≡ B.batches }
    requires takes { All (V.can_take appender.old.value) batches.now }
    ensures open { OnOk result (IsOpen appender.new) }
    ensures published { OnOk result (appender.new.published ≡ B.batches) }
    ensures opening { OnOk result (appender.new.opening ≡ appender.old.opening) }
{
    let mut left = batches;
    'batches: while let Some((batch, more)) = left.split_first() {
        append_one(rt, alloc, appender, batch)?;
        left = more;
    }
    Ok(())
}
