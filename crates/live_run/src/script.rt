ghost use Rattle.live_run.specs.Scripts.{is_scripted};

use live_catalogue::Promise;
use std::marker::{Brand, PhantomData};

/// The table that a run opens with, or that its opening value stands for, and all its batches. Clauses alone read them.
pub trait Script {
    ghost use Rattle.std.specs.Prelude.{List};
    ghost use Rattle.kql_cells.specs.Table.{Grid};

    ghost opening: { Grid };

    ghost batches: { List Grid };
}

impl Script for Brand {
    ghost use Rattle.std.specs.Prelude.{[]};

    ghost opening = { record { columns = []; lines = [] } };

    ghost batches = { [] };
}

/// The promise to publish the batches of a script in their order.
pub struct Scripted<B> {
    script: PhantomData<B>,
}

impl<V, B: Script> Promise<V> for Scripted<B> {
    ghost promised = { is_scripted B.batches };
}
