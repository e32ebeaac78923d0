//! Lets, and the plan behind them.
ghost use Rattle.std.specs.Prelude.{◌≡◌, ◌∷◌, [], reverse, Bool, List, IfOk};
ghost use Rattle.kql_plain.specs.AtHand.{FitBehind, means_behind};

use crate::plans::plan_table;
use crate::readings::last_readings;
use kql_bound::Plan;
use kql_items::Items;
use kql_values::{Catalogue, Table};
use std::alloc::{AllocError, Global};

/// The table of a plan behind lets. These are evaluated in order, and each stands as a table for those after it, until it is moved
/// into the plan that reads it last.
pub(crate) fn table_behind(
    alloc: Global,
    lets: &[Plan],
    main: &Plan,
    catalogue: &Catalogue,
) -> Result<Table, AllocError>
    requires fits { FitBehind lets.now main.now catalogue.now [] }
    ensures table { IfOk result (λ t. t ≡ means_behind lets.now main.now catalogue.now []) }
{
    let mut last = last_readings(alloc, lets, main)?;
    let mut made = Vec::new(alloc);
    let mut left = lets;
    'lets: while let Some((plan, more)) = left.split_first() {
        let is_last = next_flag(&mut last);
        let table = plan_table(alloc, plan, catalogue, &mut made, is_last)?;
        made.push(table)?;
        left = more;
    }
    let is_last = next_flag(&mut last);
    let table = plan_table(alloc, main, catalogue, &mut made, is_last)?;
    Ok(table)
}

/// The flag of the next plan, which is the last of those that are left.
pub fn next_flag(flags: &mut Items<bool>) -> bool
    ensures next { (b : Bool) (bs : List Bool) → reverse flags.old ≡ b ∷ bs → (result ≡ b) × (reverse flags.new ≡ bs) }
{
    match flags.pop() {
        Some(flag) => flag,
        None => false,
    }
}
