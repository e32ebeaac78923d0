//! The rows with the declared columns at their defaults.
ghost use Rattle.std.specs.Prelude.{◌≡◌, ◌++◌, ◌∷◌, [], map, IfOk, IsTrue, OnOk};
ghost use Rattle.kql_cells.specs.Named.{HasDistinctNames, IsAbsent, column_name};
ghost use Rattle.kql_meaning.specs.FittingOperators.{defaults_fit};
ghost use Rattle.kql_meaning.specs.Literals.{literal_fits};
ghost use Rattle.kql_meaning.specs.Scan.{declared_columns, with_declared};
ghost use Rattle.scan_ops.specs.Extended.{with_column};

use kql_bound::{Decl, ScanPlan};
use kql_cells::Column;
use kql_values::{Table, Vector};
use std::alloc::{AllocError, Global};

/// A copy of the rows, each with the defaults of the declared columns behind it.
#[tactic(auto, using(crate::proofs::ExtendedFacts::copy_facts))]
pub fn with_declared(alloc: Global, plan: &ScanPlan, t: &Table) -> Result<Table, AllocError>
    requires fits { IsTrue (defaults_fit plan.now.declared) }
    requires names { HasDistinctNames column_name (t.now.columns ++ declared_columns plan.now) }
    ensures rows { IfOk result (λ u. u ≡ with_declared plan.now t.now) }
{
    let mut extended = t.copy(alloc)?;
    declare(alloc, plan, &mut extended)?;
    Ok(extended)
}

/// Puts the defaults of the declared columns behind each row.
#[tactic(auto, using(crate::proofs::ExtendedFacts::extended_facts))]
pub(crate) fn declare(alloc: Global, plan: &ScanPlan, t: &mut Table) -> Result<(), AllocError>
    requires fits { IsTrue (defaults_fit plan.now.declared) }
    requires names { HasDistinctNames column_name (t.old.columns ++ declared_columns plan.now) }
    ensures rows { OnOk result (t.new ≡ with_declared plan.now t.old) }
{
    let declared = plan.declared.as_slice();
    'each: for decl in declared {
        push_declared(alloc, decl, t)?;
    }
    Ok(())
}

// Adds a declared column.
#[tactic(auto, using(crate::proofs::ExtendedFacts::push_facts))]
fn push_declared(alloc: Global, decl: &Decl, t: &mut Table) -> Result<(), AllocError>
    requires fits { IsTrue (literal_fits decl.now.default) }
    requires name { IsAbsent column_name decl.now.name t.old.columns }
    ensures added { OnOk result (t.new ≡ with_column decl.now t.old) }
{
    let name = decl.name.copy(alloc)?;
    let count = t.len();
    let values = Vector::repeated(
        alloc,
        decl.default.kind,
        decl.default.value.as_cell(),
        count,
    )?;
    t.push_column(
        Column {
            name,
            kind: decl.default.kind,
        },
        values,
    )?;
    Ok(())
}
