//! Whether a plan fits a table.
ghost use Rattle.std.specs.Prelude.{◌≡◌, ◌∷◌, [], true, IfOk, is_some};
ghost use Rattle.kql_bound.specs.declared.plan.Op.TheVariants as op;
ghost use Rattle.kql_meaning.specs.FittingOperators.{answer_if, summarize_fits};
ghost use Rattle.kql_meaning.specs.Summarize.{group_columns};
ghost use Rattle.view_ops_tests.specs.Programs.{summarizing, table_name};

use kql_bound::{GroupPlan, Op, Ops, Plan, Program, Source, clone_group};
use kql_cells::{KText, NamedSchema, Schemas};
use kql_fits::fits;
use kql_items::Items;
use kql_values::Table;
use std::alloc::{AllocError, Global};

/// Whether a plan fits the columns of a table, and its answer has columns, no two of one name.
pub(crate) fn fits_table(alloc: Global, g: &GroupPlan, t: &Table) -> Result<bool, AllocError>
    ensures fits { IfOk result (λ b. b ≡ true → is_some (answer_if (summarize_fits g.now t.now.columns) (group_columns g.now t.now.columns)) ≡ true) }
{
    let program = program_of(alloc, g, t)?;
    let answer = program_fits(alloc, &program, g, t);
    drop(program);
    answer
}

// Whether the program that summarizes a table by a plan fits the table.
#[tactic(auto, using(crate::proofs::ProgramFacts::program_facts))]
fn program_fits(alloc: Global, p: &Program, _g: &GroupPlan, _t: &Table) -> Result<bool, AllocError>
    requires program { p.now ≡ summarizing _g.now _t.now.columns }
    ensures fits { IfOk result (λ b. b ≡ true → is_some (answer_if (summarize_fits _g.now _t.now.columns) (group_columns _g.now _t.now.columns)) ≡ true) }
{
    let answer = fits(alloc, p, &p.tables)?;
    Ok(answer)
}

// The program that summarizes a table by a plan.
#[tactic(auto, unfolding(crate::specs::Programs::summarizing))]
fn program_of(alloc: Global, g: &GroupPlan, t: &Table) -> Result<Program, AllocError>
    ensures program { IfOk result (λ p. p ≡ summarizing g.now t.now.columns) }
{
    let tables = tables_of(alloc, t)?;
    let name = named(alloc)?;
    let ops = ops_of(alloc, g)?;
    Ok(Program {
        tables,
        lets: Items::new(alloc),
        main: Plan {
            source: Source::Table(name),
            ops,
        },
    })
}

#[tactic(auto, unfolding(crate::specs::Programs::table_name))]
fn named(alloc: Global) -> Result<KText, AllocError>
    ensures name { IfOk result (λ n. n ≡ table_name) }
{
    KText::from_str(alloc, "T")
}

// The schemas in which a table stands.
#[tactic(auto, using(crate::proofs::ProgramFacts::table_facts))]
fn tables_of(alloc: Global, t: &Table) -> Result<Schemas, AllocError>
    ensures tables { IfOk result (λ ss. ss ≡ record { name = table_name; schema = t.now.columns } ∷ []) }
{
    let name = named(alloc)?;
    let schema = t.schema().copy(alloc)?;
    let mut tables = Schemas::new(alloc);
    tables.push(NamedSchema { name, schema })?;
    Ok(tables)
}

// `summarize` by a plan.
fn ops_of(alloc: Global, g: &GroupPlan) -> Result<Ops, AllocError>
    ensures ops { IfOk result (λ os. os ≡ op.Summarize g.now ∷ []) }
{
    let mut ops = Items::new(alloc);
    let group = clone_group(alloc, g)?;
    ops.push(Op::Summarize(group))?;
    Ok(ops)
}
