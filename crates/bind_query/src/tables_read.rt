//! The tables that plans read, in the order in which the text first names them.
ghost use Rattle.std.specs.Prelude.{◌≡◌, ◌∷◌, ◌++◌, [], IfOk, option_copied};
ghost use Rattle.bind_query.specs.TablesRead.{op_tables, ops_tables, plan_tables, plans_tables, schema_named, table_of_source, tables_read, with_table_read, with_tables_read};

use kql_bound::{Op, Plan, Source};
use kql_cells::{NamedSchema, Schemas};
use std::alloc::{AllocError, Global};

#[tactic(auto, unfolding(crate::specs::TablesRead::schema_named))]
fn schema_named<'a>(schemas: &'a [NamedSchema], name: &str) -> Option<&'a NamedSchema>
    ensures schema { option_copied result ≡ schema_named schemas.now name.now }
{
    let mut left = schemas;
    'each: while let Some((named, more)) = left.split_first() {
        if named.name.as_str() == name {
            return Some(named);
        }
        left = more;
    }
    None
}

fn copy_named(alloc: Global, named: &NamedSchema) -> Result<NamedSchema, AllocError>
    ensures same { IfOk result (λ c. c ≡ named.now) }
{
    Ok(NamedSchema {
        name: named.name.copy(alloc)?,
        schema: named.schema.copy(alloc)?,
    })
}

// A table more, where it does not stand there.
#[tactic(auto, unfolding(crate::specs::TablesRead::with_table_read))]
fn with_table_read(
    alloc: Global,
    schemas: &[NamedSchema],
    made: Schemas,
    name: &str,
) -> Result<Schemas, AllocError>
    ensures tables { IfOk result (λ ts. ts ≡ with_table_read schemas.now made name.now) }
{
    match schema_named(made.schemas(), name) {
        Some(_) => Ok(made),
        None => match schema_named(schemas, name) {
            Some(named) => {
                let copy = copy_named(alloc, named)?;
                let mut made = made;
                made.push(copy)?;
                Ok(made)
            }
            None => Ok(made),
        },
    }
}

#[tactic(auto, using(crate::proofs::ReadSteps::source_steps), unfolding(crate::specs::TablesRead::table_of_source))]
fn read_source(
    alloc: Global,
    schemas: &[NamedSchema],
    made: Schemas,
    source: &Source,
) -> Result<Schemas, AllocError>
    ensures tables { IfOk result (λ ts. ts ≡ with_tables_read schemas.now made (table_of_source source.now)) }
{
    match source {
        Source::Table(name) => with_table_read(alloc, schemas, made, name.as_str()),
        Source::Let(_) => Ok(made),
        Source::Range { .. } => Ok(made),
        Source::Print(_) => Ok(made),
    }
}

#[cycle(read)]
#[tactic(auto, using(crate::proofs::ReadSteps::plan_steps))]
fn read_plan(
    alloc: Global,
    schemas: &[NamedSchema],
    made: Schemas,
    plan: &Plan,
) -> Result<Schemas, AllocError>
    ensures tables { IfOk result (λ ts. ts ≡ with_tables_read schemas.now made (plan_tables plan.now)) }
{
    let made = read_source(alloc, schemas, made, &plan.source)?;
    read_ops(alloc, schemas, made, plan.ops.as_slice())
}

#[cycle(read)]
#[tactic(auto, using(crate::proofs::ReadSteps::ops_steps))]
fn read_ops(
    alloc: Global,
    schemas: &[NamedSchema],
    made: Schemas,
    ops: &[Op],
) -> Result<Schemas, AllocError>
    ensures tables { IfOk result (λ ts. ts ≡ with_tables_read schemas.now made (ops_tables ops.now)) }
{
    let mut tables = made;
    'each: for op in ops {
        tables = read_op(alloc, schemas, tables, op)?;
    }
    Ok(tables)
}

#[cycle(read)]
#[tactic(auto, using(crate::proofs::ReadSteps::plans_steps))]
fn read_plans(
    alloc: Global,
    schemas: &[NamedSchema],
    made: Schemas,
    plans: &[Plan],
) -> Result<Schemas, AllocError>
    ensures tables { IfOk result (λ ts. ts ≡ with_tables_read schemas.now made (plans_tables plans.now)) }
{
    let mut tables = made;
    'each: for plan in plans {
        tables = read_plan(alloc, schemas, tables, plan)?;
    }
    Ok(tables)
}

#[cycle(read)]
#[tactic(auto, using(crate::proofs::ReadSteps::op_steps))]
fn read_op(
    alloc: Global,
    schemas: &[NamedSchema],
    made: Schemas,
    op: &Op,
) -> Result<Schemas, AllocError>
    ensures tables { IfOk result (λ ts. ts ≡ with_tables_read schemas.now made (op_tables op.now)) }
{
    match op {
        Op::Where(_) => Ok(made),
        Op::Extend(_) => Ok(made),
        Op::Project(_) => Ok(made),
        Op::Take(_) => Ok(made),
        Op::Count => Ok(made),
        Op::Serialize => Ok(made),
        Op::Sort(_) => Ok(made),
        Op::Top(_, _) => Ok(made),
        Op::Summarize(_) => Ok(made),
        Op::MakeSeries(_) => Ok(made),
        Op::MvExpand(_) => Ok(made),
        Op::Parse(_) => Ok(made),
        Op::Join(_, right) => read_plan(alloc, schemas, made, right),
        Op::Union(_, others) => read_plans(alloc, schemas, made, others.as_slice()),
        Op::Scan(_) => Ok(made),
        Op::Partition(_, ops) => read_ops(alloc, schemas, made, ops.as_slice()),
    }
}

/// The tables that the plans of lets read, and then the last plan, each once with its schema.
#[tactic(auto, using(crate::proofs::ReadSteps::read_steps))]
pub(crate) fn tables_read(
    alloc: Global,
    schemas: &Schemas,
    lets: &[Plan],
    main: &Plan,
) -> Result<Schemas, AllocError>
    ensures tables { IfOk result (λ ts. ts ≡ tables_read schemas.now (lets.now ++ main.now ∷ [])) }
{
    let named = schemas.schemas();
    let made = read_plans(alloc, named, Schemas::new(alloc), lets)?;
    read_plan(alloc, named, made, main)
}
