//! The texts of what no query is bound to, and of copies. The texts of what queries are bound to are rows of `kql_rows`.
use kql_bound::{BExpr, Lit, Op, Ops, Plan, Program, Source, clone_program};
use kql_cells::{Column, KText, Kind, NamedSchema, Schema, Schemas, Value};
use kql_items::{Boxed, Items};
use kql_plan_text::plan_text;
use std::alloc::{AllocError, Global};
use std::test::Fail;

fn text(alloc: Global, t: &str) -> Result<KText, AllocError> {
    KText::from_str(alloc, t)
}

fn one<T: Drop>(alloc: Global, x: T) -> Result<Items<T>, AllocError> {
    let mut list = Items::new(alloc);
    list.push(x)?;
    Ok(list)
}

fn lit(kind: Kind, value: Value) -> Lit {
    Lit { kind, value }
}

// Literals that are bound from no text.
fn unwritten(i: usize) -> Lit {
    match i {
        0 => lit(Kind::Text, Value::Null),
        1 => lit(Kind::Moment, Value::Moment(-1)),
        _ => lit(Kind::Moment, Value::Null),
    }
}

// `d[-1]`, where the number is no chain.
fn last_part(alloc: Global) -> Result<BExpr, AllocError> {
    let whole = Boxed::new(alloc, BExpr::Column(text(alloc, "d")?))?;
    let place = BExpr::Literal(lit(Kind::Long, Value::Long(-1)));
    Ok(BExpr::Path(whole, one(alloc, place)?))
}

fn table(alloc: Global, name: &str, ops: Ops) -> Result<Plan, AllocError> {
    let source = Source::Table(text(alloc, name)?);
    Ok(Plan { source, ops })
}

// A union in a subquery.
fn inner_union(alloc: Global) -> Result<Op, AllocError> {
    let other = table(alloc, "B", Items::new(alloc))?;
    let union = Op::Union(false, one(alloc, other)?);
    Ok(Op::Partition(text(alloc, "k")?, one(alloc, union)?))
}

// A range whose end is null.
fn endless(alloc: Global) -> Result<Plan, AllocError> {
    let column = text(alloc, "x")?;
    let source = Source::Range {
        column,
        from: lit(Kind::Moment, Value::Moment(0)),
        to: lit(Kind::Moment, Value::Null),
        step: lit(Kind::Span, Value::Span(1)),
    };
    Ok(Plan {
        source,
        ops: Items::new(alloc),
    })
}

fn sample_op(alloc: Global, i: usize) -> Result<Op, AllocError> {
    match i {
        0 => Ok(Op::Take(18446744073709551615)),
        1 => inner_union(alloc),
        2 => Ok(Op::Where(last_part(alloc)?)),
        _ => Ok(Op::Where(BExpr::Literal(unwritten(i - 3)))),
    }
}

const OPS: [&str; 6] = [
    "T\n| take 18446744073709551615\n",
    "T\n| partition by k (\n  | union outer (\n    B\n  )\n)\n",
    "T\n| where at(d,-1)\n",
    "T\n| where string(null)\n",
    "T\n| where datetime(null)\n",
    "T\n| where datetime(null)\n",
];

fn one_table(alloc: Global) -> Result<Schemas, AllocError> {
    let mut schema = Schema::new(alloc);
    schema.push(Column {
        name: text(alloc, "k")?,
        kind: Kind::Long,
    })?;
    let name = text(alloc, "T")?;
    let mut tables = Schemas::new(alloc);
    tables.push(NamedSchema { name, schema })?;
    Ok(tables)
}

// The text of a program's copy, which has as many tables.
fn copied_text(alloc: Global, main: Plan) -> Result<KText, AllocError> {
    let tables = one_table(alloc)?;
    let lets = Items::new(alloc);
    let program = Program { tables, lets, main };
    let copy = clone_program(alloc, &program)?;
    if copy.tables.schemas().len() != 1 {
        return text(alloc, "no table");
    }
    plan_text(alloc, &copy)
}

#[test]
fn operators(rt: HostRuntime) -> Result<(), Fail> {
    let alloc = rt.alloc();
    for i in 0..OPS.len() {
        let op = sample_op(alloc, i)?;
        let plan = table(alloc, "T", one(alloc, op)?)?;
        let got = copied_text(alloc, plan)?;
        assert_eq!(rt; got.as_str(), OPS[i]);
    }
    Ok(())
}

#[test]
fn ranges(rt: HostRuntime) -> Result<(), Fail> {
    let alloc = rt.alloc();
    let got = copied_text(alloc, endless(alloc)?)?;
    let want =
        "range x from datetime(0001-01-01T00:00:00.0000000Z) to datetime(null) step timespan(00:00:00.0000001)\n";
    assert_eq!(rt; got.as_str(), want);
    Ok(())
}
