//! Small expressions, and the type of each.
use kql_bound::{BExpr, ChainSign, Exprs, Link, Links, Lit, StepColumn};
use kql_cells::{Column, KText, Kind, Value};
use kql_functions::{Aggregate, ComparisonFunc, Func, Window};
use kql_items::{Boxed, Items};
use kql_meaning::{
    column_kind, kind_of, law_of_bins, law_of_cuts, law_of_expansion, law_of_greatest_and_least,
    law_of_groups, law_of_inner_join, law_of_innerunique_join, law_of_join_names, law_of_keys,
    law_of_leftouter_join, law_of_matches, law_of_nothing, law_of_outer_joins, law_of_partition,
    law_of_rows, law_of_runs, law_of_scan, law_of_semi_joins, law_of_sort, law_of_summarize,
    law_of_terms, law_of_union,
};
use kql_meaning_examples::{
    example_of_expansion, example_of_joins, example_of_next_and_row_number, example_of_parse,
    example_of_partition, example_of_range, example_of_scan, example_of_scan_outputs,
    example_of_series, example_of_sort, example_of_summarize, example_of_union, example_of_where,
    example_of_windows,
};
use std::alloc::{AllocError, Global};
use std::test::Fail;

// Columns of each type; the name of each begins that of its type.
fn columns(alloc: Global) -> Result<Items<Column>, AllocError> {
    let mut list = Items::new(alloc);
    list.push(a_column(alloc, "bool", Kind::Bool)?)?;
    list.push(a_column(alloc, "long", Kind::Long)?)?;
    list.push(a_column(alloc, "string", Kind::Text)?)?;
    list.push(a_column(alloc, "datetime", Kind::Moment)?)?;
    list.push(a_column(alloc, "timespan", Kind::Span)?)?;
    list.push(a_column(alloc, "dynamic", Kind::Dynamic)?)?;
    Ok(list)
}

fn a_column(alloc: Global, name: &str, kind: Kind) -> Result<Column, AllocError> {
    let name = KText::from_str(alloc, name)?;
    Ok(Column { name, kind })
}

// The column of a name, as an expression.
fn col(alloc: Global, name: &str) -> Result<BExpr, AllocError> {
    Ok(BExpr::Column(KText::from_str(alloc, name)?))
}

fn none(alloc: Global) -> Exprs {
    Items::new(alloc)
}

// One and two columns as arguments.
fn one(alloc: Global, a: &str) -> Result<Exprs, AllocError> {
    let mut args = Items::new(alloc);
    args.push(col(alloc, a)?)?;
    Ok(args)
}

fn two(alloc: Global, a: &str, b: &str) -> Result<Exprs, AllocError> {
    let mut args = one(alloc, a)?;
    args.push(col(alloc, b)?)?;
    Ok(args)
}

// a, a sign and b, and then as many times `+ c` as is said.
fn chain(
    alloc: Global,
    a: &str,
    sign: ChainSign,
    b: &str,
    more: usize,
    c: &str,
) -> Result<BExpr, AllocError> {
    let mut links: Links = Items::new(alloc);
    let link: Link = (sign, col(alloc, b)?);
    links.push(link)?;
    for _ in 0..more {
        let link: Link = (ChainSign::Add, col(alloc, c)?);
        links.push(link)?;
    }
    Ok(BExpr::Chain(Boxed::new(alloc, col(alloc, a)?)?, links))
}

fn path(alloc: Global, whole: &str, steps: Exprs) -> Result<BExpr, AllocError> {
    Ok(BExpr::Path(Boxed::new(alloc, col(alloc, whole)?)?, steps))
}

fn step(alloc: Global) -> Result<BExpr, AllocError> {
    Ok(BExpr::Step(StepColumn {
        step: KText::from_str(alloc, "s")?,
        column: KText::from_str(alloc, "c")?,
        number: 1,
        place: 0,
        default: Lit {
            kind: Kind::Moment,
            value: Value::Null,
        },
    }))
}

// A column or a chain of a number, and its type as the table of arithmetic has it.
fn plain(alloc: Global, which: usize) -> Result<BExpr, AllocError> {
    match which {
        0 => Ok(BExpr::Literal(Lit {
            kind: Kind::Span,
            value: Value::Null,
        })),
        1 => col(alloc, "string"),
        2 => col(alloc, "strings"),
        3 => step(alloc),
        4 => chain(alloc, "datetime", ChainSign::Add, "timespan", 0, ""),
        5 => chain(alloc, "datetime", ChainSign::Subtract, "datetime", 0, ""),
        6 => chain(
            alloc,
            "datetime",
            ChainSign::Subtract,
            "datetime",
            1,
            "timespan",
        ),
        7 => chain(alloc, "long", ChainSign::Modulo, "long", 2, "long"),
        8 => chain(alloc, "long", ChainSign::Add, "string", 1, "long"),
        _ => chain(alloc, "string", ChainSign::Multiply, "string", 0, ""),
    }
}

const PLAIN: [Option<Kind>; 10] = [
    Some(Kind::Span),
    Some(Kind::Text),
    None,
    Some(Kind::Moment),
    Some(Kind::Moment),
    Some(Kind::Span),
    Some(Kind::Span),
    Some(Kind::Long),
    None,
    None,
];

// A call, and its type as the tables of functions, window functions and aggregates have it.
fn call(alloc: Global, which: usize) -> Result<BExpr, AllocError> {
    match which {
        0 => path(alloc, "dynamic", two(alloc, "long", "string")?),
        1 => path(alloc, "dynamic", none(alloc)),
        2 => {
            let less = Func::Comparison(ComparisonFunc::Less);
            Ok(BExpr::Call(less, two(alloc, "datetime", "datetime")?))
        }
        3 => {
            let less = Func::Comparison(ComparisonFunc::Less);
            Ok(BExpr::Call(less, two(alloc, "datetime", "long")?))
        }
        4 => Ok(BExpr::Window(Window::RowNumber, none(alloc))),
        5 => Ok(BExpr::Window(Window::Prev, two(alloc, "datetime", "long")?)),
        6 => Ok(BExpr::Window(Window::RowCumsum, one(alloc, "timespan")?)),
        7 => Ok(BExpr::Aggregate(Aggregate::Count, none(alloc))),
        8 => Ok(BExpr::Aggregate(Aggregate::CountDistinct, one(alloc, "string")?)),
        9 => Ok(BExpr::Aggregate(Aggregate::MakeSet, one(alloc, "long")?)),
        10 => Ok(BExpr::Aggregate(Aggregate::Sum, one(alloc, "timespan")?)),
        11 => Ok(BExpr::Aggregate(Aggregate::MaxIf, two(alloc, "datetime", "bool")?)),
        12 => Ok(BExpr::Aggregate(Aggregate::BinaryAllOr, one(alloc, "long")?)),
        _ => Ok(BExpr::Aggregate(Aggregate::ArgMin, two(alloc, "long", "string")?)),
    }
}

const CALLS: [Option<Kind>; 14] = [
    Some(Kind::Dynamic),
    Some(Kind::Dynamic),
    Some(Kind::Bool),
    None,
    Some(Kind::Long),
    Some(Kind::Moment),
    Some(Kind::Span),
    Some(Kind::Long),
    Some(Kind::Long),
    Some(Kind::Dynamic),
    Some(Kind::Span),
    Some(Kind::Moment),
    Some(Kind::Long),
    Some(Kind::Long),
];

#[test]
fn plain_expressions_have_their_types(rt: HostRuntime) -> Result<(), Fail> {
    let alloc = rt.alloc();
    let columns = columns(alloc)?;
    for (which, want) in PLAIN.iter().enumerate() {
        let e = plain(alloc, which)?;
        let kind = kind_of(alloc, &e, columns.as_slice())?;
        assert_eq!(rt; kind, *want);
    }
    Ok(())
}

#[test]
fn calls_have_their_types(rt: HostRuntime) -> Result<(), Fail> {
    let alloc = rt.alloc();
    let columns = columns(alloc)?;
    for (which, want) in CALLS.iter().enumerate() {
        let e = call(alloc, which)?;
        let kind = kind_of(alloc, &e, columns.as_slice())?;
        assert_eq!(rt; kind, *want);
    }
    Ok(())
}

#[test]
fn columns_have_their_types(rt: HostRuntime) -> Result<(), Fail> {
    let alloc = rt.alloc();
    let columns = columns(alloc)?;
    let long = column_kind("long", columns.as_slice());
    assert_eq!(rt; long, Some(Kind::Long));
    let other = column_kind("Long", columns.as_slice());
    assert_eq!(rt; other, None);
    Ok(())
}

#[test]
fn laws_hold() {
    law_of_bins();
    law_of_cuts();
    law_of_expansion();
    law_of_greatest_and_least();
    law_of_groups();
    law_of_inner_join();
    law_of_innerunique_join();
    law_of_join_names();
    law_of_keys();
    law_of_leftouter_join();
    law_of_matches();
    law_of_nothing();
    law_of_outer_joins();
    law_of_partition();
    law_of_rows();
    law_of_runs();
    law_of_scan();
    law_of_semi_joins();
    law_of_sort();
    law_of_summarize();
    law_of_terms();
    law_of_union();
}

#[test]
fn examples_hold() {
    example_of_expansion();
    example_of_joins();
    example_of_next_and_row_number();
    example_of_parse();
    example_of_partition();
    example_of_range();
    example_of_scan();
    example_of_scan_outputs();
    example_of_series();
    example_of_sort();
    example_of_summarize();
    example_of_union();
    example_of_where();
    example_of_windows();
}
