//! Items, and the names that each gets.
//!
//! What builds an expression takes the results of what builds its parts, so that a sample is one expression.
use item_names::{item_names, print_name, takes_number};
use kql_bound::{BExpr, ChainSign, Exprs, Link, Lit, StepColumn};
use kql_cells::{KText, Kind, Value};
use kql_functions::{Aggregate, ArithmeticFunc, ConversionFunc, Func, Window};
use kql_items::{Boxed, Items};
use std::alloc::{AllocError, Global};
use std::test::Fail;

type Made<T> = Result<T, AllocError>;

fn one<T: Drop>(alloc: Global, x: Made<T>) -> Made<Items<T>> {
    let x = x?;
    let mut list = Items::new(alloc);
    list.push(x)?;
    Ok(list)
}

fn with<T: Drop>(list: Made<Items<T>>, x: Made<T>) -> Made<Items<T>> {
    let mut list = list?;
    list.push(x?)?;
    Ok(list)
}

fn two<T: Drop>(alloc: Global, x: Made<T>, y: Made<T>) -> Made<Items<T>> {
    with(one(alloc, x), y)
}

fn column(alloc: Global, name: &str) -> Made<BExpr> {
    Ok(BExpr::Column(KText::from_str(alloc, name)?))
}

fn five() -> Lit {
    Lit {
        kind: Kind::Long,
        value: Value::Long(5),
    }
}

fn number() -> Made<BExpr> {
    Ok(BExpr::Literal(five()))
}

fn call(f: ArithmeticFunc, args: Made<Exprs>) -> Made<BExpr> {
    Ok(BExpr::Call(Func::Arithmetic(f), args?))
}

fn boxed(alloc: Global, e: Made<BExpr>) -> Made<Boxed<BExpr>> {
    Boxed::new(alloc, e?)
}

fn link(e: Made<BExpr>) -> Made<Link> {
    Ok((ChainSign::Add, e?))
}

// x + 5
fn sum(alloc: Global) -> Made<BExpr> {
    let first = boxed(alloc, column(alloc, "x"))?;
    let links = one(alloc, link(number()))?;
    Ok(BExpr::Chain(first, links))
}

// x[5]
fn path(alloc: Global) -> Made<BExpr> {
    steps_into(alloc, column(alloc, "x"), one(alloc, number()))
}

fn steps_into(alloc: Global, whole: Made<BExpr>, steps: Made<Exprs>) -> Made<BExpr> {
    let whole = boxed(alloc, whole)?;
    Ok(BExpr::Path(whole, steps?))
}

fn key(alloc: Global, key: &str) -> Made<BExpr> {
    Ok(BExpr::Literal(Lit {
        kind: Kind::Text,
        value: Value::Text(KText::from_str(alloc, key)?),
    }))
}

fn place(n: i64) -> Made<BExpr> {
    Ok(BExpr::Literal(Lit {
        kind: Kind::Long,
        value: Value::Long(n),
    }))
}

// x.a b[5]
fn deep_path(alloc: Global) -> Made<BExpr> {
    steps_into(
        alloc,
        column(alloc, "x"),
        two(alloc, key(alloc, "a b"), number()),
    )
}

// x.a[-1]
fn path_from_end(alloc: Global) -> Made<BExpr> {
    steps_into(
        alloc,
        column(alloc, "x"),
        two(alloc, key(alloc, "a"), place(-1)),
    )
}

// x[b]
fn path_by_column(alloc: Global) -> Made<BExpr> {
    steps_into(alloc, column(alloc, "x"), one(alloc, column(alloc, "b")))
}

// bin(x, 5)[0]
fn path_into_call(alloc: Global) -> Made<BExpr> {
    steps_into(
        alloc,
        binned(alloc, ArithmeticFunc::Bin),
        one(alloc, place(0)),
    )
}

fn converted(alloc: Global, f: ConversionFunc, e: Made<BExpr>) -> Made<BExpr> {
    let args = one(alloc, e)?;
    Ok(BExpr::Call(Func::Conversion(f), args))
}

// a.x
fn step(alloc: Global) -> Made<BExpr> {
    let step = KText::from_str(alloc, "a")?;
    let column = KText::from_str(alloc, "x")?;
    Ok(BExpr::Step(StepColumn {
        step,
        column,
        number: 1,
        place: 0,
        default: five(),
    }))
}

fn window(alloc: Global) -> Made<BExpr> {
    let args = one(alloc, column(alloc, "x"))?;
    Ok(BExpr::Window(Window::Prev, args))
}

fn aggregate(f: Aggregate, args: Made<Exprs>) -> Made<BExpr> {
    Ok(BExpr::Aggregate(f, args?))
}

// f(x)
fn over(alloc: Global, f: Aggregate) -> Made<BExpr> {
    aggregate(f, one(alloc, column(alloc, "x")))
}

// f(x, b)
fn over_two(alloc: Global, f: Aggregate) -> Made<BExpr> {
    aggregate(f, two(alloc, column(alloc, "x"), column(alloc, "b")))
}

// f(x + 5, b)
fn over_sum(alloc: Global, f: Aggregate) -> Made<BExpr> {
    aggregate(f, two(alloc, sum(alloc), column(alloc, "b")))
}

// f(x, 5)
fn binned(alloc: Global, f: ArithmeticFunc) -> Made<BExpr> {
    call(f, two(alloc, column(alloc, "x"), number()))
}

// f(x + 5, 5)
fn binned_sum(alloc: Global) -> Made<BExpr> {
    call(ArithmeticFunc::Bin, two(alloc, sum(alloc), number()))
}

// The names of an item as the one with number 3, a blank behind each, and `#` where it takes the number.
fn names_of(alloc: Global, e: &BExpr) -> Made<KText> {
    let names = item_names(alloc, e, 3)?;
    let mut text = KText::new(alloc);
    for name in names.as_slice() {
        text.push_str(name.as_str())?;
        text.push_str(" ")?;
    }
    if takes_number(e) {
        text.push_str("#")?;
    }
    Ok(text)
}

// Whether an item has these names.
fn named(alloc: Global, e: Made<BExpr>, want: &str) -> Made<bool> {
    let e = boxed(alloc, e)?;
    let names = names_of(alloc, e.get())?;
    Ok(names.as_str() == want)
}

// Whether an aggregate over `x` alone, over `x` with another argument, and over a sum has these names.
fn named_three(alloc: Global, f: Aggregate, column: &str, other: &str) -> Made<bool> {
    Ok(
        named(alloc, over(alloc, f), column)?
            && named(alloc, over_two(alloc, f), column)?
            && named(alloc, over_sum(alloc, f), other)?,
    )
}

#[test]
fn columns_and_bins(rt: HostRuntime) -> Result<(), Fail> {
    let alloc = rt.alloc();
    let plain = named(alloc, column(alloc, "a b"), "a b ")?;
    let bin = named(alloc, binned(alloc, ArithmeticFunc::Bin), "x ")?;
    let floor = named(alloc, binned(alloc, ArithmeticFunc::Floor), "x ")?;
    let bin_at = named(alloc, binned(alloc, ArithmeticFunc::BinAt), "x ")?;
    assert_eq!(rt; [plain, bin, floor, bin_at], [true; 4]);
    Ok(())
}

#[test]
fn numbered_items(rt: HostRuntime) -> Result<(), Fail> {
    let alloc = rt.alloc();
    let literal = named(alloc, number(), "Column3 #")?;
    let sum = named(alloc, sum(alloc), "Column3 #")?;
    let path = named(alloc, path_from_end(alloc), "Column3 #")?;
    let step = named(alloc, step(alloc), "Column3 #")?;
    let window = named(alloc, window(alloc), "Column3 #")?;
    let call = named(alloc, binned(alloc, ArithmeticFunc::BinaryAnd), "Column3 #")?;
    let bin = named(alloc, binned_sum(alloc), "Column3 #")?;
    assert_eq!(rt; [literal, sum, path, step, window, call, bin], [true; 7]);
    Ok(())
}

#[test]
fn paths(rt: HostRuntime) -> Result<(), Fail> {
    let alloc = rt.alloc();
    let place = named(alloc, path(alloc), "x_5 ")?;
    let keys = named(alloc, deep_path(alloc), "x_a b_5 ")?;
    let column = named(alloc, path_by_column(alloc), "Column3 #")?;
    let call = named(alloc, path_into_call(alloc), "Column3 #")?;
    assert_eq!(rt; [place, keys, column, call], [true; 4]);
    Ok(())
}

// Whether a conversion of a path has the path's name, and that of a column and of a path without a name none.
fn is_conversion_named(alloc: Global, f: ConversionFunc) -> Made<bool> {
    Ok(
        named(alloc, converted(alloc, f, deep_path(alloc)), "x_a b_5 ")?
            && named(alloc, converted(alloc, f, column(alloc, "x")), "Column3 #")?
            && named(
                alloc,
                converted(alloc, f, path_from_end(alloc)),
                "Column3 #",
            )?,
    )
}

#[test]
fn conversions_of_paths(rt: HostRuntime) -> Result<(), Fail> {
    let alloc = rt.alloc();
    let long = is_conversion_named(alloc, ConversionFunc::ToLong)?;
    let text = is_conversion_named(alloc, ConversionFunc::ToText)?;
    let truth = is_conversion_named(alloc, ConversionFunc::ToBool)?;
    let moment = is_conversion_named(alloc, ConversionFunc::ToMoment)?;
    let span = is_conversion_named(alloc, ConversionFunc::ToSpan)?;
    assert_eq!(rt; [long, text, truth, moment, span], [true; 5]);
    Ok(())
}

// The aggregates whose name stands before that of their column.
const OVER_COLUMNS: &[(Aggregate, &str, &str)] = &[
    (
        Aggregate::CountDistinct,
        "count_distinct_x ",
        "count_distinct_ ",
    ),
    (
        Aggregate::CountDistinctIf,
        "count_distinctif_x ",
        "count_distinctif_ ",
    ),
    (Aggregate::Sum, "sum_x ", "sum_ "),
    (Aggregate::SumIf, "sumif_x ", "sumif_ "),
    (Aggregate::Min, "min_x ", "min_ "),
    (Aggregate::MinIf, "minif_x ", "minif_ "),
    (Aggregate::Max, "max_x ", "max_ "),
    (Aggregate::MaxIf, "maxif_x ", "maxif_ "),
    (
        Aggregate::BinaryAllAnd,
        "binary_all_and_x ",
        "binary_all_and_ ",
    ),
    (
        Aggregate::BinaryAllOr,
        "binary_all_or_x ",
        "binary_all_or_ ",
    ),
    (
        Aggregate::BinaryAllXor,
        "binary_all_xor_x ",
        "binary_all_xor_ ",
    ),
    (Aggregate::Count, "count_ ", "count_ "),
    (Aggregate::CountIf, "countif_ ", "countif_ "),
    (Aggregate::MakeList, "list_x ", "Column3 #"),
    (Aggregate::MakeListIf, "list_x ", "Column3 #"),
    (Aggregate::MakeSet, "set_x ", "Column3 #"),
    (Aggregate::MakeSetIf, "set_x ", "Column3 #"),
];

// The first name that is wrong, or nothing.
fn wrong_aggregate(
    alloc: Global,
    rows: &'static [(Aggregate, &'static str, &'static str)],
) -> Made<&'static str> {
    for row in rows {
        if !named_three(alloc, row.0, row.1, row.2)? {
            return Ok(row.1);
        }
    }
    Ok("")
}

#[test]
fn aggregates_of_one_column(rt: HostRuntime) -> Result<(), Fail> {
    assert_eq!(rt; wrong_aggregate(rt.alloc(), OVER_COLUMNS)?, "");
    Ok(())
}

// count() and sum(bin(x, 5))
fn of_nothing(alloc: Global) -> Made<BExpr> {
    aggregate(Aggregate::Count, Ok(Items::new(alloc)))
}

fn of_bins(alloc: Global, f: Aggregate) -> Made<BExpr> {
    aggregate(
        f,
        two(
            alloc,
            binned(alloc, ArithmeticFunc::Bin),
            column(alloc, "b"),
        ),
    )
}

// f(x[5], b)
fn of_path(alloc: Global, f: Aggregate) -> Made<BExpr> {
    aggregate(f, two(alloc, path(alloc), column(alloc, "b")))
}

#[test]
fn aggregates_of_several_columns(rt: HostRuntime) -> Result<(), Fail> {
    let alloc = rt.alloc();
    let greatest = named(alloc, over_two(alloc, Aggregate::ArgMax), "x b ")?;
    let least = named(alloc, over_sum(alloc, Aggregate::ArgMin), "Column3 b #")?;
    let alone = named(alloc, over(alloc, Aggregate::ArgMax), "x ")?;
    let first = named(alloc, over_two(alloc, Aggregate::TakeAny), "x b ")?;
    let binned = named(alloc, of_bins(alloc, Aggregate::ArgMax), "x b ")?;
    let path = named(alloc, of_path(alloc, Aggregate::ArgMax), "x_5 b ")?;
    let total = named(alloc, of_path(alloc, Aggregate::Sum), "sum_ ")?;
    let sum = named(alloc, of_bins(alloc, Aggregate::Sum), "sum_ ")?;
    let count = named(alloc, of_nothing(alloc), "count_ ")?;
    assert_eq!(rt;
        [
            greatest, least, alone, first, binned, path, total, sum, count
        ],
        [true; 9]
    );
    Ok(())
}

#[test]
fn items_of_print(rt: HostRuntime) -> Result<(), Fail> {
    let alloc = rt.alloc();
    assert_eq!(rt; print_name(alloc, 0)?.as_str(), "print_0");
    assert_eq!(rt; print_name(alloc, 12)?.as_str(), "print_12");
    Ok(())
}
