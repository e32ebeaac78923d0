use crate::fitting::fits_table;
use crate::plans::{Row, Takes, by, count, keys};
use crate::table::{Line, Made, table_of};
use csv_io::table_text;
use kql_bound::GroupPlan;
use kql_functions::Aggregate;
use live_catalogue::Grows;
use std::alloc::Global;
use std::test::Fail;
use view_ops::{View, views_stand_for_what_they_took};

// Rows stay below it.
const LIMIT: u64 = 1 << 63;

// A view of a plan, which took nothing, where the plan fits.
pub(crate) fn opened(alloc: Global, plan: Made<GroupPlan>) -> Made<Option<View>> {
    let plan = plan?;
    let t = table_of(alloc, &[])?;
    if !fits_table(alloc, &plan, &t)? {
        return Ok(None);
    }
    let view = View::new(alloc, plan, t.schema().copy(alloc)?)?;
    Ok(Some(view))
}

// Gives a view rows, where it takes them.
fn feed(alloc: Global, view: &mut View, lines: &[Line]) -> Made<bool> {
    let t = table_of(alloc, lines)?;
    if !view.takes(&t) || view.fed() >= LIMIT - t.len() as u64 {
        return Ok(false);
    }
    view.append(&t)?;
    Ok(true)
}

// Whether a view has this table.
pub(crate) fn shows(alloc: Global, view: &View, want: &str) -> Made<bool> {
    let t = view.table()?;
    let text = table_text(alloc, &t)?;
    Ok(text.as_slice() == want.as_bytes())
}

// Whether a view that is given these tables, one after another, has this table and counts so many rows.
fn gives(
    alloc: Global,
    plan: Made<GroupPlan>,
    batches: &[&[Line]],
    fed: u64,
    want: &str,
) -> Made<bool> {
    let Some(mut view) = opened(alloc, plan)? else {
        return Ok(false);
    };
    for lines in batches {
        if !feed(alloc, &mut view, lines)? {
            return Ok(false);
        }
    }
    Ok(view.fed() == fed && view.rows() == fed && shows(alloc, &view, want)?)
}

const SMALL: &[Row] = &[
    ("c", Aggregate::Count, Takes::Nothing),
    ("s", Aggregate::Sum, Takes::Number),
    ("l", Aggregate::MakeList, Takes::Number),
];

const FIRST: &[Line] = &[("a", None, Some(1)), ("b", None, Some(2))];

const SECOND: &[Line] = &[("b", None, Some(3)), ("a", None, Some(4))];

#[test]
fn groups_of_two_tables(rt: HostRuntime) -> Result<(), Fail> {
    let alloc = rt.alloc();
    let want = "g,c,s,l\na,2,5,\"[1,4]\"\nb,2,5,\"[2,3]\"\n";
    views_stand_for_what_they_took();
    assert!(rt; gives(alloc, by(alloc, SMALL, "g"), &[FIRST, SECOND], 4, want)?);
    Ok(())
}

// Gives a view of the first table the second. Where it is refused, the view has the table that it had: `rt try --test --fail-alloc N` refuses the
// Nth request for memory.
fn is_whole_or_as_before(alloc: Global, view: &mut View) -> Made<bool> {
    let t = table_of(alloc, SECOND)?;
    if !view.takes(&t) || view.fed() >= LIMIT - t.len() as u64 {
        return Ok(false);
    }
    match view.append(&t) {
        Ok(()) => Ok(
            view.fed() == 4 && shows(alloc, view, "g,c,s,l\na,2,5,\"[1,4]\"\nb,2,5,\"[2,3]\"\n")?,
        ),
        Err(_) => Ok(view.fed() == 2 && shows(alloc, view, "g,c,s,l\na,1,1,[1]\nb,1,2,[2]\n")?),
    }
}

#[test]
fn a_refused_table_changes_nothing(rt: HostRuntime) -> Result<(), Fail> {
    let alloc = rt.alloc();
    let mut view = opened(alloc, by(alloc, SMALL, "g"))?.expect(&rt, "the plan fits");
    assert!(rt; feed(alloc, &mut view, FIRST)?);
    assert!(rt; is_whole_or_as_before(alloc, &mut view)?);
    Ok(())
}

// A table without rows changes nothing, before others and behind them. With keys no rows make no group, and without keys one.
#[test]
fn tables_without_rows(rt: HostRuntime) -> Result<(), Fail> {
    let alloc = rt.alloc();
    let want = "g,c,s,l\na,1,1,[1]\nb,1,2,[2]\n";
    assert!(rt; gives(alloc, by(alloc, SMALL, "g"), &[], 0, "g,c,s,l\n")?);
    assert!(rt; gives(alloc, by(alloc, SMALL, "g"), &[&[], FIRST, &[]], 2, want)?);
    assert!(rt; gives(alloc, count(alloc), &[], 0, "n\n0\n")?);
    assert!(rt; gives(alloc, count(alloc), &[FIRST, &[], SECOND], 4, "n\n4\n")?);
    Ok(())
}

const ALL: &[Row] = &[
    ("count", Aggregate::Count, Takes::Nothing),
    ("countif", Aggregate::CountIf, Takes::Test),
    ("dcount", Aggregate::CountDistinct, Takes::Number),
    ("dcountif", Aggregate::CountDistinctIf, Takes::NumberWhere),
    ("sum", Aggregate::Sum, Takes::Number),
    ("sumif", Aggregate::SumIf, Takes::NumberWhere),
    ("min", Aggregate::Min, Takes::Number),
    ("minif", Aggregate::MinIf, Takes::NumberWhere),
    ("max", Aggregate::Max, Takes::Number),
    ("maxif", Aggregate::MaxIf, Takes::NumberWhere),
    ("list", Aggregate::MakeList, Takes::Number),
    ("listif", Aggregate::MakeListIf, Takes::NumberWhere),
    ("set", Aggregate::MakeSet, Takes::Number),
    ("setif", Aggregate::MakeSetIf, Takes::NumberWhere),
    ("most", Aggregate::ArgMax, Takes::Best),
    ("least", Aggregate::ArgMin, Takes::Best),
    ("any", Aggregate::TakeAny, Takes::Label),
    ("and", Aggregate::BinaryAllAnd, Takes::Number),
    ("or", Aggregate::BinaryAllOr, Takes::Number),
    ("xor", Aggregate::BinaryAllXor, Takes::Number),
];

// The keys are 1, null and 2, and each has rows in several tables.
const FOUR: &[&[Line]] = &[
    &[("a", Some(1), Some(3)), ("b", None, Some(7))],
    &[("c", Some(1), None), ("d", Some(2), Some(5))],
    &[
        ("e", None, Some(9)),
        ("f", Some(1), Some(3)),
        ("g", Some(1), Some(6)),
    ],
    &[("h", Some(2), Some(5)), ("i", None, Some(7))],
];

const FOUR_BY_KEY: &str =
    "k,count,countif,dcount,dcountif,sum,sumif,min,minif,max,maxif,list,listif,set,setif,most,most_g,least,least_g,any,and,or,xor\n\
    1,4,1,2,1,12,6,3,6,6,6,\"[3,3,6]\",[6],\"[3,6]\",[6],6,g,3,a,a,2,7,6\n\
    ,3,3,2,2,23,23,7,7,9,9,\"[7,9,7]\",\"[7,9,7]\",\"[7,9]\",\"[7,9]\",9,e,7,b,b,1,15,9\n\
    2,2,0,1,0,10,0,5,,5,,\"[5,5]\",[],[5],[],5,d,5,d,d,5,5,0\n";

const LINES: &[Line] = &[
    ("a", Some(1), Some(3)),
    ("b", None, Some(7)),
    ("c", Some(1), None),
    ("d", Some(2), Some(5)),
    ("e", None, Some(9)),
    ("f", Some(1), Some(3)),
    ("g", Some(1), Some(6)),
    ("h", Some(2), Some(5)),
    ("i", None, Some(7)),
];

// Each aggregate over four tables, and over all rows at once.
#[test]
fn each_aggregate_over_four_tables(rt: HostRuntime) -> Result<(), Fail> {
    let alloc = rt.alloc();
    assert!(rt; gives(alloc, by(alloc, ALL, "k"), FOUR, 9, FOUR_BY_KEY)?);
    assert!(rt; gives(alloc, by(alloc, ALL, "k"), &[LINES], 9, FOUR_BY_KEY)?);
    Ok(())
}

#[test]
fn keys_alone(rt: HostRuntime) -> Result<(), Fail> {
    let alloc = rt.alloc();
    assert!(rt; gives(alloc, keys(alloc), FOUR, 9, "k\n1\n\"\"\n2\n")?);
    Ok(())
}

// What is given to a copy is not given to the view that it was made of.
fn stays(alloc: Global, view: &View) -> Made<bool> {
    let mut copy = view.copy()?;
    let same = copy.fed() == view.fed();
    let t = table_of(alloc, SECOND)?;
    if !copy.takes(&t) || copy.rows() >= LIMIT - t.len() as u64 {
        return Ok(false);
    }
    copy.grow(&t)?;
    Ok(
        same && copy.rows() == 4
            && view.rows() == 2
            && shows(alloc, &copy, "n\n4\n")?
            && shows(alloc, view, "n\n2\n")?,
    )
}

// Whether a view takes a table of other columns.
fn takes_others(view: &View) -> Made<bool> {
    let t = view.table()?;
    Ok(view.takes(&t))
}

#[test]
fn a_copy_grows_alone(rt: HostRuntime) -> Result<(), Fail> {
    let alloc = rt.alloc();
    let mut view = opened(alloc, count(alloc))?.expect(&rt, "the plan fits");
    assert!(rt; feed(alloc, &mut view, FIRST)?);
    assert!(rt; stays(alloc, &view)?);
    assert!(rt; !takes_others(&view)?);
    assert_eq!(rt; view.schema().len(), 3);
    Ok(())
}
