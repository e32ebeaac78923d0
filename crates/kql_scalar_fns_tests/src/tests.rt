use crate::rows::{ARITHMETIC, CHOICE, COMPARISON, DYNAMIC, TIME};
use kql_cells::{CellRef, Dyn, KText, Value};
use kql_dynamic::parse_json;
use kql_scalar_fns::*;
use std::alloc::{AllocError, Global};
use std::test::Fail;

fn named(functions: &[Func], name: &str) -> Option<Func> {
    for f in functions {
        if f.name() == name {
            return Some(*f);
        }
    }
    None
}

fn func_named(name: &str) -> Option<Func> {
    match named(functions(), name) {
        Some(f) => Some(f),
        None => named(operators(), name),
    }
}

// The value of a JSON text; none where it is no JSON.
fn json(alloc: Global, text: &str) -> Result<Option<Value>, AllocError> {
    let value = parse_json(alloc, text)?;
    let is_text = match value {
        Value::Dynamic(Dyn::Text(_)) => true,
        _ => false,
    };
    if is_text && !text.starts_with("\"") {
        Ok(None)
    } else {
        Ok(Some(value))
    }
}

// The value that an argument is; none where it is written wrongly.
fn value_of(alloc: Global, text: &str) -> Result<Option<Value>, AllocError> {
    if let Some(t) = text.strip_prefix("'") {
        return Ok(Some(Value::Text(KText::from_str(alloc, t)?)));
    }
    if let Some(ticks) = text.strip_prefix("@") {
        return Ok(match ticks.parse::<i64>() {
            Ok(ticks) => Some(Value::Moment(ticks)),
            Err(_) => None,
        });
    }
    if let Some(ticks) = text.strip_prefix("~") {
        return Ok(match ticks.parse::<i64>() {
            Ok(ticks) => Some(Value::Span(ticks)),
            Err(_) => None,
        });
    }
    if let Some(text) = text.strip_prefix("=") {
        return json(alloc, text);
    }
    match text {
        "null" => Ok(Some(Value::Null)),
        "true" => Ok(Some(Value::Bool(true))),
        "false" => Ok(Some(Value::Bool(false))),
        _ => match text.parse::<i64>() {
            Ok(n) => Ok(Some(Value::Long(n))),
            Err(_) => json(alloc, text),
        },
    }
}

// What a call of these arguments gives; none where one is not well formed.
fn cells_give(alloc: Global, f: Func, cells: &[CellRef<'_>]) -> Result<Option<Value>, AllocError> {
    if !are_well_formed(cells) {
        return Ok(None);
    }
    Ok(Some(apply_cells(alloc, f, cells)?))
}

// None where an argument is written wrongly or not well formed.
fn given(alloc: Global, f: Func, args: &str) -> Result<Option<Value>, AllocError> {
    let mut values = Vec::new(alloc);
    if !args.is_empty() {
        for arg in args.split("; ") {
            match value_of(alloc, arg)? {
                Some(value) => values.push(value)?,
                None => return Ok(None),
            }
        }
    }
    let mut cells = Vec::new(alloc);
    for value in &values {
        cells.push(value.as_cell())?;
    }
    cells_give(alloc, f, &cells)
}

// A name, arguments and a result.
fn parts_of(line: &str) -> Option<(&str, &str, &str)> {
    let (name, rest) = line.split_once(" | ")?;
    let (args, wanted) = rest.split_once(" | ")?;
    Some((name, args, wanted))
}

// Whether a row holds.
fn holds(alloc: Global, line: &str) -> Result<bool, AllocError> {
    let Some((name, args, wanted)) = parts_of(line) else {
        return Ok(false);
    };
    let Some(f) = func_named(name) else {
        return Ok(false);
    };
    let Some(wanted) = value_of(alloc, wanted)? else {
        return Ok(false);
    };
    match given(alloc, f, args)? {
        Some(given) => Ok(given.as_cell().is_same(wanted.as_cell())),
        None => Ok(false),
    }
}

// Rows that must not hold: a wrong result, arguments that are written wrongly or not well formed, no function, no row.
const WRONG: &str = "+ | 2; 3 | 6
+ | @x; ~1 | null
+ | @-1; ~1 | null
at | [1; 0 | null
parse_json | =x | null
plus | 2; 3 | 5
- | @3155378976000000000; ~1 | @3155378975999999999
+ | 2; 3 | x
+ 2; 3";

// The rows that do not hold.
fn wrong_rows(alloc: Global, table: &str) -> Result<String, AllocError> {
    let mut wrong = String::new(alloc);
    for line in table.split("\n") {
        if !holds(alloc, line)? {
            wrong.push_str(line)?;
            wrong.push_str("; ")?;
        }
    }
    Ok(wrong)
}

#[test]
fn arithmetic_rows(rt: HostRuntime) -> Result<(), Fail> {
    assert_eq!(rt; wrong_rows(rt.alloc(), ARITHMETIC)?.as_str(), "");
    Ok(())
}

#[test]
fn comparison_rows(rt: HostRuntime) -> Result<(), Fail> {
    assert_eq!(rt; wrong_rows(rt.alloc(), COMPARISON)?.as_str(), "");
    Ok(())
}

#[test]
fn choice_rows(rt: HostRuntime) -> Result<(), Fail> {
    assert_eq!(rt; wrong_rows(rt.alloc(), CHOICE)?.as_str(), "");
    Ok(())
}

#[test]
fn time_rows(rt: HostRuntime) -> Result<(), Fail> {
    assert_eq!(rt; wrong_rows(rt.alloc(), TIME)?.as_str(), "");
    Ok(())
}

#[test]
fn dynamic_rows(rt: HostRuntime) -> Result<(), Fail> {
    assert_eq!(rt; wrong_rows(rt.alloc(), DYNAMIC)?.as_str(), "");
    Ok(())
}

#[test]
fn wrong_rows_fail(rt: HostRuntime) -> Result<(), Fail> {
    for line in WRONG.split("\n") {
        assert!(rt; !holds(rt.alloc(), line)?, "{line}");
    }
    Ok(())
}

#[test]
fn owned_arguments(rt: HostRuntime) -> Result<(), Fail> {
    let alloc = rt.alloc();
    let values = [Value::Long(2), Value::Long(3)];
    let sum = apply(alloc, Func::Arithmetic(ArithmeticFunc::Add), &values)?;
    assert!(rt; sum.as_cell().is_same(CellRef::Long(5)));
    Ok(())
}

#[test]
fn part_words(rt: HostRuntime) -> Result<(), Fail> {
    assert!(rt; period_named("dayofyear").is_none() && field_named("week").is_none());
    Ok(())
}
