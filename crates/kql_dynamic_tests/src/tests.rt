ghost use Rattle.std.specs.Prelude.{IsTrue, map};
ghost use Rattle.std.specs.List.{list_all};
ghost use Rattle.kql_cells.specs.Dynamic.{is_well_formed_dynamic};

use kql_cells::{Dyn, KText, LEVELS_TOP, Value, has_form, has_levels_within};
use kql_dynamic::{
    are_well_formed, array_concat, array_index_of, array_length, array_reverse, array_slice,
    at_index, at_name, bag_has_key, bag_keys, bag_merge, bag_pack, elements_of_sets,
    keys_of_several_bags, levels, order_of_sets, pack_array, parse_json, print_json,
    set_difference, set_has_element, set_intersect, set_union, slices_and_joins,
};
use kql_items::Items;
use std::alloc::{AllocError, Global};
use std::process::Abort;
use std::test::Fail;

// The text of a value, as JSON; a null value is `null`.
fn shown(rt: &impl Abort, alloc: Global, value: Value) -> Result<KText, AllocError> {
    let d = dynamic(value);
    let is_well_formed = has_form(&d) && has_levels_within(&d, LEVELS_TOP);
    assert!(rt; is_well_formed);
    print_json(alloc, &d)
}

// A value as an argument of a call.
fn dynamic(value: Value) -> Dyn {
    match value {
        Value::Bool(b) => Dyn::Bool(b),
        Value::Long(n) => Dyn::Long(n),
        Value::Text(t) => Dyn::Text(t),
        Value::Dynamic(d) => d,
        _ => Dyn::Null,
    }
}

// Each text, and what it reads and prints as.
const TEXTS: [(&str, &str); 20] = [
    (r#"{"b":[1,2.5],"a":true}"#, r#"{"a":true,"b":[1,null]}"#),
    ("nope", r#""nope""#),
    ("", r#""""#),
    ("null", "null"),
    (" [ 1 , null ] ", "[1,null]"),
    ("9223372036854775807", "9223372036854775807"),
    ("9223372036854775808", "null"),
    ("-9223372036854775808", "-9223372036854775808"),
    ("-9223372036854775809", "null"),
    ("[1e2,-0,1.0,0]", "[null,null,null,0]"),
    ("1e400", r#""1e400""#),
    ("01", r#""01""#),
    (r#"{"k":1,"j":2,"k":3}"#, r#"{"j":2,"k":3}"#),
    (r#"{"é":1,"z":2,"":0}"#, r#"{"":0,"z":2,"é":1}"#),
    (r#""\u00e9\n\u0001\/""#, "\"é\\n\\u0001/\""),
    (r#""\ud83d\ude00""#, "\"😀\""),
    (r#""\ud83d""#, r#""\"\\ud83d\"""#),
    ("[1,]", r#""[1,]""#),
    ("[] []", r#""[] []""#),
    ("true", "true"),
];

#[test]
fn texts_read_and_print(rt: HostRuntime) -> Result<(), Fail> {
    let alloc = rt.alloc();
    for (text, want) in TEXTS {
        let got = shown(&rt, alloc, parse_json(alloc, text)?)?;
        assert_eq!(rt; got.as_str(), want, "{text}");
    }
    Ok(())
}

#[test]
fn nesting_has_a_limit(rt: HostRuntime) -> Result<(), Fail> {
    let alloc = rt.alloc();
    for (depth, is_array) in [(1usize, true), (127, true), (128, false)] {
        let mut text = String::new(alloc);
        for _ in 0..depth {
            text.push('[')?;
        }
        for _ in 0..depth {
            text.push(']')?;
        }
        let d = dynamic(parse_json(alloc, text.as_str())?);
        let is_well_formed = has_form(&d) && has_levels_within(&d, LEVELS_TOP);
        assert!(rt; is_well_formed);
        let want = if is_array { depth as u32 } else { 0 };
        assert_eq!(rt; levels(&d), want);
        let packed = shown(&rt, alloc, pack_array(alloc, &[&d])?)?;
        assert_eq!(rt; packed.as_str() == "null", depth == 127);
    }
    Ok(())
}

// A value, a key, and what stands there.
const NAMES: [(&str, &str, &str); 6] = [
    (r#"{"a":[1],"b":null}"#, "a", "[1]"),
    (r#"{"a":[1],"b":null}"#, "b", "null"),
    (r#"{"a":[1],"b":null}"#, "c", "null"),
    ("[1]", "0", "null"),
    ("null", "a", "null"),
    ("{}", "", "null"),
];

// A value, an index, and what stands there.
const INDEXES: [(&str, i64, &str); 13] = [
    (r#"[7,"x",{}]"#, 0, "7"),
    (r#"[7,"x",{}]"#, 1, r#""x""#),
    (r#"[7,"x",{}]"#, 3, "null"),
    (r#"[7,"x",{}]"#, -1, "{}"),
    (r#"[7,"x",{}]"#, -3, "7"),
    (r#"[7,"x",{}]"#, -4, "null"),
    ("[]", -1, "null"),
    ("[1]", i64::MIN, "null"),
    ("[1]", i64::MAX, "null"),
    ("[null]", 0, "null"),
    ("null", 0, "null"),
    (r#""ab""#, 0, "null"),
    (r#"{"a":1}"#, 0, "null"),
];

#[test]
fn parts_are_found(rt: HostRuntime) -> Result<(), Fail> {
    let alloc = rt.alloc();
    for (text, key, want) in NAMES {
        let d = dynamic(parse_json(alloc, text)?);
        let is_well_formed = has_form(&d) && has_levels_within(&d, LEVELS_TOP);
        assert!(rt; is_well_formed);
        let got = shown(&rt, alloc, at_name(alloc, &d, key)?)?;
        assert_eq!(rt; got.as_str(), want, "{text} at {key}");
    }
    for (text, index, want) in INDEXES {
        let d = dynamic(parse_json(alloc, text)?);
        let is_well_formed = has_form(&d) && has_levels_within(&d, LEVELS_TOP);
        assert!(rt; is_well_formed);
        let got = shown(&rt, alloc, at_index(alloc, &d, index)?)?;
        assert_eq!(rt; got.as_str(), want, "{text} at {index}");
    }
    Ok(())
}

#[derive(Clone, Copy, Debug)]
enum Call {
    Length,
    Concat,
    Slice,
    Reverse,
    IndexOf,
    Keys,
    HasKey,
    Merge,
    PackArray,
    PackBag,
    Union,
    Intersect,
    Difference,
    HasElement,
}

// A call on arrays, its arguments as one array, and its answer.
const ARRAY_CALLS: [(Call, &str, &str); 41] = [
    (Call::Length, "[[1,null]]", "2"),
    (Call::Length, "[[]]", "0"),
    (Call::Length, "[null]", "null"),
    (Call::Length, r#"[{"a":1}]"#, "null"),
    (Call::Concat, "[[1,2],[],[\"x\"]]", r#"[1,2,"x"]"#),
    (Call::Concat, "[[]]", "[]"),
    (Call::Concat, "[[1],null]", "null"),
    (Call::Concat, "[[1],{}]", "null"),
    (Call::Concat, "[]", "[]"),
    (Call::Slice, "[[1,2,3,4],1,2]", "[2,3]"),
    (Call::Slice, "[[1,2,3,4],-3,-2]", "[2,3]"),
    (Call::Slice, "[[1,2,3,4],-9,9]", "[1,2,3,4]"),
    (Call::Slice, "[[1,2,3,4],2,1]", "[]"),
    (Call::Slice, "[[1,2,3,4],4,9]", "[]"),
    (Call::Slice, "[[1,2,3,4],-9,-5]", "[]"),
    (Call::Slice, "[[1,2],0,9223372036854775807]", "[1,2]"),
    (Call::Slice, "[[],0,-1]", "[]"),
    (Call::Slice, "[[1,2],null,1]", "null"),
    (Call::Slice, "[[1,2],0,null]", "null"),
    (Call::Slice, "[\"ab\",0,1]", "null"),
    (Call::Slice, "[null,0,1]", "null"),
    (Call::Slice, r#"[{"a":1},0,1]"#, "null"),
    (Call::Slice, r#"[[1,2],"0",1]"#, "null"),
    (Call::Slice, r#"[[1,2],0,true]"#, "null"),
    (Call::Reverse, "[[1,\"a\",null]]", r#"[null,"a",1]"#),
    (Call::Reverse, "[[]]", "[]"),
    (Call::Reverse, "[true]", "null"),
    (Call::Reverse, "[null]", "null"),
    (Call::Reverse, r#"[{"a":[1]}]"#, "null"),
    (Call::IndexOf, "[[1,\"1\",1],\"1\"]", "1"),
    (Call::IndexOf, "[[1,2],3]", "-1"),
    (Call::IndexOf, "[[1,null],null]", "1"),
    (Call::IndexOf, r#"[[{"b":1,"a":2}],{"a":2,"b":1}]"#, "0"),
    (Call::IndexOf, "[null,null]", "null"),
    (Call::IndexOf, "[{},{}]", "null"),
    (Call::IndexOf, "[[],[]]", "-1"),
    (Call::IndexOf, "[[{},0,false,[]],[]]", "3"),
    (Call::IndexOf, "[[{},0,false,[]],null]", "-1"),
    (Call::PackArray, "[1,null,[2]]", "[1,null,[2]]"),
    (Call::PackArray, "[[],{}]", "[[],{}]"),
    (Call::PackArray, "[]", "[]"),
];

// A call on bags, its arguments as one array, and its answer.
const BAG_CALLS: [(Call, &str, &str); 29] = [
    (Call::Keys, r#"[{"b":1,"a":null}]"#, r#"["a","b"]"#),
    (Call::Keys, "[{}]", "[]"),
    (Call::Keys, "[[1]]", "null"),
    (Call::Keys, "[null]", "null"),
    (Call::Keys, r#"["a"]"#, "null"),
    (Call::HasKey, r#"[{"b":1,"a":null},"a"]"#, "true"),
    (Call::HasKey, r#"[{"b":1},"a"]"#, "false"),
    (Call::HasKey, r#"[null,"a"]"#, "null"),
    (Call::HasKey, r#"[["a"],"a"]"#, "null"),
    (Call::HasKey, r#"[{"a":1},null]"#, "null"),
    (Call::HasKey, r#"[{"1":1},1]"#, "null"),
    (Call::HasKey, r#"[{},""]"#, "false"),
    (
        Call::Merge,
        r#"[{"a":1,"b":2},{"b":3,"c":4}]"#,
        r#"{"a":1,"b":2,"c":4}"#,
    ),
    (
        Call::Merge,
        r#"[{"z":1},{"a":2},{"z":3,"a":4,"m":5}]"#,
        r#"{"a":2,"m":5,"z":1}"#,
    ),
    (Call::Merge, "[{},{}]", "{}"),
    (Call::Merge, r#"[{"a":1},null]"#, "null"),
    (Call::Merge, r#"[[],{"a":1}]"#, "null"),
    (Call::Merge, r#"["a",{"a":1}]"#, "null"),
    (Call::Merge, r#"[{"a":null},{"a":1}]"#, r#"{"a":null}"#),
    (
        Call::Merge,
        r#"[{"b":{"c":1},"a":[1]},{"b":{"d":2},"c":"x","a":null}]"#,
        r#"{"a":[1],"b":{"c":1},"c":"x"}"#,
    ),
    (Call::Merge, "[]", "{}"),
    (Call::PackBag, r#"["b",1,"a",null]"#, r#"{"a":null,"b":1}"#),
    (
        Call::PackBag,
        r#"["k",1,"j",2,"k",[3]]"#,
        r#"{"j":2,"k":[3]}"#,
    ),
    (Call::PackBag, "[1,2]", "null"),
    (Call::PackBag, r#"["k"]"#, "null"),
    (Call::PackBag, "[null,1]", "null"),
    (Call::PackBag, r#"["a",1,null,2]"#, "null"),
    (Call::PackBag, r#"["b",[],"a",{}]"#, r#"{"a":{},"b":[]}"#),
    (Call::PackBag, "[]", "{}"),
];

// A call on sets, its arguments as one array, and its answer.
const SET_CALLS: [(Call, &str, &str); 36] = [
    (Call::Union, "[[2,1,2],[3,1]]", "[2,1,3]"),
    (
        Call::Union,
        r#"[[null,"1",1,true],[{"b":1,"a":2},{"a":2,"b":1}]]"#,
        r#"[null,"1",1,true,{"a":2,"b":1}]"#,
    ),
    (Call::Union, "[[],[]]", "[]"),
    (Call::Union, "[[1],null]", "null"),
    (Call::Union, "[null,[1]]", "null"),
    (Call::Union, r#"["a",[1]]"#, "null"),
    (Call::Union, r#"[[1],{"a":1}]"#, "null"),
    (Call::Union, "[[],[2,2]]", "[2]"),
    (
        Call::Union,
        r#"[[null,false,0,[],[null],""],[{},[false],0,[],false,"",null]]"#,
        r#"[null,false,0,[],[null],"",{},[false]]"#,
    ),
    (Call::Intersect, "[[3,1,2,1],[1,3]]", "[3,1]"),
    (Call::Intersect, r#"[[[1],[2],"1"],[1,[2]]]"#, "[[2]]"),
    (Call::Intersect, r#"[{"a":1},[1]]"#, "null"),
    (Call::Intersect, "[null,[1]]", "null"),
    (Call::Intersect, "[[1],null]", "null"),
    (Call::Intersect, "[[],[1]]", "[]"),
    (Call::Intersect, "[[1],[]]", "[]"),
    (
        Call::Intersect,
        "[[0,{},null],[null,false,[],0]]",
        "[0,null]",
    ),
    (
        Call::Intersect,
        r#"[[1,{"b":1,"a":2}],[{"a":2,"b":1}]]"#,
        r#"[{"a":2,"b":1}]"#,
    ),
    (Call::Difference, "[[3,1,2,1,2],[3]]", "[1,2]"),
    (Call::Difference, "[[1],[1]]", "[]"),
    (Call::Difference, "[null,[1]]", "null"),
    (Call::Difference, "[[1],null]", "null"),
    (Call::Difference, "[[1],true]", "null"),
    (Call::Difference, "[[],[1]]", "[]"),
    (Call::Difference, "[[2,1,2],[]]", "[2,1]"),
    (
        Call::Difference,
        "[[0,{},null,[]],[false,[],{}]]",
        "[0,null]",
    ),
    (
        Call::Difference,
        r#"[[{"b":1,"a":2},1],[{"a":2,"b":1}]]"#,
        "[1]",
    ),
    (Call::HasElement, "[[1,null],null]", "true"),
    (Call::HasElement, r#"[[1,null],"1"]"#, "false"),
    (Call::HasElement, "[1,1]", "null"),
    (Call::HasElement, "[null,null]", "null"),
    (Call::HasElement, r#"[{"a":1},"a"]"#, "null"),
    (Call::HasElement, "[[],null]", "false"),
    (Call::HasElement, "[[{},0,false],null]", "false"),
    (Call::HasElement, "[[{},0,false],[]]", "false"),
    (
        Call::HasElement,
        r#"[[{"b":1,"a":2}],{"a":2,"b":1}]"#,
        "true",
    ),
];

// The answer of a call, none where it has another number of arguments.
fn answer(alloc: Global, call: Call, args: &[&Dyn]) -> Result<Option<Value>, AllocError>
    requires { IsTrue (list_all is_well_formed_dynamic (map (λ d. d.now) args.now)) }
{
    Ok(Some(match (call, args.len()) {
        (Call::Length, 1) => array_length(alloc, args)?,
        (Call::Concat, _) => array_concat(alloc, args)?,
        (Call::Slice, 3) => array_slice(alloc, args)?,
        (Call::Reverse, 1) => array_reverse(alloc, args)?,
        (Call::IndexOf, 2) => array_index_of(alloc, args)?,
        (Call::Keys, 1) => bag_keys(alloc, args)?,
        (Call::HasKey, 2) => bag_has_key(alloc, args)?,
        (Call::Merge, _) => bag_merge(alloc, args)?,
        (Call::PackArray, _) => pack_array(alloc, args)?,
        (Call::PackBag, _) => bag_pack(alloc, args)?,
        (Call::Union, 2) => set_union(alloc, args)?,
        (Call::Intersect, 2) => set_intersect(alloc, args)?,
        (Call::Difference, 2) => set_difference(alloc, args)?,
        (Call::HasElement, 2) => set_has_element(alloc, args)?,
        _ => return Ok(None),
    }))
}

#[test]
fn laws_hold() {
    slices_and_joins();
    keys_of_several_bags();
    elements_of_sets();
    order_of_sets();
}

// These, lent.
fn lent<'a>(alloc: Global, values: &'a [Dyn]) -> Result<Vec<&'a Dyn>, AllocError> {
    let mut args = Vec::with_capacity(alloc, values.len())?;
    for value in values {
        args.push(value)?;
    }
    Ok(args)
}

// Makes each of these calls, and compares its answer.
fn compare(
    rt: &impl Abort,
    alloc: Global,
    rows: &[(Call, &'static str, &'static str)],
) -> Result<(), Fail> {
    for (call, text, want) in rows {
        let Value::Dynamic(Dyn::Array(args)) = parse_json(alloc, text)? else {
            panic!(rt; "{text} is no array");
        };
        let args = lent(alloc, args.as_slice())?;
        let is_well_formed = are_well_formed(&args);
        assert!(rt; is_well_formed);
        let value = answer(alloc, *call, &args)?.ok_or("arguments")?;
        let got = shown(rt, alloc, value)?;
        assert_eq!(rt; got.as_str(), *want, "{call:?} of {text}");
    }
    Ok(())
}

#[test]
fn calls_on_arrays_answer(rt: HostRuntime) -> Result<(), Fail> {
    compare(&rt, rt.alloc(), &ARRAY_CALLS)
}

#[test]
fn calls_on_bags_answer(rt: HostRuntime) -> Result<(), Fail> {
    compare(&rt, rt.alloc(), &BAG_CALLS)
}

#[test]
fn calls_on_sets_answer(rt: HostRuntime) -> Result<(), Fail> {
    compare(&rt, rt.alloc(), &SET_CALLS)
}

// A text of that many bags, one in another.
fn nested_bags(alloc: Global, depth: usize) -> Result<String, AllocError> {
    let mut text = String::new(alloc);
    for _ in 0..depth {
        text.push_str(r#"{"k":"#)?;
    }
    text.push('0')?;
    for _ in 0..depth {
        text.push('}')?;
    }
    Ok(text)
}

#[test]
fn nesting_of_bags_has_a_limit(rt: HostRuntime) -> Result<(), Fail> {
    let alloc = rt.alloc();
    for (depth, is_bag) in [(1usize, true), (126, true), (127, true), (128, false)] {
        let d = dynamic(parse_json(alloc, nested_bags(alloc, depth)?.as_str())?);
        let is_well_formed = has_form(&d) && has_levels_within(&d, LEVELS_TOP);
        assert!(rt; is_well_formed);
        let want = if is_bag { depth as u32 } else { 0 };
        assert_eq!(rt; levels(&d), want);
        let key = Dyn::Text(KText::from_str(alloc, "k")?);
        let args = [&key, &d];
        let is_well_formed = are_well_formed(&args);
        assert!(rt; is_well_formed);
        let packed = shown(&rt, alloc, bag_pack(alloc, &args)?)?;
        assert_eq!(rt; packed.as_str() == "null", depth == 127);
    }
    Ok(())
}

// An array of 17 values, each null or false, as the bits of a number say.
fn bits(alloc: Global, number: u32) -> Result<Dyn, AllocError> {
    let mut parts = Items::new(alloc);
    for place in 0..17u32 {
        let is_set = (number >> place) & 1 == 1;
        parts.push(if is_set { Dyn::Null } else { Dyn::Bool(false) })?;
    }
    Ok(Dyn::Array(parts))
}

// The bits of the numbers from one to another, as one array.
fn bits_between(alloc: Global, from: u32, to: u32) -> Result<Dyn, AllocError> {
    let mut list = Items::new(alloc);
    for number in from..to {
        list.push(bits(alloc, number)?)?;
    }
    Ok(Dyn::Array(list))
}

// How many elements an array has.
fn count(value: Value) -> usize {
    match value {
        Value::Dynamic(Dyn::Array(parts)) => parts.len(),
        _ => 0,
    }
}

#[test]
fn long_sets_are_quick(rt: HostRuntime) -> Result<(), Fail> {
    let alloc = rt.alloc();
    let first = bits_between(alloc, 0, 12_000)?;
    let second = bits_between(alloc, 8_000, 20_000)?;
    let args = [&first, &second];
    let is_well_formed = are_well_formed(&args);
    assert!(rt; is_well_formed);
    let union = count(set_union(alloc, &args)?);
    let intersect = count(set_intersect(alloc, &args)?);
    let difference = count(set_difference(alloc, &args)?);
    assert_eq!(rt; [union, intersect, difference], [20_000, 4_000, 8_000]);
    Ok(())
}
