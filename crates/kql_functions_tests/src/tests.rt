use kql_cells::Kind;
use kql_functions::*;
use kql_lexer::Place;
use kql_texts::Fold;
use std::alloc::{AllocError, Global};
use std::test::Fail;

// The names in the order of the tables.
const FUNCTION_NAMES: &str =
    "abs sign bin floor bin_at binary_and binary_or binary_xor binary_not not isnull isnotnull isempty isnotempty iff case coalesce min_of max_of tolong tostring tobool todatetime totimespan strlen substring indexof toupper tolower reverse strcat strcat_delim replace_string split strcmp now ago startofday startofweek startofmonth startofyear endofday endofweek endofmonth endofyear dayofweek dayofmonth dayofyear getyear getmonth monthofyear hourofday datetime_add datetime_diff datetime_part make_datetime unixtime_seconds_todatetime unixtime_milliseconds_todatetime parse_json todynamic array_length array_concat array_slice array_reverse array_index_of bag_keys bag_has_key bag_merge pack_array bag_pack set_union set_intersect set_difference set_has_element";

const OPERATOR_NAMES: &str =
    "+ - * / % neg == != < <= > >= =~ !~ in !in in~ !in~ between !between contains !contains contains_cs !contains_cs startswith !startswith startswith_cs !startswith_cs endswith !endswith endswith_cs !endswith_cs has !has has_cs !has_cs and or at";

const AGGREGATE_NAMES: &str =
    "count countif count_distinct count_distinctif sum sumif min minif max maxif make_list make_list_if make_set make_set_if arg_max arg_min take_any binary_all_and binary_all_or binary_all_xor ";

// What a name is.
const FOUND: &str =
    "scalar ago todynamic now floor not strcat_delim unixtime_milliseconds_todatetime bag_pack
window prev next row_cumsum row_number
refused avg avgif dcount dcountif percentile percentiles stdev stdevif variance varianceif hll tdigest sqrt pow
refused exp log log10 round toreal todouble todecimal toint toguid rand series_stats
aggregate count countif count_distinct count_distinctif sum sumif min max minif maxif make_list make_list_if
aggregate make_set make_set_if arg_max arg_min take_any binary_all_and binary_all_or binary_all_xor
pattern extract
unknown extract_all matches_regex regex count_if make_listif dcounts matches at and or neg has in between contains + == iif Abs abs_ row_rank avg_";

// Where each search looks (anywhere, at the start, at the end, for a term), whether case counts (`i` that it does not),
// and whether it is turned round (`-`).
const SEARCHES: &str = "contains Ai+
!contains Ai-
contains_cs Ac+
!contains_cs Ac-
startswith Si+
!startswith Si-
startswith_cs Sc+
!startswith_cs Sc-
endswith Ei+
!endswith Ei-
endswith_cs Ec+
!endswith_cs Ec-
has Ti+
!has Ti-
has_cs Tc+
!has_cs Tc-";

// How many of the 259 lists of at most three types each function takes.
const COUNTS: &str =
    "1 sign binary_and binary_or binary_xor binary_not not strlen indexof toupper tolower reverse replace_string
1 split strcmp ago startofday startofweek startofmonth startofyear endofday endofweek endofmonth endofyear
1 dayofweek dayofmonth dayofyear getyear getmonth monthofyear hourofday datetime_add datetime_diff datetime_part
1 make_datetime unixtime_seconds_todatetime unixtime_milliseconds_todatetime array_length array_slice
1 array_reverse bag_keys bag_has_key set_union set_intersect set_difference % =~ !~ contains !contains
1 contains_cs !contains_cs startswith !startswith startswith_cs !startswith_cs endswith !endswith endswith_cs
1 !endswith_cs has !has has_cs !has_cs
2 abs substring now parse_json todynamic bag_merge neg and or at
3 bin floor bin_at todatetime totimespan array_concat * / < <= > >=
4 tobool + - between !between
5 == !=
6 isnull isnotnull isempty isnotempty iff case min_of max_of tolong tostring array_index_of bag_pack
6 set_has_element in~ !in~
12 coalesce
30 in !in
42 strcat_delim
258 strcat pack_array";

// What a function gives for some lists of types, `-` for none: B is bool, L long, T string, M datetime, S timespan and D
// dynamic.
const RESULTS: &str = "+ LL:L SS:S MS:M SM:M MM:- LS:- TT:- LLL:-
- LL:L SS:S MS:M MM:S SM:-
* LL:L SL:S LS:S SS:-
/ LL:L SL:S SS:L LS:-
% LL:L SS:-
neg L:L S:S M:-
abs L:L S:S M:-
sign L:L S:-
bin LL:L MS:M SS:S LS:- SL:- ML:-
floor LL:L MS:M SS:S MM:-
bin_at LLL:L MSM:M SSS:S MSS:-
binary_and LL:L
binary_or LL:L
binary_xor LL:L
binary_not L:L
== BB:B LL:B TT:B MM:B SS:B DD:- DL:- LD:-
!= BB:B LL:B TT:B MM:B SS:B DD:-
< LL:B MM:B SS:B TT:- BB:-
<= LL:B MM:B SS:B TT:-
> LL:B MM:B SS:B TT:-
>= LL:B MM:B SS:B TT:-
=~ TT:B TD:-
!~ TT:B
in LL:B LLLL:B TTT:B LD:B MMDM:B BDD:B L:- LLT:- LDT:- DDD:- DLL:-
!in MM:B SSS:B BB:B SDS:B DL:-
in~ TT:B TTTT:B TD:B TDTD:B LL:- LD:- DT:- T:- TL:-
!in~ TTT:B TTD:B
between LLL:B MMM:B SSS:B MMS:B TTT:- SMM:-
!between LLL:B MMM:B SSS:B MMS:B
contains TT:B TD:-
!contains TT:B LL:-
contains_cs TT:B
!contains_cs TT:B
startswith TT:B
!startswith TT:B TL:-
startswith_cs TT:B
!startswith_cs TT:B
endswith TT:B LT:-
!endswith TT:B
endswith_cs TT:B
!endswith_cs TT:B
has TT:B LL:-
!has TT:B
has_cs TT:B
!has_cs TT:B DT:-
and BB:B BBB:B B:- BL:-
or BB:B BBBB:B
not B:B
isnull B:B L:B T:B M:B S:B D:B LL:-
isnotnull T:B
isempty D:B
isnotempty L:B
iff BLL:L BTT:T BDD:D BLT:- LLL:-
case BTT:T BTBTT:T BTBT:- BTBTL:- TTT:- BT:-
coalesce LL:L TTT:T DD:D L:- LT:-
min_of LL:L MM:M SSS:S TT:- L:-
max_of LLL:L MM:M SS:S BB:-
tolong B:L L:L T:L M:L S:L D:L
tostring B:T L:T T:T M:T S:T D:T
tobool B:B L:B T:B D:B M:- S:-
todatetime M:M T:M D:M L:- S:-
totimespan S:S T:S D:S L:- M:-
strlen T:L D:-
substring TL:T TLL:T T:- TT:-
indexof TT:L
toupper T:T
tolower T:T
reverse T:T
strcat T:T TLM:T LLDB:T :-
strcat_delim TL:T TTMD:T T:- LT:-
replace_string TTT:T
split TT:D
strcmp TT:L
now :M S:M M:-
ago S:M :-
startofday M:M
startofweek M:M L:-
startofmonth M:M
startofyear M:M
endofday M:M ML:-
endofweek M:M
endofmonth M:M
endofyear M:M
dayofweek M:S
dayofmonth M:L
dayofyear M:L S:-
getyear M:L
getmonth M:L T:-
monthofyear M:L
hourofday M:L
datetime_add TLM:M TLL:-
datetime_diff TMM:L
datetime_part TM:L
make_datetime LLL:M LLLLL:M LLLL:- LL:-
unixtime_seconds_todatetime L:M
unixtime_milliseconds_todatetime L:M
parse_json T:D D:D L:-
todynamic T:D D:D
at DT:D DL:D DD:- TL:-
array_length D:L
array_concat D:D DDDD:D DL:-
array_slice DLL:D DL:-
array_reverse D:D
array_index_of DM:L DD:L LD:-
bag_keys D:D
bag_has_key DT:B DL:-
bag_merge DD:D DDD:D D:-
pack_array L:D TMD:D :-
bag_pack TL:D TLTD:D TLT:- LT:- :-
set_union DD:D
set_intersect DD:D
set_difference DD:D
set_has_element DT:B DD:B";

const TYPES: [Kind; 6] = [
    Kind::Bool,
    Kind::Long,
    Kind::Text,
    Kind::Moment,
    Kind::Span,
    Kind::Dynamic,
];

fn joined(alloc: Global, functions: &[Func]) -> Result<String, AllocError> {
    let mut names = String::new(alloc);
    for f in functions {
        if !names.is_empty() {
            names.push_str(" ")?;
        }
        names.push_str(f.name())?;
    }
    Ok(names)
}

fn named(functions: &[Func], name: &str) -> Option<Func> {
    for f in functions {
        if f.name() == name {
            return Some(*f);
        }
    }
    None
}

fn func_named(name: &str) -> Option<Func> {
    match named(functions(), name) {
        Some(f) => Some(f),
        None => named(operators(), name),
    }
}

fn window_names(alloc: Global) -> Result<String, AllocError> {
    let mut names = String::new(alloc);
    for w in windows() {
        names.push_str(w.name())?;
        names.push_str(" ")?;
    }
    Ok(names)
}

fn aggregate_names(alloc: Global) -> Result<String, AllocError> {
    let mut names = String::new(alloc);
    for a in aggregates() {
        names.push_str(a.name())?;
        names.push_str(" ")?;
    }
    Ok(names)
}

#[test]
fn names_over_rows(rt: HostRuntime) -> Result<(), Fail> {
    assert_eq!(rt;
        window_names(rt.alloc())?.as_str(),
        "prev next row_cumsum row_number "
    );
    assert_eq!(rt; aggregate_names(rt.alloc())?.as_str(), AGGREGATE_NAMES);
    Ok(())
}

#[test]
fn names(rt: HostRuntime) -> Result<(), Fail> {
    assert_eq!(rt; joined(rt.alloc(), functions())?.as_str(), FUNCTION_NAMES);
    assert_eq!(rt; joined(rt.alloc(), operators())?.as_str(), OPERATOR_NAMES);
    Ok(())
}

fn word_of(found: Found) -> &'static str {
    match found {
        Found::Scalar(_) => "scalar",
        Found::Window(_) => "window",
        Found::Aggregate(_) => "aggregate",
        Found::Pattern => "pattern",
        Found::Refused => "refused",
        Found::Unknown => "unknown",
    }
}

// Whether each name of a line is what the line says.
fn are_found(line: &str) -> bool {
    let Some((word, names)) = line.split_once(" ") else {
        return false;
    };
    for name in names.split(" ") {
        if word_of(find(name)) != word {
            return false;
        }
    }
    true
}

#[test]
fn found(rt: HostRuntime) -> Result<(), Fail> {
    for line in FOUND.split("\n") {
        assert!(rt; are_found(line), "{line}");
    }
    assert_eq!(rt; find(""), Found::Unknown);
    assert_eq!(rt; find("row_cumsum"), Found::Window(Window::RowCumsum));
    assert_eq!(rt;
        find("make_list_if"),
        Found::Aggregate(Aggregate::MakeListIf)
    );
    assert_eq!(rt; find("ago"), Found::Scalar(Func::Time(TimeFunc::Ago)));
    Ok(())
}

fn place_of(letter: u8) -> Option<SearchPlace> {
    match letter {
        b'A' => Some(SearchPlace::Anywhere),
        b'S' => Some(SearchPlace::Start),
        b'E' => Some(SearchPlace::End),
        b'T' => Some(SearchPlace::Term),
        _ => None,
    }
}

// Whether a line names its search.
fn is_named(line: &str) -> bool {
    let Some((name, letters)) = line.split_once(" ") else {
        return false;
    };
    let [place, fold, sign] = letters.as_bytes() else {
        return false;
    };
    let Some(place) = place_of(*place) else {
        return false;
    };
    let fold = if *fold == b'i' {
        Fold::Caseless
    } else {
        Fold::Exact
    };
    let negated = *sign == b'-';
    Func::Search(SearchFunc {
        place,
        fold,
        negated,
    })
    .name()
        == name
}

#[test]
fn searches(rt: HostRuntime) -> Result<(), Fail> {
    for line in SEARCHES.split("\n") {
        assert!(rt; is_named(line), "{line}");
    }
    Ok(())
}

fn counted(count: u64, f: Func, kinds: &[Kind]) -> u64 {
    match result_kind(f, kinds) {
        Some(_) => count.saturating_add(1),
        None => count,
    }
}

// How many lists of at most three types a function takes.
fn taken(f: Func) -> u64 {
    let mut count = counted(0, f, &[]);
    for a in TYPES {
        count = counted(count, f, &[a]);
        for b in TYPES {
            count = counted(count, f, &[a, b]);
            for c in TYPES {
                count = counted(count, f, &[a, b, c]);
            }
        }
    }
    count
}

// The count of the line that has a name.
fn count_of(name: &str) -> Option<u64> {
    for line in COUNTS.split("\n") {
        let Some((count, names)) = line.split_once(" ") else {
            return None;
        };
        for other in names.split(" ") {
            if other == name {
                return count.parse::<u64>().ok();
            }
        }
    }
    None
}

// The functions that take another number of lists.
fn miscounted(alloc: Global, functions: &[Func]) -> Result<String, AllocError> {
    let mut wrong = String::new(alloc);
    for f in functions {
        if count_of(f.name()) != Some(taken(*f)) {
            wrong.push_str(f.name())?;
            wrong.push_str(" ")?;
        }
    }
    Ok(wrong)
}

#[test]
fn counts(rt: HostRuntime) -> Result<(), Fail> {
    assert_eq!(rt; miscounted(rt.alloc(), functions())?.as_str(), "");
    assert_eq!(rt; miscounted(rt.alloc(), operators())?.as_str(), "");
    Ok(())
}

// A call of a pattern that asks for this group.
fn pattern(group: Option<u32>) -> Func {
    let place = Place {
        line: 1,
        column: 1,
        byte: 0,
    };
    Func::Pattern(PatternFunc {
        group,
        word: place,
        literal: place,
    })
}

#[test]
fn patterns(rt: HostRuntime) {
    let texts = [Kind::Text, Kind::Text];
    assert_eq!(rt; pattern(None).name(), "matches regex");
    assert_eq!(rt; pattern(Some(0)).name(), "extract");
    assert_eq!(rt; result_kind(pattern(None), &texts), Some(Kind::Bool));
    assert_eq!(rt; result_kind(pattern(Some(0)), &texts), Some(Kind::Text));
    assert_eq!(rt; taken(pattern(None)), 1);
    assert_eq!(rt; taken(pattern(Some(9))), 1);
}

fn kind_of(letter: u8) -> Option<Kind> {
    match letter {
        b'B' => Some(Kind::Bool),
        b'L' => Some(Kind::Long),
        b'T' => Some(Kind::Text),
        b'M' => Some(Kind::Moment),
        b'S' => Some(Kind::Span),
        b'D' => Some(Kind::Dynamic),
        _ => None,
    }
}

// What the types of some letters give; the outer `None` for a letter of no type.
fn given(alloc: Global, f: Func, letters: &str) -> Result<Option<Option<Kind>>, AllocError> {
    let mut kinds = Vec::new(alloc);
    for letter in letters.as_bytes() {
        match kind_of(*letter) {
            Some(kind) => kinds.push(kind)?,
            None => return Ok(None),
        }
    }
    Ok(Some(result_kind(f, &kinds)))
}

fn gives(alloc: Global, f: Func, cell: &str) -> Result<bool, AllocError> {
    let Some((letters, wanted)) = cell.split_once(":") else {
        return Ok(false);
    };
    let [letter] = wanted.as_bytes() else {
        return Ok(false);
    };
    let wanted = kind_of(*letter);
    if wanted.is_none() && *letter != b'-' {
        return Ok(false);
    }
    Ok(given(alloc, f, letters)? == Some(wanted))
}

// Whether each cell of a line holds.
fn line_holds(alloc: Global, line: &str) -> Result<bool, AllocError> {
    let Some((name, cells)) = line.split_once(" ") else {
        return Ok(false);
    };
    let Some(f) = func_named(name) else {
        return Ok(false);
    };
    for cell in cells.split(" ") {
        if !gives(alloc, f, cell)? {
            return Ok(false);
        }
    }
    Ok(true)
}

#[test]
fn results(rt: HostRuntime) -> Result<(), Fail> {
    for line in RESULTS.split("\n") {
        assert!(rt; line_holds(rt.alloc(), line)?, "{line}");
    }
    Ok(())
}
