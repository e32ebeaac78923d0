//! Rows of the language's tables: a function or operator, its arguments, and what it gives. `@5` is a datetime and `~5` a
//! timespan, in ticks; `'a` is a text; an array, a bag and what follows `=` is JSON.

pub(crate) const ARITHMETIC: &str = r#"+ | 2; 3 | 5
+ | 9223372036854775807; 1 | null
+ | -9223372036854775808; -1 | null
+ | 1; null | null
+ | ~3; ~4 | ~7
+ | @5; ~2 | @7
+ | ~2; @5 | @7
+ | @3155378975999999999; ~1 | null
+ | @0; ~-1 | null
- | 2; 3 | -1
- | -9223372036854775808; 1 | null
- | @9; @5 | ~4
- | @5; @9 | ~-4
- | @9; ~5 | @4
- | @4; ~5 | null
- | ~4; ~5 | ~-1
* | -6; 7 | -42
* | 9223372036854775807; 2 | null
* | -9223372036854775808; -1 | null
* | ~6; 7 | ~42
* | 7; ~6 | ~42
/ | 1; 0 | null
/ | -7; 2 | -3
/ | 7; -2 | -3
/ | -9223372036854775808; -1 | null
/ | ~-7; 2 | ~-3
/ | ~7; ~2 | 3
/ | ~7; ~0 | null
% | -14; 12 | 10
% | 14; -12 | 2
% | -14; -12 | 10
% | -9223372036854775808; -1 | 0
% | 5; 0 | null
% | null; 2 | null
neg | 5 | -5
neg | -9223372036854775808 | null
neg | ~5 | ~-5
abs | -5 | 5
abs | -9223372036854775808 | null
abs | ~-5 | ~5
sign | -5 | -1
sign | 0 | 0
sign | 9 | 1
sign | null | null
bin | -1; 5 | -5
bin | 9; 0 | null
floor | 14; 5 | 10
bin | ~-1; ~5 | ~-5
bin | @14; ~5 | @10
bin | -9223372036854775808; 3 | null
bin_at | 14; 5; 3 | 13
bin_at | @2; ~5; @4 | null
bin_at | @12; ~5; @4 | @9
bin_at | ~12; ~5; ~4 | ~9
binary_and | 12; 10 | 8
binary_or | 12; 10 | 14
binary_xor | 12; 10 | 6
binary_not | 0 | -1
binary_and | -1; 10 | 10
+ | @5; null | null
+ | -1; -9223372036854775808 | null
+ | ~9223372036854775807; ~1 | null
- | 5; null | null
- | ~-9223372036854775808; ~1 | null
- | @0; @3155378975999999999 | ~-3155378975999999999
* | null; 2 | null
* | ~4611686018427387904; 2 | null
/ | 6; null | null
/ | null; 2 | null
/ | -9223372036854775808; 1 | -9223372036854775808
/ | ~-9223372036854775808; ~-1 | null
/ | ~-9; ~2 | -4
/ | ~5; 0 | null
% | 5; null | null
% | 0; 7 | 0
% | 12; -12 | 0
% | -9223372036854775808; 9223372036854775807 | 9223372036854775806
% | 9223372036854775807; -9223372036854775808 | 9223372036854775807
% | -1; -9223372036854775808 | 9223372036854775807
neg | null | null
neg | ~-9223372036854775808 | null
neg | 9223372036854775807 | -9223372036854775807
abs | null | null
abs | 9223372036854775807 | 9223372036854775807
abs | ~-9223372036854775808 | null
sign | -9223372036854775808 | -1
bin | null; 5 | null
bin | 5; null | null
bin | 9; -5 | null
bin | 10; 5 | 10
bin | @4; ~5 | @0
bin | 9223372036854775807; 9223372036854775807 | 9223372036854775807
floor | -1; 9223372036854775807 | -9223372036854775807
floor | ~7; ~0 | null
floor | null; 5 | null
bin_at | null; 5; 1 | null
bin_at | 5; null; 1 | null
bin_at | 5; 5; null | null
bin_at | 5; 0; 1 | null
bin_at | -9223372036854775808; 10; 0 | null
bin_at | 3; 5; 3 | 3
bin_at | 2; 5; 3 | -2
binary_and | null; 1 | null
binary_or | 1; null | null
binary_xor | null; null | null
binary_xor | -1; -1 | 0
binary_or | -9223372036854775808; 9223372036854775807 | -1
binary_not | null | null
binary_not | -9223372036854775808 | 9223372036854775807
+ | null; 1 | null
- | null; ~1 | null
* | 2; null | null
+ | @638448480000000000; ~36000000000 | @638448516000000000
- | @638448480000000000; ~864000000000 | @638447616000000000
floor | 5; null | null
binary_and | 1; null | null
binary_or | null; 1 | null
* | ~-9223372036854775808; -1 | null
* | -1; ~-9223372036854775808 | null
/ | ~-9223372036854775808; -1 | null
bin | @14; ~0 | null
bin | @14; ~-5 | null
bin | ~9; ~-5 | null
floor | @14; ~0 | null
floor | @14; ~-5 | null
bin_at | @12; ~0; @4 | null
bin_at | @12; ~-5; @4 | null"#;

pub(crate) const COMPARISON: &str = r#"== | 1; 1 | true
== | null; null | null
== | null; 1 | false
!= | null; 1 | true
!= | null; null | null
== | 'a; 'A | false
== | true; false | false
== | false; false | true
== | @1; @1 | true
!= | ~1; ~2 | true
< | 1; 2 | true
< | 2; 2 | false
<= | 2; 2 | true
> | @3; @2 | true
>= | ~-1; ~2 | false
< | null; 2 | null
=~ | 'Straße; 'STRASSE | true
!~ | 'ab; 'AB | false
in | 2; 1; 2 | true
in | null; null; 2 | false
!in | 3; 1; 2 | true
in | 'a; 'A; 'b | false
in~ | 'a; 'A; 'b | true
!in~ | 'a; 'A; 'b | false
in | 2; [1,2] | true
in | 2; [1,"2"] | true
in | 3; [1,"2"] | false
!in | 3; [1,"2"] | true
in | 5; 6; [7,5] | true
in | 5; [6]; [7,5] | true
in | 5; =5 | true
in | 5; ="5" | true
in | 5; [] | false
!in | 5; [] | true
in | 5; [null] | false
in | 1; [true] | true
in | 2; [[2]] | false
in | null; [null,1] | false
!in | null; [null,1] | true
in | true; ["no",false,1] | true
in | false; ["no",true,0] | true
in | false; ["no",true,null] | false
in | 'a; ["b","a"] | true
in | 'A; ["b","a"] | false
in | '["a"]; ["a"] | false
in | '2; [2] | true
in | 'true; [true] | true
in | '[1]; [[1]] | true
in | '{"k":[1]}; [{"k":[1]}] | true
in | '{"k":1}; {"k":1} | true
in | 'k; {"k":1} | false
in | 'a; ="a" | true
in | '; [null] | true
in | '; null | true
in | '; [] | false
in | 'null; [null] | false
in~ | 'A; ["b","a"] | true
!in~ | 'A; ["b","a"] | false
in~ | 'STRASSE; 'x; ["Straße"] | true
in~ | 'TRUE; [true] | true
!in~ | 'a; [] | true
in | @0; ["0001-01-01"] | true
in | @864000000000; ["x",1,"0001-01-02"] | true
in | @5; [5] | false
in | ~36000000000; ["1h"] | true
in | ~36000000000; ["01:00"] | false
!in | ~-1; [-1,"-1tick"] | false
between | 5; 5; 5 | true
between | 4; 5; 9 | false
between | @12; @10; ~2 | true
between | @13; @10; ~2 | false
between | 4; 5; null | false
between | 6; 5; null | null
!between | 4; 5; 9 | true
between | ~6; ~5; ~7 | true
and | false; null | false
and | true; null | null
and | true; true; true | true
and | null; true; false | false
or | true; null | true
or | false; null | null
or | null; false; true | true
not | true | false
not | null | null
contains | 'xABy; 'ab | true
contains_cs | 'abc; 'B | false
!contains_cs | 'abc; 'B | true
startswith | 'Abc; 'aB | true
endswith_cs | 'abc; 'bc | true
!endswith | 'abc; 'BC | false
has | 'Error-42; 'error | true
has | 'Error42; 'error | false
has_cs | 'a bc; 'bc | true
!startswith_cs | 'abc; 'b | true
== | 'é; 'é | true
== | null; 'a | false
!= | 1; 1 | false
!= | true; false | true
== | ~-1; ~-1 | true
<= | null; 2 | null
<= | 3; 2 | false
> | 1; null | null
> | 2; 2 | false
>= | null; null | null
>= | @2; @2 | true
< | ~-1; ~0 | true
< | -9223372036854775808; 9223372036854775807 | true
=~ | '; ' | true
=~ | 'a; 'b | false
!~ | 'a; 'b | true
in | @1; @2; @1 | true
in | true; false | false
in | '; 'a; ' | true
in | 1; 2; null | false
!in | null; null | true
!in | 2; 1; 2 | false
in~ | 'c; 'A; 'b | false
!in~ | 'c; 'A; 'b | true
between | null; 1; 2 | null
between | 5; null; 4 | false
between | 5; null; 6 | null
between | 1; 2; 0 | false
between | ~5; ~5; ~5 | true
between | @9; @1; @9 | true
between | @3155378975999999999; @3155378975999999999; ~1 | null
between | @5; @3155378975999999999; ~1 | false
between | @5; @10; ~-5 | false
!between | 5; null; 6 | null
!between | 4; 5; null | true
!between | @13; @10; ~2 | true
and | null; null | null
and | true; false; true | false
and | true; true; null | null
or | null; null | null
or | false; false | false
or | false; true; false | true
or | false; false; null | null
not | false | true
contains | 'abc; ' | true
contains | 'abc; 'd | false
!contains | 'xABy; 'ab | false
!contains | 'xABy; 'ba | true
contains_cs | 'abc; 'bc | true
startswith | 'abc; 'b | false
startswith | '; ' | true
!startswith | 'Abc; 'aB | false
!startswith | 'abc; 'b | true
startswith_cs | 'Abc; 'aB | false
startswith_cs | 'Abc; 'Ab | true
!startswith_cs | 'abc; 'ab | false
endswith | 'abC; 'Bc | true
endswith | 'abc; 'abcd | false
!endswith | 'abc; 'a | true
endswith_cs | 'abc; 'BC | false
!endswith_cs | 'abc; 'BC | true
!endswith_cs | 'abc; 'bc | false
has | 'abc; ' | true
has | 'a_b; 'b | true
has | 'ab1; 'b1 | false
!has | 'Error-42; 'error | false
!has | 'Error42; 'error | true
has_cs | 'Error-42; 'error | false
has_cs | 'xbc bc; 'bc | true
!has_cs | 'Error-42; 'error | true
!has_cs | 'a bc; 'bc | false
< | 2; null | null
<= | 3; null | null
> | null; 1 | null
>= | 3; 2 | true
!in | 1; 2; null | true
!between | null; 1; 2 | null
between | @5; @1; null | null
between | @5; @9; null | false
between | @5; null; @9 | null
between | @5; null; @4 | false
between | @5; null; ~3 | null
between | null; @1; ~2 | null
between | ~6; null; ~5 | false
between | ~6; ~5; null | null
!between | @5; @1; null | null
!between | @5; @9; null | true
!between | @5; null; ~3 | null
in~ | 'straße; 'x; 'STRASSE | true
!in~ | 'straße; 'x; 'STRASSE | false
in | 'straße; 'x; 'STRASSE | false
contains | 'ÉCOLE; 'école | true
!contains | 'ÉCOLE; 'école | false
contains_cs | 'ÉCOLE; 'école | false"#;

pub(crate) const CHOICE: &str = r#"isnull | null | true
isnull | ' | false
isnotnull | 0 | true
isempty | ' | true
isempty | null | true
isnotempty | 'a | true
isempty | 0 | false
iff | true; 1; 2 | 1
iff | null; 1; 2 | 2
iff | false; 'a; 'b | 'b
case | false; 1; true; 2; 3 | 2
case | false; 1; null; 2; 3 | 3
coalesce | null; 2; 3 | 2
coalesce | '; 'b | 'b
coalesce | '; ' | '
coalesce | null; null | null
min_of | 3; null; 2 | 2
max_of | @3; null; @2 | @3
min_of | null; null | null
max_of | ~-3; ~-2 | ~-2
tolong | '-7 | -7
tolong | '+7 | null
tolong | '9223372036854775808 | null
tolong | '-9223372036854775808 | -9223372036854775808
tolong | ' | null
tolong | true | 1
tolong | @77 | 77
tolong | ~-3 | -3
tolong | '1.5 | null
tostring | null | '
tostring | true | 'true
tostring | -42 | '-42
tostring | ~15000000 | '00:00:01.5000000
tostring | @0 | '0001-01-01T00:00:00.0000000Z
tostring | 'ab | 'ab
tobool | 'TRUE | true
tobool | 'yes | null
tobool | 0 | false
tobool | -2 | true
tobool | 'false | false
todatetime | '0001-01-02 | @864000000000
todatetime | '2024-13-01 | null
todatetime | @5 | @5
totimespan | '1d | ~864000000000
totimespan | '1 | null
totimespan | ~5 | ~5
strlen | 'héllo | 5
substring | 'héllo; 1; 3 | 'éll
substring | '123456; -2; 2 | '56
substring | 'abc; 1 | 'bc
substring | 'abc; -9 | 'abc
substring | 'abc; null | '
substring | 'abc; 0; null | '
substring | 'abc; 0; -1 | '
indexof | 'abc; 'z | -1
indexof | 'héllo; 'l | 2
toupper | 'aé1 | 'Aé1
tolower | 'AÉ1 | 'aÉ1
reverse | 'héy | 'yéh
strcat | 'a; 1; null; true | 'a1true
strcat_delim | '-; 'a; null; 2 | 'a--2
replace_string | 'aaa; 'aa; 'b | 'ba
replace_string | 'abc; '; 'x | 'abc
strcmp | 'a; 'b | -1
strcmp | 'b; 'a | 1
strcmp | 'a; 'a | 0
isnull | 5 | false
isnotnull | null | false
isnotnull | ' | true
isempty | 'a | false
isnotempty | ' | false
isnotempty | null | false
isnotempty | @0 | true
iff | true; null; 2 | null
iff | false; 1; null | null
iff | true; 'a; 'b | 'a
iff | false; [1]; {"a":1} | {"a":1}
case | true; null; 5 | null
case | false; 1; null | null
case | true; 'a; true; 'b; 'c | 'a
case | false; @1; @2 | @2
coalesce | null; null; null | null
coalesce | '; '; 'c | 'c
coalesce | 'a; 'b | 'a
coalesce | 0; 1 | 0
coalesce | false; true | false
min_of | 3; 3 | 3
min_of | -9223372036854775808; 9223372036854775807 | -9223372036854775808
min_of | ~3; ~-2; null | ~-2
max_of | null; null; null | null
max_of | 1; 5; 3 | 5
min_of | @2; @1; @3 | @1
tolong | null | null
tolong | false | 0
tolong | 5 | 5
tolong | '- | null
tolong | '007 | 7
tolong | '-0 | 0
tolong | '12  | null
tolong | '-9223372036854775809 | null
tolong | @0 | 0
tostring | false | 'false
tostring | 0 | '0
tostring | -9223372036854775808 | '-9223372036854775808
tostring | ' | '
tostring | ~-864000000001 | '-1.00:00:00.0000001
tostring | ~0 | '00:00:00
tostring | @3155378975999999999 | '9999-12-31T23:59:59.9999999Z
tobool | null | null
tobool | true | true
tobool | ' | null
tobool | 'False | false
tobool | '1 | null
tobool | 9223372036854775807 | true
todatetime | null | null
todatetime | ' | null
todatetime | '2024-03-01T10:01:00Z | @638448840600000000
todatetime | '2024-03-01 10:01 | @638448840600000000
todatetime | '2023-02-29 | null
todatetime | '9999-12-31 23:59:59.9999999 | @3155378975999999999
totimespan | null | null
totimespan | ' | null
totimespan | '-1.5h | ~-54000000000
totimespan | '00:00:01.5 | ~15000000
totimespan | '1.24:00:00 | null
totimespan | '1tick | ~1
strlen | ' | 0
substring | 'abc; 3 | '
substring | 'abc; 5 | '
substring | 'abc; 9223372036854775807 | '
substring | 'abc; -9223372036854775808 | 'abc
substring | 'abc; 1; 9223372036854775807 | 'bc
substring | 'abc; 1; 0 | '
substring | 'abc; -2; 1 | 'b
substring | 'abc; 0; -9223372036854775808 | '
substring | '; 0 | '
indexof | 'abc; ' | 0
indexof | 'a; 'abc | -1
indexof | 'aXbXc; 'X | 1
toupper | ' | '
toupper | 'azZ | 'AZZ
tolower | 'AZz | 'azz
reverse | ' | '
reverse | 'abc | 'cba
strcat | null | '
strcat | 'a | 'a
strcat | =[1,2]; 'y | '[1,2]y
strcat | ="x"; ~0; false | 'x00:00:00false
strcat_delim | '; 'a; 'b | 'ab
strcat_delim | '-; 'a | 'a
strcat_delim | '-; null; null | '-
replace_string | 'abab; 'ab; ' | '
replace_string | 'aaaa; 'aa; 'a | 'aa
replace_string | 'abc; 'x; 'y | 'abc
replace_string | '; 'a; 'b | '
strcmp | '; 'a | -1
strcmp | 'Z; 'a | -1
strcmp | 'é; 'z | 1
strcmp | 'ab; 'a | 1
case | null; 1; 2 | 2
case | false; 1; true; null; 3 | null
case | false; 1; false; 2; null | null
strlen | null | null
substring | null; 0 | null
substring | null; 0; 1 | null
indexof | null; 'a | null
indexof | 'a; null | null
toupper | null | null
tolower | null | null
reverse | null | null
strcat_delim | null; 'a; 'b | 'ab
replace_string | null; 'a; 'b | null
replace_string | 'a; null; 'b | null
replace_string | 'a; 'a; null | null
strcmp | null; 'a | null
strcmp | 'a; null | null
tobool | 'falſe | null
tobool | 'ＴＲＵＥ | null
tobool | 'trué | null"#;

pub(crate) const TIME: &str = r#"startofweek | @638448480000000000 | @638444160000000000
startofday | @638448663600000000 | @638448480000000000
startofmonth | @638447616000000000 | @638423424000000000
startofyear | @638447616000000000 | @638396640000000000
startofweek | @0 | null
startofday | null | null
endofday | @638448663600000000 | @638449343999999999
endofweek | @638448480000000000 | @638450207999999999
endofmonth | @638425152000000000 | @638448479999999999
endofyear | @638425152000000000 | @638712863999999999
dayofweek | @638448480000000000 | ~4320000000000
dayofmonth | @638474400000000000 | 31
dayofyear | @638448480000000000 | 61
getyear | @638448480000000000 | 2024
getmonth | @638448480000000000 | 3
monthofyear | @638686080000000000 | 12
hourofday | @638449308000000000 | 23
datetime_add | 'month; 1; @638422560000000000 | @638447616000000000
datetime_add | 'year; -1; @638447616000000000 | @638131392000000000
datetime_add | 'week; 1; @638422560000000000 | @638428608000000000
datetime_add | 'microsecond; 1; @3155378975999999999 | null
datetime_add | 'dayofyear; 1; @5 | null
datetime_add | 'quarter; 1; @638422560000000000 | @638500320000000000
datetime_diff | 'month; @638448480000000000; @638422560000000000 | 2
datetime_diff | 'day; @638448480000000000; @638449344000000000 | -1
datetime_diff | 'hour; @638448552000000000; @638448515400000000 | 2
datetime_diff | 'year; @638396640000000000; @638395776000000000 | 1
datetime_part | 'quarter; @638501184000000000 | 2
datetime_part | 'dayofyear; @638448480000000000 | 61
datetime_part | 'millisecond; @638448480011234567 | 123
datetime_part | 'week; @5 | null
make_datetime | 2024; 2; 29 | @638447616000000000
make_datetime | 2023; 2; 29 | null
make_datetime | 2024; 2; 29; 23; 59 | @638448479400000000
make_datetime | 2024; 2; 29; 24; 0 | null
unixtime_seconds_todatetime | 0 | @621355968000000000
unixtime_seconds_todatetime | 1 | @621355968010000000
unixtime_milliseconds_todatetime | -1 | @621355967999990000
unixtime_seconds_todatetime | 9223372036854775807 | null
now |  | null
datetime_part | 'year; @638712863987654321 | 2024
datetime_part | 'quarter; @638712863987654321 | 4
datetime_part | 'month; @638712863987654321 | 12
datetime_part | 'day; @638712863987654321 | 31
datetime_part | 'dayofyear; @638712863987654321 | 366
datetime_part | 'hour; @638712863987654321 | 23
datetime_part | 'minute; @638712863987654321 | 59
datetime_part | 'second; @638712863987654321 | 58
datetime_part | 'millisecond; @638712863987654321 | 765
datetime_part | 'microsecond; @638712863987654321 | null
datetime_part | 'Year; @638712863987654321 | null
datetime_part | 'year; null | null
datetime_add | 'year; 1; @638447616000000000 | @638762976000000000
datetime_add | 'year; -2023; @638422932301234567 | @26292301234567
datetime_add | 'year; -2024; @638422932301234567 | null
datetime_add | 'year; 7976; @638422932301234567 | null
datetime_add | 'quarter; 1; @638685216000000000 | @638762976000000000
datetime_add | 'quarter; -1; @638527104000000000 | @638447616000000000
datetime_add | 'month; -1; @638474400000000000 | @638447616000000000
datetime_add | 'month; 13; @638422932301234567 | @638763348301234567
datetime_add | 'week; -2; @638448480000000000 | @638436384000000000
datetime_add | 'day; 30; @638422932301234567 | @638448852301234567
datetime_add | 'hour; 14; @638422932301234567 | @638423436301234567
datetime_add | 'minute; -21; @638422932301234567 | @638422919701234567
datetime_add | 'second; 90; @638422932301234567 | @638422933201234567
datetime_add | 'millisecond; 1; @638422932301234567 | @638422932301244567
datetime_add | 'microsecond; -1; @638422932301234567 | @638422932301234557
datetime_add | 'microsecond; -1; @9 | null
datetime_add | 'week; 9223372036854775807; @638422932301234567 | null
datetime_add | 'day; 0; @638422932301234567 | @638422932301234567
datetime_add | 'DAY; 1; @638422932301234567 | null
datetime_add | 'day; null; @638422932301234567 | null
datetime_add | 'day; 1; null | null
datetime_diff | 'year; @638712000000000000; @638396640000000000 | 0
datetime_diff | 'year; @0; @3155378112000000000 | -9998
datetime_diff | 'quarter; @638475264000000000; @638475228000000000 | 1
datetime_diff | 'quarter; @638712864000000000; @638396640000000000 | 4
datetime_diff | 'week; @638450208000000000; @638449344000000000 | 1
datetime_diff | 'week; @638455392000000000; @638450208000000000 | 0
datetime_diff | 'minute; @638474760600000000; @638474760599999999 | 1
datetime_diff | 'second; @638474760599999999; @638474760600000000 | -1
datetime_diff | 'millisecond; @638474760600000000; @638474760599999999 | 1
datetime_diff | 'microsecond; @638474760600000000; @638474760599999999 | 1
datetime_diff | 'microsecond; @638396640000000000; @638396640000000009 | 0
datetime_diff | 'dayofyear; @638474760600000000; @638474760599999999 | null
datetime_diff | 'day; @638474760600000000; null | null
datetime_diff | 'day; null; @638474760600000000 | null
startofweek | @638444160000000000 | @638444160000000000
startofmonth | @638423424000000000 | @638423424000000000
startofyear | @3155378975999999999 | @3155063616000000000
startofday | @3155378975999999999 | @3155378112000000000
startofweek | null | null
startofmonth | null | null
startofyear | null | null
endofday | null | null
endofweek | null | null
endofmonth | null | null
endofyear | null | null
endofday | @3155378975999999999 | @3155378975999999999
endofmonth | @3155378975999999999 | @3155378975999999999
endofyear | @3155378975999999999 | @3155378975999999999
endofweek | @3155378975999999999 | null
endofmonth | @638131392000000000 | @638132255999999999
dayofweek | @638444160000000000 | ~0
dayofweek | @638450172000000000 | ~5184000000000
dayofweek | null | null
dayofmonth | null | null
dayofyear | null | null
getyear | null | null
getmonth | null | null
monthofyear | null | null
hourofday | null | null
dayofyear | @638395776000000000 | 365
getyear | @0 | 1
getyear | @3155378975999999999 | 9999
hourofday | @35999999999 | 0
hourofday | @36000000000 | 1
make_datetime | 1; 1; 1 | @0
make_datetime | 9999; 12; 31; 23; 59 | @3155378975400000000
make_datetime | 10000; 1; 1 | null
make_datetime | 0; 1; 1 | null
make_datetime | 2024; 13; 1 | null
make_datetime | 2024; 1; 0 | null
make_datetime | 2024; 1; 1; 0; 60 | null
make_datetime | 2024; 1; 1; -1; 0 | null
make_datetime | null; 1; 1 | null
make_datetime | 2024; 1; 1; 0; null | null
make_datetime | 9223372036854775807; 1; 1 | null
unixtime_seconds_todatetime | 253402300799 | @3155378975990000000
unixtime_seconds_todatetime | 253402300800 | null
unixtime_seconds_todatetime | -62135596800 | @0
unixtime_seconds_todatetime | -62135596801 | null
unixtime_seconds_todatetime | null | null
unixtime_milliseconds_todatetime | 253402300799999 | @3155378975999990000
unixtime_milliseconds_todatetime | 253402300800000 | null
unixtime_milliseconds_todatetime | -62135596800000 | @0
unixtime_milliseconds_todatetime | -62135596800001 | null
unixtime_milliseconds_todatetime | null | null
now | ~1 | null
ago | ~1 | null
now | null | null
ago | null | null
make_datetime | 2024; null; 1 | null
make_datetime | 2024; 1; null | null
make_datetime | 2024; 1; 1; null; 0 | null"#;

pub(crate) const DYNAMIC: &str = r#"tolong | ="-7" | -7
tolong | =true | 1
tobool | ="TRUE" | true
todatetime | ="0001-01-02" | @864000000000
tostring | ="x" | 'x
isempty | ="" | false
parse_json | ="[2]" | [2]
at | [1,2]; 1 | =2
at | [1,2]; -1 | =2
at | [1,2]; 2 | null
at | {"a":3}; 'a | =3
at | {"a":3}; 'b | null
array_length | [1,2] | 2
array_length | =5 | null
array_concat | [1]; [2,3] | [1,2,3]
array_concat | [1]; =5 | null
array_slice | [1,2,3]; 1; -1 | [2,3]
array_slice | [1,2,3]; 5; 9 | []
array_reverse | [1,2] | [2,1]
array_index_of | [1,null]; null | 1
array_index_of | [1]; 7 | -1
bag_keys | {"b":1,"a":2} | ["a","b"]
bag_has_key | {"b":1}; 'b | true
bag_has_key | [1]; 'b | null
bag_merge | {"a":1}; {"a":2,"b":3} | {"a":1,"b":3}
pack_array | 1; null; 'x | [1,null,"x"]
bag_pack | 'k; 1; 'k; 2 | {"k":2}
set_union | [1,2,1]; [3,2] | [1,2,3]
set_intersect | [1,2,1]; [3,1] | [1]
set_difference | [1,2,1]; [3,1] | [2]
set_has_element | [1,null]; null | true
set_has_element | [1]; 2 | false
split | 'a-b-; '- | ["a","b",""]
split | 'ab; ' | ["ab"]
parse_json | '[2] | [2]
tolong | [2] | null
tostring | [2, null] | '[2,null]
coalesce | null; [2] | [2]
pack_array | ~10000000; @0 | ["00:00:01","0001-01-01T00:00:00.0000000Z"]
tolong | ="x" | null
tolong | =5 | 5
tolong | =false | 0
tolong | {"a":1} | null
tobool | =0 | false
tobool | =7 | true
tobool | =false | false
tobool | ="yes" | null
tobool | [1] | null
todatetime | =5 | null
todatetime | [1] | null
totimespan | ="1d" | ~864000000000
totimespan | ="x" | null
tostring | =true | 'true
tostring | =5 | '5
tostring | {"b":1,"a":[null]} | '{"a":[null],"b":1}
tostring | ="" | '
isnull | [] | false
isempty | [] | false
isnotempty | {} | true
parse_json | '[1] | [1]
parse_json | 'nope | ="nope"
parse_json | ' | =""
parse_json | '1.5 | null
parse_json | 'null | null
parse_json | 'true | =true
parse_json | '{"b":[1,2.5],"a":true} | {"a":true,"b":[1,null]}
parse_json | null | null
parse_json | =5 | =5
todynamic | '{"a":1} | {"a":1}
todynamic | ="{\"a\":1}" | {"a":1}
todynamic | [1] | [1]
at | [1,2]; -3 | null
at | [1,2]; -2 | =1
at | []; 0 | null
at | [1,null]; 1 | null
at | {"a":3}; 0 | null
at | [1]; 'a | null
at | null; 0 | null
at | [1]; null | null
array_length | [] | 0
array_length | {} | null
array_length | null | null
array_concat | [] | []
array_concat | [1] | [1]
array_concat | []; []; [1] | [1]
array_concat | null; [1] | null
array_concat | [1]; {} | null
array_slice | [1,2,3]; -2; -1 | [2,3]
array_slice | [1,2,3]; -9; 0 | [1]
array_slice | [1,2,3]; 2; 1 | []
array_slice | [1,2,3]; 0; 9223372036854775807 | [1,2,3]
array_slice | [1,2,3]; -9223372036854775808; -3 | [1]
array_slice | {}; 0; 1 | null
array_slice | null; 0; 1 | null
array_reverse | [] | []
array_reverse | [1,[2,3]] | [[2,3],1]
array_reverse | {"a":1} | null
array_reverse | null | null
array_index_of | [1,1]; 1 | 0
array_index_of | ["a",true]; true | 1
array_index_of | ["a","b"]; 'b | 1
array_index_of | ["00:00:01"]; ~10000000 | 0
array_index_of | [[1],[2]]; [2] | 1
array_index_of | []; null | -1
array_index_of | {}; 1 | null
array_index_of | null; 1 | null
bag_keys | {} | []
bag_keys | [1] | null
bag_keys | null | null
bag_has_key | {"b":1}; 'c | false
bag_has_key | {"b":null}; 'b | true
bag_has_key | null; 'b | null
bag_merge | {}; {} | {}
bag_merge | {"a":null}; {"a":2} | {"a":null}
bag_merge | {"a":1}; {"b":2}; {"a":3,"c":4} | {"a":1,"b":2,"c":4}
bag_merge | [1]; {} | null
bag_merge | {}; null | null
pack_array | true | [true]
pack_array | null | [null]
pack_array | [1]; {"a":2} | [[1],{"a":2}]
bag_pack | 'k; null | {"k":null}
bag_pack | 'b; 1; 'a; [2] | {"a":[2],"b":1}
bag_pack | '; @0 | {"":"0001-01-01T00:00:00.0000000Z"}
set_union | []; [] | []
set_union | [null,1]; [1,null] | [null,1]
set_union | {}; [1] | null
set_union | null; [1] | null
set_intersect | [1,2]; [] | []
set_intersect | [null,"a"]; ["a",null] | [null,"a"]
set_intersect | [1]; =5 | null
set_difference | [1,1,2]; [] | [1,2]
set_difference | [1]; [1] | []
set_difference | {}; [1] | null
set_difference | [1]; null | null
set_has_element | ["a"]; 'a | true
set_has_element | ["1"]; 1 | false
set_has_element | {}; 1 | null
set_has_element | null; 1 | null
split | '; '- | [""]
split | 'a--b; '- | ["a","","b"]
split | 'abc; 'abc | ["",""]
split | 'abc; 'x | ["abc"]
split | 'aaa; 'aa | ["","a"]
coalesce | {}; [2] | {}
coalesce | null; null; [2] | [2]
todynamic | null | null
array_concat | [1]; null | null
array_slice | [1]; null; 0 | null
array_slice | [1]; 0; null | null
bag_merge | null; {} | null
set_union | [1]; null | null
set_intersect | null; [1] | null
set_intersect | [1]; null | null
set_difference | null; [1] | null
split | null; '- | null
split | 'a; null | null
bag_keys | {"é":1,"z":2,"Z":3,"a":4} | ["Z","a","z","é"]
bag_keys | {"😀":1,"｡":2} | ["｡","😀"]
tostring | {"é":1,"z":2} | '{"z":2,"é":1}
tobool | ="falſe" | null
array_reverse | =5 | null
bag_keys | =5 | null
set_union | =5; [1] | null"#;
