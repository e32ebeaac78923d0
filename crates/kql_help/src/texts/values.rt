//! Signs, searches and the larger families of functions.

use crate::topic::Topic;

pub(crate) const OPERATORS: &str = "\
Signs and words between values; kql help has the operators of tables

    a + b              longs, timespans, a datetime and a timespan
                       2 + 3 is 5
    a - b              the same; two datetimes give a timespan
                       2 - 3 is -1
    a * b              longs; a timespan and a long
                       -6 * 7 is -42
    a / b              cut toward zero; null for 0; two timespans give a long
                       -7 / 2 is -3
    a % b              from 0 on and below the size of b; null for 0
                       -14 % 12 is 10
    -a                 null for the least number
                       -(5) is -5
    == !=              one type but dynamic; strings by bytes
                       long(null) == 1 is false
    < <= > >=          longs, datetimes or timespans
                       1 < 2 is true
    =~ !~              strings without case
                       \"Straße\" =~ \"STRASSE\" is true
    and or             three-valued
                       false and bool(null) is false
    x in (a, b)        whether some == is true; !in turns it round
                       2 in (1, 2) is true
    x in~ (a, b)       the same with =~; !in~ turns it round
                       \"a\" in~ (\"A\", \"b\") is true
                       in a list an array stands for its elements:
                       2 in (dynamic([1,\"2\"])) is true
    x between (a .. b)
                       a <= x and x <= b; !between turns it round
                       5 between (5 .. 5) is true
    d.n d[\"n\"] d[i]    the entry or element; a negative i counts from the end;
                       null where there is none
                       dynamic([1,2])[-1] is 2

A sum, product or quotient out of range is null. Two nulls are == null; one null
is == false and != true; < and its like are null where one is null. A dynamic
operand beside one of another type is converted to that type; in a list it stays,
and each element of its array is compared as a value of the type of x.
";

pub(crate) const SEARCHES: &str = "\
Searches tell whether the second of two strings stands in the first

    contains       anywhere          \"xABy\" contains \"ab\" is true
    startswith     at the start      \"Abc\" startswith \"aB\" is true
    endswith       at the end        \"abC\" endswith \"Bc\" is true
    has            as a term         \"Error-42\" has \"error\" is true

They look without case; with _cs by case; with ! the answer is turned round.

    contains_cs    !contains !contains_cs
                                     \"abc\" contains_cs \"B\" is false
    startswith_cs  !startswith !startswith_cs
                                     \"Abc\" startswith_cs \"aB\" is false
    endswith_cs    !endswith !endswith_cs
                                     \"abc\" endswith_cs \"BC\" is false
    has_cs         !has !has_cs      \"Error-42\" has_cs \"error\" is false

A term is bordered: the characters on the two sides of each border are not both
ASCII letters or digits, so \"Error42\" has \"error\" is false.
";

pub(crate) const PATTERNS: &str = "\
Patterns are regular expressions, looked for in a string column of a file's table

    s matches regex \"p\"        whether the pattern stands anywhere in s, by case
    extract(\"p\", n, s)         the text of group n of the first match; 0 is the whole
                               match. It is the empty text where there is no match,
                               no such group, or the group took no part.

    T | where s matches regex \"^id=[0-9]+\"
    T | extend user = extract(\"user=([a-z]+)\", 1, s), n = extract(@\"\\d+\", 0, s)

They stand in the where and extend that directly follow the name of the table, also
in a let or in brackets: T | where .. | extend .. | summarize ... Behind another
operator a call is 420; put its answer into a column before it:

    T | extend hit = s matches regex \"ab?c\" | summarize n = countif(hit)

A pattern is a text in quotes, n a number, s a string column of the table itself,
which no extend before sets. 256 calls stand in a query. The syntax is that of the
crate regex: . [a-z] \\d \\w \\s \\b ^ $ * + ? {2,5} | ( ) (?: ) (?i) and classes of
Unicode; no look-around and no \\1. A backslash is written twice in \"..\", and once
in @\"..\". A pattern that does not read, or is too large, is 501.
";

pub(crate) const DATETIMES: &str = "\
Datetimes and timespans, in UTC

    now() now(s) ago(s)          the moment given by --now; plus s; minus s
        now() is 2024-03-01T00:00:00.0000000Z with --now 2024-03-01
    startofday startofweek startofmonth startofyear (t)
                                 the first tick; weeks start on Sunday
        startofday(datetime(2024-03-01 05:06)) is 2024-03-01T00:00:00.0000000Z
    endofday endofweek endofmonth endofyear (t)
                                 the last tick
        endofday(datetime(2024-03-01 05:06)) is 2024-03-01T23:59:59.9999999Z
    dayofweek(t)                 days since Sunday, a timespan
        dayofweek(datetime(2024-03-01)) is 5.00:00:00
    dayofmonth dayofyear getyear getmonth monthofyear hourofday (t)
                                 the field, a long
        dayofmonth(datetime(2024-03-31)) is 31
    datetime_add(part, n, t)     n parts later; a month's last day at most
        datetime_add(\"month\", 1, datetime(2024-01-31)) is 2024-02-29T00:00:00.0000000Z
    datetime_diff(part, a, b)    the borders of periods from b to a
        datetime_diff(\"month\", datetime(2024-03-01), datetime(2024-01-31)) is 2
    datetime_part(part, t)       the field
        datetime_part(\"quarter\", datetime(2024-05-01)) is 2
    make_datetime(y, m, d)       the datetime, null where there is none; also
                                 make_datetime(y, m, d, h, mi)
        make_datetime(2023, 2, 29) is null
    unixtime_seconds_todatetime(n) unixtime_milliseconds_todatetime(n)
                                 from 1970-01-01 on
        unixtime_seconds_todatetime(1) is 1970-01-01T00:00:01.0000000Z

Parts of datetime_add and datetime_diff: year quarter month week day hour minute
second millisecond microsecond; of datetime_part: year quarter month day
dayofyear hour minute second millisecond.
";

pub(crate) const DYNAMIC: &str = "\
Dynamic values: JSON, in which a number that is no whole one, as 2.5, is null;
where an array or a bag is wanted and another value given: null

    parse_json(x) todynamic(x)   what a text reads as; a dynamic is itself
        parse_json(\"[2]\") is [2]
    array_length(d)              how many elements
        array_length(dynamic([1,2])) is 2
    array_concat(d, ..)          the elements of arrays, one after another
        array_concat(dynamic([1]), dynamic([2,3])) is [1,2,3]
    array_slice(d, a, b)         elements a to b, both included; negative counts
                                 from the end
        array_slice(dynamic([1,2,3]), 1, -1) is [2,3]
    array_reverse(d)             from the last to the first
        array_reverse(dynamic([1,2])) is [2,1]
    array_index_of(d, x)         the place of the first identical element, or -1
        array_index_of(dynamic([1,null]), long(null)) is 1
    bag_keys(d)                  the array of the keys, in order
        bag_keys(dynamic({\"b\":1,\"a\":2})) is [\"a\",\"b\"]
    bag_has_key(d, s)            whether the bag has the key
        bag_has_key(dynamic({\"b\":1}), \"b\") is true
    bag_merge(d, d, ..)          one bag; the first that has a key gives its value
        bag_merge(dynamic({\"a\":1}), dynamic({\"a\":2,\"b\":3})) is {\"a\":1,\"b\":3}
    pack_array(x, ..)            the array of its arguments, nulls among them
        pack_array(1, long(null), \"x\") is [1,null,\"x\"]
    bag_pack(s, x, ..)           the bag of keys and values, nulls among them; a
                                 later key replaces
        bag_pack(\"k\", 1, \"k\", 2) is {\"k\":2}
    set_union set_intersect set_difference (d, d)
                                 distinct elements by first occurrence: of both; of
                                 the first that are, that are not in the second
        set_union(dynamic([1,2,1]), dynamic([3,2])) is [1,2,3]
    set_has_element(d, x)        whether an element is identical
        set_has_element(dynamic([1,null]), long(null)) is true
";

/// The topics of these texts.
pub(crate) const TOPICS: &[Topic] = &[
    Topic {
        names: &[
            "operators",
            "and",
            "or",
            "in",
            "in~",
            "between",
            "==",
            "!=",
            "<",
            "<=",
            ">",
            ">=",
            "=~",
            "!~",
            "+",
            "-",
            "*",
            "/",
            "%",
            "!in",
            "!in~",
            "!between",
        ],
        text: OPERATORS,
    },
    Topic {
        names: &[
            "searches",
            "contains",
            "contains_cs",
            "startswith",
            "startswith_cs",
            "endswith",
            "endswith_cs",
            "has",
            "has_cs",
            "!contains",
            "!contains_cs",
            "!startswith",
            "!startswith_cs",
            "!endswith",
            "!endswith_cs",
            "!has",
            "!has_cs",
        ],
        text: SEARCHES,
    },
    Topic {
        names: &["patterns", "matches", "regex", "extract"],
        text: PATTERNS,
    },
    Topic {
        names: &[
            "datetimes",
            "now",
            "ago",
            "startofday",
            "startofweek",
            "startofmonth",
            "startofyear",
            "endofday",
            "endofweek",
            "endofmonth",
            "endofyear",
            "dayofweek",
            "dayofmonth",
            "dayofyear",
            "getyear",
            "getmonth",
            "monthofyear",
            "hourofday",
            "datetime_add",
            "datetime_diff",
            "datetime_part",
            "make_datetime",
            "unixtime_seconds_todatetime",
            "unixtime_milliseconds_todatetime",
        ],
        text: DATETIMES,
    },
    Topic {
        names: &[
            "dynamic",
            "parse_json",
            "todynamic",
            "array_length",
            "array_concat",
            "array_slice",
            "array_reverse",
            "array_index_of",
            "bag_keys",
            "bag_has_key",
            "bag_merge",
            "pack_array",
            "bag_pack",
            "set_union",
            "set_intersect",
            "set_difference",
            "set_has_element",
        ],
        text: DYNAMIC,
    },
];
