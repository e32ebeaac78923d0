//! The functions of values.

use crate::topic::Topic;

pub(crate) const FUNCTIONS: &str = "\
The functions of the language; kql help has each, as kql help strlen, and each line

    operators      + - * / % == != < <= > >= =~ !~ and or in !in in~ !in~ between
                   !between d.n d[i]
    searches       contains, startswith, endswith, has; with _cs by case; with !
                   turned round
    patterns       matches regex, extract: regular expressions
    nulls          not isnull isnotnull isempty isnotempty iff case coalesce
                   min_of max_of
    numbers        abs sign bin floor bin_at binary_and binary_or binary_xor
                   binary_not
    conversions    tolong tostring tobool todatetime totimespan
    strings        strlen substring indexof toupper tolower reverse strcat
                   strcat_delim replace_string split strcmp
    datetimes      now ago startofday startofweek startofmonth startofyear
                   endofday endofweek endofmonth endofyear dayofweek dayofmonth
                   dayofyear getyear getmonth monthofyear hourofday datetime_add
                   datetime_diff datetime_part make_datetime
                   unixtime_seconds_todatetime unixtime_milliseconds_todatetime
    dynamic        parse_json todynamic array_length array_concat array_slice
                   array_reverse array_index_of bag_keys bag_has_key bag_merge
                   pack_array bag_pack set_union set_intersect set_difference
                   set_has_element
    window         prev next row_cumsum row_number
    aggregates     count sum min max make_list make_set arg_max arg_min ..

No function fails: each undefined case is null. An argument that is null gives
null unless its topic says otherwise. A string is never null.
";

pub(crate) const NULLS: &str = "\
Nulls and choices

    not(b)                       the negation
                                 not(true) is false
    isnull(x) isnotnull(x)       whether it is null; a string never is
                                 isnull(\"\") is false
    isempty(x) isnotempty(x)     null or the empty string
                                 isempty(\"\") is true
    iff(b, x, y)                 x where b is true, else y
                                 iff(bool(null), 1, 2) is 2
    case(b, x, .., y)            the value after the first true condition, else
                                 the last
                                 case(false, 1, true, 2, 3) is 2
    coalesce(x, y, ..)           the first that is neither null nor the empty
                                 string, else the last
                                 coalesce(long(null), 2, 3) is 2
    min_of(x, y, ..)             the least of those not null, and
    max_of(x, y, ..)             the greatest
                                 min_of(3, long(null), 2) is 2

All values of iff, case, coalesce, min_of and max_of have one type; for the last
two it is long, datetime or timespan.
";

pub(crate) const NUMBERS: &str = "\
Numbers are whole

    abs(x)                       the size, of a long or timespan
                                 abs(-5) is 5
    sign(x)                      -1, 0 or 1
                                 sign(-5) is -1
    bin(x, s) floor(x, s)        the greatest multiple of s not above x; null where
                                 s is not positive
                                 bin(-1, 5) is -5
    bin_at(x, s, f)              the greatest f + k * s not above x
                                 bin_at(14, 5, 3) is 13
    binary_and binary_or binary_xor (x, y), binary_not(x)
                                 by bits
                                 binary_and(12, 10) is 8
";

pub(crate) const CONVERSIONS: &str = "\
Conversions; null where the value does not read so

    tolong(x)        a bool is 1 or 0, a datetime or timespan its ticks, a string
                     what a long cell reads as
                     tolong(\"-7\") is -7
    tostring(x)      the printed cell; null gives the empty string
                     tostring(1.5s) is 00:00:01.5000000
    tobool(x)        whether a long is not 0; true and false in any case
                     tobool(\"TRUE\") is true
    todatetime(x)    of a datetime, a string or a dynamic text
                     todatetime(\"0001-01-02\") is 0001-01-02T00:00:00.0000000Z
    totimespan(x)    of a timespan, a string or a dynamic text
                     totimespan(\"1d\") is 1.00:00:00

A dynamic value converts by what it holds; arrays and bags, where no text is
wanted, give null.
";

pub(crate) const STRINGS: &str = "\
Strings; a character is a Unicode scalar value

    strlen(s)                    characters
                                 strlen(\"héllo\") is 5
    substring(s, start)          from start to the end; a negative start counts
    substring(s, start, len)     from the end
                                 substring(\"abc\", 1) is bc
    indexof(s, t)                the place of the first t, or -1
                                 indexof(\"abc\", \"z\") is -1
    toupper(s) tolower(s)        ASCII letters alone
                                 toupper(\"aé1\") is Aé1
    reverse(s)                   from the last character to the first
                                 reverse(\"héy\") is yéh
    strcat(x, ..)                the texts of its arguments by tostring
                                 strcat(\"a\", 1, long(null), true) is a1true
    strcat_delim(d, x, ..)       the same with d between each two
                                 strcat_delim(\"-\", \"a\", long(null), 2) is a--2
    replace_string(s, a, b)      b in the place of each a, from the left
                                 replace_string(\"aaa\", \"aa\", \"b\") is ba
    split(s, d)                  the array of the texts between each d
                                 split(\"a-b-\", \"-\") is [\"a\",\"b\",\"\"]
    strcmp(s, t)                 -1, 0 or 1, by bytes
                                 strcmp(\"a\", \"b\") is -1
";

/// The topics of these texts.
pub(crate) const TOPICS: &[Topic] = &[
    Topic {
        names: &["functions"],
        text: FUNCTIONS,
    },
    Topic {
        names: &[
            "nulls",
            "not",
            "isnull",
            "isnotnull",
            "isempty",
            "isnotempty",
            "iff",
            "case",
            "coalesce",
            "min_of",
            "max_of",
        ],
        text: NULLS,
    },
    Topic {
        names: &[
            "numbers",
            "abs",
            "sign",
            "bin",
            "floor",
            "bin_at",
            "binary_and",
            "binary_or",
            "binary_xor",
            "binary_not",
        ],
        text: NUMBERS,
    },
    Topic {
        names: &[
            "conversions",
            "tolong",
            "tostring",
            "tobool",
            "todatetime",
            "totimespan",
        ],
        text: CONVERSIONS,
    },
    Topic {
        names: &[
            "strings",
            "strlen",
            "substring",
            "indexof",
            "toupper",
            "tolower",
            "reverse",
            "strcat",
            "strcat_delim",
            "replace_string",
            "split",
            "strcmp",
        ],
        text: STRINGS,
    },
];
