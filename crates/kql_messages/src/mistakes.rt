//! What people write who know other languages, or Kusto, and what they are told: a table for each place where it may stand.

use crate::words::one_of;

// Words that people write for one thing, in lower case, and what they are told.
struct Mistake {
    words: &'static [&'static str],
    told: &'static str,
}

// Words with which an operator begins.
const OPENINGS: &[Mistake] = &[
    Mistake {
        words: &["select"],
        told: "Begin with the table, and pick columns by project: T | project host, ms",
    },
    Mistake {
        words: &["from"],
        told: "Begin with the table: T | where ms > 100",
    },
    Mistake {
        words: &["group", "groupby", "group_by"],
        told: "Make groups by summarize: T | summarize count() by host",
    },
    Mistake {
        words: &["having"],
        told: "Pick groups by a where behind summarize: T | summarize n = count() by host | where n > 5",
    },
    Mistake {
        words: &["left", "right", "full", "outer", "inner", "cross"],
        told: "Write the kind of a join behind join: T | join kind=leftouter (R) on host",
    },
    Mistake {
        words: &["insert", "update", "delete", "create", "drop", "alter"],
        told: "A query only reads tables: T | where ms > 100",
    },
    Mistake {
        words: &["offset", "skip"],
        told: "Skip rows by their number: T | serialize | extend n = row_number() | where n > 10",
    },
    Mistake {
        words: &["search", "find", "filter"],
        told: "Pick rows by where, with the column: T | where message contains \"time\"",
    },
    Mistake {
        words: &["sample", "head", "first"],
        told: "Write take: T | take 10",
    },
    Mistake {
        words: &["tail", "last"],
        told: "Write top by the other order: T | top 10 by time desc",
    },
    Mistake {
        words: &["sample-distinct"],
        told: "Write distinct and take: T | distinct host | take 10",
    },
    Mistake {
        words: &["top-nested", "top-hitters"],
        told: "Write summarize and top: T | summarize n = count() by host | top 10 by n desc",
    },
    Mistake {
        words: &["mv-apply", "mvexpand", "mvapply", "unnest", "explode"],
        told: "Write mv-expand, which gives each element a row: T | mv-expand a = d.list",
    },
    Mistake {
        words: &["project-reorder", "reorder"],
        told: "Write project with all columns in their order: T | project time, host, ms",
    },
    Mistake {
        words: &["rename"],
        told: "Write project-rename, with the new name first: T | project-rename host = server",
    },
    Mistake {
        words: &["remove", "exclude"],
        told: "Write project-away: T | project-away host",
    },
    Mistake {
        words: &["parse-where", "parse-kv", "regex", "rex"],
        told: "Write parse, and where behind it: T | parse message with \"took \" ms:long | where isnotnull(ms)",
    },
    Mistake {
        words: &["evaluate", "pivot"],
        told: "Write a column for each value: T | summarize ok = countif(status == 200), failed = countif(status == 500) by host",
    },
    Mistake {
        words: &["render"],
        told: "Leave render out: the answer is a table in CSV",
    },
    Mistake {
        words: &["datatable", "externaldata"],
        told: "Put the rows into a CSV file, T=t.csv, or write print for each: union (print x = 1), (print x = 2)",
    },
    Mistake {
        words: &["materialize", "as"],
        told: "Name a table by let: let Slow = T | where ms > 100; Slow | count",
    },
    Mistake {
        words: &["database", "cluster"],
        told: "Write the table's name alone, and give its file in the command: T=t.csv",
    },
    Mistake {
        words: &["set", "declare", "use"],
        told: "Leave this statement out: a query is let statements and one pipe of operators",
    },
    Mistake {
        words: &["getschema", "schema", "describe"],
        told: "Ask for no rows, and the answer is the columns' names: T | take 0",
    },
    Mistake {
        words: &["fork", "facet"],
        told: "Ask one query for each answer: T | where ms > 100, and T | count",
    },
    Mistake {
        words: &["invoke", "consume", "reduce"],
        told: "There is no such operator, and none in its place; kql help kusto tells what else differs",
    },
    Mistake {
        words: &["dedup", "unique", "uniq"],
        told: "Write distinct: T | distinct host, path",
    },
    Mistake {
        words: &["stats", "aggregate"],
        told: "Write summarize: T | summarize count() by host",
    },
    Mistake {
        words: &["eval", "let"],
        told: "Make new columns by extend: T | extend seconds = ms / 1000",
    },
];

// Words inside an operator.
const WORDS: &[Mistake] = &[
    Mistake {
        words: &["as"],
        told: "Write the new name first: project t = time",
    },
    Mistake {
        words: &["like", "ilike"],
        told: "Search a text by contains, startswith, endswith or has: where path contains \"cart\"",
    },
    Mistake {
        words: &["rlike", "regexp", "matches", "match"],
        told: "Search a text for a pattern by matches regex: where path matches regex \"c[a-z]+t\"",
    },
    Mistake {
        words: &["is"],
        told: "Ask for null by isnull(x) or isnotnull(x), for an empty text by isempty(s)",
    },
    Mistake {
        words: &["null", "none", "nil"],
        told: "Ask for null by isnull(x), and write it with its type: long(null)",
    },
    Mistake {
        words: &["not"],
        told: "Write not(..) round a condition, and != or !in to compare: where not(ok), where x != 5",
    },
    Mistake {
        words: &["has_any", "has_all"],
        told: "Write has for each word: s has \"a\" or s has \"b\"; for all of them, and in place of or",
    },
    Mistake {
        words: &["hasprefix", "hasprefix_cs"],
        told: "Write startswith, which looks at the beginning of the whole text: s startswith \"a\"",
    },
    Mistake {
        words: &["hassuffix", "hassuffix_cs"],
        told: "Write endswith, which looks at the end of the whole text: s endswith \"a\"",
    },
    Mistake {
        words: &["when", "then", "else", "end"],
        told: "Write case(condition, a, condition, b, otherwise), or iff(condition, a, b)",
    },
    Mistake {
        words: &["over", "partitionby"],
        told: "Look at other rows by prev, next, row_number or row_cumsum: T | sort by time asc | extend n = row_number()",
    },
    Mistake {
        words: &["offset", "skip"],
        told: "Skip rows by their number: T | serialize | extend n = row_number() | where n > 10",
    },
    Mistake {
        words: &["group", "groupby", "group_by"],
        told: "Make groups by summarize: T | summarize count() by host",
    },
    Mistake {
        words: &["having"],
        told: "Pick groups by a where behind summarize: T | summarize n = count() by host | where n > 5",
    },
    Mistake {
        words: &["using"],
        told: "Write on and the columns: T | join (R) on host",
    },
    Mistake {
        words: &["mod", "div"],
        told: "Write x / 5 for the whole part, x % 5 for the rest",
    },
    Mistake {
        words: &["xor"],
        told: "Write a != b",
    },
    Mistake {
        words: &["select", "from"],
        told: "Begin with the table, and pick columns by project: T | project host, ms",
    },
];

// Functions of values, and types.
const VALUE_CALLS: &[Mistake] = &[
    Mistake {
        words: &["iif", "if", "ifelse", "choose"],
        told: "Write iff(condition, a, b), or case(c1, a, c2, b, otherwise) among several",
    },
    Mistake {
        words: &["when", "decode", "switch"],
        told: "Write case(c1, a, c2, b, otherwise)",
    },
    Mistake {
        words: &["notnull"],
        told: "Write isnotnull(x)",
    },
    Mistake {
        words: &["notempty"],
        told: "Write isnotempty(s)",
    },
    Mistake {
        words: &["round", "ceiling", "ceil", "trunc"],
        told: "Numbers are whole, and x / y is the whole part; bin(x, 10) is the multiple of 10 below",
    },
    Mistake {
        words: &[
            "stdev",
            "stdevif",
            "variance",
            "varianceif",
            "sqrt",
            "pow",
            "power",
            "exp",
            "log",
            "log10",
            "log2",
            "series_stats",
        ],
        told: "Numbers are whole, and there is no such function; take the answer to a tool for statistics",
    },
    Mistake {
        words: &["rand", "random"],
        told: "There are no random numbers; take 10 gives ten rows",
    },
    Mistake {
        words: &["int", "toint", "int64", "toint64", "to_number", "number"],
        told: "Write 5 or tolong(s): long is the type of numbers, which are whole",
    },
    Mistake {
        words: &[
            "real",
            "double",
            "decimal",
            "float",
            "toreal",
            "todouble",
            "todecimal",
            "tofloat",
        ],
        told: "Numbers are whole: count in hundredths or thousandths, as 150 for 1.5",
    },
    Mistake {
        words: &["guid", "toguid", "uuid", "str", "text", "varchar", "char"],
        told: "Write string for the type, and tostring(x) to convert",
    },
    Mistake {
        words: &["date", "timestamp", "time"],
        told: "Write datetime(2024-03-01 10:00) or todatetime(s) for a moment, 5m or timespan(00:05:00) for a duration",
    },
    Mistake {
        words: &["boolean"],
        told: "Write bool for the type, and tobool(x) to convert",
    },
    Mistake {
        words: &["cast", "convert"],
        told: "Write tolong(x), tostring(x), todatetime(x), totimespan(x) or tobool(x)",
    },
    Mistake {
        words: &["ifnull", "nvl", "isnull_or"],
        told: "Write coalesce(a, b), the first that is not null",
    },
    Mistake {
        words: &["greatest", "least"],
        told: "Write max_of(a, b) or min_of(a, b)",
    },
    Mistake {
        words: &["toscalar"],
        told: "Write the value itself, or join the one row: T | lookup (R) on host",
    },
    Mistake {
        words: &["pack", "pack_dictionary"],
        told: "Write bag_pack(\"a\", x, \"b\", y)",
    },
];

// Functions of texts.
const TEXT_CALLS: &[Mistake] = &[
    Mistake {
        words: &["len", "length", "char_length", "size"],
        told: "Write strlen(s) for characters, array_length(d) for elements",
    },
    Mistake {
        words: &["lower", "lcase"],
        told: "Write tolower(s)",
    },
    Mistake {
        words: &["upper", "ucase"],
        told: "Write toupper(s)",
    },
    Mistake {
        words: &["concat", "concat_ws"],
        told: "Write strcat(a, b), or strcat_delim(\", \", a, b) with a text between",
    },
    Mistake {
        words: &["substr", "left", "mid"],
        told: "Write substring(s, 0, 3), the first three characters",
    },
    Mistake {
        words: &["right"],
        told: "Write substring(s, -3), the last three characters",
    },
    Mistake {
        words: &["replace", "replace_all", "replace_regex", "translate"],
        told: "Write replace_string(s, \"a\", \"b\"), which puts b in the place of each a",
    },
    Mistake {
        words: &["trim", "ltrim", "rtrim", "trim_start", "trim_end"],
        told: "Write replace_string(s, \" \", \"\"), which takes out all blanks",
    },
    Mistake {
        words: &["countof"],
        told: "Write array_length(split(s, \"a\")) - 1",
    },
    Mistake {
        words: &["instr", "position", "charindex", "locate"],
        told: "Write indexof(s, \"a\"), which counts from 0 and is -1 where there is none",
    },
    Mistake {
        words: &["regexp_extract", "extract_all"],
        told: "Write extract(\"took ([0-9]+)\", 1, message), which gives the text of one group",
    },
    Mistake {
        words: &[
            "extract_json",
            "extractjson",
            "json_extract",
            "get_json_object",
        ],
        told: "Write parse_json(s).a for the part a of a text of JSON",
    },
];

// Functions of times.
const TIME_CALLS: &[Mistake] = &[
    Mistake {
        words: &["format_datetime", "date_format", "strftime", "to_char"],
        told: "Write substring(tostring(t), 0, 10) for the date, getyear(t), getmonth(t) or hourofday(t) for a part",
    },
    Mistake {
        words: &["format_timespan"],
        told: "Write tostring(d), or d / 1s for its seconds",
    },
    Mistake {
        words: &["date_trunc", "datetrunc"],
        told: "Write bin(t, 1h), or startofday(t), startofweek(t), startofmonth(t), startofyear(t)",
    },
    Mistake {
        words: &["datediff", "date_diff", "timestampdiff"],
        told: "Write t - u, a timespan, and (t - u) / 1m for its minutes; datetime_diff(\"day\", t, u) counts days of the calendar",
    },
    Mistake {
        words: &["dateadd", "date_add"],
        told: "Write t + 5m, or datetime_add(\"month\", 1, t) by the calendar",
    },
    Mistake {
        words: &["year", "month", "day", "hour", "date_part", "datepart"],
        told: "Write getyear(t), getmonth(t), dayofmonth(t), hourofday(t), or datetime_part(\"minute\", t)",
    },
    Mistake {
        words: &["getdate", "current_timestamp", "sysdate", "utcnow"],
        told: "Write now(), and --now 2024-03-01T10:00 in front of the query",
    },
    Mistake {
        words: &["from_unixtime", "unixtime_todatetime", "to_timestamp"],
        told: "Write unixtime_seconds_todatetime(x) or unixtime_milliseconds_todatetime(x)",
    },
];

// Functions of rows and groups.
const ROW_CALLS: &[Mistake] = &[
    Mistake {
        words: &["avg", "avgif", "mean", "average"],
        told: "Numbers are whole: sum(x) / countif(isnotnull(x)) is the whole part of the mean",
    },
    Mistake {
        words: &["dcount", "hll", "uniq", "count_unique"],
        told: "Write count_distinct(x), which is exact",
    },
    Mistake {
        words: &["dcountif"],
        told: "Write count_distinctif(x, condition), which is exact",
    },
    Mistake {
        words: &[
            "percentile",
            "percentiles",
            "median",
            "quantile",
            "tdigest",
            "percentile_cont",
        ],
        told: "Sort, number the rows and pick one: docs/COOKBOOK.md has the query under Percentiles, and with groups under Percentiles of groups",
    },
    Mistake {
        words: &["any", "any_value", "anyif", "takeany"],
        told: "Write take_any(x)",
    },
    Mistake {
        words: &["count_if", "countifs"],
        told: "Write countif(condition)",
    },
    Mistake {
        words: &["sum_if", "sumifs"],
        told: "Write sumif(x, condition)",
    },
    Mistake {
        words: &["lag"],
        told: "Write prev(x), the column x of the row before: T | sort by time asc | extend p = prev(x)",
    },
    Mistake {
        words: &["lead"],
        told: "Write next(x), the column x of the row behind: T | sort by time asc | extend n = next(x)",
    },
    Mistake {
        words: &["rank", "dense_rank", "row_rank_dense", "row_rank_min"],
        told: "Write row_number() over sorted rows: T | sort by ms desc | extend n = row_number()",
    },
    Mistake {
        words: &["row_window_session"],
        told: "Write prev and row_cumsum: docs/COOKBOOK.md has the query under Sessions by gap",
    },
    Mistake {
        words: &[
            "makelist",
            "group_concat",
            "string_agg",
            "array_agg",
            "collect",
            "collect_list",
        ],
        told: "Write make_list(x), the list of a group's values",
    },
    Mistake {
        words: &["makeset", "collect_set"],
        told: "Write make_set(x), each value of a group once",
    },
    Mistake {
        words: &["first", "last", "argmin", "argmax"],
        told: "Write arg_min(time, x) for the x of the first time, arg_max(time, x) for that of the last",
    },
];

// Signs; of two that begin alike the longer is asked for first.
const SIGNS: &[Mistake] = &[
    Mistake {
        words: &["&&", "&"],
        told: "Write and between two conditions: where a > 1 and b > 1",
    },
    Mistake {
        words: &["||"],
        told: "Write or between two conditions: where a > 1 or b > 1; put texts together by strcat(a, b)",
    },
    Mistake {
        words: &["--", "#", "/*"],
        told: "Write // before a comment, which ends with its line",
    },
    Mistake {
        words: &["!"],
        told: "Write not(..) round a condition, and != to compare: where not(x > 5)",
    },
    Mistake {
        words: &["<>"],
        told: "Write !=: where x != 5",
    },
    Mistake {
        words: &["=>", "=<"],
        told: "Write >= for at least, <= for at most: where x >= 5",
    },
    Mistake {
        words: &["?"],
        told: "Write iff(condition, a, b): extend size = iff(ms > 100, \"slow\", \"fast\")",
    },
    Mistake {
        words: &[":="],
        told: "Write = alone: extend n = 5",
    },
    Mistake {
        words: &["{", "}"],
        told: "Write the body where the function is used: there are no functions of your own",
    },
    Mistake {
        words: &["`"],
        told: "Write ['two words'] for a name that is no word",
    },
    Mistake {
        words: &["$"],
        told: "Write $left and $right in the columns of a join alone: on $left.host == $right.name",
    },
    Mistake {
        words: &["^"],
        told: "Write x * x: there are no powers",
    },
    Mistake {
        words: &["“", "”", "„", "‘", "’"],
        told: "Write straight quotes: \"text\" or 'text'",
    },
    Mistake {
        words: &["\u{a0}"],
        told: "Write an ordinary blank: this one is of another kind and only looks the same",
    },
    Mistake {
        words: &["\u{feff}", "\u{200b}"],
        told: "Delete this character, which cannot be seen",
    },
];

// What the first of these mistakes that has a word is told. Each table has a function of its own, so that the check reads it once.
fn told_of(mistakes: &[Mistake], word: &str) -> Option<&'static str> {
    for mistake in mistakes {
        if one_of(mistake.words, word).is_some() {
            return Some(mistake.told);
        }
    }
    None
}

/// What a word is told with which an operator begins.
pub(crate) fn opening_told(word: &str) -> Option<&'static str> {
    told_of(OPENINGS, word)
}

/// What a word inside an operator is told.
pub(crate) fn word_told(word: &str) -> Option<&'static str> {
    told_of(WORDS, word)
}

fn value_call_told(name: &str) -> Option<&'static str> {
    told_of(VALUE_CALLS, name)
}

fn text_call_told(name: &str) -> Option<&'static str> {
    told_of(TEXT_CALLS, name)
}

fn time_call_told(name: &str) -> Option<&'static str> {
    told_of(TIME_CALLS, name)
}

fn row_call_told(name: &str) -> Option<&'static str> {
    told_of(ROW_CALLS, name)
}

/// What a function or a type is told.
pub(crate) fn call_told(name: &str) -> Option<&'static str> {
    value_call_told(name)
        .or(text_call_told(name))
        .or(time_call_told(name))
        .or(row_call_told(name))
}

/// What a sign is told.
pub(crate) fn sign_told(sign: &str) -> Option<&'static str> {
    told_of(SIGNS, sign)
}
