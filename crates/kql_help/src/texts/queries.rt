//! Commands, queries, sources and tables.

use crate::topic::Topic;

pub(crate) const RUN: &str = "\
kql run [--now T] [--limit SIZE] [--types] [--workers N] QUERY NAME=PATH ..

Answers the query of the file QUERY over the tables of the words NAME=PATH, each
a CSV file, and writes its table as CSV to standard output. --now gives the
datetime that now() stands for. --limit is how many bytes the files may have
together, as 2GiB, up to 1024GiB; 64MiB where it is not given. --types writes the
types into the header of the answer. --workers, from 1 to 64, is how many share
the work, and changes no answer; unless given, a processor each, but up to 8. The
options stand before QUERY, in any order. A path may be /dev/stdin.

    kql run examples/errors.kql Requests=examples/requests.csv
";

pub(crate) const PLAIN: &str = "\
kql plain [--now T] [--limit SIZE] [--types] [--workers N] QUERY NAME=PATH ..

Takes the words of run and answers the same: it evaluates one operator after
another on one thread, whatever --workers says.
";

pub(crate) const EXPLAIN: &str = "\
kql explain [--now T] [--limit SIZE] [--workers N] QUERY NAME=PATH ..

Takes the words of run and prints the plan by which run answers the query: the
query's operators as they are evaluated, a line for each, behind a line for the
source. A filter stands as far to the front as it may, neighbours that can be one
operator are one, and what does nothing is gone. A call is written f(E,E), also
that of an operator: where ==(Level,\"Error\"). The plan of a let, of a join's
right table, of a union's tables and of a partition stands in brackets. The table
files are read, since their columns decide what the plan is.

    kql explain examples/errors.kql Requests=examples/requests.csv
";

pub(crate) const TRIAL: &str = "\
kql trial ROWS SEED [--workers N]

Reads no file. Makes up a log of so many rows, up to 1,000,000, from the seed,
up to 18,446,744,073,709,551,615, answers five stored queries over it, and
writes a line for each: QN rows R bytes B, how many rows its table has, and how
many bytes the table's text. The same words give the same lines on every
machine.

    kql trial 1000 1
";

pub(crate) const LIVE: &str = "\
kql live [--readers R] [--now T] [--watch] [--view] QUERY NAME=PATH PATH ..

Answers the query over a table that grows while it is queried: NAME=PATH is the
opening table, and each further PATH, up to 63, a batch, a file of the same
columns whose rows come behind those before it. While the batches are published
one after another, so many readers, 1 to 8 and else 2, ask the query again and
again, each in a thread of its own. What is written is the answer over all rows.
With --watch it is the answer over the opening table and, after each batch, the
answer until then where it differs from the one before, each under a line that
tells after how many batches it holds. With --view the query has to be one
summarize or distinct over the table (421); readers then take its groups, and no
rows. The table is the same. The files may have 67,108,864 bytes together.

    kql live q.kql Visits=monday.csv tuesday.csv
";

pub(crate) const QUERY: &str = "\
SOURCE | OPERATOR | OPERATOR ..

A query is evaluated from left to right, each operator over the rows of the one
before it, and its table is written as CSV, in the order that the last operator
gives. let statements may stand before it, and a ; behind it. A comment goes
from // to the end of its line. Names are compared by bytes, case and all.

    Requests
    | where status >= 500
    | extend micros = ms * 1000
    | project host, path, micros
    | sort by micros desc, host asc

In these pages [ ] is what may be left out, and , .. more of the same with
commas between, and | stands between choices. E is an expression, an ITEM is E
or NAME = E, a TABLE a name or (SOURCE | ..), and a constant an expression
without columns.

See also: kql help literals, let, range, print, union, columns.
";

pub(crate) const LITERALS: &str = "\
How names and values are written

    name         an ASCII letter or _, then letters, digits and _: Host; any text
                 as ['a b']; a reserved word so too, as ['by']
    number       500, 0x1F4; up to 9223372036854775807
    timespan     5m, 1.5h, 1tick; d, h, m, s, ms, microsecond or tick; whole ticks
    string       \"say \\\"a\\\"\" or 'it\\'s', with \\\\ \\\" \\' \\n \\r \\t, on one line
    verbatim string
                 @\"C:\\logs\": a backslash is itself, and a doubled sign is one
    literal of a type
                 bool(true), long(-500), datetime(2024-03-01),
                 timespan(1.00:00:00), dynamic({\"a\":1}) with JSON; long(null) and
                 the like are null; true and false stand alone too

Numbers are whole: there is no real, double, decimal, int or guid.
";

pub(crate) const LET: &str = "\
let NAME = SOURCE | OPERATOR ..;
let NAME = E;

The first names a table for all that follows, the second a constant. A name
alone is a table where there is one. A let hides the file of its name; a second
let of one name is refused (417).

    let most = 500 * 2;
    let slow = Requests | where ms > most;
    slow | summarize count() by host
";

pub(crate) const RANGE: &str = "\
range NAME from A to B step S

A source: the rows A, A + S and so on up to B, in a column of type long,
datetime or timespan. The step is positive, and no end is null; at most
1,000,000 rows (414). The rows are serialised.

    range x from 1 to 5 step 2
";

pub(crate) const PRINT: &str = "\
print ITEM, ..

A source: one row of its items, which read no column. An item without a name is
print_0, print_1 and so on, by its place.

    print n = 2 + 3, 1d / 1h, long(null)
";

pub(crate) const UNION: &str = "\
union [kind = outer | inner] TABLE, ..

As a source the first table and then the others; as an operator the rows so far
and then each other table's rows. outer, the default, has every column in order
of first appearance, absent where a table lacks it; inner has the columns that
all tables have, in the first table's order. Absent is null, and the empty
string in a column of strings. Columns of one name have one type (415).

    union U, V, W
    U | union kind=inner V
";

pub(crate) const COLUMNS: &str = "\
Names of columns

An item n = E gives the column n. Without a name it gives

    a column; bin, floor or bin_at of one     the column's name
    a path, as d.a or d[\"b\"][0]               d_a, d_b_0; none with d[-1] or d[k]
    one within tolong, tostring, tobool,      the same
        todatetime or totimespan
    an item of print                          print_0, print_1 and so on
    count(), countif(p)                       count_, countif_
    sum(x) and the like of a column           sum_x; of another expression sum_
    make_list(x), make_list_if of a column    list_x
    make_set(x), make_set_if of a column      set_x
    arg_max(e, c, ..), arg_min                the names of the columns, e's first
    take_any(c, ..)                           the names of the columns
    anything else                             Column1, Column2 and so on

Two columns of one name in one answer are refused (411). An answer has 1 to 256
columns.
";

pub(crate) const KUSTO: &str = "\
What differs from Kusto, and what to write instead

    iif, notnull, notempty       iff, isnotnull, isnotempty
    1.5, int(5), toint(s)        numbers are whole: 5, tolong(s)
    real, double, decimal        whole numbers, as percent or thousandths; so for
                                 toreal, todouble, todecimal
    guid, toguid                 a string
    avg(x), avgif(x, p)          sum(x) / countif(isnotnull(x)), the whole part
    dcount(x), dcountif(x, p)    count_distinct(x), count_distinctif(x, p)
    any(x)                       take_any(x)
    percentile, percentiles      sorted and numbered rows: docs/LANGUAGE.md has how
    round, sqrt, pow, exp, log, log10, rand, stdev, stdevif, variance, varianceif,
    hll, tdigest, series_stats   nothing
    makelist, makeset, pack      make_list, make_set, bag_pack
    extract(p, n, s, typeof(t))  tolong(x) and the like, of extract(p, n, s) as x
    extract_all, replace_regex   extract with each group, replace_string
    s has_any (a, b), has_all    s has a or s has b; s has a and s has b
    hasprefix, hassuffix         startswith, endswith, contains
    trim, countof                replace_string, array_length(split(..)) - 1
    extract_json(\"$.a\", s)       parse_json(s).a
    format_datetime(t, ..)       substring(tostring(t), 0, 10), getyear(t)
    row_rank_dense, row_rank_min, row_window_session
                                 row_number, row_cumsum, scan
    x in (T | project y)         join kind=leftsemi (T) on $left.x == $right.y
    let ids = ..; x in (ids)     join kind=leftsemi (ids) on x
    (T | ..) | count             T | .. | count
    join kind=leftantisemi       join kind=leftanti
    toscalar(T | ..)             lookup (T | ..) on a column that is 1 on both sides
    materialize(T | ..), as A    let A = T | ..;
    let f = (a:long) { .. }      the body in its place
    datatable, externaldata      a CSV file, T=PATH; union (print x = 1), ..
    database(\"d\").T              T, and T=PATH in the command
    search, find, filter         where
    sample, mv-apply, mvexpand   take, mv-expand
    project-reorder, wildcards   project, with each name
    parse-where, kind=regex      parse, and where behind it
    evaluate pivot(s)            summarize with a countif for each value
    evaluate bag_unpack(d)       extend a = d.a, b = d.b
    render                       nothing: the answer is CSV
    invoke, facet, fork, reduce, getschema, consume, sample-distinct, top-nested,
    top-hitters                  nothing
    now(), ago(1h)               the same, with --now 2024-03-01 in the command
    datetime(\"2024-03-01\")       datetime(2024-03-01)
    dynamic({'a':1})             JSON: dynamic({\"a\":1})
    \"Hour\", bool(TRUE)           lower case: \"hour\", true

Two columns of one name are refused (411): summarize a = count(), b = count().
A step of range is positive. toupper and tolower turn ASCII letters alone.
";

pub(crate) const TABLES: &str = "\
Tables

A table is a CSV file in UTF-8, given by a word NAME=PATH. Its header's fields
are names, or NAME:TYPE; a field without a type is a column of strings.

    bool         true or false, in any case
    long         -9223372036854775808 to 9223372036854775807
    string       the text of the cell
    datetime     2024-03-01; or with T or a space and 10:04, 10:04:59 or
                 10:04:59.9999999, and then Z, \" UTC\", +02:00, +0200 or none
    timespan     [-][d.]hh:mm:ss[.fffffff], or a number with d, h, m, s, ms,
                 microsecond or tick
    dynamic      JSON, in which a number that is no whole one, as 2.5, is null;
                 any other text is that text as a dynamic value

An empty cell is null, and the empty string in a column of strings. Blanks round
a cell are passed over, but of types string and dynamic. The answer
is CSV with a header without types; null is an empty cell. At most 64 tables, of
67,108,864 bytes together, or what --limit says.
";

/// The topics of these texts.
pub(crate) const TOPICS: &[Topic] = &[
    Topic {
        names: &["run"],
        text: RUN,
    },
    Topic {
        names: &["plain"],
        text: PLAIN,
    },
    Topic {
        names: &["explain"],
        text: EXPLAIN,
    },
    Topic {
        names: &["trial"],
        text: TRIAL,
    },
    Topic {
        names: &["live"],
        text: LIVE,
    },
    Topic {
        names: &["query"],
        text: QUERY,
    },
    Topic {
        names: &["literals", "words"],
        text: LITERALS,
    },
    Topic {
        names: &["let"],
        text: LET,
    },
    Topic {
        names: &["range"],
        text: RANGE,
    },
    Topic {
        names: &["print"],
        text: PRINT,
    },
    Topic {
        names: &["union"],
        text: UNION,
    },
    Topic {
        names: &["columns", "names"],
        text: COLUMNS,
    },
    Topic {
        names: &["tables"],
        text: TABLES,
    },
    Topic {
        names: &[
            "kusto",
            "iif",
            "notnull",
            "notempty",
            "int",
            "real",
            "double",
            "decimal",
            "guid",
            "toint",
            "toreal",
            "todouble",
            "todecimal",
            "toguid",
            "avg",
            "avgif",
            "dcount",
            "dcountif",
            "percentile",
            "percentiles",
            "stdev",
            "stdevif",
            "variance",
            "varianceif",
            "hll",
            "tdigest",
            "sqrt",
            "pow",
            "exp",
            "log",
            "log10",
            "round",
            "rand",
            "series_stats",
            "any",
            "makelist",
            "makeset",
            "pack",
            "extract_all",
            "replace_regex",
            "has_any",
            "has_all",
            "hasprefix",
            "hassuffix",
            "trim",
            "countof",
            "format_datetime",
            "toscalar",
            "materialize",
            "as",
            "datatable",
            "externaldata",
            "search",
            "find",
            "filter",
            "sample",
            "mv-apply",
            "mvexpand",
            "project-reorder",
            "parse-where",
            "render",
            "evaluate",
            "invoke",
            "facet",
            "fork",
            "reduce",
            "getschema",
            "consume",
            "top-nested",
            "top-hitters",
            "row_rank_min",
            "row_rank_dense",
            "row_window_session",
            "extract_json",
            "leftantisemi",
            "anti",
            "pivot",
            "bag_unpack",
            "database",
            "sample-distinct",
        ],
        text: KUSTO,
    },
];
