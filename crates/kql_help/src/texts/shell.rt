//! Commands around the top call, and what a newcomer asks for.

use crate::topic::Topic;

pub(crate) const QUERY_WORDS: &str = "\
kql -e QUERY .. [-q FILE ..] [--output csv|table|json|jsonl] [--all] FILE ..

Answers a query that is written on the command line, or in files behind -q. All
-e and -q are one query, each part on lines of its own, so a file of lets can be
shared. A place in it counts lines through all parts. Options and files stand in
any order; --now and --workers are those of run.

    kql -e 'log | where ms > 100' examples/log.csv
    kql -q lets.kql -e 'Log | where ms > limit' Log=examples/log.csv
    cat examples/log.csv | kql -e 'T | count' -

A FILE is NAME=PATH, or a path alone, whose table has the file's name without
folder and ending where that is a word, and else the name T. - is the standard
input. The answer is CSV on a pipe and in a file, and on a terminal a table to
look at; --output says which. More: kql help show
";

pub(crate) const SHOW: &str = "\
kql show [--output FORM] [--all] [--now T] QUERY FILE ..
kql show -e QUERY FILE ..

Answers the query of the file QUERY, or behind -e and -q, as a table to look at:
aligned columns, numbers to the right, null as -, and the number of rows below. At
most 1,000 rows are shown but with --all, and wide cells end with … where the
columns do not fit the terminal, whose width COLUMNS tells, and else is 80. Colours
are on a terminal alone, and never where NO_COLOR is set.

    csv      as run writes it
    table    to look at
    json     an array of an object for each row
    jsonl    an object for each row, each on a line

    kql show examples/errors.kql Requests=examples/requests.csv
    kql show --output json -e 'log | take 2' examples/log.csv
";

pub(crate) const SCHEMA: &str = "\
kql schema FILE ..

Tells the columns of each file: the table's name, the column's, its type, and how
many rows the table has. On a pipe it is CSV; --output says which form.

    kql schema examples/log.csv
";

pub(crate) const TYPES: &str = "\
kql types [--limit SIZE] [--write] FILE

Prints a header with types for a file: for each column without one the first of
long, bool, datetime and timespan as which every cell reads, dynamic where each is
the JSON of an array or an object, and else string. --write writes the file with
it, and leaves its rows as they are.

    kql types examples/log.csv
";

pub(crate) const LIMITS: &str = "\
Limits

A query has at most 262,144 bytes, 65,536 words and signs, 256 operators, 256 calls
of patterns, and brackets 64 deep. A table has 1 to 256 columns, range at most
1,000,000 rows, a command at most 64 tables, and their files at most 67,108,864
bytes together, or what --limit says, as 2GiB. A file larger than memory is cut
into parts first, each with the header; no cell may hold a line feed then.

    tail -n +2 Big.csv |
        split -C 60m --filter='(head -n 1 Big.csv; cat) >$FILE.csv' - part.
";

pub(crate) const CATALOGUE: &str = "\
kql run --catalogue PATH [OPTION ..] QUERY [NAME=PATH ..]

A catalogue file names tables: their columns with types, and the files whose rows
stand one after another. It is JSON of exactly these keys:

    {\"version\": 2, \"tables\": [{\"name\": \"Log\",
      \"columns\": [{\"name\": \"time\", \"type\": \"datetime\"},
                  {\"name\": \"host\", \"type\": \"string\"}],
      \"files\": [\"may.csv\", \"june.csv\"]}]}

A file's header has the names of the columns, alone or each with its type (312).
The option stands in front of the query, as the others of run.
";

pub(crate) const JSON: &str = "\
JSON: a number of it that is no whole one of 64 bits, as 2.5, 1e3 or -0, is null

A file of JSON lines becomes a table of one dynamic column; its parts are d.name.

    (echo d:dynamic; sed 's/\"/\"\"/g; s/.*/\"&\"/' app.jsonl) >Json.csv
    kql -e 'Json | where d.ms > 100 | extend level = tostring(d.level)' Json.csv

An answer is JSON by --output json, an array of objects, or --output jsonl, an
object a line: longs are numbers, bools true and false, nulls null, datetimes and
timespans texts, and dynamic values as they are. More: kql help dynamic
";

pub(crate) const CSV: &str = "\
CSV

A table is a file of CSV after RFC 4180 in UTF-8. Its first record is the header:
NAME:TYPE names a column of that type, and a name alone a column of strings.

    time:datetime,service,ms:long,message

kql types FILE proposes the types. More: kql help tables
";

pub(crate) const EXAMPLES: &str = "\
Examples, in the folder examples/ of kql

    kql -e 'log | summarize count() by service' examples/log.csv
    kql -e 'requests | top 3 by ms desc' examples/requests.csv
    kql show examples/errors_by_minute.kql Web=examples/web.csv
    kql show examples/by_region.kql Web=examples/web.csv Hosts=examples/hosts.csv
    kql show examples/top_talkers.kql Web=examples/web.csv
    kql show examples/funnel.kql Web=examples/web.csv
";

pub(crate) const COOKBOOK: &str = "\
Cookbook: recipes by question, each with its query, in docs/COOKBOOK.md

    errors by minute, top talkers, first and last seen, percent with two decimals,
    sessions by gap, before and after a deploy, rate between neighbours,
    failures then a success, gaps of a series, latest per key, allow lists,
    percentiles, percentiles of groups, sliding windows, pivots, share of a total,
    fields of messages, sums of decimal texts, silent hosts, several files,
    a gz file, chunks of a large file
";

/// The topics of these texts.
pub(crate) const TOPICS: &[Topic] = &[
    Topic {
        names: &["-e", "-q", "command"],
        text: QUERY_WORDS,
    },
    Topic {
        names: &["show", "output"],
        text: SHOW,
    },
    Topic {
        names: &["schema"],
        text: SCHEMA,
    },
    Topic {
        names: &["types"],
        text: TYPES,
    },
    Topic {
        names: &["limits"],
        text: LIMITS,
    },
    Topic {
        names: &["catalogue", "--catalogue"],
        text: CATALOGUE,
    },
    Topic {
        names: &["json", "jsonl"],
        text: JSON,
    },
    Topic {
        names: &["csv", "header"],
        text: CSV,
    },
    Topic {
        names: &["examples"],
        text: EXAMPLES,
    },
    Topic {
        names: &["cookbook", "recipes"],
        text: COOKBOOK,
    },
];
