//! The codes of a query that is refused for its names and types.

use crate::topic::Topic;

pub(crate) const UNKNOWN_COLUMN: &str = "\
401 UnknownColumn

No column, constant or step column has that name.

    T | extend y = x + nosuch                  at nosuch

Look at the spelling: names are compared by bytes, so X is not x; a name that is
no word is written ['a b'], and a text stands in quotes. An item reads the row as
it came: extend y = x, z = y is extend y = x | extend z = y. Behind summarize and
project only their columns are left. A header's field ms:Long is a name as a
whole, since types are in lower case.
";

pub(crate) const UNKNOWN_FUNCTION: &str = "\
402 UnknownFunction

There is no function of that name, or none in this place: aggregates stand in
summarize and make-series alone.

    T | extend y = sum(x)                      at sum

kql help functions has the functions, and kql help kusto what to write for iif,
notnull and others; a sum over all rows is summarize.
";

pub(crate) const WRONG_ARGUMENTS: &str = "\
403 WrongArguments

The function takes another number of arguments, or no such argument: some must
be a constant, a column alone or a known part word, and a * is for few. At an
operator's name: a count, a default or a bound that is no constant, an item of
summarize that reads a column outside of an aggregate, or an item of make-series
that is not one aggregate alone.

    T | extend y = abs(x, x)                   at abs
    T | extend y = datetime_add(\"fortnight\", 1, t)    at datetime_add
    T | summarize arg_max(x, s) + 1            at arg_max

Give the arguments that the function takes; name the result of a call of several
columns in an operator of its own. The keys of summarize stand behind by:
summarize count() by host.
";

pub(crate) const WRONG_TYPE: &str = "\
404 WrongType

The sign or function does not take operands or arguments of these types, or the
expression has another type than its operator takes.

    T | where s > \"a\"                          at >
    T | extend y = abs(s)                      at abs
    T | extend y = d == d                      at ==

Convert, as with tolong(s), or give the column its type in the file's header, as
s:long; two dynamic values are compared when one of them is converted.
";

pub(crate) const UNSUPPORTED_TYPE: &str = "\
405 UnsupportedType

The language leaves out this type: int, real, double, decimal or guid. Where a
type stands it is bool, long, string, datetime, timespan or dynamic, in lower
case.

    T | where x > int(5)                       at int

Write long(5), or 5.
";

pub(crate) const UNSUPPORTED_FUNCTION: &str = "\
406 UnsupportedFunction

The language leaves out this function, whose results are no whole numbers or of
types that it leaves out.

    T | summarize avg(x)                       at avg

There are no fractions: sum(x) / countif(isnotnull(x)) is the whole part of the
mean; count_distinct(x) stands for dcount(x). kql help kusto has more.
";

pub(crate) const NOT_SERIALISED: &str = "\
407 NotSerialised

A window function, or scan, stands over rows that have no order of their own.

    T | extend y = prev(x)                     at prev

Put sort by or serialize before it.
";

pub(crate) const WINDOW_HERE: &str = "\
408 WindowHere

No window function may stand here: in a key of sort, in summarize, in the
arguments of prev, or in a running sum another running sum.

    T | serialize | summarize sum(prev(x))     at prev

Give it a column of its own by extend first.
";

pub(crate) const NO_MOMENT: &str = "\
409 NoMoment

now and ago need the moment, and the command gives none.

    T | where t > ago(1h)                      at ago

Give it in front of the query file: kql run --now 2024-01-01 QUERY NAME=PATH ..
";

pub(crate) const UNKNOWN_TABLE: &str = "\
410 UnknownTable

No word of the command and no let gives a table of that name.

    Nosuch | count                             at Nosuch

Give the file: Nosuch=path.csv. The constant of a let hides the file of its
name.
";

pub(crate) const COLUMN_TWICE: &str = "\
411 ColumnTwice

Two columns of one result have one name, or one column is renamed twice; the
place is the second.

    T | project x, y = x, y = s                at the second y

Give one of them another name.
";

pub(crate) const TOO_MANY_COLUMNS: &str = "\
412 TooManyColumns

The operator gives a result of more than 256 columns.

    a table of 256 columns, | extend a = 1     at extend

Leave columns out first, by project or project-away.
";

pub(crate) const BAD_STEP: &str = "\
413 BadStep

The column that scan assigns to is not declared, or is assigned to twice in one
step; or here stands the 65th step.

    T | serialize | scan with (step a: true => y = 1;)    at y

Declare it: scan declare (y:long) with ..
";

pub(crate) const BAD_RANGE: &str = "\
414 BadRange

A range has more than 1,000,000 rows, a series more than 100,000 bins, a step is
null or not positive, an end is null, or a count is null or negative.

    range x from 1 to 9 step 0                 at range
    T | summarize make_list(x, -1)             at summarize

Give a step above 0 and a count of 0 or more.
";

pub(crate) const TYPE_CLASH: &str = "\
415 TypeClash

The columns of a key of join, or of one name in union, are of two types.

    T | join (T | project s = x) on s          at the last s

Convert one side, as by extend s = tostring(s).
";

pub(crate) const NOT_IN_PARTITION: &str = "\
416 NotInPartition

partition, join, lookup and union may not stand inside partition.

    T | partition by x (union T)               at union

Put it outside.
";

pub(crate) const NAME_TWICE: &str = "\
417 NameTwice

A let, or a step of scan, has a name that stands before.

    let a = 1; let a = 2; print a              at the second a

Give it another name.
";

pub(crate) const BAD_LITERAL: &str = "\
418 BadLiteral

The text of this literal does not read as its type.

    T | where t > datetime(2024-02-30)         at datetime
    T | where b == bool(TRUE)                  at bool

kql help literals has the forms; true, false and null are in lower case.
";

pub(crate) const NO_COLUMNS: &str = "\
419 NoColumns

The operator gives a result without columns.

    T | project x | project-away x             at project-away

Keep a column.
";

pub(crate) const PATTERN_HERE: &str = "\
420 PatternHere

A pattern call, matches regex or extract, may not stand here, or not as it is. It
stands in the where and extend that directly follow the name of a file's table.
Its pattern is a text in quotes, its group a number from 0 on, and its column a
string column of that table which no extend before it sets. 256 stand in a query.

    T | take 1 | where s matches regex \"a\"    at matches
    T | where x matches regex \"a\"             at matches
    T | extend y = extract(\"a\", -1, s)        at extract

Move it in front; kql live takes none. kql help patterns has more.
";

pub(crate) const BAD_PATTERN: &str = "\
501 BadPattern

The pattern is no regular expression, or one that is too large.

    T | where s matches regex \"(\"             at \"(\"

A terminal is told what is wrong. A backslash is written twice in \"..\", and once
in @\"..\"; there is no look-around and no \\1.
";

pub(crate) const NOT_A_VIEW: &str = "\
421 NotAView

A view of kql live --view keeps the groups of one summarize, of which distinct is
one: the query has to be it over the table, without a let of a table. It is told
where the query's text starts.

    T | count with kql live --view, at 1:1

Leave out --view: it changes no table.
";

/// The topics of these texts.
pub(crate) const TOPICS: &[Topic] = &[
    Topic {
        names: &["401"],
        text: UNKNOWN_COLUMN,
    },
    Topic {
        names: &["402"],
        text: UNKNOWN_FUNCTION,
    },
    Topic {
        names: &["403"],
        text: WRONG_ARGUMENTS,
    },
    Topic {
        names: &["404"],
        text: WRONG_TYPE,
    },
    Topic {
        names: &["405"],
        text: UNSUPPORTED_TYPE,
    },
    Topic {
        names: &["406"],
        text: UNSUPPORTED_FUNCTION,
    },
    Topic {
        names: &["407"],
        text: NOT_SERIALISED,
    },
    Topic {
        names: &["408"],
        text: WINDOW_HERE,
    },
    Topic {
        names: &["409"],
        text: NO_MOMENT,
    },
    Topic {
        names: &["410"],
        text: UNKNOWN_TABLE,
    },
    Topic {
        names: &["411"],
        text: COLUMN_TWICE,
    },
    Topic {
        names: &["412"],
        text: TOO_MANY_COLUMNS,
    },
    Topic {
        names: &["413"],
        text: BAD_STEP,
    },
    Topic {
        names: &["414"],
        text: BAD_RANGE,
    },
    Topic {
        names: &["415"],
        text: TYPE_CLASH,
    },
    Topic {
        names: &["416"],
        text: NOT_IN_PARTITION,
    },
    Topic {
        names: &["417"],
        text: NAME_TWICE,
    },
    Topic {
        names: &["418"],
        text: BAD_LITERAL,
    },
    Topic {
        names: &["419"],
        text: NO_COLUMNS,
    },
    Topic {
        names: &["420"],
        text: PATTERN_HERE,
    },
    Topic {
        names: &["421"],
        text: NOT_A_VIEW,
    },
    Topic {
        names: &["501"],
        text: BAD_PATTERN,
    },
];
