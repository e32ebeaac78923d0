//! The operators of tables.

use crate::topic::Topic;

pub(crate) const WHERE: &str = "\
where E

Keeps the rows at which E is true, in order. A null is not true.

    N | where x > 1
";

pub(crate) const EXTEND: &str = "\
extend ITEM, ..

Computes every item over the input row. The items' columns are added at the end
in order, and an input column of an item's name is removed. Of a name that is
not given: kql help columns.

    Web | extend micros = ms * 1000, host = toupper(host)
";

pub(crate) const PROJECT: &str = "\
project ITEM, ..

Gives the items, in order, and no other column. The rows keep their order.

    Web | project seconds = ms / 1000, host, ms > 10
";

pub(crate) const PROJECT_AWAY: &str = "\
project-away NAME, ..

Leaves the named columns out; the others keep their order. One column at least
has to be left (419).

    Web | project-away ms
";

pub(crate) const PROJECT_KEEP: &str = "\
project-keep NAME, ..

Keeps the named columns alone, in the order of the input.

    Web | project-keep path, host
";

pub(crate) const PROJECT_RENAME: &str = "\
project-rename NEW = OLD, ..

Renames columns; all columns keep their place.

    Web | project-rename host = path, server = host
";

pub(crate) const TAKE: &str = "\
take N
limit N

Give the first N rows, in order. N is a constant of 0 or more (414).

    K | take 2
";

pub(crate) const COUNT: &str = "\
count

Gives one row with the number of rows, in the column Count. In summarize count()
is how many rows a group has: kql help aggregates.

    K | count
";

pub(crate) const SORT: &str = "\
sort by KEY, ..
order by KEY, ..

Rearranges the rows: the first key that tells two rows apart decides, and rows of
the same keys keep their order. The rows are serialised. A KEY is

    E [asc | desc] [nulls first | nulls last]

of any type but dynamic. It is descending unless asc is given. Ascending has nulls
first and descending nulls last, unless it is said otherwise.

    K | sort by k asc
";

pub(crate) const TOP: &str = "\
top N by KEY

Gives the first N rows of sort by KEY: descending unless asc is given, nulls
last or, ascending, first, and rows of the same key in their order. The rows are
serialised.

    K | top 3 by k asc nulls last
";

pub(crate) const DISTINCT: &str = "\
distinct NAME, ..
distinct *

Gives the first row of each combination of these columns, in order. Null is a
value like another.

    T | distinct a, b
";

pub(crate) const SUMMARIZE: &str = "\
summarize ITEM, .. [by KEY, ..]
summarize by KEY, ..

Gives for each group of rows with the same keys one row: the keys, then each
item over the group's rows. Groups stand in order of first occurrence, and null
is a key like another. Without by all rows are the one group, also where there
is none; with by and no rows there is no row. An item is an expression of
aggregate calls (kql help aggregates) and constants, and a KEY an item of any
type but dynamic.

    Log | where Level == \"Error\" | summarize count(), sum(Bytes) by bin(Ts, 5m), Host | sort by Ts asc
";

pub(crate) const MAKE_SERIES: &str = "\
make-series ITEM [default = D], .. on NAME from F to T step S [by KEY, ..]

Gives for each group of rows one row, in which each aggregate is an array over
the bins F, F + S and so on below T. A row falls in the bin at its axis NAME;
one whose axis is null, before F, or not before T is left out. Groups stand in
order of first occurrence, null is a key like another, and where no row is left
there is no row. An item is one call of count, countif, count_distinct,
count_distinctif, sum, sumif, min, minif, max or maxif. A bin without rows has
the default D: 0, 00:00:00, or null for a datetime, where none is given. The
columns are the keys, the items, and last the axis as an array of the bins, of
which there are at most 100,000.

    V | make-series s=sum(x) on t from 0 to 10 step 5 by g
";

pub(crate) const MV_EXPAND: &str = "\
mv-expand [kind = bag | array] ITEM [to typeof(TYPE)], ..

Takes dynamic values part by part: the elements of an array, the entries of a
bag (a bag of one entry each, or [key, value] with kind=array), another value
itself, and of a null one null. Each row gives, in place, as many rows as its
longest list of parts; shorter lists are padded with null. to typeof(TYPE)
converts the parts. An input column of an item's name is replaced in its place,
and any other item's column is added at the end.

    M | mv-expand a, b
";

pub(crate) const PARSE: &str = "\
parse [kind = simple | relaxed] E with P ..

Cuts the whole text E into pieces, one for each P: a string is that text, * is
any piece, and a column NAME or NAME:TYPE takes its piece, as a string unless a
type is given. In kind simple, the default, a piece must read as its column's
type; where there is no cut all new columns are absent. In kind relaxed a piece
that does not read is null. The earliest ends are taken, compared from the left.
A long column directly before * has the longest number that stands there, one
too great for a long too, or the empty piece. The rows keep their order; columns
are placed as by extend. A datetime before a string of one blank ends at its
date: take the date and the clock apart, and put them together by
todatetime(strcat(date, \" \", clock)).

    P | parse m with * \"id=\" Id:long \" \" Rest | project Id, Rest
";

pub(crate) const JOIN: &str = "\
join [kind = KIND] TABLE on ON, ..

An ON is a NAME that both sides have, or $left.NAME == $right.NAME. Two rows
match where each pair of keys is the same and not null. The answer has the left
columns and then the right ones; a right name that stands in it already gets the
smallest number from 1 at its end that gives a free name.

    innerunique (default)    as inner, over the first left row of each key
    inner                    for each left row, its matches in right order
    leftouter                as inner; a left row without a match in its place,
                             with absent right columns
    rightouter               for each right row, its matches in left order; a
                             right row without a match in its place
    fullouter                the rows of leftouter, then the right rows without a
                             match in right order
    leftsemi, leftanti       the left rows that have, or have not, a match
    rightsemi, rightanti     the right rows that have, or have not, a match

    L | join kind=inner (R) on k
";

pub(crate) const LOOKUP: &str = "\
lookup [kind = leftouter | inner] TABLE on ON, ..

As join of kind leftouter, the default, or inner, without the right keys.

    L | lookup (R) on k
";

pub(crate) const SERIALIZE: &str = "\
serialize [ITEM, ..]

Says that the order of the rows counts, so that window functions (kql help
window) and scan may stand behind it; with items it is extend. The rows are
those before, in order.

    W | serialize n = next(x) | project n
";

pub(crate) const SCAN: &str = "\
scan [with_match_id = NAME] [declare (NAME:TYPE [= D], ..)] with (STEP ..)

where a STEP is
    step NAME [output = all | last | none]: E [=> NAME = E, ..];

A machine that takes serialised rows one after another through its steps, from
the last to the first. Where step k - 1 holds a record and the condition E of k
is true, that record goes on to k; else, where k is the first or holds a record
and its condition is true, its record is replaced. The first step so begins a
new sequence, with the next match id. A record is the row with the declared
columns, each with what the step assigns or its default D; s.c reads column c of
the record of step s. output=all, the default, emits a new record at once, last
a record when it goes on, is cleared, or at the end, and none none. The answer
has the input's columns, the declared ones, and the match id.

    Ev
    | sort by i asc
    | scan with_match_id=m declare (n:long=0) with (
        step s1: e contains_cs \"A\" => n = 1;
        step s2: e contains_cs \"B\" => n = s1.i;
      )
";

pub(crate) const PARTITION: &str = "\
partition by NAME (OPERATOR | ..)

Applies the operators to the rows of each key of the column and gives the
results one after another, keys in order of first occurrence. Null is a key. The
rows of a key are serialised where the input is. partition, join, lookup and
union are refused in it (416).

    K | partition by g (top 1 by x)
";

/// The topics of these texts.
pub(crate) const TOPICS: &[Topic] = &[
    Topic {
        names: &["where"],
        text: WHERE,
    },
    Topic {
        names: &["extend"],
        text: EXTEND,
    },
    Topic {
        names: &["project"],
        text: PROJECT,
    },
    Topic {
        names: &["project-away"],
        text: PROJECT_AWAY,
    },
    Topic {
        names: &["project-keep"],
        text: PROJECT_KEEP,
    },
    Topic {
        names: &["project-rename"],
        text: PROJECT_RENAME,
    },
    Topic {
        names: &["take", "limit"],
        text: TAKE,
    },
    Topic {
        names: &["count"],
        text: COUNT,
    },
    Topic {
        names: &["sort", "order"],
        text: SORT,
    },
    Topic {
        names: &["top"],
        text: TOP,
    },
    Topic {
        names: &["distinct"],
        text: DISTINCT,
    },
    Topic {
        names: &["summarize"],
        text: SUMMARIZE,
    },
    Topic {
        names: &["make-series"],
        text: MAKE_SERIES,
    },
    Topic {
        names: &["mv-expand"],
        text: MV_EXPAND,
    },
    Topic {
        names: &["parse"],
        text: PARSE,
    },
    Topic {
        names: &["join"],
        text: JOIN,
    },
    Topic {
        names: &["lookup"],
        text: LOOKUP,
    },
    Topic {
        names: &["serialize"],
        text: SERIALIZE,
    },
    Topic {
        names: &["scan"],
        text: SCAN,
    },
    Topic {
        names: &["partition"],
        text: PARTITION,
    },
];
