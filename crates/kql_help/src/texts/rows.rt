//! Functions over several rows.

use crate::topic::Topic;

pub(crate) const WINDOW: &str = "\
Window functions, over serialised rows: of range, sort, top and serialize, until
an operator that gives another order

    prev(c, k, d) next(c, k, d)  column c of the row k places before or after,
                                 else d; k is 1 and d absent unless given
    row_cumsum(x, restart)       the exact sum of x since the last row at which
                                 restart is true, else since the first; nulls add
                                 nothing, and what does not fit is null
    row_number(start, restart)   start, or 1, and one more for each row since

where, extend, project and serialize may hold them. extend, mv-expand, parse,
project and its kin, take, where and scan keep the rows serialised.

    W | serialize | extend s = row_cumsum(x, g != prev(g)), p = prev(x, 1, -1)
";

pub(crate) const AGGREGATES: &str = "\
Aggregates, in summarize; make-series takes those marked *

    count() *                how many rows                          count() is 5
    countif(p) *             at which p is true                     countif(c) is 3
    count_distinct(x) *      how many distinct values not null
                                                         count_distinct(x) is 3
    count_distinctif(x, p) *                        count_distinctif(x, c) is 1
    sum(x) *                 the exact sum of those not null        sum(x) is 15
    sumif(x, p) *                                             sumif(x, c) is 6
    min(x) *                 the least not null                     min(x) is 3
    minif(x, p) *                                        minif(x, not(c)) is 5
    max(x) *                 the greatest not null                  max(x) is 5
    maxif(x, p) *                                             maxif(x, c) is 3
    make_list(x)             the values not null, in order
                                                  make_list(x) is [3,5,4,3]
    make_list(x, n)          the first n of them
    make_list_if(x, p)                            make_list_if(x, c) is [3,3]
    make_set(x)              the values not null, each once
                                                  make_set(x) is [3,5,4]
    make_set(x, n)           the first n of them
    make_set_if(x, p)                             make_set_if(x, c) is [3]
    arg_max(e, d, ..)        the greatest e not null, and the columns d at the first
                             row that has it      arg_max(x, g) is 5, a
    arg_min(e, d, ..)        the same of the least
                                                  arg_min(x, c) is 3, true
    take_any(d, ..)          the columns d at the first row
                                                  take_any(g, x) is a, 3
    binary_all_and(x)        by bits, of the longs not null
                                                  binary_all_and(x) is 0
    binary_all_or(x)                              binary_all_or(x) is 7
    binary_all_xor(x)                             binary_all_xor(x) is 1

Those with if look at the rows at which p is true. The values told are those of the
rows g,x:long,c:bool of a,3,true and a,,true and a,5,false and b,4, and a,3,true.
Of nothing counts and sums are 0, lists and sets [], arg_max, arg_min and take_any
absent, and all others null; a sum out of range is null. There is no avg: the whole
part of the mean is sum(x) / countif(isnotnull(x)).

    Web | summarize First = min(Time), arg_max(Time, Path), Requests = count() by Client
";

/// The topics of these texts.
pub(crate) const TOPICS: &[Topic] = &[
    Topic {
        names: &["window", "prev", "next", "row_cumsum", "row_number"],
        text: WINDOW,
    },
    Topic {
        names: &[
            "aggregates",
            "countif",
            "count_distinct",
            "count_distinctif",
            "sum",
            "sumif",
            "min",
            "minif",
            "max",
            "maxif",
            "make_list",
            "make_list_if",
            "make_set",
            "make_set_if",
            "arg_max",
            "arg_min",
            "take_any",
            "binary_all_and",
            "binary_all_or",
            "binary_all_xor",
        ],
        text: AGGREGATES,
    },
];
