//! Each form of a phase: a query of it, and the phases that it has by several workers and by one.

/// How a phase is cut.
#[derive(Clone, Copy, Debug, PartialEq, Eq)]
pub(crate) enum Cut {
    /// Not at all.
    Whole,
    /// Into as many pieces as hold so many rows.
    Rows(u32),
    /// Into so many pieces, each a key of its own.
    Keys(u32),
}

/// The phases of a query: of a join those of its right side first, and then the rows that lead.
pub(crate) type Cuts = &'static [Cut];

/// A query over the table `T`, its phases by several workers, and by one.
pub(crate) type Form = (&'static str, Cuts, Cuts);

const WHOLE: Cuts = &[Cut::Whole];

const ROWS: Cuts = &[Cut::Rows(7)];

const ROWS_TWICE: Cuts = &[Cut::Rows(7), Cut::Rows(7)];

const LED_BY_RIGHT: Cuts = &[Cut::Rows(7), Cut::Rows(3)];

const ROWS_THEN_WHOLE: Cuts = &[Cut::Rows(7), Cut::Whole];

const KEYS: Cuts = &[Cut::Keys(3)];

/// Sums and counts by key.
pub(crate) const SUMS: &str = "T | summarize s = sum(x), n = count() by k";

/// A query of each form.
pub(crate) const FORMS: &[Form] = &[
    (SUMS, ROWS, WHOLE),
    ("T | distinct k", ROWS, WHOLE),
    ("T | top 3 by x asc", ROWS, WHOLE),
    ("T | top 2 by k asc", ROWS, WHOLE),
    (
        "T | serialize | extend s = row_cumsum(x), n = row_number()",
        ROWS_TWICE,
        WHOLE,
    ),
    ("T | serialize | extend p = prev(x)", ROWS, WHOLE),
    ("T | project k, y = x + 1", ROWS, WHOLE),
    (
        "T | where x > 1 | serialize | project s = row_cumsum(x), n = row_number()",
        &[Cut::Rows(7), Cut::Rows(5), Cut::Rows(5)],
        ROWS_THEN_WHOLE,
    ),
    ("T | where x > 3 | count", ROWS_THEN_WHOLE, ROWS_THEN_WHOLE),
    (
        "T | join kind=innerunique (T | where x > 3) on k",
        LED_BY_RIGHT,
        ROWS_THEN_WHOLE,
    ),
    (
        "T | join kind=inner (T | where x > 3) on k",
        ROWS_TWICE,
        ROWS_THEN_WHOLE,
    ),
    (
        "T | join kind=leftouter (T | where x > 3) on k",
        ROWS_TWICE,
        ROWS_THEN_WHOLE,
    ),
    (
        "T | join kind=rightouter (T | where x > 3) on k",
        LED_BY_RIGHT,
        ROWS_THEN_WHOLE,
    ),
    (
        "T | join kind=fullouter (T | where x > 3) on k",
        ROWS_TWICE,
        ROWS_THEN_WHOLE,
    ),
    (
        "T | join kind=leftsemi (T | where x > 3) on k",
        ROWS_TWICE,
        ROWS_THEN_WHOLE,
    ),
    (
        "T | join kind=rightsemi (T | where x > 3) on k",
        LED_BY_RIGHT,
        ROWS_THEN_WHOLE,
    ),
    (
        "T | join kind=leftanti (T | where x > 3) on k",
        ROWS_TWICE,
        ROWS_THEN_WHOLE,
    ),
    (
        "T | join kind=rightanti (T | where x > 3) on k",
        LED_BY_RIGHT,
        ROWS_THEN_WHOLE,
    ),
    (
        "T | lookup kind=leftouter (T | where x > 3) on k",
        ROWS_TWICE,
        ROWS_THEN_WHOLE,
    ),
    (
        "T | lookup kind=inner (T | where x > 3) on k",
        ROWS_TWICE,
        ROWS_THEN_WHOLE,
    ),
    ("T | serialize | scan with (step s: x > 1;)", WHOLE, WHOLE),
    (
        "T | serialize | partition by k (scan with (step s: x > 1;))",
        KEYS,
        WHOLE,
    ),
    ("T | partition by k (top 1 by x asc)", KEYS, WHOLE),
    (
        "T | mv-expand p = pack_array(k, x) to typeof(long)",
        ROWS,
        WHOLE,
    ),
    ("T | parse tostring(x) with y:long", ROWS, WHOLE),
    (
        "T | make-series s = sum(x) default = 0 on x from 0 to 5 step 2 by k",
        &[Cut::Rows(5)],
        WHOLE,
    ),
    (
        "let A = T | where x > 1 | serialize;\n\
        A | serialize | extend y = x + 10 | where y > 12 | join kind=inner (T | project k) on k | union (T | where x > 4)\n\
        | sort by k asc, x asc | partition by k (take 2) | take 5",
        &[
            Cut::Rows(7),
            Cut::Rows(5),
            Cut::Rows(5),
            Cut::Whole,
            Cut::Rows(4),
            Cut::Rows(7),
            Cut::Whole,
            Cut::Whole,
            Cut::Keys(3),
            Cut::Whole,
        ],
        &[
            Cut::Rows(7),
            Cut::Whole,
            Cut::Rows(5),
            Cut::Whole,
            Cut::Whole,
            Cut::Rows(7),
            Cut::Whole,
            Cut::Whole,
            Cut::Whole,
            Cut::Whole,
        ],
    ),
];
