ghost use Rattle.kql_cells.specs.Values.{IsMoment};

use kql_cells::MOMENT_TOP;
use kql_ticks::{
    Part, add_part, bin_at, borders, day_of_week, end_of, make_moment, part_of, print_moment,
    print_span, push_moment, push_span, read_moment, read_span, start_of,
};
use std::process::Abort;
use std::test::Fail;

const MIN: i64 = i64::MIN;

const MAX: i64 = i64::MAX;

// The datetime that a text is.
fn at(rt: &impl Abort, text: &str) -> i64
    ensures { IsMoment result }
{
    let x = read_moment(text).expect(rt, "a datetime");
    assert!(rt; 0 <= x && x <= MOMENT_TOP);
    x
}

#[test]
fn datetimes_are_read(rt: HostRuntime) {
    for (text, want) in [
        ("0001-01-01", Some(0)),
        ("9999-12-31 23:59:59.9999999", Some(MOMENT_TOP)),
        ("9999-12-31T23:59:59.9999999Z", Some(MOMENT_TOP)),
        ("2024-03-01", Some(638_448_480_000_000_000)),
        ("2024-03-01 10:05", Some(638_448_843_000_000_000)),
        ("2024-03-01T10:05Z", Some(638_448_843_000_000_000)),
        ("2024-03-01T10:07:30.5Z", Some(638_448_844_505_000_000)),
        ("2024-05-31T12:30:15.123456", Some(638_527_554_151_234_560)),
        ("2024-02-29", Some(638_447_616_000_000_000)),
        ("2000-02-29", Some(630_873_792_000_000_000)),
        ("1970-01-01", Some(621_355_968_000_000_000)),
        ("1900-03-01", Some(599_317_056_000_000_000)),
        ("1900-02-29", None),
        ("2023-02-29", None),
        ("2024-13-01", None),
        ("2024-00-01", None),
        ("2024-04-31", None),
        ("2024-01-00", None),
        ("0000-12-31", None),
        ("", None),
        ("2024-3-01", None),
        ("2024/03/01", None),
        ("2024-03-01Z", None),
        ("2024-03-01 ", None),
        ("2024-03-01  10:05", None),
        ("2024-03-01t10:05", None),
        ("2024-03-01 24:00", None),
        ("2024-03-01 23:60", None),
        ("2024-03-01 23:59:60", None),
        ("2024-03-01 1:05", None),
        ("2024-03-01 10:05:", None),
        ("2024-03-01 10:05:1", None),
        ("2024-03-01 10:05:01.", None),
        ("2024-03-01 10:05:01.1234567890", None),
        ("2024-03-01 10:05:01.1234567x", None),
        ("2024-03-01 10:05.5", None),
        ("2024-03-01 10:05:01z", None),
        ("2024-03-01 10:05:01ZZ", None),
        ("+024-03-01", None),
        ("2024-03/01", None),
        ("2024-03-01_10:05", None),
        ("2024-03-01 10.05", None),
        ("2024-03-01 10:05.01", None),
        ("2024-03-01 10:05:01,5", None),
        ("2024-03-01T", None),
        ("2024-03-01TZ", None),
        ("2024-03-0", None),
        ("2024-03-011", None),
        ("2024-0:-01", None),
        ("2024-0/-01", None),
        ("2024-03-0\u{e9}", None),
    ] {
        assert_eq!(rt; read_moment(text), want, "at {text}");
    }
}

#[test]
fn datetimes_with_a_zone_are_read(rt: HostRuntime) {
    for (text, want) in [
        ("2024-03-01T10:05+00:00", Some(638_448_843_000_000_000)),
        ("2024-03-01 10:05 UTC", Some(638_448_843_000_000_000)),
        ("2024-03-01T10:05+02:00", Some(638_448_771_000_000_000)),
        ("2024-03-01T10:05+0200", Some(638_448_771_000_000_000)),
        ("2024-03-01T10:05:00-01:30", Some(638_448_897_000_000_000)),
        ("2024-03-01 10:05:00.0-0130", Some(638_448_897_000_000_000)),
        ("2024-03-01T00:30+01:00", Some(638_448_462_000_000_000)),
        (
            "2024-03-01 10:05:01.12345678",
            Some(638_448_843_011_234_567),
        ),
        (
            "2024-03-01T10:05:01.123456789Z",
            Some(638_448_843_011_234_567),
        ),
        (
            "2024-03-01T10:05:01.123456799-23:59",
            Some(638_449_706_411_234_567),
        ),
        ("0001-01-01T00:00+00:01", None),
        ("0001-01-01T00:00-00:01", Some(600_000_000)),
        ("9999-12-31T23:59:59.9999999+00:00", Some(MOMENT_TOP)),
        ("9999-12-31T23:59:59.999999999+0000", Some(MOMENT_TOP)),
        ("9999-12-31T23:59-00:01", None),
        ("2024-03-01+02:00", None),
        ("2024-03-01 UTC", None),
        ("2024-03-01T10:05+24:00", None),
        ("2024-03-01T10:05+02:60", None),
        ("2024-03-01T10:05+02", None),
        ("2024-03-01T10:05+2:00", None),
        ("2024-03-01T10:05+02:00:00", None),
        ("2024-03-01T10:05+02:0", None),
        ("2024-03-01T10:05+", None),
        ("2024-03-01T10:05 +02:00", None),
        ("2024-03-01T10:05+02:00Z", None),
        ("2024-03-01T10:05Z+02:00", None),
        ("2024-03-01T10:05 Z", None),
        ("2024-03-01T10:05UTC", None),
        ("2024-03-01T10:05  UTC", None),
        ("2024-03-01T10:05 utc", None),
        ("2024-03-01T10:05 GMT", None),
    ] {
        assert_eq!(rt; read_moment(text), want, "at {text}");
    }
}

#[test]
fn datetimes_are_printed(rt: HostRuntime) -> Result<(), Fail> {
    for (text, want) in [
        ("0001-01-01", "0001-01-01T00:00:00.0000000Z"),
        (
            "9999-12-31 23:59:59.9999999",
            "9999-12-31T23:59:59.9999999Z",
        ),
        ("2024-02-29 01:02:03.04", "2024-02-29T01:02:03.0400000Z"),
        (
            "2024-03-01T00:30:00.123456789+01:00",
            "2024-02-29T23:30:00.1234567Z",
        ),
    ] {
        let printed = print_moment(rt.alloc(), at(&rt, text))?;
        assert_eq!(rt; printed.as_str(), want, "at {text}");
    }
    Ok(())
}

#[test]
fn timespans_are_read(rt: HostRuntime) {
    for (text, want) in [
        ("00:00:00", Some(0)),
        ("01:30:00", Some(54_000_000_000)),
        ("-01:30:00", Some(-54_000_000_000)),
        ("1.00:00:00", Some(864_000_000_000)),
        ("001.00:00:00", Some(864_000_000_000)),
        ("00:00:00.1", Some(1_000_000)),
        ("00:00:00.0000001", Some(1)),
        ("10675199.02:48:05.4775807", Some(MAX)),
        ("10675199.02:48:05.4775808", None),
        ("-10675199.02:48:05.4775808", Some(MIN)),
        ("-10675199.02:48:05.4775809", None),
        ("-1.5h", Some(-54_000_000_000)),
        ("2d", Some(1_728_000_000_000)),
        ("3m", Some(1_800_000_000)),
        ("4s", Some(40_000_000)),
        ("5ms", Some(50_000)),
        ("6microsecond", Some(60)),
        ("7tick", Some(7)),
        ("0.00000000000001d", None),
        ("0.03125tick", None),
        ("0.00000000003125d", Some(27)),
        ("1.50000000000000000000000s", Some(15_000_000)),
        ("-9223372036854775808tick", Some(MIN)),
        ("9223372036854775807tick", Some(MAX)),
        ("9223372036854775808tick", None),
        ("0000000000000000000000001tick", Some(1)),
        ("99999999999999999999999999d", None),
        ("", None),
        ("-", None),
        ("1", None),
        ("d", None),
        ("1.d", None),
        (".5d", None),
        ("1.5.5d", None),
        ("1 d", None),
        ("--1d", None),
        ("+1d", None),
        ("1D", None),
        ("1days", None),
        ("01:30", None),
        ("1:30:00", None),
        ("24:00:00", None),
        ("00:60:00", None),
        ("00:00:60", None),
        (".00:00:00", None),
        ("1 00:00:00", None),
        ("1.5.00:00:00", None),
        ("00:00:00.", None),
        ("00:00:00.12345678", None),
        ("00:00:00Z", None),
        ("00:00:0", None),
        ("00:00.00", None),
        ("00:00:00,1", None),
        ("1,00:00:00", None),
        ("1d ", None),
        (" 1d", None),
        ("1mss", None),
        ("1microsecon", None),
        ("1ticks", None),
        ("0.01microsecond", None),
        ("0.1microsecond", Some(1)),
        ("-0d", Some(0)),
        ("-00:00:00", Some(0)),
        ("0.00:00:00", Some(0)),
        ("-1.00:00:00.5", Some(-864_005_000_000)),
    ] {
        assert_eq!(rt; read_span(text), want, "at {text}");
    }
}

#[test]
fn timespans_are_printed(rt: HostRuntime) -> Result<(), Fail> {
    for (x, want) in [
        (0, "00:00:00"),
        (-54_000_000_000, "-01:30:00"),
        (864_000_000_000, "1.00:00:00"),
        (-1, "-00:00:00.0000001"),
        (1_000_000, "00:00:00.1000000"),
        (863_999_999_999, "23:59:59.9999999"),
        (8_640_000_000_000, "10.00:00:00"),
        (MAX, "10675199.02:48:05.4775807"),
        (MIN, "-10675199.02:48:05.4775808"),
    ] {
        let printed = print_span(rt.alloc(), x)?;
        assert_eq!(rt; printed.as_str(), want, "at {x}");
    }
    Ok(())
}

#[test]
fn datetimes_and_timespans_are_added_to_what_is_there(rt: HostRuntime) -> Result<(), Fail> {
    let mut out = Vec::new(rt.alloc());
    push_span(&mut out, -54_000_000_000)?;
    push_moment(&mut out, at(&rt, "2024-02-29 01:02:03.04"))?;
    push_span(&mut out, 864_000_000_001)?;
    assert_eq!(rt;
        out.as_slice(),
        b"-01:30:002024-02-29T01:02:03.0400000Z1.00:00:00.0000001".as_slice()
    );
    Ok(())
}

#[test]
fn bins_are_floored(rt: HostRuntime) {
    for (x, s, f, want) in [
        (-1, 5, 0, Some(-5)),
        (4, 5, 0, Some(0)),
        (5, 5, 0, Some(5)),
        (-5, 5, 0, Some(-5)),
        (7, 5, 1, Some(6)),
        (0, 5, 1, Some(-4)),
        (1, 5, 11, Some(1)),
        (7, 0, 0, None),
        (7, -5, 0, None),
        (MIN, 10, 0, None),
        (MIN, 1, 0, Some(MIN)),
        (MIN, MAX, MIN, Some(MIN)),
        (MAX, MAX, MIN, Some(MAX - 1)),
        (MAX, 10, 0, Some(9_223_372_036_854_775_800)),
        (0, 864_000_000_000, 0, Some(0)),
        (
            MOMENT_TOP,
            864_000_000_000,
            0,
            Some(3_155_378_112_000_000_000),
        ),
    ] {
        assert_eq!(rt; bin_at(x, s, f), want, "at {x}, {s}, {f}");
    }
}

// The starts of the day, week, month and year of a datetime.
fn starts(x: i64) -> [Option<i64>; 4]
    requires { IsMoment x }
{
    [
        start_of(Part::Day, x),
        start_of(Part::Week, x),
        start_of(Part::Month, x),
        start_of(Part::Year, x),
    ]
}

// Their last ticks.
fn ends(x: i64) -> [Option<i64>; 4]
    requires { IsMoment x }
{
    [
        end_of(Part::Day, x),
        end_of(Part::Week, x),
        end_of(Part::Month, x),
        end_of(Part::Year, x),
    ]
}

// The first ticks of days, or none where there is no day.
fn firsts(days: [&str; 4]) -> [Option<i64>; 4] {
    let [day, week, month, year] = days;
    [
        read_moment(day),
        read_moment(week),
        read_moment(month),
        read_moment(year),
    ]
}

// The last ticks of days, or none where there is no day.
fn lasts(days: [&str; 4]) -> [Option<i64>; 4] {
    let [day, week, month, year] = days;
    [last_of(day), last_of(week), last_of(month), last_of(year)]
}

fn last_of(day: &str) -> Option<i64> {
    read_moment(day)?.checked_add(863_999_999_999)
}

#[test]
fn periods_start_and_end(rt: HostRuntime) {
    // a datetime, the first days of its day, week, month and year, and the last ones; empty where one is out of range
    for (text, first, last) in [
        (
            "2024-03-01 10:05",
            ["2024-03-01", "2024-02-25", "2024-03-01", "2024-01-01"],
            ["2024-03-01", "2024-03-02", "2024-03-31", "2024-12-31"],
        ),
        (
            "0001-01-01",
            ["0001-01-01", "", "0001-01-01", "0001-01-01"],
            ["0001-01-01", "0001-01-06", "0001-01-31", "0001-12-31"],
        ),
        (
            "0001-01-07",
            ["0001-01-07", "0001-01-07", "0001-01-01", "0001-01-01"],
            ["0001-01-07", "0001-01-13", "0001-01-31", "0001-12-31"],
        ),
        (
            "9999-12-31 23:59:59.9999999",
            ["9999-12-31", "9999-12-26", "9999-12-01", "9999-01-01"],
            ["9999-12-31", "", "9999-12-31", "9999-12-31"],
        ),
        (
            "2024-12-31",
            ["2024-12-31", "2024-12-29", "2024-12-01", "2024-01-01"],
            ["2024-12-31", "2025-01-04", "2024-12-31", "2024-12-31"],
        ),
        (
            "2000-02-10",
            ["2000-02-10", "2000-02-06", "2000-02-01", "2000-01-01"],
            ["2000-02-10", "2000-02-12", "2000-02-29", "2000-12-31"],
        ),
        (
            "1900-02-28 12:00",
            ["1900-02-28", "1900-02-25", "1900-02-01", "1900-01-01"],
            ["1900-02-28", "1900-03-03", "1900-02-28", "1900-12-31"],
        ),
    ] {
        let x = at(&rt, text);
        assert_eq!(rt; starts(x), firsts(first), "starts at {text}");
        assert_eq!(rt; ends(x), lasts(last), "ends at {text}");
    }
}

#[test]
fn months_keep_the_day(rt: HostRuntime) {
    for (n, text, want) in [
        (1, "2024-01-31", "2024-02-29"),
        (1, "2023-01-31", "2023-02-28"),
        (-1, "2024-03-31 10:05", "2024-02-29 10:05"),
        (12, "2024-02-29", "2025-02-28"),
        (1, "1900-01-31", "1900-02-28"),
        (1, "2000-01-31", "2000-02-29"),
        (-11, "2024-12-31", "2024-01-31"),
        (
            0,
            "9999-12-31 23:59:59.9999999",
            "9999-12-31 23:59:59.9999999",
        ),
        (1, "9999-12-01", ""),
        (-1, "0001-01-31", ""),
        (119_987, "0001-01-31", "9999-12-31"),
        (MAX, "2024-01-31", ""),
        (MIN, "2024-01-31", ""),
    ] {
        let x = at(&rt, text);
        assert_eq!(rt;
            add_part(Part::Month, n, x),
            read_moment(want),
            "{n} months from {text}"
        );
    }
}

#[test]
fn years_keep_the_day(rt: HostRuntime) {
    // years, quarters, and the datetimes so many later
    for (n, text, year, quarter) in [
        (1, "2024-02-29", "2025-02-28", "2024-05-29"),
        (
            4,
            "2024-02-29 00:00:00.0000001",
            "2028-02-29 00:00:00.0000001",
            "2025-02-28 00:00:00.0000001",
        ),
        (1, "2023-11-30", "2024-11-30", "2024-02-29"),
        (-2023, "2024-02-29", "0001-02-28", "1518-05-29"),
        (-2024, "2024-02-29", "", "1518-02-28"),
        (-4, "1904-02-29", "1900-02-28", "1903-02-28"),
        (9998, "0001-01-01", "9999-01-01", "2500-07-01"),
        (1, "9999-12-31", "", ""),
        (-1, "0001-01-01", "", ""),
        (MAX, "2024-02-29", "", ""),
        (MIN, "2024-02-29", "", ""),
    ] {
        let x = at(&rt, text);
        assert_eq!(rt;
            add_part(Part::Year, n, x),
            read_moment(year),
            "{n} years from {text}"
        );
        assert_eq!(rt;
            add_part(Part::Quarter, n, x),
            read_moment(quarter),
            "{n} quarters from {text}"
        );
    }
}

// The datetimes that many weeks, days, hours, minutes, seconds, milliseconds and microseconds later.
fn moved(n: i64, x: i64) -> [Option<i64>; 7]
    requires { IsMoment x }
{
    [
        add_part(Part::Week, n, x),
        add_part(Part::Day, n, x),
        add_part(Part::Hour, n, x),
        add_part(Part::Minute, n, x),
        add_part(Part::Second, n, x),
        add_part(Part::Millisecond, n, x),
        add_part(Part::Microsecond, n, x),
    ]
}

#[test]
fn other_parts_are_exact(rt: HostRuntime) {
    let x = at(&rt, "2024-02-28 23:59:59.9999999");
    let want = [
        read_moment("2024-03-06 23:59:59.9999999"),
        read_moment("2024-02-29 23:59:59.9999999"),
        read_moment("2024-02-29 00:59:59.9999999"),
        read_moment("2024-02-29 00:00:59.9999999"),
        read_moment("2024-02-29 00:00:00.9999999"),
        read_moment("2024-02-29 00:00:00.0009999"),
        read_moment("2024-02-29 00:00:00.0000009"),
    ];
    assert_eq!(rt; moved(1, x), want);
    let week = add_part(Part::Week, 1, at(&rt, "2024-12-31"));
    assert_eq!(rt; week, read_moment("2025-01-07"));
}

#[test]
fn moves_end_with_the_range(rt: HostRuntime) {
    let none = [None, None, None, None, None, None, None];
    for (n, text) in [
        (MAX, "2024-02-28"),
        (MIN, "2024-02-28"),
        (-1, "0001-01-01"),
        (1, "9999-12-31 23:59:59.9999999"),
    ] {
        assert_eq!(rt; moved(n, at(&rt, text)), none, "{n} from {text}");
    }
    for text in ["0001-01-01", "9999-12-31 23:59:59.9999999"] {
        let x = at(&rt, text);
        let same = [
            Some(x),
            Some(x),
            Some(x),
            Some(x),
            Some(x),
            Some(x),
            Some(x),
        ];
        assert_eq!(rt; moved(0, x), same, "0 from {text}");
    }
}

// The borders of years, quarters, months, weeks, days, hours, minutes, seconds, milliseconds and microseconds.
fn passed(a: i64, b: i64) -> [Option<i64>; 10]
    requires a { IsMoment a }
    requires b { IsMoment b }
{
    [
        borders(Part::Year, a, b),
        borders(Part::Quarter, a, b),
        borders(Part::Month, a, b),
        borders(Part::Week, a, b),
        borders(Part::Day, a, b),
        borders(Part::Hour, a, b),
        borders(Part::Minute, a, b),
        borders(Part::Second, a, b),
        borders(Part::Millisecond, a, b),
        borders(Part::Microsecond, a, b),
    ]
}

#[test]
fn borders_are_counted(rt: HostRuntime) {
    for (a, b, want) in [
        (
            "2024-03-01",
            "2024-01-31",
            [
                0,
                0,
                2,
                4,
                30,
                720,
                43_200,
                2_592_000,
                2_592_000_000,
                2_592_000_000_000,
            ],
        ),
        (
            "2023-12-31 23:59:59.9999999",
            "2024-01-01",
            [-1, -1, -1, 0, -1, -1, -1, -1, -1, -1],
        ),
        (
            "2024-03-03",
            "2024-03-02 23:59:59.9999",
            [0, 0, 0, 1, 1, 1, 1, 1, 1, 100],
        ),
        (
            "2025-01-04 00:00:00.0019",
            "2025-01-04",
            [0, 0, 0, 0, 0, 0, 0, 0, 1, 1900],
        ),
        (
            "2025-01-05",
            "2024-12-31",
            [
                1,
                1,
                1,
                1,
                5,
                120,
                7200,
                432_000,
                432_000_000,
                432_000_000_000,
            ],
        ),
        (
            "9999-12-31 23:59:59.9999999",
            "0001-01-01",
            [
                9998,
                39_995,
                119_987,
                521_722,
                3_652_058,
                87_649_415,
                5_258_964_959,
                315_537_897_599,
                315_537_897_599_999,
                315_537_897_599_999_999,
            ],
        ),
        (
            "0001-01-01",
            "9999-12-31 23:59:59.9999999",
            [
                -9998,
                -39_995,
                -119_987,
                -521_722,
                -3_652_058,
                -87_649_415,
                -5_258_964_959,
                -315_537_897_599,
                -315_537_897_599_999,
                -315_537_897_599_999_999,
            ],
        ),
    ] {
        let [
            year,
            quarter,
            month,
            week,
            day,
            hour,
            minute,
            second,
            milli,
            micro,
        ] = want;
        let want = [
            Some(year),
            Some(quarter),
            Some(month),
            Some(week),
            Some(day),
            Some(hour),
            Some(minute),
            Some(second),
            Some(milli),
            Some(micro),
        ];
        assert_eq!(rt; passed(at(&rt, a), at(&rt, b)), want, "from {b} to {a}");
    }
}

// The year, quarter, month, day, day of the year, hour, minute, second and millisecond of a datetime.
fn fields(x: i64) -> [Option<i64>; 9]
    requires { IsMoment x }
{
    [
        part_of(Part::Year, x),
        part_of(Part::Quarter, x),
        part_of(Part::Month, x),
        part_of(Part::Day, x),
        part_of(Part::DayOfYear, x),
        part_of(Part::Hour, x),
        part_of(Part::Minute, x),
        part_of(Part::Second, x),
        part_of(Part::Millisecond, x),
    ]
}

#[test]
fn fields_are_told(rt: HostRuntime) {
    for (text, want) in [
        ("0001-01-01", [1, 1, 1, 1, 1, 0, 0, 0, 0]),
        (
            "2024-02-29 13:14:15.0169",
            [2024, 1, 2, 29, 60, 13, 14, 15, 16],
        ),
        ("2024-12-31", [2024, 4, 12, 31, 366, 0, 0, 0, 0]),
        (
            "1900-03-01 00:00:59.9999999",
            [1900, 1, 3, 1, 60, 0, 0, 59, 999],
        ),
        (
            "9999-12-31 23:59:59.9999999",
            [9999, 4, 12, 31, 365, 23, 59, 59, 999],
        ),
    ] {
        let [
            year,
            quarter,
            month,
            day,
            place,
            hour,
            minute,
            second,
            milli,
        ] = want;
        let want = [
            Some(year),
            Some(quarter),
            Some(month),
            Some(day),
            Some(place),
            Some(hour),
            Some(minute),
            Some(second),
            Some(milli),
        ];
        assert_eq!(rt; fields(at(&rt, text)), want, "at {text}");
    }
}

#[test]
fn days_are_counted_from_sunday(rt: HostRuntime) {
    for (text, days) in [
        ("2024-03-01 10:05", 5),
        ("2024-03-02 23:59:59.9999999", 6),
        ("2024-03-03", 0),
        ("0001-01-01", 1),
        ("9999-12-31", 5),
    ] {
        assert_eq!(rt;
            day_of_week(at(&rt, text)) / 864_000_000_000,
            days,
            "at {text}"
        );
    }
}

#[test]
fn datetimes_are_made(rt: HostRuntime) {
    for (year, month, day, hour, minute, want) in [
        (2024, 2, 29, 10, 5, "2024-02-29 10:05"),
        (1, 1, 1, 0, 0, "0001-01-01"),
        (9999, 12, 31, 23, 59, "9999-12-31 23:59"),
        (2023, 2, 29, 0, 0, ""),
        (0, 1, 1, 0, 0, ""),
        (10_000, 1, 1, 0, 0, ""),
        (2024, 13, 1, 0, 0, ""),
        (2024, 1, -1, 0, 0, ""),
        (2024, 1, 1, 24, 0, ""),
        (2024, 1, 1, 0, 60, ""),
        (MAX, MAX, MAX, MAX, MAX, ""),
    ] {
        assert_eq!(rt;
            make_moment(year, month, day, hour, minute),
            read_moment(want),
            "{year}-{month}-{day}"
        );
    }
}
