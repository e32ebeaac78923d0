use csv_io::*;
use kql_cells::{CellRef, Schema};
use kql_values::Table;
use std::alloc::{AllocError, Global};
use std::str;
use std::test::Fail;

// A letter for each cell, row by row: what it is.
fn forms_of(alloc: Global, table: &Table) -> Result<String, AllocError> {
    let mut forms = String::new(alloc);
    for i in 0..table.len() {
        for j in 0..table.schema().columns().len() {
            forms.push(match table.cell(i, j) {
                CellRef::Null => '-',
                CellRef::Bool(_) => 'b',
                CellRef::Long(_) => 'l',
                CellRef::Text(_) => 't',
                CellRef::Moment(_) => 'm',
                CellRef::Span(_) => 's',
                CellRef::Dynamic(_) => 'd',
            })?;
        }
    }
    Ok(forms)
}

// Whether a table has these cells and prints as this text.
fn is_shown(alloc: Global, table: &Table, forms: &str, text: &str) -> Result<bool, AllocError> {
    let found = forms_of(alloc, table)?;
    if found.as_str() != forms {
        return Ok(false);
    }
    let printed = table_text(alloc, table)?;
    Ok(printed.as_slice() == text.as_bytes())
}

// The first file that is not a table of its cells, which prints as its text; nothing where each is.
fn wrong_table(
    alloc: Global,
    rows: &[(&'static str, &str, &str)],
) -> Result<&'static str, DataFault> {
    for (file, forms, text) in rows {
        let table = load(alloc, file.as_bytes())?;
        if !is_shown(alloc, &table, forms, text)? {
            return Ok(*file);
        }
    }
    Ok("")
}

// Files, a letter for each of their cells, and what their tables print as.
const TABLES: &[(&str, &str, &str)] = &[
    ("k,x:long\n", "", "k,x\n"),
    ("k:long,v\n2,a\n,b\n1,c\n", "lt-tlt", "k,v\n2,a\n,b\n1,c\n"),
    ("x:long\n1\n\"\"\n2\n", "l-l", "x\n1\n\"\"\n2\n"),
    ("v\n\"\"\nw\n", "tt", "v\n\"\"\nw\n"),
    (
        "Ts:datetime,Note\n2024-01-01,\"two\nlines\"\n",
        "mt",
        "Ts,Note\n2024-01-01T00:00:00.0000000Z,\"two\nlines\"\n",
    ),
    (
        "a:datetime,b:timespan\n2024-03-01 10:05,36h\n,\n2024-03-01T10:07:30.5Z,-1.5h\n",
        "ms--ms",
        "a,b\n2024-03-01T10:05:00.0000000Z,1.12:00:00\n,\n2024-03-01T10:07:30.5000000Z,-01:30:00\n",
    ),
    (
        "s:timespan\n10675199.02:48:05.4775807\n-10675199.02:48:05.4775808\n",
        "ss",
        "s\n10675199.02:48:05.4775807\n-10675199.02:48:05.4775808\n",
    ),
    (
        "a:dynamic,b:dynamic\n\"[1,2]\",\"[7,8,9]\"\n[],[]\n,5\n",
        "dddd-d",
        "a,b\n\"[1,2]\",\"[7,8,9]\"\n[],[]\n,5\n",
    ),
    (
        "d:dynamic\n\"{\"\"b\"\":[1,2.5],\"\"a\"\":true}\"\nnope\nnull\n\"\"\n",
        "dd--",
        "d\n\"{\"\"a\"\":true,\"\"b\"\":[1,null]}\"\n\"\"\"nope\"\"\"\n\"\"\n\"\"\n",
    ),
    ("a:datetime,b:timespan,c:dynamic\n", "", "a,b,c\n"),
    (
        "t\n\"a\"\"b\"\n\"c,d\"\n e \na\"b\n\"a\"b\n",
        "ttttt",
        "t\n\"a\"\"b\"\n\"c,d\"\n e \n\"a\"\"b\"\nab\n",
    ),
    ("\u{feff}a\n1\n", "t", "a\n1\n"),
    ("\u{feff}\u{feff}a\n1\n", "t", "\u{feff}a\n1\n"),
    ("a,b\r\n1,2\r\n3,4\r\n", "tttt", "a,b\n1,2\n3,4\n"),
    ("a,b\r1,2\r", "tt", "a,b\n1,2\n"),
    ("a,b\n1,2", "tt", "a,b\n1,2\n"),
    ("a,b\n1,\"2", "tt", "a,b\n1,2\n"),
    ("\n\na:long\n\n1\n\n", "l", "a\n1\n"),
    ("a", "", "a\n"),
    ("a:", "", "a:\n"),
    ("a:l", "", "a:l\n"),
    ("a:lo", "", "a:lo\n"),
    ("a:lon", "", "a:lon\n"),
    ("a:long", "", "a\n"),
    ("a:long,b", "", "a,b\n"),
    ("a:long,b\n", "", "a,b\n"),
    ("a:long,b\n1,", "lt", "a,b\n1,\n"),
    ("a:long,b\n1,p", "lt", "a,b\n1,p\n"),
    ("a:long,b\n1,p\n", "lt", "a,b\n1,p\n"),
    (
        "a:Long,a:b:long,c:string,long,:x,d:\nu,1,v,w,,z\n",
        "tltttt",
        "a:Long,a:b,c,long,:x,d:\nu,1,v,w,,z\n",
    ),
    ("a,A,\"b\":long\n1,2,3\n", "ttl", "a,A,b\n1,2,3\n"),
    (
        "a:int:long,a:long:string,:,a:long \n1,2,3,4\n",
        "lttt",
        "a:int,a:long,:,a:long \n1,2,3,4\n",
    ),
    ("\u{feff}a:long\n5\n", "l", "a\n5\n"),
    ("\u{feff}\"a\",b\n1,2\n", "tt", "a,b\n1,2\n"),
    ("a:long,b\r\n\r\n1,2\r\n", "lt", "a,b\n1,2\n"),
    ("t\n\"a\rb\"\nc\u{feff}\n", "tt", "t\n\"a\rb\"\nc\u{feff}\n"),
    (
        "d:dynamic\n2.5\n [1] \n\"{\"\"a\"\":1,\"\"a\"\":2}\"\n",
        "-dd",
        "d\n\"\"\n[1]\n\"{\"\"a\"\":2}\"\n",
    ),
    (
        "b:bool\nTRUE\nfalse\nTrUe\nFALSE\n\"\"\n",
        "bbbb-",
        "b\ntrue\nfalse\ntrue\nfalse\n\"\"\n",
    ),
    (
        "x:long\n-9223372036854775808\n9223372036854775807\n007\n-0\n-007\n00000000000000000000001\n",
        "llllll",
        "x\n-9223372036854775808\n9223372036854775807\n7\n0\n-7\n1\n",
    ),
    // Blanks round a cell, and cells of blanks alone.
    (
        "a:long,b:bool,c:timespan\n1, true,\t1h \n -5 ,FALSE\t, \n\t,  ,\" 2d\"\n",
        "lbslb---s",
        "a,b,c\n1,true,01:00:00\n-5,false,\n,,2.00:00:00\n",
    ),
    ("a:long\n \n5\n", "-l", "a\n\"\"\n5\n"),
    // Datetimes with an offset, and of the width of those that are printed.
    (
        "t:datetime\n2024-03-01T10:05+02:00\n 2024-03-01 10:05 UTC \n2024-03-01T10:05:01.123456789-0130\n",
        "mmm",
        "t\n2024-03-01T08:05:00.0000000Z\n2024-03-01T10:05:00.0000000Z\n2024-03-01T11:35:01.1234567Z\n",
    ),
    (
        "t:datetime\n2024-03-01T10:05:01.1234567Z\n2024-03-01T10:05:01.12+00:00\n2024-03-01T10:05:01.12-23:59\n2024-03-01T10:05:01.12345678\n2024-03-01T10:05:02.1234567Z\n",
        "mmmmm",
        "t\n2024-03-01T10:05:01.1234567Z\n2024-03-01T10:05:01.1200000Z\n2024-03-02T10:04:01.1200000Z\n2024-03-01T10:05:01.1234567Z\n2024-03-01T10:05:02.1234567Z\n",
    ),
    // The first field in quotes stands in a later record.
    ("a,b\n1,2\n\"3\",4\n5,6\n", "tttttt", "a,b\n1,2\n3,4\n5,6\n"),
    ("a,b\n\n1,\"2\"\n", "tt", "a,b\n1,2\n"),
    ("a,b\r1,2\r\"3\",4\r", "tttt", "a,b\n1,2\n3,4\n"),
    (
        "a,b\r\n1,2\r\n\"x\r\ny\",4\r\n\r\n5,6\r\n",
        "tttttt",
        "a,b\n1,2\n\"x\r\ny\",4\n5,6\n",
    ),
    // A byte order mark is left out at the start of the file alone.
    ("a\n\u{feff}x\n\"y\"\n", "tt", "a\n\u{feff}x\ny\n"),
    ("a,b\n\u{feff},\"q\"\n", "tt", "a,b\n\u{feff},q\n"),
    ("a\n1\n\u{feff}\"b\n", "tt", "a\n1\n\"\u{feff}\"\"b\"\n"),
    // Fields of 15, 16, 17, 31, 32 and 33 bytes.
    (
        "a,b,c\nabcdefghijklmno,abcdefghijklmnop,abcdefghijklmnopq\n0123456789abcdef0123456789abcde,0123456789abcdef0123456789abcdef,0123456789abcdef0123456789abcdef0",
        "tttttt",
        "a,b,c\nabcdefghijklmno,abcdefghijklmnop,abcdefghijklmnopq\n0123456789abcdef0123456789abcde,0123456789abcdef0123456789abcdef,0123456789abcdef0123456789abcdef0\n",
    ),
    // A byte that calls for quotes, at either end of 16, 17, 32 and 33 bytes.
    (
        "a\n\"abcdefghijklmno,\"\n\",abcdefghijklmno\"\n\"abcdefghijklmnop,\"\n\",abcdefghijklmnop\"\n\"0123456789abcdef0123456789abcde,\"\n\"0123456789abcdef0123456789abcdef,\"\nabcdefghijklmnop\n",
        "ttttttt",
        "a\n\"abcdefghijklmno,\"\n\",abcdefghijklmno\"\n\"abcdefghijklmnop,\"\n\",abcdefghijklmnop\"\n\"0123456789abcdef0123456789abcde,\"\n\"0123456789abcdef0123456789abcdef,\"\nabcdefghijklmnop\n",
    ),
    // Doubled quotes behind and before 16 bytes and more, and a record's other fields with them.
    (
        "a,b,c\nabcdefghijklmnopqrstuvw,\"0123456789abcdef\"\"0123456789abcdefg\",x\r\n\"\"\"a,b\r\nc\"\"\",0123456789abcdef,\"\"\"\"\r\ny,\"\"\"\"\"\",\"z\"\"",
        "ttttttttt",
        "a,b,c\nabcdefghijklmnopqrstuvw,\"0123456789abcdef\"\"0123456789abcdefg\",x\n\"\"\"a,b\r\nc\"\"\",0123456789abcdef,\"\"\"\"\ny,\"\"\"\"\"\",\"z\"\"\"\n",
    ),
    // From day to day and back.
    (
        "t:datetime,x\n2024-03-01T23:59:59.9999999Z,a\n2024-03-02T00:00:00.0000000Z,b\n2024-03-02T00:00:00.0000001Z,c\n2024-03-01T23:59:59.9999999Z,d\n,e\n0001-01-01T00:00:00.0000000Z,f\n9999-12-31T23:59:59.9999999Z,g\n",
        "mtmtmtmt-tmtmt",
        "t,x\n2024-03-01T23:59:59.9999999Z,a\n2024-03-02T00:00:00.0000000Z,b\n2024-03-02T00:00:00.0000001Z,c\n2024-03-01T23:59:59.9999999Z,d\n,e\n0001-01-01T00:00:00.0000000Z,f\n9999-12-31T23:59:59.9999999Z,g\n",
    ),
];

#[test]
fn files_that_are_tables(rt: HostRuntime) -> Result<(), Fail> {
    let wrong = wrong_table(rt.alloc(), TABLES)?;
    assert_eq!(rt; wrong, "");
    Ok(())
}

// The code, the row and the column of a file's refusal, or zeros.
fn refusal(alloc: Global, file: &[u8]) -> (u32, u64, u64) {
    match load(alloc, file) {
        Ok(_table) => (0, 0, 0),
        Err(DataFault::Refused { code, row, column }) => (code, row, column),
        Err(DataFault::OutOfMemory) => (1, 0, 0),
    }
}

// The first file that is refused otherwise than with this code, in this row and column; nothing where each is refused so.
fn wrong_refusal(alloc: Global, rows: &[(&'static str, u32, u64, u64)]) -> &'static str {
    for (file, code, row, column) in rows {
        if refusal(alloc, file.as_bytes()) != (*code, *row, *column) {
            return *file;
        }
    }
    ""
}

// Headers, with the code and the column of their refusals.
const HEADERS: &[(&str, u32, u64, u64)] = &[
    ("", 302, 0, 0),
    ("\n\r\n", 302, 0, 0),
    ("\u{feff}", 302, 0, 0),
    (":long\n", 303, 0, 1),
    ("a,,b\n", 303, 0, 2),
    ("\"\"\n", 303, 0, 1),
    ("\"\"", 303, 0, 1),
    ("a:int\n", 303, 0, 1),
    ("a,b:real\n", 303, 0, 2),
    ("a:double\n", 303, 0, 1),
    ("a:decimal\n", 303, 0, 1),
    ("a:guid\n", 303, 0, 1),
    ("a:date\n", 303, 0, 1),
    ("a:b:time\n", 303, 0, 1),
    (":datetime\n", 303, 0, 1),
    ("a:long,", 303, 0, 2),
    ("a:datetime,a:dynamic\n", 304, 0, 2),
    ("a,a:long\n", 304, 0, 2),
    ("a:b:long,a:b\n", 304, 0, 2),
    ("a:Long,a:Long\n", 304, 0, 2),
    ("\u{feff}a,a\n", 304, 0, 2),
    ("a,b,a,c:int\n", 304, 0, 3),
    ("a:int,b,b\n", 303, 0, 1),
    ("a,b:int\n1\n", 303, 0, 2),
];

#[test]
fn headers_that_are_refused(rt: HostRuntime) {
    assert_eq!(rt; wrong_refusal(rt.alloc(), HEADERS), "");
}

// Files, with the code, the row and the column of their refusals.
const ROWS: &[(&str, u32, u64, u64)] = &[
    ("a,b\n1,2\n3\n", 305, 2, 1),
    ("a\n1,2\n", 305, 1, 2),
    ("a,b\n1", 305, 1, 1),
    ("a:long,b\n1", 305, 1, 1),
    ("a:long,b\n1\nx,1\n", 305, 1, 1),
    ("a:long,b\nx,1\n1\n", 306, 1, 1),
    (
        "a:long,t:datetime\n1,2024-01-01\n2,\n3,2024-13-01\n",
        306,
        3,
        2,
    ),
    ("t:datetime\n2024-01-01T10\n", 306, 1, 1),
    ("t:datetime\n2024-01-01T10:00 +02:00\n", 306, 1, 1),
    ("t:datetime\n2024-01-01T10:00+24:00\n", 306, 1, 1),
    (
        "t:datetime\n0001-01-01T00:00\n0001-01-01T00:00+00:01\n",
        306,
        2,
        1,
    ),
    ("t:timespan\n10:00\n", 306, 1, 1),
    ("a:dynamic,b:timespan\n{,5\n", 306, 1, 2),
    ("a:long,b\nx\n", 305, 1, 1),
    ("a:long\nx\n1,2\n", 306, 1, 1),
    ("a:long,b:bool\n1,true\nx,maybe\n", 306, 2, 1),
    ("a:long,b:bool\n1,yes\n", 306, 1, 2),
    ("a:long\n\n5\n\nabc\n", 306, 2, 1),
    ("a:long\n+5\n", 306, 1, 1),
    ("a:long\n1.5\n", 306, 1, 1),
    ("a:long\n5 5\n", 306, 1, 1),
    ("a:long\n- 5\n", 306, 1, 1),
    ("a:long\n\u{a0}5\n", 306, 1, 1),
    ("a:long\nNULL\n", 306, 1, 1),
    ("a:long\n-\n", 306, 1, 1),
    ("a:long\n--5\n", 306, 1, 1),
    ("a:long\n5-\n", 306, 1, 1),
    ("a:long\n-+5\n", 306, 1, 1),
    ("a:long\n1_0\n", 306, 1, 1),
    ("a:long\n0x1\n", 306, 1, 1),
    ("a:long\n9223372036854775808\n", 306, 1, 1),
    ("a:long\n-9223372036854775809\n", 306, 1, 1),
    ("a:bool\n1\n", 306, 1, 1),
    ("a:bool\n tru e\n", 306, 1, 1),
    ("a:bool\ntrué\n", 306, 1, 1),
    ("a:bool\nfalſe\n", 306, 1, 1),
    ("a:bool\nｔｒｕｅ\n", 306, 1, 1),
    ("s:timespan\n10675199.02:48:05.4775808\n", 306, 1, 1),
    ("s:timespan\n-10675199.02:48:05.4775809\n", 306, 1, 1),
];

#[test]
fn rows_that_are_refused(rt: HostRuntime) {
    assert_eq!(rt; wrong_refusal(rt.alloc(), ROWS), "");
}

// Bytes that are no text, with how many of them are.
const BYTES: &[(&[u8], u64)] = &[
    (b"a\xff", 1),
    (b"\xef\xbb\xbfa\nb\xc3", 6),
    (b":long\n\xff", 6),
    (b"\xed\xa0\x80", 0),
    (b"a\xe2\x82", 1),
    (b"\xc0\x80", 0),
    (b"\xf4\x90\x80\x80", 0),
    (b"a,b\n1\n\xff", 6),
];

// The place of the first file that is refused otherwise; how many there are where each is refused so.
fn wrong_bytes(alloc: Global, rows: &[(&[u8], u64)]) -> usize {
    for (i, (file, column)) in rows.iter().enumerate() {
        if refusal(alloc, file) != (301, 0, *column) {
            return i;
        }
    }
    rows.len()
}

#[test]
fn files_that_are_no_text(rt: HostRuntime) {
    assert_eq!(rt; wrong_bytes(rt.alloc(), BYTES), 8);
}

// A header of so many columns and a last one of this name.
fn wide(alloc: Global, count: u32, last: &str) -> Result<String, AllocError> {
    let mut header = String::new(alloc);
    for i in 0..count {
        write!(header, "c{i},")?;
    }
    write!(header, "{last}\n")?;
    Ok(header)
}

fn wide_refusal(alloc: Global, count: u32, last: &str) -> Result<(u32, u64, u64), AllocError> {
    let header = wide(alloc, count, last)?;
    Ok(refusal(alloc, header.as_bytes()))
}

#[test]
fn the_widest_header(rt: HostRuntime) -> Result<(), Fail> {
    let header = wide(rt.alloc(), 255, "last")?;
    let table = load(rt.alloc(), header.as_bytes())?;
    assert_eq!(rt; table.schema().columns().len(), 256);
    let printed = table_text(rt.alloc(), &table)?;
    assert_eq!(rt; printed.as_slice(), header.as_bytes());
    assert_eq!(rt; wide_refusal(rt.alloc(), 256, "last")?, (303, 0, 257));
    assert_eq!(rt; wide_refusal(rt.alloc(), 256, "c0")?, (303, 0, 257));
    assert_eq!(rt; wide_refusal(rt.alloc(), 255, "c0")?, (304, 0, 256));
    Ok(())
}

// The text behind the first line.
fn lines_after(text: &str) -> &str {
    match text.split_once('\n') {
        Some((_, rest)) => rest,
        None => "",
    }
}

#[test]
fn a_printed_table_loads_again(rt: HostRuntime) -> Result<(), Fail> {
    let alloc = rt.alloc();
    let header = "b:bool,l:long,t:string,m:datetime,s:timespan,d:dynamic\n";
    let rows =
        "true,-5,\"x, \"\"y\"\"\nz\",2024-03-01T10:04:59.9999999Z,-1.12:00:00.5000000,\"[1,null,\"\"a\"\"]\"\n,,,,,\nfalse,0,p,0001-01-01T00:00:00.0000000Z,00:00:00,\"\"\"nope\"\"\"\n";
    let mut text = String::from_str(alloc, header)?;
    text.push_str(rows)?;
    for _ in 0..2 {
        let table = load(alloc, text.as_bytes())?;
        let found = forms_of(alloc, &table)?;
        assert_eq!(rt; found.as_str(), "bltmsd--t---bltmsd");
        let printed = table_text(alloc, &table)?;
        let lines = lines_after(str::from_utf8(printed.as_slice()).unwrap_or(""));
        assert_eq!(rt; lines, rows);
        text = String::from_str(alloc, header)?;
        text.push_str(lines)?;
    }
    Ok(())
}

#[test]
fn a_file_of_many_rows(rt: HostRuntime) -> Result<(), Fail> {
    let alloc = rt.alloc();
    let mut text = String::from_str(alloc, "x:long,t\n")?;
    for i in 0..20000 {
        write!(text, "{i},row {i}\n")?;
    }
    let table = load(alloc, text.as_bytes())?;
    assert_eq!(rt; table.len(), 20000);
    let printed = table_text(alloc, &table)?;
    let lines = lines_after(str::from_utf8(printed.as_slice()).unwrap_or(""));
    assert_eq!(rt; lines, lines_after(text.as_str()));
    Ok(())
}

// A record of no field is two quotes, as the crate `csv` writes it.
#[test]
fn a_table_without_columns(rt: HostRuntime) -> Result<(), Fail> {
    let alloc = rt.alloc();
    let table = Table::empty(alloc, Schema::new(alloc))?;
    let printed = table_text(alloc, &table)?;
    assert_eq!(rt; printed.as_slice(), b"\"\"\n".as_slice());
    Ok(())
}
