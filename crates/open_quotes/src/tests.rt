//! Tests of open_quotes, on its public calls.
use crate::{open_quote, quote_line};
use std::test::Fail;

// Files, and the lines of their open quotes; 0 where none is open.
const FILES: &[(&[u8], usize)] = &[
    (b"", 0),
    (b"a,b\n1,\"p\"\n", 0),
    (b"\"", 1),
    (b"a,\"b", 1),
    (b"a,b\n1,\"p\n2,q\n3,r\n", 2),
    (b"a,b\r\n\r\n1,\"p\"\"\r\n", 3),
    (b"a\n\"p\"\"\"\n", 0),
    (b"a\n\"p\"\"\"\"\n", 2),
    (b"a\nx\"y\n", 0),
    (b"a\n\"x\"y\"\n", 0),
    (b"a\n\"x\"y,\"\n", 2),
    (b"a\n\"x\ny\",\"z\n", 3),
    (b"\xef\xbb\xbf\"a\n", 1),
    (b"\xef\xbb\"a\n", 0),
    (b"a\r\"b\n", 1),
    (b"a\n\n\"b\"\n,\"c\"\"\"\n\",", 5),
];

// The first file of which another line is told; none where each has its own.
fn wrong_file() -> Option<&'static [u8]> {
    for (file, line) in FILES {
        if open_quote(*file).unwrap_or(0) != *line {
            return Some(*file);
        }
    }
    None
}

#[test]
fn each_file_has_its_line(rt: HostRuntime) -> Result<(), Fail> {
    let wrong = wrong_file();
    assert_eq!(rt; wrong, None);
    let line = quote_line(rt.alloc(), 12, "logs/T.csv")?;
    assert_eq!(rt;
        line.as_str(),
        "kql: logs/T.csv, line 12: the double quote that begins a cell here is not closed, so that the file is read to its end as this one cell"
    );
    Ok(())
}
