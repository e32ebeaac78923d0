use json_losses::*;
use std::alloc::{AllocError, Global};
use std::test::Fail;

// Files, and how many numbers of them are read as null.
const FILES: &[(&str, u64)] = &[
    ("", 0),
    ("d:dynamic\n", 0),
    ("d:dynamic\n2.5\n3\n\"{\"\"a\"\":[1.5,2,-0.1]}\"\n", 3),
    ("d\n2.5\n", 0),
    ("d:string,x:long\n2.5,1\n", 0),
    (
        "\u{feff}x:long,d:dynamic,e:dynamic\n1,1e3,\"[1.0,7]\"\n2,,x 2.5\n",
        2,
    ),
    (
        "d:dynamic\n9223372036854775807\n9223372036854775808\n-9223372036854775808\n-9223372036854775809\n",
        2,
    ),
    ("d:dynamic\n\"{\"\"a\"\":2.5,\"\"a\"\":1}\"\n", 0),
    ("a:b:dynamic\r\n[[[0.5]]]\r\n\"\"\"0.5\"\"\"\r\n", 1),
    ("d:dynamic,s\n1.5\n2.5,x,3.5\n", 2),
];

// The first file that has another count; nothing where each has its own.
fn wrong_file(alloc: Global) -> Result<&'static str, AllocError> {
    for (file, count) in FILES {
        if count_losses(alloc, file.as_bytes())? != *count {
            return Ok(*file);
        }
    }
    Ok("no file")
}

#[test]
fn each_file_has_its_count(rt: HostRuntime) -> Result<(), Fail> {
    let wrong = wrong_file(rt.alloc())?;
    assert_eq!(rt; wrong, "no file");
    Ok(())
}

// The line for a count.
fn line_of(alloc: Global, count: u64) -> Result<String, AllocError> {
    match losses_line(alloc, count, "logs/T.csv")? {
        Some(line) => Ok(line),
        None => Ok(String::new(alloc)),
    }
}

#[test]
fn each_count_has_its_line(rt: HostRuntime) -> Result<(), Fail> {
    let alloc = rt.alloc();
    assert_eq!(rt; line_of(alloc, 0)?.as_str(), "");
    let one =
        "kql: 1 number of JSON in logs/T.csv is not written as a whole number of 64 bits, and read as null";
    assert_eq!(rt; line_of(alloc, 1)?.as_str(), one);
    let three =
        "kql: 3 numbers of JSON in logs/T.csv are not written as whole numbers of 64 bits, and read as null";
    assert_eq!(rt; line_of(alloc, 3)?.as_str(), three);
    Ok(())
}
