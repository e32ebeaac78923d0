//! Tests of watched_stream, on its public calls.
use crate::WatchedStream;
use std::io::{ErrorKind, Write};
use std::test::Fail;

#[test]
fn keeps_the_latest_cause(rt: HostRuntime) -> Result<(), Fail> {
    let mut room = [0u8; 4];
    let mut stream = WatchedStream::new(room.as_mut_slice());
    assert_eq!(rt; stream.write(b"ab")?, 2);
    assert_eq!(rt; stream.write(b"")?, 0);
    assert!(rt; stream.cause().is_none());
    assert_eq!(rt; stream.write(b"cde")?, 2);
    assert!(rt; stream.cause().is_none());
    assert_eq!(rt; stream.write(b"e")?, 0);
    assert!(rt; matches!(stream.cause(), Some(ErrorKind::WriteZero)));
    Ok(())
}
