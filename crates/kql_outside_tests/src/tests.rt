use kql_outside::*;
use std::test::Fail;
use std::thread::Threads;
use std::{fs, process, thread};

// The files of the tests: the second `a` is never seen.
fn files(rt: &HostRuntime) -> Result<Vec<(String, Vec<u8>)>, Fail> {
    let mut files = Vec::new(rt.alloc());
    for (path, text) in [("a", "hello"), ("empty", ""), ("a", "other")] {
        let path = String::from_str(rt.alloc(), path)?;
        files.push((path, text.as_bytes().to_vec(rt.alloc())?))?;
    }
    Ok(files)
}

#[test]
fn reads_to_the_end_or_the_limit(rt: HostRuntime) -> Result<(), Fail> {
    let mut shelf = CleanShelf::new(files(&rt)?);
    let nothing = read_up_to(rt.alloc(), &mut shelf, 9)?;
    assert_eq!(rt;
        nothing.as_slice(),
        b"".as_slice(),
        "before a file is started"
    );
    for (path, limit, text, left) in [
        ("a", 0, "", "hello"),
        ("a", 4, "hell", "o"),
        ("a", 5, "hello", ""),
        ("a", 6, "hello", ""),
        ("empty", 6, "", ""),
    ] {
        assert_eq!(rt; shelf.start(path), Ok(true), "{path}");
        let bytes = read_up_to(rt.alloc(), &mut shelf, limit)?;
        assert_eq!(rt; bytes.as_slice(), text.as_bytes(), "{path} up to {limit}");
        let bytes = read_up_to(rt.alloc(), &mut shelf, 9)?;
        assert_eq!(rt; bytes.as_slice(), left.as_bytes(), "{path} behind {limit}");
    }
    assert_eq!(rt; shelf.start("b"), Ok(false));
    Ok(())
}

#[test]
fn reads_much_in_pieces(rt: HostRuntime) -> Result<(), Fail> {
    let mut long = Vec::new(rt.alloc());
    for n in 0..600_000u32 {
        long.push((n % 251) as u8)?;
    }
    let path = String::from_str(rt.alloc(), "long")?;
    let files = vec![in rt.alloc(); (path, long.clone()?)]?;
    let mut shelf = CleanShelf::new(files);
    assert_eq!(rt; shelf.start("long"), Ok(true));
    let bytes = read_up_to(rt.alloc(), &mut shelf, 67_108_865)?;
    assert!(rt; bytes.as_slice() == long.as_slice());
    Ok(())
}

#[test]
fn fails_at_the_given_calls(rt: HostRuntime) -> Result<(), Fail> {
    // What `start` answers, and what reading up to the limit does then.
    for (failing, limit, start, read) in [
        (0, 9, Err(Failed), Ok("")),
        (1, 9, Ok(true), Err(ReadError::Failed)),
        (2, 9, Ok(true), Err(ReadError::Failed)),
        (2, 5, Ok(true), Ok("hello")),
        (3, 9, Ok(true), Ok("hello")),
    ] {
        let numbers = vec![in rt.alloc(); failing]?;
        let mut shelf = MemShelf::new(files(&rt)?, numbers);
        assert_eq!(rt; shelf.start("a"), start, "call {failing} fails");
        let bytes = read_up_to(rt.alloc(), &mut shelf, limit);
        match read {
            Ok(text) => assert!(rt;
                bytes?.as_slice() == text.as_bytes(),
                "call {failing} fails"
            ),
            Err(error) => assert!(rt; bytes.err() == Some(error), "call {failing} fails"),
        }
    }
    let mut shelf = MemShelf::new(files(&rt)?, Vec::new(rt.alloc()));
    assert_eq!(rt; shelf.start("b"), Ok(false));
    Ok(())
}

#[test]
fn writes_all_or_a_shorter_front(rt: HostRuntime) -> Result<(), Fail> {
    for (chunk, room, result, held) in [
        (1, 1_048_576, Ok(()), "hello"),
        (2, 5, Ok(()), "hello"),
        (9, 5, Ok(()), "hello"),
        (9, 4, Err(Failed), "hell"),
        (2, 3, Err(Failed), "hel"),
        (1, 0, Err(Failed), ""),
    ] {
        assert!(rt; chunk > 0);
        let mut sink = CleanSink::new(rt.alloc(), chunk, room)?;
        assert_eq!(rt; write_all(&mut sink, b"hello"), result, "{chunk} of {room}");
        assert_eq!(rt; sink.bytes(), held.as_bytes(), "{chunk} of {room}");
    }
    // The number of the call that fails, after which `held` stands in the sink.
    for (failing, result, held) in [
        (0, Err(Failed), ""),
        (1, Err(Failed), "he"),
        (2, Err(Failed), "hell"),
        (3, Ok(()), "hello"),
    ] {
        let numbers = vec![in rt.alloc(); failing]?;
        let mut sink = MemSink::new(rt.alloc(), 2, 1_048_576, numbers)?;
        assert_eq!(rt;
            write_all(&mut sink, b"hello"),
            result,
            "call {failing} fails"
        );
        assert_eq!(rt; sink.bytes(), held.as_bytes(), "call {failing} fails");
    }
    Ok(())
}

#[test]
fn reads_real_files(rt: HostRuntime) -> Result<(), Fail> {
    let folder = std::env::temp_dir(&rt)?;
    let name = format!(in rt.alloc(); "kql_outside_{}", process::id(rt.process()))?;
    let path = folder.join(rt.alloc(), name.as_str())?;
    fs::write(&rt, path.as_path(), "hello")?;

    let mut shelf = DirShelf::new(&rt);
    let mut buf = [0u8; 3];
    assert_eq!(rt; shelf.read(&mut buf), Ok(0), "before a file is started");
    let file = path.as_path().as_str();
    let inside = format!(in rt.alloc(); "{file}/x")?;
    let missing = format!(in rt.alloc(); "{file}.x")?;
    for (path, start, text) in [
        (file, Ok(true), Ok("hello")),
        (missing.as_str(), Ok(false), Ok("")),
        (inside.as_str(), Ok(false), Ok("")),
        ("a\0b", Err(Failed), Ok("")),
        (folder.as_path().as_str(), Ok(true), Err(ReadError::Failed)),
    ] {
        assert_eq!(rt; shelf.start(path), start, "{path}");
        let bytes = read_up_to(rt.alloc(), &mut shelf, 9);
        match text {
            Ok(text) => assert!(rt; bytes?.as_slice() == text.as_bytes(), "{path}"),
            Err(error) => assert!(rt; bytes.err() == Some(error), "{path}"),
        }
    }
    fs::remove_file(&rt, path.as_path())?;
    Ok(())
}

#[test]
fn writes_to_streams(rt: HostRuntime) -> Result<(), Fail> {
    let mut held = Vec::new(rt.alloc());
    let mut sink = StreamSink::new(&mut held);
    assert_eq!(rt; write_all(&mut sink, b"hello"), Ok(()));
    drop(sink);
    assert_eq!(rt; held.as_slice(), b"hello".as_slice());

    // A stream that takes nothing more when it is full.
    let mut room = [0u8; 3];
    let mut sink = StreamSink::new(room.as_mut_slice());
    assert_eq!(rt; write_all(&mut sink, b"hello"), Err(Failed));
    drop(sink);
    assert_eq!(rt; room.as_slice(), b"hel".as_slice());

    // A stream that refuses.
    let mut sink = StreamSink::new(fs::open(&rt, "/dev/null")?);
    assert_eq!(rt;
        write_all(&mut sink, b"hello"),
        Err(Failed),
        "opened to read"
    );
    Ok(())
}

fn passes<G: Gate + Sync>(gate: &G) {
    gate.enter(0, 0);
}

#[test]
fn an_open_gate_lets_pass() {
    passes(&OpenGate);
}

// What one thread enters with, phase and piece, and in no row do two workers meet: who comes first turns to the limit.
const ENTERED_ALONE: &[&[(u32, u32)]] = &[
    &[],
    &[(0, 0)],
    &[(0, 1)],
    &[(0, 0), (0, 1)],
    &[(0, 1), (0, 0)],
    &[(0, 0), (0, 0)],
    &[(0, 0), (0, 1), (0, 0), (0, 1)],
    &[(0, 2), (0, 3)],
    &[(1, 0), (1, 1)],
    &[(1, 0), (0, 1)],
];

fn met_alone(limit: u64, entered: &[(u32, u32)]) -> bool {
    let gate = HoldGate::new(limit);
    for (phase, piece) in entered {
        gate.enter(*phase, *piece);
    }
    gate.met()
}

// Whether anybody is met in one of these rows.
fn some_meet(limit: u64, rows: &[&[(u32, u32)]]) -> bool {
    for entered in rows {
        if met_alone(limit, entered) {
            return true;
        }
    }
    false
}

#[test]
fn one_thread_meets_nobody(rt: HostRuntime) -> Result<(), Fail> {
    let met = [
        some_meet(0, ENTERED_ALONE),
        some_meet(1, ENTERED_ALONE),
        some_meet(1_000, ENTERED_ALONE),
    ];
    assert_eq!(rt; met, [false, false, false]);
    Ok(())
}

// Whether two threads meet, of which one enters with piece 0 and one with piece 1.
fn met_by_two<R: Threads + Sync>(rt: &R, limit: u64, phase: u32) -> bool {
    let gate = HoldGate::new(limit);
    let mut pieces = [0u32, 1];
    thread::for_each_mut(rt, &mut pieces, 2, &|_, piece| gate.enter(phase, *piece));
    gate.met()
}

#[test]
fn two_threads_meet_in_the_first_phase(rt: HostRuntime) -> Result<(), Fail> {
    let met = [
        met_by_two(&rt, 2_000_000_000, 0),
        met_by_two(&rt, 2_000_000_000, 1),
        met_by_two(&rt, 0, 0),
    ];
    assert_eq!(rt; met, [true, false, false]);
    Ok(())
}
