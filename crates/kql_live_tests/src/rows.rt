//! Commands, and what they are answered.
use crate::calls::{Made, call, words_of};
use kql_outside::OpenGate;
use std::alloc::Global;
use std::sync::Wait;
use std::test::Fail;
use std::thread::Threads;

// Words, the number of batches and of readers, and the output.
type Answered = (&'static str, u64, usize, &'static str);

const ANSWERED: &[Answered] = &[
    ("live q T=two one", 1, 2, "Count\n3\n"),
    ("live --readers 1 q T=two", 0, 1, "Count\n2\n"),
    ("live --readers 8 q T=none two none one", 3, 8, "Count\n3\n"),
    ("live q T=none", 0, 2, "Count\n0\n"),
    (
        "live --now 2024-05-01 now T=two",
        0,
        2,
        "Count,t\n2,2024-05-01T00:00:00.0000000Z\n",
    ),
    (
        "live --watch q T=two one none one",
        3,
        2,
        "# batches: 0\nCount\n2\n# batches: 1\nCount\n3\n# batches: 3\nCount\n4\n",
    ),
    (
        "live --watch --readers 3 high T=none two none",
        2,
        3,
        "# batches: 0\nx\n# batches: 1\nx\n2\n",
    ),
    ("live sum T=one one one one", 3, 2, "s\n12\n"),
    ("live --readers 008 q T=two", 0, 8, "Count\n2\n"),
];

// With a view, and without one: the same.
const VIEWED: &[Answered] = &[
    (
        "live groups T=g1 g2",
        1,
        2,
        "g,c,s,l\na,2,5,\"[1,4]\"\nb,2,5,\"[2,3]\"\n",
    ),
    (
        "live --view groups T=g1 g2",
        1,
        2,
        "g,c,s,l\na,2,5,\"[1,4]\"\nb,2,5,\"[2,3]\"\n",
    ),
    (
        "live calls T=g1 g2 g1",
        2,
        2,
        "g,n,l\na,9,\"[1,4]\"\nb,10,\"[2,3]\"\n",
    ),
    (
        "live --view calls T=g1 g2 g1",
        2,
        2,
        "g,n,l\na,9,\"[1,4]\"\nb,10,\"[2,3]\"\n",
    ),
    ("live each T=two one two", 2, 2, "x\n1\n2\n3\n"),
    ("live --view each T=two one two", 2, 2, "x\n1\n2\n3\n"),
    ("live --view all T=wide wide", 1, 2, "x,y\n3,4\n"),
    ("live --view each T=none", 0, 2, "x\n"),
    ("live --view each T=none none one", 2, 2, "x\n3\n"),
    ("live --view limit T=two one", 1, 2, "c\n2\n"),
    (
        "live --view --readers 8 sum T=none two none one",
        3,
        8,
        "s\n6\n",
    ),
    (
        "live --watch sum T=two one none one",
        3,
        2,
        "# batches: 0\ns\n3\n# batches: 1\ns\n6\n# batches: 3\ns\n9\n",
    ),
    (
        "live --watch --view sum T=two one none one",
        3,
        2,
        "# batches: 0\ns\n3\n# batches: 1\ns\n6\n# batches: 3\ns\n9\n",
    ),
    (
        "live --readers 1 --now 2024-05-01 --view --watch sum T=two",
        0,
        1,
        "# batches: 0\ns\n3\n",
    ),
];

// Words, the status, and the line of the refusal.
type Refused = (&'static str, u8, &'static str);

const REFUSED: &[Refused] = &[
    ("", 2, "kql: word 0: 601 NoCommand\n"),
    ("run q T=two", 2, "kql: word 0: 602 UnknownCommand\n"),
    (
        "live --views q T=two",
        2,
        "kql: word 1: 603 UnknownOption\n",
    ),
    (
        "live --watch --watch q T=two",
        2,
        "kql: word 2: 604 OptionTwice\n",
    ),
    (
        "live --view --view q T=two",
        2,
        "kql: word 2: 604 OptionTwice\n",
    ),
    (
        "live --readers 1 --readers 1 q T=two",
        2,
        "kql: word 3: 604 OptionTwice\n",
    ),
    (
        "live --now 2024-05-01 --readers",
        2,
        "kql: word 4: 605 OptionValue\n",
    ),
    (
        "live --readers 9 q T=two",
        2,
        "kql: word 2: 605 OptionValue\n",
    ),
    (
        "live --readers 0 q T=two",
        2,
        "kql: word 2: 605 OptionValue\n",
    ),
    ("live --readers", 2, "kql: word 2: 605 OptionValue\n"),
    ("live --now x q T=two", 2, "kql: word 2: 605 OptionValue\n"),
    ("live", 2, "kql: word 1: 606 NoQuery\n"),
    ("live q two", 2, "kql: word 2: 607 BadTable\n"),
    ("live q T= one", 2, "kql: word 2: 607 BadTable\n"),
    ("live q", 2, "kql: word 2: 612 NoTable\n"),
    (
        "live nosuch T=nosuch",
        3,
        "kql: file 0: 307 NoFile at 0:0\n",
    ),
    ("live cut T=nosuch", 1, "kql: 1:4: 201 Unexpected\n"),
    (
        "live q T=nosuch other",
        3,
        "kql: file 1: 307 NoFile at 0:0\n",
    ),
    (
        "live q T=two cell other",
        3,
        "kql: file 2: 306 BadCell at 1:1\n",
    ),
    (
        "live q T=two empty",
        3,
        "kql: file 2: 302 NoHeader at 0:0\n",
    ),
    (
        "live q T=two other",
        3,
        "kql: file 2: 315 SchemaDiffers at 0:1\n",
    ),
    (
        "live q T=two one text",
        3,
        "kql: file 3: 315 SchemaDiffers at 0:1\n",
    ),
    (
        "live q T=two wide",
        3,
        "kql: file 2: 315 SchemaDiffers at 0:2\n",
    ),
    (
        "live unbound T=wide two",
        3,
        "kql: file 2: 315 SchemaDiffers at 0:2\n",
    ),
    (
        "live unbound T=two one",
        1,
        "kql: 1:11: 401 UnknownColumn\n",
    ),
    (
        "live pattern T=text text",
        1,
        "kql: 1:13: 420 PatternHere\n",
    ),
];

// Queries that a view cannot keep, and what is told before that.
const UNVIEWED: &[Refused] = &[
    ("live --view q T=two", 1, "kql: 1:1: 421 NotAView\n"),
    ("live --view joined T=two", 1, "kql: 1:1: 421 NotAView\n"),
    ("live --view let T=two", 1, "kql: 1:1: 421 NotAView\n"),
    ("live --view over_let T=two", 1, "kql: 1:1: 421 NotAView\n"),
    ("live --view twice T=two one", 1, "kql: 1:1: 421 NotAView\n"),
    (
        "live --view --watch behind T=two",
        1,
        "kql: 1:1: 421 NotAView\n",
    ),
    ("live --view sorted T=two", 1, "kql: 1:1: 421 NotAView\n"),
    ("live --view both T=two", 1, "kql: 1:1: 421 NotAView\n"),
    ("live --view alone T=two", 1, "kql: 1:1: 421 NotAView\n"),
    ("live --view below T=two", 1, "kql: 1:1: 421 NotAView\n"),
    ("live --view whole T=two", 1, "kql: 1:1: 421 NotAView\n"),
    ("live --view range T=two", 1, "kql: 1:1: 421 NotAView\n"),
    ("live --view printed T=two", 1, "kql: 1:1: 421 NotAView\n"),
    (
        "live --view unbound T=two",
        1,
        "kql: 1:11: 401 UnknownColumn\n",
    ),
    (
        "live --view unbound_sum T=two",
        1,
        "kql: 1:19: 401 UnknownColumn\n",
    ),
    ("live --view now T=two", 1, "kql: 1:22: 409 NoMoment\n"),
    (
        "live --view q T=two other",
        3,
        "kql: file 2: 315 SchemaDiffers at 0:1\n",
    ),
    ("live --view cut T=two", 1, "kql: 1:4: 201 Unexpected\n"),
    ("live --view q", 2, "kql: word 3: 612 NoTable\n"),
    ("live --view", 2, "kql: word 2: 606 NoQuery\n"),
];

// Whether a command is answered so.
fn is_answered<R: Threads + Wait + Sync>(rt: &R, alloc: Global, row: &Answered) -> Made<bool> {
    let words = words_of(alloc, row.0)?;
    let left = call(rt, alloc, words.as_slice(), row.1, &OpenGate)?;
    Ok(
        left.status == 0
            && left.readers == Some(row.2)
            && left.out.as_slice() == row.3.as_bytes()
            && left.err.is_empty(),
    )
}

fn is_refused<R: Threads + Wait + Sync>(rt: &R, alloc: Global, row: &Refused) -> Made<bool> {
    let words = words_of(alloc, row.0)?;
    let left = call(rt, alloc, words.as_slice(), 0, &OpenGate)?;
    Ok(left.status == row.1 && left.out.is_empty() && left.err.as_slice() == row.2.as_bytes())
}

// The number of the first row that is wrong.
fn first_wrong<R: Threads + Wait + Sync>(
    rt: &R,
    alloc: Global,
    rows: &[Answered],
) -> Made<Option<usize>> {
    for i in 0..rows.len() {
        if !is_answered(rt, alloc, &rows[i])? {
            return Ok(Some(i));
        }
    }
    Ok(None)
}

fn first_unrefused<R: Threads + Wait + Sync>(
    rt: &R,
    alloc: Global,
    rows: &[Refused],
) -> Made<Option<usize>> {
    for i in 0..rows.len() {
        if !is_refused(rt, alloc, &rows[i])? {
            return Ok(Some(i));
        }
    }
    Ok(None)
}

#[test]
fn commands_are_answered(rt: HostRuntime) -> Result<(), Fail> {
    let wrong = first_wrong(&rt, rt.alloc(), ANSWERED)?;
    assert_eq!(rt; wrong, None);
    Ok(())
}

#[test]
fn a_view_answers_the_same(rt: HostRuntime) -> Result<(), Fail> {
    let wrong = first_wrong(&rt, rt.alloc(), VIEWED)?;
    assert_eq!(rt; wrong, None);
    Ok(())
}

#[test]
fn commands_are_refused(rt: HostRuntime) -> Result<(), Fail> {
    let wrong = first_unrefused(&rt, rt.alloc(), REFUSED)?;
    assert_eq!(rt; wrong, None);
    Ok(())
}

#[test]
fn what_no_view_keeps_is_refused(rt: HostRuntime) -> Result<(), Fail> {
    let wrong = first_unrefused(&rt, rt.alloc(), UNVIEWED)?;
    assert_eq!(rt; wrong, None);
    Ok(())
}
