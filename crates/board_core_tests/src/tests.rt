use board_core::{
    Claim, Claims, Core, Event, Stepped, claims_are_replayed, every_order_is_lawful,
    first_claims_are_replayed, run_all,
};
use std::alloc::{AllocError, Global};
use std::process::Abort;
use std::test::Fail;

/// How many pieces and workers there are, and each event with its answer.
type Row = (u32, u32, &'static [(Event, Stepped)]);

const ROWS: [Row; 6] = [
    // two workers, one piece
    (
        1,
        2,
        &[
            (Event::Claim(0), Stepped::Claimed(0)),
            (Event::Claim(0), Stepped::Ignored),
            (Event::Fill(1), Stepped::Ignored),
            (Event::Claim(1), Stepped::Done),
            (Event::Fill(0), Stepped::Filled(0)),
        ],
    ),
    // no pieces
    (
        0,
        3,
        &[
            (Event::Claim(0), Stepped::Done),
            (Event::Claim(0), Stepped::Ignored),
            (Event::Claim(2), Stepped::Done),
            (Event::Fill(2), Stepped::Ignored),
            (Event::Claim(1), Stepped::Done),
        ],
    ),
    // no workers
    (
        2,
        0,
        &[
            (Event::Claim(0), Stepped::Ignored),
            (Event::Fill(0), Stepped::Ignored),
        ],
    ),
    // no such worker
    (
        2,
        2,
        &[
            (Event::Claim(2), Stepped::Ignored),
            (Event::Fill(2), Stepped::Ignored),
            (Event::Claim(u32::MAX), Stepped::Ignored),
            (Event::Claim(1), Stepped::Claimed(0)),
        ],
    ),
    // one worker, from the first piece to the end
    (
        2,
        1,
        &[
            (Event::Fill(0), Stepped::Ignored),
            (Event::Claim(0), Stepped::Claimed(0)),
            (Event::Fill(0), Stepped::Filled(0)),
            (Event::Fill(0), Stepped::Ignored),
            (Event::Claim(0), Stepped::Claimed(1)),
            (Event::Claim(0), Stepped::Ignored),
            (Event::Fill(0), Stepped::Filled(1)),
            (Event::Claim(0), Stepped::Done),
            (Event::Claim(0), Stepped::Ignored),
        ],
    ),
    // a claim that is open when all pieces are claimed
    (
        2,
        2,
        &[
            (Event::Claim(1), Stepped::Claimed(0)),
            (Event::Claim(0), Stepped::Claimed(1)),
            (Event::Claim(1), Stepped::Ignored),
            (Event::Fill(0), Stepped::Filled(1)),
            (Event::Claim(0), Stepped::Done),
            (Event::Fill(1), Stepped::Filled(0)),
            (Event::Claim(1), Stepped::Done),
        ],
    ),
];

#[test]
fn answers_are_those_of_the_table(rt: HostRuntime) -> Result<(), Fail> {
    for (pieces, workers, steps) in ROWS {
        let mut core = Core::new(rt.alloc(), pieces, workers)?;
        for (event, answer) in steps {
            assert_eq!(rt;
                core.step(*event),
                *answer,
                "{event:?} with {pieces} pieces"
            );
        }
    }
    Ok(())
}

#[test]
fn a_state_is_told(rt: HostRuntime) -> Result<(), Fail> {
    let mut core = Core::new(rt.alloc(), 2, 3)?;
    let events = [
        Event::Claim(1),
        Event::Claim(2),
        Event::Fill(2),
        Event::Claim(2),
    ];
    run_all(&mut core, &events);
    assert_eq!(rt; core.next(), 2);
    assert_eq!(rt; core.claims(0).len(), 0);
    assert_eq!(rt; core.claims(1), [0].as_slice());
    assert_eq!(rt; core.claims(2), [1].as_slice());
    assert_eq!(rt; core.slot(0), None);
    assert_eq!(rt; core.slot(1), Some(1));
    assert!(rt; !core.is_ended(1));
    assert!(rt; core.is_ended(2));
    Ok(())
}

const PIECES: u32 = 10_000;

const WORKERS: u32 = 64;

/// In which order the workers come.
#[derive(Clone, Copy, Debug)]
enum Order {
    /// Each worker claims and fills, one worker after another.
    InTurn,
    /// All workers claim, and then all fill.
    Together,
    /// The last worker does all.
    Alone,
    /// By a sequence of numbers without a plan.
    Mixed,
}

/// Events enough to claim and fill each piece, and then a fill and a claim of each worker.
fn events_in(alloc: Global, order: Order) -> Result<Vec<Event>, AllocError> {
    let mut events = Vec::new(alloc);
    let mut number = 1u32;
    for i in 0..2 * PIECES + 128 {
        number = number.wrapping_mul(1_664_525).wrapping_add(1_013_904_223);
        let worker = number / 65_536 % WORKERS;
        match order {
            Order::InTurn => {
                events.push(Event::Claim(i % WORKERS))?;
                events.push(Event::Fill(i % WORKERS))?;
            }
            Order::Together if i / WORKERS % 2 == 0 => events.push(Event::Claim(i % WORKERS))?,
            Order::Together => events.push(Event::Fill(i % WORKERS))?,
            Order::Alone => {
                events.push(Event::Claim(WORKERS - 1))?;
                events.push(Event::Fill(WORKERS - 1))?;
            }
            Order::Mixed => {
                events.push(Event::Claim(worker))?;
                events.push(Event::Fill(number / 1024 % WORKERS))?;
                events.push(Event::Fill(worker))?;
            }
        }
    }
    for worker in 0..WORKERS {
        events.push(Event::Fill(worker))?;
        events.push(Event::Claim(worker))?;
    }
    Ok(events)
}

/// Runs the events, and looks whether all is claimed, filled and told.
fn finished(rt: &impl Abort, alloc: Global, events: &[Event]) -> Result<(), AllocError> {
    let mut core = Core::new(alloc, PIECES, WORKERS)?;
    run_all(&mut core, events);
    assert_eq!(rt; core.next(), u64::from(PIECES));
    let mut claimed = 0u64;
    for worker in 0..WORKERS {
        claimed = claimed.wrapping_add(core.claims(worker).len() as u64);
        assert!(rt; core.is_ended(worker), "worker {worker}");
    }
    assert_eq!(rt; claimed, u64::from(PIECES));
    for piece in 0..PIECES {
        assert_eq!(rt; core.slot(piece), Some(piece));
    }
    Ok(())
}

#[test]
fn every_order_finishes(rt: HostRuntime) -> Result<(), Fail> {
    for order in [Order::InTurn, Order::Together, Order::Alone, Order::Mixed] {
        let events = events_in(rt.alloc(), order)?;
        finished(&rt, rt.alloc(), &events)?;
    }
    every_order_is_lawful();
    claims_are_replayed();
    first_claims_are_replayed();
    Ok(())
}

#[test]
fn claims_are_a_list(rt: HostRuntime) -> Result<(), Fail> {
    let mut claims = Claims::new(rt.alloc());
    claims.push(Claim {
        piece: 7,
        worker: 2,
    })?;
    assert_eq!(rt;
        claims.as_slice(),
        [Claim {
            piece: 7,
            worker: 2
        }]
        .as_slice()
    );
    Ok(())
}
