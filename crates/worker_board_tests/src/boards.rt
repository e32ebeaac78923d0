ghost use Rattle.std.specs.Prelude.{◌≡◌};
ghost use Rattle.worker_board.specs.Views.{IsOf, seats_of};

use crate::calls::{closed, draw, drawn_twice, halt, is_told, join};
use std::alloc::{AllocError, Global};
use std::test::Fail;
use worker_board::{Board, Gathered, Seats, WorkerSeat, every_board_is_lawful};

// Three workers at a board of no pieces, of whom each is told the end at once.
fn without_pieces(board: Board, seats: Seats) -> Option<Gathered>
    requires seats { seats ≡ seats_of board 3 }
{
    let mut seats = seats;
    let mut third = seats.pop()?;
    let mut second = seats.pop()?;
    let mut first = seats.pop()?;
    let drawn = [
        draw(&board, &mut third),
        draw(&board, &mut first),
        draw(&board, &mut second),
    ];
    join(&board, &mut first, second);
    let early = board.is_whole(&first);
    join(&board, &mut first, third);
    if early || drawn != [None, None, None] {
        return None;
    }
    closed(board, first)
}

#[test]
fn no_pieces(rt: HostRuntime) -> Result<(), Fail> {
    every_board_is_lawful();
    let (board, seats) = Board::new(rt.alloc(), 0, 3)?;
    let gathered = without_pieces(board, seats).expect(&rt, "the last seat is whole");
    let numbers = (
        gathered.claims().len(),
        gathered.pieces(),
        gathered.workers(),
    );
    assert_eq!(rt; numbers, (0, 0, 3));
    Ok(())
}

// What two workers are told of a stop: before it, the one that stops and the other after it, and the mark of the
// other before and after it asks.
fn one_stops(board: Board, seats: Seats) -> Option<[bool; 5]>
    requires seats { seats ≡ seats_of board 2 }
{
    let mut seats = seats;
    let mut second = seats.pop()?;
    let mut first = seats.pop()?;
    let before = is_told(&board, &mut second);
    let piece = draw(&board, &mut first)?;
    halt(&board, &mut first);
    let unasked = second.has_stopped();
    let asked = is_told(&board, &mut second);
    Some([
        before || piece != 0,
        first.has_stopped(),
        unasked,
        asked,
        second.has_stopped(),
    ])
}

#[test]
fn one_of_two_stops(rt: HostRuntime) -> Result<(), Fail> {
    let (board, seats) = Board::new(rt.alloc(), 3, 2)?;
    assert_eq!(rt;
        one_stops(board, seats),
        Some([false, true, false, true, true])
    );
    Ok(())
}

// A stop in the middle: the pieces that two workers draw, of whom the second stops before the last. In the end
// the first has the mark of the second, and is not whole.
fn stopped_between(board: Board, seats: Seats) -> Option<[Option<u32>; 4]>
    requires seats { seats ≡ seats_of board 2 }
{
    let mut seats = seats;
    let mut second = seats.pop()?;
    let mut first = seats.pop()?;
    let one = draw(&board, &mut second);
    let two = draw(&board, &mut first);
    let three = draw(&board, &mut second);
    halt(&board, &mut second);
    let four = draw(&board, &mut first);
    join(&board, &mut first, second);
    if !first.has_stopped() || first.is_done() || board.is_whole(&first) {
        return None;
    }
    Some([one, two, three, four])
}

#[test]
fn a_stop_in_the_middle(rt: HostRuntime) -> Result<(), Fail> {
    let (board, seats) = Board::new(rt.alloc(), 9, 2)?;
    assert_eq!(rt;
        stopped_between(board, seats),
        Some([Some(0), Some(1), Some(2), Some(3)])
    );
    Ok(())
}

// The claims of three seats, joined in this order.
fn joined(board: Board, into: WorkerSeat, one: WorkerSeat, other: WorkerSeat) -> Option<Gathered>
    requires into { IsOf board into }
    requires one { IsOf board one }
    requires other { IsOf board other }
{
    let mut into = into;
    join(&board, &mut into, one);
    join(&board, &mut into, other);
    closed(board, into)
}

// One of the six orders.
fn joined_in_order(
    board: Board,
    first: WorkerSeat,
    second: WorkerSeat,
    third: WorkerSeat,
    order: u32,
) -> Option<Gathered>
    requires first { IsOf board first }
    requires second { IsOf board second }
    requires third { IsOf board third }
{
    match order {
        0 => joined(board, first, second, third),
        1 => joined(board, first, third, second),
        2 => joined(board, second, first, third),
        3 => joined(board, second, third, first),
        4 => joined(board, third, first, second),
        _ => joined(board, third, second, first),
    }
}

// Three workers at a board of five pieces, of whom each draws two numbers, the last of which is none.
fn all_drawn(board: Board, seats: Seats, order: u32) -> Option<Gathered>
    requires seats { seats ≡ seats_of board 3 }
{
    let mut seats = seats;
    let mut third = seats.pop()?;
    let mut second = seats.pop()?;
    let mut first = seats.pop()?;
    drawn_twice(&board, &mut second);
    drawn_twice(&board, &mut first);
    drawn_twice(&board, &mut third);
    draw(&board, &mut first);
    draw(&board, &mut second);
    joined_in_order(board, first, second, third, order)
}

// Whether the five pieces are claimed by their workers.
fn are_theirs(gathered: &Gathered) -> bool {
    let workers = [1u32, 1, 0, 0, 2];
    for claim in gathered.claims() {
        if workers.get(claim.piece as usize) != Some(&claim.worker) {
            return false;
        }
    }
    gathered.claims().len() == 5
}

fn first_wrong_order(alloc: Global) -> Result<Option<u32>, AllocError> {
    for order in 0..6 {
        let (board, seats) = Board::new(alloc, 5, 3)?;
        match all_drawn(board, seats, order) {
            Some(gathered) if are_theirs(&gathered) => {}
            _ => return Ok(Some(order)),
        }
    }
    Ok(None)
}

#[test]
fn seats_come_back_in_every_order(rt: HostRuntime) -> Result<(), Fail> {
    assert_eq!(rt; first_wrong_order(rt.alloc())?, None);
    Ok(())
}
