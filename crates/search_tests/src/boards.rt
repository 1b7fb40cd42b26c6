//! Boards that are worked on by one seat, by two on one thread, and by four in threads of their own.
ghost use Rattle.std.specs.Prelude.{◌≡◌, ◌+◌, ◌<◌};
ghost use Rattle.std.specs.Thread.{IsSync};

use shared_search::{Board, Owner, Seat, Totals};
use std::alloc::Global;
use std::test::Fail;
use std::thread;
use std::thread::Threads;
use stow_data::NoMemory;

#[test]
fn a_seat_draws_two_tickets(rt: HostRuntime) -> Result<(), Fail> {
    let (board, mut owner) = Board::new(rt.alloc(), 10, 2)?;
    let mut seat = board.split(&mut owner);
    let first = board.draw(&mut seat);
    assert!(rt; first == Some(0));
    let second = board.draw(&mut seat);
    assert!(rt; second == Some(1));
    assert!(rt; board.draw(&mut seat).is_none());
    Ok(())
}

#[test]
fn the_lesser_offer_stays(rt: HostRuntime) -> Result<(), Fail> {
    let (board, mut owner) = Board::new(rt.alloc(), 10, 2)?;
    let mut seat = board.split(&mut owner);
    assert!(rt; board.offer(&mut seat, 7) == 10);
    assert!(rt; board.offer(&mut seat, 9) == 7);
    assert!(rt; board.best(&mut seat) == 7);
    Ok(())
}

#[test]
fn a_closed_board_tells_its_totals(rt: HostRuntime) -> Result<(), Fail> {
    let (board, mut owner) = Board::new(rt.alloc(), 10, 2)?;
    let mut seat = board.split(&mut owner);
    board.offer(&mut seat, 7);
    assert!(rt; board.draw(&mut seat).is_some());
    assert!(rt; board.draw(&mut seat).is_some());
    assert!(rt; board.draw(&mut seat).is_none());
    board.join(&mut owner, seat);
    assert!(rt; board.close(owner) == Totals { best: 7, drawn: 2 });
    Ok(())
}

#[test]
fn a_seat_sees_what_another_offered(rt: HostRuntime) -> Result<(), Fail> {
    let (board, mut owner) = Board::new(rt.alloc(), 10, 2)?;
    let mut one = board.split(&mut owner);
    let mut other = board.split(&mut owner);
    board.offer(&mut one, 7);
    assert!(rt; board.best(&mut other) == 7);
    assert!(rt; board.draw(&mut one) == Some(0));
    assert!(rt; board.draw(&mut other) == Some(1));
    Ok(())
}

const TURNS: u64 = 10_000;

#[derive(Drop)]
struct Worker {
    seat: Seat,
    least: u64,
    tickets: Vec<u64>,
}

// A worker with a new seat.
fn seated(alloc: Global, board: &Board, owner: &mut Owner, least: u64) -> Worker
    requires { (owner.old.board ≡ board.now.id) × (owner.old.view.made < 65536) }
    ensures owner { (owner.new.board ≡ owner.old.board) × (owner.new.view.made ≡ owner.old.view.made + 1) × (owner.new.view.taken ≡ owner.old.view.taken) }
    ensures seat { (result.seat.board ≡ board.now.id) × (result.seat.view.over ≡ 0) }
{
    let seat = board.split(owner);
    Worker {
        seat,
        least,
        tickets: Vec::new(alloc),
    }
}

// Offers values that fall to the worker's least one, and draws as many tickets.
fn work(board: &Board, mut worker: Worker) -> Worker
    requires { (worker.seat.board ≡ board.now.id) × (worker.seat.view.over ≡ 0) }
    ensures { result.seat.board ≡ board.now.id }
{
    for turn in 0..TURNS {
        let above = TURNS - 1 - turn;
        board.offer(&mut worker.seat, worker.least.saturating_add(above));
        let Some(ticket) = board.draw(&mut worker.seat) else {
            return worker;
        };
        if worker.tickets.push(ticket).is_err() {
            return worker;
        }
    }
    worker
}

// Two workers in threads of their own.
fn two_work<R: Threads + Sync>(rt: &R, board: &Board, a: Worker, b: Worker) -> (Worker, Worker)
    requires boards { (a.seat.board ≡ board.now.id) × (b.seat.board ≡ board.now.id) }
    requires none_over { (a.seat.view.over ≡ 0) × (b.seat.view.over ≡ 0) }
    ensures { (result.0.seat.board ≡ board.now.id) × (result.1.seat.board ≡ board.now.id) }
{
    thread::join(
        rt,
        move ||
            requires { (a.seat.board ≡ board.now.id) × (a.seat.view.over ≡ 0) }
            ensures { result.seat.board ≡ board.entry.now.id }
        { work(board, a) },
        move ||
            requires { (b.seat.board ≡ board.now.id) × (b.seat.view.over ≡ 0) }
            ensures { result.seat.board ≡ board.entry.now.id }
        { work(board, b) },
    )
}

type Pair = (Worker, Worker);

// Two pairs of workers in threads of their own.
fn four_work<R: Threads + Sync>(rt: &R, board: &Board, left: Pair, right: Pair) -> (Pair, Pair)
    requires left { (left.0.seat.board ≡ board.now.id) × (left.1.seat.board ≡ board.now.id) × (left.0.seat.view.over ≡ 0) × (left.1.seat.view.over ≡ 0) }
    requires right { (right.0.seat.board ≡ board.now.id) × (right.1.seat.board ≡ board.now.id) × (right.0.seat.view.over ≡ 0) × (right.1.seat.view.over ≡ 0) }
    ensures left { (result.0.0.seat.board ≡ board.now.id) × (result.0.1.seat.board ≡ board.now.id) }
    ensures right { (result.1.0.seat.board ≡ board.now.id) × (result.1.1.seat.board ≡ board.now.id) }
{
    thread::join(
        rt,
        move ||
            requires { IsSync R.row × (left.0.seat.board ≡ board.now.id) × (left.1.seat.board ≡ board.now.id) × (left.0.seat.view.over ≡ 0) × (left.1.seat.view.over ≡ 0) }
            ensures { (result.0.seat.board ≡ board.entry.now.id) × (result.1.seat.board ≡ board.entry.now.id) }
        { two_work(rt, board, left.0, left.1) },
        move ||
            requires { IsSync R.row × (right.0.seat.board ≡ board.now.id) × (right.1.seat.board ≡ board.now.id) × (right.0.seat.view.over ≡ 0) × (right.1.seat.view.over ≡ 0) }
            ensures { (result.0.seat.board ≡ board.entry.now.id) × (result.1.seat.board ≡ board.entry.now.id) }
        { two_work(rt, board, right.0, right.1) },
    )
}

// Takes in a worker's seat and its tickets.
fn take_in(
    board: &Board,
    owner: &mut Owner,
    tickets: &mut Vec<u64>,
    worker: Worker,
) -> Result<(), NoMemory>
    requires { (owner.old.board ≡ board.now.id) × (worker.seat.board ≡ board.now.id) }
    ensures { (owner.new.board ≡ owner.old.board) × (owner.new.view.made ≡ owner.old.view.made) × (owner.new.view.taken ≡ owner.old.view.taken + 1) }
{
    board.join(owner, worker.seat);
    tickets.extend_from_slice(worker.tickets.as_slice())?;
    Ok(())
}

fn counts_up(tickets: &[u64]) -> bool {
    tickets
        .iter()
        .enumerate()
        .all(|(place, &ticket)| place as u64 == ticket)
}

#[test]
fn four_threads_share_a_board(rt: HostRuntime) -> Result<(), Fail> {
    let alloc = rt.alloc();
    let (board, mut owner) = Board::new(alloc, 1_000_000, 4 * TURNS)?;
    let a = seated(alloc, &board, &mut owner, 40_000);
    let b = seated(alloc, &board, &mut owner, 30_000);
    let c = seated(alloc, &board, &mut owner, 60_000);
    let d = seated(alloc, &board, &mut owner, 50_000);
    let ((a, b), (c, d)) = four_work(&rt, &board, (a, b), (c, d));
    let mut tickets = Vec::new(alloc);
    take_in(&board, &mut owner, &mut tickets, a)?;
    take_in(&board, &mut owner, &mut tickets, b)?;
    take_in(&board, &mut owner, &mut tickets, c)?;
    take_in(&board, &mut owner, &mut tickets, d)?;
    tickets.sort()?;
    assert!(rt; tickets.len() == 40_000 && counts_up(tickets.as_slice()));
    assert!(rt;
        board.close(owner)
            == Totals {
                best: 30_000,
                drawn: 40_000
            }
    );
    Ok(())
}
