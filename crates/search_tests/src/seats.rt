//! Two workers and one root, event by event.
use search_core::{Done, NodeKey, Refused, Seats};
use std::alloc::Global;
use std::test::Fail;
use stow_data::NoMemory;

/// Two workers with room for eight events.
fn two_workers(alloc: Global, budget: u64) -> Result<Seats<u32>, NoMemory> {
    let mut seats: Seats<u32> = Seats::start(alloc, 2, 5, budget)?;
    seats.reserve(8)?;
    Ok(seats)
}

#[test]
fn a_thief_takes_the_root(rt: HostRuntime) -> Result<(), Fail> {
    let mut seats = two_workers(rt.alloc(), 1)?;
    assert!(rt; seats.pop(1) == Err(Refused::DequeEmpty));
    assert!(rt; seats.steal(1, 0).is_ok());
    assert!(rt;
        seats.steal(1, 0) == Err(Refused::HandFull) && seats.pop(0) == Err(Refused::DequeEmpty)
    );
    Ok(())
}

#[test]
fn a_worker_sees_the_start(rt: HostRuntime) -> Result<(), Fail> {
    let mut seats = two_workers(rt.alloc(), 1)?;
    assert!(rt; seats.workers() == 2);
    assert!(rt; seats.word() == 5 && seats.hand(1).is_none() && seats.waiting(0) == 1);
    assert!(rt; seats.load(2) == Err(Refused::NoWorker) && seats.load(1).is_ok());
    Ok(())
}

/// Pushes a child, where there is room.
fn push(seats: &mut Seats<u32>, worker: u32) -> Result<(), Refused> {
    if seats.spare() == 0 {
        return Ok(());
    }
    seats.push(worker)
}

/// Draws a ticket, where there is room.
fn draw(seats: &mut Seats<u32>, worker: u32) -> Result<(), Refused> {
    if seats.spare() == 0 {
        return Ok(());
    }
    seats.draw(worker)
}

/// Divides the node in a worker's hand.
fn divide(seats: &mut Seats<u32>, worker: u32) {
    if seats.spare() == 0 || worker as usize >= seats.workers() {
        return;
    }
    if let Some(node) = seats.hand(worker) {
        seats.divide_hand(worker, Done { node, entry: 0 });
    }
}

/// One worker divides the root; the other steals the half of value 1, for which the budget has ended.
fn run(alloc: Global) -> Result<Seats<u32>, NoMemory> {
    let mut seats = two_workers(alloc, 1)?;
    let _ = seats.pop(0);
    let _ = draw(&mut seats, 0);
    divide(&mut seats, 0);
    let _ = push(&mut seats, 0);
    let _ = push(&mut seats, 0);
    let _ = seats.steal(1, 0);
    Ok(seats)
}

/// Whether a worker has this half of the root in its hand.
fn has_half(seats: &Seats<u32>, worker: u32, value: bool) -> bool {
    if worker as usize >= seats.workers() {
        return false;
    }
    seats.hand(worker) == Some(NodeKey::Half { entry: 0, value })
}

#[test]
fn the_first_half_is_stolen_and_left(rt: HostRuntime) -> Result<(), Fail> {
    let mut seats = run(rt.alloc())?;
    assert!(rt; push(&mut seats, 0) == Err(Refused::NoChild) && seats.pop(0).is_ok());
    assert!(rt; has_half(&seats, 1, true) && has_half(&seats, 0, false));
    assert!(rt; draw(&mut seats, 1).is_ok() && draw(&mut seats, 1) == Err(Refused::HandEmpty));
    let (ended, left, word) = seats.finish();
    assert!(rt; ended.len() == 1 && left.len() == 1 && word == 5);
    Ok(())
}

#[test]
fn draws_and_offers_are_seen(rt: HostRuntime) -> Result<(), Fail> {
    let mut seats = two_workers(rt.alloc(), 1)?;
    assert!(rt; draw(&mut seats, 0) == Err(Refused::HandEmpty) && seats.pop(0).is_ok());
    assert!(rt; draw(&mut seats, 0).is_ok() && draw(&mut seats, 0) == Err(Refused::HasTicket));
    seats.offer(3);
    seats.offer(4);
    assert!(rt; seats.word() == 3 && draw(&mut seats, 2) == Err(Refused::NoWorker));
    Ok(())
}
