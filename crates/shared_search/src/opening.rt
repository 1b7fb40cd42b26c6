//! How a rack is opened.
ghost use Rattle.std.specs.Prelude.{◌≡◌, ◌-◌, ◌<◌, ◌≤◌, IfOk, ◌∷◌, length, map};
ghost use Rattle.crossbeam_deque.specs.Handles.{worker_deque};
ghost use Rattle.search_core.specs.Bags.{Every};
ghost use Rattle.shared_search.specs.Racks.{IsPassAt, IsFresh, AreAll, count_from, number_of, room_at};
ghost use Rattle.shared_search.specs.Rounds.{FitsNew, IsUnused, AreLifo, deques, own_of, row_of, stolen_from, AreNone, HasNoMiss};
ghost use Rattle.shared_search.specs.Bags.{Each};

use crate::deques::{Deque, Thief, Token, deque, token};
use crate::racks::{Pass, Rack};
use crate::rule::Wanted;
use std::alloc::Global;
use std::vec;
use stow_data::NoMemory;

// Deques, and what steals from them.
#[derive(Drop)]
pub(crate) struct Begun<M: Wanted> {
    pub owns: Vec<Deque<M>>,
    pub thieves: Vec<Thief<M>>,
}

// Deques, and tokens of all of them, so many of each.
#[derive(Drop)]
pub(crate) struct Dealt<M: Wanted> {
    pub owns: Vec<Deque<M>>,
    pub rows: Vec<Vec<Token>>,
}

// Empty deques, with room for so many puts.
fn make_deques<M: Wanted>(alloc: Global, workers: usize, room: usize) -> Result<Begun<M>, NoMemory>
    ensures unused { IfOk result (λ b. Every (IsUnused room 1024) b.owns.items) }
    ensures same { IfOk result (λ b. stolen_from b.thieves.items ≡ deques b.owns.items) }
    ensures lifo { IfOk result (λ b. AreLifo b.thieves.items) }
    ensures count { IfOk result (λ b. length b.owns.items ≡ workers) }
{
    let mut owns = Vec::new(alloc);
    let mut thieves = Vec::new(alloc);
    for number in 0..workers {
        let own = deque(alloc, room)?;
        thieves.push(own.stealer()?)?;
        owns.push(own)?;
    }
    Ok(Begun { owns, thieves })
}

// A token of a deque.
fn deal_one<M: Wanted>(own: Deque<M>, held: usize, room: usize) -> (Deque<M>, Token)
    requires { (1 < held) × IsUnused room held own }
    ensures unused { IsUnused room (held - 1) result.0 }
    ensures same { worker_deque result.0 ≡ worker_deque own }
    ensures fit { FitsNew (worker_deque own) result.1 }
{
    let mut own = own;
    let token = token(&mut own);
    (own, token)
}

// A token of each deque.
fn deal<M: Wanted>(
    alloc: Global,
    owns: Vec<Deque<M>>,
    held: usize,
    room: usize,
) -> Result<(Vec<Deque<M>>, Vec<Token>), NoMemory>
    requires { (1 < held) × Every (IsUnused room held) owns.items }
    ensures unused { IfOk result (λ r. Every (IsUnused room (held - 1)) r.0.items) }
    ensures same { IfOk result (λ r. deques r.0.items ≡ deques owns.items) }
    ensures fit { IfOk result (λ r. Each FitsNew (deques owns.items) r.1.items) }
{
    let mut out = Vec::new(alloc);
    let mut tokens = Vec::new(alloc);
    for own in owns {
        let (own, token) = deal_one(own, held, room);
        out.push(own)?;
        tokens.push(token)?;
    }
    Ok((out, tokens))
}

// So many tokens of each deque.
fn deal_all<M: Wanted>(
    alloc: Global,
    owns: Vec<Deque<M>>,
    workers: usize,
    room: usize,
) -> Result<Dealt<M>, NoMemory>
    requires { (workers ≤ 16) × Every (IsUnused room 1024) owns.items }
    ensures unused { IfOk result (λ d. Every (IsUnused room (1024 - workers)) d.owns.items) }
    ensures same { IfOk result (λ d. deques d.owns.items ≡ deques owns.items) }
    ensures fit { IfOk result (λ d. Every (λ row. Each FitsNew (deques owns.items) row.items) d.rows.items) }
    ensures count { IfOk result (λ d. length d.rows.items ≡ workers) }
{
    let mut owns = owns;
    let mut rows = Vec::new(alloc);
    for row in 0..workers {
        let (more, tokens) = deal(alloc, owns, 1024 - row, room)?;
        owns = more;
        rows.push(tokens)?;
    }
    Ok(Dealt { owns, rows })
}

// The next row of tokens.
fn next_row(rows: &mut vec::IntoIter<Vec<Token>>) -> Vec<Token>
    requires { 0 < length rows.old.rest.items }
    ensures { rows.old.rest.items ≡ result ∷ rows.new.rest.items }
{
    match rows.next() {
        Some(row) => row,
        None => unreachable!(),
    }
}

// For each of so many deques, no empty find.
fn no_misses(alloc: Global, workers: usize) -> Result<Vec<u64>, NoMemory>
    ensures { IfOk result (λ counts. AreNone workers counts.items) }
{
    Ok(vec![in alloc; 0u64; workers]?)
}

// A pass for each deque, numbered from 0.
fn passes_of<M: Wanted>(alloc: Global, dealt: Dealt<M>) -> Result<Vec<Pass<M>>, NoMemory>
    requires { length dealt.rows.items ≡ length dealt.owns.items }
    ensures owns { IfOk result (λ passes. map own_of passes.items ≡ dealt.owns.items) }
    ensures rows { IfOk result (λ passes. map row_of passes.items ≡ map (λ row. row.items) dealt.rows.items) }
    ensures numbers { IfOk result (λ passes. map number_of passes.items ≡ count_from 0 (length dealt.owns.items)) }
    ensures counts { IfOk result (λ passes. Every (HasNoMiss (length dealt.owns.items)) passes.items) }
{
    let Dealt { owns, rows } = dealt;
    let workers = owns.len();
    let mut rows = rows.into_iter();
    let mut passes = Vec::new(alloc);
    for own in owns {
        let number = passes.len();
        let tokens = next_row(&mut rows);
        let misses = no_misses(alloc, workers)?;
        passes.push(Pass {
            own,
            number,
            tokens,
            misses,
        })?;
    }
    Ok(passes)
}

impl<M: Wanted> Rack<M> {
    /// Empty deques, one for each of 1 to 16 workers, and a pass for each, in order. The first `room` puts of a pass aren't refused.
    pub fn new(
        alloc: Global,
        workers: usize,
        room: usize,
    ) -> Result<(Rack<M>, Vec<Pass<M>>), NoMemory>
        requires { (0 < workers) × (workers ≤ 16) }
        ensures passes { IfOk result (λ r. Every (IsPassAt r.0) r.1.items) }
        ensures fresh { IfOk result (λ r. Every IsFresh r.1.items) }
        ensures all { IfOk result (λ r. AreAll r.0 r.1.items) }
        ensures workers { IfOk result (λ r. length r.0.thieves.items ≡ workers) }
        ensures room { IfOk result (λ r. room_at r.0 ≡ room) }
    {
        let Begun { owns, thieves } = make_deques(alloc, workers, room)?;
        let dealt = deal_all(alloc, owns, workers, room)?;
        let passes = passes_of(alloc, dealt)?;
        Ok((Rack { thieves, room }, passes))
    }
}
