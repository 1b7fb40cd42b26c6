//! How a rack is closed.
ghost use Rattle.std.specs.Prelude.{◌≡◌, ℕ, ◌+◌, ◌-◌, ◌<◌, ◌≤◌, ◌++◌, [], List, MatchOption, option_to_list, IfOk, OnOk, length, map};
ghost use Rattle.crossbeam_deque.specs.Handles.{IsPassOf, worker_deque, worker_flavor, worker_view, view};
ghost use Rattle.certificate.specs.declared.nodes.Node.{Node};
ghost use Rattle.search_core.specs.Bags.{weigh, Every};
ghost use Rattle.shared_search.specs.Racks.{stolen_weight, IsPassAt, AreAll, all_put, all_took, room_at};
ghost use Rattle.shared_search.specs.Tallies.{did_of, workers_of, room_of};
ghost use Rattle.shared_search.specs.Rounds.{IsHeld, Fits, deques, own_of, own_put, own_took, row_of};
ghost use Rattle.shared_search.specs.Bags.{Each};

use crate::deques::{Deque, Token, give_back, rest};
use crate::opening::Dealt;
use crate::racks::{Pass, Rack};
use crate::rule::Wanted;
use crate::tally::{Tally, tally_of};
use certificate::Node;
use std::alloc::Global;
use stow_data::NoMemory;

// Gives a token back to its deque.
fn take_back<M: Wanted>(own: Deque<M>, token: Option<Token>, held: usize) -> Deque<M>
    requires held { (0 < held) × IsHeld held own }
    requires token { MatchOption token ⊥ (λ t. Fits (worker_deque own) t) }
    ensures held { IsHeld (held + 1) result }
    ensures same { worker_deque result ≡ worker_deque own }
    ensures bag { (h : Node → ℕ) → (weigh h (worker_view result).put ≡ weigh h (worker_view own).put) × (weigh h (worker_view result).took ≡ weigh h (worker_view own).took + stolen_weight h (option_to_list token)) }
{
    let mut own = own;
    match token {
        Some(token) => {
            give_back(&mut own, token);
            own
        }
        None => own,
    }
}

// Adds the nodes of one list to another.
fn append_nodes(to: &mut Vec<Node>, from: Vec<Node>) -> Result<(), NoMemory>
    ensures { OnOk result (to.new.items ≡ to.old.items ++ from.items) }
{
    for node in from {
        to.push(node)?;
    }
    Ok(())
}

/// Gives one worker's tokens back, one to each deque.
pub fn absorb<M: Wanted>(
    alloc: Global,
    owns: Vec<Deque<M>>,
    tokens: Vec<Token>,
    held: usize,
) -> Result<Vec<Deque<M>>, NoMemory>
    requires held { (0 < held) × (held < 1024) × Every (IsHeld held) owns.items }
    requires fit { Each Fits (deques owns.items) tokens.items }
    ensures held { IfOk result (λ r. Every (IsHeld (held + 1)) r.items) }
    ensures same { IfOk result (λ r. deques r.items ≡ deques owns.items) }
    ensures bag { IfOk result (λ r. (h : Node → ℕ) → (own_put h r.items ≡ own_put h owns.items) × (own_took h r.items ≡ own_took h owns.items + stolen_weight h tokens.items)) }
{
    let mut out = Vec::new(alloc);
    let mut give = tokens.into_iter();
    for own in owns {
        let own = take_back(own, give.next(), held);
        out.push(own)?;
    }
    Ok(out)
}

/// What all deques still hold.
pub fn empty<M: Wanted>(alloc: Global, owns: Vec<Deque<M>>) -> Result<Vec<Node>, NoMemory>
    requires held { Every (IsHeld 1024) owns.items }
    ensures meets { IfOk result (λ r. Every M.meets r.items) }
    ensures bag { IfOk result (λ r. (h : Node → ℕ) → own_put h owns.items ≡ own_took h owns.items + weigh h r.items) }
{
    let mut all = Vec::new(alloc);
    for own in owns {
        let more = rest(alloc, own)?;
        append_nodes(&mut all, more)?;
    }
    Ok(all)
}

// The deques of passes, and their rows of tokens.
fn parted<M: Wanted>(alloc: Global, passes: Vec<Pass<M>>) -> Result<Dealt<M>, NoMemory>
    ensures owns { IfOk result (λ d. d.owns.items ≡ map own_of passes.items) }
    ensures rows { IfOk result (λ d. map (λ row. row.items) d.rows.items ≡ map row_of passes.items) }
{
    let mut owns = Vec::new(alloc);
    let mut rows = Vec::new(alloc);
    for pass in passes {
        let Pass {
            own,
            number: _,
            tokens,
            misses,
        } = pass;
        drop(misses);
        owns.push(own)?;
        rows.push(tokens)?;
    }
    Ok(Dealt { owns, rows })
}

// Gives all tokens back.
fn absorb_all<M: Wanted>(alloc: Global, dealt: Dealt<M>) -> Result<Vec<Deque<M>>, NoMemory>
    requires held { Every (IsHeld (1024 - length dealt.rows.items)) dealt.owns.items }
    requires few { length dealt.rows.items ≤ 16 }
    requires fit { Every (λ row. Each Fits (deques dealt.owns.items) row.items) dealt.rows.items }
    ensures held { IfOk result (λ r. Every (IsHeld 1024) r.items) }
    ensures bag { IfOk result (λ r. (h : Node → ℕ) → (own_put h r.items ≡ own_put h dealt.owns.items) × (own_took h r.items ≡ own_took h dealt.owns.items + weigh (λ row. stolen_weight h row.items) dealt.rows.items)) }
{
    let Dealt { owns, rows } = dealt;
    let mut owns = owns;
    let mut held = 1024 - rows.len();
    for tokens in rows {
        owns = absorb(alloc, owns, tokens, held)?;
        held += 1;
    }
    Ok(owns)
}

/// What a closed rack still held, and what each worker put and took.
#[derive(Drop)]
pub struct Closed {
    pub rest: Vec<Node>,
    pub tally: Tally,
}

impl<M: Wanted> Rack<M> {
    // What the deques still hold, once all passes are back.
    fn emptied(self, alloc: Global, passes: Vec<Pass<M>>) -> Result<Vec<Node>, NoMemory>
        requires passes { Every (IsPassAt self) passes.items }
        requires all { AreAll self passes.items }
        ensures meets { IfOk result (λ rest. Every M.meets rest.items) }
        ensures bag { IfOk result (λ rest. (h : Node → ℕ) → all_put h passes.items ≡ all_took h passes.items + weigh h rest.items) }
    {
        let dealt = parted(alloc, passes)?;
        let owns = absorb_all(alloc, dealt)?;
        empty(alloc, owns)
    }

    /// Closes the rack, once all passes are back, and tells what the deques still held and what each worker put and took. What all put is, as a bag, what they took and what the deques held.
    pub fn close(self, alloc: Global, passes: Vec<Pass<M>>) -> Result<Closed, NoMemory>
        requires passes { Every (IsPassAt self) passes.items }
        requires all { AreAll self passes.items }
        ensures meets { IfOk result (λ closed. Every M.meets closed.rest.items) }
        ensures bag { IfOk result (λ closed. (h : Node → ℕ) → all_put h passes.items ≡ all_took h passes.items + weigh h closed.rest.items) }
        ensures tally { IfOk result (λ closed. workers_of closed.tally ≡ map did_of passes.items) }
        ensures room { IfOk result (λ closed. room_of closed.tally ≡ room_at self) }
    {
        let (passes, tally) = tally_of(alloc, &self, passes)?;
        let rest = self.emptied(alloc, passes)?;
        Ok(Closed { rest, tally })
    }
}
