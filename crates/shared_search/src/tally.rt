//! What the workers of a rack put and took.
ghost use Rattle.std.specs.Prelude.{◌≡◌, ◌+◌, ◌++◌, ◌∷◌, [], IfOk, map};
ghost use Rattle.crossbeam_deque.specs.Handles.{view, worker_view};
ghost use Rattle.search_core.specs.Bags.{Every};
ghost use Rattle.shared_search.specs.Racks.{IsPassAt, number_of, room_at};
ghost use Rattle.shared_search.specs.Tallies.{did_of, did_by, room_of, workers_of};

use crate::deques::{Token, note};
use crate::racks::{Pass, Rack};
use crate::rule::Wanted;
use certificate::Node;
use std::alloc::Global;
use std::collections::LinkedList;
use std::snapshot::Snapshot;
use stow_data::NoMemory;

/// What one worker put, and what it took. No value of it is made.
pub struct Did {
    pub put: LinkedList<Node>,
    pub took: LinkedList<Node>,
}

// What one worker knew of its own deque and of all deques, as contracts see it.
#[derive(Drop)]
pub(crate) struct Known {
    own: Snapshot<Token>,
    stolen: Snapshot<Vec<Token>>,
}

/// What each worker of a closed rack put and took, as contracts see it. `Rack::close` alone makes one.
#[derive(Drop)]
pub struct Tally {
    workers: Vec<Known>,
    room: usize,
}

// What a pass knows.
fn known_of<M: Wanted>(rack: &Rack<M>, pass: Pass<M>) -> (Pass<M>, Known)
    requires { IsPassAt rack.now pass }
    ensures pass { IsPassAt rack.now result.0 }
    ensures number { result.0.number ≡ pass.number }
    ensures same { did_of result.0 ≡ did_of pass }
    ensures known { did_by result.1 ≡ did_of pass }
{
    let mut pass = pass;
    let token = note(&mut pass.own);
    let known = Known {
        own: Snapshot::of(&token),
        stolen: Snapshot::of(&pass.tokens),
    };
    drop(token);
    (pass, known)
}

/// What all passes know.
pub(crate) fn tally_of<M: Wanted>(
    alloc: Global,
    rack: &Rack<M>,
    passes: Vec<Pass<M>>,
) -> Result<(Vec<Pass<M>>, Tally), NoMemory>
    requires { Every (IsPassAt rack.now) passes.items }
    ensures passes { IfOk result (λ r. Every (IsPassAt rack.now) r.0.items) }
    ensures numbers { IfOk result (λ r. map number_of r.0.items ≡ map number_of passes.items) }
    ensures same { IfOk result (λ r. map did_of r.0.items ≡ map did_of passes.items) }
    ensures tally { IfOk result (λ r. workers_of r.1 ≡ map did_of passes.items) }
    ensures room { IfOk result (λ r. room_of r.1 ≡ room_at rack.now) }
{
    let mut out = Vec::new(alloc);
    let mut workers = Vec::new(alloc);
    for pass in passes {
        let (pass, known) = known_of(rack, pass);
        out.push(pass)?;
        workers.push(known)?;
    }
    let room = rack.room;
    Ok((out, Tally { workers, room }))
}
