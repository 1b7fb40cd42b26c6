//! `stow plan`: the plans of a voyage, as departure files, and the certificate of their bound.
ghost use Rattle.std.specs.Prelude.{◌≡◌, ◌≤◌, IfOk, IfErr};
ghost use Rattle.stow_io.specs.Causes.{Rose};
ghost use Rattle.zero_one_model.specs.Building.{IsWithin};
ghost use Rattle.stow_cli.specs.Answers.{Judges, PlanOf, PlanWithin};
ghost use Rattle.voyage_files.specs.Booked.{IsBooked};
ghost use Rattle.stow_cli.specs.Voyages.{voyage_of};
ghost use Rattle.voyage_files.specs.Inputs.{IsReadBy};
ghost use Rattle.voyage_files.specs.Named.{names_of, IsStop, IsQuiet};

use crate::refusing::limit_text;
use crate::work::texts_of;
use plan_search::plan_voyage;
use std::alloc::Global;
use std::mem;
use std::sync::Wait;
use std::thread::Threads;
use stow_data::NoMemory;
use stow_io::{Folder, Gate};
use voyage_files::{Answer, BookedVoyage, Found, Inputs, ReadStop, read_inputs};
use zero_one_model::{Model, ModelNo};

/// The plans of the voyage of the inputs, found by a search of at most so many nodes, with their certificate; or why
/// there are none.
pub fn plan<'a, F: Folder, G: Gate + Sync, R: Threads + Wait + Sync>(
    rt: &R,
    alloc: Global,
    inputs: Inputs<'a>,
    workers: u32,
    budget: u64,
    folder: &mut F,
    gate: &G,
) -> Result<Answer, ReadStop<'a>>
    requires workers { 1 ≤ workers }
    requires most_workers { workers ≤ 16 }
    requires nodes { 1 ≤ budget }
    requires most_nodes { budget ≤ 100000 }
    ensures stays { F.files folder.new ≡ F.files folder.old }
    ensures gives { IfOk result (Judges (names_of inputs.entry) (F.files folder.old) (PlanOf budget (names_of inputs.entry).base)) }
    ensures later { F.faults folder.old ≤ F.faults folder.new }
    ensures quiet { IsQuiet result (F.faults folder.old) (F.faults folder.new) }
    ensures failed { IfErr result (IsStop (Rose (F.faults folder.old) (F.faults folder.new)) (IsReadBy (names_of inputs.entry) (F.files folder.old))) }
{
    let voyage = match read_inputs(alloc, inputs, folder)? {
        Found::Voyage(voyage) => voyage,
        Found::Refused(answer) => return Ok(answer),
    };
    let answer = plan_of(rt, alloc, inputs.base, &voyage, workers, budget, gate);
    drop(voyage);
    match answer {
        Ok(answer) => Ok(answer),
        Err(NoMemory) => Err(ReadStop::NoMemory),
    }
}

/// What a voyage is answered: the limits of the model come first, then the search.
fn plan_of<G: Gate + Sync, R: Threads + Wait + Sync>(
    rt: &R,
    alloc: Global,
    base: &str,
    v: &BookedVoyage,
    workers: u32,
    budget: u64,
    gate: &G,
) -> Result<Answer, NoMemory>
    requires booked { IsBooked v.now }
    requires workers { 1 ≤ workers }
    requires most_workers { workers ≤ 16 }
    requires nodes { 1 ≤ budget }
    requires most_nodes { budget ≤ 100000 }
    ensures { IfOk result (PlanOf budget base.now v.now) }
{
    match Model::build(alloc, &v.ship, &v.cargo) {
        Ok(model) => {
            let answer = plan_within(rt, alloc, base, v, &model, workers, budget, gate);
            drop(model);
            answer
        }
        Err(ModelNo::TooLarge { limit, value }) => {
            Ok(Answer::Large(limit_text(alloc, limit, value)?))
        }
        Err(ModelNo::NoMemory) => Err(NoMemory),
    }
}

/// What a voyage within the limits is answered.
fn plan_within<G: Gate + Sync, R: Threads + Wait + Sync>(
    rt: &R,
    alloc: Global,
    base: &str,
    v: &BookedVoyage,
    model: &Model,
    workers: u32,
    budget: u64,
    gate: &G,
) -> Result<Answer, NoMemory>
    requires booked { IsBooked v.now }
    requires model { model.now ≡ voyage_of v.now }
    requires workers { 1 ≤ workers }
    requires most_workers { workers ≤ 16 }
    requires nodes { 1 ≤ budget }
    requires most_nodes { budget ≤ 100000 }
    ensures { IfOk result (PlanWithin budget base.now v.now) }
{
    let planned = plan_voyage(rt, alloc, &v.ship, &v.cargo, model, workers, budget, gate)?;
    let texts = texts_of(alloc, base, v, &planned);
    // A command plans once, and the process ends behind it. To give the tree of 100,000 records back, block by block, takes
    // a twentieth of a second, in which no worker is busy.
    mem::forget(planned);
    texts
}
