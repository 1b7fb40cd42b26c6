//! What waits on the quay of a call.
ghost use Rattle.std.specs.Prelude.{◌≡◌, ◌↔◌, ◌⊎◌, ◌<◌, ◌++◌, ◌∷◌, [], ℕ, true, IfOk, IsTrue, AllPairs, Contains, length, if◌then◌else◌};
ghost use Rattle.stow_data.specs.Ship.{places};
ghost use Rattle.stowage_rules.specs.Plan.{IsWellFormed};
ghost use Rattle.plan_lifts.specs.Spread.{has};
ghost use Rattle.greedy_loader.specs.Calls.{GoesBack, GoesBackFrom, IsQuay, LoadsAt};

use crate::lifted::is_bound;
use crate::quay::in_order;
use std::alloc::Global;
use stow_data::{CallNo, Cargo, ContainerNo, FlagList, NoMemory, PlaceNo, Plan, Seq, Ship};

/// Marks what stands at a lifted place, where it has another destination.
fn mark_at(
    cargo: &Cargo,
    call: CallNo,
    before: &Plan,
    lifted: &FlagList,
    p: PlaceNo,
    marked: &mut FlagList,
)
    requires known { (c : ℕ) → GoesBackFrom cargo.now call before.now (has lifted.now) p c → c < length marked.old }
    requires first { p < length before.now }
    requires second { p < length lifted.now }
    ensures marks { (c : ℕ) → (has marked.new c ≡ true) ↔ ((has marked.old c ≡ true) ⊎ GoesBackFrom cargo.now call before.now (has lifted.now) p c) }
    ensures each { length marked.new ≡ length marked.old }
{
    if !*lifted.at(p.0 as usize) {
        return;
    }
    if let Some(c) = before.at(p) {
        if !is_bound(cargo, call, c) {
            marked.set(c.0 as usize, true);
        }
    }
}

/// For each container whether it was lifted and has another destination.
fn going_back(
    alloc: Global,
    ship: &Ship,
    cargo: &Cargo,
    call: CallNo,
    before: &Plan,
    lifted: &FlagList,
) -> Result<FlagList, NoMemory>
    requires formed { IsWellFormed ship.now cargo.now before.now }
    requires each_flag { length lifted.now ≡ length (places ship.now) }
    ensures marks { IfOk result (λ marked. (c : ℕ) → (has marked c ≡ true) ↔ GoesBack cargo.now call before.now (has lifted.now) c) }
    ensures each { IfOk result (λ marked. length marked ≡ length cargo.now.containers) }
{
    let mut marked = Seq::filled(alloc, false, cargo.len() as usize)?;
    for p in 0..ship.places() {
        mark_at(cargo, call, before, lifted, PlaceNo(p), &mut marked);
    }
    Ok(marked)
}

/// Whether a container waits on the quay: it is marked, or loads at the call.
fn is_waiting(cargo: &Cargo, call: CallNo, marked: &FlagList, c: ContainerNo) -> bool
    requires known { c < length cargo.now.containers }
    requires each { length marked.now ≡ length cargo.now.containers }
    ensures { IsTrue result ↔ ((has marked.now c ≡ true) ⊎ LoadsAt cargo.now call c) }
{
    *marked.at(c.0 as usize) || cargo.container(c).load == call
}

/// Appends a container where that is asked.
fn push_where(list: &mut Seq<ContainerNo>, c: ContainerNo, also: bool) -> Result<(), NoMemory>
    ensures { IfOk result (λ _. list.new ≡ (if also then list.old ++ c ∷ [] else list.old)) }
{
    if also {
        list.push(c)?;
    }
    Ok(())
}

/// The containers that wait, by number.
fn waiting(
    alloc: Global,
    cargo: &Cargo,
    call: CallNo,
    marked: &FlagList,
) -> Result<Seq<ContainerNo>, NoMemory>
    requires each { length marked.now ≡ length cargo.now.containers }
    ensures rising { IfOk result (λ list. AllPairs (λ a b. a < b) list) }
    ensures waits { IfOk result (λ list. (c : ℕ) → Contains list c ↔ ((has marked.now c ≡ true) ⊎ LoadsAt cargo.now call c)) }
{
    let mut list = Seq::new(alloc);
    for c in 0..cargo.len() {
        push_where(
            &mut list,
            ContainerNo(c),
            is_waiting(cargo, call, marked, ContainerNo(c)),
        )?;
    }
    Ok(list)
}

/// The containers on the quay of a call, in their order.
pub fn quay_of(
    alloc: Global,
    ship: &Ship,
    cargo: &Cargo,
    call: CallNo,
    before: &Plan,
    lifted: &FlagList,
) -> Result<Seq<ContainerNo>, NoMemory>
    requires formed { IsWellFormed ship.now cargo.now before.now }
    requires each_flag { length lifted.now ≡ length (places ship.now) }
    ensures { IfOk result (λ quay. IsQuay cargo.now call before.now (has lifted.now) quay) }
{
    let marked = going_back(alloc, ship, cargo, call, before, lifted)?;
    let list = waiting(alloc, cargo, call, &marked)?;
    in_order(alloc, cargo, list.as_slice())
}
