//! The containers at the places of a set, and what their lifts cost.
ghost use Rattle.std.specs.Prelude.{◌≡◌, ◌↔◌, ◌⊎◌, ◌<◌, ◌≤◌, ◌^◌, ◌++◌, ◌∷◌, ℕ, true, IfOk, AllPairs, Contains, cond, [], length, if◌then◌else◌};
ghost use Rattle.stow_data.specs.Ship.{places};
ghost use Rattle.stow_data.specs.Plans.{IsKnown, held};
ghost use Rattle.voyage_meaning.specs.Moves.{leaves, lift_cost};
ghost use Rattle.plan_lifts.specs.Least.{counted};
ghost use Rattle.plan_lifts.specs.Spread.{has};
ghost use Rattle.plan_lifts.specs.Lifted.{IsListed, StandsIn, StandsInAt};

use std::alloc::Global;
use stow_data::{CallNo, Cargo, ContainerNo, FlagList, NoMemory, PlaceNo, Plan, Seq, Ship};

/// A list of containers' numbers.
pub type LiftList = Seq<ContainerNo>;

/// Marks what stands at a place of the set.
fn mark_at(plan: &Plan, set: &FlagList, p: PlaceNo, marked: &mut FlagList)
    requires known { (c : ℕ) → StandsInAt plan.now (has set.now) p c → c < length marked.old }
    requires first { p < length plan.now }
    requires second { p < length set.now }
    ensures marks { (c : ℕ) → (has marked.new c ≡ true) ↔ ((has marked.old c ≡ true) ⊎ StandsInAt plan.now (has set.now) p c) }
    ensures each { length marked.new ≡ length marked.old }
{
    if !*set.at(p.0 as usize) {
        return;
    }
    if let Some(c) = plan.at(p) {
        marked.set(c.0 as usize, true);
    }
}

/// For each container whether it stands at a place of the set.
fn marks(
    alloc: Global,
    ship: &Ship,
    cargo: &Cargo,
    plan: &Plan,
    set: &FlagList,
) -> Result<FlagList, NoMemory>
    requires known { IsKnown cargo.now plan.now }
    requires each_place { length plan.now ≡ length (places ship.now) }
    requires each_flag { length set.now ≡ length (places ship.now) }
    ensures marks { IfOk result (λ marked. (c : ℕ) → (has marked c ≡ true) ↔ StandsIn plan.now (has set.now) c) }
    ensures each { IfOk result (λ marked. length marked ≡ length cargo.now.containers) }
{
    let mut marked = Seq::filled(alloc, false, cargo.len() as usize)?;
    for p in 0..ship.places() {
        mark_at(plan, set, PlaceNo(p), &mut marked);
    }
    Ok(marked)
}

/// Appends a number where that is asked.
fn push_where(list: &mut LiftList, c: ContainerNo, also: bool) -> Result<(), NoMemory>
    ensures { IfOk result (λ _. list.new ≡ (if also then list.old ++ c ∷ [] else list.old)) }
{
    if also {
        list.push(c)?;
    }
    Ok(())
}

/// The numbers that are marked.
fn numbers_of(alloc: Global, cargo: &Cargo, marked: &FlagList) -> Result<LiftList, NoMemory>
    requires { length marked.now ≡ length cargo.now.containers }
    ensures rising { IfOk result (λ list. AllPairs (λ a b. a < b) list) }
    ensures marked { IfOk result (λ list. (c : ℕ) → Contains list c ↔ (has marked.now c ≡ true)) }
{
    let mut list = Seq::new(alloc);
    for c in 0..cargo.len() {
        push_where(&mut list, ContainerNo(c), *marked.at(c as usize))?;
    }
    Ok(list)
}

/// The containers at the places of a set, by rising number.
pub fn list_of(
    alloc: Global,
    ship: &Ship,
    cargo: &Cargo,
    plan: &Plan,
    set: &FlagList,
) -> Result<LiftList, NoMemory>
    requires known { IsKnown cargo.now plan.now }
    requires each_place { length plan.now ≡ length (places ship.now) }
    requires each_flag { length set.now ≡ length (places ship.now) }
    ensures { IfOk result (λ list. IsListed plan.now (has set.now) list) }
{
    let marked = marks(alloc, ship, cargo, plan, set)?;
    numbers_of(alloc, cargo, &marked)
}

/// Whether the call is the destination of a container.
fn is_bound(cargo: &Cargo, call: CallNo, c: ContainerNo) -> bool
    ensures { result ≡ leaves cargo.now call c }
{
    c.0 < cargo.len() && cargo.container(c).dest == call
}

/// What a lift from a place costs: the price of the call for a container that doesn't leave there.
fn cost_at(cargo: &Cargo, call: CallNo, plan: &Plan, p: PlaceNo) -> u64
    requires { p < length plan.now }
    ensures value { result ≡ lift_cost cargo.now call (held plan.now p) }
    ensures small { result ≤ 1000 }
{
    match plan.at(p) {
        None => 0,
        Some(c) => {
            if is_bound(cargo, call, c) {
                0
            } else {
                u64::from(cargo.tariff(call))
            }
        }
    }
}

/// The same where the place is of the set, and else nothing.
fn cost_where(cargo: &Cargo, call: CallNo, plan: &Plan, set: &FlagList, p: PlaceNo) -> u64
    requires first { p < length plan.now }
    requires second { p < length set.now }
    ensures value { result ≡ cond (has set.now p) (lift_cost cargo.now call (held plan.now p)) 0 }
    ensures small { result ≤ 1000 }
{
    if *set.at(p.0 as usize) {
        cost_at(cargo, call, plan, p)
    } else {
        0
    }
}

/// What the lifts from the places of a set cost.
pub fn cost_of(ship: &Ship, cargo: &Cargo, call: CallNo, plan: &Plan, set: &FlagList) -> u64
    requires each_place { length plan.now ≡ length (places ship.now) }
    requires each_flag { length set.now ≡ length (places ship.now) }
    ensures value { result ≡ counted (lift_cost cargo.now call) (has set.now) plan.now }
    ensures small { result ≤ 3000000 }
{
    let mut cost = 0;
    for p in 0..ship.places() {
        cost += cost_where(cargo, call, plan, set, PlaceNo(p));
    }
    cost
}
