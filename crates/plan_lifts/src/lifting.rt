//! What must be lifted at each call of a voyage, and the cost of its departures.
ghost use Rattle.std.specs.Prelude.{◌≡◌, ◌↔◌, ◌<◌, ◌≤◌, ◌+◌, ℕ, List, true, IfOk, IsTrue, MatchResult, length, slice_get};
ghost use Rattle.stow_data.specs.Ship.{places};
ghost use Rattle.stow_data.specs.Plans.{IsKnown};
ghost use Rattle.stowage_rules.specs.Departure.{HasArrival};
ghost use Rattle.voyage_meaning.specs.declared.moves.Move.{Move};
ghost use Rattle.voyage_meaning.specs.Voyage.{HasCost, IsLegalVoyage};
ghost use Rattle.plan_lifts.specs.Least.{IsFilled, IsLeastClosed};
ghost use Rattle.plan_lifts.specs.Spread.{has, IsHeldIn};
ghost use Rattle.plan_lifts.specs.Lifted.{ArePlans, IsLifted, IsLiftsFault, LiftAll, LiftsFrom};

use crate::listing::{LiftList, cost_of, list_of};
use crate::picking::places_where;
use crate::spreading::{add_on_opened, covers_opened, spread};
use std::alloc::Global;
use stow_data::{CallNo, Cargo, FlagList, NoMemory, PlaceNo, Plan, PlanList, Seq, Ship};
use stowage_rules::{RuleBroken, departure_fault};

/// For each call a list of containers' numbers.
pub type LiftLists = Seq<LiftList>;

/// What is lifted on a voyage.
#[derive(Drop)]
pub struct Lifted {
    /// For each call the containers that are lifted there, those that leave included, by rising number.
    pub lists: LiftLists,
    /// The cost: the price of its call for each lift of a container at a call other than its destination.
    pub cost: u64,
}

/// Why there are no lists.
#[derive(Clone, Copy)]
pub enum LiftsFault {
    /// The departure of this call is the first that breaks a rule, and this is its first fault.
    Illegal { call: CallNo, rule: RuleBroken },
    NoMemory,
}

impl From<NoMemory> for LiftsFault {
    ghost use Rattle.std.specs.Prelude.{◌≡◌};
    ghost use Rattle.plan_lifts.specs.declared.lifting.LiftsFault.TheVariants.{NoMemory};

    ghost from_gives = { λ _ e. e ≡ NoMemory };

    fn from(_: NoMemory) -> Self {
        LiftsFault::NoMemory
    }
}

/// Whether two plans differ at a place.
fn differs(before: &Plan, after: &Plan, p: PlaceNo) -> bool
    requires first { p < length before.now }
    requires second { p < length after.now }
    ensures { IsTrue result ↔ (slice_get before.now p ≡ slice_get after.now p → ⊥) }
{
    before.at(p) != after.at(p)
}

/// The places at which two plans of a ship differ.
pub fn changes(
    alloc: Global,
    ship: &Ship,
    before: &Plan,
    after: &Plan,
) -> Result<FlagList, NoMemory>
    requires first { length before.now ≡ length (places ship.now) }
    requires second { length after.now ≡ length (places ship.now) }
    ensures differ { IfOk result (λ set. (p : ℕ) → (has set p ≡ true) ↔ (slice_get before.now p ≡ slice_get after.now p → ⊥)) }
    ensures each_flag { IfOk result (λ set. length set ≡ length (places ship.now)) }
{
    places_where(alloc, ship, |p| differs(before, after, p))
}

/// Whether a place of a set is filled.
fn is_held(plan: &Plan, set: &FlagList, p: PlaceNo) -> bool
    requires first { p < length plan.now }
    requires second { p < length set.now }
    ensures { IsTrue result ↔ IsHeldIn plan.now (has set.now) p }
{
    match plan.at(p) {
        None => false,
        Some(_) => *set.at(p.0 as usize),
    }
}

/// The filled places of a set.
pub fn held_of(
    alloc: Global,
    ship: &Ship,
    plan: &Plan,
    set: &FlagList,
) -> Result<FlagList, NoMemory>
    requires each_place { length plan.now ≡ length (places ship.now) }
    requires each_flag { length set.now ≡ length (places ship.now) }
    ensures filled { IfOk result (λ filled. (p : ℕ) → (has filled p ≡ true) ↔ IsHeldIn plan.now (has set.now) p) }
    ensures each_flag { IfOk result (λ filled. length filled ≡ length (places ship.now)) }
{
    places_where(alloc, ship, |p| is_held(plan, set, p))
}

/// The places that must be lifted at a call that leads from one plan to the next: what changes, what stands on a cover under which something changes, and what that spreads to.
pub fn must_lift(
    alloc: Global,
    ship: &Ship,
    before: &Plan,
    after: &Plan,
) -> Result<FlagList, NoMemory>
    requires first { length before.now ≡ length (places ship.now) }
    requires second { length after.now ≡ length (places ship.now) }
    ensures least { IfOk result (λ set. IsLeastClosed ship.now before.now after.now (has set)) }
    ensures filled { IfOk result (λ set. IsFilled before.now (has set)) }
    ensures each_flag { IfOk result (λ set. length set ≡ length (places ship.now)) }
{
    let changed = changes(alloc, ship, before, after)?;
    let mut seeds = held_of(alloc, ship, before, &changed)?;
    let opened = covers_opened(alloc, ship, &changed)?;
    add_on_opened(ship, before, &opened, &mut seeds);
    spread(alloc, ship, before, seeds)
}

/// Appends for each call from one on the containers that are lifted there; Ok has the cost of these calls.
fn lift_from(
    alloc: Global,
    ship: &Ship,
    cargo: &Cargo,
    call: CallNo,
    before: &Plan,
    plans: &[Plan],
    lists: &mut LiftLists,
) -> Result<u64, LiftsFault>
    requires known { IsKnown cargo.now before.now }
    requires each_place { length before.now ≡ length (places ship.now) }
    requires formed { ArePlans ship.now cargo.now call plans.now }
    requires few { call + length plans.now ≤ 12 }
    ensures { MatchResult result (λ n. LiftsFrom ship.now cargo.now call before.now plans.now lists.old lists.new n) (λ f. IsLiftsFault ship.now cargo.now plans.now call f) }
{
    let Some((after, rest)) = plans.split_first() else {
        return Ok(0);
    };
    if let Some(rule) = departure_fault(ship, cargo, after) {
        return Err(LiftsFault::Illegal { call, rule });
    }
    let set = must_lift(alloc, ship, before, after)?;
    let list = list_of(alloc, ship, cargo, before, &set)?;
    lists.push(list)?;
    let here = cost_of(ship, cargo, call, before, &set);
    let later = lift_from(alloc, ship, cargo, CallNo(call.0 + 1), after, rest, lists)?;
    Ok(here + later)
}

/// What must be lifted on each voyage with these departures, and their cost, which no legal voyage with them undercuts. Illegal comes exactly where a departure breaks a rule. It takes time linear in places and containers for each call.
pub fn lifts(
    alloc: Global,
    ship: &Ship,
    cargo: &Cargo,
    plans: &PlanList,
) -> Result<Lifted, LiftsFault>
    requires arrival { HasArrival ship.now cargo.now }
    requires each_call { length plans.now + 1 ≡ length cargo.now.rotation }
    requires formed { ArePlans ship.now cargo.now 1 plans.now }
    ensures lists { MatchResult result (λ lifted. IsLifted ship.now cargo.now plans.now lifted.lists) (λ f. IsLiftsFault ship.now cargo.now plans.now 1 f) }
    ensures cost { IfOk result (λ lifted. HasCost ship.now cargo.now plans.now lifted.cost) }
    ensures must { IfOk result (λ lifted. (voyage : List (List Move)) → IsLegalVoyage ship.now cargo.now voyage plans.now → LiftAll ship.now cargo.now 1 cargo.now.arrival voyage plans.now lifted.lists) }
{
    let mut lists = Seq::new(alloc);
    ship.obeys_rules();
    cargo.obeys_rules();
    let cost = lift_from(
        alloc,
        ship,
        cargo,
        CallNo(1),
        cargo.arrival(),
        plans.as_slice(),
        &mut lists,
    )?;
    Ok(Lifted { lists, cost })
}
