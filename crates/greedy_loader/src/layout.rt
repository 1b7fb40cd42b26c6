//! A plan in the making, and what is kept of it from put to put.
ghost use Rattle.std.specs.Prelude.{◌≡◌, ◌≤◌, ◌<◌, ◌↔◌, ◌+◌, ℕ, IfOk, None, OnOk, Some, if◌then◌else◌, length, nat_lt, replicate, slice_get, slice_set};
ghost use Rattle.stow_data.specs.Kinds.{rounded};
ghost use Rattle.stow_data.specs.Ship.{places};
ghost use Rattle.greedy_loader.specs.Kept.{AreClassed, AreEarliest, AreLaden, AreTops, AreWeights, CanStand, IsKept};

use std::alloc::Global;
use stow_data::{
    CallNo, Cargo, Container, ContainerNo, FlagList, NoMemory, Place, PlaceNo, Plan, Seq, Ship,
    StackNo,
};

/// A plan in the making, with what the rule asks of it again and again.
#[derive(Drop)]
pub struct Layout {
    pub plan: Plan,
    /// For each stack the sum of the rounded weights in it, in kilograms.
    pub weights: Seq<u64>,
    /// For each stack a tier above which nothing stands in it.
    pub tops: Seq<u32>,
    /// For each hatch cover whether something stands on it.
    pub laden: FlagList,
    /// For each hatch cover the earliest destination under it, at most the last call.
    pub earliest: Seq<CallNo>,
    /// The places of all containers that have a class.
    pub classed: Seq<PlaceNo>,
}

/// Adds a weight of this many kilograms, rounded, to that of a stack.
fn add_weight(weights: &mut Seq<u64>, ship: &Ship, s: StackNo, kg: u32)
    requires inside { s < length weights.old }
    requires kg { kg ≤ 99999 }
    requires small { (w : ℕ) → slice_get weights.old s ≡ Some w → w ≤ 330000000 }
    ensures { (w : ℕ) → slice_get weights.old s ≡ Some w → weights.new ≡ slice_set weights.old s (w + rounded ship.now.weight_step kg) }
{
    let weight = *weights.at(s.0 as usize);
    weights.set(s.0 as usize, weight + u64::from(ship.rounded(kg)));
}

/// The weights of the stacks after container `c` is put at a place.
fn weigh(
    weights: &mut Seq<u64>,
    ship: &Ship,
    cargo: &Cargo,
    plan: &Plan,
    p: PlaceNo,
    place: &Place,
    c: ContainerNo,
    x: &Container,
)
    requires can { CanStand ship.now cargo.now plan.now p c place.now x.now }
    requires kg { x.now.kg ≤ 99999 }
    requires each_stack { length weights.old ≡ length ship.now.stacks }
    requires weights { AreWeights ship.now cargo.now plan.now weights.old }
    ensures weights { AreWeights ship.now cargo.now (slice_set plan.now p (Some c)) weights.new }
    ensures each_stack { length weights.new ≡ length ship.now.stacks }
{
    ship.obeys_rules();
    cargo.obeys_rules();
    add_weight(weights, ship, place.stack, x.kg);
}

/// The higher of two tiers.
fn higher(a: u32, b: u32) -> u32
    ensures { result ≡ (if nat_lt a b then b else a) }
{
    if a < b { b } else { a }
}

/// Raises the top of a stack to a tier, where it is lower.
fn raise_to(tops: &mut Seq<u32>, s: StackNo, tier: u32)
    requires { s < length tops.old }
    ensures { (t : ℕ) → slice_get tops.old s ≡ Some t → tops.new ≡ slice_set tops.old s (if nat_lt t tier then tier else t) }
{
    let top = *tops.at(s.0 as usize);
    tops.set(s.0 as usize, higher(top, tier));
}

/// The tops of the stacks after container `c` is put at a place.
fn raise(
    tops: &mut Seq<u32>,
    ship: &Ship,
    cargo: &Cargo,
    plan: &Plan,
    p: PlaceNo,
    place: &Place,
    c: ContainerNo,
    x: &Container,
)
    requires can { CanStand ship.now cargo.now plan.now p c place.now x.now }
    requires each_stack { length tops.old ≡ length ship.now.stacks }
    requires tops { AreTops ship.now cargo.now plan.now tops.old }
    ensures tops { AreTops ship.now cargo.now (slice_set plan.now p (Some c)) tops.new }
    ensures each_stack { length tops.new ≡ length ship.now.stacks }
{
    raise_to(tops, place.stack, place.tier);
}

/// What stands on the covers after container `c` is put at a place.
fn lade(
    laden: &mut FlagList,
    ship: &Ship,
    cargo: &Cargo,
    plan: &Plan,
    p: PlaceNo,
    place: &Place,
    c: ContainerNo,
    x: &Container,
)
    requires can { CanStand ship.now cargo.now plan.now p c place.now x.now }
    requires each_cover { length laden.old ≡ length ship.now.covers }
    requires laden { AreLaden ship.now plan.now laden.old }
    ensures laden { AreLaden ship.now (slice_set plan.now p (Some c)) laden.new }
    ensures each_cover { length laden.new ≡ length ship.now.covers }
{
    match ship.cover_under(place.stack) {
        None => (),
        Some(k) => laden.set(k.0 as usize, true),
    }
}

/// The earlier of two calls.
fn earlier(a: CallNo, b: CallNo) -> CallNo
    ensures { (v : ℕ) → (v ≤ result) ↔ ((v ≤ a) × (v ≤ b)) }
{
    if a.0 < b.0 { a } else { b }
}

/// The earliest destinations under the covers after container `c` is put at a place.
fn advance(
    earliest: &mut Seq<CallNo>,
    ship: &Ship,
    cargo: &Cargo,
    plan: &Plan,
    p: PlaceNo,
    place: &Place,
    c: ContainerNo,
    x: &Container,
)
    requires can { CanStand ship.now cargo.now plan.now p c place.now x.now }
    requires each_cover { length earliest.old ≡ length ship.now.covers }
    requires earliest { AreEarliest ship.now cargo.now plan.now earliest.old }
    ensures earliest { AreEarliest ship.now cargo.now (slice_set plan.now p (Some c)) earliest.new }
    ensures each_cover { length earliest.new ≡ length ship.now.covers }
{
    match ship.cover_over(place.stack) {
        None => (),
        Some(k) => {
            let before = *earliest.at(k.0 as usize);
            earliest.set(k.0 as usize, earlier(before, x.dest));
        }
    }
}

/// The places of containers that have a class after container `c` is put at a place.
fn note(
    classed: &mut Seq<PlaceNo>,
    ship: &Ship,
    cargo: &Cargo,
    plan: &Plan,
    p: PlaceNo,
    place: &Place,
    c: ContainerNo,
    x: &Container,
) -> Result<(), NoMemory>
    requires can { CanStand ship.now cargo.now plan.now p c place.now x.now }
    requires classed { AreClassed ship.now cargo.now plan.now classed.old }
    ensures { OnOk result (AreClassed ship.now cargo.now (slice_set plan.now p (Some c)) classed.new) }
{
    if x.class.is_some() {
        classed.push(p)?;
    }
    Ok(())
}

impl Layout {
    /// A ship on which nothing stands.
    pub fn empty(alloc: Global, ship: &Ship, cargo: &Cargo) -> Result<Layout, NoMemory>
        ensures plan { IfOk result (λ layout. layout.plan ≡ replicate (length (places ship.now)) None) }
        ensures kept { IfOk result (λ layout. IsKept ship.now cargo.now layout) }
    {
        let plan = Plan::empty(alloc, ship)?;
        let weights = Seq::filled(alloc, 0, ship.stacks() as usize)?;
        let tops = Seq::filled(alloc, 0, ship.stacks() as usize)?;
        let laden = Seq::filled(alloc, false, ship.covers() as usize)?;
        let earliest = Seq::filled(alloc, CallNo(cargo.calls()), ship.covers() as usize)?;
        Ok(Layout {
            plan,
            weights,
            tops,
            laden,
            earliest,
            classed: Seq::new(alloc),
        })
    }

    /// Puts container `c` at a place.
    pub fn put(
        &mut self,
        ship: &Ship,
        cargo: &Cargo,
        p: PlaceNo,
        c: ContainerNo,
    ) -> Result<(), NoMemory>
        requires kept { IsKept ship.now cargo.now self.old }
        requires p_in { p < length (places ship.now) }
        requires c_in { c < length cargo.now.containers }
        requires can { (place : Place) (x : Container) → slice_get (places ship.now) p ≡ Some place → slice_get cargo.now.containers c ≡ Some x → CanStand ship.now cargo.now self.old.plan p c place x }
        ensures plan { OnOk result (self.new.plan ≡ slice_set self.old.plan p (Some c)) }
        ensures kept { OnOk result (IsKept ship.now cargo.now self.new) }
    {
        cargo.obeys_rules();
        let place = ship.place(p);
        let x = cargo.container(c);
        note(&mut self.classed, ship, cargo, &self.plan, p, &place, c, x)?;
        weigh(&mut self.weights, ship, cargo, &self.plan, p, &place, c, x);
        raise(&mut self.tops, ship, cargo, &self.plan, p, &place, c, x);
        lade(&mut self.laden, ship, cargo, &self.plan, p, &place, c, x);
        advance(&mut self.earliest, ship, cargo, &self.plan, p, &place, c, x);
        self.plan.set(p, Some(c));
        Ok(())
    }
}
