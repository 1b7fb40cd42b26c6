//! Where the stays of a voyage begin: the runs of departures over which a container isn't lifted.
ghost use Rattle.std.specs.Prelude.{◌≡◌, ◌↔◌, ◌<◌, ◌≤◌, ◌+◌, ◌-◌, ℕ, true, Contains, IfOk, cond, length, map, slice_index_or};
ghost use Rattle.std.specs.List.{range_with_len};
ghost use Rattle.stow_data.specs.Ship.{places};
ghost use Rattle.stow_data.specs.Plans.{held};
ghost use Rattle.stowage_rules.specs.Plan.{Holds};
ghost use Rattle.stowage_rules.specs.Departure.{HasArrival};
ghost use Rattle.plan_lifts.specs.Spread.{has};
ghost use Rattle.plan_lifts.specs.Lifted.{IsLifted};
ghost use Rattle.model_bridge.specs.Stays.{plan_after, is_left, begins, begin_table};

use plan_lifts::{LiftList, LiftLists};
use std::alloc::Global;
use stow_data::{CallNo, Cargo, FlagList, NoMemory, PlaceNo, Plan, PlanList, Seq, Ship};

/// For each place the call at which the stay there began.
pub type Begins = Seq<CallNo>;

/// The same after each call, from the arrival on.
pub type BeginTable = Seq<Begins>;

/// The plan after a call; after call 0 the arrival.
pub fn plan_after<'a>(cargo: &'a Cargo, plans: &'a PlanList, call: CallNo) -> &'a Plan
    requires { call ≤ length plans.now }
    ensures { result.now ≡ plan_after cargo.now plans.now call }
{
    if call.0 == 0 {
        return cargo.arrival();
    }
    plans.at(call.0 as usize - 1)
}

/// For each container whether the list names it.
fn named(alloc: Global, cargo: &Cargo, list: &LiftList) -> Result<FlagList, NoMemory>
    requires { (c : ℕ) → Contains list.now c → c < length cargo.now.containers }
    ensures names { IfOk result (λ flags. (c : ℕ) → (has flags c ≡ true) ↔ Contains list.now c) }
    ensures each { IfOk result (λ flags. length flags ≡ length cargo.now.containers) }
{
    let mut flags = Seq::filled(alloc, false, cargo.len() as usize)?;
    for i in 0..list.len() {
        flags.set(list.at(i).0 as usize, true);
    }
    Ok(flags)
}

/// Whether something stands at a place that isn't lifted.
fn is_left(before: &Plan, lifted: &FlagList, p: PlaceNo) -> bool
    requires place { p < length before.now }
    requires known { (c : ℕ) → Holds before.now p c → c < length lifted.now }
    ensures { result ≡ is_left (has lifted.now) (held before.now p) }
{
    match before.at(p) {
        Some(c) => !*lifted.at(c.0 as usize),
        None => false,
    }
}

/// Where the stay at a place began: before the call where what stands there isn't lifted at it, and else at the call.
fn begin_at(before: &Plan, lifted: &FlagList, began: &Begins, call: CallNo, p: PlaceNo) -> CallNo
    requires place { p < length before.now }
    requires each { length began.now ≡ length before.now }
    requires known { (c : ℕ) → Holds before.now p c → c < length lifted.now }
    ensures { result ≡ cond (is_left (has lifted.now) (held before.now p)) (slice_index_or began.now p 0) call }
{
    if is_left(before, lifted, p) {
        *began.at(p.0 as usize)
    } else {
        call
    }
}

/// Where the stays after a call began, by what is lifted at the call.
fn begins_after(
    alloc: Global,
    ship: &Ship,
    before: &Plan,
    lifted: &FlagList,
    began: &Begins,
    call: CallNo,
) -> Result<Begins, NoMemory>
    requires each_place { length before.now ≡ length (places ship.now) }
    requires each { length began.now ≡ length before.now }
    requires known { (p c : ℕ) → Holds before.now p c → c < length lifted.now }
    ensures { IfOk result (λ next. next ≡ map (λ p. cond (is_left (has lifted.now) (held before.now p)) (slice_index_or began.now p 0) call) (range_with_len 0 (length (places ship.now)))) }
{
    let mut next = Seq::with_room(alloc, ship.places() as usize)?;
    for p in 0..ship.places() {
        next.push(begin_at(before, lifted, began, call, PlaceNo(p)))?;
    }
    Ok(next)
}

/// Where the stays after a call began, by where those before it did.
fn next_begins(
    alloc: Global,
    ship: &Ship,
    cargo: &Cargo,
    plans: &PlanList,
    lists: &LiftLists,
    began: &Begins,
    call: CallNo,
) -> Result<Begins, NoMemory>
    requires arrival { HasArrival ship.now cargo.now }
    requires lifted { IsLifted ship.now cargo.now plans.now lists.now }
    requires first { 0 < call }
    requires last { call ≤ length plans.now }
    requires before { began.now ≡ begins ship.now cargo.now plans.now lists.now (call - 1) }
    ensures { IfOk result (λ next. next ≡ begins ship.now cargo.now plans.now lists.now call) }
{
    let lifted = named(alloc, cargo, lists.at(call.0 as usize - 1))?;
    let before = plan_after(cargo, plans, CallNo(call.0 - 1));
    begins_after(alloc, ship, before, &lifted, began, call)
}

/// Where the stays began, after each call.
pub fn begin_table(
    alloc: Global,
    ship: &Ship,
    cargo: &Cargo,
    plans: &PlanList,
    lists: &LiftLists,
) -> Result<BeginTable, NoMemory>
    requires arrival { HasArrival ship.now cargo.now }
    requires each_call { length plans.now + 1 ≡ length cargo.now.rotation }
    requires lifted { IsLifted ship.now cargo.now plans.now lists.now }
    ensures { IfOk result (λ table. table ≡ begin_table ship.now cargo.now plans.now lists.now (length cargo.now.rotation)) }
{
    let mut table = Seq::new(alloc);
    table.push(Seq::filled(alloc, CallNo(0), ship.places() as usize)?)?;
    for call in 1..cargo.calls() {
        let began = table.at(call as usize - 1);
        let next = next_begins(alloc, ship, cargo, plans, lists, began, CallNo(call))?;
        table.push(next)?;
    }
    Ok(table)
}
