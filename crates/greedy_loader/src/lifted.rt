//! What is lifted at a call.
ghost use Rattle.std.specs.Prelude.{◌≡◌, ◌<◌, ℕ, IfOk, length};
ghost use Rattle.stow_data.specs.Ship.{places};
ghost use Rattle.voyage_meaning.specs.Moves.{leaves};
ghost use Rattle.plan_lifts.specs.Spread.{has};
ghost use Rattle.greedy_loader.specs.Calls.{IsLiftedAt, leaving};

use plan_lifts::spread;
use std::alloc::Global;
use stow_data::{CallNo, Cargo, ContainerNo, FlagList, NoMemory, PlaceNo, Plan, Seq, Ship};

/// Whether the call is the destination of a container.
pub fn is_bound(cargo: &Cargo, call: CallNo, c: ContainerNo) -> bool
    ensures { result ≡ leaves cargo.now call c }
{
    c.0 < cargo.len() && cargo.container(c).dest == call
}

/// Whether something leaves from a place at a call.
fn is_leaving(cargo: &Cargo, call: CallNo, plan: &Plan, p: PlaceNo) -> bool
    requires { p < length plan.now }
    ensures { result ≡ leaving cargo.now call plan.now p }
{
    match plan.at(p) {
        None => false,
        Some(c) => is_bound(cargo, call, c),
    }
}

/// The places from which something leaves at a call.
fn leaving(
    alloc: Global,
    ship: &Ship,
    cargo: &Cargo,
    call: CallNo,
    plan: &Plan,
) -> Result<FlagList, NoMemory>
    requires each_place { length plan.now ≡ length (places ship.now) }
    ensures leaves { IfOk result (λ set. (p : ℕ) → has set p ≡ leaving cargo.now call plan.now p) }
    ensures each_flag { IfOk result (λ set. length set ≡ length (places ship.now)) }
{
    let mut set = Seq::filled(alloc, false, ship.places() as usize)?;
    for p in 0..ship.places() {
        set.set(p as usize, is_leaving(cargo, call, plan, PlaceNo(p)));
    }
    Ok(set)
}

/// The places that are lifted at a call: those from which something leaves, and what that spreads to.
pub fn lifted_at(
    alloc: Global,
    ship: &Ship,
    cargo: &Cargo,
    call: CallNo,
    before: &Plan,
) -> Result<FlagList, NoMemory>
    requires each_place { length before.now ≡ length (places ship.now) }
    ensures least { IfOk result (λ set. IsLiftedAt ship.now cargo.now call before.now (has set)) }
    ensures each_flag { IfOk result (λ set. length set ≡ length (places ship.now)) }
{
    let seeds = leaving(alloc, ship, cargo, call, before)?;
    spread(alloc, ship, before, seeds)
}
