//! Reefers at places without a plug.
ghost use Rattle.std.specs.Prelude.{◌≡◌, ◌↔◌, ◌<◌, ℕ, IsTrue, MatchOption, length};
ghost use Rattle.stow_data.specs.Ship.{places};
ghost use Rattle.stowage_rules.specs.Faults.{IsLeast, IsUnplugged};

use stow_data::{Cargo, PlaceNo, Plan, Ship};

/// Whether a reefer stands at a place that has no plug.
fn is_unplugged(ship: &Ship, cargo: &Cargo, plan: &Plan, p: PlaceNo) -> bool
    requires each_place { length plan.now ≡ length (places ship.now) }
    requires inside { p < length (places ship.now) }
    ensures { IsTrue result ↔ IsUnplugged ship.now cargo.now plan.now p }
{
    match plan.at(p) {
        None => false,
        Some(c) => c.0 < cargo.len() && cargo.container(c).reefer && !ship.place(p).plug,
    }
}

/// The first place without a plug at which a reefer stands.
pub fn first_unplugged(ship: &Ship, cargo: &Cargo, plan: &Plan) -> Option<PlaceNo>
    requires { length plan.now ≡ length (places ship.now) }
    ensures { MatchOption result ((p : ℕ) → IsUnplugged ship.now cargo.now plan.now p → ⊥) (λ p. IsLeast (IsUnplugged ship.now cargo.now plan.now) p) }
{
    let first = (0..ship.places()).find(|p| is_unplugged(ship, cargo, plan, PlaceNo(*p)))?;
    Some(PlaceNo(first))
}
