//! Places by stack and tier, found from a place near them.
ghost use Rattle.std.specs.Prelude.{◌≡◌, ◌↔◌, ◌<◌, ◌≤◌, ℕ, IsTrue, length};
ghost use Rattle.stow_data.specs.Ship.{places};
ghost use Rattle.stowage_rules.specs.Tiers.{IsBefore, IsFirstOf, AreBefore};

use stow_data::{Half, Place, PlaceNo, Ship, StackNo};

/// Whether a place is in the stack.
pub fn is_in_stack(place: &Place, stack: StackNo) -> bool
    ensures { IsTrue result ↔ (place.now.stack ≡ stack) }
{
    place.stack == stack
}

/// Whether a place is in the stack and the tier of a half-cell.
pub fn is_in_tier(place: &Place, h: &Half) -> bool
    ensures { IsTrue result ↔ (place.now.stack ≡ h.now.stack) × (place.now.tier ≡ h.now.tier) }
{
    place.stack == h.stack && place.tier == h.tier
}

/// Whether a place is in an earlier stack, or lower in this one than the tier.
fn is_before(place: &Place, stack: StackNo, tier: u32) -> bool
    ensures { IsTrue result ↔ IsBefore place.now stack tier }
{
    place.stack < stack || (place.stack == stack && place.tier < tier)
}

/// The number of a place, at most this one, up to which all are before the tier.
fn back_to(ship: &Ship, near: u32, stack: StackNo, tier: u32) -> u32
    requires { near ≤ length (places ship.now) }
    ensures before { AreBefore ship.now stack tier result }
    ensures inside { result ≤ near }
{
    for steps in 0..near {
        let n = near - steps;
        if is_before(&ship.place(PlaceNo(n - 1)), stack, tier) {
            return n;
        }
    }
    0
}

/// The number of the first place from this one on that isn't before the tier.
fn on_to(ship: &Ship, from: u32, stack: StackNo, tier: u32) -> u32
    requires inside { from ≤ length (places ship.now) }
    requires before { AreBefore ship.now stack tier from }
    ensures first { IsFirstOf ship.now stack tier result }
    ensures inside { result ≤ length (places ship.now) }
{
    for p in from..ship.places() {
        if !is_before(&ship.place(PlaceNo(p)), stack, tier) {
            return p;
        }
    }
    ship.places()
}

/// The number of the first place that isn't before a tier, looked for from a place near it.
pub fn first_of_tier(ship: &Ship, near: u32, stack: StackNo, tier: u32) -> u32
    requires { near ≤ length (places ship.now) }
    ensures first { IsFirstOf ship.now stack tier result }
    ensures inside { result ≤ length (places ship.now) }
{
    on_to(ship, back_to(ship, near, stack, tier), stack, tier)
}
