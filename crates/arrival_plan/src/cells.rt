//! Where the container of a cell group goes.
ghost use Rattle.std.specs.Prelude.{◌≡◌, ◌↔◌, ◌<◌, ◌≤◌, Bool, false, IfSome, IsTrue, length, position};
ghost use Rattle.std.specs.Str.{bytes_eq};
ghost use Rattle.stow_data.specs.Ship.{fits, places};
ghost use Rattle.stow_data.specs.Plans.{place_at};
ghost use Rattle.arrival_plan.specs.Cells.{IsTakenOn, first_call, is_taken, place_of};

use baplie::CellGroup;
use stow_data::{CallNo, Half, Length, Name, PlaceNo, Plan, Ship};
use stowage_rules::{is_filled, takes_side};

/// The place of a group's cell, if the ship has it.
pub fn place_of(ship: &Ship, group: &CellGroup) -> Option<PlaceNo>
    ensures is { result ≡ place_of ship.now (group.now.bay, group.now.row, group.now.tier) }
    ensures inside { IfSome result (λ p. p < length (places ship.now)) }
{
    ship.place_of_number(group.bay, group.row, group.tier)
}

/// Whether a place takes containers of this length.
pub fn takes(ship: &Ship, p: PlaceNo, long: Length) -> bool
    requires { p < length (places ship.now) }
    ensures { result ≡ fits (place_at ship.now p) long false }
{
    ship.fits(p, long, false)
}

/// Whether something fills the half-cell of a place on one side.
fn is_taken_on(ship: &Ship, plan: &Plan, p: PlaceNo, aft: bool) -> bool
    requires inside { p < length (places ship.now) }
    requires each_place { length plan.now ≡ length (places ship.now) }
    ensures { IsTrue result ↔ IsTakenOn ship.now plan.now (place_at ship.now p) aft }
{
    let place = ship.place(p);
    let half = Half {
        stack: place.stack,
        tier: place.tier,
        aft,
    };
    takes_side(place.span, aft) && is_filled(ship, plan, p.0, &half)
}

/// Whether something stands at a place that has a half-cell in common with this one.
pub fn is_taken(ship: &Ship, plan: &Plan, p: PlaceNo) -> bool
    requires inside { p < length (places ship.now) }
    requires each_place { length plan.now ≡ length (places ship.now) }
    ensures { result ≡ is_taken ship.now plan.now p }
{
    is_taken_on(ship, plan, p, false) || is_taken_on(ship, plan, p, true)
}

fn is_same(name: &Name, port: &Name) -> bool
    ensures { result ≡ bytes_eq name.now port.now }
{
    name.bytes() == port.bytes()
}

/// Where a port stands first in a rotation.
fn index_of(port: &Name, rotation: &[Name]) -> Option<usize>
    ensures is { result ≡ position (λ name. bytes_eq name port.now) rotation.now }
    ensures inside { IfSome result (λ k. k < length rotation.now) }
{
    rotation.iter().position(|name| is_same(name, port))
}

/// The first call of a port, if the rotation has it.
#[tactic(auto, unfolding(crate::specs::Cells::first_call))]
pub fn first_call(port: &Name, rotation: &[Name]) -> Option<CallNo>
    requires { length rotation.now ≤ 12 }
    ensures { result ≡ first_call port.now rotation.now }
{
    match index_of(port, rotation) {
        None => None,
        Some(index) => Some(CallNo(index as u32 + 1)),
    }
}
