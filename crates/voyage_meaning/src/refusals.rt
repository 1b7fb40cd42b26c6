//! Why a move of a crane is refused.
ghost use Rattle.std.specs.Prelude.{◌≡◌, ◌↔◌, ◌<◌, Bool, List, IsTrue, MatchOption, None, Some, length, slice_get};
ghost use Rattle.stow_data.specs.Ship.{places};
ghost use Rattle.stow_data.specs.Ship as ships;
ghost use Rattle.stow_data.specs.Shipment as cargoes;
ghost use Rattle.stow_data.specs.Plans as plans;
ghost use Rattle.voyage_meaning.specs.Berths.{BelongsTo, IsInRange};
ghost use Rattle.voyage_meaning.specs.Refusals.{Judges};
ghost use Rattle.voyage_meaning.specs.declared.moves.Move.TheVariants as moves;

use crate::columns::{first_filled, first_weak_below};
use crate::covers::{open_under, shut_over};
use crate::moves::Move;
use crate::standing::first_standing;
use stow_data::{Cargo, ContainerNo, CoverNo, FlagList, HalfNo, PlaceNo, Plan, Ship};

/// Why a move is refused. Of several causes the first in this order is named, and of several half-cells the one of the
/// least number.
#[derive(Clone, Copy)]
pub enum MoveFault {
    /// A lift from a place where nothing stands.
    NotThere,
    /// A put of a container that isn't on the quay.
    NotOnQuay,
    /// A put on a place of another length, or of a reefer on a place without a plug.
    DoesNotFit,
    /// A cover over the place is on.
    CoverOver { cover: CoverNo },
    /// A put on a cover that is off.
    CoverMissing { cover: CoverNo },
    /// A lift from a place with something directly above: the filled half-cell there.
    Blocked { half: HalfNo },
    /// A put on a place of which this half-cell is filled.
    Taken { half: HalfNo },
    /// A put above this half-cell, which isn't filled, or, under a 20-foot container, not by a 20-foot one.
    Unsupported { half: HalfNo },
    /// A cover that is to go off has something on it: this half-cell is filled.
    Standing { half: HalfNo },
    /// A cover that is to go off is off, or one that is to go on is on.
    AlreadySo { cover: CoverNo },
}

/// Whether nothing stands at a place.
fn is_empty_at(plan: &Plan, p: PlaceNo) -> bool
    requires { p < length plan.now }
    ensures { IsTrue result ↔ (slice_get plan.now p ≡ Some None) }
{
    match plan.at(p) {
        None => true,
        Some(_) => false,
    }
}

/// The first fault of a lift.
fn lift_fault(ship: &Ship, plan: &Plan, off: &FlagList, p: PlaceNo) -> Option<MoveFault>
    requires each_place { length plan.now ≡ length (places ship.now) }
    requires each_cover { length off.now ≡ length ship.now.covers }
    requires inside { p < length plan.now }
    ensures { (cargo : cargoes.Cargo) (quay : List Bool) → Judges ship.now cargo (record { plan = plan.now; quay = quay; off = off.now }) (moves.Lift p) result }
{
    ship.obeys_rules();
    if is_empty_at(plan, p) {
        return Some(MoveFault::NotThere);
    }
    let place = ship.place(p);
    if let Some(cover) = shut_over(ship, off, place.stack) {
        return Some(MoveFault::CoverOver { cover });
    }
    match first_filled(ship, plan, p, &place, place.tier + 1) {
        None => None,
        Some(half) => Some(MoveFault::Blocked { half }),
    }
}

/// The first fault of a put.
fn put_fault(
    ship: &Ship,
    cargo: &Cargo,
    plan: &Plan,
    quay: &FlagList,
    off: &FlagList,
    c: ContainerNo,
    p: PlaceNo,
) -> Option<MoveFault>
    requires belongs { BelongsTo ship.now cargo.now (record { plan = plan.now; quay = quay.now; off = off.now }) }
    requires inside { IsInRange (record { plan = plan.now; quay = quay.now; off = off.now }) (moves.Put c p) }
    ensures { Judges ship.now cargo.now (record { plan = plan.now; quay = quay.now; off = off.now }) (moves.Put c p) result }
{
    if !*quay.at(c.0 as usize) {
        return Some(MoveFault::NotOnQuay);
    }
    let container = cargo.container(c);
    if !ship.fits(p, container.long, container.reefer) {
        return Some(MoveFault::DoesNotFit);
    }
    let place = ship.place(p);
    if let Some(cover) = shut_over(ship, off, place.stack) {
        return Some(MoveFault::CoverOver { cover });
    }
    if let Some(cover) = open_under(ship, off, place.stack) {
        return Some(MoveFault::CoverMissing { cover });
    }
    if let Some(half) = first_filled(ship, plan, p, &place, place.tier) {
        return Some(MoveFault::Taken { half });
    }
    match first_weak_below(ship, cargo, plan, p, &place, container.long) {
        None => None,
        Some(half) => Some(MoveFault::Unsupported { half }),
    }
}

/// The first fault of a cover's going off.
fn off_fault(ship: &Ship, plan: &Plan, off: &FlagList, k: CoverNo) -> Option<MoveFault>
    requires each_place { length plan.now ≡ length (places ship.now) }
    requires each_cover { length off.now ≡ length ship.now.covers }
    requires inside { k < length off.now }
    ensures { (cargo : cargoes.Cargo) (quay : List Bool) → Judges ship.now cargo (record { plan = plan.now; quay = quay; off = off.now }) (moves.OffCover k) result }
{
    if let Some(half) = first_standing(ship, plan, k) {
        return Some(MoveFault::Standing { half });
    }
    if *off.at(k.0 as usize) {
        Some(MoveFault::AlreadySo { cover: k })
    } else {
        None
    }
}

/// The first fault of a cover's going on.
fn on_fault(off: &FlagList, k: CoverNo) -> Option<MoveFault>
    requires { k < length off.now }
    ensures { (ship : ships.Ship) (cargo : cargoes.Cargo) (plan : plans.Plan) (quay : List Bool) → Judges ship cargo (record { plan = plan; quay = quay; off = off.now }) (moves.OnCover k) result }
{
    if *off.at(k.0 as usize) {
        None
    } else {
        Some(MoveFault::AlreadySo { cover: k })
    }
}

/// The first fault of a move.
pub fn move_fault(
    ship: &Ship,
    cargo: &Cargo,
    plan: &Plan,
    quay: &FlagList,
    off: &FlagList,
    m: Move,
) -> Option<MoveFault>
    requires belongs { BelongsTo ship.now cargo.now (record { plan = plan.now; quay = quay.now; off = off.now }) }
    requires inside { IsInRange (record { plan = plan.now; quay = quay.now; off = off.now }) m }
    ensures { Judges ship.now cargo.now (record { plan = plan.now; quay = quay.now; off = off.now }) m result }
{
    match m {
        Move::Lift(p) => lift_fault(ship, plan, off, p),
        Move::Put(c, p) => put_fault(ship, cargo, plan, quay, off, c, p),
        Move::OffCover(k) => off_fault(ship, plan, off, k),
        Move::OnCover(k) => on_fault(off, k),
    }
}
