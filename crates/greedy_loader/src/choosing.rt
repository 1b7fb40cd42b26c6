//! The choice among the open places.
ghost use Rattle.std.specs.Prelude.{◌≡◌, ◌≤◌, ℕ, MatchOption, length};
ghost use Rattle.stowage_rules.specs.Faults.{IsLeast};
ghost use Rattle.greedy_loader.specs.Rule.{IsChoice, IsClean, IsOpen};
ghost use Rattle.greedy_loader.specs.Kept.{IsKept};

use crate::clearing::is_clean;
use crate::layout::Layout;
use crate::opening::is_open;
use stow_data::{Cargo, Container, PlaceNo, Ship};

/// The first place that is open and clean for a container.
fn first_clean(ship: &Ship, cargo: &Cargo, layout: &Layout, x: &Container) -> Option<PlaceNo>
    requires kept { IsKept ship.now cargo.now layout.now }
    requires kg { x.now.kg ≤ 99999 }
    requires dest { x.now.dest ≤ length cargo.now.rotation }
    ensures { MatchOption result ((p : ℕ) → IsClean ship.now cargo.now layout.now.plan x.now p → ⊥) (λ p. IsLeast (IsClean ship.now cargo.now layout.now.plan x.now) p) }
{
    let first = (0..ship.places()).find(|p| is_clean(ship, cargo, layout, x, PlaceNo(*p)))?;
    Some(PlaceNo(first))
}

/// The first place that is open for a container.
fn first_open(ship: &Ship, cargo: &Cargo, layout: &Layout, x: &Container) -> Option<PlaceNo>
    requires kept { IsKept ship.now cargo.now layout.now }
    requires kg { x.now.kg ≤ 99999 }
    ensures { MatchOption result ((p : ℕ) → IsOpen ship.now cargo.now layout.now.plan x.now p → ⊥) (λ p. IsLeast (IsOpen ship.now cargo.now layout.now.plan x.now) p) }
{
    let first = (0..ship.places()).find(|p| is_open(ship, cargo, layout, x, PlaceNo(*p)))?;
    Some(PlaceNo(first))
}

/// Where a container goes: to the first clean place by number; where none is clean, to the first open one. None
/// exactly where no place is open.
pub fn choice(ship: &Ship, cargo: &Cargo, layout: &Layout, x: &Container) -> Option<PlaceNo>
    requires kept { IsKept ship.now cargo.now layout.now }
    requires kg { x.now.kg ≤ 99999 }
    requires dest { x.now.dest ≤ length cargo.now.rotation }
    ensures { IsChoice ship.now cargo.now layout.now.plan x.now result }
{
    match first_clean(ship, cargo, layout, x) {
        Some(p) => Some(p),
        None => first_open(ship, cargo, layout, x),
    }
}
