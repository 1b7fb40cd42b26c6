//! The containers of a quay, loaded one after the other.
ghost use Rattle.std.specs.Prelude.{◌≡◌, ◌<◌, ℕ, IfOk, None, OnOk, Some, if◌then◌else◌, length};
ghost use Rattle.stowage_rules.specs.Plan.{Holds};
ghost use Rattle.greedy_loader.specs.Kept.{IsKept};
ghost use Rattle.greedy_loader.specs.Quays.{AreWaiting, GoesAboard, IsLoaded};

use crate::choosing::choice;
use crate::layout::Layout;
use stow_data::{Cargo, ContainerNo, NoMemory, Ship};

/// Loads a container that stands nowhere at its choice. False, with the layout as it was, where no place is open.
pub fn load_one(
    layout: &mut Layout,
    ship: &Ship,
    cargo: &Cargo,
    c: ContainerNo,
) -> Result<bool, NoMemory>
    requires kept { IsKept ship.now cargo.now layout.old }
    requires known { c < length cargo.now.containers }
    requires ashore { (q : ℕ) → Holds layout.old.plan q c → ⊥ }
    ensures goes { IfOk result (λ placed. GoesAboard ship.now cargo.now layout.old.plan c placed layout.new.plan) }
    ensures kept { OnOk result (IsKept ship.now cargo.now layout.new) }
{
    cargo.obeys_rules();
    match choice(ship, cargo, layout, cargo.container(c)) {
        None => Ok(false),
        Some(p) => {
            layout.put(ship, cargo, p, c)?;
            Ok(true)
        }
    }
}

/// Loads the containers of a quay one after the other, each at its choice. False where one finds no open place.
pub fn load_all(
    layout: &mut Layout,
    ship: &Ship,
    cargo: &Cargo,
    quay: &[ContainerNo],
) -> Result<bool, NoMemory>
    requires kept { IsKept ship.now cargo.now layout.old }
    requires waiting { AreWaiting cargo.now layout.old.plan quay.now }
    ensures loads { IfOk result (λ all. IsLoaded ship.now cargo.now layout.old.plan quay.now (if all then Some layout.new.plan else None)) }
    ensures kept { OnOk result (IsKept ship.now cargo.now layout.new) }
{
    for c in quay {
        if !load_one(layout, ship, cargo, *c)? {
            return Ok(false);
        }
    }
    Ok(true)
}
