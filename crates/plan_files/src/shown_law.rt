//! The plan that a message's groups tell is the one that it shows.
ghost use Rattle.std.specs.Prelude.{ℕ, ◌≡◌, List, Ok, flat_map};
ghost use Rattle.stow_data.specs.Ship.{Ship};
ghost use Rattle.stow_data.specs.Shipment.{Cargo, IsCargo};
ghost use Rattle.stow_data.specs.Profile.{IsShip};
ghost use Rattle.stow_data.specs.Plans.{Plan};
ghost use Rattle.baplie.specs.declared.parts.CellGroup.{CellGroup};
ghost use Rattle.plan_files.specs.Shown.{Shows, shown_in};
ghost use Rattle.plan_files.specs.PlanOf.{plan_of};

/// The groups of a message tell a plan exactly where the message shows one, and it is that one.
pub fn told_is_shown()
    ensures told_shows { (ship : Ship) (cargo : Cargo) (call : ℕ) (groups : List CellGroup) (plan : Plan) → IsShip ship → IsCargo cargo → plan_of ship cargo call groups ≡ Ok plan → Shows ship cargo call (flat_map shown_in groups) plan }
    ensures shown_is_told { (ship : Ship) (cargo : Cargo) (call : ℕ) (groups : List CellGroup) (plan : Plan) → IsShip ship → IsCargo cargo → Shows ship cargo call (flat_map shown_in groups) plan → plan_of ship cargo call groups ≡ Ok plan }
{}
