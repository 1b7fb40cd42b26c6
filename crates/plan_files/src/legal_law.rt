//! A legal file set is never refused.
ghost use Rattle.std.specs.Prelude.{◌≡◌, List, map};
ghost use Rattle.stow_data.specs.Ship.{Ship};
ghost use Rattle.stow_data.specs.Shipment.{Cargo, IsCargo};
ghost use Rattle.stow_data.specs.Profile.{IsShip};
ghost use Rattle.stow_data.specs.Plans.{Plan};
ghost use Rattle.baplie.specs.declared.parts.Message.{Message};
ghost use Rattle.plan_files.specs.Shown.{IsLegalFileSet, shown_by};
ghost use Rattle.plan_files.specs.declared.plan_faults.PlanNo.{PlanNo};
ghost use Rattle.plan_files.specs.declared.plan_faults.PlanNo.TheVariants.{NoMemory as WantOfMemory};
ghost use Rattle.plan_files.specs.Checked.{IsPlanNo};

/// Where files are a legal file set, only want of memory is an answer in place of their cost.
pub fn legal_is_checked()
    ensures { (ship : Ship) (cargo : Cargo) (messages : List Message) (departures : List Plan) (e : PlanNo) → IsShip ship → IsCargo cargo → IsLegalFileSet ship cargo (map shown_by messages) departures → IsPlanNo ship cargo messages e → e ≡ WantOfMemory }
{}
