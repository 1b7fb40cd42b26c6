//! What is said holds, or is refused for one cause; and what is written for a plan is read back as it.
ghost use Rattle.std.specs.Prelude.{◌≡◌, ◌≢◌, ℕ, List, Ok};
ghost use Rattle.stow_data.specs.Ship.{Ship};
ghost use Rattle.stow_data.specs.Shipment.{Cargo, IsCargo};
ghost use Rattle.stow_data.specs.Profile.{IsShip};
ghost use Rattle.stow_data.specs.Plans.{Plan};
ghost use Rattle.stowage_rules.specs.Departure.{IsStowed};
ghost use Rattle.bookings.specs.declared.shipment.Bookings.{Bookings};
ghost use Rattle.baplie.specs.declared.parts.CellGroup.{CellGroup};
ghost use Rattle.arrival_plan.specs.Settled.{told};
ghost use Rattle.plan_files.specs.DepartureFile.{groups, message_of};
ghost use Rattle.plan_files.specs.PlanOf.{plan_of};
ghost use Rattle.zero_one_rows.specs.Variables.{Voyage};
ghost use Rattle.certificate.specs.declared.tree.Head.{Head};
ghost use Rattle.certificate.specs.declared.tree.Record.{Record};
ghost use Rattle.model_bridge.specs.Laws.{IsProblem};
ghost use Rattle.voyage_files.specs.declared.refusals.JudgeNo.{JudgeNo};
ghost use Rattle.voyage_files.specs.declared.refusals.JudgeNo.TheVariants.{NoMemory as WantOfMemory};
ghost use Rattle.voyage_files.specs.Judged.{Holds, IsNo};

/// What a certificate and departure files say doesn't hold and is refused at once, and it is refused for one cause.
pub fn one_judgement()
    ensures yes_or_no { (m : Voyage) (head : Head) (tree : List Record) (texts : List (List ℕ)) (no : JudgeNo) → IsProblem m → no ≢ WantOfMemory → Holds m head tree texts → IsNo m head tree texts no → ⊥ }
    ensures one_cause { (m : Voyage) (head : Head) (tree : List Record) (texts : List (List ℕ)) (a b : JudgeNo) → IsProblem m → a ≢ WantOfMemory → b ≢ WantOfMemory → IsNo m head tree texts a → IsNo m head tree texts b → a ≡ b }
{}

/// The departure file that is written for a stowed plan is read as that plan.
pub fn written_is_read()
    ensures { (ship : Ship) (bookings : Bookings) (arrived : List CellGroup) (cargo : Cargo) (plan : Plan) (call : ℕ) → IsShip ship → IsCargo cargo → told ship bookings arrived ≡ Ok cargo → IsStowed ship cargo call plan
        → plan_of ship cargo call (message_of cargo bookings call (groups ship cargo bookings arrived plan)).groups ≡ Ok plan }
{}
