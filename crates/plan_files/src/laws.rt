//! The departure file of a call is the text of a message, reads back as it, and shows its plan.
ghost use Rattle.std.specs.Prelude.{◌≡◌, ℕ, ◌<◌, List, Ok, length};
ghost use Rattle.stow_data.specs.Ship.{Ship};
ghost use Rattle.stow_data.specs.Shipment.{Cargo, IsCargo};
ghost use Rattle.stow_data.specs.Profile.{IsShip};
ghost use Rattle.stow_data.specs.Plans.{Plan};
ghost use Rattle.stowage_rules.specs.Plan.{IsWellFormed};
ghost use Rattle.stowage_rules.specs.Departure.{IsStowed};
ghost use Rattle.bookings.specs.declared.shipment.Bookings.{Bookings};
ghost use Rattle.bookings.specs.Rules.{IsBookings};
ghost use Rattle.arrival_plan.specs.Settled.{told};
ghost use Rattle.baplie.specs.declared.parts.CellGroup.{CellGroup};
ghost use Rattle.baplie.specs.Messages.{IsMessageOf};
ghost use Rattle.baplie.specs.Whole.{IsWhole};
ghost use Rattle.plan_files.specs.DepartureFile.{AreArrived, file_text, groups, message_of};
ghost use Rattle.plan_files.specs.Shown.{Shows, shown_by};

/// For a ship, bookings, the groups of the bay plan of the ship as it came in, and a plan of the cargo of both: the
/// departure file of a call before the last has a message that can be written, and its text reads back as that message.
/// Where the plan holds exactly what is aboard, the message shows it.
pub fn departure_reads()
    ensures whole { (ship : Ship) (bookings : Bookings) (arrived : List CellGroup) (cargo : Cargo) (plan : Plan) (call : ℕ) → IsShip ship → IsBookings bookings → AreArrived arrived → IsCargo cargo → told ship bookings arrived ≡ Ok cargo → IsWellFormed ship cargo plan → call < length bookings.rotation
        → IsWhole (message_of cargo bookings call (groups ship cargo bookings arrived plan)) }
    ensures reads { (ship : Ship) (bookings : Bookings) (arrived : List CellGroup) (cargo : Cargo) (plan : Plan) (call : ℕ) → IsShip ship → IsBookings bookings → AreArrived arrived → IsCargo cargo → told ship bookings arrived ≡ Ok cargo → IsWellFormed ship cargo plan → call < length bookings.rotation
        → IsMessageOf (file_text cargo bookings call (groups ship cargo bookings arrived plan)) (message_of cargo bookings call (groups ship cargo bookings arrived plan)) }
    ensures shows { (ship : Ship) (bookings : Bookings) (arrived : List CellGroup) (cargo : Cargo) (plan : Plan) (call : ℕ) → IsShip ship → IsCargo cargo → told ship bookings arrived ≡ Ok cargo → IsStowed ship cargo call plan
        → Shows ship cargo call (shown_by (message_of cargo bookings call (groups ship cargo bookings arrived plan))) plan }
{}
