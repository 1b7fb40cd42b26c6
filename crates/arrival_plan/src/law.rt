//! Which bay plans can be settled, and what a settled one has become.
ghost use Rattle.std.specs.Prelude.{ℕ, ◌≡◌, ◌≤◌, ◌^◌, List, Ok, Some, length, slice_get};
ghost use Rattle.stow_data.specs.Ship.{Ship};
ghost use Rattle.stow_data.specs.Shipment.{Cargo};
ghost use Rattle.bookings.specs.declared.shipment.Bookings.{Bookings};
ghost use Rattle.baplie.specs.declared.parts.CellGroup.{CellGroup};
ghost use Rattle.baplie.specs.declared.parts.Facts.{Facts};
ghost use Rattle.baplie.specs.declared.parts.Message.{Message};
ghost use Rattle.baplie.specs.Messages.{IsMessageOf};
ghost use Rattle.arrival_plan.specs.Aboard.{IsAboardAs, containers_before};
ghost use Rattle.arrival_plan.specs.Settled.{AreRead, Settles};

/// The groups of a message that is read from a text of at most 2^29 bytes can be settled.
pub fn read_can_be_settled()
    ensures { (bytes : List ℕ) (message : Message) → length bytes ≤ 2 ^ 29 → IsMessageOf bytes message → AreRead message.groups }
{}

/// In a settled cargo each container that a group tells of is aboard: in the order of the groups, in its group's cell,
/// and bound for the first call of its port.
pub fn none_left_ashore()
    ensures { (ship : Ship) (bookings : Bookings) (groups : List CellGroup) (cargo : Cargo) → AreRead groups → Settles ship bookings groups (Ok cargo)
        → (i : ℕ) (g : CellGroup) (f : Facts) → slice_get groups i ≡ Some g → g.facts ≡ Some f → IsAboardAs ship cargo i g f (containers_before groups i) }
{}
