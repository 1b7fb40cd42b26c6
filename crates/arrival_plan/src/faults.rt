//! Why the bay plan of the ship as it comes in is refused.
ghost use Rattle.std.specs.Prelude.{◌≡◌};
ghost use Rattle.arrival_plan.specs.declared.faults.ArrivalFault.TheVariants.{NoMemory as WantOfMemory};

use stow_data::{Limit, Name, NoMemory};
use stowage_rules::RuleBroken;

/// Why the bay plan of the ship as it comes in is refused. `group` is that of a cell group among all groups of the
/// message, from 1, those of empty cells included.
#[derive(Drop)]
pub enum ArrivalFault {
    /// The ship has no place of this bay, row and tier number.
    NoSuchCell { group: u32 },
    /// The place doesn't take containers of this length.
    WrongLength { group: u32 },
    /// An earlier group or a booking has the id.
    Twice { id: Name },
    /// The port of discharge isn't in the rotation.
    NotInRotation { group: u32 },
    /// An earlier group's container stands in a half-cell of the place.
    CellTaken { group: u32 },
    /// What stands aboard breaks the rule of support, of twenty on forty foot, or of plugs.
    Rule(RuleBroken),
    /// There are more containers, arrived and booked, than the limit.
    TooLarge { limit: Limit, value: u64 },
    /// Memory ran out.
    NoMemory,
}

impl From<NoMemory> for ArrivalFault {
    ghost from_gives = { λ _ e. e ≡ WantOfMemory };

    fn from(_: NoMemory) -> Self {
        ArrivalFault::NoMemory
    }
}
