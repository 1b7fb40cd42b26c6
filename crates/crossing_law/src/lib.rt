//! Crossing rows follow from the base rows (after Avriel, Penn, Shpirer and Witteboon, 1998).
#![tactic(auto)]

ghost use Rattle.stowage_rules.specs.Departure.{HasArrival};
ghost use Rattle.zero_one_rows.specs.Variables.{Voyage};
ghost use Rattle.zero_one_rows.specs.Rows.{CrossingRowsHold};

/// Every assignment that meets the base rows meets every crossing row, where the arrival is stowed by the rules.
///
/// In one column a container of a later pair would stand above one of an earlier pair and stay past its lifting. So a
/// column keeps the containers of one pair alone until their destination, at most one in each tier; all others are
/// lifted before.
pub fn crossing_rows_hold()
    ensures { (m : Voyage) → HasArrival m.ship m.cargo → CrossingRowsHold m }
{}
