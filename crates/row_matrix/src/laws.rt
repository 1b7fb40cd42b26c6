//! What rows and their sums obey.
ghost use Rattle.stow_data.specs.Profile.{IsShip};
ghost use Rattle.stow_data.specs.Shipment.{IsCargo};
ghost use Rattle.zero_one_rows.specs.Listed.{ListsVariables};
ghost use Rattle.zero_one_rows.specs.Ranges.{NamesWhatIsThere, HasSmallCoefficients, HasSmallRightSides};
ghost use Rattle.zero_one_rows.specs.Ordered.{ListsBaseRows};
ghost use Rattle.row_sums.specs.Laws.{HasParts, AreSums, ShareNone};

use row_sums::rows_are_sums;
use zero_one_model::Model;
use zero_one_rows::{rows_are_in_range, rows_are_listed, variables_stand_once};

/// The laws that the matrix stands on. They cost nothing when they run.
pub(crate) fn rows_obey_laws(model: &Model)
    ensures parts { HasParts }
    ensures coefficients { AreSums }
    ensures apart { ShareNone }
    ensures names { NamesWhatIsThere }
    ensures small { HasSmallCoefficients }
    ensures right_sides { HasSmallRightSides }
    ensures variables { ListsVariables }
    ensures rows { ListsBaseRows }
    ensures ship { IsShip model.now.ship }
    ensures cargo { IsCargo model.now.cargo }
{
    rows_are_sums();
    rows_are_in_range();
    variables_stand_once();
    rows_are_listed();
    model.ship().obeys_rules();
    model.cargo().obeys_rules();
}
