//! What the 0-1 program says of voyages: each solution gives a legal voyage, and each legal voyage gives a solution.
ghost use Rattle.std.specs.Prelude.{ℕ, ◌↔◌, ◌+◌};
ghost use Rattle.stow_data.specs.Shipment.{most_cost};
ghost use Rattle.zero_one_rows.specs.Variables.{Voyage};
ghost use Rattle.zero_one_rows.specs.Rows.{CrossingRowsHold};
ghost use Rattle.model_bridge.specs.Laws.{IsProblem, EachSolutionSails, EachVoyageSolves, IsCostBound, IsVoyageBound, HasNoVoyage};

/// Each assignment that meets the base rows gives plans of a legal voyage that costs at most what it costs.
///
/// After each call the variables that are 1 and there are matched with the containers that are aboard, kind by kind.
/// The rows of the call say that the plan so made is a legal departure, and that the places whose variable ends at the
/// next call are a closed set of what must be lifted there.
pub fn each_solution_sails()
    ensures { EachSolutionSails }
{}

/// Each legal voyage gives an assignment that meets the base rows, which costs at most what the voyage costs.
///
/// A variable is 1 where a container stands at one place from its putting to its lifting.
pub fn each_voyage_solves()
    ensures { EachVoyageSolves }
{}

/// What bounds the costs of all assignments that meet the base rows bounds the costs of all legal voyages.
///
/// A bound that a proof tree over all rows proves is one on the costs where the crossing rows hold, and they do. A bound
/// above the most that a voyage needs to cost says that there is no legal voyage.
pub fn bounds_are_of_voyages()
    ensures same { (m : Voyage) (bound : ℕ) → IsProblem m → IsCostBound m bound ↔ IsVoyageBound m bound }
    ensures proved { (m : Voyage) (bound : ℕ) → IsProblem m → (CrossingRowsHold m → IsCostBound m bound) → IsVoyageBound m bound }
    ensures none { (m : Voyage) → IsProblem m → (CrossingRowsHold m → IsCostBound m (most_cost m.cargo + 1)) → HasNoVoyage m }
{}
