//! What holds of moves that may be done in either order, and of crane lists.
ghost use Rattle.std.specs.Prelude.{ℕ, ◌≡◌, List, ◌≤◌, length};
ghost use Rattle.stow_data.specs.Ship as ships;
ghost use Rattle.stow_data.specs.Shipment as cargoes;
ghost use Rattle.stow_data.specs.Plans.{Plan};
ghost use Rattle.voyage_meaning.specs.declared.moves.Move as moves;
ghost use Rattle.voyage_meaning.specs.Moves.{State, after};
ghost use Rattle.voyage_meaning.specs.Voyage.{start, LeadsTo};
ghost use Rattle.plan_lifts.specs.Lifted.{LiftsExactly};
ghost use Rattle.crane_lists.specs.declared.tasks.Task as tasks;
ghost use Rattle.crane_lists.specs.Tasks.{AreIndependent, CanDo, CanDoAll, Commute, tasks_of, moves_in};
ghost use Rattle.crane_lists.specs.Rounds.{IsCraneList, IsOrderOf, IsSameWork, picked};
ghost use Rattle.crane_lists.specs.Least.{IsLeastRounds};

/// Two independent tasks that may be done one after the other may be done in either order, with the same state after: a law, which costs nothing when it runs.
pub fn independent_moves_commute()
    ensures { (ship : ships.Ship) (cargo : cargoes.Cargo) (call : ℕ) (s : State) (t u : tasks.Task) → AreIndependent ship t u → CanDo ship cargo s t → CanDo ship cargo (after cargo call s t.step) u → Commute ship cargo call s t u }
{}

/// Done round by round, and in any order within a round, the moves of a crane list are allowed, end in the same state and lift the same containers as the list. For a call's moves: they lead to the same departure, and lift exactly what the moves lift. A law, which costs nothing when it runs.
pub fn crane_lists_keep_the_work()
    ensures work { (ship : ships.Ship) (cargo : cargoes.Cargo) (call : ℕ) (s : State) (ts : List tasks.Task) (cranes : ℕ) (rounds : List (List ℕ)) (order : List ℕ) → CanDoAll ship cargo call s ts → IsCraneList ship ts cranes rounds → IsOrderOf rounds order → IsSameWork ship cargo call s ts (picked ts order) }
    ensures leads { (ship : ships.Ship) (cargo : cargoes.Cargo) (call : ℕ) (before : Plan) (moves : List moves.Move) (new : Plan) (cranes : ℕ) (rounds : List (List ℕ)) (order : List ℕ) → LeadsTo ship cargo call before moves new → IsCraneList ship (tasks_of cargo call (start ship cargo call before) moves) cranes rounds → IsOrderOf rounds order → LeadsTo ship cargo call before (moves_in (picked (tasks_of cargo call (start ship cargo call before) moves) order)) new }
    ensures lifts { (ship : ships.Ship) (cargo : cargoes.Cargo) (call : ℕ) (before : Plan) (moves : List moves.Move) (new : Plan) (list : List ℕ) (cranes : ℕ) (rounds : List (List ℕ)) (order : List ℕ) → LeadsTo ship cargo call before moves new → LiftsExactly cargo call (start ship cargo call before) moves list → IsCraneList ship (tasks_of cargo call (start ship cargo call before) moves) cranes rounds → IsOrderOf rounds order → LiftsExactly cargo call (start ship cargo call before) (moves_in (picked (tasks_of cargo call (start ship cargo call before) moves) order)) list }
{}

/// No crane list has fewer rounds than the least number: a law, which costs nothing when it runs.
pub fn least_rounds_bound_crane_lists()
    ensures { (ship : ships.Ship) (ts : List tasks.Task) (cranes : ℕ) (rounds : List (List ℕ)) (least : ℕ) → IsLeastRounds ship (moves_in ts) cranes least → IsCraneList ship ts cranes rounds → least ≤ length rounds }
{}
