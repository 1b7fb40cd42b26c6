//! What holds of moves and their faults.
ghost use Rattle.std.specs.Prelude.{◌↔◌};
ghost use Rattle.stow_data.specs.Ship as ships;
ghost use Rattle.stow_data.specs.Shipment as cargoes;
ghost use Rattle.voyage_meaning.specs.Moves as words;
ghost use Rattle.voyage_meaning.specs.Berths.{BelongsTo, IsInRange};
ghost use Rattle.voyage_meaning.specs.Refusals.{IsMoveFault};
ghost use Rattle.voyage_meaning.specs.declared.moves.Move as moves;
ghost use Rattle.voyage_meaning.specs.declared.refusals.MoveFault as faults;

/// A move is allowed exactly where it has no fault: a law, which costs nothing when it runs.
pub fn allowed_without_fault()
    ensures { (ship : ships.Ship) (cargo : cargoes.Cargo) (s : words.State) (m : moves.Move) → BelongsTo ship cargo s → IsInRange s m → words.Allowed ship cargo s m ↔ ((f : faults.MoveFault) → IsMoveFault ship cargo s m f → ⊥) }
{}
