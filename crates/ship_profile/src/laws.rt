//! What the refusals of a profile mean.
ghost use Rattle.ship_profile.specs.SharedCells.{NamesFirstShared};

/// The refusal of a shared cell names the first stack that shares one with an earlier stack, and the lowest odd bay in
/// which it does.
#[tactic(auto, using(crate::proofs::FirstShared::names_first_shared))]
pub fn shared_cells_are_named()
    ensures { NamesFirstShared }
{}
