//! What a crane does.
use stow_data::{ContainerNo, CoverNo, PlaceNo};

/// A move of a crane at a call: a hatch cover off or on, a container from its place or to a place.
#[derive(Clone, Copy)]
pub enum Move {
    OffCover(CoverNo),
    OnCover(CoverNo),
    Lift(PlaceNo),
    Put(ContainerNo, PlaceNo),
}
