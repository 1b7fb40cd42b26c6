//! What holds of every picture.
ghost use Rattle.std.specs.Prelude.{◌≡◌, ◌+◌, List, count_by, length};
ghost use Rattle.std.specs.List.{sum_by};
ghost use Rattle.stow_report.specs.declared.crane_lists.CraneMove.{CraneMove};
ghost use Rattle.crane_pictures.specs.declared.purposes.Purpose.TheVariants.{Discharge, Load, MoveAside, PutBack, CoverOff, CoverOn};
ghost use Rattle.crane_pictures.specs.declared.shapes.Shape.{Shape};
ghost use Rattle.crane_pictures.specs.Shapes.{has_purpose, shapes_of};

/// One shape is drawn for each move, and the legend counts each shape once.
pub fn drawn_once()
    ensures each { (rounds : List (List CraneMove)) → length (shapes_of rounds) ≡ sum_by length rounds }
    ensures counted { (shapes : List Shape) → count_by (has_purpose Discharge) shapes + count_by (has_purpose Load) shapes + count_by (has_purpose MoveAside) shapes + count_by (has_purpose PutBack) shapes + count_by (has_purpose CoverOff) shapes + count_by (has_purpose CoverOn) shapes ≡ length shapes }
{}
