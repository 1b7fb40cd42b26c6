//! Laws of the sums of rows.
ghost use Rattle.row_sums.specs.Laws.{HasParts, AreSums, ShareNone, MostBySums, FixedToZero, FixedToOne};

use zero_one_rows::variables_stand_once;

/// Each base row is its one or two signed sums, which share no variable; so its greatest value over a box is that of its sums.
pub fn rows_are_sums()
    ensures each { HasParts }
    ensures coefficients { AreSums }
    ensures apart { ShareNone }
    ensures greatest { MostBySums }
{
    variables_stand_once();
}

/// Fixing a free variable to 0 changes the greatest values of its sums alone, fixing it to 1 the least ones.
pub fn a_fix_changes_one_side()
    ensures zero { FixedToZero }
    ensures one { FixedToOne }
{}
