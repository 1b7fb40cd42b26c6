//! What numbers tell.
ghost use Rattle.row_sums.specs.Numbers.{HasRoom, NumbersTellSums};

/// Each sum that there is has a number, and two of them don't have one.
pub fn numbers_tell_sums()
    ensures room { HasRoom }
    ensures tell { NumbersTellSums }
{}
