//! Laws of variables and rows.
ghost use Rattle.zero_one_rows.specs.Listed.{ListsVariables, ListsEach, ListsOnce};
ghost use Rattle.zero_one_rows.specs.Ranges.{NamesWhatIsThere, HasSmallCoefficients, HasSmallRightSides};

/// The list of variables has variables alone, all of them, and each once.
pub fn variables_stand_once()
    ensures alone { ListsVariables }
    ensures each { ListsEach }
    ensures once { ListsOnce }
{}

/// The numbers of a row that there is name what is there; its coefficients are at most 2^17, and its right side at most 2^37.
pub fn rows_are_in_range()
    ensures names { NamesWhatIsThere }
    ensures coefficients { HasSmallCoefficients }
    ensures right_sides { HasSmallRightSides }
{}
