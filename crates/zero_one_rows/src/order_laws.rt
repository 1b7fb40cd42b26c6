//! Laws of the list of rows.
ghost use Rattle.zero_one_rows.specs.Ordered.{ListsRows, ListsBaseRows, ListsInOrder};

/// The list of rows has the rows of the program alone, and all of them; its first part is that of the base rows.
pub fn rows_are_listed()
    ensures all { ListsRows }
    ensures base { ListsBaseRows }
{}

/// The list of rows rises: by family, and then by the numbers, so each row stands once.
pub fn rows_are_in_order()
    ensures { ListsInOrder }
{}
