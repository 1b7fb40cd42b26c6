//! Entries of the matrix of base rows.
use stow_data::VarNo;

/// A variable of a sum, with what it counts there.
#[derive(Clone, Copy)]
pub struct Entry {
    pub at: VarNo,
    pub by: u32,
}

/// A sum that holds a variable, by its number, with what the variable counts there.
#[derive(Clone, Copy)]
pub struct Share {
    pub sum: usize,
    pub by: u32,
}

/// A variable of a row, with its coefficient there.
#[derive(Clone, Copy)]
pub struct Term {
    pub at: VarNo,
    pub by: i32,
}

/// A row, by its number, that loses greatest value where a variable gets a value, and how much it loses.
#[derive(Clone, Copy)]
pub struct Loss {
    pub row: u32,
    pub by: u32,
}
