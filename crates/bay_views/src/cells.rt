//! Where a cell is drawn.
ghost use Rattle.std.specs.Prelude.{◌≡◌, ◌<◌, ◌≤◌, ◌^◌};
ghost use Rattle.stow_report.specs.Listings.{IsCell};
ghost use Rattle.bay_views.specs.Sheets.{IsSheet};
ghost use Rattle.bay_views.specs.Cells.{width_of, half_of, cell_of};

use crate::bays::home_of;
use crate::sheets::Sheet;
use baplie::{CellGroup, cell_text};

/// A cell on the sheet, in pixels.
#[derive(Clone, Copy)]
pub struct Cell {
    /// BBBRRTT (ISO 9711).
    pub number: [u8; 7],
    pub left: u64,
    pub top: u64,
    pub width: u64,
}

/// The cell of a group.
pub(crate) fn cell_of(sheet: &Sheet, group: &CellGroup) -> Cell
    requires sheet { IsSheet sheet.now }
    requires cell { IsCell group.now }
    ensures value { result ≡ cell_of sheet.now group.now }
    ensures left { result.left < 2 ^ 33 }
    ensures top { result.top < 2 ^ 42 }
    ensures width { result.width ≤ 56 }
    ensures some { 28 ≤ result.width }
{
    let home = home_of(&sheet.long_bays, group.bay);
    let place = sheet.place_of(home);
    Cell {
        number: cell_text(group.bay, group.row, group.tier),
        left: sheet.bay_left(place)
            + u64::from(sheet.frame.left_of(group.row))
            + half_of(home, group.bay),
        top: sheet.bay_top(place) + u64::from(sheet.frame.top_of(group.tier)),
        width: width_of(group.bay),
    }
}

fn width_of(bay: u32) -> u64
    ensures value { result ≡ width_of bay }
    ensures small { result ≤ 56 }
    ensures some { 28 ≤ result }
{
    if bay.is_multiple_of(2) { 56 } else { 28 }
}

/// How far from the left a cell of 20 foot begins in that of 40 foot.
fn half_of(home: u32, bay: u32) -> u64
    requires { home ≤ 1000 }
    ensures value { result ≡ half_of home bay }
    ensures small { result ≤ 28 }
{
    if bay == home + 1 { 28 } else { 0 }
}
