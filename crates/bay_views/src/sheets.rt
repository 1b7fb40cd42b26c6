//! Where the bays stand.
ghost use Rattle.std.specs.Prelude.{◌≡◌, ◌<◌, ◌≤◌, ◌^◌, ◌+◌, ◌*◌, ◌==◌, All, length, IfOk};
ghost use Rattle.std.specs.List.{position_or_len};
ghost use Rattle.stow_report.specs.Listings.{IsCell};
ghost use Rattle.bay_views.specs.Bays.{drawn_bays, homes};
ghost use Rattle.bay_views.specs.Sheets.{IsSheet, sheet_of, legend_lines, per_line, place_of, bay_left, bay_top, sheet_width, sheet_height, bay_lines};

use crate::bays::{drawn_bays, long_bays};
use crate::frames::{Frame, frame_of};
use baplie::CellGroup;
use std::alloc::Global;
use stow_data::{NoMemory, NumberList};

/// How the bays of a message are laid out: from fore to aft, in lines from the left to the right.
#[derive(Drop)]
pub struct Sheet {
    pub frame: Frame,

    /// The bays of 40 foot that the message names.
    pub long_bays: NumberList,

    /// The bays that are drawn, each by the number of its 40-foot bay.
    pub bays: NumberList,

    /// Where the first line of bays begins, in pixels.
    pub top: u64,
}

/// The sheet of these cells, below a legend of so many ports.
pub(crate) fn sheet_of(alloc: Global, ports: usize, groups: &[CellGroup]) -> Result<Sheet, NoMemory>
    requires { All IsCell groups.now }
    ensures value { IfOk result (λ s. s ≡ sheet_of ports groups.now) }
    ensures bounded { IfOk result IsSheet }
{
    let long_bays = long_bays(alloc, groups)?;
    let bays = drawn_bays(alloc, &long_bays, groups)?;
    let lines = ((ports as u64).min(4_294_967_296) + 5) / 6;
    Ok(Sheet {
        frame: frame_of(groups),
        long_bays,
        bays,
        top: 98 + 22 * lines,
    })
}

#[tactic(auto)]
impl Sheet {
    fn per_line(&self) -> u64
        requires { IsSheet self.now }
        ensures value { result ≡ per_line self.now }
        ensures some { 1 ≤ result }
        ensures small { result ≤ 1600 }
    {
        u64::from(1600 / self.frame.bay_width()).max(1)
    }

    /// The place of a bay among those that are drawn, from 0.
    pub(crate) fn place_of(&self, home: u32) -> usize
        requires { IsSheet self.now }
        ensures value { result ≡ place_of self.now home }
        ensures small { result ≤ 501 }
    {
        place_in(&self.bays, home)
    }

    pub(crate) fn bay_left(&self, place: usize) -> u64
        requires sheet { IsSheet self.now }
        requires place { place ≤ 501 }
        ensures value { result ≡ bay_left self.now place }
        ensures small { result < 2 ^ 32 }
    {
        let across = place as u64 % self.per_line();
        10 + across * u64::from(self.frame.bay_width())
    }

    pub(crate) fn bay_top(&self, place: usize) -> u64
        requires sheet { IsSheet self.now }
        requires place { place ≤ 501 }
        ensures value { result ≡ bay_top self.now place }
        ensures small { result < 2 ^ 41 }
    {
        let down = place as u64 / self.per_line();
        self.top + down * u64::from(self.frame.bay_height())
    }

    pub(crate) fn width(&self) -> u64
        requires { IsSheet self.now }
        ensures { result ≡ sheet_width self.now }
    {
        (20 + self.per_line() * u64::from(self.frame.bay_width())).max(1260)
    }

    pub(crate) fn height(&self) -> u64
        requires { IsSheet self.now }
        ensures { result ≡ sheet_height self.now }
    {
        let across = self.per_line();
        let lines = (self.bays.len() as u64 + across - 1) / across;
        self.top + lines * u64::from(self.frame.bay_height()) + 10
    }
}

/// The place of a number among these, or their number where it is none of them.
fn place_in(numbers: &NumberList, n: u32) -> usize
    ensures value { result ≡ position_or_len (λ m. m == n) numbers.now }
    ensures within { result ≤ length numbers.now }
{
    for (place, number) in numbers.as_slice().iter().enumerate() {
        if *number == n {
            return place;
        }
    }
    numbers.len()
}
