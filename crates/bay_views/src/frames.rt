//! The rows and tiers that are drawn.
ghost use Rattle.std.specs.Prelude.{◌≡◌, ◌<◌, ◌≤◌, All};
ghost use Rattle.stow_report.specs.Listings.{IsCell};
ghost use Rattle.bay_views.specs.Frames.{IsFrame, side_of, is_deck, bare, with_row, with_tier, with_group, frame_of, columns, deck_height, hold_height, bay_width, bay_height, column, left_of, hold_begin, top_of, row_of};

use baplie::CellGroup;

/// The columns and tiers that each bay of a picture is drawn with: the least that hold all cells.
#[derive(Clone, Copy)]
pub struct Frame {
    /// Columns on each side of the middle.
    pub side: u32,

    /// 1 where a column for row 00 stands in the middle, else 0.
    pub middle: u32,

    /// The lowest tier number on deck, 80 or 82.
    pub deck_low: u32,

    /// The highest tier number on deck.
    pub deck_top: u32,

    /// The lowest tier number in the hold, 0 or 2.
    pub hold_low: u32,

    /// The highest tier number in the hold.
    pub hold_top: u32,
}

/// The least frame that holds all cells.
pub(crate) fn frame_of(groups: &[CellGroup]) -> Frame
    requires { All IsCell groups.now }
    ensures value { result ≡ frame_of groups.now }
    ensures bounded { IsFrame result }
{
    let mut frame = bare();
    for group in groups {
        frame = with_group(frame, group);
    }
    frame
}

fn bare() -> Frame
    ensures value { result ≡ bare }
    ensures bounded { IsFrame result }
{
    Frame {
        side: 0,
        middle: 0,
        deck_low: 82,
        deck_top: 80,
        hold_low: 2,
        hold_top: 0,
    }
}

fn with_group(frame: Frame, group: &CellGroup) -> Frame
    requires frame { IsFrame frame }
    requires cell { IsCell group.now }
    ensures value { result ≡ with_group frame group.now }
    ensures bounded { IsFrame result }
{
    with_tier(with_row(frame, group.row), group.tier)
}

fn with_row(frame: Frame, row: u32) -> Frame
    requires frame { IsFrame frame }
    requires row { row < 100 }
    ensures value { result ≡ with_row frame row }
    ensures bounded { IsFrame result }
{
    Frame {
        side: frame.side.max(side_of(row)),
        middle: if row == 0 { 1 } else { frame.middle },
        ..frame
    }
}

fn side_of(row: u32) -> u32
    requires { row < 100 }
    ensures value { result ≡ side_of row }
    ensures small { result ≤ 50 }
{
    row.div_ceil(2)
}

fn with_tier(frame: Frame, tier: u32) -> Frame
    requires frame { IsFrame frame }
    requires tier { tier < 100 }
    ensures value { result ≡ with_tier frame tier }
    ensures bounded { IsFrame result }
{
    let odd = tier % 2;
    if is_deck(tier) {
        Frame {
            deck_low: frame.deck_low.min(tier - odd),
            deck_top: frame.deck_top.max(tier + odd),
            ..frame
        }
    } else {
        Frame {
            hold_low: frame.hold_low.min(tier - odd),
            hold_top: frame.hold_top.max(tier + odd),
            ..frame
        }
    }
}

/// Whether a tier is one on deck.
pub(crate) fn is_deck(tier: u32) -> bool
    ensures { result ≡ is_deck tier }
{
    tier >= 80
}

#[tactic(auto)]
impl Frame {
    pub(crate) fn columns(&self) -> u32
        requires { IsFrame self.now }
        ensures value { result ≡ columns self.now }
        ensures small { result ≤ 101 }
    {
        2 * self.side + self.middle
    }

    // It has at most 101 columns: a law, which costs nothing when it runs.
    pub(crate) fn is_narrow(&self)
        requires { IsFrame self.now }
        ensures { columns self.now ≤ 101 }
    {
        let _columns = self.columns();
    }

    pub(crate) fn deck_height(&self) -> u32
        requires { IsFrame self.now }
        ensures value { result ≡ deck_height self.now }
        ensures small { result ≤ 264 }
    {
        12 * (self.deck_top + 2 - self.deck_low)
    }

    pub(crate) fn hold_height(&self) -> u32
        requires { IsFrame self.now }
        ensures value { result ≡ hold_height self.now }
        ensures small { result ≤ 984 }
    {
        12 * (self.hold_top + 2 - self.hold_low)
    }

    /// The width of a bay, in pixels as all measures.
    pub(crate) fn bay_width(&self) -> u32
        requires { IsFrame self.now }
        ensures value { result ≡ bay_width self.now }
        ensures small { result ≤ 5716 }
        ensures some { 60 ≤ result }
    {
        56 * self.columns() + 60
    }

    pub(crate) fn bay_height(&self) -> u32
        requires { IsFrame self.now }
        ensures value { result ≡ bay_height self.now }
        ensures small { result ≤ 1358 }
    {
        self.deck_height() + self.hold_height() + 110
    }

    fn column(&self, row: u32) -> u32
        requires frame { IsFrame self.now }
        requires row { row < 100 }
        ensures value { result ≡ column self.now row }
        ensures small { result ≤ 101 }
    {
        let side = side_of(row);
        if row.is_multiple_of(2) {
            self.side.saturating_sub(side)
        } else {
            (self.side + self.middle + side).saturating_sub(1)
        }
    }

    /// Where the column of a row begins, from the left edge of its bay.
    pub(crate) fn left_of(&self, row: u32) -> u32
        requires frame { IsFrame self.now }
        requires row { row < 100 }
        ensures value { result ≡ left_of self.now row }
        ensures small { result ≤ 5690 }
    {
        34 + 56 * self.column(row)
    }

    pub(crate) fn hold_begin(&self) -> u32
        requires { IsFrame self.now }
        ensures value { result ≡ hold_begin self.now }
        ensures small { result ≤ 326 }
    {
        self.deck_height() + 62
    }

    /// Where a tier begins, from the upper edge of its bay.
    pub(crate) fn top_of(&self, tier: u32) -> u32
        requires { IsFrame self.now }
        ensures value { result ≡ top_of self.now tier }
        ensures small { result ≤ 1300 }
    {
        if is_deck(tier) {
            54 + 12 * self.deck_top.saturating_sub(tier)
        } else {
            self.hold_begin() + 12 * self.hold_top.saturating_sub(tier)
        }
    }

    /// The row of a column.
    pub(crate) fn row_of(&self, n: u32) -> u32
        requires frame { IsFrame self.now }
        requires column { n < columns self.now }
        ensures { result ≡ row_of self.now n }
    {
        let right = self.side + self.middle;
        if n >= right {
            2 * (n - right) + 1
        } else {
            2 * (self.side - n.min(self.side))
        }
    }
}
