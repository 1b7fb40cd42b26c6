//! Cells that two stacks would share.
ghost use Rattle.std.specs.Prelude.{◌≡◌, ◌==◌, ◌&&◌, ◌||◌, ℕ, All, Some, None, [], find, if◌then◌else◌, OnOk};
ghost use Rattle.std.specs.BTreeSet.{contains};
ghost use Rattle.stow_data.specs.Profile.{IsStack};
ghost use Rattle.ship_profile.specs.Keys.{Gives};
ghost use Rattle.ship_profile.specs.Stacks.{apart_after, has_cell_of, odd_bays, same_part};
ghost use Rattle.ship_profile.specs.Positions.{position_in, position_order};

use crate::faults::ProfileFault;
use crate::position::{Position, position_in};
use std::alloc::Global;
use std::collections::BTreeSet;
use stow_data::{Lengths, NoMemory, Stack};

/// Enters the half-cells of a stack in one odd bay.
fn enter_side(cells: &mut BTreeSet<Position>, odd: u32, t: &Stack) -> Result<(), NoMemory>
    ensures { OnOk result ((s : Stack) (o : ℕ) → contains position_order cells.new (position_in o s) ≡ ((((t.now.row == s.row) && same_part t.now s) && (odd == o)) || contains position_order cells.old (position_in o s))) }
{
    cells.insert(position_in(odd, t))?;
    Ok(())
}

/// Enters the half-cells of a stack.
fn enter(cells: &mut BTreeSet<Position>, t: &Stack) -> Result<(), NoMemory>
    requires { IsStack t.now }
    ensures { OnOk result ((s : Stack) (o : ℕ) → contains position_order cells.new (position_in o s) ≡ (has_cell_of s o t.now || contains position_order cells.old (position_in o s))) }
{
    let fore = t.bay - 1;
    let aft = t.bay + 1;
    match t.lengths {
        Lengths::ForeOnly => enter_side(cells, fore, t),
        Lengths::AftOnly => enter_side(cells, aft, t),
        Lengths::Forty | Lengths::Twenty | Lengths::Mixed => {
            enter_side(cells, fore, t)?;
            enter_side(cells, aft, t)
        }
    }
}

/// The odd bay, where a stack's half-cells in it are taken.
fn bay_if_taken(cells: &BTreeSet<Position>, s: &Stack, odd: u32) -> Option<u32>
    ensures { result ≡ (if contains position_order cells.now (position_in odd s.now) then Some odd else None) }
{
    if cells.contains(&position_in(odd, s)) {
        Some(odd)
    } else {
        None
    }
}

/// The lowest odd bay in which a stack's half-cells are taken.
fn bay_taken(cells: &BTreeSet<Position>, s: &Stack) -> Option<u32>
    requires { IsStack s.now }
    ensures { result ≡ find (λ odd. contains position_order cells.now (position_in odd s.now)) (odd_bays s.now) }
{
    let fore = s.bay - 1;
    let aft = s.bay + 1;
    match s.lengths {
        Lengths::ForeOnly => bay_if_taken(cells, s, fore),
        Lengths::AftOnly => bay_if_taken(cells, s, aft),
        Lengths::Forty | Lengths::Twenty | Lengths::Mixed => match bay_if_taken(cells, s, fore) {
            Some(bay) => Some(bay),
            None => bay_if_taken(cells, s, aft),
        },
    }
}

/// Refuses the first stack that shares a cell with an earlier one.
pub fn refuse_shared(alloc: Global, stacks: &[Stack]) -> Result<(), ProfileFault>
    requires { All IsStack stacks.now }
    ensures { Gives (λ u. u) result (apart_after [] stacks.now) }
{
    let mut cells = BTreeSet::new(alloc);
    for s in stacks {
        if let Some(bay) = bay_taken(&cells, s) {
            return Err(ProfileFault::DuplicateCell {
                bay,
                row: s.row,
                tier: s.lowest,
            });
        }
        enter(&mut cells, s)?;
    }
    Ok(())
}
