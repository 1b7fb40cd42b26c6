//! The ship, with its places and half-cells in tables.
ghost use Rattle.std.specs.Prelude.{◌≡◌, ◌<◌, ◌≤◌, ◌↔◌, ℕ, IfOk, IsTrue, MatchOption, Some, length, slice_get};
ghost use Rattle.stow_data.specs.Kinds.{rounded};

use crate::cells::{CellNumber, number_on};
use crate::geometry::{
    Cover, CoverList, Half, Length, Place, Separation, SeparationList, Stack, Stacks,
};
use crate::list::{NoMemory, Seq};
use crate::names::Name;
use crate::numbers::{CoverNo, HalfNo, PlaceNo, StackNo};
use crate::ship_tables::ship_tables;
use crate::tables::sides_of;
use std::alloc::Global;
use std::collections::BTreeMap;
use std::marker::Model;

/// A ship as its profile gives it. Contracts see the five parts that `new` takes, and the rules that they obey.
#[derive(Drop)]
pub struct Ship {
    name: Name,
    weight_step: u32,
    stacks: Stacks,
    covers: CoverList,
    separations: SeparationList,
    place_table: Seq<Place>,
    half_table: Seq<Half>,
    over_table: Seq<Option<CoverNo>>,
    under_table: Seq<Option<CoverNo>>,
    cell_table: BTreeMap<CellNumber, PlaceNo>,
}

impl Model for Ship {
    ghost use Rattle.std.specs.Prelude.{◌≡◌};
    ghost use Rattle.stow_data.specs.Ship as ship;

    ghost Value = { ship.Ship };

    ghost use Rattle.stow_data.specs.Tables.{ship_of, IsTabled};

    ghost view = { ship_of };

    ghost invariant = { IsTabled };
}

impl Ship {
    ghost use Rattle.stow_data.specs.Ship.{places, halves, FitsAt, HasNumber, IsAbove, LiesUnder, StandsOn};
    ghost use Rattle.stow_data.specs.Profile.{IsShip};

    /// A ship of these parts, which obey the rules of a profile.
    pub fn new(
        alloc: Global,
        name: Name,
        weight_step: u32,
        stacks: Stacks,
        covers: CoverList,
        separations: SeparationList,
    ) -> Result<Ship, NoMemory>
        requires { IsShip (record { name = name; weight_step = weight_step; stacks = stacks; covers = covers; separations = separations }) }
        ensures { IfOk result (λ ship. ship ≡ record { name = name; weight_step = weight_step; stacks = stacks; covers = covers; separations = separations }) }
    {
        match ship_tables(alloc, &stacks, &covers) {
            Ok(tables) => Ok(Ship {
                name,
                weight_step,
                stacks,
                covers,
                separations,
                place_table: tables.places,
                half_table: tables.halves,
                over_table: tables.over,
                under_table: tables.under,
                cell_table: tables.cells,
            }),
            Err(no) => {
                drop((name, stacks, covers, separations));
                Err(no)
            }
        }
    }

    /// The name of the ship.
    pub fn name(&self) -> Name
        ensures { result ≡ self.now.name }
    {
        self.name.copy()
    }

    /// The step, in kilograms, to which weights are rounded up.
    pub fn weight_step(&self) -> u32
        ensures { result ≡ self.now.weight_step }
    {
        self.weight_step
    }

    /// A weight in kilograms, rounded up to the ship's step.
    pub fn rounded(&self, kg: u32) -> u32
        requires { kg ≤ 99999 }
        ensures value { result ≡ rounded self.now.weight_step kg }
        ensures small { result ≤ 110000 }
    {
        let step = self.weight_step;
        (kg + step - 1) / step * step
    }

    /// The ship obeys the rules of a profile: a law, which costs nothing when it runs.
    pub fn obeys_rules(&self)
        ensures { IsShip self.now }
    {
        let _opened = &self.name;
    }

    /// The number of stacks.
    pub fn stacks(&self) -> u32
        ensures { result ≡ length self.now.stacks }
    {
        self.stacks.len() as u32
    }

    /// The number of hatch covers.
    pub fn covers(&self) -> u32
        ensures { result ≡ length self.now.covers }
    {
        self.covers.len() as u32
    }

    /// The number of separations.
    pub fn separations(&self) -> u32
        ensures { result ≡ length self.now.separations }
    {
        self.separations.len() as u32
    }

    /// A stack.
    pub fn stack(&self, s: StackNo) -> &Stack
        requires { s < length self.now.stacks }
        ensures { slice_get self.now.stacks s ≡ Some result.now }
    {
        self.stacks.at(s.0 as usize)
    }

    /// A hatch cover.
    pub fn cover(&self, c: CoverNo) -> &Cover
        requires { c < length self.now.covers }
        ensures { slice_get self.now.covers c ≡ Some result.now }
    {
        self.covers.at(c.0 as usize)
    }

    /// A separation, by its index from 0.
    pub fn separation(&self, index: u32) -> &Separation
        requires { index < length self.now.separations }
        ensures { slice_get self.now.separations index ≡ Some result.now }
    {
        self.separations.at(index as usize)
    }

    /// The number of half-cells.
    pub fn halves(&self) -> u32
        ensures { result ≡ length (halves self.now) }
    {
        self.half_table.len() as u32
    }

    /// The number of places, and that the ship obeys the rules of a profile.
    pub fn places(&self) -> u32
        ensures number { result ≡ length (places self.now) }
        ensures rules { IsShip self.now }
    {
        self.place_table.len() as u32
    }

    /// A half-cell.
    pub fn half(&self, h: HalfNo) -> Half
        requires { h < length (halves self.now) }
        ensures { slice_get (halves self.now) h ≡ Some result }
    {
        *self.half_table.at(h.0 as usize)
    }

    /// A place.
    pub fn place(&self, p: PlaceNo) -> Place
        requires { p < length (places self.now) }
        ensures { slice_get (places self.now) p ≡ Some result }
    {
        *self.place_table.at(p.0 as usize)
    }

    /// Bay, row and tier number of a place (ISO 9711).
    pub fn number_of_place(&self, p: PlaceNo) -> (u32, u32, u32)
        requires { p < length (places self.now) }
        ensures { HasNumber self.now p result }
    {
        self.obeys_rules();
        let place = self.place(p);
        let number = number_on(self.stack(place.stack), place);
        (number.bay, number.row, number.tier)
    }

    /// The place of this bay, row and tier number (ISO 9711); None exactly where no place has it.
    pub fn place_of_number(&self, bay: u32, row: u32, tier: u32) -> Option<PlaceNo>
        ensures has { MatchOption result ((p : ℕ) → HasNumber self.now p (bay, row, tier) → ⊥) (λ p. HasNumber self.now p (bay, row, tier)) }
        ensures back { (p : ℕ) → HasNumber self.now p (bay, row, tier) → result ≡ Some p }
    {
        let number = CellNumber { bay, row, tier };
        self.cell_table.get(&number).copied()
    }

    /// The half-cell directly above; None exactly where the column has no such tier.
    pub fn above(&self, h: HalfNo) -> Option<HalfNo>
        requires { h < length (halves self.now) }
        ensures is { MatchOption result ((u : ℕ) → IsAbove self.now u h → ⊥) (λ u. IsAbove self.now u h) }
        ensures back { (u : ℕ) → IsAbove self.now u h → result ≡ Some u }
    {
        self.obeys_rules();
        let half = self.half(h);
        let stack = self.stack(half.stack);
        let tiers = stack.tiers;
        if half.tier + 1 == tiers {
            return None;
        }
        Some(HalfNo(h.0 + sides_of(stack.lengths).len() as u32))
    }

    /// The half-cell directly below; None exactly where the column has no such tier.
    pub fn below(&self, h: HalfNo) -> Option<HalfNo>
        requires { h < length (halves self.now) }
        ensures is { MatchOption result ((b : ℕ) → IsAbove self.now h b → ⊥) (λ b. IsAbove self.now h b) }
        ensures back { (b : ℕ) → IsAbove self.now h b → result ≡ Some b }
    {
        let half = self.half(h);
        if half.tier == 0 {
            return None;
        }
        let stack = self.stack(half.stack);
        Some(HalfNo(h.0 - sides_of(stack.lengths).len() as u32))
    }

    /// The hatch cover over a stack; None exactly where the stack lies under none.
    pub fn cover_over(&self, s: StackNo) -> Option<CoverNo>
        ensures is { MatchOption result ((k : ℕ) → LiesUnder self.now s k → ⊥) (λ k. LiesUnder self.now s k) }
        ensures back { (k : ℕ) → LiesUnder self.now s k → result ≡ Some k }
    {
        let stack = s.0 as usize;
        if stack >= self.over_table.len() {
            return None;
        }
        *self.over_table.at(stack)
    }

    /// The hatch cover under a stack; None exactly where the stack stands on none.
    pub fn cover_under(&self, s: StackNo) -> Option<CoverNo>
        ensures is { MatchOption result ((k : ℕ) → StandsOn self.now s k → ⊥) (λ k. StandsOn self.now s k) }
        ensures back { (k : ℕ) → StandsOn self.now s k → result ≡ Some k }
    {
        let stack = s.0 as usize;
        if stack >= self.under_table.len() {
            return None;
        }
        *self.under_table.at(stack)
    }

    /// Whether a container of this length, a reefer or not, fits the place.
    pub fn fits(&self, p: PlaceNo, long: Length, reefer: bool) -> bool
        requires { p < length (places self.now) }
        ensures { IsTrue result ↔ FitsAt self.now p long reefer }
    {
        let place = self.place(p);
        let plug = place.plug;
        place.takes(long) && (!reefer || plug)
    }
}
