//! Stays of an earlier voyage that a run takes over.
ghost use Rattle.std.specs.Prelude.{◌≡◌, ◌<◌, All, IfOk, length};

use crate::chance::Chance;
use crate::kept::Kept;
use crate::rule::FREE_RUNS;
use crate::scope::Scope;
use std::alloc::Global;
use std::marker::Model;
use stow_data::NoMemory;
use voyage_state::{Facts, Planned, Sizes, bit_of};

/// Stays of an earlier voyage that a run takes over: those in some stacks, and those that begin before a call. Contracts see
/// how much there is.
#[derive(Drop)]
pub struct Guide {
    sizes: Sizes,
    /// By the calls at which they begin.
    stays: Vec<Planned>,
    /// For each place the calls at which such stays begin there, as bits.
    pledged: Vec<u32>,
    /// For each stack whether its stays are planned anew.
    is_freed: Vec<bool>,
}

impl Model for Guide {
    ghost use Rattle.std.specs.Prelude.{◌≡◌, length};
    ghost use Rattle.voyage_state.specs.declared.sizes.Sizes.{Sizes};

    ghost Value = { Sizes };

    ghost view = { λ g. g.sizes };

    ghost invariant = { λ g. length g.pledged.items ≡ g.sizes.places };
}

impl Guide {
    ghost use Rattle.voyage_state.specs.Ranges.{IsPlanned};

    /// No stays.
    pub fn new(alloc: Global, facts: &Facts) -> Result<Guide, NoMemory>
        ensures { IfOk result (λ g. g ≡ facts.now) }
    {
        let sizes = facts.sizes();
        Ok(Guide {
            sizes,
            stays: Vec::new(alloc),
            pledged: Vec::from_elem(alloc, 0, sizes.places as usize)?,
            is_freed: Vec::from_elem(alloc, false, sizes.stacks as usize)?,
        })
    }

    /// The stays that are taken over, by the calls at which they begin.
    pub fn stays(&self) -> &[Planned] {
        self.stays.as_slice()
    }

    /// The calls at which stays that are taken over begin at this place, as bits.
    pub fn pledged(&self, place: u32) -> u32 {
        self.pledged.get(place as usize).copied().unwrap_or(0)
    }

    /// Takes nothing over.
    pub fn clear(&mut self)
        ensures { self.new ≡ self.old }
    {
        if self.stays.is_empty() {
            return;
        }
        self.pledged.fill(0);
        self.stays.clear();
    }

    /// Draws the stacks whose stays are planned anew.
    fn draw_freed(&mut self, chance: &mut Chance)
        ensures { self.new ≡ self.old }
    {
        let times = chance.below(30_000);
        for freed in self.is_freed.iter_mut() {
            *freed = chance.comes_true(times);
        }
    }

    /// Takes a stay over.
    fn take(&mut self, stay: Planned) -> Result<(), NoMemory>
        requires { stay.place < self.old.places }
        ensures { self.new ≡ self.old }
    {
        self.pledged[stay.place as usize] |= bit_of(stay.put);
        self.stays.push(stay)?;
        Ok(())
    }

    /// Takes a stay over where its stack isn't freed, or it begins before a call: up to which call it stays is then open if
    /// that is past this call.
    fn consider(&mut self, stay: &Planned, from: u32, asked: u32) -> Result<(), NoMemory>
        requires { stay.now.place < self.old.places }
        ensures { self.new ≡ self.old }
    {
        if stay.put == 0 || asked & bit_of(stay.put) != 0 {
            return Ok(());
        }
        let is_freed = self
            .is_freed
            .get(stay.spot.stack as usize)
            .copied()
            .unwrap_or(true);
        if !is_freed {
            return self.take(*stay);
        }
        if stay.put >= from {
            return Ok(());
        }
        let ends = if stay.lifted < from {
            stay.ends
        } else {
            u32::MAX
        };
        self.take(Planned { ends, ..*stay })
    }

    /// Takes over what it may of these stays.
    fn consider_all(&mut self, stays: &[Planned], from: u32, asked: &[u32]) -> Result<(), NoMemory>
        requires { All (IsPlanned self.old) stays.now }
        ensures { self.new ≡ self.old }
    {
        for stay in stays {
            let asked = asked.get(stay.place as usize).copied().unwrap_or(0);
            self.consider(stay, from, asked)?;
        }
        Ok(())
    }

    /// Takes over what it may of a voyage's stays in the stacks that are sailed.
    fn consider_stacks(
        &mut self,
        kept: &Kept,
        scope: &Scope,
        from: u32,
        asked: &[u32],
    ) -> Result<(), NoMemory>
        requires { kept.now ≡ self.old }
        ensures { self.new ≡ self.old }
    {
        for stack in scope.stacks() {
            self.consider_all(kept.stays(*stack), from, asked)?;
        }
        self.stays.sort_by_key(|stay| stay.put)?;
        Ok(())
    }

    /// Draws which of a voyage's stays are taken over, where the whole ship is sailed: those in some stacks, and those that begin
    /// before a call. Those that the box asks for are told by `asked`, for each place the calls as bits.
    pub fn draw(
        &mut self,
        facts: &Facts,
        chance: &mut Chance,
        kept: &Kept,
        scope: &Scope,
        asked: &[u32],
    ) -> Result<(), NoMemory>
        requires { kept.now ≡ self.old }
        ensures { self.new ≡ self.old }
    {
        self.clear();
        self.draw_freed(chance);
        let from = chance.below(facts.sizes().calls);
        self.consider_stacks(kept, scope, from, asked)
    }

    /// Draws from which call on few stacks are planned anew: mostly from the first, else the stays that begin before it are taken
    /// over.
    pub fn draw_from(
        &mut self,
        facts: &Facts,
        chance: &mut Chance,
        kept: &Kept,
        scope: &Scope,
        asked: &[u32],
    ) -> Result<(), NoMemory>
        requires { kept.now ≡ self.old }
        ensures { self.new ≡ self.old }
    {
        self.clear();
        if chance.below(100) < FREE_RUNS {
            return Ok(());
        }
        self.is_freed.fill(true);
        let from = chance.below(facts.sizes().calls);
        if from > 1 {
            self.consider_stacks(kept, scope, from, asked)?;
        }
        Ok(())
    }
}
