//! The voyage that is kept, stack by stack.
ghost use Rattle.std.specs.Prelude.{◌≡◌, ◌<◌, All, IfOk, length};

use crate::chance::Chance;
use std::alloc::Global;
use std::marker::Model;
use stow_data::NoMemory;
use voyage_state::{Planned, Sizes};

/// The cheapest voyage that was found, if any. Contracts see how much there is.
#[derive(Drop)]
pub struct Kept {
    sizes: Sizes,
    is_found: bool,
    /// For each stack the stays in it.
    stays: Vec<Vec<Planned>>,
    /// For each stack what the ends of these cost.
    costs: Vec<u32>,
    /// What that is in all.
    cost: u64,
}

impl Model for Kept {
    ghost use Rattle.voyage_state.specs.declared.sizes.Sizes.{Sizes};
    ghost use Rattle.heuristic.specs.Keeping.{IsKept};

    ghost Value = { Sizes };

    ghost view = { λ k. k.sizes };

    ghost invariant = { IsKept };
}

impl Kept {
    ghost use Rattle.voyage_state.specs.Ranges.{IsPlanned};

    /// No voyage.
    pub fn new(alloc: Global, sizes: Sizes) -> Result<Kept, NoMemory>
        ensures { IfOk result (λ k. k ≡ sizes) }
    {
        let mut stays = Vec::new(alloc);
        for _stack in 0..sizes.stacks {
            stays.push(Vec::new(alloc))?;
        }
        Ok(Kept {
            sizes,
            is_found: false,
            stays,
            costs: Vec::from_elem(alloc, 0, sizes.stacks as usize)?,
            cost: 0,
        })
    }

    /// Whether there is a voyage.
    pub fn is_found(&self) -> bool {
        self.is_found
    }

    /// What the voyage costs.
    pub fn cost(&self) -> u64 {
        self.cost
    }

    /// For each stack the stays in it.
    pub fn stacks(&self) -> &[Vec<Planned>]
        ensures { All (λ list. All (IsPlanned self.now) list.items) result.now }
    {
        self.stays.as_slice()
    }

    /// The stays in a stack.
    pub fn stays(&self, stack: u32) -> &[Planned]
        ensures { All (IsPlanned self.now) result.now }
    {
        match self.stays.get(stack as usize) {
            None => &[],
            Some(stays) => stays.as_slice(),
        }
    }

    /// What the rehandles of a stack cost.
    pub fn cost_at(&self, stack: u32) -> u32 {
        self.costs.get(stack as usize).copied().unwrap_or(0)
    }

    /// What the rehandles of these stacks cost.
    pub fn cost_of(&self, stacks: &[u32]) -> u64 {
        let mut sum: u64 = 0;
        for stack in stacks {
            sum = sum.saturating_add(u64::from(self.cost_at(*stack)));
        }
        sum
    }

    /// A stack whose rehandles cost something, each as likely as they are dear. None where there is none.
    pub fn draw_rehandled(&self, chance: &mut Chance) -> Option<u32> {
        if self.cost == 0 {
            return None;
        }
        let most = u32::try_from(self.cost).unwrap_or(u32::MAX);
        let mut left = chance.below(most);
        let mut number: u32 = 0;
        for cost in self.costs.iter() {
            if left < *cost {
                return Some(number);
            }
            left = left.saturating_sub(*cost);
            number = number.saturating_add(1);
        }
        None
    }

    /// Forgets the voyage.
    pub fn forget(&mut self)
        ensures { self.new ≡ self.old }
    {
        self.is_found = false;
    }

    /// Forgets the stays in a stack.
    fn clear(&mut self, stack: u32)
        requires { stack < self.old.stacks }
        ensures { self.new ≡ self.old }
    {
        self.cost = self.cost.saturating_sub(u64::from(self.cost_at(stack)));
        self.costs[stack as usize] = 0;
        let stays = &mut self.stays[stack as usize];
        stays.clear();
    }

    /// Enters a stay.
    fn enter(&mut self, stay: &Planned) -> Result<(), NoMemory>
        requires { IsPlanned self.old stay.now }
        ensures { self.new ≡ self.old }
    {
        let stack = stay.spot.stack as usize;
        self.cost = self.cost.saturating_add(u64::from(stay.cost));
        self.costs[stack] = self.costs[stack].saturating_add(stay.cost);
        let stays = &mut self.stays[stack];
        stays.push(*stay)?;
        Ok(())
    }

    /// Enters these stays.
    fn enter_all(&mut self, stays: &[Planned]) -> Result<(), NoMemory>
        requires { All (IsPlanned self.old) stays.now }
        ensures { self.new ≡ self.old }
    {
        for stay in stays {
            self.enter(stay)?;
        }
        Ok(())
    }

    /// Keeps what is kept there.
    pub fn copy_from(&mut self, other: &Kept) -> Result<(), NoMemory>
        requires { other.now ≡ self.old }
        ensures { self.new ≡ self.old }
    {
        for stays in other.stacks() {
            self.enter_all(stays)?;
        }
        self.is_found = other.is_found;
        Ok(())
    }

    /// Forgets the stays in these stacks.
    fn clear_all(&mut self, stacks: &[u32])
        requires { All (λ s. s < self.old.stacks) stacks.now }
        ensures { self.new ≡ self.old }
    {
        for stack in stacks {
            self.clear(*stack);
        }
    }

    /// Keeps these stays in place of all that were in these stacks.
    pub fn take(&mut self, stacks: &[u32], stays: &[Planned]) -> Result<(), NoMemory>
        requires stacks { All (λ s. s < self.old.stacks) stacks.now }
        requires stays { All (IsPlanned self.old) stays.now }
        ensures { self.new ≡ self.old }
    {
        self.clear_all(stacks);
        self.enter_all(stays)?;
        self.is_found = true;
        Ok(())
    }
}
