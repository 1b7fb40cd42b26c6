//! Which stacks are bound together: what can be put in one of them depends on what stands in the others.
ghost use Rattle.std.specs.Prelude.{◌≡◌, ◌<◌, All, IfOk};

use crate::facts::{StackFacts, count_of};
use std::alloc::Global;
use std::marker::Model;
use stow_data::NoMemory;

/// The groups of stacks that are bound together. Contracts see the number of stacks.
#[derive(Drop)]
pub struct Bonds {
    count: u32,
    /// For each stack the number of its group.
    groups: Vec<u32>,
    /// For each group its stacks.
    stacks: Vec<Vec<u32>>,
}

impl Model for Bonds {
    ghost use Rattle.std.specs.Prelude.{ℕ, ◌<◌, All};

    ghost Value = { ℕ };

    ghost view = { λ b. b.count };

    ghost invariant = { λ b. All (λ list. All (λ s. s < b.count) list.items) b.stacks.items };
}

/// For each stack the number of its group, as stacks are joined.
#[derive(Drop)]
struct Groups {
    numbers: Vec<u32>,
}

/// The first stack with this cover.
fn first_with_cover(stacks: &[StackFacts], cover: u32) -> Option<usize> {
    stacks.iter().position(|stack| stack.cover() == Some(cover))
}

/// The first stack of this bay.
fn first_of_bay(stacks: &[StackFacts], bay: u32) -> Option<usize> {
    stacks.iter().position(|stack| stack.bay == bay)
}

impl Groups {
    /// A group for each stack.
    fn apart(alloc: Global, count: u32) -> Result<Groups, NoMemory> {
        let mut numbers = Vec::new(alloc);
        for stack in 0..count {
            numbers.push(stack)?;
        }
        Ok(Groups { numbers })
    }

    /// The number of a stack's group.
    fn group(&self, stack: usize) -> u32 {
        self.numbers.get(stack).copied().unwrap_or(0)
    }

    /// Makes one group of those of two stacks.
    fn join(&mut self, stack: usize, first: Option<usize>) {
        let Some(first) = first else {
            return;
        };
        let (from, to) = (self.group(stack), self.group(first));
        if from == to {
            return;
        }
        for group in self.numbers.iter_mut() {
            if *group == from {
                *group = to;
            }
        }
    }

    /// Joins the stacks that a hatch cover binds, and those of one bay where that binds them too.
    fn join_all(&mut self, stacks: &[StackFacts], by_bay: bool) {
        for (number, stack) in stacks.iter().enumerate() {
            if let Some(cover) = stack.cover() {
                self.join(number, first_with_cover(stacks, cover));
            }
            if by_bay {
                self.join(number, first_of_bay(stacks, stack.bay));
            }
        }
    }

    /// The stacks of a group, of so many.
    fn stacks_of(&self, alloc: Global, group: u32, count: u32) -> Result<Vec<u32>, NoMemory>
        ensures { IfOk result (λ list. All (λ s. s < count) list.items) }
    {
        let mut list = Vec::new(alloc);
        for stack in 0..count {
            if self.group(stack as usize) == group {
                list.push(stack)?;
            }
        }
        Ok(list)
    }
}

impl Bonds {
    /// No stacks.
    pub fn none(alloc: Global) -> Bonds
        ensures { result ≡ 0 }
    {
        Bonds {
            count: 0,
            groups: Vec::new(alloc),
            stacks: Vec::new(alloc),
        }
    }

    /// Binds these stacks: by hatch covers, and by bays where a separation reaches over a bay.
    pub fn bind(alloc: Global, stacks: &[StackFacts], by_bay: bool) -> Result<Bonds, NoMemory> {
        let count = count_of(stacks);
        let mut groups = Groups::apart(alloc, count)?;
        groups.join_all(stacks, by_bay);
        let mut lists = Vec::new(alloc);
        for group in 0..count {
            lists.push(groups.stacks_of(alloc, group, count)?)?;
        }
        Ok(Bonds {
            count,
            groups: groups.numbers,
            stacks: lists,
        })
    }

    /// The number of stacks.
    pub fn count(&self) -> u32
        ensures { result ≡ self.now }
    {
        self.count
    }

    /// The stacks that are bound to a stack, with it.
    pub fn with(&self, stack: u32) -> &[u32]
        ensures { All (λ s. s < self.now) result.now }
    {
        let group = self.groups.get(stack as usize).copied().unwrap_or(0);
        match self.stacks.get(group as usize) {
            None => &[],
            Some(stacks) => stacks.as_slice(),
        }
    }
}
