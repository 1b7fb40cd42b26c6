//! Which stacks a run sails.
ghost use Rattle.std.specs.Prelude.{◌≡◌, ◌<◌, All, IfOk};

use crate::chance::Chance;
use crate::kept::Kept;
use crate::rule::{FEWEST_FREED, FREED_SPREAD, REHANDLED_RUNS};
use std::alloc::Global;
use std::marker::Model;
use stow_data::NoMemory;
use voyage_state::Facts;

/// The stacks that a run sails: all, or few, and then the others keep their stays. Contracts see the number of stacks.
#[derive(Drop)]
pub struct Scope {
    /// How many stacks there are.
    count: u32,
    is_whole: bool,
    /// How many groups of bound stacks were drawn.
    groups: u32,
    stacks: Vec<u32>,
    /// For each stack whether it is among them.
    is_sailed: Vec<bool>,
}

impl Model for Scope {
    ghost use Rattle.std.specs.Prelude.{ℕ, ◌≡◌, ◌<◌, All, length};

    ghost Value = { ℕ };

    ghost view = { λ s. s.count };

    ghost invariant = { λ s. (length s.is_sailed.items ≡ s.count) × All (λ n. n < s.count) s.stacks.items };
}

impl Scope {
    /// No stacks.
    pub fn new(alloc: Global, facts: &Facts) -> Result<Scope, NoMemory>
        ensures { IfOk result (λ s. s ≡ facts.now.stacks) }
    {
        let count = facts.sizes().stacks;
        Ok(Scope {
            count,
            is_whole: false,
            groups: 0,
            stacks: Vec::new(alloc),
            is_sailed: Vec::from_elem(alloc, false, count as usize)?,
        })
    }

    /// Whether the whole ship is sailed.
    pub fn is_whole(&self) -> bool {
        self.is_whole
    }

    /// The stacks that are sailed.
    pub fn stacks(&self) -> &[u32]
        ensures { All (λ s. s < self.now) result.now }
    {
        self.stacks.as_slice()
    }

    /// Whether a stack is sailed.
    pub fn has(&self, stack: u32) -> bool {
        self.is_sailed.get(stack as usize).copied().unwrap_or(false)
    }

    /// Sails a stack too.
    fn add(&mut self, stack: u32) -> Result<(), NoMemory>
        requires { stack < self.old }
        ensures { self.new ≡ self.old }
    {
        if !self.is_sailed[stack as usize] {
            self.is_sailed[stack as usize] = true;
            self.stacks.push(stack)?;
        }
        Ok(())
    }

    /// Sails these stacks too.
    fn add_all(&mut self, stacks: &[u32]) -> Result<(), NoMemory>
        requires { All (λ s. s < self.old) stacks.now }
        ensures { self.new ≡ self.old }
    {
        for stack in stacks {
            self.add(*stack)?;
        }
        Ok(())
    }

    /// Sails no stack.
    fn clear(&mut self)
        ensures { self.new ≡ self.old }
    {
        self.is_whole = false;
        self.groups = 0;
        self.stacks.clear();
        self.is_sailed.fill(false);
    }

    /// Sails the whole ship.
    pub fn take_all(&mut self) -> Result<(), NoMemory>
        ensures { self.new ≡ self.old }
    {
        if self.is_whole {
            return Ok(());
        }
        self.clear();
        self.is_whole = true;
        for stack in 0..self.count {
            self.add(stack)?;
        }
        Ok(())
    }

    /// Sails a stack too, with those that are bound to it: one group more, unless it is sailed already.
    fn free(&mut self, facts: &Facts, stack: u32) -> Result<(), NoMemory>
        requires { facts.now.stacks ≡ self.old }
        ensures { self.new ≡ self.old }
    {
        if self.has(stack) {
            return Ok(());
        }
        self.groups = self.groups.saturating_add(1);
        self.add_all(facts.bound_to(stack))
    }

    /// Sails so many groups, as their stacks are drawn.
    fn fill(&mut self, facts: &Facts, chance: &mut Chance, enough: u32) -> Result<(), NoMemory>
        requires { facts.now.stacks ≡ self.old }
        ensures { self.new ≡ self.old }
    {
        'draws: for _ in 0..32 {
            if self.groups >= enough {
                return Ok(());
            }
            self.free(facts, chance.below(facts.sizes().stacks))?;
        }
        Ok(())
    }

    /// Draws few stacks, each with those that are bound to it, mostly one in which a container is rehandled among them.
    pub fn draw(&mut self, facts: &Facts, chance: &mut Chance, kept: &Kept) -> Result<(), NoMemory>
        requires { facts.now.stacks ≡ self.old }
        ensures { self.new ≡ self.old }
    {
        self.clear();
        let enough = FEWEST_FREED.saturating_add(chance.below(FREED_SPREAD));
        if chance.below(100) < REHANDLED_RUNS {
            if let Some(stack) = kept.draw_rehandled(chance) {
                self.free(facts, stack)?;
            }
        }
        self.fill(facts, chance, enough)
    }
}
