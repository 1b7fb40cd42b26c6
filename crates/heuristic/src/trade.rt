//! What comes to the quay and leaves it, where few stacks are sailed: the net cargo.
ghost use Rattle.std.specs.Prelude.{◌≡◌, ℕ, ◌+◌, ◌<◌, ◌≤◌, All, IfOk, length};

use crate::kept::Kept;
use crate::scope::Scope;
use std::alloc::Global;
use std::marker::Model;
use stow_data::NoMemory;
use voyage_state::{Facts, Planned, ShipState, Sizes};

/// The kinds of containers that a run handles, and the net cargo of its stacks: at each call what the other stacks don't take
/// comes to the quay, and what they take is gone. Contracts see how much there is.
#[derive(Drop)]
pub struct Trade {
    sizes: Sizes,
    kinds: Vec<u32>,
    /// For each kind whether it is among them.
    is_handled: Vec<bool>,
    /// For each call the kinds of which a container comes.
    comes: Vec<Vec<u32>>,
    /// For each call the kinds of which a container goes.
    goes: Vec<Vec<u32>>,
}

impl Model for Trade {
    ghost use Rattle.voyage_state.specs.declared.sizes.Sizes.{Sizes};
    ghost use Rattle.heuristic.specs.Trades.{IsTrade};

    ghost Value = { Sizes };

    ghost view = { λ t. t.sizes };

    ghost invariant = { IsTrade };
}

/// An empty list for each call.
fn empty_lists(alloc: Global, sizes: Sizes) -> Result<Vec<Vec<u32>>, NoMemory>
    ensures each { IfOk result (λ lists. length lists.items ≡ sizes.calls + 1) }
    ensures empty { IfOk result (λ lists. All (λ list. All (λ g. g < sizes.kinds) list.items) lists.items) }
{
    let mut lists = Vec::new(alloc);
    for _call in 0..sizes.calls as usize + 1 {
        lists.push(Vec::new(alloc))?;
    }
    Ok(lists)
}

/// The list of a call.
fn list_at(lists: &[Vec<u32>], call: u32) -> &[u32]
    ensures { (n : ℕ) → All (λ list. All (λ g. g < n) list.items) lists.now → All (λ g. g < n) result.now }
{
    match lists.get(call as usize) {
        None => &[],
        Some(list) => list.as_slice(),
    }
}

impl Trade {
    ghost use Rattle.voyage_state.specs.Ranges.{IsPlanned};

    /// No trade.
    pub fn new(alloc: Global, facts: &Facts) -> Result<Trade, NoMemory>
        ensures { IfOk result (λ t. t ≡ facts.now) }
    {
        let sizes = facts.sizes();
        Ok(Trade {
            sizes,
            kinds: Vec::new(alloc),
            is_handled: Vec::from_elem(alloc, false, sizes.kinds as usize)?,
            comes: empty_lists(alloc, sizes)?,
            goes: empty_lists(alloc, sizes)?,
        })
    }

    /// The kinds that the run handles.
    pub fn kinds(&self) -> &[u32]
        ensures { All (λ g. g < self.now.kinds) result.now }
    {
        self.kinds.as_slice()
    }

    /// Forgets what comes and goes at a call.
    fn clear_call(&mut self, call: u32)
        requires { call ≤ self.old.calls }
        ensures { self.new ≡ self.old }
    {
        let comes = &mut self.comes[call as usize];
        comes.clear();
        let goes = &mut self.goes[call as usize];
        goes.clear();
    }

    /// Forgets all.
    fn clear(&mut self)
        ensures { self.new ≡ self.old }
    {
        self.kinds.clear();
        self.is_handled.fill(false);
        for call in 0..=self.sizes.calls {
            self.clear_call(call);
        }
    }

    /// Handles a kind too.
    fn handle(&mut self, kind: u32) -> Result<(), NoMemory>
        requires { kind < self.old.kinds }
        ensures { self.new ≡ self.old }
    {
        if !self.is_handled[kind as usize] {
            self.is_handled[kind as usize] = true;
            self.kinds.push(kind)?;
        }
        Ok(())
    }

    /// Handles all kinds.
    pub fn take_all(&mut self) -> Result<(), NoMemory>
        ensures { self.new ≡ self.old }
    {
        self.clear();
        for kind in 0..self.sizes.kinds {
            self.handle(kind)?;
        }
        Ok(())
    }

    /// A container of this kind comes at a call.
    fn enter_coming(&mut self, call: u32, kind: u32) -> Result<(), NoMemory>
        requires call { call ≤ self.old.calls }
        requires kind { kind < self.old.kinds }
        ensures { self.new ≡ self.old }
    {
        let list = &mut self.comes[call as usize];
        list.push(kind)?;
        Ok(())
    }

    /// A container of this kind goes at a call.
    fn enter_going(&mut self, call: u32, kind: u32) -> Result<(), NoMemory>
        requires { call ≤ self.old.calls }
        ensures { self.new ≡ self.old }
    {
        let list = &mut self.goes[call as usize];
        list.push(kind)?;
        Ok(())
    }

    /// Enters what a stay takes from the quay, and what it brings there.
    fn enter(&mut self, stay: &Planned) -> Result<(), NoMemory>
        requires { IsPlanned self.old stay.now }
        ensures { self.new ≡ self.old }
    {
        self.handle(stay.kind)?;
        if stay.put > 0 {
            self.enter_coming(stay.put, stay.kind)?;
        }
        if stay.is_rehandled {
            self.enter_going(stay.lifted, stay.kind)?;
        }
        Ok(())
    }

    /// Enters these stays.
    fn enter_all(&mut self, stays: &[Planned]) -> Result<(), NoMemory>
        requires { All (IsPlanned self.old) stays.now }
        ensures { self.new ≡ self.old }
    {
        for stay in stays {
            self.enter(stay)?;
        }
        Ok(())
    }

    /// The net cargo of these stacks in the kept voyage.
    pub fn gather(&mut self, kept: &Kept, scope: &Scope) -> Result<(), NoMemory>
        requires { kept.now ≡ self.old }
        ensures { self.new ≡ self.old }
    {
        self.clear();
        for stack in scope.stacks() {
            self.enter_all(kept.stays(*stack))?;
        }
        Ok(())
    }

    /// Brings what comes at a call to the quay.
    fn bring(&self, ship_state: &mut ShipState, call: u32)
        requires { self.now ≡ ship_state.old }
        ensures { ship_state.new ≡ ship_state.old }
    {
        for kind in list_at(self.comes.as_slice(), call) {
            ship_state.load(*kind, 1);
        }
    }

    /// Brings what comes at a call to the quay, and takes what goes. False where that isn't there.
    pub fn exchange(&self, ship_state: &mut ShipState, call: u32) -> bool
        requires { self.now ≡ ship_state.old }
        ensures { ship_state.new ≡ ship_state.old }
    {
        self.bring(ship_state, call);
        for kind in list_at(self.goes.as_slice(), call) {
            if !ship_state.give(*kind) {
                return false;
            }
        }
        true
    }
}
