//! The state of a run: what stands where, what waits on the quay, and which stays have ended.
ghost use Rattle.std.specs.Prelude.{◌≡◌, ◌+◌, ◌*◌, ◌<◌, ◌≤◌, All, IfOk, IfSome, length};

use crate::facts::{Facts, KindFacts, Spot, StackFacts, TIERS, bit_of};
use crate::sizes::Sizes;
use std::alloc::Global;
use std::marker::Model;
use stow_data::{NoMemory, Span, VarNo};

/// A container that stands aboard.
#[derive(Clone, Copy)]
pub struct Stay {
    pub kind: u32,
    pub put: u32,
    /// Its place's number in the lot.
    pub rank: u32,
    /// The calls at which it may be lifted, as bits.
    pub ends: u32,
    /// The last of them.
    pub due: u32,
    /// The least due from the bottom of its columns up to it.
    pub least: u32,
    /// What its lifts before the destination cost at the least.
    pub sure: u32,
    /// What the next of them costs that must be.
    pub next: u32,
}

const NO_STAY: Stay = Stay {
    kind: u32::MAX,
    put: 0,
    rank: 0,
    ends: 0,
    due: 0,
    least: 0,
    sure: 0,
    next: 0,
};

/// A column: how many of its half-cells are filled, how many of these by 20-foot containers, and the least due in it.
#[derive(Clone, Copy)]
pub struct Column {
    pub height: u32,
    pub short: u32,
    pub least: u32,
}

/// A stack: its columns, and the sum of its rounded weights.
#[derive(Clone, Copy)]
pub struct Pile {
    pub fore: Column,
    pub aft: Column,
    pub kg: u32,
}

impl Pile {
    fn column(&self, aft: bool) -> Column {
        if aft { self.aft } else { self.fore }
    }
}

/// A hatch cover as the lifts of a call are done.
#[derive(Clone, Copy)]
pub struct Hatch {
    /// Something is lifted from under it.
    pub is_opened: bool,
    /// Something stays on it, so that nothing can be put under it.
    pub is_closed: bool,
    /// How many half-cells on it are filled.
    pub laden: u32,
    /// The least due under it.
    pub least: u32,
    /// The latest due of what is put on it at this call.
    pub latest: u32,
    /// How many half-cells under it are empty.
    pub room: u32,
}

/// A stay that is planned: a container of this kind is put at this place at one call.
#[derive(Clone, Copy)]
pub struct Planned {
    /// The variable of the stay.
    pub x: VarNo,
    pub put: u32,
    pub kind: u32,
    /// The calls at which it may end, as bits.
    pub ends: u32,
    /// The last of them.
    pub lifted: u32,
    pub place: u32,
    pub spot: Spot,
    /// Whether it ends before the container's destination.
    pub is_rehandled: bool,
    /// What its end costs.
    pub cost: u32,
}

/// A container of a class that separations name, and where it stands.
#[derive(Clone, Copy)]
pub struct Classed {
    pub class: u32,
    pub bay: u32,
    pub spot: Spot,
}

/// The state of a run. Contracts see how much there is.
#[derive(Drop)]
pub struct ShipState {
    sizes: Sizes,
    piles: Vec<Pile>,
    /// What stands in each half-cell: by stacks, fore and aft, and tiers.
    cells: Vec<Stay>,
    hatches: Vec<Hatch>,
    /// How many containers of each kind wait on the quay.
    quay: Vec<u32>,
    /// How many containers wait.
    waiting: u32,
    /// The stays that have ended.
    stays: Vec<Planned>,
    classed: Vec<Classed>,
    /// What the rehandles cost that there were.
    cost: u64,
    /// What those of the containers aboard are sure to cost.
    sure: u64,
    /// A call past the last one.
    later: u32,
}

impl Model for ShipState {
    ghost use Rattle.voyage_state.specs.declared.sizes.Sizes.{Sizes};
    ghost use Rattle.voyage_state.specs.ShipStates.{IsShipState};

    ghost Value = { Sizes };

    ghost view = { λ y. y.sizes };

    ghost invariant = { IsShipState };
}

/// What a lift costs at a call.
fn cost_of(facts: &Facts, is_rehandled: bool, call: u32) -> u32 {
    if is_rehandled {
        facts.prices().at(call)
    } else {
        0
    }
}

/// The number of a half-cell among those of all columns.
fn cell_of(stack: u32, aft: bool, tier: u32) -> usize
    requires { tier < 40 }
    ensures { result < stack * 80 + 80 }
{
    let before = if aft { TIERS } else { 0 };
    stack as usize * 80 + before as usize + tier as usize
}

impl ShipState {
    ghost use Rattle.voyage_state.specs.Ranges.{IsPlanned, IsSpot, IsStack};

    /// A state with room for the voyages of a ship.
    pub fn new(alloc: Global, facts: &Facts) -> Result<ShipState, NoMemory>
        ensures { IfOk result (λ y. y ≡ facts.now) }
    {
        let sizes = facts.sizes;
        let later = sizes.calls.wrapping_add(1);
        let column = Column {
            height: 0,
            short: 0,
            least: later,
        };
        let pile = Pile {
            fore: column,
            aft: column,
            kg: 0,
        };
        let hatch = Hatch {
            is_opened: false,
            is_closed: false,
            laden: 0,
            least: later,
            latest: 0,
            room: 0,
        };
        let stacks = facts.sizes.stacks as usize;
        let covers = facts.sizes.covers as usize;
        let kinds = facts.sizes.kinds as usize;
        Ok(ShipState {
            sizes,
            piles: Vec::from_elem(alloc, pile, stacks)?,
            cells: Vec::from_elem(alloc, NO_STAY, stacks * 80)?,
            hatches: Vec::from_elem(alloc, hatch, covers)?,
            quay: Vec::from_elem(alloc, 0, kinds)?,
            waiting: 0,
            stays: Vec::new(alloc),
            classed: Vec::new(alloc),
            cost: 0,
            sure: 0,
            later,
        })
    }

    /// A stack.
    pub fn pile(&self, stack: u32) -> &Pile
        requires { stack < self.now.stacks }
    {
        &self.piles[stack as usize]
    }

    /// A stack, where there is one of this number.
    pub fn find_pile(&self, stack: u32) -> Option<&Pile> {
        self.piles.get(stack as usize)
    }

    /// Whether the ship has hatch covers.
    pub fn has_hatches(&self) -> bool {
        !self.hatches.is_empty()
    }

    /// The hatch cover of a number, where there is one.
    pub fn find_hatch(&self, cover: Option<u32>) -> Option<&Hatch> {
        self.hatches.get(cover? as usize)
    }

    /// The containers aboard whose class separations name.
    pub fn classed(&self) -> &[Classed] {
        self.classed.as_slice()
    }

    /// How many containers wait on the quay.
    pub fn waiting(&self) -> u32 {
        self.waiting
    }

    /// What the rehandles cost that there were.
    pub fn cost(&self) -> u64 {
        self.cost
    }

    /// What they cost, with what those of the containers aboard are sure to cost.
    pub fn sure_cost(&self) -> u64 {
        self.cost.wrapping_add(self.sure)
    }

    /// A call past the last one.
    pub fn later(&self) -> u32 {
        self.later
    }

    /// The stays that have ended.
    pub fn stays(&self) -> &[Planned]
        ensures { All (IsPlanned self.now) result.now }
    {
        self.stays.as_slice()
    }

    /// An empty column.
    fn empty_column(&self) -> Column {
        Column {
            height: 0,
            short: 0,
            least: self.later,
        }
    }

    /// An empty stack.
    fn clear_pile(&mut self, stack: u32)
        requires { stack < self.old.stacks }
        ensures { self.new ≡ self.old }
    {
        let column = self.empty_column();
        self.piles[stack as usize] = Pile {
            fore: column,
            aft: column,
            kg: 0,
        };
    }

    /// Empty stacks, of those that are sailed, and an empty quay.
    pub fn clear(&mut self, sailed: &[u32])
        requires { All (λ s. s < self.old.stacks) sailed.now }
        ensures { self.new ≡ self.old }
    {
        for stack in sailed {
            self.clear_pile(*stack);
        }
        self.quay.fill(0);
        self.waiting = 0;
        self.stays.clear();
        self.classed.clear();
        self.cost = 0;
        self.sure = 0;
    }

    /// Forgets what is known of a hatch cover.
    fn clear_hatch(&mut self, cover: Option<u32>)
        requires { IfSome cover (λ c. c < self.old.covers) }
        ensures { self.new ≡ self.old }
    {
        let Some(cover) = cover else {
            return;
        };
        let least = self.later;
        self.hatches[cover as usize] = Hatch {
            is_opened: false,
            is_closed: false,
            laden: 0,
            least,
            latest: 0,
            room: 0,
        };
    }

    /// Forgets what is known of the hatch covers over and under the stacks that are sailed.
    pub fn clear_hatches(&mut self, facts: &Facts, sailed: &[u32])
        requires facts { facts.now ≡ self.old }
        requires sailed { All (λ s. s < self.old.stacks) sailed.now }
        ensures { self.new ≡ self.old }
    {
        if self.hatches.is_empty() {
            return;
        }
        for stack in sailed {
            self.clear_hatch(facts.stack(*stack).cover());
        }
    }

    /// How many half-cells of a column are filled.
    pub fn height(&self, stack: u32, aft: bool) -> u32 {
        match self.piles.get(stack as usize) {
            None => 0,
            Some(pile) => pile.column(aft).height,
        }
    }

    /// Whether something is lifted from under a cover.
    pub fn is_opened(&self, cover: Option<u32>) -> bool {
        let Some(cover) = cover else {
            return false;
        };
        match self.hatches.get(cover as usize) {
            None => false,
            Some(hatch) => hatch.is_opened,
        }
    }

    /// Notes that something is lifted from under a cover.
    pub fn open_over(&mut self, cover: Option<u32>)
        requires { IfSome cover (λ c. c < self.old.covers) }
        ensures { self.new ≡ self.old }
    {
        if let Some(cover) = cover {
            let hatch = &mut self.hatches[cover as usize];
            hatch.is_opened = true;
        }
    }

    /// Notes at the hatch covers what stays in a stack.
    pub fn survey_stack(&mut self, facts: &Facts, number: u32)
        requires facts { facts.now ≡ self.old }
        requires stack { number < self.old.stacks }
        ensures { self.new ≡ self.old }
    {
        let stack = facts.stack(number);
        let pile = self.piles[number as usize];
        let filled = pile.fore.height.wrapping_add(pile.aft.height);
        if let Some(over) = stack.over {
            let room = stack.tiers.wrapping_mul(2).saturating_sub(filled);
            let hatch = &mut self.hatches[over as usize];
            hatch.least = hatch.least.min(pile.fore.least).min(pile.aft.least);
            hatch.room = hatch.room.wrapping_add(room);
        }
        if let Some(under) = stack.under {
            let hatch = &mut self.hatches[under as usize];
            hatch.laden = hatch.laden.wrapping_add(filled);
            hatch.is_closed = hatch.laden > 0;
        }
    }

    /// What stands in a half-cell that is filled.
    pub fn stay(&self, stack: u32, aft: bool, tier: u32) -> Option<&Stay> {
        if tier >= TIERS {
            return None;
        }
        self.cells.get(cell_of(stack, aft, tier))
    }

    /// The tier at which a container of these half-cells would stand, where what is below bears it.
    pub fn open_tier(pile: &Pile, span: Span) -> Option<u32> {
        let (column, bears) = match span {
            Span::Fore => (pile.fore, pile.fore.height == pile.fore.short),
            Span::Aft => (pile.aft, pile.aft.height == pile.aft.short),
            Span::Both => (pile.fore, pile.fore.height == pile.aft.height),
        };
        if bears { Some(column.height) } else { None }
    }

    /// The least due below such a container.
    pub fn least_below(pile: &Pile, span: Span) -> u32 {
        match span {
            Span::Fore => pile.fore.least,
            Span::Aft => pile.aft.least,
            Span::Both => pile.fore.least.min(pile.aft.least),
        }
    }

    fn set_cell(&mut self, stack: u32, aft: bool, tier: u32, stay: Stay)
        requires stack { stack < self.old.stacks }
        requires tier { tier < 40 }
        ensures { self.new ≡ self.old }
    {
        self.cells[cell_of(stack, aft, tier)] = stay;
    }

    /// Puts a container on the columns that it takes.
    fn pile_up(&mut self, spot: Spot, stay: Stay)
        requires { IsSpot self.old.stacks spot }
        ensures { self.new ≡ self.old }
    {
        let top = spot.tier.wrapping_add(1);
        let least = stay.least;
        if spot.span != Span::Aft {
            self.set_cell(spot.stack, false, spot.tier, stay);
        }
        if spot.span != Span::Fore {
            self.set_cell(spot.stack, true, spot.tier, stay);
        }
        let pile = &mut self.piles[spot.stack as usize];
        match spot.span {
            Span::Fore => {
                pile.fore = Column {
                    height: top,
                    short: top,
                    least,
                };
            }
            Span::Aft => {
                pile.aft = Column {
                    height: top,
                    short: top,
                    least,
                };
            }
            Span::Both => {
                pile.fore.height = top;
                pile.fore.least = least;
                pile.aft.height = top;
                pile.aft.least = least;
            }
        }
    }

    /// Notes at the hatch covers that something was put in a stack.
    fn note_hatches(&mut self, stack: &StackFacts, span: Span, due: u32)
        requires { IsStack self.old.covers stack.now }
        ensures { self.new ≡ self.old }
    {
        let filled = if span == Span::Both { 2 } else { 1 };
        if let Some(over) = stack.over {
            let hatch = &mut self.hatches[over as usize];
            hatch.least = hatch.least.min(due);
            hatch.room = hatch.room.saturating_sub(filled);
        }
        if let Some(under) = stack.under {
            let hatch = &mut self.hatches[under as usize];
            hatch.laden = hatch.laden.wrapping_add(filled);
            hatch.latest = hatch.latest.max(due);
        }
    }

    /// Puts a container at a place.
    pub fn put(&mut self, facts: &Facts, spot: Spot, mut stay: Stay) -> Result<(), NoMemory>
        requires facts { facts.now ≡ self.old }
        requires spot { IsSpot self.old.stacks spot }
        requires kind { stay.kind < self.old.kinds }
        ensures { self.new ≡ self.old }
    {
        let stack = facts.stack(spot.stack);
        let kind = facts.kind(stay.kind);
        let pile = &mut self.piles[spot.stack as usize];
        stay.least = stay.due.min(ShipState::least_below(pile, spot.span));
        pile.kg = pile.kg.wrapping_add(kind.kg);
        if kind.class != 0 {
            self.classed.push(Classed {
                class: kind.class,
                bay: stack.bay,
                spot,
            })?;
        }
        self.sure = self.sure.wrapping_add(u64::from(stay.sure));
        self.pile_up(spot, stay);
        self.note_hatches(stack, spot.span, stay.due);
        Ok(())
    }

    /// A column without its top.
    fn lowered(&self, stack: u32, aft: bool, column: Column) -> Column {
        let Some(tier) = column.height.checked_sub(1) else {
            return self.empty_column();
        };
        let Some(below) = tier.checked_sub(1) else {
            return self.empty_column();
        };
        let least = match self.stay(stack, aft, below) {
            None => self.later,
            Some(stay) => stay.least,
        };
        Column {
            height: tier,
            short: column.short.min(tier),
            least,
        }
    }

    /// Takes the top of a column away: a 40-foot container from both columns.
    fn take_off(&mut self, stack: u32, aft: bool, kg: u32)
        requires { stack < self.old.stacks }
        ensures { self.new ≡ self.old }
    {
        let pile = self.piles[stack as usize];
        let column = pile.column(aft);
        let is_long = column.height != column.short;
        let fore = if is_long || !aft {
            self.lowered(stack, false, pile.fore)
        } else {
            pile.fore
        };
        let aft = if is_long || aft {
            self.lowered(stack, true, pile.aft)
        } else {
            pile.aft
        };
        self.piles[stack as usize] = Pile {
            fore,
            aft,
            kg: pile.kg.wrapping_sub(kg),
        };
    }

    /// Forgets a container of a class.
    fn forget_classed(&mut self, spot: Spot)
        ensures { self.new ≡ self.old }
    {
        self.classed.retain(|c| c.spot.stack != spot.stack
            || c.spot.tier != spot.tier
            || c.spot.span != spot.span);
    }

    /// The stay that ends at a call. None where the program has no such stay.
    fn planned(&self, facts: &Facts, stay: &Stay, spot: Spot, call: u32) -> Option<Planned>
        requires facts { facts.now ≡ self.now }
        requires stack { spot.stack < self.now.stacks }
        requires kind { stay.now.kind < self.now.kinds }
        ensures { IfSome result (IsPlanned self.now) }
    {
        if stay.put > call || call > facts.sizes.calls {
            return None;
        }
        let lot = facts.lot(stay.put, stay.kind)?;
        let place = facts.place_of(spot)?;
        let is_rehandled = facts.dest(stay.kind) != call;
        let past = call.wrapping_sub(stay.put).wrapping_sub(1);
        let x = lot
            .first
            .wrapping_add(past.wrapping_mul(lot.width))
            .wrapping_add(stay.rank);
        Some(Planned {
            x: VarNo(x),
            put: stay.put,
            kind: stay.kind,
            ends: bit_of(call),
            lifted: call,
            place,
            spot,
            is_rehandled,
            cost: cost_of(facts, is_rehandled, call),
        })
    }

    /// Notes a stay that has ended.
    fn note(&mut self, planned: Planned) -> Result<(), NoMemory>
        requires { IsPlanned self.old planned }
        ensures { self.new ≡ self.old }
    {
        self.stays.push(planned)?;
        Ok(())
    }

    /// Ends a stay at a call: the container waits on the quay, or leaves the ship.
    fn end(&mut self, kind: &KindFacts, stay: &Stay, call: u32, price: u32)
        requires { stay.now.kind < self.old.kinds }
        ensures { self.new ≡ self.old }
    {
        self.sure = self.sure.saturating_sub(u64::from(stay.sure));
        if kind.dest != call {
            self.cost = self.cost.wrapping_add(u64::from(price));
            self.load(stay.kind, 1);
        }
    }

    /// More containers of a kind wait on the quay.
    pub fn load(&mut self, kind: u32, count: u32)
        requires { kind < self.old.kinds }
        ensures { self.new ≡ self.old }
    {
        self.quay[kind as usize] = self.quay[kind as usize].wrapping_add(count);
        self.waiting = self.waiting.wrapping_add(count);
    }

    /// What loads at a call waits on the quay.
    pub fn load_all(&mut self, facts: &Facts, call: u32)
        requires { facts.now ≡ self.old }
        ensures { self.new ≡ self.old }
    {
        for kind in 0..self.sizes.kinds {
            self.load(kind, facts.load(call, kind));
        }
    }

    /// How many containers of a kind wait on the quay.
    pub fn on_quay(&self, kind: u32) -> u32 {
        self.quay.get(kind as usize).copied().unwrap_or(0)
    }

    /// Takes a container of a kind from the quay. False where none is there.
    pub fn take(&mut self, kind: u32) -> bool
        ensures { self.new ≡ self.old }
    {
        let waiting = self.on_quay(kind);
        if kind >= self.sizes.kinds || waiting == 0 {
            return false;
        }
        self.quay[kind as usize] = waiting.wrapping_sub(1);
        true
    }

    /// One container fewer waits: what was taken from the quay is put.
    pub fn leave_quay(&mut self)
        ensures { self.new ≡ self.old }
    {
        self.waiting = self.waiting.wrapping_sub(1);
    }

    /// Takes a container of a kind away from the quay. False where none is there.
    pub fn give(&mut self, kind: u32) -> bool
        ensures { self.new ≡ self.old }
    {
        let is_there = self.take(kind);
        if is_there {
            self.waiting = self.waiting.wrapping_sub(1);
        }
        is_there
    }

    /// Lifts the top of a column at a call. False where the box forbids it.
    pub fn lift(
        &mut self,
        facts: &Facts,
        stack: u32,
        aft: bool,
        call: u32,
    ) -> Result<bool, NoMemory>
        requires facts { facts.now ≡ self.old }
        requires stack { stack < self.old.stacks }
        ensures { self.new ≡ self.old }
    {
        let pile = self.piles[stack as usize];
        let column = pile.column(aft);
        let Some(tier) = column.height.checked_sub(1) else {
            return Ok(false);
        };
        let Some(stay) = self.stay(stack, aft, tier).copied() else {
            return Ok(false);
        };
        if stay.ends & bit_of(call) == 0 {
            return Ok(false);
        }
        let Some(kind) = facts.find_kind(stay.kind) else {
            return Ok(false);
        };
        let span = match (column.height != column.short, aft) {
            (true, _) => Span::Both,
            (false, false) => Span::Fore,
            (false, true) => Span::Aft,
        };
        let spot = Spot { stack, tier, span };
        let Some(planned) = self.planned(facts, &stay, spot, call) else {
            return Ok(false);
        };
        let price = planned.cost;
        self.note(planned)?;
        self.end(kind, &stay, call, price);
        self.take_off(stack, aft, kind.kg);
        if kind.class != 0 {
            self.forget_classed(spot);
        }
        Ok(true)
    }
}
