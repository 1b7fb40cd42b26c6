//! One voyage by chance, from the arrival to the last call.
ghost use Rattle.std.specs.Prelude.{◌≡◌, ◌<◌, All, IfOk, IfSome, length};
ghost use Rattle.std.specs.Arc.{arc_value};
ghost use Rattle.zero_one_rows.specs.Variables.{variables};

use crate::chance::Chance;
use crate::guide::Guide;
use crate::kept::Kept;
use crate::leave::Leave;
use crate::lifting::{Lifting, lift_all};
use crate::placing::{ONE, Offer, Request, Scene, Taste};
use crate::rule::{DUG_RUNS, EARLY_RUNS, GUIDED_RUNS, PRICED_DUG_RUNS, WHOLE_RUNS};
use crate::scope::Scope;
use crate::trade::Trade;
use std::alloc::Global;
use std::marker::Model;
use std::ops::Range;
use std::sync::Arc;
use stow_data::NoMemory;
use voyage_state::{Arrived, Facts, Planned, Prices, ShipState, Stay, TIERS};
use zero_one_model::{Box01, Model as Program};

/// What a run likes, by chance.
fn draw_taste(chance: &mut Chance, prices: &Prices) -> Taste {
    let dug_runs = if prices.is_flat() {
        DUG_RUNS
    } else {
        PRICED_DUG_RUNS
    };
    let dig = if chance.below(100) < dug_runs {
        chance.below(19_660)
    } else {
        0
    };
    let tier = if chance.below(2) == 0 {
        0
    } else {
        chance.from(-ONE, 512)
    };
    let early = if !prices.is_flat() && chance.below(100) < EARLY_RUNS {
        chance.below(65_536)
    } else {
        0
    };
    Taste {
        dig,
        early,
        gap: chance.from(-77, 512),
        tier,
        first_on_cover: 576,
        noise: 768,
    }
}

/// How an order of kinds weighs destinations, and how far chance moves a kind.
fn draw_weights(chance: &mut Chance) -> (u32, u32) {
    if chance.below(100) < 35 {
        (chance.below(65_536), 4)
    } else {
        (65_536, 1)
    }
}

/// A kind's turn as containers are put: the kind with the least key comes first, and of these the one with the least number.
#[derive(Clone, Copy, PartialEq, Eq, PartialOrd, Ord)]
struct Turn {
    key: u32,
    kind: u32,
}

/// Draws the order in which these kinds are put: the latest destination first, or a mixture of that and chance.
fn draw_order(facts: &Facts, chance: &mut Chance, kinds: &[u32], order: &mut Vec<Turn>)
    requires { All (λ g. g < length order.old.items) kinds.now }
    ensures { length order.new.items ≡ length order.old.items }
{
    let (weight, spread) = draw_weights(chance);
    for kind in kinds {
        let drawn = chance.below(65_536);
        let key = weight
            .wrapping_mul(32_u32.saturating_sub(facts.dest(*kind)))
            .wrapping_add(drawn.wrapping_mul(spread));
        order[*kind as usize] = Turn { key, kind: *kind };
    }
}

/// Lines up those of these kinds that wait on the quay, in the order in which they are put. They are few, and a voyage often
/// fails early: so this takes less time than an order of all kinds.
fn line_up(
    ship_state: &ShipState,
    kinds: &[u32],
    order: &[Turn],
    line: &mut Vec<Turn>,
) -> Result<(), NoMemory>
    requires { All (λ g. g < length order.now) kinds.now }
{
    line.clear();
    for kind in kinds {
        if ship_state.on_quay(*kind) > 0 {
            line.push(order[*kind as usize])?;
        }
    }
    line.sort_unstable();
    Ok(())
}

/// Which of some stays, which stand by the calls at which they begin, begin at a call.
fn beginning_at(stays: &[Planned], call: u32) -> Range<usize> {
    let first = stays.partition_point(|stay| stay.put < call);
    let past = stays.partition_point(|stay| stay.put <= call);
    first..past
}

/// Takes the containers from the quay for which these stays ask at a call, as far as their stacks are sailed. False where one
/// isn't there.
fn reserve_from(stays: &[Planned], scope: &Scope, ship_state: &mut ShipState, call: u32) -> bool
    ensures { ship_state.new ≡ ship_state.old }
{
    let asked = stays.get(beginning_at(stays, call)).unwrap_or(&[]);
    for pledge in asked {
        if scope.has(pledge.spot.stack) && !ship_state.take(pledge.kind) {
            return false;
        }
    }
    true
}

/// Sails voyages by chance. Contracts see how much there is.
#[derive(Drop)]
pub struct Sailor {
    facts: Arc<Facts, Global>,
    leave: Leave,
    scope: Scope,
    trade: Trade,
    guide: Guide,
    ship_state: ShipState,
    chance: Chance,
    taste: Taste,
    /// For each kind its entry in the order of a run.
    order: Vec<Turn>,
    /// The entries of the kinds that wait, in order.
    line: Vec<Turn>,
    /// How many places were looked at.
    looks: u64,
}

impl Model for Sailor {
    ghost use Rattle.voyage_state.specs.declared.sizes.Sizes.{Sizes};
    ghost use Rattle.heuristic.specs.Sailors.{IsSailor};

    ghost Value = { Sizes };

    ghost view = { λ s. s.ship_state };

    ghost invariant = { IsSailor };
}

impl Sailor {
    ghost use Rattle.heuristic.specs.Offers.{IsOffer};
    ghost use Rattle.voyage_state.specs.Ranges.{IsArrived, IsPlanned};

    /// A sailor who knows these facts.
    pub fn new(alloc: Global, facts: Arc<Facts, Global>, seed: u64) -> Result<Sailor, NoMemory>
        ensures { IfOk result (λ s. s ≡ arc_value facts) }
    {
        let leave = Leave::new(alloc, &facts)?;
        let scope = Scope::new(alloc, &facts)?;
        let trade = Trade::new(alloc, &facts)?;
        let guide = Guide::new(alloc, &facts)?;
        let ship_state = ShipState::new(alloc, &facts)?;
        let first = Turn { key: 0, kind: 0 };
        let order = Vec::from_elem(alloc, first, facts.sizes().kinds as usize)?;
        let mut chance = Chance::new(seed);
        let taste = draw_taste(&mut chance, facts.prices());
        Ok(Sailor {
            facts,
            leave,
            scope,
            trade,
            guide,
            ship_state,
            chance,
            taste,
            order,
            line: Vec::new(alloc),
            looks: 0,
        })
    }

    /// What the sailor knows, once more.
    pub fn facts(&self) -> Result<Arc<Facts, Global>, NoMemory>
        ensures { IfOk result (λ facts. arc_value facts ≡ self.now) }
    {
        Ok(Arc::try_clone(&self.facts)?)
    }

    /// Reads what a box allows. False where it names what isn't known, as none of the program's boxes does.
    pub fn read(&mut self, model: &Program, b: &Box01) -> Result<bool, NoMemory>
        requires { length b.now ≡ length (variables model.now) }
        ensures { self.new ≡ self.old }
    {
        self.leave.read(&self.facts, model, b)
    }

    /// How many stays the box asks for.
    pub fn asked(&self) -> u32 {
        self.leave.ones()
    }

    /// How many places were looked at.
    pub fn looks(&self) -> u64 {
        self.looks
    }

    /// Counts looks from 0 again.
    pub fn begin(&mut self)
        ensures { self.new ≡ self.old }
    {
        self.looks = 0;
    }

    /// Goes on with the numbers by chance where another sailor stands.
    pub fn take_chance(&mut self, other: &Sailor)
        ensures { self.new ≡ self.old }
    {
        self.chance = other.chance;
    }

    /// Puts a container that stands aboard as the ship comes in.
    fn settle(&mut self, arrived: Arrived) -> Result<(), NoMemory>
        requires { IsArrived self.old arrived }
        ensures { self.new ≡ self.old }
    {
        let Some(lot) = self.facts.lot(0, arrived.kind).copied() else {
            return Ok(());
        };
        let ends = self.leave.ends(lot.stays.wrapping_add(arrived.rank));
        let due = if ends == 0 { 0 } else { ends.ilog2() };
        let stay = Stay {
            kind: arrived.kind,
            put: 0,
            rank: arrived.rank,
            ends,
            due,
            least: 0,
            sure: 0,
            next: 0,
        };
        self.ship_state.put(&self.facts, arrived.spot, stay)
    }

    /// Puts what stands in a stack as the ship comes in.
    fn settle_stack(&mut self, stack: u32) -> Result<(), NoMemory>
        ensures { self.new ≡ self.old }
    {
        for number in 0..self.facts.arrived_in(stack).len() {
            if let Some(arrived) = self.facts.arrived_at(stack, number) {
                self.settle(arrived)?;
            }
        }
        Ok(())
    }

    /// Puts what stands aboard as the ship comes in.
    fn come_in(&mut self) -> Result<(), NoMemory>
        ensures { self.new ≡ self.old }
    {
        self.ship_state.clear(self.scope.stacks());
        self.ship_state
            .clear_hatches(&self.facts, self.scope.stacks());
        if !self.facts.has_arrivals() {
            return Ok(());
        }
        for number in 0..self.scope.stacks().len() {
            if let Some(stack) = self.scope.stacks().get(number).copied() {
                self.settle_stack(stack)?;
            }
        }
        Ok(())
    }

    /// What loads at a call comes to the quay, or the net cargo of the stacks that are sailed. False where that can't be.
    fn load(&mut self, call: u32) -> bool
        ensures { self.new ≡ self.old }
    {
        if self.scope.is_whole() {
            self.ship_state.load_all(&self.facts, call);
            return true;
        }
        self.trade.exchange(&mut self.ship_state, call)
    }

    /// Takes the containers from the quay for which a stay is asked for at this call. False where one isn't there.
    fn reserve(&mut self, call: u32) -> bool
        ensures { self.new ≡ self.old }
    {
        reserve_from(
            self.leave.pledges(),
            &self.scope,
            &mut self.ship_state,
            call,
        ) && reserve_from(self.guide.stays(), &self.scope, &mut self.ship_state, call)
    }

    /// Puts a container at the place that was offered.
    fn accept(&mut self, offer: &Offer) -> Result<(), NoMemory>
        requires { IsOffer self.old offer.now }
        ensures { self.new ≡ self.old }
    {
        self.ship_state.leave_quay();
        self.ship_state.put(&self.facts, offer.spot, offer.stay)
    }

    /// What is asked as a container is put.
    fn scene(&self) -> Scene<'_>
        ensures { result.facts.now ≡ self.now }
    {
        Scene {
            ship_state: &self.ship_state,
            facts: &self.facts,
            scope: &self.scope,
            leave: &self.leave,
            guide: &self.guide,
            taste: &self.taste,
        }
    }

    /// What the place offers at which a stay is asked for.
    fn pledged_offer(&self, pledge: &Planned) -> Option<Offer>
        ensures { IfSome result (IsOffer self.now) }
    {
        let mut request = Request::of(&self.facts, pledge.kind, pledge.put)?;
        request.is_pledged = true;
        request.ends = pledge.ends;
        let offer = self
            .scene()
            .offer(&request, pledge.spot.stack, pledge.spot.span)?;
        if offer.spot.tier == pledge.spot.tier {
            Some(offer)
        } else {
            None
        }
    }

    /// Begins a stay that is asked for, where it is open.
    fn redeem_one(&mut self, pledge: Option<Planned>) -> Result<(), NoMemory>
        ensures { self.new ≡ self.old }
    {
        let Some(pledge) = pledge else {
            return Ok(());
        };
        if !self.scope.has(pledge.spot.stack) {
            return Ok(());
        }
        match self.pledged_offer(&pledge) {
            None => Ok(()),
            Some(offer) => self.accept(&offer),
        }
    }

    /// Begins those stays that the box asks for at a call and that are open.
    fn redeem_pledges(&mut self, call: u32) -> Result<(), NoMemory>
        ensures { self.new ≡ self.old }
    {
        for number in beginning_at(self.leave.pledges(), call) {
            let pledge = self.leave.pledges().get(number).copied();
            self.redeem_one(pledge)?;
        }
        Ok(())
    }

    /// Begins those stays that are taken over at a call and that are open.
    fn redeem_guide(&mut self, call: u32) -> Result<(), NoMemory>
        ensures { self.new ≡ self.old }
    {
        for number in beginning_at(self.guide.stays(), call) {
            let pledge = self.guide.stays().get(number).copied();
            self.redeem_one(pledge)?;
        }
        Ok(())
    }

    /// Puts a container of a kind at the best place. False where none is open.
    fn put_one(&mut self, request: &Request) -> Result<bool, NoMemory>
        requires { request.now.kind < self.old.kinds }
        ensures { self.new ≡ self.old }
    {
        self.looks = self.looks.wrapping_add(self.scope.stacks().len() as u64);
        let mut chance = self.chance;
        let best = self.scene().best(request, &mut chance);
        self.chance = chance;
        let Some(offer) = best else {
            return Ok(false);
        };
        if self.ship_state.take(request.kind) {
            self.accept(&offer)?;
        }
        Ok(true)
    }

    /// Puts the containers of a kind that wait, as far as places are open.
    fn put_kind(&mut self, kind: u32, call: u32) -> Result<(), NoMemory>
        ensures { self.new ≡ self.old }
    {
        let waiting = self.ship_state.on_quay(kind);
        if waiting == 0 {
            return Ok(());
        }
        let Some(request) = Request::of(&self.facts, kind, call) else {
            return Ok(());
        };
        'containers: for _ in 0..waiting {
            if !self.put_one(&request)? {
                return Ok(());
            }
        }
        Ok(())
    }

    /// Puts the containers that wait, as far as places are open.
    fn put_waiting(&mut self, call: u32) -> Result<(), NoMemory>
        ensures { self.new ≡ self.old }
    {
        for number in 0..self.line.len() {
            if let Some(turn) = self.line.get(number).copied() {
                self.put_kind(turn.kind, call)?;
            }
        }
        Ok(())
    }

    /// Puts all that waits. False where something finds no place.
    fn put_all(&mut self, call: u32) -> Result<bool, NoMemory>
        ensures { self.new ≡ self.old }
    {
        if !self.reserve(call) {
            return Ok(false);
        }
        line_up(
            &self.ship_state,
            self.trade.kinds(),
            self.order.as_slice(),
            &mut self.line,
        )?;
        'rounds: for _ in 0..TIERS {
            let before = self.ship_state.waiting();
            self.redeem_pledges(call)?;
            self.redeem_guide(call)?;
            self.put_waiting(call)?;
            if self.ship_state.waiting() == 0 {
                return Ok(true);
            }
            if self.ship_state.waiting() == before {
                return Ok(false);
            }
        }
        Ok(false)
    }

    /// Lifts what leaves its place. False where the box forbids a lift.
    fn lift(&mut self, lifting: Lifting) -> Result<bool, NoMemory>
        ensures { self.new ≡ self.old }
    {
        self.looks = self.looks.wrapping_add(self.scope.stacks().len() as u64);
        lift_all(
            &mut self.ship_state,
            &self.facts,
            &self.scope,
            &mut self.chance,
            lifting,
        )
    }

    /// What happens at a call before the last. False where the run fails, or comes to such a cost.
    fn visit(&mut self, call: u32, limit: u64) -> Result<bool, NoMemory>
        ensures { self.new ≡ self.old }
    {
        let prices = self.facts.prices();
        let lifting = Lifting {
            call,
            price: prices.at(call),
            dig: prices.odds(call, self.taste.dig),
            early: self.taste.early,
        };
        if !self.lift(lifting)? || !self.load(call) {
            return Ok(false);
        }
        Ok(
            self.ship_state.sure_cost() < limit
                && self.put_all(call)?
                && self.ship_state.sure_cost() < limit,
        )
    }

    /// All that is aboard leaves at the last call. False where the box forbids it.
    fn arrive(&mut self) -> Result<bool, NoMemory>
        ensures { self.new ≡ self.old }
    {
        let lifting = Lifting {
            call: self.facts.sizes().calls,
            price: 0,
            dig: 0,
            early: 0,
        };
        self.lift(lifting)
    }

    /// Draws what of the kept voyage a run over the whole ship takes over.
    fn follow(&mut self, kept: &Kept) -> Result<(), NoMemory>
        requires { kept.now ≡ self.old }
        ensures { self.new ≡ self.old }
    {
        let is_guided = self.chance.below(100) < GUIDED_RUNS;
        if !kept.is_found() || !is_guided {
            self.guide.clear();
            return Ok(());
        }
        self.guide.draw(
            &self.facts,
            &mut self.chance,
            kept,
            &self.scope,
            self.leave.asked(),
        )
    }

    /// Prepares a run over the whole ship.
    fn take_all(&mut self, kept: &Kept) -> Result<(), NoMemory>
        requires { kept.now ≡ self.old }
        ensures { self.new ≡ self.old }
    {
        self.scope.take_all()?;
        self.trade.take_all()?;
        self.follow(kept)
    }

    /// Prepares a run over few stacks.
    fn take_few(&mut self, kept: &Kept) -> Result<(), NoMemory>
        requires { kept.now ≡ self.old }
        ensures { self.new ≡ self.old }
    {
        self.scope.draw(&self.facts, &mut self.chance, kept)?;
        self.trade.gather(kept, &self.scope)?;
        self.guide.draw_from(
            &self.facts,
            &mut self.chance,
            kept,
            &self.scope,
            self.leave.asked(),
        )
    }

    /// Sails the stacks that were taken. False where it fails, or comes to such a cost. The stays and the cost stand in the ship's
    /// state.
    fn sail(&mut self, limit: u64) -> Result<bool, NoMemory>
        ensures { self.new ≡ self.old }
    {
        self.taste = draw_taste(&mut self.chance, self.facts.prices());
        draw_order(
            &self.facts,
            &mut self.chance,
            self.trade.kinds(),
            &mut self.order,
        );
        self.come_in()?;
        for call in 1..self.facts.sizes().calls {
            if !self.visit(call, limit)? {
                return Ok(false);
            }
        }
        Ok(self.arrive()? && self.ship_state.cost() < limit)
    }

    /// Sails the whole ship. False where the run fails, or comes to such a cost.
    pub fn sail_all(&mut self, kept: &Kept, limit: u64) -> Result<bool, NoMemory>
        requires { kept.now ≡ self.old }
        ensures { self.new ≡ self.old }
    {
        self.take_all(kept)?;
        self.sail(limit)
    }

    /// Sails few stacks of the kept voyage anew. False where the run fails, or these stacks cost more than they did.
    pub fn sail_few(&mut self, kept: &Kept) -> Result<bool, NoMemory>
        requires { kept.now ≡ self.old }
        ensures { self.new ≡ self.old }
    {
        self.take_few(kept)?;
        let limit = kept.cost_of(self.scope.stacks()).saturating_add(1);
        self.sail(limit)
    }

    /// Hands the voyage over: its stays stand in place of those that were kept in the stacks that were sailed.
    pub fn hand_over(&self, kept: &mut Kept) -> Result<(), NoMemory>
        requires { kept.old ≡ self.now }
        ensures { kept.new ≡ kept.old }
    {
        kept.take(self.scope.stacks(), self.ship_state.stays())
    }

    /// Whether the next run sails the whole ship.
    pub fn is_whole_next(&mut self) -> bool
        ensures { self.new ≡ self.old }
    {
        self.chance.below(100) < WHOLE_RUNS
    }
}
