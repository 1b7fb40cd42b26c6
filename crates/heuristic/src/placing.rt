//! Where a container goes: the open place with the least score.
ghost use Rattle.std.specs.Prelude.{◌≡◌, ◌<◌, IfSome};

use crate::chance::Chance;
use crate::guide::Guide;
use crate::leave::Leave;
use crate::scope::Scope;
use stow_data::{Length, Span};
use voyage_state::{Classed, Facts, Hatch, Prices, ShipState, Spot, StackFacts, Stay, bit_of};

/// One in the fixed point of scores.
pub const ONE: i64 = 256;

/// What an early lift counts in scores at the least, also where it is free.
const LEAST_BURDEN: i64 = 4;

/// What a run likes, in the fixed point of scores where nothing else is said.
#[derive(Clone, Copy)]
pub struct Taste {
    /// How many times in 65,536 a container on top is lifted though it needn't be.
    pub dig: u32,
    /// How many times in 65,536 one is that is to be lifted later at a higher price.
    pub early: u32,
    /// For each call by which what is below leaves later than the container.
    pub gap: i64,
    /// For each tier.
    pub tier: i64,
    /// For the first place used on a cover that has empty cells under it.
    pub first_on_cover: i64,
    /// The most by chance.
    pub noise: u32,
}

/// A container that is to be put somewhere at a call.
#[derive(Clone, Copy)]
pub struct Request {
    pub kind: u32,
    pub call: u32,
    pub dest: u32,
    pub long: Length,
    pub fit: u32,
    pub kg: u32,
    pub class: u32,
    /// The number of its lot's first stay.
    pub stays: u32,
    /// Whether the stay is asked for.
    pub is_pledged: bool,
    /// The calls at which it may end, as bits.
    pub ends: u32,
}

/// A place that is open for a container.
#[derive(Clone, Copy)]
pub struct Offer {
    pub score: i64,
    pub spot: Spot,
    pub stay: Stay,
}

impl Request {
    /// A container of this kind, at this call.
    pub fn of(facts: &Facts, kind: u32, call: u32) -> Option<Request>
        ensures { IfSome result (λ w. w.kind < facts.now.kinds) }
    {
        let lot = facts.lot(call, kind)?;
        let facts = facts.find_kind(kind)?;
        Some(Request {
            kind,
            call,
            dest: facts.dest,
            long: facts.long,
            fit: facts.fit(),
            kg: facts.kg,
            class: facts.class,
            stays: lot.stays,
            is_pledged: false,
            ends: u32::MAX,
        })
    }
}

/// Whether two places of a stack have a column in common.
fn shares_column(a: Span, b: Span) -> bool {
    a == b || a == Span::Both || b == Span::Both
}

/// Whether a container at a place stands near another one, as a separation of this level understands it.
fn is_near(level: u32, bay: u32, spot: Spot, other: &Classed) -> bool {
    let is_same_stack = other.spot.stack == spot.stack;
    match level {
        1 => {
            let tiers = other.spot.tier.abs_diff(spot.tier);
            is_same_stack && (tiers == 0 || tiers == 1 && shares_column(other.spot.span, spot.span))
        }
        2 => is_same_stack,
        3 => other.bay == bay,
        _ => false,
    }
}

/// Whether a separation keeps a class from a place, as things stand.
fn is_kept_away(ship_state: &ShipState, facts: &Facts, class: u32, bay: u32, spot: Spot) -> bool {
    if class == 0 {
        return false;
    }
    ship_state.classed().iter().any(|other| is_near(
        facts.level(class, other.class),
        bay,
        spot,
        other,
    ))
}

/// How a place scores by what stands below it and under its cover: `least` is the least due there, and `latest` the last call at
/// which the container is lifted for it. The dearer an early lift is and the sooner it comes, the worse.
fn score_of(request: &Request, taste: &Taste, prices: &Prices, latest: u32, least: u32) -> i64 {
    if latest < request.dest {
        let stays = i64::from(latest).wrapping_sub(i64::from(request.call));
        let burden = i64::from(prices.burden(latest)).max(LEAST_BURDEN);
        ONE.wrapping_mul(burden.wrapping_sub(stays))
    } else {
        let gap = i64::from(least).wrapping_sub(i64::from(request.dest));
        taste.gap.wrapping_mul(gap)
    }
}

/// What the lifts before the destination cost at the least, where the first of them is at this call at the latest.
fn sure_cost(request: &Request, prices: &Prices, ends: u32, latest: u32) -> u32 {
    if latest < request.dest {
        prices.least(ends, request.call, latest)
    } else {
        0
    }
}

/// What the first lift before the destination costs, where it is at this call.
fn next_cost(request: &Request, prices: &Prices, latest: u32) -> u32 {
    if latest < request.dest {
        prices.at(latest)
    } else {
        0
    }
}

/// What a place costs by the hatch covers over and under it.
fn score_of_hatches(over: Option<&Hatch>, under: Option<&Hatch>, taste: &Taste, due: u32) -> i64 {
    let buried = match over {
        Some(hatch) if hatch.latest > due => ONE.wrapping_mul(100),
        _ => 0,
    };
    match under {
        Some(hatch) if hatch.laden == 0 && hatch.room > 0 => {
            taste.first_on_cover.wrapping_add(buried)
        }
        _ => buried,
    }
}

/// The least due below a place and under its cover.
fn least_under(ship_state: &ShipState, spot: Spot, under: Option<&Hatch>) -> u32 {
    let least = match ship_state.find_pile(spot.stack) {
        None => ship_state.later(),
        Some(pile) => ShipState::least_below(pile, spot.span),
    };
    match under {
        None => least,
        Some(hatch) => least.min(hatch.least),
    }
}

/// What is asked again and again as a container is put.
#[derive(Clone, Copy)]
pub struct Scene<'a> {
    pub ship_state: &'a ShipState,
    pub facts: &'a Facts,
    pub scope: &'a Scope,
    pub leave: &'a Leave,
    pub guide: &'a Guide,
    pub taste: &'a Taste,
}

impl<'a> Scene<'a> {
    ghost use Rattle.heuristic.specs.Offers.{IsOffer};
    ghost use Rattle.voyage_state.specs.Ranges.{IsSpot};

    /// The hatch cover of a number.
    fn hatch(&self, cover: Option<u32>) -> Option<&'a Hatch> {
        let ship_state: &'a ShipState = self.ship_state;
        ship_state.find_hatch(cover)
    }

    /// Where a container would stand in a stack, if it fits there and the stack bears it.
    fn spot(&self, request: &Request, stack: u32, span: Span) -> Option<Spot>
        ensures { IfSome result (IsSpot self.now.facts.now.stacks) }
    {
        let facts = self.facts.find_stack(stack)?;
        let ship_state: &ShipState = self.ship_state;
        let pile = ship_state.find_pile(stack)?;
        let tier = ShipState::open_tier(pile, span)?;
        if tier >= facts.tiers || pile.kg.wrapping_add(request.kg) > facts.limit_kg {
            return None;
        }
        match self.hatch(facts.over) {
            Some(hatch) if hatch.is_closed => None,
            _ => Some(Spot { stack, tier, span }),
        }
    }

    /// The calls at which a stay at a place may end, as bits: those that the box allows, up to the next stay that is asked
    /// for there. None where another stay is asked for that begins at this call.
    fn ends(&self, request: &Request, place: u32, rank: u32) -> Option<u32> {
        let asked = self.leave.pledged(place) | self.guide.pledged(place);
        if (asked & bit_of(request.call) != 0) != request.is_pledged {
            return None;
        }
        let ends = request.ends & self.leave.ends(request.stays.wrapping_add(rank));
        let past = asked.wrapping_shr(request.call) / 2;
        if past == 0 {
            return Some(ends);
        }
        let next = request
            .call
            .wrapping_add(past.trailing_zeros())
            .wrapping_add(2);
        Some(ends & bit_of(next).wrapping_sub(1))
    }

    /// The stay at a place, where one is allowed.
    fn stay(&self, request: &Request, place: u32) -> Option<Stay>
        ensures { IfSome result (λ s. s.kind ≡ request.now.kind) }
    {
        let rank = self.facts.rank(request.fit, place)?;
        if rank == u32::MAX {
            return None;
        }
        let ends = self.ends(request, place, rank)?;
        if ends == 0 || ends.wrapping_shr(request.call) / 2 == 0 {
            return None;
        }
        Some(Stay {
            kind: request.kind,
            put: request.call,
            rank,
            ends,
            due: ends.ilog2(),
            least: 0,
            sure: 0,
            next: 0,
        })
    }

    /// What a stack offers to a container.
    pub fn offer(&self, request: &Request, stack: u32, span: Span) -> Option<Offer>
        requires { request.now.kind < self.now.facts.now.kinds }
        ensures { IfSome result (IsOffer self.now.facts.now) }
    {
        let facts: &StackFacts = self.facts.find_stack(stack)?;
        let spot = self.spot(request, stack, span)?;
        let place = facts.place(spot.tier, span)?;
        let mut stay = self.stay(request, place)?;
        let under = self.hatch(facts.under);
        let least = least_under(self.ship_state, spot, under);
        if least < stay.due && stay.ends & bit_of(least) == 0 {
            return None;
        }
        if is_kept_away(self.ship_state, self.facts, request.class, facts.bay, spot) {
            return None;
        }
        let latest = stay.due.min(least);
        let prices = self.facts.prices();
        stay.sure = sure_cost(request, prices, stay.ends, latest);
        stay.next = next_cost(request, prices, latest);
        let own = score_of(request, self.taste, prices, latest, least);
        let hatches = score_of_hatches(self.hatch(facts.over), under, self.taste, stay.due);
        let tiers = self.taste.tier.wrapping_mul(i64::from(spot.tier));
        Some(Offer {
            score: own.wrapping_add(hatches).wrapping_add(tiers),
            spot,
            stay,
        })
    }

    /// The better one of an offer and what a stack offers, with noise.
    fn better(
        &self,
        best: Option<Offer>,
        request: &Request,
        stack: u32,
        span: Span,
        chance: &mut Chance,
    ) -> Option<Offer>
        requires request { request.now.kind < self.now.facts.now.kinds }
        requires best { IfSome best (IsOffer self.now.facts.now) }
        ensures { IfSome result (IsOffer self.now.facts.now) }
    {
        let Some(mut offer) = self.offer(request, stack, span) else {
            return best;
        };
        offer.score = offer.score.wrapping_add(noise(chance, self.taste.noise));
        match best {
            Some(best) if best.score <= offer.score => Some(best),
            _ => Some(offer),
        }
    }

    /// The offer with the least score, if any.
    pub fn best(&self, request: &Request, chance: &mut Chance) -> Option<Offer>
        requires { request.now.kind < self.now.facts.now.kinds }
        ensures { IfSome result (IsOffer self.now.facts.now) }
    {
        let mut best = None;
        for stack in self.scope.stacks() {
            best = match request.long {
                Length::Forty => self.better(best, request, *stack, Span::Both, chance),
                Length::Twenty => {
                    let fore = self.better(best, request, *stack, Span::Fore, chance);
                    self.better(fore, request, *stack, Span::Aft, chance)
                }
            };
        }
        best
    }
}

/// A number by chance below `most`, which is below 65,536: the square of a uniform one, so mostly small.
fn noise(chance: &mut Chance, most: u32) -> i64 {
    let drawn = chance.draw() / 65_536;
    let square = drawn.wrapping_mul(drawn) / 65_536;
    i64::from(square.wrapping_mul(most) / 65_536)
}
