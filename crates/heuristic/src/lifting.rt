//! Which containers are lifted at a call.
ghost use Rattle.std.specs.Prelude.{◌≡◌, ◌<◌};

use crate::chance::Chance;
use crate::scope::Scope;
use stow_data::{Lengths, NoMemory};
use voyage_state::{Column, Facts, Pile, ShipState, StackFacts, TIERS, bit_of};

/// The lifts of a call.
#[derive(Clone, Copy)]
pub struct Lifting {
    pub call: u32,
    /// The price of a rehandle there.
    pub price: u32,
    /// How many times in 65,536 a container on top is lifted though it needn't be.
    pub dig: u32,
    /// How many times in 65,536 one is that is to be lifted later at a higher price.
    pub early: u32,
}

/// Whether what stands in a half-cell must be lifted at the call.
fn must_leave(ship_state: &ShipState, stack: u32, aft: bool, tier: u32, call: u32) -> bool {
    match ship_state.stay(stack, aft, tier) {
        None => true,
        Some(stay) => stay.due <= call,
    }
}

/// How many times in 65,536 what stands on top is lifted though it needn't be.
fn odds(ship_state: &ShipState, stack: u32, aft: bool, tier: u32, lifting: Lifting) -> u32 {
    match ship_state.stay(stack, aft, tier) {
        Some(stay) if stay.ends & bit_of(lifting.call) != 0 => {
            if lifting.price < stay.next {
                lifting.early.max(lifting.dig)
            } else {
                lifting.dig
            }
        }
        _ => 0,
    }
}

/// How many tiers of a column stay: those below the first container that must be lifted at the call.
fn staying(ship_state: &ShipState, stack: u32, aft: bool, column: Column, call: u32) -> u32 {
    if column.least > call {
        return column.height;
    }
    for tier in 0..column.height {
        if must_leave(ship_state, stack, aft, tier, call) {
            return tier;
        }
    }
    column.height
}

/// How many tiers stay after containers on top are lifted by chance, where they may be lifted.
fn dug(
    ship_state: &ShipState,
    chance: &mut Chance,
    stack: u32,
    aft: bool,
    height: u32,
    lifting: Lifting,
) -> u32 {
    let mut kept = height;
    for _ in 0..TIERS {
        let Some(top) = kept.checked_sub(1) else {
            return kept;
        };
        let odds = odds(ship_state, stack, aft, top, lifting);
        if odds == 0 || !chance.comes_true(odds) {
            return kept;
        }
        kept = top;
    }
    kept
}

/// How many tiers of a column stay.
fn kept(
    ship_state: &ShipState,
    chance: &mut Chance,
    stack: u32,
    aft: bool,
    column: Column,
    lifting: Lifting,
) -> u32 {
    let height = staying(ship_state, stack, aft, column, lifting.call);
    if lifting.dig == 0 && lifting.early == 0 {
        return height;
    }
    dug(ship_state, chance, stack, aft, height, lifting)
}

/// How many tiers of both columns stay: a 40-foot container leaves both, with all above it.
fn kept_heights(
    ship_state: &ShipState,
    chance: &mut Chance,
    facts: &StackFacts,
    stack: u32,
    pile: &Pile,
    lifting: Lifting,
) -> (u32, u32) {
    let fore = kept(ship_state, chance, stack, false, pile.fore, lifting);
    if facts.lengths == Lengths::Forty {
        return (fore, fore);
    }
    let aft = kept(ship_state, chance, stack, true, pile.aft, lifting);
    (
        fore.min(aft.max(pile.fore.short)),
        aft.min(fore.max(pile.aft.short)),
    )
}

/// Lifts the tops of a column until so many tiers are left. False where the box forbids it.
fn lower(
    ship_state: &mut ShipState,
    facts: &Facts,
    stack: u32,
    aft: bool,
    to: u32,
    call: u32,
) -> Result<bool, NoMemory>
    requires facts { facts.now ≡ ship_state.old }
    requires stack { stack < ship_state.old.stacks }
    ensures { ship_state.new ≡ ship_state.old }
{
    'tops: for _ in 0..TIERS {
        let height = ship_state.height(stack, aft);
        if height <= to {
            return Ok(true);
        }
        if !ship_state.lift(facts, stack, aft, call)? {
            return Ok(false);
        }
    }
    Ok(true)
}

/// Lifts what leaves a stack; all of it where the cover under it is opened. False where the box forbids a lift.
fn lift_from(
    ship_state: &mut ShipState,
    facts: &Facts,
    chance: &mut Chance,
    stack: u32,
    lifting: Lifting,
) -> Result<bool, NoMemory>
    requires facts { facts.now ≡ ship_state.old }
    requires stack { stack < ship_state.old.stacks }
    ensures { ship_state.new ≡ ship_state.old }
{
    let stack_facts = facts.stack(stack);
    let pile = *ship_state.pile(stack);
    let (fore, aft) = if ship_state.is_opened(stack_facts.under) {
        (0, 0)
    } else {
        kept_heights(ship_state, chance, stack_facts, stack, &pile, lifting)
    };
    if fore == pile.fore.height && aft == pile.aft.height {
        return Ok(true);
    }
    ship_state.open_over(stack_facts.over);
    Ok(
        lower(ship_state, facts, stack, false, fore, lifting.call)?
            && lower(ship_state, facts, stack, true, aft, lifting.call)?,
    )
}

/// Lifts what leaves the stacks that stand on covers, or those that don't. False where the box forbids a lift.
fn lift_all_from(
    ship_state: &mut ShipState,
    facts: &Facts,
    scope: &Scope,
    chance: &mut Chance,
    is_on_cover: bool,
    lifting: Lifting,
) -> Result<bool, NoMemory>
    requires facts { facts.now ≡ ship_state.old }
    requires scope { scope.now ≡ ship_state.old.stacks }
    ensures { ship_state.new ≡ ship_state.old }
{
    for stack in scope.stacks() {
        if facts.is_on_cover(*stack) == is_on_cover
            && !lift_from(ship_state, facts, chance, *stack, lifting)?
        {
            return Ok(false);
        }
    }
    Ok(true)
}

/// Notes at the hatch covers what stays on and under them.
fn survey(ship_state: &mut ShipState, facts: &Facts, scope: &Scope)
    requires facts { facts.now ≡ ship_state.old }
    requires scope { scope.now ≡ ship_state.old.stacks }
    ensures { ship_state.new ≡ ship_state.old }
{
    if !ship_state.has_hatches() {
        return;
    }
    for number in scope.stacks() {
        ship_state.survey_stack(facts, *number);
    }
}

/// Lifts what leaves its place at a call: the containers that must be lifted, those above them, all on a cover under which
/// something is lifted, and some on top by chance. False where the box forbids a lift.
pub fn lift_all(
    ship_state: &mut ShipState,
    facts: &Facts,
    scope: &Scope,
    chance: &mut Chance,
    lifting: Lifting,
) -> Result<bool, NoMemory>
    requires facts { facts.now ≡ ship_state.old }
    requires scope { scope.now ≡ ship_state.old.stacks }
    ensures { ship_state.new ≡ ship_state.old }
{
    ship_state.clear_hatches(facts, scope.stacks());
    if !lift_all_from(ship_state, facts, scope, chance, false, lifting)?
        || ship_state.has_hatches()
            && !lift_all_from(ship_state, facts, scope, chance, true, lifting)?
    {
        return Ok(false);
    }
    survey(ship_state, facts, scope);
    Ok(true)
}
