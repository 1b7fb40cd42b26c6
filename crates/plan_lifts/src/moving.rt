//! The moves of a legal voyage that lifts what it must and no more.
ghost use Rattle.std.specs.Prelude.{◌≡◌, ◌↔◌, ◌⊎◌, ◌<◌, ◌≤◌, ◌+◌, ◌++◌, ◌∷◌, ◌&&◌, ℕ, true, suc, Contains, IfOk, IsTrue, cond, not, [], length, slice_get, if◌then◌else◌};
ghost use Rattle.stow_data.specs.Ship.{places};
ghost use Rattle.stow_data.specs.Plans.{IsKnown};
ghost use Rattle.stowage_rules.specs.Plan.{Holds};
ghost use Rattle.stowage_rules.specs.Departure.{AreDepartures, HasArrival, IsStowed};
ghost use Rattle.voyage_meaning.specs.declared.moves.Move.TheVariants.{OffCover, OnCover};
ghost use Rattle.voyage_meaning.specs.Voyage.{HasCost, IsLegalVoyage, voyage_cost};
ghost use Rattle.plan_lifts.specs.Spread.{has};
ghost use Rattle.plan_lifts.specs.Lifted.{AreLifted, IsLifted, LiftEachExactly, LiftsAppended, SailsLeast};
ghost use Rattle.plan_lifts.specs.Passes.{IsCallMoves, IsFlaggedAt, IsListedAt, IsOnCover, Sets, covers_down, lifts_down, passes, put_of, puts_from};

use crate::lifting::{Lifted, changes, held_of};
use crate::listing::LiftList;
use crate::picking::places_where;
use crate::spreading::{add_where, covers_opened};
use std::alloc::Global;
use stow_data::{CallNo, Cargo, CoverNo, FlagList, NoMemory, PlaceNo, Plan, PlanList, Seq, Ship};
use voyage_meaning::{Move, MoveList};

/// For each call a list of moves.
pub type MoveLists = Seq<MoveList>;

/// Appends a move where that is asked.
fn push_where(moves: &mut MoveList, m: Move, also: bool) -> Result<(), NoMemory>
    ensures { IfOk result (λ _. moves.new ≡ (if also then moves.old ++ m ∷ [] else moves.old)) }
{
    if also {
        moves.push(m)?;
    }
    Ok(())
}

/// Whether a place of the set is on a cover, or isn't, as asked.
fn is_in_part(set: &FlagList, deck: &FlagList, p: PlaceNo, on_deck: bool) -> bool
    requires first { p < length set.now }
    requires second { p < length deck.now }
    ensures { result ≡ (has set.now p && cond on_deck (has deck.now p) (not (has deck.now p))) }
{
    *set.at(p.0 as usize) && *deck.at(p.0 as usize) == on_deck
}

/// Lifts from the places of a set that are on covers, or aren't, from above.
fn push_lifts(
    ship: &Ship,
    set: &FlagList,
    deck: &FlagList,
    on_deck: bool,
    moves: &mut MoveList,
) -> Result<(), NoMemory>
    requires first { length set.now ≡ length (places ship.now) }
    requires second { length deck.now ≡ length (places ship.now) }
    ensures { IfOk result (λ _. moves.new ≡ moves.old ++ lifts_down (λ p. has set.now p && cond on_deck (has deck.now p) (not (has deck.now p))) (length (places ship.now))) }
{
    let count = ship.places();
    for done in 0..count {
        let p = PlaceNo(count - done - 1);
        push_where(moves, Move::Lift(p), is_in_part(set, deck, p, on_deck))?;
    }
    Ok(())
}

/// A cover off, or on.
fn cover_move(k: CoverNo, off: bool) -> Move
    ensures { result ≡ cond off (OffCover k) (OnCover k) }
{
    if off {
        Move::OffCover(k)
    } else {
        Move::OnCover(k)
    }
}

/// Takes the covers of a set off, or puts them on.
fn push_covers(
    ship: &Ship,
    opened: &FlagList,
    off: bool,
    moves: &mut MoveList,
) -> Result<(), NoMemory>
    requires { length opened.now ≡ length ship.now.covers }
    ensures { IfOk result (λ _. moves.new ≡ moves.old ++ covers_down (λ k. cond off (OffCover k) (OnCover k)) (has opened.now) (length ship.now.covers)) }
{
    let count = ship.covers();
    for done in 0..count {
        let k = count - done - 1;
        push_where(moves, cover_move(CoverNo(k), off), *opened.at(k as usize))?;
    }
    Ok(())
}

/// Puts at a place what the plan holds there, where that is asked.
fn push_put(moves: &mut MoveList, plan: &Plan, p: PlaceNo, also: bool) -> Result<(), NoMemory>
    requires { p < length plan.now }
    ensures { IfOk result (λ _. moves.new ≡ moves.old ++ cond also (put_of p (slice_get plan.now p)) []) }
{
    if !also {
        return Ok(());
    }
    if let Some(c) = plan.at(p) {
        moves.push(Move::Put(c, p))?;
    }
    Ok(())
}

/// Puts what a plan holds at the places of a set that are on covers, or aren't, from below.
fn push_puts(
    ship: &Ship,
    plan: &Plan,
    set: &FlagList,
    deck: &FlagList,
    on_deck: bool,
    moves: &mut MoveList,
) -> Result<(), NoMemory>
    requires each_place { length plan.now ≡ length (places ship.now) }
    requires first { length set.now ≡ length (places ship.now) }
    requires second { length deck.now ≡ length (places ship.now) }
    ensures { IfOk result (λ _. moves.new ≡ moves.old ++ puts_from (λ p. has set.now p && cond on_deck (has deck.now p) (not (has deck.now p))) plan.now 0 (length (places ship.now))) }
{
    for p in 0..ship.places() {
        push_put(
            moves,
            plan,
            PlaceNo(p),
            is_in_part(set, deck, PlaceNo(p), on_deck),
        )?;
    }
    Ok(())
}

/// For each container whether the list names it.
fn named(alloc: Global, cargo: &Cargo, list: &LiftList) -> Result<FlagList, NoMemory>
    requires { (c : ℕ) → Contains list.now c → c < length cargo.now.containers }
    ensures names { IfOk result (λ flags. (c : ℕ) → (has flags c ≡ true) ↔ Contains list.now c) }
    ensures each { IfOk result (λ flags. length flags ≡ length cargo.now.containers) }
{
    let mut flags = Seq::filled(alloc, false, cargo.len() as usize)?;
    for i in 0..list.len() {
        flags.set(list.at(i).0 as usize, true);
    }
    Ok(flags)
}

/// Whether a container that is named stands at a place.
fn is_named(plan: &Plan, flags: &FlagList, p: PlaceNo) -> bool
    requires inside { p < length plan.now }
    requires known { (c : ℕ) → Holds plan.now p c → c < length flags.now }
    ensures { IsTrue result ↔ IsFlaggedAt plan.now (has flags.now) p }
{
    match plan.at(p) {
        None => false,
        Some(c) => *flags.at(c.0 as usize),
    }
}

/// The places at which containers that are named stand.
fn flagged(alloc: Global, ship: &Ship, plan: &Plan, flags: &FlagList) -> Result<FlagList, NoMemory>
    requires each_place { length plan.now ≡ length (places ship.now) }
    requires known { (p c : ℕ) → Holds plan.now p c → c < length flags.now }
    ensures flagged { IfOk result (λ set. (p : ℕ) → (has set p ≡ true) ↔ IsFlaggedAt plan.now (has flags.now) p) }
    ensures each_flag { IfOk result (λ set. length set ≡ length (places ship.now)) }
{
    places_where(alloc, ship, |p| is_named(plan, flags, p))
}

/// The places at which the listed containers stand.
fn places_of(
    alloc: Global,
    ship: &Ship,
    cargo: &Cargo,
    plan: &Plan,
    list: &LiftList,
) -> Result<FlagList, NoMemory>
    requires each_place { length plan.now ≡ length (places ship.now) }
    requires known { IsKnown cargo.now plan.now }
    requires named { (c : ℕ) → Contains list.now c → c < length cargo.now.containers }
    ensures listed { IfOk result (λ set. (p : ℕ) → (has set p ≡ true) ↔ IsListedAt plan.now list.now p) }
    ensures each_flag { IfOk result (λ set. length set ≡ length (places ship.now)) }
{
    let flags = named(alloc, cargo, list)?;
    flagged(alloc, ship, plan, &flags)
}

/// Adds the places of another set.
fn add_all(ship: &Ship, other: &FlagList, set: &mut FlagList)
    requires first { length other.now ≡ length (places ship.now) }
    requires second { length set.old ≡ length (places ship.now) }
    ensures adds { (p : ℕ) → (has set.new p ≡ true) ↔ ((has set.old p ≡ true) ⊎ (has other.now p ≡ true)) }
    ensures each_flag { length set.new ≡ length (places ship.now) }
{
    for p in 0..ship.places() {
        add_where(set, p, *other.at(p as usize));
    }
}

/// Whether a place stands on a cover.
fn is_on_cover(ship: &Ship, p: PlaceNo) -> bool
    requires { p < length (places ship.now) }
    ensures { IsTrue result ↔ IsOnCover ship.now p }
{
    match ship.cover_under(ship.place(p).stack) {
        None => false,
        Some(_) => true,
    }
}

/// The places that stand on covers.
fn on_covers(alloc: Global, ship: &Ship) -> Result<FlagList, NoMemory>
    ensures stand { IfOk result (λ set. (p : ℕ) → (has set p ≡ true) ↔ IsOnCover ship.now p) }
    ensures each_flag { IfOk result (λ set. length set ≡ length (places ship.now)) }
{
    places_where(alloc, ship, |p| is_on_cover(ship, p))
}

/// The sets that a call's moves go by.
#[derive(Drop)]
struct CallSets {
    lifted: FlagList,
    moved: FlagList,
    deck: FlagList,
    opened: FlagList,
    due: FlagList,
}

/// The sets of a call at which the listed containers are lifted.
fn sets_of(
    alloc: Global,
    ship: &Ship,
    cargo: &Cargo,
    before: &Plan,
    after: &Plan,
    list: &LiftList,
) -> Result<CallSets, NoMemory>
    requires first { length before.now ≡ length (places ship.now) }
    requires second { length after.now ≡ length (places ship.now) }
    requires known { IsKnown cargo.now before.now }
    requires named { (c : ℕ) → Contains list.now c → c < length cargo.now.containers }
    ensures listed { IfOk result (λ s. (p : ℕ) → (has s.lifted p ≡ true) ↔ IsListedAt before.now list.now p) }
    ensures sets { IfOk result (λ s. Sets ship.now before.now after.now (has s.lifted) (has s.moved) (has s.deck) (has s.opened) (has s.due)) }
    ensures lifted_each { IfOk result (λ s. length s.lifted ≡ length (places ship.now)) }
    ensures deck_each { IfOk result (λ s. length s.deck ≡ length (places ship.now)) }
    ensures opened_each { IfOk result (λ s. length s.opened ≡ length ship.now.covers) }
    ensures due_each { IfOk result (λ s. length s.due ≡ length (places ship.now)) }
{
    let lifted = places_of(alloc, ship, cargo, before, list)?;
    let mut moved = changes(alloc, ship, before, after)?;
    add_all(ship, &lifted, &mut moved);
    let deck = on_covers(alloc, ship)?;
    let opened = covers_opened(alloc, ship, &moved)?;
    let due = held_of(alloc, ship, after, &moved)?;
    Ok(CallSets {
        lifted,
        moved,
        deck,
        opened,
        due,
    })
}

/// The passes of a call: lifts on deck, covers off, lifts in the hold, puts in the hold, covers on, puts on deck.
fn passes_of(
    alloc: Global,
    ship: &Ship,
    after: &Plan,
    sets: &CallSets,
) -> Result<MoveList, NoMemory>
    requires each_place { length after.now ≡ length (places ship.now) }
    requires lifted_each { length sets.now.lifted ≡ length (places ship.now) }
    requires deck_each { length sets.now.deck ≡ length (places ship.now) }
    requires opened_each { length sets.now.opened ≡ length ship.now.covers }
    requires due_each { length sets.now.due ≡ length (places ship.now) }
    ensures { IfOk result (λ moves. moves ≡ passes ship.now after.now (has sets.now.lifted) (has sets.now.deck) (has sets.now.opened) (has sets.now.due)) }
{
    let mut moves = Seq::new(alloc);
    push_lifts(ship, &sets.lifted, &sets.deck, true, &mut moves)?;
    push_covers(ship, &sets.opened, true, &mut moves)?;
    push_lifts(ship, &sets.lifted, &sets.deck, false, &mut moves)?;
    push_puts(ship, after, &sets.due, &sets.deck, false, &mut moves)?;
    push_covers(ship, &sets.opened, false, &mut moves)?;
    push_puts(ship, after, &sets.due, &sets.deck, true, &mut moves)?;
    Ok(moves)
}

/// The moves of a call at which the listed containers are lifted.
fn call_moves(
    alloc: Global,
    ship: &Ship,
    cargo: &Cargo,
    before: &Plan,
    after: &Plan,
    list: &LiftList,
) -> Result<MoveList, NoMemory>
    requires first { length before.now ≡ length (places ship.now) }
    requires second { length after.now ≡ length (places ship.now) }
    requires known { IsKnown cargo.now before.now }
    requires named { (c : ℕ) → Contains list.now c → c < length cargo.now.containers }
    ensures { IfOk result (λ moves. IsCallMoves ship.now before.now after.now list.now moves) }
{
    let sets = sets_of(alloc, ship, cargo, before, after, list)?;
    passes_of(alloc, ship, after, &sets)
}

/// Appends the moves of each call after an earlier one.
fn move_from(
    alloc: Global,
    ship: &Ship,
    cargo: &Cargo,
    earlier: CallNo,
    before: &Plan,
    plans: &[Plan],
    lists: &[LiftList],
    voyage: &mut MoveLists,
) -> Result<(), NoMemory>
    requires stowed { IsStowed ship.now cargo.now earlier before.now }
    requires legal { AreDepartures ship.now cargo.now (suc earlier) plans.now }
    requires lifted { AreLifted ship.now before.now plans.now lists.now }
    requires few { earlier + length plans.now ≤ 12 }
    ensures least { IfOk result (λ _. SailsLeast ship.now cargo.now (suc earlier) before.now plans.now voyage.old voyage.new) }
    ensures exact { IfOk result (λ _. LiftsAppended ship.now cargo.now (suc earlier) before.now plans.now lists.now voyage.old voyage.new) }
{
    let (Some((after, others)), Some((list, rest))) = (plans.split_first(), lists.split_first())
    else {
        return Ok(());
    };
    ship.obeys_rules();
    cargo.obeys_rules();
    let moves = call_moves(alloc, ship, cargo, before, after, list)?;
    voyage.push(moves)?;
    move_from(
        alloc,
        ship,
        cargo,
        CallNo(earlier.0 + 1),
        after,
        others,
        rest,
        voyage,
    )
}

/// A legal voyage with these departures and the cost that `lifts` gives, which at each call lifts exactly the listed containers, each once, in one pass for each call: lifts on deck, covers off, lifts in the hold, puts in the hold, covers on, puts on deck.
pub fn moves_of(
    alloc: Global,
    ship: &Ship,
    cargo: &Cargo,
    plans: &PlanList,
    lifted: &Lifted,
) -> Result<MoveLists, NoMemory>
    requires arrival { HasArrival ship.now cargo.now }
    requires each_call { length plans.now + 1 ≡ length cargo.now.rotation }
    requires lists { IsLifted ship.now cargo.now plans.now lifted.now.lists }
    requires cost { HasCost ship.now cargo.now plans.now lifted.now.cost }
    ensures legal { IfOk result (λ voyage. IsLegalVoyage ship.now cargo.now voyage plans.now) }
    ensures cost { IfOk result (λ voyage. voyage_cost ship.now cargo.now voyage plans.now ≡ lifted.now.cost) }
    ensures exact { IfOk result (λ voyage. LiftEachExactly ship.now cargo.now 1 cargo.now.arrival voyage plans.now lifted.now.lists) }
{
    let mut voyage = Seq::new(alloc);
    cargo.obeys_rules();
    move_from(
        alloc,
        ship,
        cargo,
        CallNo(0),
        cargo.arrival(),
        plans.as_slice(),
        lifted.lists.as_slice(),
        &mut voyage,
    )?;
    Ok(voyage)
}
