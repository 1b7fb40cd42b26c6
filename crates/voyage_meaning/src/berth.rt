//! A ship at the berth of a call, and what a crane does there.
ghost use Rattle.std.specs.Prelude.{◌≡◌, ◌↔◌, ◌<◌, ◌≤◌, ◌^◌, ◌==◌, IfOk, IsTrue, MatchOption, MatchResult, Some, length, map, slice_get};
ghost use Rattle.stow_data.specs.Ship.{places};
ghost use Rattle.stowage_rules.specs.Plan.{IsWellFormed};
ghost use Rattle.voyage_meaning.specs.Moves.{Allowed, after, leaves, quay_with, cost_of_move};
ghost use Rattle.voyage_meaning.specs.Moves as words;
ghost use Rattle.voyage_meaning.specs.Voyage.{start};
ghost use Rattle.voyage_meaning.specs.Berths.{BelongsTo, IsFinished, IsFirstSet, IsFirstUnfinished, IsInRange, NoneSet};
ghost use Rattle.voyage_meaning.specs.Refusals.{IsFirstMoveFault, Judges};

use crate::moves::Move;
use crate::refusals::{MoveFault, move_fault};
use std::alloc::Global;
use std::marker::Model;
use stow_data::{
    CallNo, Cargo, ContainerNo, CoverNo, FlagList, NoMemory, PlaceNo, Plan, Seq, Ship,
};

/// The ship at a call: the plan, which containers are on the quay, and which hatch covers are off.
#[derive(Drop)]
pub struct Berth {
    call: CallNo,
    plan: Plan,
    quay: FlagList,
    off: FlagList,
}

impl Model for Berth {
    ghost use Rattle.std.specs.Prelude.{◌<◌, ◌^◌, length};
    ghost use Rattle.voyage_meaning.specs.Berths as words;

    ghost Value = { words.Berth };

    ghost view = { λ b. record { call = b.call; state = record { plan = b.plan; quay = b.quay; off = b.off } } };

    ghost invariant = { λ b. (length b.quay < 2 ^ 32) × (length b.off < 2 ^ 32) };
}

/// What is unfinished at a berth: a container on the quay, or a cover that is off.
#[derive(Clone, Copy)]
pub enum Unfinished {
    Quay(ContainerNo),
    Off(CoverNo),
}

/// For each container whether it loads at the call.
fn loading(alloc: Global, cargo: &Cargo, call: CallNo) -> Result<FlagList, NoMemory>
    ensures flags { IfOk result (λ quay. quay ≡ map (λ c. c.load == call) cargo.now.containers) }
    ensures few { IfOk result (λ quay. length quay < 2 ^ 32) }
{
    let mut quay = Seq::new(alloc);
    for c in 0..cargo.len() {
        quay.push(cargo.container(ContainerNo(c)).load == call)?;
    }
    Ok(quay)
}

/// The least number whose truth value is true.
fn first_set(flags: &FlagList) -> Option<u32>
    requires { length flags.now < 2 ^ 32 }
    ensures { MatchOption result (NoneSet flags.now) (λ n. IsFirstSet flags.now n) }
{
    let first = flags.iter().position(|is_set| *is_set)?;
    Some(first as u32)
}

/// Whether the call is the destination of a container.
fn is_bound(cargo: &Cargo, call: CallNo, c: ContainerNo) -> bool
    ensures { result ≡ leaves cargo.now call c }
{
    c.0 < cargo.len() && cargo.container(c).dest == call
}

/// What a lift costs: the price of the call where the container doesn't leave there.
fn lift_cost(cargo: &Cargo, call: CallNo, o: Option<ContainerNo>) -> u128
    ensures value { result ≡ words.lift_cost cargo.now call o }
    ensures small { result ≤ 1000 }
{
    match o {
        None => 0,
        Some(c) => {
            if is_bound(cargo, call, c) {
                0
            } else {
                u128::from(cargo.tariff(call))
            }
        }
    }
}

/// Puts on the quay what was lifted, unless it leaves at the call.
fn leave(quay: &mut FlagList, cargo: &Cargo, call: CallNo, o: Option<ContainerNo>)
    ensures { quay.new ≡ quay_with cargo.now call quay.old (Some o) }
{
    if let Some(c) = o {
        if !is_bound(cargo, call, c) && (c.0 as usize) < quay.len() {
            quay.set(c.0 as usize, true);
        }
    }
}

impl Berth {
    /// The ship at a call from 1 to the last but one, with the departure before: all covers are on, and on the quay is
    /// what loads at the call. It makes all the room that steps need.
    pub fn arrive(
        alloc: Global,
        ship: &Ship,
        cargo: &Cargo,
        plan: Plan,
        call: CallNo,
    ) -> Result<Berth, NoMemory>
        requires { IsWellFormed ship.now cargo.now plan }
        ensures state { IfOk result (λ b. b ≡ record { call = call; state = start ship.now cargo.now call plan }) }
        ensures belongs { IfOk result (λ b. BelongsTo ship.now cargo.now b.state) }
    {
        ship.obeys_rules();
        Ok(Berth {
            call,
            plan,
            quay: loading(alloc, cargo, call)?,
            off: Seq::filled(alloc, false, ship.covers() as usize)?,
        })
    }

    /// The plan.
    pub fn plan(&self) -> &Plan
        ensures { result.now ≡ self.now.state.plan }
    {
        &self.plan
    }

    /// The first fault of a move.
    fn fault(&self, ship: &Ship, cargo: &Cargo, m: Move) -> Option<MoveFault>
        requires belongs { BelongsTo ship.now cargo.now self.now.state }
        requires inside { IsInRange self.now.state m }
        ensures { Judges ship.now cargo.now self.now.state m result }
    {
        move_fault(ship, cargo, &self.plan, &self.quay, &self.off, m)
    }

    /// Does an allowed move.
    fn apply(&mut self, cargo: &Cargo, m: Move)
        requires { IsInRange self.old.state m }
        ensures { self.new ≡ record { call = self.old.call; state = after cargo.now self.old.call self.old.state m } }
    {
        match m {
            Move::Lift(p) => {
                leave(&mut self.quay, cargo, self.call, self.plan.at(p));
                self.plan.set(p, None);
            }
            Move::Put(c, p) => {
                self.quay.set(c.0 as usize, false);
                self.plan.set(p, Some(c));
            }
            Move::OffCover(k) => self.off.set(k.0 as usize, true),
            Move::OnCover(k) => self.off.set(k.0 as usize, false),
        }
    }

    /// Does a move, or says why it is refused.
    fn do_or_refuse(&mut self, ship: &Ship, cargo: &Cargo, m: &Move) -> Result<(), MoveFault>
        requires belongs { BelongsTo ship.now cargo.now self.old.state }
        requires inside { IsInRange self.old.state m.now }
        ensures does { MatchResult result (λ _. Allowed ship.now cargo.now self.old.state m.now × (self.new ≡ record { call = self.old.call; state = after cargo.now self.old.call self.old.state m.now })) (λ fault. IsFirstMoveFault ship.now cargo.now self.old.state m.now fault × (self.new ≡ self.old)) }
        ensures belongs { BelongsTo ship.now cargo.now self.new.state }
    {
        match self.fault(ship, cargo, *m) {
            Some(fault) => Err(fault),
            None => {
                self.apply(cargo, *m);
                Ok(())
            }
        }
    }

    /// Does a move, or says why it is refused; then nothing changes. A lifted container leaves the ship at its
    /// destination, and goes to the quay at any other call. It takes no memory.
    pub fn step(&mut self, ship: &Ship, cargo: &Cargo, m: Move) -> Result<(), MoveFault>
        requires belongs { BelongsTo ship.now cargo.now self.old.state }
        requires inside { IsInRange self.old.state m }
        ensures does { MatchResult result (λ _. Allowed ship.now cargo.now self.old.state m × (self.new ≡ record { call = self.old.call; state = after cargo.now self.old.call self.old.state m })) (λ fault. IsFirstMoveFault ship.now cargo.now self.old.state m fault × (self.new ≡ self.old)) }
        ensures belongs { BelongsTo ship.now cargo.now self.new.state }
    {
        self.do_or_refuse(ship, cargo, &m)
    }

    /// The least container on the quay; where it is empty, the least cover that is off. None exactly where the quay is
    /// empty and all covers are on.
    pub fn unfinished(&self) -> Option<Unfinished>
        ensures { MatchOption result (IsFinished self.now.state) (λ u. IsFirstUnfinished self.now.state u) }
    {
        if let Some(c) = first_set(&self.quay) {
            return Some(Unfinished::Quay(ContainerNo(c)));
        }
        match first_set(&self.off) {
            None => None,
            Some(k) => Some(Unfinished::Off(CoverNo(k))),
        }
    }

    /// Whether the numbers of a move are in range.
    pub fn has(&self, m: Move) -> bool
        ensures { IsTrue result ↔ IsInRange self.now.state m }
    {
        match m {
            Move::Lift(p) => (p.0 as usize) < self.plan.len(),
            Move::Put(c, p) => {
                (p.0 as usize) < self.plan.len() && (c.0 as usize) < self.quay.len()
            }
            Move::OffCover(k) | Move::OnCover(k) => (k.0 as usize) < self.off.len(),
        }
    }

    /// The cost of a move: the price of the call for a lift of a container at a call other than its destination.
    pub(crate) fn cost_of(&self, cargo: &Cargo, m: Move) -> u128
        requires { IsInRange self.now.state m }
        ensures value { result ≡ cost_of_move cargo.now self.now.call self.now.state m }
        ensures small { result ≤ 1000 }
    {
        match m {
            Move::Lift(p) => lift_cost(cargo, self.call, self.plan.at(p)),
            Move::Put(_, _) => 0,
            Move::OffCover(_) => 0,
            Move::OnCover(_) => 0,
        }
    }
}
