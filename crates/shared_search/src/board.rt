//! The best value, the tickets and the budget that workers share, in three atomic words.
ghost use Rattle.std.specs.Prelude.{◌≡◌, ◌⊎◌, ℕ, ◌<◌, ◌≤◌, ◌^◌, length, IfOk, IfSome, IfNone};
ghost use Rattle.shared_search.specs.Rule.{fresh, seen_at, offered_at, with_ticket, one_over, after_split, new_seat, joined, times, once_below};

use crate::view::{Budgets, Draws, Kept, Loads, Offers, Role, Seating, View};
use atomic_table::Table;
use std::alloc::Global;
use std::marker::Model;
use stow_data::NoMemory;

/// Where the best value, the number of tickets drawn and the budget stand.
const BEST: usize = 0;

const TICKETS: usize = 1;

const BUDGET: usize = 2;

/// Three words that threads share: the best value, which only falls, the number of tickets drawn, which only rises,
/// and the budget. Contracts see which board it is, its start and its budget.
#[derive(Drop)]
pub struct Board {
    table: Table<u8, View, (u64, u64), Kept, Global>,
}

impl Model for Board {
    ghost use Rattle.std.specs.Prelude.{◌≡◌};
    ghost use Rattle.shared_search.specs.Tokens.{BoardToken};

    ghost Value = { BoardToken };

    ghost view = { λ b. record { id = b.table.shared.table_id; start = b.table.shared.key.0; budget = b.table.shared.key.1 } };

    ghost invariant = { λ b. (b.table.shared.table_id.words ≡ 3) × (b.table.shared.table_id.slots ≡ 0) };
}

/// The right to make seats of a board, to take them in and to close the board. Contracts see its board and its view.
#[derive(Drop)]
pub struct Owner {
    seat: atomic_table::Seat<u8, View>,
}

impl Model for Owner {
    ghost use Rattle.std.specs.Prelude.{◌≡◌, []};
    ghost use Rattle.shared_search.specs.Tokens.{SeatToken};
    ghost use Rattle.shared_search.specs.declared.view.Role.TheVariants.{Owner};

    ghost Value = { SeatToken };

    ghost view = { λ o. record { board = o.seat.table_id; view = o.seat.me.0 } };

    ghost invariant = { λ o. (o.seat.me.1 ≡ []) × (o.seat.me.0.role ≡ Owner) };
}

/// A worker's right to look at a board, to offer values and to draw tickets. Contracts see its board and its view.
#[derive(Drop)]
pub struct Seat {
    seat: atomic_table::Seat<u8, View>,
}

impl Model for Seat {
    ghost use Rattle.std.specs.Prelude.{◌≡◌, []};
    ghost use Rattle.shared_search.specs.Tokens.{SeatToken};
    ghost use Rattle.shared_search.specs.declared.view.Role.TheVariants.{Worker};

    ghost Value = { SeatToken };

    ghost view = { λ s. record { board = s.seat.table_id; view = s.seat.me.0 } };

    ghost invariant = { λ s. (s.seat.me.1 ≡ []) × (s.seat.me.0.role ≡ Worker) };
}

/// What a closed board tells: the best value, and how many tickets below the budget were drawn.
#[derive(Clone, Copy, PartialEq, Eq)]
pub struct Totals {
    pub best: u64,
    pub drawn: u64,
}

impl Board {
    /// A board whose best value is `start`, with no ticket drawn, and its owner. The budget is at most 2^32.
    pub fn new(alloc: Global, start: u64, budget: u64) -> Result<(Board, Owner), NoMemory>
        requires { budget ≤ 2 ^ 32 }
        ensures numbers { IfOk result (λ r. (r.0.start ≡ start) × (r.0.budget ≡ budget)) }
        ensures owner { IfOk result (λ r. (r.1.board ≡ r.0.id) × (r.1.view ≡ fresh start budget)) }
    {
        let words = [start, 0, budget];
        let (table, seat) = Table::of_words(alloc, &words, &(start, budget))?;
        Ok((Board { table }, Owner { seat }))
    }

    /// The best value now: at most the start, and at most what this seat saw and offered.
    pub fn best(&self, seat: &mut Seat) -> u64
        requires { seat.old.board ≡ self.now.id }
        ensures board { seat.new.board ≡ seat.old.board }
        ensures view { seat.new.view ≡ seen_at seat.old.view result }
        ensures seen { result ≤ seat.old.view.seen }
        ensures offered { result ≤ seat.old.view.offered }
        ensures start { result ≤ seat.old.view.start }
    {
        let words = &self.table.shared;
        words.load::<Loads>(&mut seat.seat, BEST)
    }

    /// Makes the best value the lesser of itself and `cost`, and tells what it was before.
    pub fn offer(&self, seat: &mut Seat, cost: u64) -> u64
        requires { seat.old.board ≡ self.now.id }
        ensures board { seat.new.board ≡ seat.old.board }
        ensures view { seat.new.view ≡ offered_at seat.old.view cost result }
        ensures seen { result ≤ seat.old.view.seen }
        ensures offered { result ≤ seat.old.view.offered }
        ensures start { result ≤ seat.old.view.start }
    {
        let words = &self.table.shared;
        words.fetch_min::<Offers>(&mut seat.seat, BEST, cost)
    }

    /// The next ticket; none where it isn't below the budget, after which the seat draws no more.
    pub fn draw(&self, seat: &mut Seat) -> Option<u64>
        requires board { seat.old.board ≡ self.now.id }
        requires none_over { seat.old.view.over ≡ 0 }
        ensures board { seat.new.board ≡ seat.old.board }
        ensures some { IfSome result (λ ticket. (ticket < seat.old.view.budget) × (seat.new.view ≡ with_ticket seat.old.view ticket)) }
        ensures none { IfNone result (seat.new.view ≡ one_over seat.old.view) }
    {
        let words = &self.table.shared;
        let budget = words.load::<Budgets>(&mut seat.seat, BUDGET);
        let ticket = words.fetch_add::<Draws>(&mut seat.seat, TICKETS, 1);
        if ticket < budget { Some(ticket) } else { None }
    }

    /// A new seat, which knows the best value that its owner sees now. An owner makes at most 65,536 seats.
    pub fn split(&self, owner: &mut Owner) -> Seat
        requires board { owner.old.board ≡ self.now.id }
        requires room { owner.old.view.made < 65536 }
        ensures board { (owner.new.board ≡ owner.old.board) × (result.board ≡ owner.old.board) }
        ensures views { (found : ℕ) × (found ≤ owner.old.view.seen) × (owner.new.view ≡ after_split (seen_at owner.old.view found)) × (result.view ≡ new_seat (seen_at owner.old.view found)) }
    {
        let words = &self.table.shared;
        words.load::<Loads>(&mut owner.seat, BEST);
        let seat = words.split_seat::<Seating>(&mut owner.seat);
        Seat { seat }
    }

    /// Takes a seat in: its owner then knows what the seat knew.
    pub fn join(&self, owner: &mut Owner, seat: Seat)
        requires { (owner.old.board ≡ self.now.id) × (seat.board ≡ self.now.id) }
        ensures board { owner.new.board ≡ owner.old.board }
        ensures view { owner.new.view ≡ joined owner.old.view seat.view }
    {
        let Seat { seat } = seat;
        let words = &self.table.shared;
        words.join_seat::<Seating>(&mut owner.seat, seat);
    }

    /// The best value and the number of tickets below the budget, once each seat was taken in.
    pub fn close(self, owner: Owner) -> Totals
        requires board { owner.board ≡ self.id }
        requires all_joined { owner.view.made ≡ owner.view.taken }
        ensures low { (result.best ≤ self.start) × (result.best ≤ owner.view.seen) × (result.best ≤ owner.view.offered) }
        ensures from { (result.best ≡ self.start) ⊎ (result.best ≡ owner.view.offered) }
        ensures once { (ticket : ℕ) → times ticket owner.view.tickets ≡ once_below ticket result.drawn }
        ensures count { result.drawn ≡ length owner.view.tickets }
        ensures within { result.drawn ≤ self.budget }
        ensures over { 0 < owner.view.over → result.drawn ≡ self.budget }
    {
        let Board { table } = self;
        let Owner { seat } = owner;
        let closed = table.close_with(seat);
        let best = closed.word(BEST);
        let tickets = closed.word(TICKETS);
        let budget = closed.word(BUDGET);
        closed.free();
        Totals {
            best,
            drawn: tickets.min(budget),
        }
    }
}
