//! What a seat knows, and the rule of a board.
use atomic_table::{Join, Play, Split, TableRule};
use std::collections::LinkedList;

/// Whose view it is. A seat that its owner took in is spent.
pub enum Role {
    Owner,
    Worker,
    Spent,
}

/// What the owner or a worker knows. It stands in contracts alone: no value of it is made.
pub struct View {
    pub role: Role,
    /// The least value that it offered; the greatest u64 where it offered none.
    pub offered: u64,
    /// The least value that it saw, its own offers included.
    pub seen: u64,
    /// The best value that it found at its last look or offer, before that step.
    pub found: u64,
    /// The tickets below the budget that it drew, in their order.
    pub tickets: LinkedList<u64>,
    /// How many tickets it drew that aren't below the budget.
    pub over: u64,
    pub start: u64,
    pub budget: u64,
    /// How many seats the owner made, and how many of them it took in.
    pub made: u64,
    pub taken: u64,
}

/// The rule of a board, whose key is its start and its budget.
pub struct Kept;

impl TableRule<u8, View, (u64, u64)> for Kept {
    ghost use Rattle.shared_search.specs.Rule.{fresh, BoardKept};

    ghost holds = { BoardKept };

    ghost first = { λ key. fresh key.0 key.1 };
}

/// A load of the best value.
pub struct Loads;

impl Play<u8, View> for Loads {
    ghost use Rattle.shared_search.specs.Rule.{Loaded};

    ghost then = { Loaded };
}

/// An offer, which makes the best value the lesser of itself and a cost.
pub struct Offers;

impl Play<u8, View> for Offers {
    ghost use Rattle.shared_search.specs.Rule.{Offered};

    ghost then = { Offered };
}

/// A draw, which adds 1 to the number of tickets.
pub struct Draws;

impl Play<u8, View> for Draws {
    ghost use Rattle.shared_search.specs.Rule.{Drawn};

    ghost then = { Drawn };
}

/// A load of the budget.
pub struct Budgets;

impl Play<u8, View> for Budgets {
    ghost use Rattle.shared_search.specs.Rule.{BudgetRead};

    ghost then = { BudgetRead };
}

/// How the owner makes seats and takes them in.
pub struct Seating;

impl Split<View> for Seating {
    ghost use Rattle.shared_search.specs.Rule.{after_split, new_seat};

    ghost left = { after_split };

    ghost right = { new_seat };
}

impl Join<View> for Seating {
    ghost use Rattle.shared_search.specs.Rule.{joined, spent};

    ghost both = { joined };

    ghost spent = { spent };
}
