//! Variables, rows and raises.
use crate::all_chains::Chain;
use stow_data::{CallNo, HalfNo, KindNo, PlaceNo, Seq, StackNo, VarNo};

/// A variable: a container of this kind is put at this place at one call, and lifted at another. Variables are ordered by put, kind, lifted, place.
#[derive(Clone, Copy, PartialEq, Eq, PartialOrd, Ord)]
pub struct Var {
    /// The call at which it is put; 0 where it stands there at arrival.
    pub put: CallNo,
    pub kind: KindNo,
    pub lifted: CallNo,
    pub place: PlaceNo,
}

/// A row: its family and its numbers. Rows are ordered by family, and then by their numbers.
///
/// An equality is two rows: `q` is 0 for at least, and 1 for all signs changed.
#[derive(Clone, Drop, PartialEq, Eq, PartialOrd, Ord)]
pub enum Row {
    /// What is put at a call, less what is lifted there, is what loads.
    Flow {
        q: u32,
        call: CallNo,
        kind: KindNo,
    },
    /// What stands at a place at arrival is lifted once.
    Start {
        q: u32,
        place: PlaceNo,
    },
    /// A half-cell holds one container at most.
    Cell {
        call: CallNo,
        half: HalfNo,
    },
    /// A filled half-cell stands on a filled one.
    Support {
        call: CallNo,
        half: HalfNo,
    },
    /// Below a 20-foot container stands a 20-foot one.
    Twenty {
        call: CallNo,
        half: HalfNo,
    },
    /// What is lifted has nothing above it that stays.
    Block {
        call: CallNo,
        half: HalfNo,
    },
    /// What is lifted (`w` 0) or put (`w` 1) under a hatch cover has nothing on the cover that stays.
    Hatch {
        w: u32,
        call: CallNo,
        half: HalfNo,
        lowest: HalfNo,
    },
    /// A stack's rounded weights come to its limit at most.
    Weight {
        call: CallNo,
        stack: StackNo,
    },
    /// Two classes that a separation keeps apart don't stand at these near places.
    Apart {
        call: CallNo,
        index: u32,
        first: PlaceNo,
        second: PlaceNo,
    },
    /// Of loads that cross, as many are lifted on the way as the columns can't hold.
    Cross {
        length: u32,
        price: u32,
        chain: Chain,
    },
}

/// A change of a row's multiplier.
#[derive(Clone, Drop, PartialEq, Eq)]
pub struct Raise {
    pub row: Row,
    pub amount: i64,
}

/// A list of variables' numbers.
pub type VarList = Seq<VarNo>;

/// A list of rows.
pub type RowList = Seq<Row>;

/// A list of raises.
pub type RaiseList = Seq<Raise>;
