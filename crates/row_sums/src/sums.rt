//! Sums of variables, and their signs.
use std::marker::Model;
use stow_data::{CallNo, Half, KindNo, PlaceNo, StackNo};

/// A class of dangerous goods that a separation names, by number. Separations of one class have one number for it.
#[derive(Clone, Copy, PartialEq, Eq)]
pub struct ClassNo(pub u64);

impl Model for ClassNo {
    ghost use Rattle.std.specs.Prelude.{ℕ};

    ghost Value = { ℕ };

    ghost view = { λ n. n.0 };

    ghost inverse = { λ n. record { 0 = n } };
}

/// A sum of variables, each of which counts 1, or its kind's rounded weight.
#[derive(Clone, Copy)]
pub enum Sum {
    /// What of a kind is put at a call.
    Put {
        call: CallNo,
        kind: KindNo,
    },
    /// What of a kind is lifted at a call.
    Lifted {
        call: CallNo,
        kind: KindNo,
    },
    /// What stands at a place at arrival.
    Start {
        place: PlaceNo,
    },
    /// What is in a half-cell after a call.
    Occupied {
        call: CallNo,
        half: Half,
    },
    /// The same of 20-foot kinds alone.
    OccupiedByTwenty {
        call: CallNo,
        half: Half,
    },
    /// What of a class is at a place after a call.
    OccupiedByClass {
        call: CallNo,
        place: PlaceNo,
        class: ClassNo,
    },
    /// What is in a half-cell before a call and after it.
    Staying {
        call: CallNo,
        half: Half,
    },
    /// What is lifted from a half-cell at a call.
    LiftedFrom {
        call: CallNo,
        half: Half,
    },
    /// What is put into a half-cell at a call.
    PutInto {
        call: CallNo,
        half: Half,
    },
    /// What is in a stack after a call, by rounded weight.
    Weight {
        call: CallNo,
        stack: StackNo,
    },
}

/// The sign of a sum in a row.
#[derive(Clone, Copy, PartialEq, Eq)]
pub enum Sign {
    Plus,
    Minus,
}

/// A signed sum of a row.
#[derive(Clone, Copy)]
pub struct Part {
    pub sign: Sign,
    pub sum: Sum,
}

/// The signed sums of a row. The two share no variable.
#[derive(Clone, Copy)]
pub struct Parts {
    pub first: Part,
    pub second: Option<Part>,
}
