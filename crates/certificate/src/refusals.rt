//! Why a tree doesn't prove a bound.
use stow_data::NoMemory;

/// Why a tree isn't found to prove a bound. Nodes count from 1, in preorder.
#[derive(Clone, Copy)]
pub enum BoundNo {
    /// A raise brings a multiplier out of the range 0 to 2^40.
    Multiplier {
        node: u32,
    },

    /// A step or a raise names a row that the program hasn't.
    StepRow {
        node: u32,
    },

    /// A branch names no variable that is free in its box.
    BranchFixed {
        node: u32,
    },

    /// The dual value of a leaf, or of a box left open, is below the least that closes, 16 (bound - 1) + 1.
    LeafShort {
        node: u32,
        value: i128,
        needed: i128,
    },

    /// A box has no record.
    TreeEnds,

    /// Records stand behind the tree.
    TreeTooLong,
    NoMemory,
}

impl From<NoMemory> for BoundNo {
    ghost use Rattle.std.specs.Prelude.{◌≡◌};
    ghost use Rattle.certificate.specs.declared.refusals.BoundNo.TheVariants.{NoMemory};

    ghost from_gives = { λ _ e. e ≡ NoMemory };

    fn from(_: NoMemory) -> Self {
        BoundNo::NoMemory
    }
}
