//! Proof trees.
ghost use Rattle.std.specs.Prelude.{◌≡◌, IfOk};

use crate::few::Few;
use crate::kept_rows::{KeptRaise, KeptRaiseList, KeptRow, KeptRowList};
use std::alloc::Global;
use stow_data::{NoMemory, Seq};
use zero_one_rows::{Raise, RaiseList, Row, RowList, Var};

/// How a record ends.
#[derive(Clone, Copy, PartialEq, Eq)]
pub enum End {
    /// The box closes at the bound.
    Leaf,
    /// The box closes at the bound, and was not searched further.
    Left,
    /// The box is divided by a free variable. The records of the half with value 1 follow first, then those of the half with value 0.
    Branch(Var),
}

/// What is done in one box.
#[derive(Drop)]
pub struct Record {
    /// The rows that tighten the box, in order.
    pub steps: Few<KeptRow>,

    /// The changes of the multipliers, in order.
    pub raises: Few<KeptRaise>,
    pub end: End,

    /// The multipliers start from zero, and not from those of the parent. It stands last, where it takes the room behind the end.
    pub from_zero: bool,
}

impl Record {
    /// A record of these lists. It keeps no spare room.
    pub fn of(
        alloc: Global,
        from_zero: bool,
        steps: RowList,
        raises: RaiseList,
        end: End,
    ) -> Result<Record, NoMemory>
        ensures { IfOk result (λ r. r ≡ record { from_zero = from_zero; steps = steps; raises = raises; end = end }) }
    {
        let steps = keep_rows(alloc, steps.as_slice())?;
        let raises = keep_raises(alloc, raises.as_slice())?;
        Record::kept(alloc, from_zero, steps, raises, end)
    }

    /// A record of lists that are kept already.
    pub fn kept(
        alloc: Global,
        from_zero: bool,
        steps: KeptRowList,
        raises: KeptRaiseList,
        end: End,
    ) -> Result<Record, NoMemory>
        ensures { IfOk result (λ r. r ≡ record { from_zero = from_zero; steps = steps; raises = raises; end = end }) }
    {
        Ok(Record {
            steps: Few::of(alloc, steps)?,
            raises: Few::of(alloc, raises)?,
            end,
            from_zero,
        })
    }
}

// Rows, kept.
fn keep_rows(alloc: Global, rows: &[Row]) -> Result<KeptRowList, NoMemory>
    ensures { IfOk result (λ kept. kept ≡ rows.now) }
{
    let mut kept = KeptRowList::new(alloc);
    for row in rows {
        kept.push(KeptRow::of(alloc, row)?)?;
    }
    Ok(kept)
}

// Raises, kept.
fn keep_raises(alloc: Global, raises: &[Raise]) -> Result<KeptRaiseList, NoMemory>
    ensures { IfOk result (λ kept. kept ≡ raises.now) }
{
    let mut kept = KeptRaiseList::new(alloc);
    for raise in raises {
        kept.push(KeptRaise::of(alloc, raise)?)?;
    }
    Ok(kept)
}

/// The records of a proof tree in preorder.
pub type Tree = Seq<Record>;

/// What is known of the least cost of a voyage.
#[derive(Clone, Copy)]
pub enum Outcome {
    /// The plan costs as much as the bound.
    Optimal,
    /// The plan costs more than the bound.
    Gap,
    /// There is no legal voyage.
    NoPlan,
    /// No plan was found.
    Undecided,
}

/// The head of a certificate.
#[derive(Clone, Copy)]
pub struct Head {
    pub outcome: Outcome,

    /// The plan's cost, which the text's line `rehandles` has; a plan stands beside the certificate exactly for the outcomes optimal and gap.
    pub rehandles: Option<u64>,
    pub bound: u64,

    /// The nodes that were searched.
    pub nodes: u64,
}
