//! Records of nodes in hand, judged.
ghost use Rattle.std.specs.Prelude.{◌≡◌, IfOk, IfErr};
ghost use Rattle.zero_one_rows.specs.Rows.{whole};
ghost use Rattle.zero_one_rows.specs.Counted.{base_rows};
ghost use Rattle.certificate.specs.Entries.{same_row, entry_of};
ghost use Rattle.search_core.specs.Refusals.{RefusesClose, RefusesDivide, RefusesOffer};
ghost use Rattle.event_search.specs.Cores.{state_at, IsCore, ClosesKey, BranchesKey, OffersPrice};

use crate::judging::Judge;
use certificate::Record;
use search_core::{NodeKey, Refused, Seats};

/// The node in a worker's hand, where the record closes it at the value that the worker saw.
pub(crate) fn judge_close<J: Judge>(
    judge: &mut J,
    seats: &Seats<Record>,
    worker: u32,
    entry: &Record,
) -> Result<NodeKey, Refused>
    requires { IsCore (J.voyage judge.old) (J.room judge.old) seats.now.state seats.now.spare }
    ensures voyage { J.voyage judge.new ≡ J.voyage judge.old }
    ensures room { J.room judge.new ≡ J.room judge.old }
    ensures closes { IfOk result (λ node. ClosesKey (J.voyage judge.old) seats.now.state worker entry.now node) }
    ensures refused { IfErr result (λ cause. RefusesClose same_row (whole (J.voyage judge.old)) (state_at (J.voyage judge.old) seats.now.state) worker (entry_of (J.voyage judge.old) entry.now) cause) }
{
    let node = match seats.ticketed(worker) {
        Ok(node) => node,
        Err(cause) => return Err(cause),
    };
    let Some(seen) = seats.seen(worker) else {
        return Err(Refused::NotSeen);
    };
    match judge.close(seats.ended(), node, seen, entry) {
        Ok(()) => Ok(node),
        Err(cause) => Err(cause),
    }
}

/// The node in a worker's hand, where the record divides its box by a free variable.
pub(crate) fn judge_branch<J: Judge>(
    judge: &mut J,
    seats: &Seats<Record>,
    worker: u32,
    entry: &Record,
) -> Result<NodeKey, Refused>
    requires { IsCore (J.voyage judge.old) (J.room judge.old) seats.now.state seats.now.spare }
    ensures voyage { J.voyage judge.new ≡ J.voyage judge.old }
    ensures room { J.room judge.new ≡ J.room judge.old }
    ensures branches { IfOk result (λ node. BranchesKey (J.voyage judge.old) seats.now.state worker entry.now node) }
    ensures refused { IfErr result (λ cause. RefusesDivide same_row (whole (J.voyage judge.old)) (state_at (J.voyage judge.old) seats.now.state) worker (entry_of (J.voyage judge.old) entry.now) cause) }
{
    let node = match seats.ticketed(worker) {
        Ok(node) => node,
        Err(cause) => return Err(cause),
    };
    match judge.branch(seats.ended(), node, entry) {
        Ok(()) => Ok(node),
        Err(cause) => Err(cause),
    }
}

/// The price of the full box of the node in a worker's hand, where the record is a leaf of it.
pub(crate) fn judge_offer<J: Judge>(
    judge: &mut J,
    seats: &Seats<Record>,
    worker: u32,
    entry: &Record,
) -> Result<u64, Refused>
    requires { IsCore (J.voyage judge.old) (J.room judge.old) seats.now.state seats.now.spare }
    ensures voyage { J.voyage judge.new ≡ J.voyage judge.old }
    ensures room { J.room judge.new ≡ J.room judge.old }
    ensures price { IfOk result (λ cost. OffersPrice (J.voyage judge.old) seats.now.state worker entry.now cost) }
    ensures refused { IfErr result (λ cause. RefusesOffer same_row (whole (J.voyage judge.old)) (base_rows (J.voyage judge.old)) (state_at (J.voyage judge.old) seats.now.state) worker (entry_of (J.voyage judge.old) entry.now) cause) }
{
    let node = match seats.ticketed(worker) {
        Ok(node) => node,
        Err(cause) => return Err(cause),
    };
    match judge.offer(seats.ended(), node, entry) {
        Ok(price) => Ok(price),
        Err(cause) => Err(cause),
    }
}
