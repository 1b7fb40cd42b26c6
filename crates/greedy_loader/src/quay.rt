//! The order on the quay.
ghost use Rattle.std.specs.Prelude.{◌≡◌, IfOk};
ghost use Rattle.std.specs.List.Sorted.{IsPermutation};
ghost use Rattle.greedy_loader.specs.Turns.{IsInOrder, turn};

use std::alloc::Global;
use stow_data::{Cargo, ContainerNo, Length, NoMemory, Seq};

/// What the turn of a container depends on: the calls behind its destination, whether it is no reefer, whether it is
/// a 40-foot one, and its number.
fn turn(cargo: &Cargo, c: ContainerNo) -> (u32, bool, bool, u32)
    ensures { result ≡ turn cargo.now c }
{
    let calls = cargo.calls();
    if c.0 >= cargo.len() {
        return (calls, true, true, c.0);
    }
    let x = cargo.container(c);
    (
        calls.saturating_sub(x.dest.0),
        !x.reefer,
        x.long == Length::Forty,
        c.0,
    )
}

/// The containers of a quay in their order: the latest destination first, then reefers, then 20 foot before 40 foot,
/// then by number.
pub fn in_order(
    alloc: Global,
    cargo: &Cargo,
    quay: &[ContainerNo],
) -> Result<Seq<ContainerNo>, NoMemory>
    ensures same { IfOk result (λ sorted. IsPermutation quay.now sorted) }
    ensures order { IfOk result (λ sorted. IsInOrder cargo.now sorted) }
{
    let mut items = Vec::from_slice(alloc, quay)?;
    items.sort_by_key(|c| turn(cargo, *c))?;
    Seq::of(alloc, items.as_slice())
}
