//! The containers that a departure file leaves out.
ghost use Rattle.std.specs.Prelude.{◌≡◌, ◌<◌, IfSome, length};
ghost use Rattle.plan_files.specs.PlanOf.{first_missing, is_missing};

use crate::groups::{is_aboard, is_placed};
use stow_data::{CallNo, Cargo, ContainerNo, FlagList};

/// Whether a container is aboard after a call and doesn't stand anywhere.
fn is_missing(cargo: &Cargo, call: CallNo, placed: &FlagList, c: ContainerNo) -> bool
    requires inside { c < length cargo.now.containers }
    requires each_container { length placed.now ≡ length cargo.now.containers }
    ensures { result ≡ is_missing cargo.now call placed.now c }
{
    is_aboard(cargo, c, call) && !is_placed(placed, c)
}

/// The first such container.
#[tactic(auto, unfolding(crate::specs::PlanOf::first_missing))]
pub fn first_missing(cargo: &Cargo, call: CallNo, placed: &FlagList) -> Option<ContainerNo>
    requires { length placed.now ≡ length cargo.now.containers }
    ensures is { result ≡ first_missing cargo.now call placed.now }
    ensures inside { IfSome result (λ c. c < length cargo.now.containers) }
{
    let first = (0..cargo.len()).find(|n| is_missing(cargo, call, placed, ContainerNo(*n)))?;
    Some(ContainerNo(first))
}
