//! Sets of places by a test.
ghost use Rattle.std.specs.Prelude.{◌≡◌, ◌<◌, ℕ, IfOk, length};
ghost use Rattle.stow_data.specs.Ship.{places};
ghost use Rattle.plan_lifts.specs.Spread.{has};

use std::alloc::Global;
use stow_data::{FlagList, NoMemory, PlaceNo, Seq, Ship};

/// The places of which a test holds: for each place of the ship what the test answers.
pub fn places_where<F: Fn(PlaceNo) -> bool>(
    alloc: Global,
    ship: &Ship,
    test: F,
) -> Result<FlagList, NoMemory>
    requires { (p : ℕ) → p < length (places ship.now) → F.pre test p }
    ensures answers { IfOk result (λ set. (p : ℕ) → p < length (places ship.now) → F.post test p (has set p)) }
    ensures each_flag { IfOk result (λ set. length set ≡ length (places ship.now)) }
{
    let mut set = Seq::with_room(alloc, ship.places() as usize)?;
    for p in 0..ship.places() {
        set.push(test(PlaceNo(p)))?;
    }
    Ok(set)
}
