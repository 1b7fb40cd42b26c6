//! The reader of a profile.
ghost use Rattle.std.specs.Prelude.{◌≡◌, ◌≢◌, ◌≤◌, ◌<◌, ◌^◌, All, IfOk, IfErr, Ok, Err, length, flat_map};
ghost use Rattle.std.specs.List.{enumerate_from};
ghost use Rattle.toml.specs.View.{table_view};
ghost use Rattle.stow_data.specs.Profile.{IsShip};
ghost use Rattle.stow_data.specs.Ship.{spans, stack_places};
ghost use Rattle.ship_profile.specs.declared.faults.ProfileFault.TheVariants.{NoMemory as WantOfMemory};
ghost use Rattle.ship_profile.specs.Keys.{Gives, may};
ghost use Rattle.ship_profile.specs.ShipText.{profile_of, ship_of};

use crate::cells::refuse_shared;
use crate::covers::covers_in;
use crate::faults::{ProfileFault, ProfileKey};
use crate::keys::keyed;
use crate::separations::separations_in;
use crate::stacks::stacks_in;
use std::alloc::Global;
use stow_data::{Lengths, Limit, Ship, Stack};
use toml::Table;
use toml_values::{NoDocument, document, name_at, number_at, or_default};

const MOST_PLACES: u64 = 3_000;

/// How many places a stack offers in each of its tiers.
fn places_of_tier(lengths: Lengths) -> u64
    ensures value { result ≡ length (spans lengths) }
    ensures few { result ≤ 3 }
{
    match lengths {
        Lengths::Forty | Lengths::ForeOnly | Lengths::AftOnly => 1,
        Lengths::Twenty => 2,
        Lengths::Mixed => 3,
    }
}

/// The ship of a document.
#[tactic(auto, unfolding(crate::specs::ShipText::ship_of, crate::specs::ShipText::unless_large))]
fn ship_of(alloc: Global, top: &Table) -> Result<Ship, ProfileFault>
    ensures { Gives (λ ship. ship) result (ship_of (table_view top.now)) }
{
    let name = keyed(name_at(top, "name"), ProfileKey::Name, 0)?;
    let step = or_default(number_at(top, "weight_step", 1, 10_000), 1_000);
    let weight_step = keyed(step, ProfileKey::WeightStep, 0)?;
    let stacks = stacks_in(alloc, top)?;
    refuse_shared(alloc, stacks.as_slice())?;
    let covers = covers_in(alloc, stacks.as_slice(), top)?;
    let separations = separations_in(alloc, top)?;
    let value = places_in(stacks.as_slice());
    if value > MOST_PLACES {
        return Err(ProfileFault::TooLarge {
            limit: Limit::Places,
            value,
        });
    }
    Ok(Ship::new(alloc, name, weight_step, stacks, covers, separations)?)
}

/// The ship of a profile, or the first fault of the text, in the order of the keys: `name`, `weight_step`, `stack` with
/// its entries, cells that two stacks share, `cover`, `separate`, and the number of places.
pub fn read_profile(alloc: Global, bytes: &[u8]) -> Result<Ship, ProfileFault>
    ensures ship { IfOk result (λ ship. profile_of bytes.now ≡ Ok ship) }
    ensures fault { IfErr result (λ e. e ≢ WantOfMemory → profile_of bytes.now ≡ Err e) }
    ensures rules { IfOk result IsShip }
{
    match document(alloc, bytes) {
        Ok(top) => ship_of(alloc, &top),
        Err(NoDocument::NotToml) => Err(ProfileFault::NotToml),
        Err(NoDocument::NoMemory) => Err(ProfileFault::NoMemory),
    }
}

/// The number of places of the stacks.
fn places_in(stacks: &[Stack]) -> u64
    requires few { length stacks.now < 2 ^ 32 }
    requires low { All (λ s. s.tiers ≤ 98) stacks.now }
    ensures { result ≡ length (flat_map stack_places (enumerate_from 0 stacks.now)) }
{
    let mut count: u64 = 0;
    for stack in stacks {
        count += u64::from(stack.tiers) * places_of_tier(stack.lengths);
    }
    count
}
