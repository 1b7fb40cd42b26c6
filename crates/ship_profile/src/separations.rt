//! The separations of a profile.
ghost use Rattle.std.specs.Prelude.{◌≡◌, ◌<◌, ◌^◌, IfOk, length};
ghost use Rattle.toml.specs.View.{array_view, table_view, view};
ghost use Rattle.ship_profile.specs.Keys.{Gives, entry_at};
ghost use Rattle.ship_profile.specs.Separations.{classes_and_level, separation_of, separations_in, separations_of};

use crate::faults::{ProfileFault, ProfileKey};
use crate::keys::keyed;
use crate::separations_so_far::SeparationsSoFar;
use std::alloc::Global;
use stow_data::{NoMemory, Separation, SeparationList};
use toml::value::Array;
use toml::{Table, Value};
use toml_values::{Unread, class_at, number_at, table_of, tables_at};

#[tactic(auto, unfolding(crate::specs::Separations::classes_and_level))]
fn classes_and_level(entry: &Table) -> Result<Separation, Unread>
    ensures { result ≡ classes_and_level (table_view entry.now) }
{
    let a = class_at(entry, "a")?;
    let b = class_at(entry, "b")?;
    let level = number_at(entry, "level", 1, 3)?;
    Ok(Separation { a, b, level })
}

#[tactic(auto, unfolding(crate::specs::Separations::separation_of))]
fn separation_of(
    index: u32,
    earlier: &SeparationsSoFar,
    entry: &Table,
) -> Result<Separation, ProfileFault>
    ensures { result ≡ separation_of index earlier.now (table_view entry.now) }
{
    let Ok(separation) = classes_and_level(entry) else {
        return Err(ProfileFault::BadSeparation { index });
    };
    if earlier.has_pair(&separation) {
        return Err(ProfileFault::BadSeparation { index });
    }
    Ok(separation)
}

fn separation_at(
    index: u32,
    earlier: &SeparationsSoFar,
    value: &Value,
) -> Result<Separation, ProfileFault>
    ensures { Gives (λ e. e) result (entry_at ProfileKey.Separate (separation_of index earlier.now) (view value.now)) }
{
    match table_of(value) {
        Ok(entry) => separation_of(index, earlier, entry),
        Err(unread) => keyed(Err(unread), ProfileKey::Separate, 0),
    }
}

fn separations_of(alloc: Global, entries: &Array) -> Result<SeparationList, ProfileFault>
    ensures read { Gives (λ separations. separations) result (separations_of (array_view entries.now)) }
    ensures few { IfOk result (λ separations. length separations < 2 ^ 32) }
{
    let mut separations = SeparationsSoFar::new(alloc);
    let mut index: u32 = 1;
    for entry in entries {
        let separation = separation_at(index, &separations, entry)?;
        separations = separations.with(separation)?;
        index = index.checked_add(1).ok_or(NoMemory)?;
    }
    Ok(separations.into_list())
}

/// The separations of a profile, of which there are fewer than 2^32.
#[tactic(auto, unfolding(toml_values::specs::Arrays::each_after))]
pub fn separations_in(alloc: Global, top: &Table) -> Result<SeparationList, ProfileFault>
    ensures read { Gives (λ separations. separations) result (separations_in (table_view top.now)) }
    ensures few { IfOk result (λ separations. length separations < 2 ^ 32) }
{
    match tables_at(top, "separate") {
        Ok(entries) => separations_of(alloc, entries),
        Err(Unread::Missing) => Ok(SeparationList::new(alloc)),
        Err(Unread::BadValue) => Err(ProfileFault::BadValue {
            key: ProfileKey::Separate,
            index: 0,
        }),
    }
}
