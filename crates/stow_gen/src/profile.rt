//! The profile of the made ship.
ghost use Rattle.std.specs.Prelude.{◌≡◌, ◌++◌, ◌∷◌, [], codes, flat_map, IfOk, OnOk};
ghost use Rattle.stow_gen.specs.Profile.{bay_text, bays, cover_text, pairs_text, profile_text, rows, stack_text, stacks_text};

use crate::words::{write_raw, write_told};
use std::alloc::Global;
use stow_data::{Bytes, NoMemory};

/// The rest of a stack in the hold.
const IN_HOLD: &[u8] = b"\ntiers = [2, 4, 6]\nlengths = \"40\"\nlimit_kg = 90000\n";

/// The rest of a stack on deck.
const ON_DECK: &[u8] =
    b"\ntiers = [82, 84, 86]\nlengths = \"40\"\nlimit_kg = 90000\nplugs = [82]\n";

fn write_stack(out: &mut Bytes, rest: &[u8], bay: u32, row: u32) -> Result<(), NoMemory>
    ensures { OnOk result (out.new ≡ out.old ++ stack_text rest.now bay row) }
{
    write_told(out, b"[[stack]]\nbay = ", bay)?;
    write_told(out, b"\nrow = ", row)?;
    write_raw(out, rest)
}

/// Appends the stacks of these rows of a bay.
fn write_rows(out: &mut Bytes, rest: &[u8], bay: u32, rows: &[u32]) -> Result<(), NoMemory>
    ensures { OnOk result (out.new ≡ out.old ++ flat_map (stack_text rest.now bay) rows.now) }
{
    for row in rows {
        write_stack(out, rest, bay, *row)?;
    }
    Ok(())
}

/// Appends the stacks of these bays.
fn write_stacks(out: &mut Bytes, rest: &[u8], bays: &[u32]) -> Result<(), NoMemory>
    ensures { OnOk result (out.new ≡ out.old ++ flat_map (bay_text rest.now) bays.now) }
{
    for bay in bays {
        write_rows(out, rest, *bay, &[1, 2, 3, 4])?;
    }
    Ok(())
}

/// Appends the four rows of a bay, as pairs.
#[tactic(auto, unfolding(crate::specs::Profile::pairs_text))]
fn write_pairs(out: &mut Bytes, bay: u32) -> Result<(), NoMemory>
    ensures { OnOk result (out.new ≡ out.old ++ pairs_text bay) }
{
    write_told(out, b"[[", bay)?;
    write_told(out, b", 1], [", bay)?;
    write_told(out, b", 2], [", bay)?;
    write_told(out, b", 3], [", bay)?;
    write_raw(out, b", 4]]")
}

fn write_cover(out: &mut Bytes, bay: u32) -> Result<(), NoMemory>
    ensures { OnOk result (out.new ≡ out.old ++ cover_text bay) }
{
    write_raw(out, b"[[cover]]\nunder = ")?;
    write_pairs(out, bay)?;
    write_raw(out, b"\non = ")?;
    write_pairs(out, bay)?;
    write_raw(out, b"\n")
}

/// Appends the covers of these bays.
fn write_covers(out: &mut Bytes, bays: &[u32]) -> Result<(), NoMemory>
    ensures { OnOk result (out.new ≡ out.old ++ flat_map cover_text bays.now) }
{
    for bay in bays {
        write_cover(out, *bay)?;
    }
    Ok(())
}

/// The profile of the made ship of a number: one ship for all of them.
#[tactic(auto, unfolding(crate::specs::Profile::profile_text))]
pub fn make_profile(alloc: Global, _number: u32) -> Result<Bytes, NoMemory>
    ensures { IfOk result (λ text. text ≡ profile_text) }
{
    let bays = [2, 6, 10, 14];
    let mut out = Bytes::new(alloc);
    write_raw(&mut out, b"name = \"FEEDER\"\nweight_step = 5000\n")?;
    write_stacks(&mut out, IN_HOLD, &bays)?;
    write_stacks(&mut out, ON_DECK, &bays)?;
    write_covers(&mut out, &bays)?;
    Ok(out)
}
