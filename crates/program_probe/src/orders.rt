//! Orders: what is to be printed of which voyage.
ghost use Rattle.std.specs.Prelude.{◌≡◌};
ghost use Rattle.stowage_rules.specs.Departure.{HasArrival};
ghost use Rattle.model_bridge.specs.Laws.{IsProblem};

use crate::bridge::{write_asked, write_loaded};
use crate::inputs::{Named, Voyage, records_in, voyage_of};
use crate::program::{write_rows, write_sizes, write_steps, write_variables};
use crate::sums::{write_sums, write_tables};
use certificate::Tree;
use std::alloc::Global;
use stow_data::{Bytes, NoMemory, Word};
use stow_io::Folder;
use zero_one_model::{Model, ModelNo};

/// What is printed of a voyage.
#[derive(Clone, Copy)]
enum Wanted {
    Sizes,
    Variables,
    Rows,
    /// The rows that records name as steps.
    Steps,
    /// How large the sums of the rows are.
    Sums,
    /// The tables of a search.
    Tables,
    /// The loader's plans, and their full box.
    Loaded,
    /// The plans of the full box whose ones are the variables by which records divide.
    Full,
}

fn wanted_of(word: &str) -> Option<Wanted> {
    match word {
        "sizes" => Some(Wanted::Sizes),
        "variables" => Some(Wanted::Variables),
        "rows" => Some(Wanted::Rows),
        "steps" => Some(Wanted::Steps),
        "sums" => Some(Wanted::Sums),
        "tables" => Some(Wanted::Tables),
        "loaded" => Some(Wanted::Loaded),
        "full" => Some(Wanted::Full),
        _ => None,
    }
}

/// The name that a word gives; a stroke gives none.
fn name_of(word: &Word) -> Option<&str> {
    match word.as_str() {
        "-" => None,
        name => Some(name),
    }
}

fn write_wanted<'a>(
    alloc: Global,
    wanted: Wanted,
    v: &Voyage,
    model: &'a Model<'a>,
    records: &Tree,
    out: &mut Bytes,
) -> Result<(), NoMemory>
    requires arrival { HasArrival v.now.ship v.now.cargo }
    requires ship { model.now.ship ≡ v.now.ship }
    requires cargo { model.now.cargo ≡ v.now.cargo }
    requires problem { IsProblem model.now }
{
    match wanted {
        Wanted::Sizes => write_sizes(model, out),
        Wanted::Variables => write_variables(alloc, model, out),
        Wanted::Rows => write_rows(alloc, model, out),
        Wanted::Steps => write_steps(alloc, model, records, out),
        Wanted::Sums => write_sums(alloc, model, out),
        Wanted::Tables => write_tables(alloc, model, out),
        Wanted::Loaded => write_loaded(alloc, &v.ship, &v.cargo, model, out),
        Wanted::Full => write_asked(alloc, &v.ship, &v.cargo, model, records, out),
    }
}

/// What is wanted of a voyage, where its program is within the limits.
fn write_built(
    alloc: Global,
    wanted: Wanted,
    v: &Voyage,
    records: &Tree,
    out: &mut Bytes,
) -> Result<(), NoMemory>
    requires { HasArrival v.now.ship v.now.cargo }
{
    v.ship.obeys_rules();
    v.cargo.obeys_rules();
    match Model::build(alloc, &v.ship, &v.cargo) {
        Ok(model) => {
            let written = write_wanted(alloc, wanted, v, &model, records, out);
            drop(model);
            written
        }
        Err(ModelNo::TooLarge { .. }) => out.extend(b"too large\n"),
        Err(ModelNo::NoMemory) => Err(NoMemory),
    }
}

/// What is wanted of the voyage of some files, with some records.
fn write_with<F: Folder>(
    alloc: Global,
    wanted: Wanted,
    named: Named,
    records: &Tree,
    folder: &mut F,
    out: &mut Bytes,
) -> Result<(), NoMemory> {
    match voyage_of(alloc, named, folder) {
        Some(v) => {
            let written = write_built(alloc, wanted, &v, records, out);
            drop(v);
            written
        }
        None => out.extend(b"no voyage\n"),
    }
}

fn write_order<F: Folder>(
    alloc: Global,
    wanted: Wanted,
    named: Named,
    folder: &mut F,
    out: &mut Bytes,
) -> Result<(), NoMemory> {
    let records = records_in(alloc, named, folder);
    let written = write_with(alloc, wanted, named, &records, folder, out);
    drop(records);
    written
}

/// What the words order, five words an order: what is wanted, profile, bookings, bay plan at arrival, records.
pub fn write_orders<F: Folder>(
    alloc: Global,
    words: &[Word],
    folder: &mut F,
    out: &mut Bytes,
) -> Result<(), NoMemory> {
    let [wanted, profile, bookings, arrival, records, rest @ ..] = words else {
        return Ok(());
    };
    let named = Named {
        profile: profile.as_str(),
        bookings: bookings.as_str(),
        arrival: name_of(arrival),
        records: name_of(records),
    };
    match wanted_of(wanted.as_str()) {
        Some(wanted) => write_order(alloc, wanted, named, folder, out)?,
        None => out.extend(b"no order\n")?,
    }
    write_orders(alloc, rest, folder, out)
}
