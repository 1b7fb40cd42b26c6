//! The parts of a program, within its limits.
ghost use Rattle.std.specs.Prelude.{◌≡◌, ◌+◌, ◌<◌, ◌≤◌, IfOk, length};
ghost use Rattle.stow_data.specs.Kinds.{AreKinds};
ghost use Rattle.stow_data.specs.Ship.{places};
ghost use Rattle.zero_one_rows.specs.Variables.{variables};
ghost use Rattle.zero_one_rows.specs.Counted.{row_lists, base_in, base_rows, all_rows};
ghost use Rattle.zero_one_rows.specs.Enumerated.{IsListing};
ghost use Rattle.zero_one_model.specs.Building.{BuildsVariables, AreCounts, BuildsCounts};
ghost use Rattle.zero_one_model.specs.Parts.{AreTables, BuildsTables, BuildsParts};
ghost use Rattle.zero_one_model.specs.Runs.{AreFiled};

use crate::filing::{RowFiles, file_rows};
use crate::index::{Index, index_of};
use crate::refusals::ModelNo;
use std::alloc::Global;
use stow_data::{Cargo, Kinds, Limit, NoMemory, Seq, Ship};
use zero_one_rows::{
    Listing, RowCounts, RowLists, Var, count_rows, gather_offers, list_rows, list_variables,
};

/// The greatest number of variables.
const MOST_VARS: u64 = 200_000;

/// The greatest number of rows.
const MOST_ROWS: u64 = 2_000_000;

/// What is kept of a program beside its kinds and variables.
#[derive(Drop)]
pub struct Tables {
    pub counts: RowCounts,
    pub lists: RowLists,
    pub index: Index,
    pub files: RowFiles,
}

/// The variables of a voyage, counted whole.
fn listed_variables(
    alloc: Global,
    ship: &Ship,
    cargo: &Cargo,
    kinds: &Kinds,
) -> Result<Listing, NoMemory>
    requires kinds { AreKinds ship.now.weight_step cargo.now.containers kinds.now }
    requires arrival { length cargo.now.arrival ≡ length (places ship.now) }
    ensures { IfOk result (λ listing. IsListing (record { ship = ship.now; cargo = cargo.now }) listing) }
{
    let offers = gather_offers(alloc, ship, cargo, kinds)?;
    let listing = list_variables(alloc, ship, cargo, kinds, &offers);
    drop(offers);
    listing
}

/// The variables of a voyage.
fn built_variables(
    alloc: Global,
    ship: &Ship,
    cargo: &Cargo,
    kinds: &Kinds,
) -> Result<Seq<Var>, ModelNo>
    requires kinds { AreKinds ship.now.weight_step cargo.now.containers kinds.now }
    requires arrival { length cargo.now.arrival ≡ length (places ship.now) }
    ensures { BuildsVariables (record { ship = ship.now; cargo = cargo.now }) result }
{
    let listing = listed_variables(alloc, ship, cargo, kinds)?;
    let total = listing.total;
    if total > MOST_VARS {
        drop(listing);
        return Err(ModelNo::TooLarge {
            limit: Limit::Variables,
            value: total,
        });
    }
    Ok(listing.vars)
}

/// How many rows a voyage's program has.
fn built_counts(ship: &Ship, cargo: &Cargo, kinds: &Kinds) -> Result<RowCounts, ModelNo>
    requires kinds { AreKinds ship.now.weight_step cargo.now.containers kinds.now }
    requires arrival { length cargo.now.arrival ≡ length (places ship.now) }
    requires vars { length (variables (record { ship = ship.now; cargo = cargo.now })) ≤ 200000 }
    ensures { BuildsCounts (record { ship = ship.now; cargo = cargo.now }) result }
{
    ship.obeys_rules();
    let counts = count_rows(ship, cargo, kinds);
    if counts.all > MOST_ROWS {
        return Err(ModelNo::TooLarge {
            limit: Limit::Rows,
            value: counts.all,
        });
    }
    Ok(counts)
}

/// The lists of rows, and the base rows filed.
fn filed_rows(
    alloc: Global,
    ship: &Ship,
    cargo: &Cargo,
    kinds: &Kinds,
    base: u64,
) -> Result<(RowLists, RowFiles), NoMemory>
    requires kinds { AreKinds ship.now.weight_step cargo.now.containers kinds.now }
    requires arrival { length cargo.now.arrival ≡ length (places ship.now) }
    requires base { base ≡ length (base_rows (record { ship = ship.now; cargo = cargo.now })) }
    requires few { length (all_rows (record { ship = ship.now; cargo = cargo.now })) ≤ 2000000 }
    ensures lists { IfOk result (λ r. r.0 ≡ row_lists (record { ship = ship.now; cargo = cargo.now })) }
    ensures files { IfOk result (λ r. AreFiled ship.now (base_in r.0) r.1) }
{
    ship.obeys_rules();
    let lists = list_rows(alloc, ship, cargo, kinds)?;
    match file_rows(alloc, ship, &lists, base) {
        Ok(files) => Ok((lists, files)),
        Err(no) => {
            drop(lists);
            Err(no)
        }
    }
}

/// The tables of a program with so many rows.
fn tables_of(
    alloc: Global,
    ship: &Ship,
    cargo: &Cargo,
    kinds: &Kinds,
    vars: &[Var],
    counts: RowCounts,
) -> Result<Tables, NoMemory>
    requires kinds { AreKinds ship.now.weight_step cargo.now.containers kinds.now }
    requires arrival { length cargo.now.arrival ≡ length (places ship.now) }
    requires vars { vars.now ≡ variables (record { ship = ship.now; cargo = cargo.now }) }
    requires few { length vars.now ≤ 200000 }
    requires counts { AreCounts (record { ship = ship.now; cargo = cargo.now }) counts }
    ensures { IfOk result (λ t. AreTables (record { ship = ship.now; cargo = cargo.now }) t) }
{
    let index = index_of(alloc, ship, cargo.calls(), kinds.len(), vars)?;
    match filed_rows(alloc, ship, cargo, kinds, counts.base) {
        Ok((lists, files)) => Ok(Tables {
            counts,
            lists,
            index,
            files,
        }),
        Err(no) => {
            drop(index);
            Err(no)
        }
    }
}

/// The tables of a voyage's program.
fn built_tables(
    alloc: Global,
    ship: &Ship,
    cargo: &Cargo,
    kinds: &Kinds,
    vars: &[Var],
) -> Result<Tables, ModelNo>
    requires kinds { AreKinds ship.now.weight_step cargo.now.containers kinds.now }
    requires arrival { length cargo.now.arrival ≡ length (places ship.now) }
    requires vars { vars.now ≡ variables (record { ship = ship.now; cargo = cargo.now }) }
    requires few { length vars.now ≤ 200000 }
    ensures { BuildsTables (record { ship = ship.now; cargo = cargo.now }) result }
{
    let counts = built_counts(ship, cargo, kinds)?;
    Ok(tables_of(alloc, ship, cargo, kinds, vars, counts)?)
}

/// The variables of a voyage, and the tables of its program.
pub fn built_parts(
    alloc: Global,
    ship: &Ship,
    cargo: &Cargo,
    kinds: &Kinds,
) -> Result<(Seq<Var>, Tables), ModelNo>
    requires kinds { AreKinds ship.now.weight_step cargo.now.containers kinds.now }
    requires arrival { length cargo.now.arrival ≡ length (places ship.now) }
    ensures { BuildsParts (record { ship = ship.now; cargo = cargo.now }) result }
{
    let vars = built_variables(alloc, ship, cargo, kinds)?;
    match built_tables(alloc, ship, cargo, kinds, vars.as_slice()) {
        Ok(tables) => Ok((vars, tables)),
        Err(no) => {
            drop(vars);
            Err(no)
        }
    }
}
