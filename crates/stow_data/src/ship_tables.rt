//! What a ship looks up: its places, half-cells and covers in tables.
ghost use Rattle.std.specs.Prelude.{◌≡◌, ◌<◌, All, IfOk, flat_map, length};
ghost use Rattle.std.specs.List.{enumerate_from};
ghost use Rattle.stow_data.specs.CellTable.{EachBounded, IsCellTable};
ghost use Rattle.stow_data.specs.CoverTable.{IsCoverTable, listed};
ghost use Rattle.stow_data.specs.Ship.{stack_halves, stack_places};
ghost use Rattle.stow_data.specs.declared.hatches.Naming.TheVariants.{Under, On};

use crate::cells::{CellNumber, cell_table};
use crate::geometry::{Cover, Half, Place, Stack};
use crate::hatches::{Naming, cover_table};
use crate::list::{NoMemory, Seq};
use crate::numbers::{CoverNo, PlaceNo};
use crate::tables::{half_table, place_table};
use std::alloc::Global;
use std::collections::BTreeMap;

/// The places in order, and the place that has each bay, row and tier number.
#[derive(Drop)]
struct PlaceTables {
    places: Seq<Place>,
    cells: BTreeMap<CellNumber, PlaceNo>,
}

/// The tables of the places, and the half-cells in order.
#[derive(Drop)]
struct StackTables {
    places: Seq<Place>,
    cells: BTreeMap<CellNumber, PlaceNo>,
    halves: Seq<Half>,
}

/// For each stack the cover over it, and the one under it.
#[derive(Drop)]
struct CoverTables {
    over: Seq<Option<CoverNo>>,
    under: Seq<Option<CoverNo>>,
}

/// The tables of a ship.
#[derive(Drop)]
pub struct ShipTables {
    pub places: Seq<Place>,
    pub cells: BTreeMap<CellNumber, PlaceNo>,
    pub halves: Seq<Half>,
    pub over: Seq<Option<CoverNo>>,
    pub under: Seq<Option<CoverNo>>,
}

/// The tables of the places of these stacks.
fn place_tables(alloc: Global, stacks: &[Stack]) -> Result<PlaceTables, NoMemory>
    requires plugs { All (λ s. length s.plugs ≡ s.tiers) stacks.now }
    requires bounded { EachBounded stacks.now (flat_map stack_places (enumerate_from 0 stacks.now)) }
    ensures places { IfOk result (λ t. t.places ≡ flat_map stack_places (enumerate_from 0 stacks.now)) }
    ensures cells { IfOk result (λ t. IsCellTable stacks.now t.places t.cells) }
{
    let places = place_table(alloc, stacks)?;
    match cell_table(alloc, stacks, places.as_slice()) {
        Ok(cells) => Ok(PlaceTables { places, cells }),
        Err(no) => {
            drop(places);
            Err(no)
        }
    }
}

/// The tables of the places and half-cells of these stacks.
fn stack_tables(alloc: Global, stacks: &[Stack]) -> Result<StackTables, NoMemory>
    requires plugs { All (λ s. length s.plugs ≡ s.tiers) stacks.now }
    requires bounded { EachBounded stacks.now (flat_map stack_places (enumerate_from 0 stacks.now)) }
    ensures places { IfOk result (λ t. t.places ≡ flat_map stack_places (enumerate_from 0 stacks.now)) }
    ensures cells { IfOk result (λ t. IsCellTable stacks.now t.places t.cells) }
    ensures halves { IfOk result (λ t. t.halves ≡ flat_map stack_halves (enumerate_from 0 stacks.now)) }
{
    let tables = place_tables(alloc, stacks)?;
    match half_table(alloc, stacks) {
        Ok(halves) => Ok(StackTables {
            places: tables.places,
            cells: tables.cells,
            halves,
        }),
        Err(no) => {
            drop(tables);
            Err(no)
        }
    }
}

/// The tables of covers over and under so many stacks.
fn cover_tables(alloc: Global, stacks: usize, covers: &[Cover]) -> Result<CoverTables, NoMemory>
    requires over { All (λ c. All (λ s. s < stacks) (listed Under c)) covers.now }
    requires under { All (λ c. All (λ s. s < stacks) (listed On c)) covers.now }
    ensures over_each { IfOk result (λ t. length t.over ≡ stacks) }
    ensures over { IfOk result (λ t. IsCoverTable covers.now Under t.over) }
    ensures under_each { IfOk result (λ t. length t.under ≡ stacks) }
    ensures under { IfOk result (λ t. IsCoverTable covers.now On t.under) }
{
    let over = cover_table(alloc, stacks, covers, Naming::Under)?;
    match cover_table(alloc, stacks, covers, Naming::On) {
        Ok(under) => Ok(CoverTables { over, under }),
        Err(no) => {
            drop(over);
            Err(no)
        }
    }
}

/// The tables of a ship of these stacks and covers.
pub fn ship_tables(
    alloc: Global,
    stacks: &[Stack],
    covers: &[Cover],
) -> Result<ShipTables, NoMemory>
    requires plugs { All (λ s. length s.plugs ≡ s.tiers) stacks.now }
    requires bounded { EachBounded stacks.now (flat_map stack_places (enumerate_from 0 stacks.now)) }
    requires over { All (λ c. All (λ s. s < length stacks.now) (listed Under c)) covers.now }
    requires under { All (λ c. All (λ s. s < length stacks.now) (listed On c)) covers.now }
    ensures places { IfOk result (λ t. t.places ≡ flat_map stack_places (enumerate_from 0 stacks.now)) }
    ensures cells { IfOk result (λ t. IsCellTable stacks.now t.places t.cells) }
    ensures halves { IfOk result (λ t. t.halves ≡ flat_map stack_halves (enumerate_from 0 stacks.now)) }
    ensures over_each { IfOk result (λ t. length t.over ≡ length stacks.now) }
    ensures over { IfOk result (λ t. IsCoverTable covers.now Under t.over) }
    ensures under_each { IfOk result (λ t. length t.under ≡ length stacks.now) }
    ensures under { IfOk result (λ t. IsCoverTable covers.now On t.under) }
{
    let of_stacks = stack_tables(alloc, stacks)?;
    match cover_tables(alloc, stacks.len(), covers) {
        Ok(of_covers) => Ok(ShipTables {
            places: of_stacks.places,
            cells: of_stacks.cells,
            halves: of_stacks.halves,
            over: of_covers.over,
            under: of_covers.under,
        }),
        Err(no) => {
            drop(of_stacks);
            Err(no)
        }
    }
}
