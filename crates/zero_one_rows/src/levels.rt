//! Pairs of places that are near, by the level of a separation: separations of one level share them.
ghost use Rattle.std.specs.Prelude.{◌≡◌, ℕ, ◌+◌, ◌<◌, ◌≤◌, ◌++◌, true, length, filter, IfOk, OnOk};
ghost use Rattle.std.specs.List.{range_with_len};
ghost use Rattle.stow_data.specs.Ship.{places};
ghost use Rattle.zero_one_rows.specs.Variables.{Voyage};
ghost use Rattle.zero_one_rows.specs.Levels.{has_level, near_at, pairs_with, pairs_at_level, count_for, pairs_for, AreCounts, ArePairs};

use crate::counts::as_one;
use crate::row_lists::push_item;
use crate::row_tests::are_near;
use std::alloc::Global;
use stow_data::{NoMemory, PlaceNo, Seq, Ship};

/// Two places that are near by a level.
#[derive(Clone, Copy)]
pub struct PlacePair {
    pub first: PlaceNo,
    pub second: PlaceNo,
}

/// How many pairs of places are near by each level that some separation has.
#[derive(Clone, Copy)]
pub struct LevelCounts {
    pub one: u64,
    pub two: u64,
    pub three: u64,
}

/// The pairs of places that are near by each level that some separation has.
#[derive(Drop)]
pub struct LevelPairs {
    pub one: Seq<PlacePair>,
    pub two: Seq<PlacePair>,
    pub three: Seq<PlacePair>,
}

/// Whether some separation has this level.
fn is_used(ship: &Ship, level: u32) -> bool
    ensures { result ≡ has_level ship.now.separations level }
{
    (0..ship.separations()).any(|e| ship.separation(e).level == level)
}

/// How many places are near a place by a level.
fn count_with(ship: &Ship, level: u32, first: PlaceNo) -> u64
    ghost m: { Voyage }
    requires ship { ship.now ≡ m.ship }
    requires place { first < length (places ship.now) }
    ensures number { result ≡ length (pairs_with m level first) }
    ensures size { result ≤ 3000 }
{
    let mut count = 0;
    for q in 0..ship.places() {
        count += as_one(are_near(ship, level, first, PlaceNo(q)));
    }
    count
}

/// How many pairs of places are near by a level.
fn count_pairs_at(ship: &Ship, level: u32) -> u64
    ghost m: { Voyage }
    requires { ship.now ≡ m.ship }
    ensures number { result ≡ length (pairs_at_level m level) }
    ensures size { result ≤ 9000000 }
{
    let mut count = 0;
    for p in 0..ship.places() {
        count += count_with(ship, level, PlaceNo(p));
    }
    count
}

/// The same where some separation has the level; or else 0.
fn count_used(ship: &Ship, level: u32) -> u64
    ghost m: { Voyage }
    requires { ship.now ≡ m.ship }
    ensures number { has_level m.ship.separations level ≡ true → result ≡ length (pairs_at_level m level) }
    ensures size { result ≤ 9000000 }
{
    if !is_used(ship, level) {
        return 0;
    }
    count_pairs_at(ship, level)
}

impl LevelCounts {
    /// The counts of a ship.
    #[tactic(auto, using(crate::proofs::ByLevel::counts_hold))]
    pub fn of(ship: &Ship) -> LevelCounts
        ghost m: { Voyage }
        requires { ship.now ≡ m.ship }
        ensures counts { AreCounts m result }
        ensures size { (level : ℕ) → count_for result level ≤ 9000000 }
    {
        ship.obeys_rules();
        LevelCounts {
            one: count_used(ship, 1),
            two: count_used(ship, 2),
            three: count_used(ship, 3),
        }
    }

    /// That of a level.
    pub fn at(&self, level: u32) -> u64
        ensures { result ≡ count_for self.now level }
    {
        match level {
            1 => self.one,
            2 => self.two,
            _ => self.three,
        }
    }
}

/// Appends the places near a place by a level.
fn push_with(
    list: &mut Seq<PlacePair>,
    ship: &Ship,
    level: u32,
    first: PlaceNo,
) -> Result<(), NoMemory>
    ghost m: { Voyage }
    requires ship { ship.now ≡ m.ship }
    requires place { first < length (places ship.now) }
    ensures { OnOk result (list.new ≡ list.old ++ pairs_with m level first) }
{
    for q in 0..ship.places() {
        let wanted = are_near(ship, level, first, PlaceNo(q));
        push_item(
            list,
            PlacePair {
                first,
                second: PlaceNo(q),
            },
            wanted,
        )?;
    }
    Ok(())
}

/// The pairs of places that are near by a level.
fn list_pairs_at(alloc: Global, ship: &Ship, level: u32) -> Result<Seq<PlacePair>, NoMemory>
    ghost m: { Voyage }
    requires { ship.now ≡ m.ship }
    ensures { IfOk result (λ list. list ≡ pairs_at_level m level) }
{
    let mut list = Seq::new(alloc);
    for p in 0..ship.places() {
        push_with(&mut list, ship, level, PlaceNo(p))?;
    }
    Ok(list)
}

/// The same where some separation has the level; or else none.
fn list_used(alloc: Global, ship: &Ship, level: u32) -> Result<Seq<PlacePair>, NoMemory>
    ghost m: { Voyage }
    requires { ship.now ≡ m.ship }
    ensures { IfOk result (λ list. has_level m.ship.separations level ≡ true → list ≡ pairs_at_level m level) }
{
    if !is_used(ship, level) {
        return Ok(Seq::new(alloc));
    }
    list_pairs_at(alloc, ship, level)
}

impl LevelPairs {
    /// The pairs of a ship.
    #[tactic(auto, using(crate::proofs::ByLevel::pairs_hold))]
    pub fn of(alloc: Global, ship: &Ship) -> Result<LevelPairs, NoMemory>
        ghost m: { Voyage }
        requires { ship.now ≡ m.ship }
        ensures { IfOk result (λ pairs. ArePairs m pairs) }
    {
        ship.obeys_rules();
        Ok(LevelPairs {
            one: list_used(alloc, ship, 1)?,
            two: list_used(alloc, ship, 2)?,
            three: list_used(alloc, ship, 3)?,
        })
    }

    /// Those of a level.
    pub fn at(&self, level: u32) -> &[PlacePair]
        ensures { result.now ≡ pairs_for self.now level }
    {
        match level {
            1 => self.one.as_slice(),
            2 => self.two.as_slice(),
            _ => self.three.as_slice(),
        }
    }
}
