//! Crossing rows: the columns of a ship, the loads of pairs, coefficients and right sides.
ghost use Rattle.std.specs.Prelude.{◌≡◌, ℕ, ◌^◌, ◌≤◌, ◌<◌, ◌&&◌, Bool, map, length, unsigned_abs};
ghost use Rattle.std.specs.List.{count_by};
ghost use Rattle.zero_one_rows.specs.Chains.{pairs_of};
ghost use Rattle.stow_data.specs.Ship.{same_length as same_length_of};
ghost use Rattle.zero_one_rows.specs.Variables.{Voyage, all_kinds};
ghost use Rattle.zero_one_rows.specs.Crossing.{is_length as is_length_of, length_of, columns_in as columns_in_of, columns as columns_of, tiers_for as tiers_for_of, tallest as tallest_of, is_of_load as is_of_load_of, load_of, crosses, crossing_side, is_crossing as is_crossing_of};

use crate::all_chains::Chain;
use crate::chain_sides::chain_rhs;
use crate::coefficients::{kind_at, stack_at};
use crate::membership::{has_pair, is_chain_of, pair_at, pair_count};
use crate::program::Var;
use arrayvec::ArrayVec;
use stow_data::{
    CallNo, Cargo, Container, ContainerNo, Kinds, Length, Lengths, Ship, Stack, StackNo,
};

/// The length that a row's number names.
fn length_named(number: u32) -> Length
    ensures { result ≡ length_of number }
{
    if number == 20 {
        Length::Twenty
    } else {
        Length::Forty
    }
}

fn is_same(a: Length, b: Length) -> bool
    ensures { result ≡ same_length_of a b }
{
    match a {
        Length::Twenty => match b {
            Length::Twenty => true,
            Length::Forty => false,
        },
        Length::Forty => match b {
            Length::Twenty => false,
            Length::Forty => true,
        },
    }
}

/// How many columns of a length a stack has.
fn columns_in(long: Length, lengths: Lengths) -> u32
    ensures value { result ≡ columns_in_of long lengths }
    ensures size { result ≤ 2 }
{
    match long {
        Length::Twenty => match lengths {
            Lengths::Forty => 0,
            Lengths::Twenty | Lengths::Mixed => 2,
            Lengths::ForeOnly | Lengths::AftOnly => 1,
        },
        Length::Forty => match lengths {
            Lengths::Forty | Lengths::Mixed => 1,
            Lengths::Twenty | Lengths::ForeOnly | Lengths::AftOnly => 0,
        },
    }
}

/// How many columns of a length a ship has.
pub fn columns(ship: &Ship, long: Length) -> u32
    ensures value { result ≡ columns_of ship.now long }
    ensures size { result ≤ 3000 }
{
    ship.obeys_rules();
    let mut count = 0;
    for s in 0..ship.stacks() {
        count += columns_in(long, stack_at(ship, StackNo(s)).lengths);
    }
    count
}

/// The tiers of a stack that has a column of a length.
fn tiers_for(long: Length, stack: &Stack) -> u32
    ensures { result ≡ tiers_for_of long stack.now }
{
    if columns_in(long, stack.lengths) > 0 {
        stack.tiers
    } else {
        0
    }
}

/// The tiers of the tallest column of a length.
pub fn tallest(ship: &Ship, long: Length) -> u32
    ensures value { result ≡ tallest_of ship.now long }
    ensures size { result ≤ 39 }
{
    ship.obeys_rules();
    let mut most = 0;
    for s in 0..ship.stacks() {
        most = most.max(tiers_for(long, stack_at(ship, StackNo(s))));
    }
    most
}

/// Whether a container is of this length and loads at a call for a destination.
fn is_of_load(long: Length, load: u32, dest: u32, container: &Container) -> bool
    ensures { result ≡ is_of_load_of long load dest container.now }
{
    container.load.0 == load && (container.dest.0 == dest && is_same(long, container.long))
}

/// How many containers of a length load at a call for a destination.
fn count_load(cargo: &Cargo, long: Length, load: u32, dest: u32) -> u32
    ensures { result ≡ count_by (is_of_load_of long load dest) cargo.now.containers }
{
    let mut count = 0;
    for c in 0..cargo.len() {
        if is_of_load(long, load, dest, cargo.container(ContainerNo(c))) {
            count += 1;
        }
    }
    count
}

/// The loads of the pairs of a chain.
fn loads(cargo: &Cargo, long: Length, chain: &Chain) -> ArrayVec<u32, 6>
    ghost m: { Voyage }
    requires { cargo.now ≡ m.cargo }
    ensures value { result.items ≡ map (λ p. load_of m long p.0 p.1) (pairs_of chain.now) }
    ensures few { length result.items ≤ 6 }
{
    let mut loads = ArrayVec::new();
    for k in 0..pair_count(chain) {
        let (load, dest) = pair_at(chain, k);
        loads.push(count_load(cargo, long, load, dest));
    }
    loads
}

/// Whether a variable is loaded for a pair of the chain and lifted before its destination.
pub fn is_crossing_variable(kinds: &Kinds, number: u32, chain: &Chain, x: Var) -> bool
    ghost m: { Voyage }
    requires kinds { kinds.now.list ≡ all_kinds m }
    requires kind { x.kind < length (all_kinds m) }
    ensures { result ≡ crosses m number chain.now x }
{
    let kind = kind_at(kinds, x.kind);
    is_same(length_named(number), kind.long)
        && (has_pair(chain, x.put.0, kind.dest.0) && x.lifted.0 < kind.dest.0)
}

/// The right side of a crossing row.
pub fn crossing_right(ship: &Ship, cargo: &Cargo, length: u32, price: u32, chain: &Chain) -> i64
    ghost m: { Voyage }
    requires ship { ship.now ≡ m.ship }
    requires cargo { cargo.now ≡ m.cargo }
    requires price { price ≤ 39 }
    ensures value { result ≡ crossing_side m length price chain.now }
    ensures size { unsigned_abs result ≤ 2 ^ 36 }
{
    let long = length_named(length);
    let loads = loads(cargo, long, chain);
    chain_rhs(
        loads.as_slice(),
        columns(ship, long),
        tallest(ship, long),
        price,
    )
}

/// Whether a voyage has this crossing row.
pub fn is_crossing(ship: &Ship, cargo: &Cargo, length: u32, price: u32, chain: &Chain) -> bool
    ghost m: { Voyage }
    requires ship { ship.now ≡ m.ship }
    requires cargo { cargo.now ≡ m.cargo }
    ensures { result ≡ is_crossing_of m length price chain.now }
{
    let long = length_named(length);
    let is_length = length == 20 || length == 40;
    is_length
        && (columns(ship, long) > 0
            && (price > 0 && (price <= tallest(ship, long) && is_chain_of(chain, cargo.calls()))))
}
