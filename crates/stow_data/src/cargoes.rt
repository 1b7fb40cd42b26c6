//! The cargo of a voyage: the rotation, the tariff, the containers and the arrival.
ghost use Rattle.std.specs.Prelude.{◌≡◌, ◌<◌, ◌≤◌, ◌-◌, ◌^◌, ◌↔◌, IsTrue, Some, length, slice_get, sum};
ghost use Rattle.stow_data.specs.Shipment.{IsAboard, IsCargo, is_aboard, most_cost, price};

use crate::geometry::Length;
use crate::list::{NumberList, Seq};
use crate::names::{Name, NameList};
use crate::numbers::{CallNo, ContainerNo};
use crate::plans::Plan;
use std::marker::Model;

/// Where a container comes from: its group among all groups of the arrival's bay plan, or its booking in the list of bookings, both from 0.
#[derive(Clone, Copy, PartialEq, Eq)]
pub enum Origin {
    Arrived(u32),
    Booked(u32),
}

/// A container.
#[derive(Clone, Drop, PartialEq, Eq)]
pub struct Container {
    pub id: Name,
    /// The call at which it loads; 0 where it is aboard at arrival.
    pub load: CallNo,
    /// The call at which it leaves the ship.
    pub dest: CallNo,
    pub long: Length,
    /// Its weight in kilograms, at most 99,999.
    pub kg: u32,
    pub reefer: bool,
    /// Its class of dangerous goods.
    pub class: Option<Name>,
    pub origin: Origin,
}

impl Container {
    /// Whether it is aboard after a call.
    pub fn is_aboard(&self, call: CallNo) -> bool
        ensures is { IsTrue result ↔ IsAboard call self.now }
        ensures value { result ≡ is_aboard call self.now }
    {
        self.load <= call && call < self.dest
    }
}

/// A list of containers.
pub type ContainerList = Seq<Container>;

/// The sum of prices.
fn sum_of(prices: &[u32]) -> u64
    requires { length prices.now < 2 ^ 32 }
    ensures { result ≡ sum prices.now }
{
    prices.iter().map(|&price| u64::from(price)).sum()
}

/// A cargo: the ports of the calls from 1, the prices of a rehandle at the calls from 1 to the last but one, the containers, and the plan
/// of the ship at arrival.
#[derive(Drop)]
pub struct Cargo {
    rotation: NameList,
    tariff: NumberList,
    containers: ContainerList,
    arrival: Plan,
}

impl Model for Cargo {
    ghost use Rattle.stow_data.specs.Shipment.{Cargo};

    ghost Value = { Cargo };

    ghost use Rattle.stow_data.specs.Cargoes.{cargo_of, HasRules};

    ghost view = { cargo_of };

    ghost invariant = { HasRules };
}

impl Cargo {
    /// A cargo of these parts: 2 to 12 calls, a price of at most 1,000 for each call but the last, at most 5,000 containers with ids that
    /// differ, each bound for a later call than it loads at.
    pub fn new(
        rotation: NameList,
        tariff: NumberList,
        containers: ContainerList,
        arrival: Plan,
    ) -> Cargo
        requires { IsCargo (record { rotation = rotation; tariff = tariff; containers = containers; arrival = arrival }) }
        ensures { result ≡ record { rotation = rotation; tariff = tariff; containers = containers; arrival = arrival } }
    {
        Cargo {
            rotation,
            tariff,
            containers,
            arrival,
        }
    }

    /// The cargo obeys its rules: a law, which costs nothing when it runs.
    pub fn obeys_rules(&self)
        ensures { IsCargo self.now }
    {
        let _opened = &self.rotation;
    }

    /// The number of calls, and that the cargo obeys its rules.
    pub fn calls(&self) -> u32
        ensures number { result ≡ length self.now.rotation }
        ensures rules { IsCargo self.now }
    {
        self.rotation.len() as u32
    }

    /// The port of a call, counted from 1.
    pub fn port(&self, c: CallNo) -> Name
        requires from { 1 ≤ c }
        requires to { c ≤ length self.now.rotation }
        ensures { slice_get self.now.rotation (c - 1) ≡ Some result }
    {
        self.rotation.at(c.0 as usize - 1).copy()
    }

    /// The price of a rehandle at a call; nothing at the arrival and at the last call.
    pub fn tariff(&self, c: CallNo) -> u32
        ensures value { result ≡ price self.now c }
        ensures small { result ≤ 1000 }
    {
        if c.0 == 0 || c.0 as usize > self.tariff.len() {
            return 0;
        }
        *self.tariff.at(c.0 as usize - 1)
    }

    /// A container.
    pub fn container(&self, c: ContainerNo) -> &Container
        requires { c < length self.now.containers }
        ensures { slice_get self.now.containers c ≡ Some result.now }
    {
        self.containers.at(c.0 as usize)
    }

    /// The containers.
    pub(crate) fn containers(&self) -> &[Container]
        ensures { result.now ≡ self.now.containers }
    {
        self.containers.as_slice()
    }

    /// The number of containers.
    pub fn len(&self) -> u32
        ensures { result ≡ length self.now.containers }
    {
        self.containers.len() as u32
    }

    /// The plan of the ship at arrival.
    pub fn arrival(&self) -> &Plan
        ensures { result.now ≡ self.now.arrival }
    {
        &self.arrival
    }

    /// The most that a voyage needs to cost: each container lifted once at each call but the last.
    pub fn limit(&self) -> u64
        ensures { result ≡ most_cost self.now }
    {
        self.containers.len() as u64 * sum_of(self.tariff.as_slice())
    }
}
